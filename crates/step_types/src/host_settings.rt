ghost use Rattle.std.specs.Prelude.{◌≡◌, true, false};

use crate::Settings;

impl Settings {
    /// Returns the settings under which a debugger's end kills its tracees.
    pub fn standard() -> Settings
        ensures { result ≡ record { kill_on_debugger_exit = true } }
    {
        Settings {
            kill_on_debugger_exit: true,
        }
    }

    /// Returns the settings under which a debugger's end detaches its tracees.
    pub fn detach_on_exit() -> Settings
        ensures { result ≡ record { kill_on_debugger_exit = false } }
    {
        Settings {
            kill_on_debugger_exit: false,
        }
    }
}
