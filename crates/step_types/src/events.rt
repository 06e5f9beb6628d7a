ghost use Rattle.std.specs.Prelude.{◌≡◌};
ghost use Rattle.step_types.specs.Events.{event_name};

use crate::Event;
use std::fmt;

impl Event {
    /// Returns the event's name, NONE or SIGNAL.
    pub fn name(&self) -> &'static str
        ensures { result.now ≡ event_name self.now }
    {
        match self {
            Event::Nothing => "NONE",
            Event::Signal => "SIGNAL",
        }
    }
}

/// Prints the event's name.
impl fmt::Display for Event {
    ghost use Rattle.std.specs.Prelude.{Some};

    ghost output = { λ e. Some (event_name e) };

    fn fmt<W: fmt::Write>(&self, f: &mut fmt::Formatter<W>) -> fmt::Result {
        f.write_str(self.name())
    }
}
