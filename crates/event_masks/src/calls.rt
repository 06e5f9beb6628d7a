//! The kinds of system calls, with their names and numbers.

ghost use Rattle.std.specs.Prelude.{◌≡◌, Some};
ghost use Rattle.event_masks.specs.Calls.{kind_of_call, call_name, call_named, call_number, call_numbered};

use crate::{Call, CallKind};

impl Call {
    /// Returns the kind of the call.
    pub fn kind(&self) -> CallKind
        ensures { result ≡ kind_of_call self.now }
    {
        match self {
            Call::Fork => CallKind::Fork,
            Call::Vfork => CallKind::Vfork,
            Call::Exec => CallKind::Exec,
            Call::ThrNew => CallKind::ThrNew,
            Call::ThrExit => CallKind::ThrExit,
            Call::Exit(_) => CallKind::Exit,
            Call::Other(_) => CallKind::Other,
        }
    }
}

impl CallKind {
    /// Returns the name in a scenario.
    pub fn name(&self) -> &'static str
        ensures named { result.now ≡ call_name self.now }
        ensures inverse { call_named result.now ≡ Some self.now }
    {
        match self {
            CallKind::Fork => "fork",
            CallKind::Vfork => "vfork",
            CallKind::Exec => "exec",
            CallKind::ThrNew => "thr_new",
            CallKind::ThrExit => "thr_exit",
            CallKind::Exit => "exit",
            CallKind::Other => "other",
        }
    }

    /// Returns the kind with this name, or `None` if no kind has it.
    pub fn by_name(name: &str) -> Option<CallKind>
        ensures { result ≡ call_named name.now }
    {
        match name {
            "fork" => Some(CallKind::Fork),
            "vfork" => Some(CallKind::Vfork),
            "exec" => Some(CallKind::Exec),
            "thr_new" => Some(CallKind::ThrNew),
            "thr_exit" => Some(CallKind::ThrExit),
            "exit" => Some(CallKind::Exit),
            "other" => Some(CallKind::Other),
            _ => None,
        }
    }

    /// Returns the number.
    pub fn number(&self) -> u32
        ensures numbered { result ≡ call_number self.now }
        ensures inverse { call_numbered result ≡ Some self.now }
    {
        match self {
            CallKind::Fork => 0,
            CallKind::Vfork => 1,
            CallKind::Exec => 2,
            CallKind::ThrNew => 3,
            CallKind::ThrExit => 4,
            CallKind::Exit => 5,
            CallKind::Other => 6,
        }
    }

    /// Returns the kind with this number, or `None` if no kind has it.
    pub fn by_number(number: u32) -> Option<CallKind>
        ensures { result ≡ call_numbered number }
    {
        match number {
            0 => Some(CallKind::Fork),
            1 => Some(CallKind::Vfork),
            2 => Some(CallKind::Exec),
            3 => Some(CallKind::ThrNew),
            4 => Some(CallKind::ThrExit),
            5 => Some(CallKind::Exit),
            6 => Some(CallKind::Other),
            _ => None,
        }
    }
}
