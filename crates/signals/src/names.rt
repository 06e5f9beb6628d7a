//! The names of signals, as in signal(3), and the names and numbers of dispositions.

ghost use Rattle.std.specs.Prelude.{◌≡◌, Some};
ghost use Rattle.signals.specs.Dispositions.{disposition_name, disposition_named, disposition_number, disposition_numbered};
ghost use Rattle.signals.specs.Names.{signal_name, by_name};

use crate::{Disposition, Signal};

impl Signal {
    /// Returns the signal's name, such as `SIGHUP`.
    #[tactic(auto, unfolding(crate::specs::Names::table))]
    pub fn name(&self) -> &'static str
        ensures { result.now ≡ signal_name self.now }
    {
        match self.number {
            1 => "SIGHUP",
            2 => "SIGINT",
            3 => "SIGQUIT",
            4 => "SIGILL",
            5 => "SIGTRAP",
            6 => "SIGABRT",
            7 => "SIGEMT",
            8 => "SIGFPE",
            9 => "SIGKILL",
            10 => "SIGBUS",
            11 => "SIGSEGV",
            12 => "SIGSYS",
            13 => "SIGPIPE",
            14 => "SIGALRM",
            15 => "SIGTERM",
            16 => "SIGURG",
            17 => "SIGSTOP",
            18 => "SIGTSTP",
            19 => "SIGCONT",
            20 => "SIGCHLD",
            21 => "SIGTTIN",
            22 => "SIGTTOU",
            23 => "SIGIO",
            24 => "SIGXCPU",
            25 => "SIGXFSZ",
            26 => "SIGVTALRM",
            27 => "SIGPROF",
            28 => "SIGWINCH",
            29 => "SIGINFO",
            30 => "SIGUSR1",
            _ => "SIGUSR2",
        }
    }

    /// Returns the signal with this name, or `None` if no signal has it.
    pub fn by_name(name: &str) -> Option<Signal>
        ensures { result ≡ by_name name.now }
    {
        for number in 1..32 {
            let signal = Signal { number };
            if signal.name() == name {
                return Some(signal);
            }
        }
        None
    }
}

impl Disposition {
    /// Returns the name: `default`, `ignore` or `catch`.
    pub fn name(&self) -> &'static str
        ensures named { result.now ≡ disposition_name self.now }
        ensures inverse { disposition_named result.now ≡ Some self.now }
    {
        match self {
            Disposition::Default => "default",
            Disposition::Ignore => "ignore",
            Disposition::Catch => "catch",
        }
    }

    /// Returns the disposition with this name, or `None` if no disposition has it.
    pub fn by_name(name: &str) -> Option<Disposition>
        ensures { result ≡ disposition_named name.now }
    {
        match name {
            "default" => Some(Disposition::Default),
            "ignore" => Some(Disposition::Ignore),
            "catch" => Some(Disposition::Catch),
            _ => None,
        }
    }

    /// Returns the number: 0 for the default one, 1 to ignore, 2 to catch.
    pub fn number(&self) -> u32
        ensures numbered { result ≡ disposition_number self.now }
        ensures inverse { disposition_numbered result ≡ Some self.now }
    {
        match self {
            Disposition::Default => 0,
            Disposition::Ignore => 1,
            Disposition::Catch => 2,
        }
    }

    /// Returns the disposition with this number, or `None` if no disposition has it.
    pub fn by_number(number: u32) -> Option<Disposition>
        ensures { result ≡ disposition_numbered number }
    {
        match number {
            0 => Some(Disposition::Default),
            1 => Some(Disposition::Ignore),
            2 => Some(Disposition::Catch),
            _ => None,
        }
    }
}
