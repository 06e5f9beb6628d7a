//! The format of scenarios as a table: the keys of an object in the order in which they are checked, and what their
//! values may be. No key belongs to two levels of one object.

use crate::tables::{
    ACTIONS, ACTS, CALLS, DECISIONS, EVENTS, OPS, REQUESTS, STOP_FLAGS, WAIT_OPTIONS,
};

/// Whole numbers from one to another.
#[derive(Clone, Copy)]
pub(crate) struct Range {
    pub(crate) least: u32,
    pub(crate) most: u32,
}

/// A table of names.
#[derive(Clone, Copy)]
pub(crate) enum Table {
    Op,
    Request,
    Event,
    WaitOption,
    Action,
    Act,
    Call,
    Decision,
    StopFlag,
}

/// What the value of a key may be.
#[derive(Clone, Copy)]
pub(crate) enum Kind {
    Number(Range),
    /// A whole number of 64 bits.
    Whole,
    /// A name to which more keys may belong.
    Choice(Table),
    Name(Table),
    Names(Table),
    Numbers(Range),
    Rules,
    Steps,
    /// The setting of the host. Its range is checked after the keys.
    Setting,
}

/// A key of an object.
pub(crate) enum Key {
    Needed(&'static str, Kind),
    Optional(&'static str, Kind),
}

impl Key {
    pub(crate) fn name(&self) -> &'static str {
        match self {
            Key::Needed(name, _) | Key::Optional(name, _) => name,
        }
    }

    pub(crate) fn kind(&self) -> Kind {
        match self {
            Key::Needed(_, kind) | Key::Optional(_, kind) => *kind,
        }
    }

    pub(crate) fn is_needed(&self) -> bool {
        match self {
            Key::Needed(_, _) => true,
            Key::Optional(_, _) => false,
        }
    }
}

/// The most steps of a scenario.
pub(crate) const MAX_STEPS: usize = 100000;

/// The most rules of a policy.
pub(crate) const MAX_RULES: usize = 16;

/// How many levels of keys there are: those of every step, of its op, of its act or request, and of the call.
pub(crate) const LEVELS: usize = 4;

/// The names of the signals, from number 1 on.
pub(crate) const SIGNALS: [&str; 31] = [
    "SIGHUP",
    "SIGINT",
    "SIGQUIT",
    "SIGILL",
    "SIGTRAP",
    "SIGABRT",
    "SIGEMT",
    "SIGFPE",
    "SIGKILL",
    "SIGBUS",
    "SIGSEGV",
    "SIGSYS",
    "SIGPIPE",
    "SIGALRM",
    "SIGTERM",
    "SIGURG",
    "SIGSTOP",
    "SIGTSTP",
    "SIGCONT",
    "SIGCHLD",
    "SIGTTIN",
    "SIGTTOU",
    "SIGIO",
    "SIGXCPU",
    "SIGXFSZ",
    "SIGVTALRM",
    "SIGPROF",
    "SIGWINCH",
    "SIGINFO",
    "SIGUSR1",
    "SIGUSR2",
];

/// The key of the setting of the host, and its values.
pub(crate) const SETTING_KEY: &str = "kill_on_debugger_exit";

pub(crate) const SETTING: Range = Range { least: 0, most: 1 };

/// The keys of a scenario.
pub(crate) const SCENARIO: [Key; 2] = [
    Key::Needed("steps", Kind::Steps),
    Key::Optional("kill_on_debugger_exit", Kind::Setting),
];

/// A name of a table, and the keys that belong to it.
pub(crate) struct Case(pub(crate) &'static str, pub(crate) &'static [Key]);

impl Case {
    pub(crate) fn name(&self) -> &'static str {
        self.0
    }

    pub(crate) fn keys(&self) -> &'static [Key] {
        self.1
    }
}

impl Table {
    /// Its names.
    pub(crate) fn cases(self) -> &'static [Case] {
        match self {
            Table::Op => &OPS,
            Table::Request => &REQUESTS,
            Table::Event => &EVENTS,
            Table::WaitOption => &WAIT_OPTIONS,
            Table::Action => &ACTIONS,
            Table::Act => &ACTS,
            Table::Call => &CALLS,
            Table::Decision => &DECISIONS,
            Table::StopFlag => &STOP_FLAGS,
        }
    }

    /// What one of its names is called.
    pub(crate) fn word(self) -> &'static str {
        match self {
            Table::Op => "op",
            Table::Request => "request",
            Table::Event => "event",
            Table::WaitOption => "option",
            Table::Action => "action",
            Table::Act => "act",
            Table::Call => "call",
            Table::Decision => "decision",
            Table::StopFlag => "flag",
        }
    }

    /// The entry with this name.
    pub(crate) fn find(self, name: &str) -> Option<&'static Case> {
        for case in self.cases() {
            if case.name() == name {
                return Some(case);
            }
        }
        None
    }
}
