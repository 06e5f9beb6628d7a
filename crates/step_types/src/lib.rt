//! The steps that users make, the replies to them, and what both contain: the plain types below every table and host.
//!
//! `Step` is generic over what an install carries: a handler with a closure, a policy or nothing. A step without its
//! handler is a `PlainStep`; definitions speak of these. `printing` and `words` write replies as the program prints
//! them.
//!
//! The crate has types and their words only, so that readers of texts and callers in C need no host.
//!
//! Begin with this file and `step`. The main clauses are those of the words of replies (specs/Words), and law
//! `laws::words_differ`: no two statuses have the same word.
#![tactic(auto)]

mod copying;
mod events;
mod host_settings;
pub mod laws;
mod lists;
mod names;
mod printing;
mod short_steps;
mod statuses;
mod step;

use event_masks::{Call, EventMask, StopFlags};
use pid_blocks::{Errno, Pid, Tid};
use signals::{SigSet, Signal};
use std::marker::Model;
pub use step::{PlainStep, Step, StepKind};
use stop_handlers::{Decision, StopView};

/// What a debugger's end does to its tracees.
#[derive(Clone, Copy, Debug, PartialEq, Eq, Drop)]
pub struct Settings {
    pub kill_on_debugger_exit: bool,
}

/// What a wait status reports of a process, as in wait(2).
#[derive(Clone, Copy, Debug, PartialEq, Eq, Drop)]
pub enum StatusKind {
    /// The process exited on its own, with this code.
    Exited(u8),
    /// This signal ended the process.
    Signaled(Signal),
    /// This signal stopped the process.
    Stopped(Signal),
    /// The process continues after a stop.
    Continued,
}

/// A wait status. No status reports that SIGCONT ended a process: its word would be that of a continued process.
#[derive(Clone, Copy, Debug, PartialEq, Eq, Drop)]
pub struct Status {
    kind: StatusKind,
}

impl Model for Status {
    ghost use Rattle.std.specs.Prelude.{◌≡◌, true};
    ghost use Rattle.step_types.specs.declared.StatusKind.{StatusKind};

    ghost Value = { StatusKind };

    ghost use Rattle.step_types.specs.Status.{is_status};

    ghost view = { λ s. s.kind };

    ghost invariant = { λ s. is_status s.kind ≡ true };

    ghost inverse = { λ k. record { kind = k } };
}

/// What wait4(2) reports in addition to the ends of processes and trace stops.
#[derive(Clone, Copy, Debug, PartialEq, Eq, Drop)]
pub struct Options {
    pub untraced: bool,
    pub continued: bool,
}

/// Why an LWP is stopped.
#[derive(Clone, Copy, Debug, PartialEq, Eq, Drop)]
pub enum Event {
    /// Another LWP reports the stop.
    Nothing,
    /// The LWP reports the stop, of a signal or an event.
    Signal,
}

/// What PT_LWPINFO of ptrace(2) returns.
#[derive(Clone, Copy, Debug, PartialEq, Eq, Drop)]
pub struct LwpInfo {
    pub tid: Tid,
    pub event: Event,
    pub flags: StopFlags,
    pub sigmask: SigSet,
    pub siglist: SigSet,
    pub child: u32,
    pub code: u32,
}

/// A list of process or LWP numbers.
#[derive(Debug, Drop)]
pub struct NumList {
    numbers: Vec<u32>,
}

impl Model for NumList {
    ghost use Rattle.std.specs.Prelude.{List, ℕ};

    ghost Value = { List ℕ };

    ghost view = { λ n. n.numbers.items };
}

/// A request of ptrace(2).
#[derive(Clone, Copy, Debug, PartialEq, Eq, Drop)]
pub enum Request {
    TraceMe,
    Attach,
    Continue,
    Step,
    Suspend,
    Resume,
    Detach,
    Kill,
    SetEventMask,
    GetEventMask,
    LwpInfo,
    GetNumLwps,
    GetLwpList,
    ToSce,
    ToScx,
    Syscall,
    FollowFork,
    LwpEvents,
}

/// An act of an LWP at its turn.
#[derive(Clone, Copy, Debug, PartialEq, Eq, Drop)]
pub enum Act {
    Compute,
    Raise(u32),
    Block(SigSet),
    Enter(Call),
    Leave,
}

/// The kind of an act, without the data that it carries.
#[derive(Clone, Copy, Debug, PartialEq, Eq, Drop)]
pub enum ActKind {
    Compute,
    Raise,
    Block,
    Enter,
    Leave,
}

/// The reply to a step.
#[derive(Debug, PartialEq, Eq, Drop)]
pub enum Reply {
    Done,
    New {
        pid: Pid,
        tid: Tid,
    },
    Number(u32),
    Status {
        pid: Pid,
        status: Status,
    },
    Nothing,
    Info(LwpInfo),
    Lwps(NumList),
    Pids(NumList),
    Mask(EventMask),
    Handled {
        pid: Pid,
        status: Status,
        view: StopView,
        index: Option<u32>,
        decision: Decision,
    },
    Stopped {
        tid: Tid,
        sig: Signal,
        flags: StopFlags,
    },
    Caught(Signal),
    Ended(u32),
    Held,
    Errno(Errno),
}
