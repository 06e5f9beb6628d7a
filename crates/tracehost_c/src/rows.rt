//! Rows of processes and LWPs as numbers.
ghost use Rattle.std.specs.Prelude.{◌≡◌};
ghost use Rattle.tracehost_c.specs.FlatRows.{flat_process, flat_lwp};

use lwp_table::LwpData;
use open_sessions::flat::{FlatMode, FlatState, due_number, flag, process_or_0};
use proc_table::ProcData;

/// The row of a process. What its state doesn't have is 0.
#[repr(C)]
#[derive(Clone, Copy, Debug, PartialEq, Eq, Drop)]
pub struct FlatProcess {
    pub pid: u32,
    pub parent: u32,
    /// The tracer's number, or 0.
    pub tracer: u32,
    /// 0 for a process that runs, 1 in a trace stop, 2 stopped by job control, 3 for a zombie.
    pub state: u32,
    /// The LWP of a trace stop.
    pub lwp: u32,
    /// The signal of a stop.
    pub signal: u32,
    /// 1 once a stop was reported.
    pub reported: u32,
    /// A zombie's word of its wait status.
    pub status: u32,
    pub continued: u32,
    pub events: u32,
    pub pending: u32,
}

/// The row of an LWP. What its mode doesn't have is 0.
#[repr(C)]
#[derive(Clone, Copy, Debug, PartialEq, Eq, Drop)]
pub struct FlatLwp {
    pub lwp: u32,
    pub pid: u32,
    /// 0 for an LWP that runs, 1 in a system call, 2 if it waits for the child of its vfork.
    pub mode: u32,
    /// The system call, and its argument, as in `call_of`.
    pub call: u32,
    pub argument: u32,
    pub vfork_child: u32,
    pub suspended: u32,
    pub stepping: u32,
    pub blocked: u32,
    pub pending: u32,
    /// The place in `Due` of the stop at the next turn.
    pub due: u32,
    pub flags: u32,
    pub child: u32,
    pub code: u32,
}

impl FlatProcess {
    /// Returns the row as numbers.
    pub fn of(row: &ProcData) -> FlatProcess
        ensures { result ≡ flat_process row.now }
    {
        let state = FlatState::of(&row.state);
        FlatProcess {
            pid: row.pid.get(),
            parent: row.parent,
            tracer: process_or_0(row.tracer),
            state: state.state,
            lwp: state.lwp,
            signal: state.signal,
            reported: state.reported,
            status: state.status,
            continued: flag(row.continued),
            events: row.mask.0,
            pending: row.pending.bits(),
        }
    }
}

impl FlatLwp {
    /// Returns the row as numbers.
    pub fn of(row: &LwpData) -> FlatLwp
        ensures { result ≡ flat_lwp row.now }
    {
        let mode = FlatMode::of(&row.mode);
        FlatLwp {
            lwp: row.tid.get(),
            pid: row.pid.get(),
            mode: mode.mode,
            call: mode.call,
            argument: mode.argument,
            vfork_child: mode.child,
            suspended: flag(row.suspended),
            stepping: flag(row.stepping),
            blocked: row.blocked.bits(),
            pending: row.pending.bits(),
            due: due_number(&row.due),
            flags: row.flags.0,
            child: row.child,
            code: row.code,
        }
    }
}
