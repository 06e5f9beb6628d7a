//! States of processes, modes of LWPs and decisions as numbers.
ghost use Rattle.std.specs.Prelude.{◌≡◌};
ghost use Rattle.open_sessions.specs.Flat.{flag, number_or_0, flat_call, flat_mode, flat_state, due_number, passed};

use event_masks::Call;
use lwp_table::{Due, Mode};
use pid_blocks::Pid;
use proc_table::State;
use signals::Signal;
use stop_handlers::Decision;

/// What a process's state is, as numbers. What it doesn't have is 0.
#[derive(Clone, Copy, Drop)]
pub struct FlatState {
    /// 0 for a process that runs, 1 in a trace stop, 2 stopped by job control, 3 for a zombie.
    pub state: u32,
    /// The LWP of a trace stop.
    pub lwp: u32,
    /// The signal of a stop.
    pub signal: u32,
    /// 1 once a stop was reported.
    pub reported: u32,
    /// A zombie's word of its wait status.
    pub status: u32,
}

/// What an LWP's mode is, as numbers. What it doesn't have is 0.
#[derive(Clone, Copy, Drop)]
pub struct FlatMode {
    /// 0 for an LWP that runs, 1 in a system call, 2 if it waits for the child of its vfork.
    pub mode: u32,
    /// The system call, and its argument.
    pub call: u32,
    pub argument: u32,
    /// The child of a vfork.
    pub child: u32,
}

/// Returns 1 for what is so, and else 0.
pub fn flag(is_set: bool) -> u32
    ensures { result ≡ flag is_set }
{
    if is_set { 1 } else { 0 }
}

/// Returns the number of the process, and 0 for none.
pub fn process_or_0(process: Option<Pid>) -> u32
    ensures { result ≡ number_or_0 process }
{
    match process {
        Some(pid) => pid.get(),
        None => 0,
    }
}

/// Returns the number of the signal, and 0 for none.
pub fn signal_or_0(signal: Option<Signal>) -> u32
    ensures { result ≡ number_or_0 signal }
{
    match signal {
        Some(signal) => signal.number(),
        None => 0,
    }
}

/// Returns the number of a system call, and its argument.
fn call_numbers(call: &Call) -> (u32, u32)
    ensures { result ≡ flat_call call.now }
{
    match call {
        Call::Fork => (0, 0),
        Call::Vfork => (1, 0),
        Call::Exec => (2, 0),
        Call::ThrNew => (3, 0),
        Call::ThrExit => (4, 0),
        Call::Exit(status) => (5, *status as u32),
        Call::Other(number) => (6, *number),
    }
}

/// Returns the place of what is due in `Due`.
pub fn due_number(due: &Due) -> u32
    ensures { result ≡ due_number due.now }
{
    match due {
        Due::Nothing => 0,
        Due::Born => 1,
        Due::Begun => 2,
        Due::VforkDone => 3,
    }
}

/// Returns the signal that a decision passes on, or 0.
pub fn passed(decision: &Decision) -> u32
    ensures { result ≡ passed decision.now }
{
    match decision {
        Decision::Continue(pass) | Decision::Detach(pass) => pass.number(),
        Decision::Decline | Decision::Leave | Decision::Kill => 0,
    }
}

impl FlatState {
    /// Returns the state as numbers.
    pub fn of(state: &State) -> FlatState
        ensures { result ≡ flat_state state.now }
    {
        match state {
            State::Run => FlatState {
                state: 0,
                lwp: 0,
                signal: 0,
                reported: 0,
                status: 0,
            },
            State::Trace { tid, sig, seen } => FlatState {
                state: 1,
                lwp: tid.get(),
                signal: sig.number(),
                reported: flag(*seen),
                status: 0,
            },
            State::Job { sig, seen } => FlatState {
                state: 2,
                lwp: 0,
                signal: sig.number(),
                reported: flag(*seen),
                status: 0,
            },
            State::Zombie { status } => FlatState {
                state: 3,
                lwp: 0,
                signal: 0,
                reported: 0,
                status: *status,
            },
        }
    }
}

impl FlatMode {
    /// Returns the mode as numbers.
    pub fn of(mode: &Mode) -> FlatMode
        ensures { result ≡ flat_mode mode.now }
    {
        match mode {
            Mode::User => FlatMode {
                mode: 0,
                call: 0,
                argument: 0,
                child: 0,
            },
            Mode::InCall(call) => {
                let (call, argument) = call_numbers(call);
                FlatMode {
                    mode: 1,
                    call,
                    argument,
                    child: 0,
                }
            }
            Mode::VforkWait(child) => FlatMode {
                mode: 2,
                call: 0,
                argument: 0,
                child: child.get(),
            },
        }
    }
}
