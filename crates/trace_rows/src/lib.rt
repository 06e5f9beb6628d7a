//! Signals posted to processes, and their trace stops.
//!
//! Posting adds a signal to a row, settling drops what is ignored, a stop writes the trace state that a tracer's wait
//! reports. Resuming and detaching change the tracee's row. None of these ends a process: `trace_stop` does.
//!
//! It is apart from `trace_stop` since an end walks along links from process to process and needs the laws of these
//! changes first.
//!
//! Begin with `signaling` and `tracing`. Here are also the definitions of sound rows, as a test that computes
//! (specs/Sound) and as facts of each row (specs/Facts), and the lemma by which an edit keeps rows sound
//! (proofs/SoundAfterEdit).
#![tactic(auto)]

ghost use Rattle.std.specs.Prelude.{◌≡◌};
ghost use Rattle.trace_rows.specs.Detach.{is_stepping, signal_alone};

mod edits;
pub mod laws;
mod signaling;
mod tracing;

use event_masks::{EventMask, StopFlags};
use lwp_table::LwpData;
use pid_blocks::Tid;
pub use signaling::{post_other, post_sigchld, settle};
use signals::{Pass, Signal};
pub use step_types::Settings;
pub use tracing::{detach_row, resume_row, stop};

/// What a trace stop shows in addition to its LWP.
#[derive(Clone, Copy, Debug, PartialEq, Eq, Drop)]
pub struct StopInfo {
    /// The signal that stops the process.
    pub sig: Signal,
    /// Why the process stops, in addition to the signal.
    pub flags: StopFlags,
    /// The child of a fork that the stop reports, or else 0.
    pub child: u32,
    /// The code of the system call at its entry or exit, or else 0.
    pub code: u32,
}

/// Which LWPs of a process step once it is resumed.
#[derive(Clone, Copy, Debug, PartialEq, Eq, Drop)]
pub enum Stepping {
    /// Those that have stepped so far.
    Unchanged,
    /// None.
    Nobody,
    /// Only this one.
    Only(Tid),
}

impl Stepping {
    /// Tests whether the LWP of the process steps.
    fn of(self, lwp: &LwpData) -> bool
        ensures { result ≡ is_stepping self lwp.now }
    {
        match self {
            Stepping::Unchanged => lwp.stepping,
            Stepping::Nobody => false,
            Stepping::Only(tid) => lwp.tid == tid,
        }
    }
}

/// How a debugger resumes a stopped process, as PT_CONTINUE and PT_STEP of ptrace(2) do.
#[derive(Clone, Copy, Debug, PartialEq, Eq, Drop)]
pub struct Resumption {
    /// The events that are added to the process's event mask.
    pub adds: EventMask,
    pub stepping: Stepping,
    /// The signal that the process gets, or none.
    pub pass: Pass,
}

impl Resumption {
    /// Returns a resumption with a signal or none, which changes neither the event mask nor which LWPs step.
    pub fn with_signal(pass: Pass) -> Resumption
        ensures { result ≡ signal_alone pass }
    {
        Resumption {
            adds: EventMask(0),
            stepping: Stepping::Unchanged,
            pass,
        }
    }
}
