//! What a run hands out of its answered calls.

ghost use Rattle.std.specs.Prelude.{◌≡◌, List};
ghost use Rattle.host_lock.specs.declared.journal.Entry.{Entry};

use host_lock::{CallLog, Entry, Journal, Unkept};

/// What a run hands out of its answered calls: the journal, or nothing. Contracts see all calls in both cases.
pub trait Kept: Sized {
    /// What the shared host keeps in the run.
    type Log: CallLog + Send + Drop;

    /// The answered calls, in the order in which the host made them.
    ghost calls: { Self → List Entry };

    /// Takes the calls from the host's log.
    fn of_log(log: Self::Log) -> Self
        ensures { calls result ≡ Self.Log.entries log };
}

/// Hands out all calls.
impl Kept for Journal {
    type Log = Vec<Entry>;

    ghost calls = { λ j. j };

    fn of_log(log: Vec<Entry>) -> Journal {
        Journal::of(log)
    }
}

/// Hands out no call.
impl Kept for Unkept {
    type Log = Unkept;

    ghost calls = { λ u. u };

    fn of_log(log: Unkept) -> Unkept {
        log
    }
}
