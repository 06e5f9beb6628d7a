//! Scripts and their transcripts.

use pid_blocks::Uid;
use requests::{Reply, Step};
use stop_handlers::{Decider, Handler};

/// The steps of one user, in order.
#[derive(Drop)]
pub struct Script<F: Decider + Send + Drop> {
    pub uid: Uid,
    pub steps: Vec<Step<Handler<F>>>,
}

/// The replies to a script, one for each step, or what was made of them.
#[derive(Debug, Drop)]
pub struct Transcript<T: Drop = Vec<Reply>> {
    pub uid: Uid,
    pub replies: T,
}

/// The reason why scripts did not run, or not to their end. The host is dropped.
#[derive(Clone, Copy, Debug, PartialEq, Eq)]
pub enum RunRefusal {
    /// There are more scripts than a host may have sessions.
    TooMany,
    /// Memory ran out.
    Memory,
    /// A thread could not be started.
    Start,
}

/// Observes each call, in the thread that makes it. `index` counts the script's calls from 1.
pub trait Gate: Sync {
    /// The call is about to be made.
    fn before(&self, user: Uid, index: u32);

    /// The call was answered.
    fn after(&self, user: Uid, index: u32);

    /// Returns whether the gate may wait for another session. If not, each session makes many calls in a row.
    fn may_wait(&self) -> bool {
        true
    }
}
