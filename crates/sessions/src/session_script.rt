//! A session's script, its output, and a worker's promise.

ghost use Rattle.std.specs.Prelude.{◌≡◌, map};
ghost use Rattle.host_lock.specs.Boxed.{own_step};
ghost use Rattle.sessions.specs.Made.{HasMade};

use crate::report::Report;
use host_lock::{BoxedStep, Session};
use std::snapshot::Snapshot;
use std::thread::Promise;
use stop_handlers::Decider;

/// A session with its script, and the draft of the report of its replies.
#[derive(Drop)]
pub struct SessionScript<F: Decider + Send + Drop, T: Drop, D: Drop> {
    pub session: Session,
    pub steps: Vec<BoxedStep<F>>,
    pub report: Snapshot<T>,
    pub draft: D,
}

/// A session after its script, with what was made of the replies.
#[derive(Drop)]
pub struct SessionOutput<O: Drop> {
    pub session: Session,
    pub output: O,
}

/// A worker's promise: to make these steps by this session, and this report of the replies.
#[derive(Drop)]
pub struct WorkerPromise<F: Decider + Send + Drop, T: Drop> {
    pub(crate) session: Snapshot<Session>,
    pub(crate) steps: Snapshot<Vec<BoxedStep<F>>>,
    pub(crate) report: Snapshot<Snapshot<T>>,
}

impl<F: Decider + Send + Drop, T: Drop> WorkerPromise<F, T> {
    pub(crate) fn of(
        session: &Session,
        steps: &Vec<BoxedStep<F>>,
        report: &Snapshot<T>,
    ) -> WorkerPromise<F, T>
        ensures { (result.session.value ≡ session.now) × (result.steps.value ≡ steps.now) × (result.report.value ≡ report.now) }
    {
        WorkerPromise {
            session: Snapshot::of(session),
            steps: Snapshot::of(steps),
            report: Snapshot::of(report),
        }
    }
}

impl<F: Decider + Send + Drop, T: Report> Promise<SessionOutput<T::Output>>
    for WorkerPromise<F, T> {
    ghost kept_by = { λ p r. HasMade p.session.value (map own_step p.steps.value.items) (T.made_of r.output) r.session
        × T.tells p.report.value.value p.session.value.uid r.output };
}
