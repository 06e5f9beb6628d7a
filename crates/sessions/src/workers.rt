//! One worker for each script.
ghost use Rattle.std.specs.Prelude.{◌≡◌, ◌+◌, ◌≤◌, [], ◌∷◌, ◌++◌, map, vec_len, vec_capacity, IfSome};
ghost use Rattle.std.specs.Thread.{IsSend, IsSync};
ghost use Rattle.host_lock.specs.Boxed.{own_step};
ghost use Rattle.host_lock.specs.Limits.{max_calls};
ghost use Rattle.host_lock.specs.Rule.{Each};
ghost use Rattle.host_lock.specs.Sessions.{IsOf};
ghost use Rattle.sessions.specs.Made.{HasMade};
ghost use Rattle.sessions.specs.SessionScripts.{AllDone, IsReady, HasRoomFor};

use crate::report::Report;
use crate::script::Gate;
use crate::session_script::{SessionOutput, SessionScript, WorkerPromise};
use crate::worker::work;
use host_lock::{CallLog, SharedHost};
use std::alloc::Global;
use std::sync::Wait;
use std::thread;
use std::thread::Threads;
use stop_handlers::Decider;

/// Runs all session scripts at the same time, the first in the calling thread and each other in a thread of its own.
/// Returns `None` if a thread could not be started.
#[cycle(run)]
pub(crate) fn run_all<
    F: Decider + Send + Drop,
    J: CallLog + Send + Drop,
    T: Report,
    G: Gate,
    R: Threads + Wait + Sync,
>(
    rt: &R,
    alloc: Global,
    host: &SharedHost<F, J>,
    mut jobs: Vec<SessionScript<F, T, T::Draft>>,
    done: Vec<SessionOutput<T::Output>>,
    gate: &G,
) -> Option<Vec<SessionOutput<T::Output>>>
    requires jobs { Each (IsReady T.drafted host.now) jobs.items }
    requires room { HasRoomFor (vec_len jobs) done }
    ensures room { IfSome result (λ v. (vec_len v ≡ vec_len jobs) × (vec_capacity v ≡ vec_capacity done)) }
    ensures done { IfSome result (λ v. AllDone T.made_of T.tells jobs.items v.items) }
{
    let Some(job) = jobs.pop() else {
        return Some(done);
    };
    if jobs.is_empty() {
        return Some(run_here(rt, alloc, host, job, done, gate));
    }
    run_beside(rt, alloc, host, job, jobs, done, gate)
}

/// Runs the session script in the calling thread.
fn run_here<F: Decider + Send + Drop, J: CallLog + Send + Drop, T: Report, G: Gate, R: Wait>(
    rt: &R,
    alloc: Global,
    host: &SharedHost<F, J>,
    job: SessionScript<F, T, T::Draft>,
    mut done: Vec<SessionOutput<T::Output>>,
    gate: &G,
) -> Vec<SessionOutput<T::Output>>
    requires job { IsReady T.drafted host.now job }
    requires room { HasRoomFor 1 done }
    ensures room { (vec_len result ≡ 1) × (vec_capacity result ≡ vec_capacity done) }
    ensures done { AllDone T.made_of T.tells (job ∷ []) result.items }
{
    let SessionScript {
        session,
        steps,
        report,
        draft,
    } = job;
    done.push_reserved(work(rt, alloc, host, session, steps, report, draft, gate));
    done
}

/// Runs one session script in a thread of its own, and the others at the same time. Returns `None` if a thread could
/// not be started.
#[cycle(run)]
fn run_beside<
    F: Decider + Send + Drop,
    J: CallLog + Send + Drop,
    T: Report,
    G: Gate,
    R: Threads + Wait + Sync,
>(
    rt: &R,
    alloc: Global,
    host: &SharedHost<F, J>,
    job: SessionScript<F, T, T::Draft>,
    jobs: Vec<SessionScript<F, T, T::Draft>>,
    done: Vec<SessionOutput<T::Output>>,
    gate: &G,
) -> Option<Vec<SessionOutput<T::Output>>>
    requires job { IsReady T.drafted host.now job }
    requires jobs { Each (IsReady T.drafted host.now) jobs.items }
    requires room { HasRoomFor (vec_len jobs + 1) done }
    ensures room { IfSome result (λ v. (vec_len v ≡ vec_len jobs + 1) × (vec_capacity v ≡ vec_capacity done)) }
    ensures done { IfSome result (λ v. AllDone T.made_of T.tells (jobs.items ++ job ∷ []) v.items) }
{
    let SessionScript {
        session,
        steps,
        report,
        draft,
    } = job;
    let plan = WorkerPromise::of(&session, &steps, &report);
    thread::scope(
        thread::scope_env(),
        rt,
        |scope| -> Option<Vec<SessionOutput<T::Output>>>
            requires sync { IsSync R.row × IsSync G.row }
            requires send { IsSend F.row × IsSend J.row × IsSend T.Draft.row × IsSend T.Output.row }
            requires of { IsOf host.now session }
            requires fresh { (session.calls ≡ 0) × (session.mine ≡ []) }
            requires few { vec_len steps ≤ max_calls }
            requires begun { T.drafted draft report.value session.uid (vec_len steps) [] }
            requires plan { (plan.session.value ≡ session) × (plan.steps.value ≡ steps) × (plan.report.value ≡ report) }
            requires jobs { Each (IsReady T.drafted host.now) jobs.items }
            requires room { HasRoomFor (vec_len jobs + 1) done }
            ensures room { IfSome result (λ v. (vec_len v ≡ vec_len jobs + 1) × (vec_capacity v ≡ vec_capacity done)) }
            ensures done { IfSome result (λ v. AllDone T.made_of T.tells (jobs.items ++ record { session = session; steps = steps; report = report; draft = draft } ∷ []) v.items) }
        {
            let child = scope
                .spawn_with(
                    plan,
                    move || -> SessionOutput<T::Output>
                        requires of { IsOf host.now session }
                        requires fresh { (session.calls ≡ 0) × (session.mine ≡ []) }
                        requires few { vec_len steps ≤ max_calls }
                        requires begun { T.drafted draft report.value session.uid (vec_len steps) [] }
                        ensures did { HasMade session (map own_step steps.items) (T.made_of result.output) result.session }
                        ensures tells { T.tells report.value session.uid result.output }
                    { work(rt, alloc, host, session, steps, report, draft, gate) },
                )
                .ok()?;
            let rest = run_all(rt, alloc, host, jobs, done, gate);
            let one = child.join(rt);
            let mut all = rest?;
            all.push_reserved(one);
            Some(all)
        },
    )
}
