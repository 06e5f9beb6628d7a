//! Runs scripts of many users at the same time on one host.
ghost use Rattle.std.specs.Prelude.{◌≡◌, ◌<◌, ◌≤◌, [], map, vec_len, All, IfOk, IfErr, OnOk};
ghost use Rattle.host_lock.specs.Journal.{IsLegal, replay};
ghost use Rattle.host_lock.specs.Limits.{max_calls, max_sessions};
ghost use Rattle.host_lock.specs.Sessions.{IsBelow};
ghost use Rattle.sessions.specs.Boxed.{boxed_script, report_of};
ghost use Rattle.sessions.specs.SessionScripts.{HasRoomFor, output_session, output_transcript};
ghost use Rattle.sessions.specs.Runs.{AllPlay, AllTell, OwnEntries, RefusesFor};
ghost use Rattle.sessions.specs.PlainRuns.{AreFew, RanBy};

use crate::boxing::{BoxedScript, Scripted, boxed_scripts};
use crate::kept::Kept;
use crate::preparing::{Buffers, PreparedRun, prepare};
use crate::report::Report;
use crate::script::{Gate, RunRefusal, Transcript};
use crate::session_script::SessionOutput;
use crate::worker::into_reversed;
use crate::workers::run_all;
use host_lock::{CallLog, MAX_SESSIONS, Session};
use requests::Host;
use std::alloc::Global;
use std::sync::Wait;
use std::thread::Threads;
use stop_handlers::Decider;

/// Runs each script by a session of its own, all at the same time, and waits for their end. The first runs in the
/// calling thread, each other in a thread of its own. A user may have several scripts.
///
/// Returns the host, the journal, and a transcript for each script, with what its `Report` makes of the replies. In the
/// journal, a script's index is the number of its session. A run of `BoxedScript`s keeps no call (`Unkept`), so only
/// contracts see its journal.
///
/// # Errors
///
/// `TooMany` if there are more scripts than a host may have sessions, `Memory` if memory ran out before the first
/// worker began, `Start` if a thread could not be started. The host is dropped.
pub fn run_sessions<F: Decider + Send + Drop, S: Scripted<F>, G: Gate, R: Threads + Wait + Sync>(
    rt: &R,
    alloc: Global,
    host: Host<F>,
    scripts: Vec<S>,
    gate: &G,
) -> Result<
    (
        Host<F>,
        S::Kept,
        Vec<Transcript<<S::Report as Report>::Output>>,
    ),
    RunRefusal,
>
    requires { All (λ s. S.count s ≤ max_calls) scripts.items }
    ensures legal { IfOk result (λ r. IsLegal host (S.Kept.calls r.1)) }
    ensures host { IfOk result (λ r. r.0 ≡ replay host (S.Kept.calls r.1)) }
    ensures entries { IfOk result (λ r. All (IsBelow (vec_len scripts)) (S.Kept.calls r.1)) }
    ensures transcripts { IfOk result (λ r. AllPlay S.plain S.Report.made_of (S.Kept.calls r.1) scripts.items r.2.items) }
    ensures reports { IfOk result (λ r. AllTell (λ s. S.Report.tells (S.report s)) scripts.items r.2.items) }
    ensures own { IfOk result (λ r. OwnEntries host (S.Kept.calls r.1)) }
    ensures none { IfOk result (λ r. vec_len scripts ≡ 0 → (r.0 ≡ host) × (S.Kept.calls r.1 ≡ [])) }
    ensures few { OnOk result (vec_len scripts ≤ max_sessions) }
    ensures refuses { IfErr result (RefusesFor (vec_len scripts)) }
{
    if scripts.len() > MAX_SESSIONS {
        return Err(RunRefusal::TooMany);
    }
    if scripts.is_empty() {
        host.assert_invariant();
        let log = <S::Kept as Kept>::Log::empty(alloc);
        return Ok((host, S::Kept::of_log(log), Vec::new(alloc)));
    }
    let Ok(scripts) = boxed_scripts(alloc, scripts) else {
        return Err(RunRefusal::Memory);
    };
    let left: Left<F, <S::Kept as Kept>::Log, <S::Report as Report>::Output> = play(
        rt, alloc, host, scripts, gate,
    )?;
    let Left {
        host,
        log,
        transcripts,
    } = left;
    let kept = S::Kept::of_log(log);
    Ok((host, kept, transcripts))
}

/// What is left at the end of a run.
struct Left<F: Decider + Send + Drop, J: CallLog + Send + Drop, O: Drop> {
    host: Host<F>,
    log: J,
    transcripts: Vec<Transcript<O>>,
}

/// Opens the host, runs the scripts, and closes it.
fn play<
    F: Decider + Send + Drop,
    J: CallLog + Send + Drop,
    T: Report,
    G: Gate,
    R: Threads + Wait + Sync,
>(
    rt: &R,
    alloc: Global,
    host: Host<F>,
    scripts: Vec<BoxedScript<F, T>>,
    gate: &G,
) -> Result<Left<F, J, T::Output>, RunRefusal>
    requires count { (0 < vec_len scripts) × (vec_len scripts ≤ max_sessions) }
    requires short { All AreFew (map boxed_script scripts.items) }
    ensures ran { IfOk result (λ r. RanBy T.made_of host (map boxed_script scripts.items) (J.entries r.log) r.host r.transcripts.items) }
    ensures reports { IfOk result (λ r. AllTell T.tells (map report_of scripts.items) r.transcripts.items) }
    ensures refuses { IfErr result (RefusesFor (vec_len scripts)) }
{
    host.assert_invariant();
    let Ok(ready) = prepare(alloc, host, scripts) else {
        return Err(RunRefusal::Memory);
    };
    let PreparedRun { host, jobs, room } = ready;
    let Buffers {
        uids: _,
        done,
        sessions,
        transcripts,
    } = room;
    let Some(done) = run_all(rt, alloc, &host, jobs, done, gate) else {
        return Err(RunRefusal::Start);
    };
    let (sessions, transcripts) = split_outputs(done, sessions, transcripts);
    match host.finish(sessions) {
        Ok((host, log)) => Ok(Left {
            host,
            log,
            transcripts,
        }),
        Err(_) => unreachable!(),
    }
}

/// Splits the results into sessions and transcripts.
fn split_outputs<O: Drop>(
    done: Vec<SessionOutput<O>>,
    mut sessions: Vec<Session>,
    mut transcripts: Vec<Transcript<O>>,
) -> (Vec<Session>, Vec<Transcript<O>>)
    requires sessions { HasRoomFor (vec_len done) sessions }
    requires transcripts { HasRoomFor (vec_len done) transcripts }
    ensures sessions { result.0.items ≡ map output_session done.items }
    ensures transcripts { result.1.items ≡ map output_transcript done.items }
{
    let mut done = into_reversed(done);
    while let Some(one) = done.pop() {
        let SessionOutput { session, output } = one;
        transcripts.push_reserved(Transcript {
            uid: session.uid(),
            replies: output,
        });
        sessions.push_reserved(session);
    }
    (sessions, transcripts)
}
