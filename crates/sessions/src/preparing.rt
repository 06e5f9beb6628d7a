//! The preparation of a run: all memory that it needs before its first worker starts.

ghost use Rattle.std.specs.Prelude.{◌≡◌, ◌<◌, ◌≤◌, length, map, vec_len, IfOk};
ghost use Rattle.host_lock.specs.Limits.{max_sessions};
ghost use Rattle.host_lock.specs.Rule.{Each};
ghost use Rattle.host_lock.specs.Sessions.{IsOpenable, new_sessions};
ghost use Rattle.sessions.specs.SessionScripts.{HasRoomFor, IsBegun, script_report, script_session, script_steps};
ghost use Rattle.sessions.specs.Boxed.{report_of, uid_of, steps_of};

use crate::boxing::BoxedScript;
use crate::report::Report;
use crate::script::Transcript;
use crate::session_script::{SessionOutput, SessionScript};
use crate::worker::into_reversed;
use host_lock::{CallLog, Session, SharedHost};
use pid_blocks::Uid;
use requests::Host;
use std::alloc::{AllocError, Global};
use std::snapshot::Snapshot;
use stop_handlers::Decider;

/// The scripts' users, and empty lists with room for the workers' results.
#[derive(Drop)]
pub(crate) struct Buffers<O: Drop> {
    pub uids: Vec<Uid>,
    pub done: Vec<SessionOutput<O>>,
    pub sessions: Vec<Session>,
    pub transcripts: Vec<Transcript<O>>,
}

/// An open host, and its sessions.
struct Opened<F: Decider + Send + Drop, J: CallLog + Send + Drop> {
    host: SharedHost<F, J>,
    sessions: Vec<Session>,
}

/// An open host, a session with each script, and room for the results.
pub(crate) struct PreparedRun<
    F: Decider + Send + Drop,
    J: CallLog + Send + Drop,
    T: Drop,
    D: Drop,
    O: Drop,
> {
    pub host: SharedHost<F, J>,
    pub jobs: Vec<SessionScript<F, T, D>>,
    pub room: Buffers<O>,
}

/// Opens the host, and allocates all memory that the run itself needs. An error means out of memory.
pub(crate) fn prepare<F: Decider + Send + Drop, J: CallLog + Send + Drop, T: Report>(
    alloc: Global,
    host: Host<F>,
    scripts: Vec<BoxedScript<F, T>>,
) -> Result<PreparedRun<F, J, T, T::Draft, T::Output>, AllocError>
    requires some_script { (0 < vec_len scripts) × (vec_len scripts ≤ max_sessions) }
    ensures host { IfOk result (λ r. (r.host.start ≡ host) × (r.host.sessions ≡ vec_len scripts)) }
    ensures sessions { IfOk result (λ r. map script_session r.jobs.items ≡ new_sessions 0 r.host.id host (map uid_of scripts.items)) }
    ensures steps { IfOk result (λ r. map script_steps r.jobs.items ≡ map steps_of scripts.items) }
    ensures reports { IfOk result (λ r. map script_report r.jobs.items ≡ map report_of scripts.items) }
    ensures jobs { IfOk result (λ r. Each (IsBegun T.drafted) r.jobs.items) }
    ensures done { IfOk result (λ r. HasRoomFor (vec_len scripts) r.room.done) }
    ensures sessions_room { IfOk result (λ r. HasRoomFor (vec_len scripts) r.room.sessions) }
    ensures transcripts_room { IfOk result (λ r. HasRoomFor (vec_len scripts) r.room.transcripts) }
{
    let room = room_for(alloc, scripts.as_slice())?;
    let calls = calls_in(scripts.as_slice());
    let opened = open_for(alloc, host, room.uids.as_slice(), calls)?;
    let Opened { host, sessions } = opened;
    let jobs = zip_sessions(alloc, sessions, scripts)?;
    Ok(PreparedRun { host, jobs, room })
}

/// Allocates the lists for the results of the scripts. An error means out of memory.
fn room_for<F: Decider + Send + Drop, T: Report>(
    alloc: Global,
    scripts: &[BoxedScript<F, T>],
) -> Result<Buffers<T::Output>, AllocError>
    ensures uids { IfOk result (λ r. r.uids.items ≡ map uid_of scripts.now) }
    ensures done { IfOk result (λ r. HasRoomFor (length scripts.now) r.done) }
    ensures sessions { IfOk result (λ r. HasRoomFor (length scripts.now) r.sessions) }
    ensures transcripts { IfOk result (λ r. HasRoomFor (length scripts.now) r.transcripts) }
{
    let uids = uids_of(alloc, scripts)?;
    let done = Vec::with_capacity(alloc, scripts.len())?;
    let sessions = Vec::with_capacity(alloc, scripts.len())?;
    let transcripts = Vec::with_capacity(alloc, scripts.len())?;
    Ok(Buffers {
        uids,
        done,
        sessions,
        transcripts,
    })
}

/// Returns how many calls the scripts make.
fn calls_in<F: Decider + Send + Drop, T: Report>(scripts: &[BoxedScript<F, T>]) -> usize {
    let mut calls = 0usize;
    for script in scripts {
        calls = calls.saturating_add(script.steps.len());
    }
    calls
}

/// Opens the host for the users, with room in its log for `calls` calls.
fn open_for<F: Decider + Send + Drop, J: CallLog + Send + Drop>(
    alloc: Global,
    host: Host<F>,
    uids: &[Uid],
    calls: usize,
) -> Result<Opened<F, J>, AllocError>
    requires { IsOpenable uids.now }
    ensures host { IfOk result (λ o. (o.host.start ≡ host) × (o.host.sessions ≡ length uids.now)) }
    ensures sessions { IfOk result (λ o. o.sessions.items ≡ new_sessions 0 o.host.id host uids.now) }
{
    match SharedHost::open_for(alloc, host, uids, calls) {
        Ok((host, sessions)) => Ok(Opened { host, sessions }),
        Err(_) => Err(AllocError),
    }
}

fn uids_of<F: Decider + Send + Drop, T: Report>(
    alloc: Global,
    scripts: &[BoxedScript<F, T>],
) -> Result<Vec<Uid>, AllocError>
    ensures { IfOk result (λ v. v.items ≡ map uid_of scripts.now) }
{
    let mut uids = Vec::with_capacity(alloc, scripts.len())?;
    for script in scripts {
        uids.push(script.uid)?;
    }
    Ok(uids)
}

/// Pairs each session with its script, and begins the draft of its report.
fn zip_sessions<F: Decider + Send + Drop, T: Report>(
    alloc: Global,
    sessions: Vec<Session>,
    scripts: Vec<BoxedScript<F, T>>,
) -> Result<Vec<SessionScript<F, T, T::Draft>>, AllocError>
    requires { length sessions.items ≡ length scripts.items }
    ensures sessions { IfOk result (λ v. map script_session v.items ≡ sessions.items) }
    ensures steps { IfOk result (λ v. map script_steps v.items ≡ map steps_of scripts.items) }
    ensures reports { IfOk result (λ v. map script_report v.items ≡ map report_of scripts.items) }
    ensures jobs { IfOk result (λ v. Each (IsBegun T.drafted) v.items) }
{
    let mut jobs = Vec::with_capacity(alloc, scripts.len())?;
    let mut sessions = into_reversed(sessions);
    let mut scripts = into_reversed(scripts);
    while let Some(script) = scripts.pop() {
        let Some(session) = sessions.pop() else {
            unreachable!()
        };
        jobs.push_reserved(session_script(alloc, session, script)?);
    }
    Ok(jobs)
}

fn session_script<F: Decider + Send + Drop, T: Report>(
    alloc: Global,
    session: Session,
    script: BoxedScript<F, T>,
) -> Result<SessionScript<F, T, T::Draft>, AllocError>
    ensures { IfOk result (λ j. (j.session ≡ session) × (j.steps ≡ script.steps) × (j.report.value ≡ script.report) × IsBegun T.drafted j) }
{
    let BoxedScript {
        uid: _,
        steps,
        report,
    } = script;
    let promised = Snapshot::of(&report);
    let draft = report.begin(alloc, session.uid(), steps.len())?;
    Ok(SessionScript {
        session,
        steps,
        report: promised,
        draft,
    })
}
