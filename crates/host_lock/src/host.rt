//! The shared host.

ghost use Rattle.std.specs.Prelude.{◌≡◌, ℕ, ◌+◌, ◌<◌, ◌≤◌, [], ◌∷◌, ◌++◌, List, length, true, false, IfOk, IfErr, OnOk, All, vec_len, reverse, MatchResult, IsErr, ◌↔◌};
ghost use Rattle.requests.specs.Isolation.{Users};
ghost use Rattle.host_lock.specs.Answers.{AnswersCall, RefusesFor, GivesBack};
ghost use Rattle.host_lock.specs.Journal.{asked, IsLegal, replay, StartsWith};
ghost use Rattle.host_lock.specs.History.{history};
ghost use Rattle.host_lock.specs.Rule.{Each, IsHostTable, fresh_view, opening_view, session_view, start_of, Matches};
ghost use Rattle.host_lock.specs.Limits.{max_sessions, max_calls};
ghost use Rattle.host_lock.specs.Sessions.{IsOf, IsMomentOf, IsTrue, Learns, InJournal, new_session, new_sessions, IsOpenable, IsAt, IsBelow, SessionData, gathered, IsSame};
ghost use Rattle.host_lock.specs.Views.{Idle};

use crate::call_log::CallLog;
use crate::door::{Announced, FairLock};
use crate::journal::{Entry, Journal};
use crate::limits::MAX_SESSIONS;
use crate::moment::{Moment, learn, show};
use crate::rule::{HostSeat, HostTable, JoinTwo, SplitOff, TableKey};
use crate::session::{Session, budget_left};
use crate::shared_state::SharedState;
use crate::step::{OwnHandler, plain};
use crate::turn::serve;
use crate::view::HostSlot;
use atomic_table::{Badge, Table};
use pid_blocks::Uid;
use requests::{Host, Reply, Step};
use std::alloc::{AllocError, Global};
use std::marker::Model;
use std::mem;
use std::snapshot::Snapshot;
use std::sync::Wait;
use stop_handlers::Decider;

/// A host that sessions share. Each may be in a thread of its own. Contracts see which shared host it is, the host at
/// opening, and the number of sessions that were opened. `J` is what the host keeps of its answered calls.
pub struct SharedHost<F: Decider + Send + Drop, J: CallLog + Send + Drop = Vec<Entry>> {
    table: HostTable<F, J>,
    /// A call enters it before it draws its ticket, and leaves it at its end. No contract depends on it, since a call
    /// also waits for its ticket.
    door: FairLock,
    sessions: usize,
}

impl<F: Decider + Send + Drop, J: CallLog + Send + Drop> Drop for SharedHost<F, J> {
    fn drop(self) {
        let SharedHost {
            table: _,
            door: _,
            sessions: _,
        } = self;
    }
}

impl<F: Decider + Send + Drop, J: CallLog + Send + Drop> Model for SharedHost<F, J> {
    ghost use Rattle.std.specs.Prelude.{◌≡◌, ◌<◌};
    ghost use Rattle.host_lock.specs.Sessions.{HostData};
    ghost use Rattle.host_lock.specs.Rule.{IsHostTable};

    ghost Value = { HostData };

    ghost view = { λ h. record {
      id = h.table.shared.table_id;
      start = h.table.shared.key.start.value;
      sessions = h.sessions;
    } };

    ghost invariant = { λ h. IsHostTable h.table.shared.table_id × (h.sessions ≡ h.table.shared.key.sessions) × (0 < h.sessions) };
}

/// The answer to a call.
#[derive(Debug, Drop)]
pub enum Answer {
    Reply(Reply),
    /// The session has already made `MAX_CALLS` calls.
    Spent,
}

/// Why no session was opened.
#[derive(Drop)]
pub enum OpenRefusal<F: Decider + Send + Drop> {
    /// No user was named. The host is given back.
    NoSessions(Host<F>),
    /// More than `MAX_SESSIONS` users were named. The host is given back.
    TooMany(Host<F>),
    /// Memory ran out. The host is dropped.
    Memory,
}

/// Why a shared host was not closed.
#[derive(Drop)]
pub enum CloseRefusal<F: Decider + Send + Drop, J: CallLog + Send + Drop = Vec<Entry>> {
    /// Fewer sessions were handed in than were opened. The shared host and these sessions are given back.
    Missing(SharedHost<F, J>, Vec<Session>),
}

impl<F: Decider + Send + Drop> SharedHost<F> {
    /// Shares a host among sessions: one for each named user, in order, numbered from 0. A user may be named more than
    /// once.
    ///
    /// # Errors
    ///
    /// `NoSessions` if no user is named and `TooMany` if more than `MAX_SESSIONS` are: the host is given back.
    /// `Memory` if memory runs out: the host is dropped.
    pub fn open(
        alloc: Global,
        host: Host<F>,
        users: &[Uid],
    ) -> Result<(SharedHost<F>, Vec<Session>), OpenRefusal<F>>
        ensures host { IfOk result (λ r. (r.0.start ≡ host) × (r.0.sessions ≡ length users.now)) }
        ensures sessions { IfOk result (λ r. r.1.items ≡ new_sessions 0 r.0.id host users.now) }
        ensures accepts { OnOk result (IsOpenable users.now) }
        ensures refuses { IfErr result (RefusesFor host users.now) }
    {
        SharedHost::open_for(alloc, host, users, 0)
    }

    /// Returns the host and the journal, if all sessions are handed in. It allocates no memory. Otherwise the error
    /// `Missing` gives the shared host and the sessions back.
    pub fn close(self, sessions: Vec<Session>) -> Result<(Host<F>, Journal), CloseRefusal<F>>
        requires { All (IsOf self) sessions.items }
        ensures legal { IfOk result (λ r. IsLegal self.start r.1) }
        ensures host { IfOk result (λ r. r.0 ≡ replay self.start r.1) }
        ensures users { IfOk result (λ r. Users (asked r.1)) }
        ensures sessions { IfOk result (λ r. All (InJournal r.1) sessions.items) }
        ensures entries { IfOk result (λ r. All (IsBelow self.sessions) r.1) }
        ensures all { OnOk result (self.sessions ≤ length sessions.items) }
        ensures missing { IfErr result (GivesBack self sessions.items) }
    {
        match self.finish(sessions) {
            Ok((host, entries)) => {
                let journal = Journal::of(entries);
                Ok((host, journal))
            }
            Err(refused) => Err(refused),
        }
    }
}

impl<F: Decider + Send + Drop, J: CallLog + Send + Drop> SharedHost<F, J> {
    /// Shares a host as `open` does, with room in the log for `calls` calls.
    pub fn open_for(
        alloc: Global,
        host: Host<F>,
        users: &[Uid],
        calls: usize,
    ) -> Result<(SharedHost<F, J>, Vec<Session>), OpenRefusal<F>>
        ensures host { IfOk result (λ r. (r.0.start ≡ host) × (r.0.sessions ≡ length users.now)) }
        ensures sessions { IfOk result (λ r. r.1.items ≡ new_sessions 0 r.0.id host users.now) }
        ensures accepts { OnOk result (IsOpenable users.now) }
        ensures refuses { IfErr result (RefusesFor host users.now) }
    {
        if users.is_empty() {
            return Err(OpenRefusal::NoSessions(host));
        }
        if users.len() > MAX_SESSIONS {
            return Err(OpenRefusal::TooMany(host));
        }
        match share(alloc, host, users, calls) {
            Ok(made) => Ok(made),
            Err(_) => Err(OpenRefusal::Memory),
        }
    }

    /// Returns the host and the log, if all sessions are handed in. It allocates no memory. Otherwise the error
    /// `Missing` gives the shared host and the sessions back.
    pub fn finish(self, sessions: Vec<Session>) -> Result<(Host<F>, J), CloseRefusal<F, J>>
        requires { All (IsOf self) sessions.items }
        ensures legal { IfOk result (λ r. IsLegal self.start (J.entries r.1)) }
        ensures host { IfOk result (λ r. r.0 ≡ replay self.start (J.entries r.1)) }
        ensures users { IfOk result (λ r. Users (asked (J.entries r.1))) }
        ensures sessions { IfOk result (λ r. All (InJournal (J.entries r.1)) sessions.items) }
        ensures entries { IfOk result (λ r. All (IsBelow self.sessions) (J.entries r.1)) }
        ensures all { OnOk result (self.sessions ≤ length sessions.items) }
        ensures missing { IfErr result (GivesBack self sessions.items) }
    {
        if sessions.len() < self.sessions {
            return Err(CloseRefusal::Missing(self, sessions));
        }
        let SharedHost {
            table,
            door: _,
            sessions: _,
        } = self;
        let seat = join_seats(&table, sessions);
        let SharedState {
            host,
            journal,
            start: _,
        } = take_state(table, seat);
        Ok((Box::into_inner(host), journal))
    }

    /// Makes one step of the session's user. It may wait for the calls of other sessions. The step takes effect at its
    /// place in the journal. If the session has already made `MAX_CALLS` calls, the answer is `Spent`, and nothing
    /// changes. A call with the reply ENOMEM has no place in the journal, and changes only the count of calls. The step
    /// is a `Step<Handler<F>>`, or a `BoxedStep<F>` with its handler on the heap.
    pub fn call<R: Wait, H: OwnHandler<F>>(
        &self,
        rt: &R,
        alloc: Global,
        session: &mut Session,
        step: Step<H>,
    ) -> Answer
        requires { IsOf self.now session.old }
        ensures call { AnswersCall session.old (H.plain step) result session.new }
        ensures same { IsSame session.old session.new }
        ensures told { IsTrue session.new }
    {
        if !budget_left(session.calls_made) {
            self.door.let_go(&mut session.announced);
            return Answer::Spent;
        }
        let badge = mem::replace(&mut session.badge, Badge::blank());
        let mut seat = badge.into_seat();
        let plain = plain(&step);
        self.door.enter(rt, &session.announced);
        let reply = serve(
            rt,
            alloc,
            &self.table.shared,
            &mut seat,
            session.uid,
            session.number,
            step,
            &plain,
        );
        self.door.leave(&mut session.announced);
        session.badge = seat.into_badge();
        session.calls_made += 1;
        Answer::Reply(reply)
    }

    /// Returns what the session knows of the journal, its own calls included, for another session to learn. It makes
    /// no step of the machine, does not wait and takes no memory.
    pub fn moment(&self, session: &mut Session) -> Moment
        requires { IsOf self.now session.old }
        ensures session { session.new ≡ session.old }
        ensures moment { (result.known ≡ session.old.known) × IsMomentOf self.now result }
    {
        let badge = mem::replace(&mut session.badge, Badge::blank());
        let mut seat = badge.into_seat();
        let shown = show(&self.table.shared, &mut seat, session.number);
        session.badge = seat.into_badge();
        Moment {
            badge: shown.into_badge(),
        }
    }

    /// Lets the session know what another one knew at the moment. From then on, each call of the session comes in
    /// the journal behind all of that. It makes no step of the machine, does not wait and takes no memory.
    pub fn learn(&self, session: &mut Session, moment: Moment)
        requires session { IsOf self.now session.old }
        requires moment { IsMomentOf self.now moment }
        ensures learns { Learns moment.known session.old session.new }
        ensures told { IsTrue session.new }
    {
        let shown = moment.into_seat();
        let badge = mem::replace(&mut session.badge, Badge::blank());
        let mut seat = badge.into_seat();
        learn(&self.table.shared, &mut seat, session.number, shown);
        session.badge = seat.into_badge();
    }
}

/// Creates the table with the host in its slot, and a seat that owns all sessions. An error means out of memory.
fn make_table<F: Decider + Send + Drop, J: CallLog + Send + Drop>(
    alloc: Global,
    host: Host<F>,
    sessions: usize,
    calls: usize,
) -> Result<(HostTable<F, J>, HostSeat<F, J>), AllocError>
    requires { (0 < sessions) × (sessions ≤ max_sessions) }
    ensures table { IfOk result (λ t. IsHostTable t.0.shared.table_id × (t.0.shared.key.start.value ≡ host) × (t.0.shared.key.sessions ≡ sessions)) }
    ensures seat { IfOk result (λ t. (t.1.table_id ≡ t.0.shared.table_id) × (t.1.me ≡ (fresh_view host 0 sessions, []))) }
{
    let about = TableKey {
        start: Snapshot::of(&host),
        sessions,
    };
    let state = opening_state(alloc, host, calls)?;
    let mut slots = Vec::with_capacity(alloc, 1)?;
    slots.push_reserved(HostSlot::Present(state));
    match Table::new(alloc, &[0, 0, 0], slots, &about) {
        Ok(made) => Ok(made),
        Err(_) => Err(AllocError),
    }
}

/// Creates the first state of the slot, with room for `calls` calls. An error means out of memory.
fn opening_state<F: Decider + Send + Drop, J: CallLog + Send + Drop>(
    alloc: Global,
    host: Host<F>,
    calls: usize,
) -> Result<SharedState<F, J>, AllocError>
    ensures { IfOk result (λ state. state ≡ history host []) }
{
    let start = Snapshot::of(&host);
    Ok(SharedState {
        host: Box::new(alloc, host)?,
        journal: J::with_room(alloc, calls)?,
        start,
    })
}

/// Creates a session that has made no call.
fn make_session<F: Decider + Send + Drop, J: CallLog + Send + Drop>(
    uid: Uid,
    number: usize,
    seat: HostSeat<F, J>,
) -> Session
    requires { seat.me ≡ (session_view (start_of seat.me.0) Idle max_calls [] number [], []) }
    ensures { result ≡ new_session uid number seat.table_id (start_of seat.me.0) }
{
    Session {
        uid,
        number,
        calls_made: 0,
        announced: Announced::none(),
        badge: seat.into_badge(),
    }
}

/// Creates a session for each user. Its seat is split from a seat that owns this session and all later ones.
fn make_sessions<F: Decider + Send + Drop, J: CallLog + Send + Drop>(
    alloc: Global,
    table: &HostTable<F, J>,
    mut unsplit: HostSeat<F, J>,
    users: &[Uid],
) -> Result<Vec<Session>, AllocError>
    requires table { IsHostTable table.now.shared.table_id × (unsplit.table_id ≡ table.now.shared.table_id) }
    requires seat { unsplit.me ≡ (fresh_view (start_of unsplit.me.0) 0 (length users.now), []) }
    ensures { IfOk result (λ v. v.items ≡ new_sessions 0 unsplit.table_id (start_of unsplit.me.0) users.now) }
{
    let mut sessions = Vec::with_capacity(alloc, users.len())?;
    for i in 0..users.len() {
        let later = table.shared.split_seat::<SplitOff>(&mut unsplit);
        sessions.push_reserved(make_session(users[i], i, unsplit));
        unsplit = later;
    }
    Ok(sessions)
}

/// Shares the host among the users. There are 1 to `MAX_SESSIONS` of them.
fn share<F: Decider + Send + Drop, J: CallLog + Send + Drop>(
    alloc: Global,
    host: Host<F>,
    users: &[Uid],
    calls: usize,
) -> Result<(SharedHost<F, J>, Vec<Session>), AllocError>
    requires { (0 < length users.now) × (length users.now ≤ max_sessions) }
    ensures host { IfOk result (λ r. (r.0.start ≡ host) × (r.0.sessions ≡ length users.now)) }
    ensures sessions { IfOk result (λ r. r.1.items ≡ new_sessions 0 r.0.id host users.now) }
{
    let (table, unsplit) = make_table(alloc, host, users.len(), calls)?;
    let sessions = make_sessions(alloc, &table, unsplit, users)?;
    let host = SharedHost {
        table,
        door: FairLock::new(),
        sessions: users.len(),
    };
    Ok((host, sessions))
}

/// Joins the seats of all sessions into one that owns all sessions.
fn join_seats<F: Decider + Send + Drop, J: CallLog + Send + Drop>(
    table: &HostTable<F, J>,
    mut sessions: Vec<Session>,
) -> HostSeat<F, J>
    requires table { IsHostTable table.now.shared.table_id }
    requires some_session { 0 < vec_len sessions }
    requires sessions { Each (IsAt table.now.shared.table_id table.now.shared.key.start.value) sessions.items }
    ensures table { result.table_id ≡ table.now.shared.table_id }
    ensures seat { (order : List SessionData) × (b : ℕ) × (sessions.items ≡ reverse order) × (result.me ≡ (gathered table.now.shared.key.start.value order b, [])) }
{
    let Some(first) = sessions.pop() else {
        unreachable!()
    };
    let mut seat = first.into_seat();
    while let Some(session) = sessions.pop() {
        table
            .shared
            .join_seat::<JoinTwo>(&mut seat, session.into_seat());
    }
    seat
}

/// Takes the last state out of the slot.
fn take_state<F: Decider + Send + Drop, J: CallLog + Send + Drop>(
    table: HostTable<F, J>,
    seat: HostSeat<F, J>,
) -> SharedState<F, J>
    requires table { IsHostTable table.shared.table_id × (seat.table_id ≡ table.shared.table_id) }
    requires all { (seat.me.0.stage ≡ Idle) × (table.shared.key.sessions ≤ length seat.me.0.owns) }
    ensures start { result.start ≡ table.shared.key.start.value }
    ensures known { Each (StartsWith result.log) seat.me.0.known }
    ensures owns { Each (Matches table.shared.key.sessions result.log) seat.me.0.owns }
    ensures entries { Each (IsBelow table.shared.key.sessions) result.log }
{
    let mut closed = table.close_with(seat);
    let slot = closed.take(0);
    closed.free();
    match slot {
        HostSlot::Present(state) => state,
        HostSlot::Taken(_, _) => unreachable!(),
    }
}
