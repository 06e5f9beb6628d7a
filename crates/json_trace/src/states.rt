//! A run whose lines have what each step changed of its user's rows.
ghost use Rattle.std.specs.Prelude.{ℕ, List, Option, None, Some, ◌≡◌, ◌++◌, [], get_or, length, replicate, OnOk, IfOk, IfErr};
ghost use Rattle.lwp_table.specs.Lwps.{Once};
ghost use Rattle.pid_blocks.specs.Blocks.{slot};
ghost use Rattle.reply_json.specs.Objects.{member_tokens, Puts};
ghost use Rattle.requests.specs.Isolation.{host_after, reply_of};
ghost use Rattle.requests.specs.View.{view};
ghost use Rattle.visibility.specs.Numbers.{NumbersDiffer};
ghost use Rattle.step_types.specs.declared.Reply.{Reply};
ghost use Rattle.scenario_text.specs.Plan.{asked};
ghost use Rattle.scenario_runs.specs.declared.running.RunFault.TheVariants.{Memory as NoMemory};
ghost use Rattle.open_sessions.specs.Answers.{last_reply};
ghost use Rattle.json_trace.specs.Changes.{rows_line, rows_members, rows_shown};
ghost use Rattle.json_trace.specs.Parts.{Stopped, WritesFront};
ghost use Rattle.scenario_runs.specs.Parts.{Parted};
ghost use Rattle.json_trace.specs.Seen.{lwps_in, processes_in, Sees};

use crate::changes::push_changed_rows;
use crate::lines::{StepPlace, push_members};
use crate::traces::is_shown;
use crate::writing::Part;
use json::Writer;
use lwp_table::LwpData;
use open_sessions::Session;
use pid_blocks::Uid;
use proc_table::ProcData;
use scenario_runs::{RunFault, Scenario, USERS, count_reply};
use std::alloc::{AllocError, Global};
use std::io::{self, Write};
use step_types::{PlainStep, Reply};
use visibility::View;

/// Returns the fault of a writer that failed, or that found no memory.
pub fn write_fault(error: &io::Error) -> RunFault {
    if error.kind() == io::ErrorKind::OutOfMemory {
        RunFault::Memory
    } else {
        RunFault::Write
    }
}

/// Rows that a user saw.
#[derive(Clone, Copy)]
struct SeenRows<'a> {
    processes: &'a [ProcData],
    lwps: &'a [LwpData],
}

/// What each user saw after the last own step. Before the first one a user sees nothing.
#[derive(Drop)]
struct Seen {
    views: Vec<Option<View>>,
}

impl Seen {
    fn nothing(alloc: Global) -> Result<Seen, AllocError>
        ensures { IfOk result (λ seen. seen.views.items ≡ replicate 64 None) }
    {
        let mut views = Vec::with_capacity(alloc, USERS)?;
        for _slot in 0..USERS {
            views.push(None)?;
        }
        Ok(Seen { views })
    }

    fn rows(&self, user: Uid) -> SeenRows<'_>
        ensures processes { result.processes.now ≡ processes_in (get_or self.now.views.items (slot user) None) }
        ensures lwps { result.lwps.now ≡ lwps_in (get_or self.now.views.items (slot user) None) }
    {
        match self.views.get(user.slot()) {
            Some(Some(view)) => SeenRows {
                processes: view.processes.as_slice(),
                lwps: view.lwps.as_slice(),
            },
            _ => SeenRows {
                processes: &[],
                lwps: &[],
            },
        }
    }
}

/// Makes the step of the user.
fn make(alloc: Global, session: &mut Session, user: Uid, step: &PlainStep) -> Result<(), RunFault>
    ensures host { OnOk result (session.new.host ≡ host_after user step.now session.old.host) }
    ensures reply { OnOk result (last_reply session.new.last ≡ Some (reply_of user step.now session.old.host)) }
    ensures err { IfErr result (λ e. e ≡ NoMemory) }
{
    // a session counts more steps than a scenario has
    if session.step(alloc, user, step).is_err() {
        return Err(RunFault::Memory);
    }
    let Some(reply) = session.reply() else {
        return Err(RunFault::Memory);
    };
    if reply.is_memory() {
        return Err(RunFault::Memory);
    }
    Ok(())
}

/// Writes all members of a step's line.
#[tactic(auto, using(reply_json::proofs::TokenLemmas::put_rules))]
fn push_all(
    alloc: Global,
    out: &mut Writer,
    place: StepPlace,
    answered: (&PlainStep, &Reply),
    seen: SeenRows<'_>,
    after: &View,
) -> Result<(), AllocError>
    requires processes { Once (λ p. p.pid) seen.processes.now × Once (λ p. p.pid) after.now.processes }
    requires lwps { Once (λ l. l.tid) seen.lwps.now × Once (λ l. l.tid) after.now.lwps }
    ensures { Puts result out.old out.new (member_tokens (rows_members place.number place.index (asked (place.user, answered.entry.0.now)) answered.entry.1.now seen.entry.processes.now seen.entry.lwps.now after.now)) }
{
    push_members(out, place, answered.0, answered.1)?;
    push_changed_rows(alloc, out, seen.processes, seen.lwps, after)
}

/// More bytes than most lines have.
const LINE_ROOM: usize = 1024;

/// Returns the line of a step.
#[tactic(auto, using(reply_json::proofs::TokenLemmas::put_rules))]
fn line_of(
    alloc: Global,
    place: StepPlace,
    answered: (&PlainStep, &Reply),
    seen: SeenRows<'_>,
    after: &View,
) -> Result<Vec<u8>, AllocError>
    requires processes { Once (λ p. p.pid) seen.processes.now × Once (λ p. p.pid) after.now.processes }
    requires lwps { Once (λ l. l.tid) seen.lwps.now × Once (λ l. l.tid) after.now.lwps }
    ensures { IfOk result (λ text. text.items ≡ (rows_line place.number place.index (asked (place.user, answered.entry.0.now)) answered.entry.1.now seen.entry.processes.now seen.entry.lwps.now after.now).text) }
{
    let mut out = Writer::new(Vec::with_capacity(alloc, LINE_ROOM)?);
    out.begin_object()?;
    push_all(alloc, &mut out, place, answered, seen, after)?;
    out.end_object()?;
    let mut text = out.into_inner();
    text.push(b'\n')?;
    Ok(text)
}

/// Adds the line of the step that the session answered last, and notes what its user sees.
fn add_line<W: Write>(
    alloc: Global,
    session: &Session,
    seen: &mut Seen,
    place: StepPlace,
    step: &PlainStep,
    part: &mut Part,
    writer: &mut W,
) -> Result<(), RunFault>
    requires views { length seen.old.views.items ≡ 64 }
    requires processes { Once (λ p. p.pid) (processes_in (get_or seen.old.views.items (slot place.user) None)) }
    requires lwps { Once (λ l. l.tid) (lwps_in (get_or seen.old.views.items (slot place.user) None)) }
    ensures seen { OnOk result (Sees place.user (view place.user session.now.host) seen.old.views.items seen.new.views.items) }
    ensures differ { OnOk result (NumbersDiffer (view place.user session.now.host)) }
    ensures ok { OnOk result ((before : Option (List ℕ)) (rest all : List ℕ) (reply : Reply) → last_reply session.now.last ≡ Some reply
        → Parted before (W.contents writer.old) part.old.text.items
        ((rows_line place.number place.index (asked (place.user, step.now)) reply (processes_in (get_or seen.old.views.items (slot place.user) None)) (lwps_in (get_or seen.old.views.items (slot place.user) None)) (view place.user session.now.host)).text ++ rest) all part.old.is_begun
        → Parted before (W.contents writer.new) part.new.text.items rest all part.new.is_begun) }
    ensures err { IfErr result (λ e. (before : Option (List ℕ)) (rest all : List ℕ) (reply : Reply) → last_reply session.now.last ≡ Some reply
        → Parted before (W.contents writer.old) part.old.text.items
        ((rows_line place.number place.index (asked (place.user, step.now)) reply (processes_in (get_or seen.old.views.items (slot place.user) None)) (lwps_in (get_or seen.old.views.items (slot place.user) None)) (view place.user session.now.host)).text ++ rest) all part.old.is_begun
        → Stopped e before (W.contents writer.new) part.new.text.items all part.new.is_begun) }
{
    let Some(reply) = session.reply() else {
        return Err(RunFault::Memory);
    };
    let after = session.view(alloc, place.user)?;
    let line = line_of(alloc, place, (step, reply), seen.rows(place.user), &after)?;
    part.text.extend_from_slice(line.as_slice())?;
    part.write_full(writer)?;
    seen.views[place.user.slot()] = Some(after);
    Ok(())
}

/// Makes the steps of the scenario in order on a new host, and adds the lines of the user, or of all users, to the part.
fn add_lines<W: Write>(
    alloc: Global,
    scenario: &Scenario,
    user: Option<Uid>,
    part: &mut Part,
    writer: &mut W,
) -> Result<(), RunFault>
    ensures ok { OnOk result ((before : Option (List ℕ)) (all : List ℕ)
        → Parted before (W.contents writer.old) part.old.text.items (rows_shown user scenario.now) all part.old.is_begun
        → Parted before (W.contents writer.new) part.new.text.items [] all part.new.is_begun) }
    ensures err { IfErr result (λ e. (before : Option (List ℕ)) (all : List ℕ)
        → Parted before (W.contents writer.old) part.old.text.items (rows_shown user scenario.now) all part.old.is_begun
        → Stopped e before (W.contents writer.new) part.new.text.items all part.new.is_begun) }
{
    let mut session = Session::new(alloc, scenario.settings);
    let mut seen = Seen::nothing(alloc)?;
    let mut made = [0u64; USERS];
    let mut index = 0u64;
    let count = scenario.steps.len();
    for asked in scenario.steps.iter() {
        let (asking, step) = (asked.0, &asked.1);
        make(alloc, &mut session, asking, step)?;
        let number = count_reply(&mut made, asking);
        index = index.saturating_add(1);
        if is_shown(&user, asking) {
            let place = StepPlace {
                user: asking,
                number,
                index,
            };
            add_line(alloc, &session, &mut seen, place, step, part, writer)?;
        }
    }
    Ok(())
}

/// Makes the steps of the scenario in order on a new host, and writes the JSON lines of the user, or of all users. Each has its
/// step, and what the step changed of its user's rows.
///
/// # Errors
///
/// `Memory` if memory ran out, also for a step, and `Write` if the writer failed. Then the lines before were written.
pub fn write_states<W: Write>(
    alloc: Global,
    scenario: &Scenario,
    user: Option<Uid>,
    writer: &mut W,
) -> Result<(), RunFault>
    ensures { WritesFront result (W.contents writer.old) (W.contents writer.new) (rows_shown user scenario.now) }
{
    let mut part = Part::first(alloc)?;
    match add_lines(alloc, scenario, user, &mut part, writer) {
        Ok(()) => part.end(writer),
        Err(RunFault::Memory) => {
            part.end(writer)?;
            Err(RunFault::Memory)
        }
        Err(fault) => Err(fault),
    }
}
