//! Scripts of small steps: their handlers are on the heap.

ghost use Rattle.std.specs.Prelude.{◌≡◌, ℕ, List, length, map, vec_len, IfOk};
ghost use Rattle.std.proofs.Common.{sym, ◌∙◌};
ghost use Rattle.std.proofs.lemmas.List.{length-map};
ghost use Rattle.step_types.specs.Plain.{PlainStep};
ghost use Rattle.host_lock.specs.Boxed.{own_step};
ghost use Rattle.sessions.specs.Boxed.{any_report, any_script, boxed_script, report_of};
ghost use Rattle.sessions.specs.Runs.{plain_script};

use crate::kept::Kept;
use crate::report::{Report, Whole};
use crate::script::Script;
use host_lock::{BoxedStep, Journal, Unkept};
use pid_blocks::Uid;
use requests::Step;
use std::alloc::{AllocError, Global};
use stop_handlers::{Decider, Handler};

/// The steps of one user, in order, with their handlers on the heap, and what is made of the replies. A run of such
/// scripts keeps no journal.
#[derive(Drop)]
pub struct BoxedScript<F: Decider + Send + Drop, T: Drop = Whole> {
    pub uid: Uid,
    pub steps: Vec<BoxedStep<F>>,
    pub report: T,
}

/// A script of either kind, and what is made of the replies.
#[derive(Drop)]
pub enum AnyScript<F: Decider + Send + Drop, T: Drop = Whole> {
    /// Its handlers are in the steps.
    InSteps(Script<F>, T),
    /// Its handlers are on the heap.
    OnHeap(BoxedScript<F, T>),
}

/// A script with its handlers in the steps or on the heap.
pub trait Scripted<F: Decider + Send + Drop>: Sized + Drop {
    /// What is made of the replies.
    type Report: Report;

    /// What a run of such scripts hands out of its answered calls.
    type Kept: Kept;

    /// The user and the steps, in order.
    ghost plain: { Self → ℕ × List PlainStep };

    /// How many steps there are.
    ghost count: { Self → ℕ };

    /// What is made of the replies.
    ghost report: { Self → Self.Report };

    /// Returns the script, with its kind.
    fn any(self) -> AnyScript<F, Self::Report>
        ensures script { any_script result ≡ plain self }
        ensures report { any_report result ≡ report self };

    ghost counts: { (s : Self) → count s ≡ length (plain s).1 };
}

impl<F: Decider + Send + Drop> Scripted<F> for Script<F> {
    type Report = Whole;

    type Kept = Journal;

    ghost plain = { plain_script };

    ghost count = { λ s. vec_len s.steps };

    ghost report = { λ _. record {} };

    fn any(self) -> AnyScript<F> {
        AnyScript::InSteps(self, Whole)
    }

    ghost counts = { λ s. s.steps.ok.0 };
}

impl<F: Decider + Send + Drop, T: Report> Scripted<F> for BoxedScript<F, T> {
    type Report = T;

    type Kept = Unkept;

    ghost plain = { boxed_script };

    ghost count = { λ s. vec_len s.steps };

    ghost report = { report_of };

    fn any(self) -> AnyScript<F, T> {
        AnyScript::OnHeap(self)
    }

    ghost counts = { λ s. s.steps.ok.0 ∙ sym (length-map s.steps.items own_step) };
}

/// Moves the step's handler to the heap, if it installs one. An error means out of memory.
pub fn boxed<F: Decider + Send + Drop>(
    alloc: Global,
    step: Step<Handler<F>>,
) -> Result<BoxedStep<F>, AllocError>
    ensures { IfOk result (λ boxed. own_step boxed ≡ step) }
{
    match step {
        Step::Install { caller, handler } => Ok(Step::Install {
            caller,
            handler: Box::new(alloc, handler)?,
        }),
        other => Ok(other.with_handler(None).unwrap()),
    }
}

/// Moves the handlers of the script to the heap. An error means out of memory.
fn boxed_one<F: Decider + Send + Drop, T: Report>(
    alloc: Global,
    script: Script<F>,
    report: T,
) -> Result<BoxedScript<F, T>, AllocError>
    ensures { IfOk result (λ s. (boxed_script s ≡ plain_script script) × (s.report ≡ report)) }
{
    let Script { uid, steps } = script;
    let mut small = Vec::with_capacity(alloc, steps.len())?;
    for step in steps {
        small.push(boxed(alloc, step)?)?;
    }
    Ok(BoxedScript {
        uid,
        steps: small,
        report,
    })
}

/// Moves the handlers of the script to the heap, if they are in its steps. An error means out of memory.
fn boxed_any<F: Decider + Send + Drop, T: Report>(
    alloc: Global,
    script: AnyScript<F, T>,
) -> Result<BoxedScript<F, T>, AllocError>
    ensures { IfOk result (λ s. (boxed_script s ≡ any_script script) × (report_of s ≡ any_report script)) }
{
    match script {
        AnyScript::InSteps(script, report) => boxed_one(alloc, script, report),
        AnyScript::OnHeap(script) => Ok(script),
    }
}

/// Moves the handlers of the scripts to the heap. An error means out of memory.
pub(crate) fn boxed_scripts<F: Decider + Send + Drop, S: Scripted<F>>(
    alloc: Global,
    scripts: Vec<S>,
) -> Result<Vec<BoxedScript<F, S::Report>>, AllocError>
    ensures scripts { IfOk result (λ v. map boxed_script v.items ≡ map S.plain scripts.items) }
    ensures reports { IfOk result (λ v. map report_of v.items ≡ map S.report scripts.items) }
{
    let mut small = Vec::with_capacity(alloc, scripts.len())?;
    for script in scripts {
        small.push(boxed_any(alloc, script.any())?)?;
    }
    Ok(small)
}
