//! A host and its steps.

ghost use Rattle.std.specs.Prelude.{◌≡◌, None, true, false, IfOk, IfErr, OnOk, option_map, slice_get};
ghost use Rattle.pid_blocks.specs.Users.{IsUser};
ghost use Rattle.step_types.specs.declared.step.Step.TheVariants as op;
ghost use Rattle.requests.specs.Callers.{IsCallerByNumber, Barred, bar_reply};
ghost use Rattle.requests.specs.Hosts.{Steps};
ghost use Rattle.step_types.specs.Plain.{installs};
ghost use Rattle.requests.specs.Making.{Makes};
ghost use Rattle.step_types.specs.Plain.{bare, with_handler};
ghost use Rattle.requests.specs.Laws.{step_fits};
ghost use Rattle.requests.specs.Machine.{empty, installed_by};
ghost use Rattle.requests.specs.Sound.{sound};

use crate::dispatch::{called, uncalled};
use crate::ending::drop_ended;
use crate::handlers::HandlerTable;
use crate::{Act, MAX_HANDLERS, Reply, Step};
use event_masks::Call;
use pid_blocks::{Errno, Pid, Uid};
use proc_table::{ProcData, Tables};
use std::alloc::{AllocError, Global};
use std::marker::Model;
use stop_handlers::{ByPolicy, Decider, Handler, Policy};
use trace_rows::Settings;

/// For proofs: the code of an exit is a byte.
fn fits<H>(step: &Step<H>)
    ensures { step_fits (bare step.now) ≡ true }
{
    if let Step::Turn {
        act: Act::Enter(Call::Exit(code)),
        ..
    } = step
    {
        let _byte = *code;
    }
}

/// Why a number may make no step.
#[derive(Clone, Copy, Drop)]
enum Bar {
    /// It names no process of the user, or one that has ended.
    Missing,
    /// Its process doesn't run.
    Held,
}

impl Bar {
    /// Returns the reply to each step of such a number. `caller` itself returns no reply: one that is passed on from an
    /// inlined function is copied at each level.
    #[inline(always)]
    fn reply(self) -> Reply
        ensures { result ≡ bar_reply self }
    {
        match self {
            Bar::Missing => Reply::Errno(Errno::ESRCH),
            Bar::Held => Reply::Held,
        }
    }
}

/// A host: its rows of processes and LWPs, the installed handlers of debuggers, and its settings.
pub struct Host<F: Decider + Send + Drop> {
    tables: Tables,
    handlers: HandlerTable<F>,
    settings: Settings,
}

impl<F: Decider + Send + Drop> Drop for Host<F> {
    fn drop(self) {
        let Host {
            tables: _,
            handlers: _,
            settings: _,
        } = self;
    }
}

impl<F: Decider + Send + Drop> Model for Host<F> {
    ghost use Rattle.std.specs.Prelude.{◌≡◌, true};
    ghost use Rattle.requests.specs.Machine.{Machine};
    ghost use Rattle.requests.specs.Hosts.{machine_of};
    ghost use Rattle.requests.specs.Sound.{sound};

    ghost Value = { Machine };

    ghost view = { λ h. machine_of h.settings h.tables h.handlers };

    ghost invariant = { λ h. sound (machine_of h.settings h.tables h.handlers) ≡ true };
}

impl<F: Decider + Send + Drop> Host<F> {
    /// Creates an unused host. An error means out of memory.
    pub fn new(alloc: Global, settings: Settings) -> Result<Host<F>, AllocError>
        ensures { IfOk result (λ host. host ≡ empty settings) }
    {
        let tables = Tables::new(alloc)?;
        Ok(Host {
            tables,
            handlers: HandlerTable::new(alloc),
            settings,
        })
    }

    /// Returns another host with the same rows, settings and policies. Each of its handlers answers by its policy. From
    /// then on both hosts go their own ways.
    ///
    /// This is no step. It takes the time and the memory of a new host, of the most rows that there were at once, and
    /// of the installed handlers. An error means out of memory, and leaves nothing.
    pub fn copy(&self, alloc: Global) -> Result<Host<ByPolicy>, AllocError>
        ensures { IfOk result (λ copy. copy ≡ self.now) }
    {
        let tables = self.tables.clone()?;
        let handlers = self.handlers.copy(alloc)?;
        Ok(Host {
            tables,
            handlers,
            settings: self.settings,
        })
    }

    /// For proofs: the invariant of a host.
    pub fn assert_invariant(&self)
        ensures { sound self.now ≡ true }
    {
        let _settings = self.settings;
    }

    /// Returns the settings: whether a debugger's end kills its tracees.
    pub fn settings(&self) -> Settings
        ensures { result ≡ self.now.settings }
    {
        self.settings
    }

    /// Returns the rows of processes and LWPs.
    pub fn tables(&self) -> &Tables
        ensures { result.now.rows ≡ self.now.rows }
    {
        &self.tables
    }

    /// Returns the debugger and the policy of the user's installed handler at this index, from 0.
    pub fn policy(&self, user: Uid, index: usize) -> Option<(Pid, Policy)>
        ensures { result ≡ option_map (λ i. (i.debugger, i.policy)) (slice_get (installed_by user self.now) index) }
    {
        let _settings = self.settings;
        self.handlers.at(user, index)
    }

    /// Returns the caller with this number, a process that runs. The error says why there is none.
    #[inline(always)]
    #[tactic(auto, using(std::proofs::lemmas::Bool::Decides::nat_tests))]
    fn caller(&self, user: Uid, caller: u32) -> Result<ProcData, Bar>
        ensures found { IfOk result (IsCallerByNumber user caller self.now.rows) }
        ensures barred { IfErr result (λ bar. Barred user caller self.now (bar_reply bar)) }
    {
        let _settings = self.settings;
        let Some(asking) = self.tables.visible_process(user, caller) else {
            return Err(Bar::Missing);
        };
        if !asking.is_live() {
            return Err(Bar::Missing);
        }
        if !asking.is_run() {
            return Err(Bar::Held);
        }
        Ok(asking)
    }

    /// Installs a handler of the caller. Refused with EAGAIN if the user's debuggers have 64, and with ENOMEM if memory
    /// runs out. A refusal changes nothing.
    fn install(&mut self, alloc: Global, user: Uid, number: u32, handler: Handler<F>) -> Reply
        requires { IsUser user }
        ensures { Steps user (op.Install number handler) self.old self.new result }
    {
        let caller = match self.caller(user, number) {
            Ok(caller) => caller,
            Err(bar) => return bar.reply(),
        };
        if self.handlers.count(user) >= MAX_HANDLERS {
            return Reply::Errno(Errno::EAGAIN);
        }
        match self.handlers.install(alloc, user, caller.pid, handler) {
            Ok(()) => Reply::Done,
            Err(_) => Reply::Errno(Errno::ENOMEM),
        }
    }

    /// Makes a step of the user that installs no handler. Refused with ENOMEM if memory runs out, which changes nothing.
    #[inline(always)]
    fn make<H>(&mut self, alloc: Global, user: Uid, step: &Step<H>) -> Reply
        requires user { IsUser user }
        requires other { installs (bare step.now) ≡ false }
        ensures { Steps user (bare step.now) self.old self.new result }
    {
        fits(step);
        match step.caller() {
            None => {
                let reply = uncalled(&mut self.tables, &self.handlers, self.settings, user, step);
                drop_ended(&mut self.handlers, &self.tables, user, step, &reply);
                reply
            }
            Some(number) => {
                let caller = match self.caller(user, number) {
                    Ok(caller) => caller,
                    Err(bar) => return bar.reply(),
                };
                let reply = called(
                    &mut self.tables,
                    &self.handlers,
                    self.settings,
                    alloc,
                    user,
                    &caller,
                    step,
                );
                drop_ended(&mut self.handlers, &self.tables, user, step, &reply);
                reply
            }
        }
    }

    /// Makes a step of the user. Refused as the manual page of its call says, and with ENOMEM if memory runs out. A
    /// refused step changes nothing.
    #[inline(always)]
    pub fn step(&mut self, alloc: Global, user: Uid, step: Step<Handler<F>>) -> Reply
        ensures { Steps user step self.old self.new result }
    {
        let _user = user.get();
        if let Some(reply) = self.step_without_handler(alloc, user, &step) {
            return reply;
        }
        let Step::Install { caller, handler } = step else {
            unreachable!()
        };
        self.install(alloc, user, caller, handler)
    }

    /// Makes a step of the user as `step` does, if it needs no handler. For an install it returns `None` and changes
    /// nothing.
    #[inline(always)]
    pub fn step_without_handler<H>(
        &mut self,
        alloc: Global,
        user: Uid,
        step: &Step<H>,
    ) -> Option<Reply>
        ensures { Makes user (with_handler None step.now) self.old self.new result }
    {
        let _user = user.get();
        if let Step::Install { .. } = step {
            return None;
        }
        Some(self.make(alloc, user, step))
    }
}

impl Host<ByPolicy> {
    /// Makes this host equal to the source, as `copy` does another one. It takes its own memory as far as that goes, and
    /// new memory for handlers. An error means out of memory, and then the host is any one.
    #[inline(always)]
    pub fn copy_from<F: Decider + Send + Drop>(
        &mut self,
        alloc: Global,
        source: &Host<F>,
    ) -> Result<(), AllocError>
        ensures { OnOk result (self.new ≡ source.now) }
    {
        let handlers = source.handlers.copy(alloc)?;
        if self.tables.copy_from(alloc, &source.tables).is_ok() {
            self.handlers = handlers;
            self.settings = source.settings;
            return Ok(());
        }
        self.handlers = HandlerTable::new(alloc);
        Err(AllocError)
    }
}
