//! A host for each user, and the machine of all users that they show.

ghost use Rattle.std.specs.Prelude.{◌≡◌, ◌≢◌, ◌↔◌, None, Err, true, IfOk, IfSome, IsTrue, OnOk, OnErr};
ghost use Rattle.step_types.specs.Plain.{with_handler};
ghost use Rattle.step_types.specs.declared.step.Step.TheVariants.{Install};
ghost use Rattle.requests.specs.Machine.{empty};
ghost use Rattle.requests.specs.Hosts.{Steps};
ghost use Rattle.requests.specs.Making.{Makes};
ghost use Rattle.requests.specs.Laws.{act_fits, step_fits};
ghost use Rattle.requests.specs.View.{view};
ghost use Rattle.visibility.specs.Numbers.{NumbersDiffer};
ghost use Rattle.user_hosts.specs.Made.{CopiesUser};
ghost use Rattle.user_hosts.specs.declared.hosts.CopyRefusal.TheVariants.{Memory, Settings as OtherSettings};

use crate::made::Made;
use crate::own_hosts::OwnHosts;
use pid_blocks::Uid;
use requests::{Act, Host, PlainStep, Reply, Step};
use std::alloc::{AllocError, Global};
use std::marker::Model;
use stop_handlers::{ByPolicy, Decider, Handler};
use trace_rows::Settings;
use visibility::{View, user_view};

/// Why one user's host wasn't copied.
#[derive(Clone, Copy, Debug, PartialEq, Eq)]
pub enum CopyRefusal {
    /// Memory ran out.
    Memory,
    /// The source has other settings.
    Settings,
}

impl From<AllocError> for CopyRefusal {
    ghost from_gives = { λ _ e. e ≡ Memory };

    fn from(_refused: AllocError) -> CopyRefusal {
        CopyRefusal::Memory
    }
}

/// For proofs: an exit status is a byte, as its type says.
fn act_fits(_act: Act)
    ensures { act_fits _act ≡ true }
{}

/// For proofs: so a step's numbers fit their types.
#[inline(always)]
fn fits<H>(step: &Step<H>)
    ensures { IfSome (with_handler None step.now) (λ s. step_fits s ≡ true) }
{
    if let Step::Turn { act, .. } = *step {
        act_fits(act);
    }
}

fn same_settings(these: Settings, others: Settings) -> bool
    ensures { IsTrue result ↔ (these ≡ others) }
{
    these == others
}

/// A host for each user. Contracts see them as one host of all users, as they see a `Host`: a machine with the rows of
/// all, which every step of these hosts was made on.
#[derive(Drop)]
pub struct UserHosts<F: Decider + Send + Drop> {
    hosts: OwnHosts<F>,
    made: Made,
}

impl<F: Decider + Send + Drop> Model for UserHosts<F> {
    ghost use Rattle.requests.specs.Machine.{Machine};
    ghost use Rattle.user_hosts.specs.Made.{Kept, machine_after};

    ghost Value = { Machine };

    ghost view = { λ h. machine_after h.hosts.settings h.made.steps };

    ghost invariant = { λ h. Kept h.hosts h.made.steps };
}

impl<F: Decider + Send + Drop> UserHosts<F> {
    /// Returns unused hosts. They take no memory before the first spawn.
    pub fn new(alloc: Global, settings: Settings) -> UserHosts<F>
        ensures { result ≡ empty settings }
    {
        UserHosts {
            hosts: OwnHosts::new(alloc, settings),
            made: Made::nothing(),
        }
    }

    /// Returns the settings: whether a debugger's end kills its tracees.
    pub fn settings(&self) -> Settings
        ensures { result ≡ self.now.settings }
    {
        self.hosts.settings()
    }

    /// Makes a step of the user in the user's host. No other host is looked at. Refused as the manual page of its call
    /// says, and with ENOMEM if memory runs out. A refused step changes nothing.
    pub fn step(&mut self, alloc: Global, user: Uid, step: Step<Handler<F>>) -> Reply
        ensures { Steps user step self.old self.new result }
    {
        if let Some(reply) = self.step_without_handler(alloc, user, &step) {
            return reply;
        }
        let Step::Install { caller, handler } = step else {
            unreachable!()
        };
        self.install(alloc, user, caller, handler)
    }

    /// Installs a handler of the caller.
    #[inline(never)]
    fn install(&mut self, alloc: Global, user: Uid, caller: u32, handler: Handler<F>) -> Reply
        ensures { Steps user (Install caller handler) self.old self.new result }
    {
        let _user = user.get();
        let asked = PlainStep::Install {
            caller,
            handler: handler.policy(),
        };
        let reply = self
            .hosts
            .step(alloc, user, Step::Install { caller, handler });
        self.made = self.made.one_more(user, &asked, &reply);
        reply
    }

    /// Makes a step of the user as `step` does, if it needs no handler. For an install it returns `None` and changes
    /// nothing.
    #[inline(always)]
    pub fn step_without_handler<H>(
        &mut self,
        alloc: Global,
        user: Uid,
        step: &Step<H>,
    ) -> Option<Reply>
        ensures { Makes user (with_handler None step.now) self.old self.new result }
    {
        let _user = user.get();
        fits(step);
        let reply = if self.hosts.has_host(user) {
            self.hosts.step_without_handler(alloc, user, step)
        } else {
            self.hosts.begin_without_handler(alloc, user, step)
        };
        self.made = self.made.one_more_without_handler(user, step, &reply);
        reply
    }

    /// Returns what the user sees. An error means out of memory.
    pub fn view(&self, alloc: Global, user: Uid) -> Result<View, AllocError>
        ensures view { IfOk result (λ v. v ≡ view user self.now) }
        ensures differ { IfOk result (λ v. NumbersDiffer v) }
    {
        let _user = user.get();
        match self.hosts.host(user) {
            Some(host) => user_view(alloc, host, user),
            None => {
                let host: Host<ByPolicy> = Host::new(alloc, self.hosts.settings())?;
                user_view(alloc, &host, user)
            }
        }
    }

    /// Returns other hosts that show every user the same. Each of their handlers answers by its policy. From then on both
    /// go their own ways. It takes the time and the memory of the hosts of those who have one. An error means out of memory.
    pub fn copy(&self, alloc: Global) -> Result<UserHosts<ByPolicy>, AllocError>
        ensures { IfOk result (λ copy. copy ≡ self.now) }
    {
        let mut hosts = OwnHosts::new(alloc, self.hosts.settings());
        hosts.copy_from(alloc, &self.hosts)?;
        Ok(UserHosts {
            hosts,
            made: self.made.same(),
        })
    }
}

impl UserHosts<ByPolicy> {
    /// Makes these hosts equal to the source's, as `copy` does, in their own memory as far as that goes. An error means
    /// out of memory, and then the hosts are unused, with the settings that they had.
    pub fn copy_from<F: Decider + Send + Drop>(
        &mut self,
        alloc: Global,
        source: &UserHosts<F>,
    ) -> Result<(), AllocError>
        ensures done { OnOk result (self.new ≡ source.now) }
        ensures refused { OnErr result (self.new ≡ empty self.old.settings) }
    {
        match self.hosts.copy_from(alloc, &source.hosts) {
            Ok(()) => {
                self.made = source.made.same();
                Ok(())
            }
            Err(_) => {
                self.hosts.clear();
                self.made = Made::nothing();
                Err(AllocError)
            }
        }
    }

    /// Makes the user's host equal to the source's one, as `copy` does. It takes the time and the memory of only this
    /// user's host. All other hosts stay.
    ///
    /// # Errors
    ///
    /// `Settings` if the source has other settings, and `Memory`. Nothing has changed.
    pub fn copy_user<F: Decider + Send + Drop>(
        &mut self,
        alloc: Global,
        user: Uid,
        source: &UserHosts<F>,
    ) -> Result<(), CopyRefusal>
        ensures done { OnOk result (CopiesUser user self.old source.now self.new) }
        ensures refused { OnErr result (self.new ≡ self.old) }
        ensures settings { (result ≡ Err OtherSettings) ↔ (source.now.settings ≢ self.old.settings) }
    {
        let _user = user.get();
        self.hosts.assert_places();
        if !same_settings(self.hosts.settings(), source.hosts.settings()) {
            return Err(CopyRefusal::Settings);
        }
        self.hosts.copy_user(alloc, user, &source.hosts)?;
        self.made = self.made.with_user(user, &source.made);
        Ok(())
    }
}
