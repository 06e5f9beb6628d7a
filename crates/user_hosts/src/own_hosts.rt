//! One user's host, and a list of them for all users.

ghost use Rattle.std.specs.Prelude.{◌≡◌, ◌<◌, ◌≤◌, None, true, IsSome, IfOk, IfSome, OnOk, OnErr, box_value, length, is_some, option_map};
ghost use Rattle.step_types.specs.Plain.{with_handler};
ghost use Rattle.step_types.specs.Replies.{is_refusal};
ghost use Rattle.requests.specs.Machine.{Machine, empty};
ghost use Rattle.requests.specs.Sound.{sound};
ghost use Rattle.requests.specs.Hosts.{Steps as HostSteps};
ghost use Rattle.requests.specs.Making.{Makes};
ghost use Rattle.user_hosts.specs.Hosts.{MakesIn, Steps, unused, made_of, host_or, host_of, copied, padded};

use pid_blocks::{Errno, Uid};
use requests::{Host, Reply, Step};
use std::alloc::{AllocError, Global};
use std::marker::Model;
use stop_handlers::{ByPolicy, Decider, Handler};
use trace_rows::Settings;

/// A user's host: none before the user's first spawn.
#[derive(Drop)]
struct UserHost<F: Decider + Send + Drop> {
    host: Option<Box<Host<F>>>,
}

impl<F: Decider + Send + Drop> Model for UserHost<F> {
    ghost use Rattle.std.specs.Prelude.{Option, option_map, box_value};
    ghost use Rattle.requests.specs.Machine.{Machine};

    ghost Value = { Option Machine };

    ghost view = { λ h. option_map box_value h.host };
}

/// Creates an unused host. An error means out of memory.
fn new_host<F: Decider + Send + Drop>(
    alloc: Global,
    settings: Settings,
) -> Result<Box<Host<F>>, AllocError>
    ensures { IfOk result (λ host. box_value host ≡ empty settings) }
{
    let host = Host::new(alloc, settings)?;
    Ok(Box::new(alloc, host)?)
}

impl<F: Decider + Send + Drop> UserHost<F> {
    fn none() -> UserHost<F>
        ensures { result ≡ None }
    {
        UserHost { host: None }
    }

    /// Makes a step of a user without a host. Only a spawn isn't refused, and leaves a host.
    fn begin(
        &mut self,
        alloc: Global,
        settings: Settings,
        user: Uid,
        step: Step<Handler<F>>,
    ) -> Reply
        requires none { self.old ≡ None }
        ensures steps { HostSteps user step (empty settings) (host_or settings self.new) result }
        ensures refused { is_refusal result ≡ true → self.new ≡ None }
    {
        let _user = user.get();
        let Step::Spawn = step else {
            return Reply::Errno(Errno::ESRCH);
        };
        let Ok(mut host) = new_host(alloc, settings) else {
            return Reply::Errno(Errno::ENOMEM);
        };
        let reply = host.step(alloc, user, Step::Spawn);
        if let Reply::New { .. } = reply {
            self.host = Some(host);
        }
        reply
    }

    /// Makes a step of the user. A refused step changes nothing.
    fn step(
        &mut self,
        alloc: Global,
        settings: Settings,
        user: Uid,
        step: Step<Handler<F>>,
    ) -> Reply
        ensures steps { HostSteps user step (host_or settings self.old) (host_or settings self.new) result }
        ensures refused { is_refusal result ≡ true → self.new ≡ self.old }
        ensures sound { sound (host_or settings self.old) ≡ true }
    {
        match &mut self.host {
            Some(host) => {
                host.assert_invariant();
                host.step(alloc, user, step)
            }
            None => self.begin(alloc, settings, user, step),
        }
    }

    /// Makes a step of a user with a host as `step` does, if it needs no handler. For an install it returns `None` and
    /// changes nothing.
    #[inline(always)]
    fn step_without_handler<H>(&mut self, alloc: Global, user: Uid, step: &Step<H>) -> Option<Reply>
        requires { IsSome self.old }
        ensures makes { (settings : Settings) → Makes user (with_handler None step.now) (host_or settings self.old) (host_or settings self.new) result }
        ensures none { result ≡ None → self.new ≡ self.old }
        ensures refused { IfSome result (λ r. is_refusal r ≡ true → self.new ≡ self.old) }
        ensures sound { (settings : Settings) → sound (host_or settings self.old) ≡ true }
    {
        let Some(host) = &mut self.host else {
            unreachable!()
        };
        host.assert_invariant();
        host.step_without_handler(alloc, user, step)
    }
}

impl UserHost<ByPolicy> {
    /// Makes this host equal to the source, in its own memory as far as that goes. An error means out of memory, and then
    /// the host is any one.
    fn copy_from<F: Decider + Send + Drop>(
        &mut self,
        alloc: Global,
        source: &UserHost<F>,
    ) -> Result<(), AllocError>
        ensures { OnOk result (self.new ≡ source.now) }
    {
        let Some(host) = &source.host else {
            self.host = None;
            return Ok(());
        };
        match &mut self.host {
            Some(own) => own.copy_from(alloc, host),
            None => {
                self.host = Some(Box::new(alloc, host.copy(alloc)?)?);
                Ok(())
            }
        }
    }
}

/// Makes the list of hosts longer, so that it has a place for this user. An error means out of memory.
#[inline(never)]
fn grow<F: Decider + Send + Drop>(
    made: &mut Vec<UserHost<F>>,
    slot: usize,
) -> Result<(), AllocError>
    requires slot { slot < 64 }
    requires few { length made.old.items ≤ 64 }
    ensures same { padded made.new.items ≡ padded made.old.items }
    ensures few { length made.new.items ≤ 64 }
    ensures place { OnOk result (slot < length made.new.items) }
{
    while made.len() <= slot {
        made.push(UserHost::none())?;
    }
    Ok(())
}

/// A host for each user. A new one has these settings.
#[derive(Drop)]
pub(crate) struct OwnHosts<F: Decider + Send + Drop> {
    /// As far as there are any: users after the last of these have no host.
    made: Vec<UserHost<F>>,
    settings: Settings,
    /// A host that a user had, kept for its memory.
    spare: Option<Box<Host<F>>>,
}

impl<F: Decider + Send + Drop> Model for OwnHosts<F> {
    ghost use Rattle.std.specs.Prelude.{◌≤◌, length};
    ghost use Rattle.user_hosts.specs.Hosts.{Hosts, padded};

    ghost Value = { Hosts };

    ghost view = { λ h. record { settings = h.settings; made = padded h.made.items } };

    ghost invariant = { λ h. length h.made.items ≤ 64 };
}

impl<F: Decider + Send + Drop> OwnHosts<F> {
    /// Returns unused hosts.
    pub(crate) fn new(alloc: Global, settings: Settings) -> OwnHosts<F>
        ensures { result ≡ unused settings }
    {
        OwnHosts {
            made: Vec::new(alloc),
            settings,
            spare: None,
        }
    }

    pub(crate) fn settings(&self) -> Settings
        ensures { result ≡ self.now.settings }
    {
        self.settings
    }

    /// For proofs: there is a place for each user.
    pub(crate) fn assert_places(&self)
        ensures { length self.now.made ≡ 64 }
    {
        let _settings = self.settings;
    }

    /// Takes all users' hosts away.
    pub(crate) fn clear(&mut self)
        ensures { self.new ≡ unused self.old.settings }
    {
        self.made.clear();
    }

    /// Tests whether the user has a host.
    #[inline(always)]
    pub(crate) fn has_host(&self, user: Uid) -> bool
        ensures { result ≡ is_some (made_of user self.now) }
    {
        let _settings = self.settings;
        match self.made.get(user.slot()) {
            Some(place) => place.host.is_some(),
            None => false,
        }
    }

    /// Returns the user's host, if the user has one.
    pub(crate) fn host(&self, user: Uid) -> Option<&Host<F>>
        ensures { option_map (λ h. h.now) result ≡ made_of user self.now }
    {
        let _settings = self.settings;
        let place = self.made.get(user.slot())?;
        match &place.host {
            Some(host) => Some(host.as_ref()),
            None => None,
        }
    }

    /// Makes the step of a user who has no host yet. Only a spawn isn't refused.
    #[inline(never)]
    fn begin(&mut self, alloc: Global, user: Uid, step: Step<Handler<F>>) -> Reply
        requires { made_of user self.old ≡ None }
        ensures { Steps user step self.old self.new result }
    {
        let _user = user.get();
        let settings = self.settings;
        let slot = user.slot();
        let Step::Spawn = step else {
            return Reply::Errno(Errno::ESRCH);
        };
        match grow(&mut self.made, slot) {
            Ok(()) => self.made[slot].step(alloc, settings, user, Step::Spawn),
            Err(_) => Reply::Errno(Errno::ENOMEM),
        }
    }

    /// Makes a step of a user without a host as `begin` does, if it needs no handler.
    #[inline(never)]
    pub(crate) fn begin_without_handler<H>(
        &mut self,
        alloc: Global,
        user: Uid,
        step: &Step<H>,
    ) -> Option<Reply>
        requires { made_of user self.old ≡ None }
        ensures makes { MakesIn user (with_handler None step.now) self.old self.new result }
        ensures sound { sound (host_of user self.old) ≡ true }
    {
        let step = step.with_handler(None)?;
        Some(self.begin(alloc, user, step))
    }

    /// Makes a step of the user in the user's host. No other host is looked at. Refused as the manual page of its call
    /// says, and with ENOMEM if memory runs out. A refused step changes nothing.
    pub(crate) fn step(&mut self, alloc: Global, user: Uid, step: Step<Handler<F>>) -> Reply
        ensures steps { Steps user step self.old self.new result }
        ensures sound { sound (host_of user self.old) ≡ true }
    {
        let _user = user.get();
        let settings = self.settings;
        match self.made.get_mut(user.slot()) {
            Some(place) => place.step(alloc, settings, user, step),
            None => self.begin(alloc, user, step),
        }
    }

    /// Makes a step of a user with a host as `step` does, if it needs no handler. For an install it returns `None` and
    /// changes nothing.
    #[inline(always)]
    pub(crate) fn step_without_handler<H>(
        &mut self,
        alloc: Global,
        user: Uid,
        step: &Step<H>,
    ) -> Option<Reply>
        requires { IsSome (made_of user self.old) }
        ensures makes { MakesIn user (with_handler None step.now) self.old self.new result }
        ensures sound { sound (host_of user self.old) ≡ true }
    {
        let _user = user.get();
        let _settings = self.settings;
        let Some(place) = self.made.get_mut(user.slot()) else {
            unreachable!()
        };
        place.step_without_handler(alloc, user, step)
    }
}

impl OwnHosts<ByPolicy> {
    /// Returns a copy of the host, if there is one, in the memory of the host that is kept. An error means out of memory.
    fn copy_of<F: Decider + Send + Drop>(
        &mut self,
        alloc: Global,
        host: Option<&Host<F>>,
    ) -> Result<UserHost<ByPolicy>, AllocError>
        ensures copied { IfOk result (λ copy. copy ≡ option_map (λ h. h.now) host.entry) }
        ensures unchanged { self.new ≡ self.old }
    {
        let Some(host) = host else {
            return Ok(UserHost::none());
        };
        match self.spare.take() {
            Some(mut spare) => {
                spare.copy_from(alloc, host)?;
                Ok(UserHost { host: Some(spare) })
            }
            None => Ok(UserHost {
                host: Some(Box::new(alloc, host.copy(alloc)?)?),
            }),
        }
    }

    /// Makes the user's host equal to the source's one, as `Host::copy` does: it has the source's settings too. It takes the
    /// time and the memory of only this user's host. An error means out of memory, and changes nothing.
    pub(crate) fn copy_user<F: Decider + Send + Drop>(
        &mut self,
        alloc: Global,
        user: Uid,
        source: &OwnHosts<F>,
    ) -> Result<(), AllocError>
        ensures done { OnOk result (self.new ≡ copied user self.old source.now) }
        ensures refused { OnErr result (self.new ≡ self.old) }
    {
        let host = self.copy_of(alloc, source.host(user))?;
        let slot = user.slot();
        grow(&mut self.made, slot)?;
        let before = std::mem::replace(&mut self.made[slot], host);
        self.spare = before.host;
        Ok(())
    }

    /// Makes these hosts equal to the source's, in their own memory as far as that goes. An error means out of memory, and
    /// then the hosts are any ones, with the settings that they had.
    pub(crate) fn copy_from<F: Decider + Send + Drop>(
        &mut self,
        alloc: Global,
        source: &OwnHosts<F>,
    ) -> Result<(), AllocError>
        ensures done { OnOk result (self.new ≡ source.now) }
        ensures settings { OnErr result (self.new.settings ≡ self.old.settings) }
    {
        let settings = source.settings;
        copy_hosts(alloc, &mut self.made, source.made.as_slice())?;
        self.settings = settings;
        Ok(())
    }
}

/// Makes the hosts equal to the source's, in their own memory as far as that goes. An error means out of memory.
fn copy_hosts<F: Decider + Send + Drop>(
    alloc: Global,
    made: &mut Vec<UserHost<ByPolicy>>,
    source: &[UserHost<F>],
) -> Result<(), AllocError>
    requires few { length source.now ≤ 64 }
    requires room { length made.old.items ≤ 64 }
    ensures copied { OnOk result (made.new.items ≡ source.now) }
    ensures few { length made.new.items ≤ 64 }
{
    made.truncate(source.len());
    for slot in 0..source.len() {
        if slot == made.len() {
            made.push(UserHost::none())?;
        }
        made[slot].copy_from(alloc, &source[slot])?;
    }
    Ok(())
}
