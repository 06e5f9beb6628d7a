//! The installed handlers of each user's debuggers.

ghost use Rattle.std.specs.Prelude.{◌≡◌, ℕ, ◌≤◌, ◌<◌, ◌++◌, ◌∷◌, [], Some, None, map, filter, length, set, get_or, option_map, slice_get, OnOk, OnErr, IfOk};
ghost use Rattle.std.specs.List.{list_all};
ghost use Rattle.pid_blocks.specs.Blocks.{slot, users};
ghost use Rattle.trace_rows.specs.Sound.{is_live_at};
ghost use Rattle.requests.specs.Machine.{Installed, lists_of};
ghost use Rattle.requests.specs.Handle.{decided, is_decline, policies_in};

use pid_blocks::{Pid, Uid};
use proc_table::Tables;
use std::alloc::{AllocError, Global};
use std::marker::Model;
use stop_handlers::{ByPolicy, Decider, Decision, Handler, Policy, StopView};

/// The answer of a debugger's handlers about a stop.
#[derive(Clone, Copy, Debug, PartialEq, Eq, Drop)]
pub struct Decided {
    /// The index, from 0, of the deciding handler among the debugger's; `None` if all decline.
    pub index: Option<u32>,
    pub decision: Decision,
}

/// A handler, and the debugger that installed it.
#[derive(Drop)]
struct Installed<F: Decider + Send + Drop> {
    debugger: Pid,
    handler: Handler<F>,
}

impl<F: Decider + Send + Drop> Model for Installed<F> {
    ghost use Rattle.requests.specs.Machine.{Installed};

    ghost Value = { Installed };

    ghost view = { λ i. record { debugger = i.debugger; policy = i.handler } };
}

impl<F: Decider + Send + Drop> Installed<F> {
    fn debugger(&self) -> Pid
        ensures { result ≡ self.now.debugger }
    {
        self.debugger
    }

    fn policy(&self) -> Policy
        ensures { result ≡ self.now.policy }
    {
        self.handler.policy()
    }

    /// Returns a handler of the same debugger that answers by this one's policy.
    fn by_policy(&self) -> Installed<ByPolicy>
        ensures { result ≡ self.now }
    {
        let policy = self.policy();
        Installed {
            debugger: self.debugger,
            handler: Handler::new(policy, ByPolicy(policy)),
        }
    }
}

/// The installed handlers of one user's debuggers, in order.
#[derive(Drop)]
struct HandlerList<F: Decider + Send + Drop> {
    installed: Vec<Installed<F>>,
}

impl<F: Decider + Send + Drop> Model for HandlerList<F> {
    ghost use Rattle.std.specs.Prelude.{List};
    ghost use Rattle.requests.specs.Machine.{Installed};

    ghost Value = { List Installed };

    ghost view = { λ l. l.installed.items };
}

impl<F: Decider + Send + Drop> HandlerList<F> {
    fn new(alloc: Global) -> HandlerList<F>
        ensures { result ≡ [] }
    {
        HandlerList {
            installed: Vec::new(alloc),
        }
    }

    fn len(&self) -> usize
        ensures { result ≡ length self.now }
    {
        self.installed.len()
    }

    /// Adds a handler of the debugger. An error means out of memory, and changes nothing.
    fn push(&mut self, debugger: Pid, handler: Handler<F>) -> Result<(), AllocError>
        ensures done { OnOk result (self.new ≡ self.old ++ (record { debugger = debugger; policy = handler } ∷ [])) }
        ensures refused { OnErr result (self.new ≡ self.old) }
    {
        self.installed.push(Installed { debugger, handler })?;
        Ok(())
    }

    /// Returns the debugger and the policy of the handler at this index.
    fn at(&self, index: usize) -> Option<(Pid, Policy)>
        ensures { result ≡ option_map (λ i. (i.debugger, i.policy)) (slice_get self.now index) }
    {
        let installed = self.installed.get(index)?;
        Some((installed.debugger(), installed.policy()))
    }

    /// Returns what the debugger's handlers decide about a stop.
    fn decided(&self, debugger: Pid, view: &StopView) -> Decided
        requires { length self.now ≤ 64 }
        ensures { result ≡ decided (policies_in debugger self.now) 0 view.now }
    {
        let mut index = 0;
        for installed in &self.installed {
            if installed.debugger == debugger {
                let decision = installed.handler.ask(view);
                if decision != Decision::Decline {
                    return Decided {
                        index: Some(index),
                        decision,
                    };
                }
                index += 1;
            }
        }
        Decided {
            index: None,
            decision: Decision::Decline,
        }
    }

    /// Returns a list of handlers that answer by these policies. An error means out of memory.
    fn copy(&self, alloc: Global) -> Result<HandlerList<ByPolicy>, AllocError>
        ensures { IfOk result (λ l. l ≡ self.now) }
    {
        let mut copies = Vec::with_capacity(alloc, self.len())?;
        for installed in &self.installed {
            copies.push(installed.by_policy())?;
        }
        Ok(HandlerList { installed: copies })
    }

    /// Tests whether all debuggers are live. It looks once at the debugger of handlers that follow each other.
    fn all_live(&self, tables: &Tables) -> bool
        ensures { result ≡ list_all (λ i. is_live_at i.debugger tables.now.rows) self.now }
    {
        let mut seen = None;
        for installed in &self.installed {
            if seen != Some(installed.debugger) {
                if !is_live(tables, installed.debugger) {
                    return false;
                }
                seen = Some(installed.debugger);
            }
        }
        true
    }

    /// Drops the handlers of processes that have ended.
    fn drop_ended(&mut self, tables: &Tables)
        ensures { self.new ≡ filter (λ i. is_live_at i.debugger tables.now.rows) self.old }
    {
        if !self.all_live(tables) {
            self.installed
                .retain(|installed| is_live(tables, installed.debugger));
        }
    }
}

/// Returns whether a live process has the number.
#[tactic(auto, using(crate::proofs::SoundAfterCall::live_found, crate::proofs::SoundAfterCall::live_none))]
pub fn is_live(tables: &Tables, pid: Pid) -> bool
    ensures { result ≡ is_live_at pid tables.now.rows }
{
    match tables.process(pid) {
        Some(p) => p.is_live(),
        None => false,
    }
}

/// The installed handlers of all users' debuggers: a list of each user, or none before the first handler.
#[derive(Drop)]
pub struct HandlerTable<F: Decider + Send + Drop> {
    users: Vec<HandlerList<F>>,
}

impl<F: Decider + Send + Drop> Model for HandlerTable<F> {
    ghost use Rattle.std.specs.Prelude.{◌≡◌, List, length};
    ghost use Rattle.requests.specs.Machine.{Installed, lists_of};

    ghost Value = { List (List Installed) };

    ghost view = { λ t. lists_of t.users.items };

    ghost invariant = { λ t. length (lists_of t.users.items) ≡ 64 };
}

/// Returns a list without handlers for each user. An error means out of memory.
fn empty_lists<F: Decider + Send + Drop>(alloc: Global) -> Result<Vec<HandlerList<F>>, AllocError>
    ensures { IfOk result (λ lists. lists.items ≡ map (λ u. []) users) }
{
    let mut lists = Vec::with_capacity(alloc, 64)?;
    for _ in 0u32..64 {
        lists.push(HandlerList::new(alloc))?;
    }
    Ok(lists)
}

impl<F: Decider + Send + Drop> HandlerTable<F> {
    /// Creates a table without handlers, which takes no memory.
    pub fn new(alloc: Global) -> HandlerTable<F>
        ensures { result ≡ map (λ u. []) users }
    {
        HandlerTable {
            users: Vec::new(alloc),
        }
    }

    /// Returns a table of handlers that answer by these policies. An error means out of memory.
    pub fn copy(&self, alloc: Global) -> Result<HandlerTable<ByPolicy>, AllocError>
        ensures { IfOk result (λ t. t ≡ self.now) }
    {
        let mut lists = Vec::with_capacity(alloc, self.users.len())?;
        for list in &self.users {
            lists.push(list.copy(alloc)?)?;
        }
        Ok(HandlerTable { users: lists })
    }

    /// Returns how many handlers the user's debuggers have installed.
    #[tactic(auto, using(crate::proofs::InstalledLists::listed))]
    pub fn count(&self, user: Uid) -> usize
        ensures { result ≡ length (get_or self.now (slot user) []) }
    {
        match self.users.get(user.slot()) {
            Some(list) => list.len(),
            None => 0,
        }
    }

    /// Returns the debugger and the policy of the user's handler at this index.
    #[tactic(auto, using(crate::proofs::InstalledLists::listed))]
    pub fn at(&self, user: Uid, index: usize) -> Option<(Pid, Policy)>
        ensures { result ≡ option_map (λ i. (i.debugger, i.policy)) (slice_get (get_or self.now (slot user) []) index) }
    {
        self.users.get(user.slot())?.at(index)
    }

    /// Adds a handler of a debugger of the user. An error means out of memory, and changes nothing.
    #[tactic(auto, using(crate::proofs::InstalledLists::listed, crate::proofs::InstalledLists::there))]
    pub fn install(
        &mut self,
        alloc: Global,
        user: Uid,
        debugger: Pid,
        handler: Handler<F>,
    ) -> Result<(), AllocError>
        ensures done { OnOk result (self.new ≡ set self.old (slot user) (get_or self.old (slot user) [] ++ (record { debugger = debugger; policy = handler } ∷ []))) }
        ensures refused { OnErr result (self.new ≡ self.old) }
    {
        if self.users.is_empty() {
            self.users = empty_lists(alloc)?;
        }
        self.users[user.slot()].push(debugger, handler)
    }

    /// Returns what the handlers of the user's debugger decide about a stop.
    #[tactic(auto, using(crate::proofs::InstalledLists::listed))]
    pub fn decided(&self, user: Uid, debugger: Pid, view: &StopView) -> Decided
        requires { length (get_or self.now (slot user) []) ≤ 64 }
        ensures { result ≡ decided (policies_in debugger (get_or self.now (slot user) [])) 0 view.now }
    {
        match self.users.get(user.slot()) {
            Some(list) => list.decided(debugger, view),
            None => Decided {
                index: None,
                decision: Decision::Decline,
            },
        }
    }

    /// Drops the handlers of the user's processes that have ended.
    #[tactic(auto, using(crate::proofs::InstalledLists::listed, crate::proofs::InstalledLists::none_dropped, crate::proofs::InstalledLists::put))]
    pub fn drop_ended(&mut self, user: Uid, tables: &Tables)
        ensures { self.new ≡ set self.old (slot user) (filter (λ i. is_live_at i.debugger tables.now.rows) (get_or self.old (slot user) [])) }
    {
        let Some(list) = self.users.get_mut(user.slot()) else {
            return;
        };
        list.drop_ended(tables);
    }
}
