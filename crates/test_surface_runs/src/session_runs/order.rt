//! A gate is called before and after each call of the host. The steps install a handler for an unused process number.
//! The host refuses the call and drops the handler, and the test counts the drops.

ghost use Rattle.std.specs.Prelude.{⊤, ◌≡◌, IfSome, All};
ghost use Rattle.stop_handlers.specs.Decide.{decide};
ghost use Rattle.sessions.specs.Runs.{IsShort};

use host_lock::{Journal, MAX_CALLS};
use pid_blocks::Uid;
use requests::{Host, Step};
use sessions::{Gate, RunRefusal, Script, Transcript, run_sessions};
use std::alloc::Global;
use std::sync::Wait;
use std::sync::atomic::{AtomicU64, Ordering};
use std::thread::Threads;
use stop_handlers::{Decider, Decision, Handler, Policy, StopView};
use test_kit::{TestError, expect};
use trace_stop::Settings;

/// A decider that answers by a policy, and counts its drop.
struct Counted<'a> {
    policy: Policy,
    gone: &'a AtomicU64,
}

impl Drop for Counted<'_> {
    fn drop(self) {
        let Counted { policy: _, gone } = self;
        gone.fetch_add(1, Ordering::SeqCst);
    }
}

impl Decider for Counted<'_> {
    ghost can_ask = { λ _. ⊤ };

    ghost gives = { λ c view decision. decision ≡ decide c.policy view };

    fn answer(&self, view: &StopView) -> Decision {
        self.policy.decide(view)
    }
}

/// Counts for the calls of a script.
#[derive(Drop)]
struct Calls {
    /// How many calls were made.
    made: AtomicU64,
    /// How often the gate was called.
    told: AtomicU64,
    /// Whether the gate was called out of order.
    failed: AtomicU64,
}

impl Calls {
    fn new() -> Calls {
        Calls {
            made: AtomicU64::new(0),
            told: AtomicU64::new(0),
            failed: AtomicU64::new(0),
        }
    }

    /// Records a call of the gate. It must be number `telling`, from 0, when `made` calls were made.
    fn tell(&self, telling: u64, made: u64) {
        let told = self.told.fetch_add(1, Ordering::SeqCst);
        if told != telling || self.made.load(Ordering::SeqCst) != made {
            self.failed.store(1, Ordering::SeqCst);
        }
    }

    /// Returns whether the gate was called before and after each of ten calls.
    fn are_in_order(&self) -> bool {
        self.failed.load(Ordering::SeqCst) == 0
            && self.made.load(Ordering::SeqCst) == 10
            && self.told.load(Ordering::SeqCst) == 20
    }
}

/// The calls of user 1001, and those of another.
#[derive(Drop)]
struct Order {
    first: Calls,
    other: Calls,
}

impl Order {
    fn of(&self, user: Uid) -> &Calls {
        if user.get() == 1001 {
            &self.first
        } else {
            &self.other
        }
    }
}

impl Gate for Order {
    fn before(&self, user: Uid, index: u32) {
        let made = u64::from(index).saturating_sub(1);
        self.of(user).tell(2 * made, made);
    }

    fn after(&self, user: Uid, index: u32) {
        let made = u64::from(index);
        self.of(user).tell((2 * made).saturating_sub(1), made);
    }
}

/// Returns a script of steps of the user. Each installs a handler for an unused process number.
fn install_often<'a>(
    alloc: Global,
    uid: Uid,
    count: u32,
    gone: &'a AtomicU64,
) -> Option<Script<Counted<'a>>>
    ensures { IfSome result (λ s. IsShort s) }
{
    let policy = Policy::new(&[]).ok()?;
    let mut steps = Vec::new(alloc);
    for _ in 0..count {
        let handler = Handler::new(policy, Counted { policy, gone });
        let caller = 1000;
        steps.push(Step::Install { caller, handler }).ok()?;
    }
    if steps.len() > MAX_CALLS as usize {
        return None;
    }
    Some(Script { uid, steps })
}

/// Returns such a script for each of the two users.
fn install_each<'a>(
    alloc: Global,
    users: [Uid; 2],
    order: &'a Order,
) -> Option<Vec<Script<Counted<'a>>>>
    ensures { IfSome result (λ v. All IsShort v.items) }
{
    let mut scripts = Vec::new(alloc);
    for uid in users {
        let script = install_often(alloc, uid, 10, &order.of(uid).made)?;
        scripts.push(script).ok()?;
    }
    Some(scripts)
}

/// Returns whether the scripts run to their end on an unused host.
fn is_run<'a, R: Threads + Wait + Sync>(
    rt: &R,
    alloc: Global,
    order: &'a Order,
    scripts: Vec<Script<Counted<'a>>>,
) -> bool
    requires { All IsShort scripts.items }
{
    let Ok(host) = Host::new(alloc, Settings::standard()) else {
        return false;
    };
    let ran: Result<(Host<Counted<'a>>, Journal, Vec<Transcript>), RunRefusal> = run_sessions(
        rt, alloc, host, scripts, order,
    );
    ran.is_ok()
}

pub fn a_gate_is_told_before_and_after_each_call<R: Threads + Wait + Sync>(
    rt: &R,
    alloc: Global,
) -> Result<(), TestError> {
    let users = [Uid::new(1001)?, Uid::new(1002)?];
    let order = Order {
        first: Calls::new(),
        other: Calls::new(),
    };
    let scripts = install_each(alloc, users, &order).ok_or(TestError::Memory)?;
    expect(is_run(rt, alloc, &order, scripts), "a run is refused")?;
    let is_told = order.first.are_in_order() && order.other.are_in_order();
    expect(is_told, "a gate is called out of order")
}
