//! The door of a shared host: it admits one caller at a time.

use crossbeam_utils::CachePadded;
use crossbeam_utils::sync::EventCount;
use std::hint::spin_loop;
use std::sync::Wait;
use std::sync::atomic::Ordering::SeqCst;
use std::sync::atomic::{AtomicBool, AtomicU64};

/// The number of times that a caller tries the lock before it sleeps.
const TRIES: u32 = 5;

/// The number of spin hints after each try. All tries together take about as long as a sleep and a wake.
const HINTS: u32 = 1024;

/// How many announced calls a session makes in a row while it holds the door: some milliseconds of them.
const TURN: u32 = 4096;

/// How many calls before the end of its turn a session wakes a sleeping caller, which takes some time to come.
const AHEAD: u32 = 128;

/// How many of the calls that a session has announced are still to come, and whether it holds the door between them.
#[derive(Drop)]
pub(crate) struct Announced {
    calls: u32,
    holds: bool,
}

impl Announced {
    /// Returns that no calls are announced.
    pub(crate) fn none() -> Announced {
        Announced {
            calls: 0,
            holds: false,
        }
    }

    /// Announces so many calls.
    pub(crate) fn announce(&mut self, calls: u32) {
        self.calls = calls;
    }

    /// Returns whether a call is to come.
    fn is_some(&self) -> bool {
        self.calls != 0
    }

    /// Counts a call, and returns how many the session still makes in its turn.
    fn left_in_turn(&mut self) -> u32 {
        self.calls = self.calls.saturating_sub(1);
        self.calls % TURN
    }
}

/// A lock that callers only try. A caller that fails for too long sleeps until it is called. A leaving caller calls one
/// sleeper, and only if no caller is awake and trying, so that most calls end without a wake. A session that has
/// announced its calls keeps the lock from call to call until the end of its turn.
///
/// No caller sleeps forever, if each session makes the calls that it has announced. A caller that is about to sleep
/// announces it (`prepare_wait`, `is_called`, `trying`) before it tries the lock a last time. A leaving caller opens the
/// lock first, and then looks for a caller that is trying. If there is one, it will try the lock again later. Otherwise
/// the leaving caller calls one sleeper, unless a called one is already on its way.
pub(crate) struct FairLock {
    is_locked: CachePadded<AtomicBool>,
    /// The number of callers that are awake and try the lock.
    trying: CachePadded<AtomicU64>,
    /// Whether a caller was called from its sleep and is not trying yet.
    is_called: CachePadded<AtomicBool>,
    sleepers: CachePadded<EventCount>,
}

impl Drop for FairLock {
    fn drop(self) {
        let FairLock {
            is_locked: _,
            trying: _,
            is_called: _,
            sleepers: _,
        } = self;
    }
}

impl FairLock {
    /// Creates a door with no caller inside.
    pub(crate) fn new() -> FairLock {
        FairLock {
            is_locked: CachePadded::new(AtomicBool::new(false)),
            trying: CachePadded::new(AtomicU64::new(0)),
            is_called: CachePadded::new(AtomicBool::new(false)),
            sleepers: CachePadded::new(EventCount::new()),
        }
    }

    /// Waits until no other caller is inside. Most calls end sooner than a sleeper wakes, so the caller first tries for
    /// a while, unless it comes for many calls: then it can sleep at once. A session that holds the door is inside.
    pub(crate) fn enter<R: Wait>(&self, rt: &R, announced: &Announced) {
        if !announced.holds && !self.try_lock() {
            self.wait(rt, announced.is_some());
        }
    }

    /// Takes the lock, if it is open.
    fn try_lock(&self) -> bool {
        !self.is_locked.load(SeqCst) && !self.is_locked.swap(true, SeqCst)
    }

    /// Tries for a while and then sleeps, until it gets in. It sleeps first if it comes for many calls.
    fn wait<R: Wait>(&self, rt: &R, for_many: bool) {
        let mut tries = if for_many { 0 } else { TRIES };
        self.trying.fetch_add(1, SeqCst);
        for _ in rt.forever() {
            if self.try_for_a_while(tries) {
                self.trying.fetch_sub(1, SeqCst);
                return;
            }
            tries = TRIES;
            let call = self.sleepers.prepare_wait();
            self.is_called.store(false, SeqCst);
            self.trying.fetch_sub(1, SeqCst);
            if self.try_lock() {
                return;
            }
            call.wait(rt);
            self.trying.fetch_add(1, SeqCst);
            self.is_called.store(false, SeqCst);
        }
        unreachable!()
    }

    /// Tries so many times. It tries seldom, so that the caller inside can make some calls in between.
    fn try_for_a_while(&self, tries: u32) -> bool {
        for _ in 0..tries {
            if self.try_lock() {
                return true;
            }
            for _ in 0..HINTS {
                spin_loop();
            }
        }
        false
    }

    /// Ends a call. Opens the door for the next caller, unless the session goes on with its turn.
    pub(crate) fn leave(&self, announced: &mut Announced) {
        let left = announced.left_in_turn();
        announced.holds = left != 0;
        if left == 0 {
            self.is_locked.store(false, SeqCst);
        }
        if left == 0 || left == AHEAD {
            self.call_sleeper();
        }
    }

    /// Calls one sleeper, if no caller tries the lock and none is on its way.
    fn call_sleeper(&self) {
        let nobody_tries = self.trying.load(SeqCst) == 0;
        if nobody_tries && !self.is_called.load(SeqCst) && !self.is_called.swap(true, SeqCst) {
            self.sleepers.notify_one();
        }
    }

    /// Opens the door if the session holds it. It makes none of the calls that it has announced.
    pub(crate) fn let_go(&self, announced: &mut Announced) {
        if announced.holds {
            announced.announce(0);
            self.leave(announced);
        }
    }
}
