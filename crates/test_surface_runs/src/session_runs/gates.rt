//! Gates: one that does nothing, and one at which two scripts meet.

use pid_blocks::Uid;
use sessions::Gate;
use std::sync::atomic::{AtomicU64, Ordering};
use std::thread;
use test_kit::{TestError, expect};

#[derive(Drop)]
pub struct Open;

impl Gate for Open {
    fn before(&self, _user: Uid, _index: u32) {}

    fn after(&self, _user: Uid, _index: u32) {}
}

/// The number of times that each index, from 0 to 10, was counted.
#[derive(Drop)]
struct Counts {
    words: [AtomicU64; 11],
}

impl Counts {
    fn new() -> Counts {
        let words = [0; 11].map(|count: u64| AtomicU64::new(count));
        Counts { words }
    }

    fn get(&self, index: u32) -> Option<&AtomicU64> {
        self.words.as_slice().get(index as usize)
    }

    /// Returns whether index 0 was never counted, and each other one twice.
    fn are_two(&self) -> bool {
        for (index, count) in self.words.iter().enumerate() {
            if count.load(Ordering::SeqCst) != if index == 0 { 0 } else { 2 } {
                return false;
            }
        }
        true
    }
}

/// Two scripts of ten calls each. `before` returns once both have entered it with that index, or gives up after
/// 1,000,000,000 turns.
#[derive(Drop)]
pub struct Meet {
    entered: Counts,
    left: Counts,
    /// How many calls user 1001 and other users began.
    first: AtomicU64,
    others: AtomicU64,
    failed: AtomicU64,
}

impl Meet {
    pub fn new() -> Meet {
        Meet {
            entered: Counts::new(),
            left: Counts::new(),
            first: AtomicU64::new(0),
            others: AtomicU64::new(0),
            failed: AtomicU64::new(0),
        }
    }

    /// Checks that both scripts met at each of their ten calls, and how many calls each user began.
    pub fn check(&self, first: u64, others: u64) -> Result<(), TestError> {
        let met = self.failed.load(Ordering::SeqCst) == 0;
        expect(met, "two scripts don't meet")?;
        let twice = self.entered.are_two() && self.left.are_two();
        expect(twice, "a gate isn't called once before and after each call")?;
        let (own, other) = (
            self.first.load(Ordering::SeqCst),
            self.others.load(Ordering::SeqCst),
        );
        let is_all = own == first && other == others;
        expect(is_all, "a user has more or fewer calls")
    }
}

impl Gate for Meet {
    fn before(&self, user: Uid, index: u32) {
        let own = if user.get() == 1001 {
            &self.first
        } else {
            &self.others
        };
        own.fetch_add(1, Ordering::SeqCst);
        let Some(count) = self.entered.get(index) else {
            self.failed.store(1, Ordering::SeqCst);
            return;
        };
        count.fetch_add(1, Ordering::SeqCst);
        for _ in 0..1000000000u64 {
            if count.load(Ordering::SeqCst) >= 2 {
                return;
            }
            thread::yield_now();
        }
        self.failed.store(1, Ordering::SeqCst);
    }

    fn after(&self, _user: Uid, index: u32) {
        match self.left.get(index) {
            Some(count) => {
                count.fetch_add(1, Ordering::SeqCst);
            }
            None => self.failed.store(1, Ordering::SeqCst),
        }
    }
}
