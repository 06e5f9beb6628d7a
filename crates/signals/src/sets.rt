//! Sets of signals.

ghost use Rattle.std.specs.Prelude.{◌≡◌, ◌<◌, ◌^◌, ◌==◌};
ghost use Rattle.std.specs.Int.RustNames.{bit_or};
ghost use Rattle.signals.specs.Sets.{bit, has, with, without, lowest};
ghost use Rattle.signals.specs.Table.{stop_set, unblockable_set, discard_set, maskable, opposed};

use crate::{SigSet, Signal};

impl SigSet {
    /// Returns the empty set.
    pub fn empty() -> SigSet
        ensures { result ≡ 0 }
    {
        SigSet { bits: 0 }
    }

    /// Returns the set with only this signal.
    pub fn of(signal: Signal) -> SigSet
        ensures { result ≡ bit signal }
    {
        SigSet {
            bits: 1 << (signal.number() - 1),
        }
    }

    /// Returns the signals that stop a process by default.
    pub fn stops() -> SigSet
        ensures { result ≡ stop_set }
    {
        SigSet::of(Signal { number: 17 })
            .with(Signal { number: 18 })
            .with(Signal { number: 21 })
            .with(Signal { number: 22 })
    }

    /// Returns the signals that are discarded by default.
    pub fn discarded() -> SigSet
        ensures { result ≡ discard_set }
    {
        SigSet::of(Signal { number: 16 })
            .with(Signal { number: 19 })
            .with(Signal { number: 20 })
            .with(Signal { number: 23 })
            .with(Signal { number: 28 })
            .with(Signal { number: 29 })
    }

    /// Returns SIGKILL and SIGSTOP, which can't be blocked, ignored or caught.
    pub fn unblockable() -> SigSet
        ensures { result ≡ unblockable_set }
    {
        SigSet::of(Signal::KILL).with(Signal::STOP)
    }

    /// Returns the pending signals that the posting of this signal removes. SIGCONT removes the signals that
    /// stop a process, and each of these removes SIGCONT.
    pub fn opposed(signal: Signal) -> SigSet
        ensures { result ≡ opposed signal }
    {
        if signal.stops() {
            SigSet::of(Signal::CONT)
        } else if signal == Signal::CONT {
            SigSet::stops()
        } else {
            SigSet::empty()
        }
    }

    /// Tests whether the set contains the signal.
    pub fn contains(&self, signal: Signal) -> bool
        ensures { result ≡ has self.now signal }
    {
        self.bits & SigSet::of(signal).bits != 0
    }

    /// Tests whether the set is empty.
    pub fn is_empty(&self) -> bool
        ensures { result ≡ (self.now == 0) }
    {
        self.bits == 0
    }

    /// Returns the set with the signal added.
    pub fn with(&self, signal: Signal) -> SigSet
        ensures { result ≡ with self.now signal }
    {
        self.union(SigSet::of(signal))
    }

    /// Returns the set with the signal removed.
    pub fn without(&self, signal: Signal) -> SigSet
        ensures { result ≡ without self.now (bit signal) }
    {
        self.difference(SigSet::of(signal))
    }

    /// Returns the signals of either set.
    pub fn union(&self, other: SigSet) -> SigSet
        ensures { result ≡ bit_or self.now other }
    {
        SigSet {
            bits: self.bits | other.bits,
        }
    }

    /// Returns the signals of this set that are not in the other.
    pub fn difference(&self, other: SigSet) -> SigSet
        ensures { result ≡ without self.now other }
    {
        SigSet {
            bits: self.bits & !other.bits,
        }
    }

    /// Returns the signals of the set that can be blocked.
    pub fn maskable(&self) -> SigSet
        ensures { result ≡ maskable self.now }
    {
        self.difference(SigSet::unblockable())
    }

    /// Returns the signal with the least number in the set, or `None` if the set is empty.
    pub fn lowest(&self) -> Option<Signal>
        ensures { result ≡ lowest self.now }
    {
        Signal::new(self.bits.trailing_zeros() + 1).ok()
    }

    /// Returns the set as a number: bit n - 1 is signal n.
    pub fn bits(&self) -> u32
        ensures bits { result ≡ self.now }
        ensures below { result < 2 ^ 31 }
    {
        let SigSet { bits } = *self;
        bits
    }
}
