//! What a process does with signals, as set by sigaction(2).

ghost use Rattle.std.specs.Prelude.{◌≡◌, ◌↔◌, IsOk, IsTrue, OnOk, OnErr};
ghost use Rattle.signals.specs.Table.{all_default, disposition_of, set_disposition, may_have, after_exec, nothing, ends};

use crate::{BadDisposition, Disposition, Dispositions, SigSet, Signal};

impl Dispositions {
    /// Returns the dispositions in which each signal has its default one.
    pub fn standard() -> Dispositions
        ensures { result ≡ all_default }
    {
        let none = SigSet::empty();
        Dispositions {
            ignored: none,
            caught: none,
        }
    }

    /// Returns the signals that the process ignores, and those that it catches.
    pub fn sets(&self) -> (SigSet, SigSet)
        ensures { result ≡ (self.now.ignored, self.now.caught) }
    {
        (self.ignored, self.caught)
    }

    /// Returns what the process does with the signal.
    pub fn get(&self, signal: Signal) -> Disposition
        ensures { result ≡ disposition_of self.now signal }
    {
        if self.ignored.contains(signal) {
            Disposition::Ignore
        } else if self.caught.contains(signal) {
            Disposition::Catch
        } else {
            Disposition::Default
        }
    }

    /// Sets what the process does with the signal. Fails if SIGKILL or SIGSTOP is to be ignored or caught,
    /// and then leaves the dispositions unchanged.
    pub fn set(&mut self, signal: Signal, disposition: Disposition) -> Result<(), BadDisposition>
        ensures allowed { IsOk result ↔ IsTrue (may_have signal disposition) }
        ensures set { OnOk result (self.new ≡ set_disposition self.old signal disposition) }
        ensures refused { OnErr result (self.new ≡ self.old) }
    {
        if SigSet::unblockable().contains(signal) && disposition != Disposition::Default {
            return Err(BadDisposition);
        }
        self.ignored = match disposition {
            Disposition::Ignore => self.ignored.with(signal),
            Disposition::Default | Disposition::Catch => self.ignored.without(signal),
        };
        self.caught = match disposition {
            Disposition::Catch => self.caught.with(signal),
            Disposition::Default | Disposition::Ignore => self.caught.without(signal),
        };
        Ok(())
    }

    /// Returns the dispositions after exec, which resets each caught signal to its default.
    pub fn after_exec(&self) -> Dispositions
        ensures { result ≡ after_exec self.now }
    {
        Dispositions {
            ignored: self.ignored,
            caught: SigSet::empty(),
        }
    }

    /// Returns the signals whose action is nothing: ignored signals, and those that are discarded by default
    /// and aren't caught.
    pub fn nothing(&self) -> SigSet
        ensures { result ≡ nothing self.now }
    {
        self.ignored
            .union(SigSet::discarded().difference(self.caught))
    }

    /// Tests whether the signal ends the process.
    pub fn ends(&self, signal: Signal) -> bool
        ensures { result ≡ ends self.now signal }
    {
        !(self.ignored.contains(signal)
            || self.caught.contains(signal)
            || signal.stops()
            || signal.is_discarded())
    }
}
