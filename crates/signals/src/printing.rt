//! The signals of a set in order, and how signals and sets are printed.

ghost use Rattle.std.specs.Prelude.{◌≡◌, ◌++◌, Some, codes};
ghost use Rattle.std.specs.Iterator.{YieldsFirst, item_count};
ghost use Rattle.signals.specs.Names.{signal_name, pass_name, named};
ghost use Rattle.signals.specs.Sets.{members, set_text};

use crate::{Pass, SigSet, Signal, Signals};
use std::fmt;

impl SigSet {
    /// Returns the signals of the set, by rising number.
    pub fn signals(&self) -> Signals
        ensures { result ≡ members self.now }
    {
        Signals { rest: *self }
    }
}

impl Iterator for Signals {
    type Item = Signal;

    ghost next_gives = { YieldsFirst (λ signals. signals) };

    ghost remaining = { item_count (λ signals. signals) };

    #[tactic(auto, using(crate::proofs::Rest::members_laws))]
    fn next(&mut self) -> Option<Signal> {
        let signal = self.rest.lowest()?;
        self.rest = self.rest.without(signal);
        Some(signal)
    }
}

/// Prints the signals' numbers in rising order, separated by `,`, or `none`.
impl fmt::Display for SigSet {
    ghost output = { λ set. Some (set_text set) };

    fn fmt<W: fmt::Write>(&self, f: &mut fmt::Formatter<W>) -> fmt::Result {
        let Some(first) = self.lowest() else {
            return f.write_str("none");
        };
        write!(f, "{}", first.number())?;
        for signal in self.without(first).signals() {
            write!(f, ",{}", signal.number())?;
        }
        Ok(())
    }
}

/// Prints the type and the signal's name: `Signal(SIGTRAP)`.
impl fmt::Debug for Signal {
    ghost debug_output = { λ signal. Some (codes "Signal(" ++ (signal_name signal ++ codes ")")) };

    fn fmt<W: fmt::Write>(&self, f: &mut fmt::Formatter<W>) -> fmt::Result {
        let name = self.name();
        write!(f, "Signal({name})")
    }
}

/// Prints the type and the signal's name, or 0 for none: `Pass(SIGSEGV)`, `Pass(0)`.
impl fmt::Debug for Pass {
    ghost debug_output = { λ pass. Some (codes "Pass(" ++ (pass_name pass ++ codes ")")) };

    fn fmt<W: fmt::Write>(&self, f: &mut fmt::Formatter<W>) -> fmt::Result {
        match self.signal() {
            Some(signal) => {
                let name = signal.name();
                write!(f, "Pass({name})")
            }
            None => write!(f, "Pass(0)"),
        }
    }
}

/// Prints the type and the signals' names in rising order, separated by ` | `:
/// `SigSet(SIGHUP | SIGKILL)`, `SigSet(0x0)`.
impl fmt::Debug for SigSet {
    ghost debug_output = { λ set. Some (codes "SigSet(" ++ (named (members set) ++ codes ")")) };

    fn fmt<W: fmt::Write>(&self, f: &mut fmt::Formatter<W>) -> fmt::Result {
        let Some(first) = self.lowest() else {
            return write!(f, "SigSet(0x0)");
        };
        let name = first.name();
        write!(f, "SigSet({name}")?;
        for other in self.without(first).signals() {
            let name = other.name();
            write!(f, " | {name}")?;
        }
        write!(f, ")")
    }
}
