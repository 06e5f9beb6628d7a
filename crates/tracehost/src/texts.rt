//! Texts that are read by their names.
ghost use Rattle.std.specs.Prelude.{◌≡◌, ℕ, List, Option, None, IfSome, IfOk};
ghost use Rattle.scenario_text.specs.Scenarios.{StandsFor, Tells};

use crate::expecting::bytes_of;
use crate::scenario_in;
use scenario_runs::{Fault, Scenario};
use std::io;
use std::rt::Files;

/// Texts that are read by their names: scenarios, expected lines, and lists of both.
pub(crate) trait Texts {
    /// The text with a name, if contracts know it.
    ghost text: { Self → List ℕ → Option (List ℕ) };

    /// Reads a scenario.
    fn scenario(&self, name: &str) -> Result<Scenario, Fault>
        ensures { IfSome (text self.now name.now) (λ input. Tells result (StandsFor input)) };

    /// Reads bytes.
    fn bytes(&self, name: &str) -> io::Result<Vec<u8>>
        ensures { IfSome (text self.now name.now) (λ input. IfOk result (λ bytes. bytes.items ≡ input)) };
}

/// The texts of the system's files. Contracts know none of them.
#[derive(Clone, Copy, Drop)]
pub(crate) struct FileTexts<'a, R>(pub(crate) &'a R);

impl<R: Files + AllocGlobal> Texts for FileTexts<'_, R> {
    ghost text = { λ _ _. None };

    fn scenario(&self, name: &str) -> Result<Scenario, Fault> {
        scenario_in(self.0, name)
    }

    fn bytes(&self, name: &str) -> io::Result<Vec<u8>> {
        bytes_of(self.0, name)
    }
}
