//! A text that is written in parts.
ghost use Rattle.std.specs.Prelude.{ℕ, List, Option, Err, ◌≡◌, [], false, IfErr, IfOk, OnOk};
ghost use Rattle.scenario_runs.specs.Runs.{Writes};
ghost use Rattle.scenario_runs.specs.declared.running.RunFault.TheVariants.{Write as WriteFault};
ghost use Rattle.scenario_runs.specs.Parts.{Begins, Parted};

use scenario_runs::{RunFault, write_whole};
use std::alloc::{AllocError, Global};
use std::io::Write;

/// The bytes of lines that are written together, if no line is longer.
const PART: usize = 32768;

/// Lines that are written next.
#[derive(Drop)]
pub(crate) struct Part {
    pub(crate) text: Vec<u8>,
    /// A part before it was written.
    pub(crate) is_begun: bool,
}

impl Part {
    /// Creates the first part, with room for one more line: so no memory is taken once it is written. An error means out
    /// of memory.
    pub(crate) fn first(alloc: Global) -> Result<Part, AllocError>
        ensures { IfOk result (λ p. (p.text.items ≡ []) × (p.is_begun ≡ false)) }
    {
        Ok(Part {
            text: Vec::with_capacity(alloc, 2 * PART)?,
            is_begun: false,
        })
    }

    /// Writes the part if it is full.
    pub(crate) fn write_full<W: Write>(&mut self, writer: &mut W) -> Result<(), RunFault>
        ensures ok { OnOk result ((before : Option (List ℕ)) (rest all : List ℕ)
            → Parted before (W.contents writer.old) self.old.text.items rest all self.old.is_begun
            → Parted before (W.contents writer.new) self.new.text.items rest all self.new.is_begun) }
        ensures err { IfErr result (λ e. (before : Option (List ℕ)) (rest all : List ℕ)
            → Parted before (W.contents writer.old) self.old.text.items rest all self.old.is_begun
            → Writes (Err e) before (W.contents writer.new) all) }
        ensures kind { IfErr result (λ e. e ≡ WriteFault) }
    {
        if self.text.len() >= PART {
            write_whole(writer, self.text.as_slice())?;
            self.text.clear();
            self.is_begun = true;
        }
        Ok(())
    }

    /// Writes the last part.
    pub(crate) fn end<W: Write>(&self, writer: &mut W) -> Result<(), RunFault>
        ensures writes { (before : Option (List ℕ)) (all : List ℕ) → Parted before (W.contents writer.old) self.now.text.items [] all self.now.is_begun → Writes result before (W.contents writer.new) all }
        ensures front { (before : Option (List ℕ)) (rest all : List ℕ) → Parted before (W.contents writer.old) self.now.text.items rest all self.now.is_begun → Begins before (W.contents writer.new) all }
        ensures kind { IfErr result (λ e. e ≡ WriteFault) }
    {
        write_whole(writer, self.text.as_slice())
    }
}
