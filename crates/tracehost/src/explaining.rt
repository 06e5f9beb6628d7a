//! Explanations of refused input: where the first mistakes are, and what was likely meant.
ghost use Rattle.tracehost.specs.Statuses.{IsDifferent};

use crate::CommandError;
use crate::answered::count_of;
use crate::asking::{Mode, Selection};
use diagnostics::{Source, explain};
use scenario_runs::{Fault, MAX_STEP_BYTES, RunFault, Scenario, parse};
use std::alloc::{AllocError, Global};
use std::io::Read;
use std::rt::Files;
use std::{fmt, fs, io};

/// How many bytes of a scenario are read: one more than it may have.
const MAX_READ: u64 = 4194305;

const SCENARIO_PROMPT: &str =
    "tracehost: type a scenario as JSON, for example {\"steps\":[{\"user\":1001,\"op\":\"spawn\"}]}, and end it with Ctrl-D";

const LINES_PROMPT: &str =
    "tracehost: type one step a line as JSON, for example {\"user\":1001,\"op\":\"spawn\"}, and end with Ctrl-D";

/// The words of an error of the operating system, without its number.
fn words_of(alloc: Global, error: &io::Error) -> Result<String, AllocError> {
    let text = format!(in alloc; "{error}")?;
    match text.as_str().split_once(" (os error ") {
        Some((words, _)) => String::from_str(alloc, words),
        None => Ok(text),
    }
}

/// The trouble of an input that can't be read: only the fault if no memory is left for more.
pub(crate) fn unread(alloc: Global, name: &str, error: &io::Error) -> CommandError
    ensures { ¬ IsDifferent result }
{
    if error.kind() == io::ErrorKind::OutOfMemory {
        return CommandError::Fault(Fault::Memory);
    }
    match reason_of(alloc, name, error) {
        Ok(reason) => CommandError::Explained(Fault::Read, reason),
        Err(_) => CommandError::Fault(Fault::Read),
    }
}

/// The trouble of a file that can't be written: only the fault if no memory is left for more.
pub(crate) fn unwritten(alloc: Global, name: &str, error: &io::Error) -> CommandError
    ensures { ¬ IsDifferent result }
{
    match reason_of(alloc, name, error) {
        Ok(reason) => CommandError::Unwritten(reason),
        Err(_) => CommandError::Run(RunFault::Write),
    }
}

/// The name of a file that can't be read or written, and the system's reason.
fn reason_of(alloc: Global, name: &str, error: &io::Error) -> Result<String, AllocError> {
    let words = words_of(alloc, error)?;
    let name = FileName { name };
    format!(in alloc; "  {name}: {words}\n")
}

/// A file's name with its control characters escaped, so that it can't write to a terminal's title or cursor.
#[derive(Clone, Copy, Drop)]
pub(crate) struct FileName<'a> {
    pub(crate) name: &'a str,
}

impl fmt::Display for FileName<'_> {
    fn fmt<W: fmt::Write>(&self, f: &mut fmt::Formatter<W>) -> fmt::Result {
        for character in self.name.chars() {
            if character.is_control() {
                let escaped = character.escape_default();
                write!(f, "{escaped}")?;
            } else {
                write!(f, "{character}")?;
            }
        }
        Ok(())
    }
}

/// The bytes of a reader to their end, or to the first that is too many.
fn front_of<I: Read + Drop>(alloc: Global, input: I) -> io::Result<Vec<u8>> {
    let mut bytes = Vec::new(alloc);
    input.take(MAX_READ).read_to_end(&mut bytes)?;
    Ok(bytes)
}

/// The bytes of the file, or of standard input.
fn bytes_of<R: Files + Input + AllocGlobal>(rt: &R, file: Option<&str>) -> io::Result<Vec<u8>> {
    match file {
        Some(path) => front_of(rt.alloc(), fs::open(rt, path)?),
        None => front_of(rt.alloc(), rt.reader()),
    }
}

/// The scenario of the bytes. Its explanation is printed if it is one, and else goes with the fault.
fn parse_explained<R: Eprint + AllocGlobal>(
    rt: &R,
    bytes: &[u8],
) -> Result<Scenario, CommandError> {
    let explanation = match explain(rt.alloc(), Source::Scenario, bytes) {
        Ok(explanation) => explanation,
        // no memory is left for more than the fault
        Err(_) => String::new(rt.alloc()),
    };
    match parse(rt.alloc(), bytes) {
        Ok(scenario) => {
            let _ = eprint!(rt; "{explanation}");
            Ok(scenario)
        }
        Err(Fault::Memory) => Err(CommandError::Fault(Fault::Memory)),
        Err(fault) => Err(CommandError::Explained(fault, explanation)),
    }
}

/// The scenario of the file, or of standard input, with its explanation.
pub(crate) fn explained_scenario<R: Files + Input + Eprint + AllocGlobal>(
    rt: &R,
    file: Option<&str>,
) -> Result<Scenario, CommandError> {
    match bytes_of(rt, file) {
        Ok(bytes) => parse_explained(rt, bytes.as_slice()),
        Err(error) => Err(unread(rt.alloc(), file.unwrap_or("standard input"), &error)),
    }
}

/// Says on the terminal what is read from it.
pub(crate) fn prompt<R: Eprint>(rt: &R, mode: &Mode<'_>) {
    let expected = match mode {
        Mode::Scenario { .. } | Mode::List { .. } => SCENARIO_PROMPT,
        Mode::Lines { .. } => LINES_PROMPT,
    };
    let _ = eprintln!(rt; "{expected}");
}

/// Says that the run prints nothing, if the scenario has no step of the user whose lines are asked for.
pub(crate) fn explain_empty_run<R: Eprint>(rt: &R, scenario: &Scenario, shown: &Selection) {
    let Some(user) = shown.user else {
        return;
    };
    if count_of(scenario.bare_steps(), user) == 0 {
        let user = user.get();
        let _ = eprintln!(rt; "  --user {user}: the scenario has no step of this user");
    }
}

/// A reader that explains each line that isn't a step, before its answer is written.
#[derive(Drop)]
pub(crate) struct Explained<'a, R, I> {
    rt: &'a R,
    input: I,
    /// The bytes of the line so far, at most one more than a step may have.
    line: Vec<u8>,
    /// Whether memory ran out for a byte of the line.
    is_cut: bool,
    /// How many lines have ended.
    ended: usize,
}

impl<'a, R: Eprint + AllocGlobal, I: Read> Explained<'a, R, I> {
    pub(crate) fn new(rt: &'a R, input: I) -> Explained<'a, R, I> {
        Explained {
            rt,
            input,
            line: Vec::new(rt.alloc()),
            is_cut: false,
            ended: 0,
        }
    }

    /// The explanation of the line, if all of it is there.
    fn explanation(&self) -> Result<String, AllocError> {
        if self.is_cut {
            return Err(AllocError);
        }
        let source = Source::Line(self.ended);
        explain(self.rt.alloc(), source, self.line.as_slice())
    }

    /// Prints the explanation of the line, and begins the next one.
    fn end_line(&mut self) {
        self.ended = self.ended.saturating_add(1);
        let _ = match self.explanation() {
            Ok(explanation) => eprint!(self.rt; "{explanation}"),
            Err(_) => {
                let number = self.ended;
                eprintln!(self.rt; "  line {number}: no memory to explain it")
            }
        };
        self.line.clear();
        self.is_cut = false;
    }

    fn take(&mut self, byte: u8) {
        if byte == b'\n' {
            self.end_line();
        } else if self.line.len() <= MAX_STEP_BYTES {
            self.is_cut |= self.line.push(byte).is_err();
        }
    }
}

impl<R: Eprint + AllocGlobal, I: Read> Read for Explained<'_, R, I> {
    fn read(&mut self, buf: &mut [u8]) -> io::Result<usize> {
        let count = self.input.read(buf)?;
        for byte in &buf[..count] {
            self.take(*byte);
        }
        if count == 0 && !self.line.is_empty() {
            self.end_line();
        }
        Ok(count)
    }
}
