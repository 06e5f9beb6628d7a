//! A list of scenarios, each compared with its expected lines.
ghost use Rattle.std.specs.Prelude.{◌≡◌, ◌≢◌, ◌∷◌, ◌++◌, ◌≤◌, ◌-◌, ◌↔◌, [], length, IfOk, IfSome, None, OnOk};
ghost use Rattle.byte_lines.specs.Lines.{lines_in};
ghost use Rattle.tracehost.specs.Lists.{IsClean, Lacks, ListPasses, RowPasses, RunsAs};
ghost use Rattle.tracehost.specs.declared.listing.Said.TheVariants.{Nothing};

use crate::asking::Selection;
use crate::expecting::first_line;
use crate::explaining::{FileName, unread};
use crate::texts::Texts;
use crate::{CommandError, different_run};
use byte_lines::first_difference;
use memchr::memchr;
use scenario_runs::{Fault, RunFault, policy_handlers};
use std::str;
use std::sync::Wait;
use std::thread::Threads;

/// How the scenarios of a list went.
#[derive(Clone, Copy, Drop)]
struct Tally {
    compared: usize,
    different: usize,
    /// Scenarios that are refused, and lines of the list without a tab.
    refused: usize,
    /// Scenarios and lines that can't be read.
    unread: usize,
}

/// What is said of a line of the list.
#[derive(Drop)]
enum Said {
    /// The lines are as expected.
    Nothing,
    Different(String),
    Refused(String),
    Unread(String),
}

/// Returns the bytes before the first such byte, and those after it; `None` if there is no such byte.
fn split_at_byte(text: &[u8], byte: u8) -> Option<(&[u8], &[u8])>
    ensures parts { IfSome result (λ parts. text.now ≡ parts.0.now ++ (byte ∷ parts.1.now)) }
    ensures first { IfSome result (λ parts. Lacks parts.0.now byte) }
    ensures none { result ≡ None → Lacks text.now byte }
{
    let at = memchr(byte, text)?;
    Some((&text[..at], &text[at + 1..]))
}

/// Returns the first line, without its line feed, and what follows it.
#[tactic(auto, using(crate::proofs::RowLemmas::first_row))]
fn split_line(text: &[u8]) -> (&[u8], &[u8])
    ensures lines { text.now ≢ [] → lines_in text.now ≡ result.0.now ∷ lines_in result.1.now }
    ensures shorter { length result.1.now ≤ length text.now - 1 }
{
    match split_at_byte(text, b'\n') {
        Some(parts) => parts,
        None => (text, &[]),
    }
}

/// Returns the two names in a row, with a tab between them.
fn names_in(row: &[u8]) -> Option<(&str, &str)>
    ensures parts { IfSome result (λ names. row.now ≡ names.0.now ++ (9 ∷ names.1.now)) }
    ensures first { IfSome result (λ names. Lacks names.0.now 9) }
{
    let (scenario, expected) = split_at_byte(row, b'\t')?;
    Some((
        str::from_utf8(scenario).ok()?,
        str::from_utf8(expected).ok()?,
    ))
}

/// What is said of a file that has a fault.
fn said_of_fault<R: AllocGlobal>(rt: &R, name: &str, fault: Fault) -> Result<Said, CommandError>
    ensures { IfOk result (λ said. said ≢ Nothing) }
{
    let alloc = rt.alloc();
    let file = FileName { name };
    match fault {
        Fault::Memory => Err(CommandError::Fault(Fault::Memory)),
        Fault::Read => Ok(Said::Unread(format!(in alloc; "{file}: cannot read\n")?)),
        _ => Ok(Said::Refused(format!(in alloc; "{file}: {fault}\n")?)),
    }
}

/// Runs a scenario, and compares its lines with the expected ones.
fn compare_texts<R: AllocGlobal + Threads + Wait + Sync, T: Texts>(
    rt: &R,
    texts: &T,
    scenario: &str,
    expected: &str,
    shown: &Selection,
) -> Result<Said, CommandError>
    ensures { IfOk result (λ said. said ≡ Nothing → RunsAs (T.text texts.now) shown.now scenario.now expected.now) }
{
    let scenario = match texts.scenario(scenario) {
        Ok(read) => read,
        Err(fault) => return said_of_fault(rt, scenario, fault),
    };
    let Ok(wanted) = texts.bytes(expected) else {
        return said_of_fault(rt, expected, Fault::Read);
    };
    let handlers = policy_handlers(rt.alloc(), scenario.policies())?;
    let wanted = wanted.as_slice();
    let Some(text) = different_run(rt, &scenario, handlers, shown, Some(wanted))? else {
        return Ok(Said::Nothing);
    };
    match first_difference(wanted, text.as_slice()) {
        None => Ok(Said::Nothing),
        Some(difference) => {
            let mut line = first_line(rt.alloc(), expected, &difference)?;
            line.push('\n')?;
            Ok(Said::Different(line))
        }
    }
}

/// What is said of a row, if it isn't empty.
fn said_of_row<R: AllocGlobal + Threads + Wait + Sync, T: Texts>(
    rt: &R,
    texts: &T,
    list: &str,
    row: &[u8],
    shown: &Selection,
) -> Result<Said, CommandError>
    ensures { IfOk result (λ said. said ≡ Nothing → RowPasses (T.text texts.now) shown.now row.now) }
{
    match names_in(row) {
        Some((scenario, expected)) => compare_texts(rt, texts, scenario, expected, shown),
        None => no_tab(rt, list, row),
    }
}

impl Tally {
    /// Counts what is said, and returns it.
    fn count(&mut self, said: Said) -> Option<String>
        ensures clean { IsClean self.new → IsClean self.old × (said ≡ Nothing) }
        ensures compared { 1 ≤ self.new.compared }
    {
        self.compared = self.compared.saturating_add(1);
        match said {
            Said::Nothing => None,
            Said::Different(line) => {
                self.different = self.different.saturating_add(1);
                Some(line)
            }
            Said::Refused(line) => {
                self.refused = self.refused.saturating_add(1);
                Some(line)
            }
            Said::Unread(line) => {
                self.unread = self.unread.saturating_add(1);
                Some(line)
            }
        }
    }

    /// The status of the run: that of its worst line.
    fn status(&self) -> u8
        ensures { (result ≡ 0) ↔ (IsClean self.now × (1 ≤ self.now.compared)) }
    {
        if self.unread > 0 {
            3
        } else if self.refused > 0 || self.compared == 0 {
            1
        } else if self.different > 0 {
            4
        } else {
            0
        }
    }
}

/// Makes the runs of a list, and prints a line for each that isn't as expected. Each line of the list has the name of a
/// scenario, a tab, and the name of the file with its expected lines.
pub(crate) fn compare_list<R: Print + AllocGlobal + Threads + Wait + Sync, T: Texts>(
    rt: &R,
    texts: &T,
    path: &str,
    shown: &Selection,
    explains: bool,
) -> Result<(), CommandError>
    ensures { OnOk result (IfSome (T.text texts.now path.now) (ListPasses (T.text texts.now) shown.now)) }
{
    let list = match texts.bytes(path) {
        Ok(list) => list,
        Err(error) if explains => return Err(unread(rt.alloc(), path, &error)),
        Err(_) => return Err(CommandError::Fault(Fault::Read)),
    };
    let mut tally = Tally {
        compared: 0,
        different: 0,
        refused: 0,
        unread: 0,
    };
    let mut rest = list.as_slice();
    while !rest.is_empty() {
        let (row, behind) = split_line(rest);
        if !row.is_empty() {
            let said = said_of_row(rt, texts, path, row, shown)?;
            say(rt, tally.count(said))?;
        }
        rest = behind;
    }
    end_of(rt, &tally)
}

/// Prints what is said.
fn say<R: Print>(rt: &R, said: Option<String>) -> Result<(), CommandError> {
    let Some(said) = said else {
        return Ok(());
    };
    match print!(rt; "{said}") {
        Ok(()) => Ok(()),
        Err(_) => Err(CommandError::Run(RunFault::Write)),
    }
}

/// What is said of a line of the list that isn't two names.
fn no_tab<R: AllocGlobal>(rt: &R, path: &str, line: &[u8]) -> Result<Said, CommandError>
    ensures { IfOk result (λ said. said ≢ Nothing) }
{
    let alloc = rt.alloc();
    let name = FileName { name: path };
    let line = line.escape_ascii();
    Ok(Said::Refused(format!(in alloc;
        "{name}: \"{line}\" isn't two names with a tab between them\n"
    )?))
}

/// The end of a run: a trouble unless all was as expected.
fn end_of<R: AllocGlobal>(rt: &R, tally: &Tally) -> Result<(), CommandError>
    ensures { OnOk result (IsClean tally.now × (1 ≤ tally.now.compared)) }
{
    let alloc = rt.alloc();
    let status = tally.status();
    if status == 0 {
        return Ok(());
    }
    let Tally {
        compared,
        different,
        refused,
        unread,
    } = *tally;
    let line = format!(in alloc;
        "tracehost: {compared} compared: {different} differ, {refused} refused, {unread} not read"
    )?;
    Err(CommandError::List(line, status))
}
