//! The comparison of a run's lines with those of a file, and a file that gets the run's lines.
ghost use Rattle.std.specs.Prelude.{◌≡◌, ◌≢◌, false, IfErr, IfOk, IfSome, IsSome, OnOk};
ghost use Rattle.tracehost.specs.Statuses.{IsDifferent};

use crate::CommandError;
use crate::answered::Answered;
use crate::asking::Selection;
use crate::differing::{Hunk, Row, head_of, hunks_of, rows_of};
use crate::explaining::{FileName, unread, unwritten};
use crate::texts::Texts;
use byte_lines::{Difference, first_difference};
use json_trace::{ScenarioSteps, write_fault};
use scenario_runs::{Fault, RunFault, Scenario};
use std::alloc::{AllocError, Global};
use std::fs::OpenFile;
use std::io::{BufWriter, Read, Write};
use std::rt::Files;
use std::{fmt, fs, io};

/// What a run's lines are compared with.
#[derive(Drop)]
pub(crate) struct Expected<'a> {
    pub(crate) path: &'a str,
    /// The bytes of the file; none if it is to be written, and there is no such file.
    pub(crate) bytes: Option<Vec<u8>>,
    /// The file gets the run's lines.
    pub(crate) blesses: bool,
}

/// A run, and its lines.
#[derive(Clone, Copy, Drop)]
pub(crate) struct RunLines<'a> {
    pub(crate) scenario: &'a Scenario,
    pub(crate) shown: &'a Selection,
    pub(crate) text: &'a [u8],
}

/// Tests whether the path names a device, a pipe or a folder: what has no end, or no lines.
fn is_no_file<R: Files>(rt: &R, path: &str) -> bool {
    match fs::metadata(rt, path) {
        Ok(found) => !found.is_file(),
        Err(_) => false,
    }
}

/// How many bytes a file to compare with may have.
const MAX_EXPECTED: usize = 1 << 30;

/// How many bytes a file has, as far as they may be read; 0 if that isn't known.
fn room_for<F: OpenFile>(file: &F) -> usize {
    match file.metadata() {
        Ok(found) => usize::try_from(found.len()).unwrap_or(0).min(MAX_EXPECTED),
        Err(_) => 0,
    }
}

/// Reads a file of lines, or of names. It may be a device without an end.
pub(crate) fn bytes_of<R: Files + AllocGlobal>(rt: &R, path: &str) -> io::Result<Vec<u8>> {
    let file = fs::open(rt, path)?;
    let mut bytes = Vec::with_capacity(rt.alloc(), room_for(&file))?;
    file.take(MAX_EXPECTED as u64 + 1).read_to_end(&mut bytes)?;
    if bytes.len() > MAX_EXPECTED {
        return Err(io::Error::from(io::ErrorKind::FileTooLarge));
    }
    Ok(bytes)
}

/// Reads the expected file.
pub(crate) fn read_expected<'a, R: Files + AllocGlobal, T: Texts>(
    rt: &R,
    texts: &T,
    path: &'a str,
    blesses: bool,
    explains: bool,
) -> Result<Expected<'a>, CommandError>
    ensures blesses { IfOk result (λ e. e.blesses ≡ blesses) }
    ensures failed { IfErr result (λ e. ¬ IsDifferent e) }
    ensures bytes { blesses ≡ false → IfOk result (λ e. IsSome e.bytes) }
    ensures text { IfSome (T.text texts.now path.now) (λ lines. IfOk result (λ e. IfSome e.bytes (λ bytes. bytes.items ≡ lines))) }
{
    if blesses && is_no_file(rt, path) {
        return Ok(Expected {
            path,
            bytes: None,
            blesses,
        });
    }
    let bytes = match texts.bytes(path) {
        Ok(bytes) => Some(bytes),
        Err(error) if blesses && error.kind() == io::ErrorKind::NotFound => None,
        Err(error) if explains || error.kind() == io::ErrorKind::OutOfMemory => {
            return Err(unread(rt.alloc(), path, &error));
        }
        Err(_) => return Err(CommandError::Fault(Fault::Read)),
    };
    Ok(Expected {
        path,
        bytes,
        blesses,
    })
}

/// Compares the run's lines with the expected ones. What is different is written as a unified diff. Then the file gets
/// the lines if it is to, and else the first difference is a trouble.
pub(crate) fn compare<R: Files + Print + AllocGlobal>(
    rt: &R,
    expected: &Expected<'_>,
    run: RunLines<'_>,
    explains: bool,
) -> Result<(), CommandError>
    ensures same { OnOk result (expected.now.blesses ≡ false → IfSome expected.now.bytes (λ wanted. wanted.items ≡ run.entry.text.now)) }
    ensures different { IfErr result (λ e. IsDifferent e → IfSome expected.now.bytes (λ wanted. wanted.items ≢ run.entry.text.now)) }
{
    let Some(wanted) = &expected.bytes else {
        return bless(rt, expected.path, run.text, explains);
    };
    let Some(difference) = first_difference(wanted.as_slice(), run.text) else {
        return Ok(());
    };
    let answered = Answered::new(rt.alloc(), run.scenario, run.shown)?;
    let rows = rows_of(rt.alloc(), wanted.as_slice(), run.text)?;
    let written = write_diff(
        rt.alloc(),
        &mut io::writer(rt),
        expected.path,
        run.scenario,
        &answered,
        rows.as_slice(),
    );
    if let Err(error) = written {
        return Err(CommandError::Run(write_fault(&error)));
    }
    if expected.blesses {
        return bless(rt, expected.path, run.text, explains);
    }
    let line = line_of_difference(rt.alloc(), expected.path, &answered, &difference)?;
    Err(CommandError::Different(line))
}

/// Writes the rows as a unified diff.
fn write_diff<W: Write + Drop>(
    alloc: Global,
    out: W,
    path: &str,
    scenario: &Scenario,
    answered: &Answered<'_>,
    rows: &[Row<'_>],
) -> io::Result<()> {
    let mut out = BufWriter::new(alloc, out)?;
    let name = FileName { name: path };
    let head = format!(in alloc; "--- {name}\texpected\n+++ {name}\tgot\n")?;
    out.write_all(head.as_bytes())?;
    let steps = ScenarioSteps::new(alloc, scenario)?;
    let hunks = hunks_of(alloc, rows)?;
    for hunk in &hunks {
        let head = hunk_head(alloc, &steps, answered, rows, hunk)?;
        out.write_all(head.as_slice())?;
        write_rows(&mut out, hunk.rows(&*rows))?;
    }
    out.flush()
}

/// Writes the rows of a hunk.
fn write_rows<W: Write>(out: &mut W, rows: &[Row<'_>]) -> io::Result<()> {
    for row in rows {
        out.write_all(row.sign())?;
        out.write_all(row.line)?;
        out.write_all(row.end())?;
    }
    Ok(())
}

/// Returns the line before a hunk: its places in both texts, and the step at its first change.
fn hunk_head(
    alloc: Global,
    steps: &ScenarioSteps<'_>,
    answered: &Answered<'_>,
    rows: &[Row<'_>],
    hunk: &Hunk,
) -> Result<Vec<u8>, AllocError> {
    let mut head = Vec::new(alloc);
    head.extend_from_slice(head_of(alloc, hunk.rows(rows))?.as_bytes())?;
    if let Some(place) = hunk.line(rows).and_then(|line| answered.step(line)) {
        head.extend_from_slice(format!(in alloc; " {place}: ")?.as_bytes())?;
        head.extend_from_slice(steps.text(alloc, place.index)?.as_slice())?;
    }
    head.push(b'\n')?;
    Ok(head)
}

/// Writes the lines as the file's, whole or not at all.
fn bless<R: Files + AllocGlobal>(
    rt: &R,
    path: &str,
    text: &[u8],
    explains: bool,
) -> Result<(), CommandError>
    ensures { IfErr result (λ e. ¬ IsDifferent e) }
{
    let beside = format!(in rt.alloc(); "{path}.new")?;
    match replace(rt, path, beside.as_str(), text) {
        Ok(()) => Ok(()),
        Err(error) if explains && error.kind() == io::ErrorKind::AlreadyExists => {
            Err(unwritten(rt.alloc(), beside.as_str(), &error))
        }
        Err(error) if explains => Err(unwritten(rt.alloc(), path, &error)),
        Err(error) => Err(CommandError::Run(write_fault(&error))),
    }
}

/// Writes a file beside the one with this path, with the same permissions, and gives it the path. What isn't a file is
/// written to as it is.
fn replace<R: Files>(rt: &R, path: &str, beside: &str, text: &[u8]) -> io::Result<()> {
    let permissions = match fs::symlink_metadata(rt, path) {
        Ok(found) if !found.is_file() => return fs::write(rt, path, text),
        Ok(found) => Some(found.permissions()),
        Err(error) if error.kind() == io::ErrorKind::NotFound => None,
        Err(error) => return Err(error),
    };
    let mut file = fs::File::create_new(rt, beside)?;
    let allowed = match permissions {
        Some(permissions) => fs::set_permissions(rt, beside, permissions),
        None => Ok(()),
    };
    let written = allowed
        .and_then(|()| file.write_all(text))
        .and_then(|()| fs::rename(rt, beside, path));
    if written.is_err() {
        let _ = fs::remove_file(rt, beside);
    }
    written
}

/// The line about a difference.
pub(crate) fn first_line(
    alloc: Global,
    path: &str,
    difference: &Difference<'_>,
) -> Result<String, AllocError> {
    let Difference {
        line,
        expected,
        got,
    } = *difference;
    let wanted = Quoted {
        line: expected,
        other: got,
        end: "the end of the file",
    };
    let had = Quoted {
        line: got,
        other: expected,
        end: "no more lines",
    };
    let name = FileName { name: path };
    format!(in alloc; "{name}:{line}: expected {wanted}, got {had}")
}

/// The line about a difference, and one about the step that the differing line answers.
fn line_of_difference(
    alloc: Global,
    path: &str,
    answered: &Answered<'_>,
    difference: &Difference<'_>,
) -> Result<String, AllocError> {
    let mut text = first_line(alloc, path, difference)?;
    if let Some(step) = answered.step(difference.line.saturating_sub(1)) {
        write!(text, "\n  it answers {step}")?;
    }
    if has_pattern(difference.expected) {
        text.push_str(NO_PATTERNS)?;
    }
    Ok(text)
}

/// Whether an expected line has a character that no line of a run has.
fn has_pattern(line: Option<&[u8]>) -> bool {
    match line {
        Some(line) => line.iter().any(|byte| b"*?$<%\\".contains(byte)),
        None => false,
    }
}

/// What is said of an expected line with a character that no line of a run has.
const NO_PATTERNS: &str =
    "\n  lines are compared byte by byte, without patterns: a scenario's numbers are the same in each run";

/// A line in quotes, or the words for a text's end. Its line feed is printed only if the other line has none.
#[derive(Clone, Copy, Drop)]
struct Quoted<'a> {
    line: Option<&'a [u8]>,
    other: Option<&'a [u8]>,
    end: &'static str,
}

impl fmt::Display for Quoted<'_> {
    fn fmt<W: fmt::Write>(&self, f: &mut fmt::Formatter<W>) -> fmt::Result {
        match self.line {
            Some(line) => {
                let bytes = without_line_feed(line, self.other).escape_ascii();
                write!(f, "\"{bytes}\"")
            }
            None => f.write_str(self.end),
        }
    }
}

/// The line without its line feed, unless the other line has none.
fn without_line_feed<'a>(line: &'a [u8], other: Option<&[u8]>) -> &'a [u8] {
    let is_cut = match other {
        Some(other) => !other.ends_with(b"\n"),
        None => false,
    };
    if is_cut {
        line
    } else {
        line.strip_suffix(b"\n").unwrap_or(line)
    }
}
