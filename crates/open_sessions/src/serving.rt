//! A session from its first line to its last.
ghost use Rattle.std.specs.Prelude.{◌≡◌, ◌≢◌, ◌<◌, ◌⊎◌, ℕ, List, [], true, Ok, Err, None, Some, length, replicate, IfOk, IfErr, IfSome, OnErr};
ghost use Rattle.std.specs.Io.KnownBytes.{Consumes, IsAtEnd, Keeps};
ghost use Rattle.byte_lines.specs.declared.reading.LineEnd.TheVariants.{Feed, Input};
ghost use Rattle.byte_lines.specs.Lines.{Loses, IsEndless, end_bytes};
ghost use Rattle.requests.specs.Machine.{empty};
ghost use Rattle.open_sessions.specs.declared.serve_fault.ServeError.TheVariants.{Read as ReadFault, Memory};
ghost use Rattle.open_sessions.specs.Sessions.{Serves};
ghost use Rattle.open_sessions.specs.Turns.{Told, kept};

use crate::Session;
use crate::answering::answer_line;
use crate::serve_fault::ServeError;
use byte_lines::{LineEnd, LineSource, flush, read_line};
use scenario_runs::{MAX_STEP_BYTES, Style};
use std::alloc::Global;
use std::io::{ErrorKind, Write};
use trace_stop::Settings;

/// Reads the next line, and returns its end, or `None` at the end of the input. Of a line that is too long for a step
/// it keeps one byte too many, so that the line is refused.
fn next_line<R: LineSource>(
    reader: &mut R,
    line: &mut Vec<u8>,
) -> Result<Option<LineEnd>, ServeError>
    ensures line { IfOk result (λ found. IfSome found (λ end. (text : List ℕ)
        × Loses (R.Read.remaining reader.old) (R.Read.remaining reader.new) text (end_bytes end)
        × (line.new.items ≡ kept text) × (end ≡ Input → 0 < length text))) }
    ensures none { result ≡ Ok None → Consumes (R.Read.remaining reader.old) (R.Read.remaining reader.new) [] }
    ensures end { IfOk result (λ found. found ≢ Some Feed → IfSome (R.Read.remaining reader.old) (λ _. IsAtEnd (R.Read.remaining reader.new))) }
    ensures err { OnErr result ((text : List ℕ) × Loses (R.Read.remaining reader.old) (R.Read.remaining reader.new) text []) }
    ensures kind { IfErr result (λ e. (e ≡ ReadFault) ⊎ (e ≡ Memory)) }
    ensures failed { result ≡ Err ReadFault → (R.LineSource.may_fail ≡ true) ⊎ IsEndless (R.Read.remaining reader.old) }
{
    match read_line(reader, MAX_STEP_BYTES + 1, line) {
        Ok(LineEnd::Feed) => Ok(Some(LineEnd::Feed)),
        Ok(LineEnd::Input) if line.is_empty() => Ok(None),
        Ok(LineEnd::Input) => Ok(Some(LineEnd::Input)),
        Err(error) if error.kind() == ErrorKind::OutOfMemory => Err(ServeError::Memory),
        Err(_) => Err(ServeError::Read),
    }
}

/// Answers the line that was read. The answers are flushed unless the next line is buffered, too: a peer may wait for
/// them before it sends more.
fn answer_read<R: LineSource, W: Write>(
    alloc: Global,
    style: Style,
    session: &mut Session,
    line: &[u8],
    text: &mut String,
    reader: &R,
    writer: &mut W,
) -> Result<(), ServeError>
    ensures { Told style result line.now session.old.host session.new.host session.old.made session.new.made (W.contents writer.old) (W.contents writer.new) }
{
    match answer_line(alloc, style, session, line, text, writer) {
        Ok(()) if !reader.has_line() => match flush(writer) {
            Ok(()) => Ok(()),
            Err(_) => Err(ServeError::Write),
        },
        answered => answered,
    }
}

/// Answers each line of the reader by a line to the writer, until the reader's end. `line` and `text` are buffers for a
/// line's bytes and its answer.
fn answer_all<R: LineSource, W: Write>(
    alloc: Global,
    style: Style,
    session: &mut Session,
    line: &mut Vec<u8>,
    text: &mut String,
    reader: &mut R,
    writer: &mut W,
) -> Result<(), ServeError>
    requires { session.old.made ≡ replicate 64 0 }
    ensures serves { Serves style result session.old.host (R.Read.remaining reader.old) (R.Read.remaining reader.new) (W.contents writer.old) (W.contents writer.new) }
    ensures failed { result ≡ Err ReadFault → (R.LineSource.may_fail ≡ true) ⊎ IsEndless (R.Read.remaining reader.old) }
{
    for _ in 0..u64::MAX {
        let Some(end) = next_line(reader, line)? else {
            return Ok(());
        };
        answer_read(alloc, style, session, line.as_slice(), text, reader, writer)?;
        if let LineEnd::Input = end {
            return Ok(());
        }
    }
    Err(ServeError::TooManyLines)
}

/// Flushes the answers that a session left when it failed. A writer that failed isn't tried again.
fn flush_after<W: Write>(served: Result<(), ServeError>, writer: &mut W)
    ensures { Keeps (W.contents writer.old) (W.contents writer.new) }
{
    if let Err(ServeError::Read | ServeError::Memory | ServeError::TooManyLines) = served {
        let _ = flush(writer);
    }
}

/// Answers each line of the reader by a line to the writer, until the reader's end. A new host with these settings
/// makes the steps, and handlers answer by the policies that the lines install. An answer is written in the style.
/// Answers are flushed before a read that may wait, and at the end. A line's memory is free before the next is read.
///
/// # Errors
///
/// `Read` if the reader failed. `Memory` if memory ran out for a line or for an answer's text. In both cases all lines
/// before were answered. `Write` if the writer failed, or took no byte: it has the beginning of the answers.
/// `TooManyLines` after 2^64 - 1 lines. A reply ENOMEM to a step is not an error of the session.
pub fn serve<R: LineSource, W: Write>(
    alloc: Global,
    settings: Settings,
    style: Style,
    reader: &mut R,
    writer: &mut W,
) -> Result<(), ServeError>
    ensures serves { Serves style result (empty settings) (R.Read.remaining reader.old) (R.Read.remaining reader.new) (W.contents writer.old) (W.contents writer.new) }
    ensures failed { result ≡ Err ReadFault → (R.LineSource.may_fail ≡ true) ⊎ IsEndless (R.Read.remaining reader.old) }
{
    let mut session = Session::new(alloc, settings);
    let mut line = Vec::new(alloc);
    let mut text = String::new(alloc);
    let served = answer_all(
        alloc,
        style,
        &mut session,
        &mut line,
        &mut text,
        reader,
        writer,
    );
    flush_after(served, writer);
    served
}
