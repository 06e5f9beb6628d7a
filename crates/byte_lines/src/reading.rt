//! Reads lines.
ghost use Rattle.std.specs.Prelude.{◌≡◌, ◌<◌, ◌≤◌, ◌≢◌, ◌⊎◌, ◌++◌, [], true, List, ℕ, Ok, Some, None, length, take, IfOk, IfErr, IfSome, OnOk, OnErr};
ghost use Rattle.std.specs.Io.KnownBytes.{Consumes, IsAtEnd};
ghost use Rattle.std.specs.IoError.{error_kind};
ghost use Rattle.byte_lines.specs.declared.reading.LineEnd.TheVariants.{Input};
ghost use Rattle.byte_lines.specs.Lines.{NoFeed, Loses, IsEndless, end_bytes, part_end};

use crate::sources::LineSource;
use memchr::memchr;
use std::io;
use std::io::ErrorKind;

/// The end of a line.
#[derive(Clone, Copy, Debug, PartialEq, Eq)]
pub enum LineEnd {
    /// Its line feed.
    Feed,
    /// The end of the input.
    Input,
}

/// Returns the number of bytes before the end of a line, the number of bytes including it, and the end. The end is
/// `None` if the line continues after these bytes.
fn part_of(shown: &[u8]) -> (usize, usize, Option<LineEnd>)
    ensures before { NoFeed (take result.0 shown.now) }
    ensures few { result.0 ≤ length shown.now }
    ensures bound { result.1 ≤ length shown.now }
    ensures through { take result.1 shown.now ≡ take result.0 shown.now ++ part_end result.2 }
    ensures input { result.2 ≡ Some Input → shown.now ≡ [] }
    ensures more { result.2 ≡ None → 0 < length (take result.0 shown.now) }
{
    match memchr(b'\n', shown) {
        Some(at) => (at, at + 1, Some(LineEnd::Feed)),
        None if shown.is_empty() => (0, 0, Some(LineEnd::Input)),
        None => (shown.len(), shown.len(), None),
    }
}

/// Takes the buffered bytes of a line from the reader, and keeps those up to `most` bytes of the line. Returns `None`
/// if the line continues.
fn take_part<R: LineSource>(
    reader: &mut R,
    most: usize,
    line: &mut Vec<u8>,
) -> io::Result<Option<LineEnd>>
    requires { length line.old.items ≤ most }
    ensures part { IfOk result (λ end. (text : List ℕ) × Loses (R.Read.remaining reader.old) (R.Read.remaining reader.new) text (part_end end)
        × (line.new.items ≡ take most (line.old.items ++ text))
        × (end ≡ None → (R.LineSource.may_fail ≡ true) ⊎ (0 < length text))) }
    ensures end { result ≡ Ok (Some Input) → IfSome (R.Read.remaining reader.old) (λ _. IsAtEnd (R.Read.remaining reader.new)) }
    ensures err { OnErr result (Consumes (R.Read.remaining reader.old) (R.Read.remaining reader.new) []) }
    ensures retried { IfErr result (λ e. error_kind e ≢ ErrorKind.Interrupted) }
    ensures failed { IfErr result (λ e. (error_kind e ≡ ErrorKind.OutOfMemory) ⊎ (R.LineSource.may_fail ≡ true)) }
{
    let shown = match reader.fill() {
        Ok(shown) => shown,
        Err(error) if error.kind() == ErrorKind::Interrupted => return Ok(None),
        Err(error) => return Err(error),
    };
    let (before, taken, end) = part_of(shown);
    let kept = before.min(most - line.len());
    line.extend_from_slice(&shown[..kept])?;
    reader.consume(taken);
    Ok(end)
}

/// Takes a line from the reader, up to its line feed or the end of the input, and returns which. `line` gets the first
/// `most` bytes of the line, without its line feed. The rest takes no memory.
///
/// # Errors
///
/// Those of the reader, except `Interrupted`, after which it retries; or out of memory. The bytes taken until then are
/// a part of the line. A reader that can't fail gives an error only if it has 2^64 - 1 bytes or more.
pub fn read_line<R: LineSource>(
    reader: &mut R,
    most: usize,
    line: &mut Vec<u8>,
) -> io::Result<LineEnd>
    ensures line { IfOk result (λ end. (text : List ℕ) × Loses (R.Read.remaining reader.old) (R.Read.remaining reader.new) text (end_bytes end)
        × (line.new.items ≡ take most text)) }
    ensures end { result ≡ Ok Input → IfSome (R.Read.remaining reader.old) (λ _. IsAtEnd (R.Read.remaining reader.new)) }
    ensures err { OnErr result ((text : List ℕ) × Loses (R.Read.remaining reader.old) (R.Read.remaining reader.new) text []) }
    ensures retried { IfErr result (λ e. error_kind e ≢ ErrorKind.Interrupted) }
    ensures failed { IfErr result (λ e. (error_kind e ≡ ErrorKind.OutOfMemory) ⊎ (R.LineSource.may_fail ≡ true)
        ⊎ IsEndless (R.Read.remaining reader.old)) }
{
    line.clear();
    for _ in 0..u64::MAX {
        if let Some(end) = take_part(reader, most, line)? {
            return Ok(end);
        }
    }
    Err(io::Error::from(ErrorKind::Other))
}
