//! Writes bytes.
ghost use Rattle.std.specs.Prelude.{◌≡◌, ◌≢◌, ◌≤◌, [], List, ℕ, length, take, IfOk, IfErr, OnOk, OnErr};
ghost use Rattle.std.specs.Io.KnownBytes.{Appends, Keeps};
ghost use Rattle.std.specs.IoError.{error_kind};

use std::io;
use std::io::{ErrorKind, Write};

/// Writes some of the bytes, and returns how many: 0 if a signal interrupted the write.
fn write_part<W: Write>(writer: &mut W, bytes: &[u8]) -> io::Result<usize>
    ensures bound { IfOk result (λ n. n ≤ length bytes.now) }
    ensures part { IfOk result (λ n. Appends (W.contents writer.old) (W.contents writer.new) (take n bytes.now)) }
    ensures err { OnErr result (Appends (W.contents writer.old) (W.contents writer.new) []) }
    ensures retried { IfErr result (λ e. error_kind e ≢ ErrorKind.Interrupted) }
{
    match writer.write(bytes) {
        Ok(0) => Err(io::Error::from(ErrorKind::WriteZero)),
        Ok(n) => Ok(n),
        Err(error) if error.kind() == ErrorKind::Interrupted => Ok(0),
        Err(error) => Err(error),
    }
}

/// Flushes the writer. Returns `false` if a signal interrupted it.
fn is_flushed<W: Write>(writer: &mut W) -> io::Result<bool>
    ensures kept { Keeps (W.contents writer.old) (W.contents writer.new) }
    ensures retried { IfErr result (λ e. error_kind e ≢ ErrorKind.Interrupted) }
{
    match writer.flush() {
        Ok(()) => Ok(true),
        Err(error) if error.kind() == ErrorKind::Interrupted => Ok(false),
        Err(error) => Err(error),
    }
}

/// Flushes the writer, and again if a signal interrupted it.
///
/// # Errors
///
/// Those of the writer, except `Interrupted`, after which it retries.
pub fn flush<W: Write>(writer: &mut W) -> io::Result<()>
    ensures kept { Keeps (W.contents writer.old) (W.contents writer.new) }
    ensures retried { IfErr result (λ e. error_kind e ≢ ErrorKind.Interrupted) }
{
    for _ in 0..u64::MAX {
        if is_flushed(writer)? {
            return Ok(());
        }
    }
    Err(io::Error::from(ErrorKind::Other))
}

/// Writes all the bytes.
///
/// # Errors
///
/// Those of the writer, except `Interrupted`, after which it retries; or `WriteZero` if the writer took no byte. The
/// writer then has the beginning of the bytes.
pub fn write_all<W: Write>(writer: &mut W, bytes: &[u8]) -> io::Result<()>
    ensures ok { OnOk result (Appends (W.contents writer.old) (W.contents writer.new) bytes.now) }
    ensures err { OnErr result ((n : ℕ) × Appends (W.contents writer.old) (W.contents writer.new) (take n bytes.now)) }
    ensures retried { IfErr result (λ e. error_kind e ≢ ErrorKind.Interrupted) }
{
    let mut rest = bytes;
    for _ in 0..u64::MAX {
        if rest.is_empty() {
            return Ok(());
        }
        let written = write_part(writer, rest)?;
        rest = &rest[written..];
    }
    Err(io::Error::from(ErrorKind::Other))
}
