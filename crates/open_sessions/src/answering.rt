//! The answer to a line.
ghost use Rattle.open_sessions.specs.Calls.{last_text};
ghost use Rattle.open_sessions.specs.Turns.{Told, Writes};

use crate::serve_fault::ServeError;
use crate::{Session, SessionFault};
use byte_lines::write_all;
use scenario_runs::Style;
use std::alloc::Global;
use std::io::Write;

/// Writes the line of the session's last answer. `text` is a buffer for it.
fn write_last<W: Write>(
    alloc: Global,
    style: Style,
    session: &Session,
    text: &mut String,
    writer: &mut W,
) -> Result<(), ServeError>
    ensures { Writes result (last_text style session.now) (W.contents writer.old) (W.contents writer.new) }
{
    text.clear();
    match session.push_line(alloc, style, text) {
        Ok(()) => match write_all(writer, text.as_bytes()) {
            Ok(()) => Ok(()),
            Err(_) => Err(ServeError::Write),
        },
        Err(_) => Err(ServeError::Memory),
    }
}

/// Writes the answer to the line. `text` is a buffer for the answer's text.
pub(crate) fn answer_line<W: Write>(
    alloc: Global,
    style: Style,
    session: &mut Session,
    line: &[u8],
    text: &mut String,
    writer: &mut W,
) -> Result<(), ServeError>
    ensures { Told style result line.now session.old.host session.new.host session.old.made session.new.made (W.contents writer.old) (W.contents writer.new) }
{
    match session.answer(alloc, line) {
        Ok(()) => write_last(alloc, style, session, text, writer),
        Err(SessionFault::Memory) => Err(ServeError::Memory),
        Err(SessionFault::TooManyAnswers) => Err(ServeError::TooManyLines),
    }
}
