//! Laws of the text of rows.
ghost use Rattle.json_trace.specs.RowLaws.{RowsTell};

/// A user's rows with the same text are the same rows.
pub fn rows_tell()
    ensures { RowsTell }
{}
