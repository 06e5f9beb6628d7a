//! Tables of text: in each row what is given, an arrow, and what is expected.

use crate::TestError;
use std::alloc::Global;
use std::fmt::Display;

/// A row of a table.
#[derive(Clone, Copy, Drop)]
pub struct Row<'a> {
    pub given: &'a str,
    pub wanted: &'a str,
}

impl Row<'_> {
    /// Checks that what was found reads as the row says. The error names the row.
    pub fn check<D: Display>(&self, alloc: Global, found: &D) -> Result<(), TestError> {
        let found = format!(in alloc; "{found}")?;
        if found.as_str() == self.wanted {
            return Ok(());
        }
        let given = self.given;
        let wanted = self.wanted;
        let said = format!(in alloc; "`{given}` gives `{found}`, and not `{wanted}`")?;
        Err(TestError::Line(said))
    }
}

/// Returns the rows of a table: `GIVEN -> WANTED`, one a line. Empty lines and headings, `# NAME`, are left out, and blanks at the
/// ends of both parts.
pub fn rows_of(alloc: Global, table: &str) -> Result<Vec<Row<'_>>, TestError> {
    let mut rows = Vec::new(alloc);
    for line in table.lines() {
        let line = line.trim_ascii();
        if !line.is_empty() && !line.starts_with("# ") {
            let Some((given, wanted)) = line.split_once("->") else {
                return Err(TestError::Line(format!(in alloc; "`{line}` has no arrow")?));
            };
            rows.push(Row {
                given: given.trim_ascii(),
                wanted: wanted.trim_ascii(),
            })?;
        }
    }
    Ok(rows)
}
