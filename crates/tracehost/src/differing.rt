//! The expected lines and those of a run, side by side as a unified diff.
use std::alloc::{AllocError, Global};

/// How many lines around a change are shown.
const CONTEXT: usize = 3;

/// How far behind a change lines are looked for that are the same again.
const REACH: usize = 20;

/// In which text a line is.
#[derive(Clone, Copy, PartialEq, Eq)]
pub(crate) enum Side {
    Both,
    Expected,
    Got,
}

/// A line of a comparison.
#[derive(Clone, Copy, Drop)]
pub(crate) struct Row<'a> {
    pub(crate) side: Side,
    pub(crate) line: &'a [u8],
    /// How many lines of the expected text come before it.
    pub(crate) expected: usize,
    /// How many lines of the run come before it.
    pub(crate) got: usize,
}

/// Changes that are shown together: the places of the first and the last one among the rows.
#[derive(Clone, Copy, Drop)]
pub(crate) struct Hunk {
    first: usize,
    last: usize,
}

/// A text line by line, each with its line feed.
#[derive(Drop)]
struct Lines<'a> {
    text: &'a [u8],
    /// The place behind each line.
    ends: Vec<usize>,
}

impl<'a> Lines<'a> {
    /// The lines of the text. An error means out of memory.
    fn new(alloc: Global, text: &'a [u8]) -> Result<Lines<'a>, AllocError> {
        let mut ends = Vec::new(alloc);
        for (place, byte) in text.iter().enumerate() {
            if *byte == b'\n' {
                ends.push(place.saturating_add(1))?;
            }
        }
        if !text.is_empty() && !text.ends_with(b"\n") {
            ends.push(text.len())?;
        }
        Ok(Lines { text, ends })
    }

    /// Returns the line with this index; none after the last one.
    fn line(&self, index: usize) -> Option<&'a [u8]> {
        let end = *self.ends.get(index)?;
        let from = match index.checked_sub(1) {
            Some(before) => *self.ends.get(before)?,
            None => 0,
        };
        self.text.get(from..end)
    }
}

/// Tests whether two texts have the same two lines from these places on, or end there.
fn meet(expected: &Lines<'_>, got: &Lines<'_>, left: usize, right: usize) -> bool {
    expected.line(left) == got.line(right)
        && expected.line(left.saturating_add(1)) == got.line(right.saturating_add(1))
}

/// Returns how many lines of each text come from these places on before those that are the same again. Mostly it is one
/// line of each.
fn change_of(expected: &Lines<'_>, got: &Lines<'_>, left: usize, right: usize) -> (usize, usize) {
    if expected.line(left.saturating_add(1)) == got.line(right.saturating_add(1)) {
        return (1, 1);
    }
    for lines in 1..REACH {
        for skipped in 0..=lines {
            let added = lines - skipped;
            if meet(
                expected,
                got,
                left.saturating_add(skipped),
                right.saturating_add(added),
            ) {
                return (skipped, added);
            }
        }
    }
    (1, 1)
}

/// The rows so far.
#[derive(Drop)]
struct Rows<'a> {
    rows: Vec<Row<'a>>,
    expected: usize,
    got: usize,
}

impl<'a> Rows<'a> {
    /// Adds a line.
    fn push(&mut self, side: Side, line: &'a [u8]) -> Result<(), AllocError> {
        self.rows.push(Row {
            side,
            line,
            expected: self.expected,
            got: self.got,
        })?;
        if side != Side::Got {
            self.expected = self.expected.saturating_add(1);
        }
        if side != Side::Expected {
            self.got = self.got.saturating_add(1);
        }
        Ok(())
    }

    /// Adds the next lines of each text, as many as are there.
    fn push_change(
        &mut self,
        expected: &Lines<'a>,
        got: &Lines<'a>,
        change: (usize, usize),
    ) -> Result<(), AllocError> {
        for _ in 0..change.0 {
            if let Some(line) = expected.line(self.expected) {
                self.push(Side::Expected, line)?;
            }
        }
        for _ in 0..change.1 {
            if let Some(line) = got.line(self.got) {
                self.push(Side::Got, line)?;
            }
        }
        Ok(())
    }
}

/// Returns the lines of both texts, those that are the same once.
pub(crate) fn rows_of<'a>(
    alloc: Global,
    expected: &'a [u8],
    got: &'a [u8],
) -> Result<Vec<Row<'a>>, AllocError> {
    let expected = Lines::new(alloc, expected)?;
    let got = Lines::new(alloc, got)?;
    let mut rows = Rows {
        rows: Vec::new(alloc),
        expected: 0,
        got: 0,
    };
    for _ in 0..expected.ends.len().saturating_add(got.ends.len()) {
        match (expected.line(rows.expected), got.line(rows.got)) {
            (Some(line), Some(same)) if line == same => rows.push(Side::Both, line)?,
            (Some(_), Some(_)) => {
                let change = change_of(&expected, &got, rows.expected, rows.got);
                rows.push_change(&expected, &got, change)?;
            }
            (Some(line), None) => rows.push(Side::Expected, line)?,
            (None, Some(line)) => rows.push(Side::Got, line)?,
            (None, None) => break,
        }
    }
    Ok(rows.rows)
}

/// Returns the changes, those together that have no more lines between them than are shown around them.
pub(crate) fn hunks_of(alloc: Global, rows: &[Row<'_>]) -> Result<Vec<Hunk>, AllocError> {
    let mut hunks: Vec<Hunk> = Vec::new(alloc);
    for (place, row) in rows.iter().enumerate() {
        if row.side == Side::Both {
            continue;
        }
        match hunks.last_mut() {
            Some(hunk) if place.saturating_sub(hunk.last) <= 2 * CONTEXT => hunk.last = place,
            _ => hunks.push(Hunk {
                first: place,
                last: place,
            })?,
        }
    }
    Ok(hunks)
}

/// The number of a range's first line, and how many lines it has. Without lines it is the number of the line before.
fn push_range(out: &mut String, before: usize, count: usize) -> Result<(), AllocError> {
    let first = before.saturating_add(if count == 0 { 0 } else { 1 });
    match write!(out, "{first},{count}") {
        Ok(()) => Ok(()),
        Err(_) => Err(AllocError),
    }
}

impl Hunk {
    /// Returns its rows, with the lines around them.
    pub(crate) fn rows<'a>(&self, rows: &'a [Row<'a>]) -> &'a [Row<'a>] {
        let from = self.first.saturating_sub(CONTEXT);
        let to = self
            .last
            .saturating_add(1)
            .saturating_add(CONTEXT)
            .min(rows.len());
        rows.get(from..to).unwrap_or(&[])
    }

    /// Returns the index of the run's line at its first change.
    pub(crate) fn line(&self, rows: &[Row<'_>]) -> Option<usize> {
        Some(rows.get(self.first)?.got)
    }
}

/// Returns the line before a hunk's rows, without what it says of the step: their places in both texts.
pub(crate) fn head_of(alloc: Global, rows: &[Row<'_>]) -> Result<String, AllocError> {
    let mut out = String::new(alloc);
    let Some(first) = rows.first() else {
        return Ok(out);
    };
    let expected = rows.iter().filter(|row| row.side != Side::Got).count();
    let got = rows.iter().filter(|row| row.side != Side::Expected).count();
    out.push_str("@@ -")?;
    push_range(&mut out, first.expected, expected)?;
    out.push_str(" +")?;
    push_range(&mut out, first.got, got)?;
    out.push_str(" @@")?;
    Ok(out)
}

impl Row<'_> {
    /// Returns what is before the line in a diff.
    pub(crate) fn sign(&self) -> &'static [u8] {
        match self.side {
            Side::Both => b" ",
            Side::Expected => b"-",
            Side::Got => b"+",
        }
    }

    /// Returns what is after the line in a diff: a line on its own if it has no line feed.
    pub(crate) fn end(&self) -> &'static [u8] {
        if self.line.ends_with(b"\n") {
            b""
        } else {
            b"\n\\ No newline at end of file\n"
        }
    }
}
