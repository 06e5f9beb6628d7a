//! Names that are spelt much like another.
use crate::characters::is_invisible;
use crate::report::Report;
use std::alloc::{AllocError, Global};
use strsim::generic_levenshtein;

/// The most bytes of a name that is compared.
const MAX_BYTES: usize = 64;

/// The bytes of the name in lower case.
fn lowered(alloc: Global, name: &str) -> Result<Vec<u8>, AllocError> {
    let mut bytes = Vec::from_slice(alloc, name.as_bytes())?;
    bytes.make_ascii_lowercase();
    Ok(bytes)
}

/// How many letters may differ if the longer name has this length.
fn max_edits(length: usize) -> usize {
    match length {
        0..=3 => 1,
        4..=8 => 2,
        _ => length / 3,
    }
}

/// How many letters to change from one name to the other, without regard to case.
fn edits(alloc: Global, written: &str, name: &str) -> Result<usize, AllocError> {
    let written = lowered(alloc, written)?;
    let name = lowered(alloc, name)?;
    generic_levenshtein(alloc, written.as_slice(), name.as_slice())
}

/// Whether what was written is the name, apart from characters that can't be seen.
fn is_seen_as(written: &str, name: &str) -> bool {
    let mut letters = name.chars();
    for character in written.chars() {
        if is_invisible(character) {
            continue;
        }
        match letters.next() {
            Some(letter) if letter == character => {}
            _ => return false,
        }
    }
    letters.next().is_none()
}

impl Report {
    /// The name that was likely meant.
    pub(crate) fn push_meant(&mut self, name: &str) {
        self.push("; did you mean \"");
        self.push(name);
        self.push("\"?");
    }

    /// How many letters to change from what was written to the name; none if they are too many.
    pub(crate) fn few_edits(&mut self, written: &str, name: &str) -> Option<usize> {
        if written.len() > MAX_BYTES || written.is_empty() {
            return None;
        }
        if is_seen_as(written, name) {
            return Some(0);
        }
        let most = max_edits(written.len().max(name.len()));
        match edits(self.alloc, written, name) {
            Ok(edits) if edits <= most => Some(edits),
            Ok(_) => None,
            Err(_) => {
                self.is_cut = true;
                None
            }
        }
    }
}

/// The names that are nearest to what was written, at most two of them.
#[derive(Clone, Copy)]
pub(crate) struct Nearest {
    edits: usize,
    /// Empty if there is none, as is the second.
    first: &'static str,
    second: &'static str,
}

impl Nearest {
    pub(crate) const NONE: Nearest = Nearest {
        edits: usize::MAX,
        first: "",
        second: "",
    };

    /// Adds a name, if it is as near as those before.
    pub(crate) fn add(&mut self, report: &mut Report, written: &str, name: &'static str) {
        let Some(edits) = report.few_edits(written, name) else {
            return;
        };
        if edits < self.edits {
            self.edits = edits;
            self.first = name;
            self.second = "";
        } else if edits == self.edits && self.second.is_empty() {
            self.second = name;
        }
    }

    /// Reports what was likely meant, and returns whether there is anything.
    pub(crate) fn suggest(&self, report: &mut Report) -> bool {
        if self.first.is_empty() {
            return false;
        }
        if self.second.is_empty() {
            report.push_meant(self.first);
            return true;
        }
        report.push("; did you mean \"");
        report.push(self.first);
        report.push("\" or \"");
        report.push(self.second);
        report.push("\"?");
        true
    }
}
