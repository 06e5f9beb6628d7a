//! The lines of an explanation, and the place that they are about.
use crate::characters::is_invisible;
use crate::texts::Source;
use std::alloc::{AllocError, Global};

/// The most characters of a text that are shown.
const MAX_SHOWN: usize = 40;

/// The lines so far. If memory runs out, that is noted, and reported at the end, so that no single word returns an error.
#[derive(Drop)]
pub(crate) struct Report {
    pub(crate) alloc: Global,
    pub(crate) lines: String,
    /// Whether memory ran out.
    pub(crate) is_cut: bool,
    /// The line number of a single step.
    pub(crate) line: Option<usize>,
    /// The index of the step in a scenario.
    pub(crate) step: Option<usize>,
    /// The index of the rule in a step's policy.
    pub(crate) rule: Option<usize>,
}

impl Report {
    pub(crate) fn nothing(alloc: Global, source: Source) -> Report {
        let line = match source {
            Source::Scenario => None,
            Source::Line(number) => Some(number),
        };
        Report {
            alloc,
            lines: String::new(alloc),
            is_cut: false,
            line,
            step: None,
            rule: None,
        }
    }

    /// Ends the line, unless none has begun.
    pub(crate) fn end_line(&mut self) {
        let lines = self.lines.as_str();
        if !lines.is_empty() && !lines.ends_with('\n') {
            self.push("\n");
        }
    }

    /// The lines, if all of them are there.
    pub(crate) fn end(self) -> Result<String, AllocError> {
        if self.is_cut {
            Err(AllocError)
        } else {
            Ok(self.lines)
        }
    }

    pub(crate) fn push(&mut self, text: &str) {
        if self.lines.push_str(text).is_err() {
            self.is_cut = true;
        }
    }

    pub(crate) fn push_number(&mut self, number: usize) {
        if write!(self.lines, "{number}").is_err() {
            self.is_cut = true;
        }
    }

    /// A character as `U+` and its number in Unicode.
    pub(crate) fn push_code_point(&mut self, character: char) {
        let number = character as u32;
        if write!(self.lines, "U+{number:04X}").is_err() {
            self.is_cut = true;
        }
    }

    /// A character, escaped if it is a control character, and by its number if it can't be seen.
    pub(crate) fn push_character(&mut self, character: char) {
        if is_invisible(character) {
            self.push("<");
            self.push_code_point(character);
            return self.push(">");
        }
        let pushed = if character.is_control() {
            let escaped = character.escape_default();
            write!(self.lines, "{escaped}")
        } else {
            self.lines.push(character)
        };
        if pushed.is_err() {
            self.is_cut = true;
        }
    }

    /// A text with its control characters escaped, cut if it is long.
    pub(crate) fn push_shown(&mut self, text: &str) {
        let mut count = 0usize;
        for character in text.chars() {
            if count >= MAX_SHOWN {
                return self.push("..");
            }
            self.push_character(character);
            count = count.saturating_add(1);
        }
    }

    /// The name of an array, and an index.
    fn push_index(&mut self, name: &str, index: usize) {
        self.push(name);
        self.push("[");
        self.push_number(index);
        self.push("]");
    }

    /// The step and the rule, as far as there are such, and the key, if it isn't empty.
    fn push_path(&mut self, key: &str) {
        let mut dot = "";
        if let Some(index) = self.step {
            self.push_index("steps", index);
            dot = ".";
        }
        if let Some(index) = self.rule {
            self.push(dot);
            self.push_index("rules", index);
            dot = ".";
        }
        if !key.is_empty() {
            self.push(dot);
            self.push(key);
        }
    }

    /// Begins a line about the key, or if that is empty about the object, and about an item of the key's array.
    pub(crate) fn begin(&mut self, key: &str, item: Option<usize>) {
        self.end_line();
        let is_whole = self.step.is_none() && self.rule.is_none() && key.is_empty();
        self.push("  ");
        if let Some(number) = self.line {
            self.push("line ");
            self.push_number(number);
            self.push(if is_whole { "" } else { ", " });
        } else if is_whole {
            self.push("the scenario");
        }
        self.push_path(key);
        if let Some(index) = item {
            self.push_index("", index);
        }
        self.push(": ");
    }
}
