//! Why a text isn't JSON, in words.
use crate::characters::LookAlike;
use crate::report::Report;
use crate::scanning::{JsonMistake, Wants, Wrong, first_mistake, word_at};
use crate::wrong_inputs::{is_utf_16, push_mode, report_output};
use std::str::from_utf8;

/// A line of a text and a column in characters, both from 1.
#[derive(Clone, Copy)]
struct LineColumn {
    line: usize,
    column: usize,
}

impl LineColumn {
    /// The place after so many bytes of the text.
    fn of(text: &[u8], before: usize) -> LineColumn {
        let mut line = 1usize;
        let mut column = 1usize;
        for byte in text.get(..before).unwrap_or(text) {
            if *byte == b'\n' {
                line = line.saturating_add(1);
                column = 1;
            } else if *byte & 0xc0 != 0x80 {
                column = column.saturating_add(1);
            }
        }
        LineColumn { line, column }
    }
}

impl Report {
    /// A line of the text and a column; for a single step the number of its line.
    fn push_spot(&mut self, line: usize, column: usize) {
        self.push("line ");
        self.push_number(self.line.unwrap_or(line));
        self.push(", column ");
        self.push_number(column);
    }

    /// The place after so many bytes of the text.
    fn push_spot_in(&mut self, text: &[u8], before: usize) {
        let at = LineColumn::of(text, before);
        self.push_spot(at.line, at.column);
    }
}

impl Wants {
    fn words(self) -> &'static str {
        match self {
            Wants::Value | Wants::Item => "a value",
            Wants::ItemOrEnd => "a value or `]`",
            Wants::Key => "a key in double quotes",
            Wants::KeyOrEnd => "a key in double quotes or `}`",
            Wants::Colon => "`:`",
            Wants::CommaOrBrace => "`,` or `}`",
            Wants::CommaOrBracket => "`,` or `]`",
            Wants::End => "the end of the text",
        }
    }

    /// What helps against this character.
    fn hint(self, got: char) -> &'static str {
        match (self, got) {
            (Wants::Item, ']') | (Wants::Key, '}') => "; leave out the comma before it",
            (Wants::Item | Wants::Key, ',') => "; leave out one of the commas",
            (Wants::ItemOrEnd | Wants::KeyOrEnd, ',') => "; leave out the comma",
            (_, '/') | (_, '#') => "; JSON has no comments",
            (_, '\'') => "; JSON has only double quotes",
            (_, '(') | (_, ')') => "; JSON has no parentheses",
            (Wants::Colon, '=') => "; write `:`",
            (Wants::CommaOrBrace | Wants::CommaOrBracket, ';') => "; write `,`",
            _ => "",
        }
    }

    /// The brace or bracket that isn't closed when this character comes, by what is around it.
    fn unclosed(self, got: char, is_in_object: Option<bool>) -> Option<&'static str> {
        match (self, got, is_in_object) {
            (Wants::Key | Wants::KeyOrEnd | Wants::CommaOrBrace, '{' | ']', Some(false)) => {
                Some("{")
            }
            (Wants::ItemOrEnd | Wants::CommaOrBracket, '}', Some(true)) => Some("["),
            _ => None,
        }
    }
}

/// What is said of words of other languages.
fn foreign_hint(word: &str) -> Option<&'static str> {
    let bare = word.strip_prefix(['+', '-']).unwrap_or(word);
    for number in ["nan", "inf", "infinity"] {
        if bare.eq_ignore_ascii_case(number) {
            return Some("; JSON has no NaN and no infinity: write a whole number");
        }
    }
    for nothing in ["none", "nil", "undefined"] {
        if bare.eq_ignore_ascii_case(nothing) {
            return Some("; leave out a key that has no value");
        }
    }
    None
}

/// What helps against a word that isn't a value.
fn word_hint(word: &str) -> &'static str {
    for value in ["true", "false", "null"] {
        if word.eq_ignore_ascii_case(value) {
            return match value {
                "true" => "; did you mean `true`?",
                "false" => "; did you mean `false`?",
                _ => "; did you mean `null`?",
            };
        }
    }
    if let Some(hint) = foreign_hint(word) {
        return hint;
    }
    match word.chars().next() {
        Some('0'..='9' | '-' | '+' | '.') => "",
        Some('/' | '#') => "; JSON has no comments",
        Some('\'') => "; JSON has only double quotes",
        Some('`') => "; leave out the backquotes",
        Some('(' | ')') => "; JSON has no parentheses: an array has brackets, an object braces",
        _ => "; texts go in double quotes",
    }
}

/// A word that isn't a value.
fn report_word(report: &mut Report, word: &str, at: usize) {
    if at == 0 && word.starts_with('\u{feff}') {
        return report.push("a byte order mark begins the text; leave it out");
    }
    report.push("`");
    report.push_shown(word);
    report.push("` is not a JSON value");
    match LookAlike::first_in(word) {
        Some(look_alike) => {
            report.push("; it has ");
            look_alike.report(report);
        }
        None => report.push(word_hint(word)),
    }
}

/// The place of a brace or bracket that isn't closed.
fn push_unclosed(report: &mut Report, text: &[u8], mistake: &JsonMistake, what: &str) {
    if let Some(begin) = mistake.opened {
        report.push("; ");
        report.push(what);
        report.push(" at ");
        report.push_spot_in(text, begin);
        report.push(" isn't closed");
    }
}

/// Another character than what may come.
fn report_character(
    report: &mut Report,
    text: &[u8],
    mistake: &JsonMistake,
    wants: Wants,
    got: char,
) {
    report.push(", got ");
    if let Some(look_alike) = LookAlike::of(got) {
        return look_alike.report(report);
    }
    report.push("`");
    report.push_character(got);
    report.push("`");
    match wants.unclosed(got, mistake.is_in_object) {
        Some("{") => push_unclosed(report, text, mistake, "the `{`"),
        Some(_) => push_unclosed(report, text, mistake, "the `[`"),
        None => report.push(wants.hint(got)),
    }
}

/// Another character than what may come, or the text's end.
fn report_other(report: &mut Report, text: &[u8], mistake: &JsonMistake, wants: Wants) {
    report.push("expected ");
    report.push(wants.words());
    let rest = word_at(text, mistake.at, text.len());
    match rest.chars().next() {
        Some(got) => report_character(report, text, mistake, wants, got),
        None => {
            report.push(", but the text ends");
            push_unclosed(report, text, mistake, "what opens");
        }
    }
    push_mode(report, text, mistake.at, wants);
}

/// A string with a control character, or without its closing quotes.
fn report_control(report: &mut Report, text: &[u8], mistake: &JsonMistake) {
    match text.get(mistake.at) {
        Some(byte) if *byte != b'\n' && *byte != b'\r' => {
            report.push("a control character is in a text; write it as `\\u");
            if write!(report.lines, "{byte:04x}").is_err() {
                report.is_cut = true;
            }
            report.push("`");
        }
        _ => {
            report.push("the text that begins at ");
            report.push_spot_in(text, mistake.opened.unwrap_or(0));
            report.push(" has no quotes at its end");
        }
    }
}

fn report_mistake(report: &mut Report, text: &[u8], mistake: &JsonMistake) {
    match mistake.wrong {
        Wrong::Word(end) => report_word(report, word_at(text, mistake.at, end), mistake.at),
        Wrong::TooLarge(end) => {
            report.push_shown(word_at(text, mistake.at, end));
            report.push(" is beyond what a double holds");
        }
        Wrong::TooDeep => report.push("arrays and objects nest more than 127 deep"),
        Wrong::Escape => report.push("this is no escape of JSON; write `\\\\` for a backslash"),
        Wrong::Control => report_control(report, text, mistake),
        Wrong::Other(wants) => report_other(report, text, mistake, wants),
    }
}

/// Bytes that aren't UTF-8, or are UTF-16; false if they are well.
fn report_encoding(report: &mut Report, text: &[u8]) -> bool {
    if is_utf_16(text) {
        report.push("  ");
        report.push_spot(1, 1);
        report.push(": the text is UTF-16; save it as UTF-8 (PowerShell's `>` writes UTF-16)\n");
        return true;
    }
    if let Err(error) = from_utf8(text) {
        report.push("  ");
        report.push_spot_in(text, error.valid_up_to());
        report.push(": the bytes aren't UTF-8\n");
        return true;
    }
    false
}

/// Reports why the bytes aren't JSON, with the place; the reader's words if nothing else is found.
pub(crate) fn report_no_json(report: &mut Report, text: &[u8], error: &serde_json::Error) {
    if report_encoding(report, text) || report_output(report, text) {
        return;
    }
    report.push("  ");
    if let Err(mistake) = first_mistake(text) {
        report.push_spot_in(text, mistake.at);
        report.push(": ");
        report_mistake(report, text, &mistake);
        report.push("\n");
        return;
    }
    report.push_spot(error.line(), error.column());
    if writeln!(report.lines, ": {error}").is_err() {
        report.is_cut = true;
    }
}
