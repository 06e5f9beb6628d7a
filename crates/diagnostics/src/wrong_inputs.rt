//! Inputs of another kind than is expected: UTF-16, tracehost's own output, a scenario for a step, or steps for a scenario.
use crate::checking::{Member, value_of};
use crate::report::Report;
use crate::scanning::Wants;
use json::{Scratch, Value};
use std::str::from_utf8;

/// Whether the bytes begin as UTF-16 does, with a byte order mark or without one.
pub(crate) fn is_utf_16(text: &[u8]) -> bool {
    match (text.first(), text.get(1)) {
        (Some(0xff), Some(0xfe)) | (Some(0xfe), Some(0xff)) => true,
        (Some(first), Some(second)) => (*first == 0) != (*second == 0),
        _ => false,
    }
}

/// Whether the members are those of a line that `--json` prints.
pub(crate) fn is_output(members: &[Member<'_>]) -> bool {
    let is_reply = value_of(members, "reply").is_some() && value_of(members, "step").is_some();
    is_reply || value_of(members, "refused").is_some()
}

/// Whether the line is a reply in words, or the answer to a line that is refused.
fn is_reply(line: &str) -> bool {
    let mut words = line.split(' ');
    let (Some(user), Some(step)) = (words.next(), words.next()) else {
        return false;
    };
    let Some(reply) = words.next() else {
        return user == "refused" && step.starts_with("Bad");
    };
    let begins_well = match reply.chars().next() {
        Some(letter) => letter.is_ascii_lowercase(),
        None => false,
    };
    begins_well && user.parse::<u32>().is_ok() && step.parse::<u64>().is_ok()
}

/// What a text in JSON is.
#[derive(Clone, Copy)]
enum Kind {
    Step,
    Output,
    Other,
}

fn kind_of(report: &mut Report, text: &[u8]) -> Kind {
    let mut scratch = Scratch::new(report.alloc);
    match Value::from_slice(report.alloc, text, &mut scratch) {
        Ok(Value::Object(members)) => {
            let members = members.as_slice();
            if is_output(members) {
                Kind::Output
            } else if value_of(members, "op").is_some() {
                Kind::Step
            } else {
                Kind::Other
            }
        }
        Ok(_) => Kind::Other,
        Err(json::Error::OutOfMemory) => {
            report.is_cut = true;
            Kind::Other
        }
        Err(_) => Kind::Other,
    }
}

/// The text's first line.
fn first_line(text: &[u8]) -> &[u8] {
    let mut end = 0usize;
    for byte in text {
        if *byte == b'\n' {
            break;
        }
        end = end.saturating_add(1);
    }
    text.get(..end).unwrap_or(text)
}

/// Reports that the input is tracehost's own output.
pub(crate) fn report_is_output(report: &mut Report) {
    let number = report.line.unwrap_or(1);
    let remedy = if report.line.is_some() {
        "send the step that it answers\n"
    } else {
        "run the scenario that it came from\n"
    };
    report.push("  line ");
    report.push_number(number);
    report.push(": this is a line that tracehost printed; ");
    report.push(remedy);
}

/// Reports that a text that isn't JSON is tracehost's own output; false if it isn't that.
pub(crate) fn report_output(report: &mut Report, text: &[u8]) -> bool {
    let line = first_line(text);
    let is_printed = match from_utf8(line) {
        Ok(words) => is_reply(words.trim_end()),
        Err(_) => false,
    };
    if is_printed || matches!(kind_of(report, line), Kind::Output) {
        report_is_output(report);
        return true;
    }
    false
}

/// What is said if lines are read, and a scenario is given.
fn line_hint(line: &str, wants: Wants, got: Option<&u8>) -> &'static str {
    let rest = line.strip_prefix('{').unwrap_or(line);
    if rest.trim_start().starts_with("\"steps\"") {
        return "; this begins a scenario: leave out --lines";
    }
    match (line, wants, got) {
        ("{" | "[" | "]" | "}" | "]}" | "]," | "},", _, _) => {
            "; a step is one line: to run a scenario leave out --lines"
        }
        (_, Wants::End, Some(b',')) => "; the line of a step ends without a comma",
        _ => "",
    }
}

/// What helps if steps are given for a scenario, or a scenario for steps.
pub(crate) fn push_mode(report: &mut Report, text: &[u8], at: usize, wants: Wants) {
    if report.line.is_some() {
        let line = from_utf8(text).unwrap_or("").trim();
        return report.push(line_hint(line, wants, text.get(at)));
    }
    let before = text.get(..at).unwrap_or(text);
    if matches!(wants, Wants::End) && matches!(kind_of(report, before), Kind::Step) {
        report.push("; to run steps line by line use --lines");
    }
}
