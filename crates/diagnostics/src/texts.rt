//! The explanation of a whole text.
use crate::checking::{check_line, check_scenario};
use crate::json_mistakes::report_no_json;
use crate::repeated::report_repeated;
use crate::report::Report;
use json::{Scratch, Value};
use std::alloc::{AllocError, Global};

/// The most bytes of a scenario's text, and of a step's.
const MAX_BYTES: usize = 4194304;

const MAX_STEP_BYTES: usize = 65536;

/// What a text should be.
#[derive(Clone, Copy, Debug)]
pub enum Source {
    /// A scenario.
    Scenario,
    /// A single step, in the line with this number.
    Line(usize),
}

/// Whether the text has more bytes than it may have; then that is reported.
fn is_too_long(report: &mut Report, text: &[u8]) -> bool {
    let most = if report.line.is_some() {
        MAX_STEP_BYTES
    } else {
        MAX_BYTES
    };
    if text.len() <= most {
        return false;
    }
    report.push("  ");
    if let Some(number) = report.line {
        report.push("line ");
        report.push_number(number);
    } else {
        report.push("the scenario");
    }
    report.push(" has more than ");
    report.push_number(most);
    report.push(" bytes\n");
    true
}

/// Reports the first mistakes of a text's value, and the keys that it has more than once.
fn report_value(report: &mut Report, value: &Value<'_>) {
    if report.line.is_some() {
        check_line(report, value);
    } else {
        check_scenario(report, value);
    }
    report.end_line();
    report_repeated(report, value);
}

/// Reports the mistakes of a text that is JSON.
fn report_json(report: &mut Report, text: &[u8]) {
    let mut scratch = Scratch::new(report.alloc);
    match Value::from_slice(report.alloc, text, &mut scratch) {
        Ok(value) => report_value(report, &value),
        Err(json::Error::OutOfMemory) => report.is_cut = true,
        Err(_) => {}
    }
}

fn report_text(report: &mut Report, text: &[u8]) {
    match serde_json::Value::from_slice(report.alloc, text).err() {
        None => report_json(report, text),
        Some(error) if error.is_memory() => report.is_cut = true,
        Some(error) => report_no_json(report, text, &error),
    }
}

/// Explains a text that should be a scenario or a step, in lines of their own: why it is refused, by the first check that
/// fails, for up to ten steps of a scenario, and which keys it has more than once. The explanation of a text without
/// mistakes is empty. An error means that no memory is left.
pub fn explain(alloc: Global, source: Source, text: &[u8]) -> Result<String, AllocError> {
    let mut report = Report::nothing(alloc, source);
    if !is_too_long(&mut report, text) {
        report_text(&mut report, text);
    }
    report.end()
}
