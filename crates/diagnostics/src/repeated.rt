//! Keys that an object has more than once. The last one counts.
use crate::checking::{Member, value_of};
use crate::report::Report;
use crate::tables::KEYS;
use json::Value;

/// The most keys that are reported.
const MAX_REPORTED: usize = 10;

fn count_of(members: &[Member<'_>], key: &str) -> usize {
    let mut count = 0usize;
    for member in members {
        if member.0 == key {
            count = count.saturating_add(1);
        }
    }
    count
}

fn report_times(report: &mut Report, key: &str, times: usize) {
    report.begin("", None);
    report.push("the key \"");
    report.push(key);
    if times == 2 {
        report.push("\" is given twice; the last one counts\n");
    } else {
        report.push("\" is given ");
        report.push_number(times);
        report.push(" times; the last one counts\n");
    }
}

/// Reports those of an object, after `before` others, and returns the number so far.
fn report_members(report: &mut Report, members: &[Member<'_>], before: usize) -> usize {
    let mut found = before;
    for key in KEYS {
        let times = count_of(members, key);
        if times > 1 {
            if found < MAX_REPORTED {
                report_times(report, key, times);
            }
            found = found.saturating_add(1);
        }
    }
    found
}

fn report_rules(report: &mut Report, members: &[Member<'_>], before: usize) -> usize {
    let Some(Value::Array(rules)) = value_of(members, "rules") else {
        return before;
    };
    let mut found = before;
    let rules = rules.as_slice();
    for index in 0..rules.len() {
        if let Value::Object(members) = &rules[index] {
            report.rule = Some(index);
            found = report_members(report, members.as_slice(), found);
        }
    }
    report.rule = None;
    found
}

fn report_step(report: &mut Report, step: &Value<'_>, before: usize) -> usize {
    let Value::Object(members) = step else {
        return before;
    };
    let found = report_members(report, members.as_slice(), before);
    report_rules(report, members.as_slice(), found)
}

fn report_scenario(report: &mut Report, scenario: &Value<'_>) -> usize {
    let Value::Object(members) = scenario else {
        return 0;
    };
    let mut found = report_members(report, members.as_slice(), 0);
    if let Some(Value::Array(steps)) = value_of(members.as_slice(), "steps") {
        let steps = steps.as_slice();
        for index in 0..steps.len() {
            report.step = Some(index);
            found = report_step(report, &steps[index], found);
        }
    }
    found
}

/// Reports those of a scenario, or of a single step.
pub(crate) fn report_repeated(report: &mut Report, value: &Value<'_>) {
    report.step = None;
    report.rule = None;
    let found = if report.line.is_some() {
        report_step(report, value, 0)
    } else {
        report_scenario(report, value)
    };
    if found > MAX_REPORTED {
        report.push("  ");
        report.push_number(found.saturating_sub(MAX_REPORTED));
        report.push(" more keys are given more than once\n");
    }
}
