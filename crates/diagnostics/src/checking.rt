//! The first mistakes of a scenario or a step, in the order in which they are checked. Each check returns whether all is
//! well, and has reported what is wrong if it isn't.
use crate::format::{
    Case, Key, Kind, LEVELS, MAX_RULES, MAX_STEPS, Range, SCENARIO, SETTING, SETTING_KEY,
};
use crate::report::Report;
use crate::tables::{RULE, STEP};
use crate::wording::{
    report_kind, report_missing, report_name, report_no_object, report_number, report_too_many,
    report_unknown,
};
use crate::wrong_inputs::{is_output, report_is_output};
use json::Value;

/// The most steps with mistakes that are reported.
const MAX_REPORTED: usize = 10;

/// A key of an object, and its value.
pub(crate) type Member<'a> = (&'a str, Value<'a>);

/// The value of the last member with this key, which is the one that counts.
pub(crate) fn value_of<'m, 'a>(members: &'m [Member<'a>], key: &str) -> Option<&'m Value<'a>> {
    let mut found = None;
    for member in members {
        if member.0 == key {
            found = Some(&member.1);
        }
    }
    found
}

/// Whether the text is a whole number of 64 bits.
fn is_whole(text: &str) -> bool {
    text != "-0" && text.parse::<i64>().is_ok()
}

/// Whether the whole number is in the range.
fn is_in(text: &str, range: Range) -> bool {
    match text.parse::<u32>() {
        Ok(number) => range.least <= number && number <= range.most,
        Err(_) => false,
    }
}

/// A number or a name, which is the value of a key or an item of it.
fn check_one(
    report: &mut Report,
    value: &Value<'_>,
    key: &str,
    item: Option<usize>,
    kind: Kind,
) -> bool {
    match (kind, value) {
        (Kind::Whole | Kind::Setting, Value::Number(text)) if is_whole(text) => return true,
        (Kind::Number(range), Value::Number(text)) if is_whole(text) => {
            if is_in(text, range) {
                return true;
            }
            report.begin(key, item);
            report_number(report, text, range);
        }
        (Kind::Choice(table) | Kind::Name(table), Value::String(name)) => {
            if table.find(name).is_some() {
                return true;
            }
            report.begin(key, item);
            report_name(report, name, table);
        }
        _ => {
            report.begin(key, item);
            report_kind(report, kind, value);
        }
    }
    false
}

fn check_items(report: &mut Report, items: &[Value<'_>], key: &str, kind: Kind) -> bool {
    for index in 0..items.len() {
        if !check_one(report, &items[index], key, Some(index), kind) {
            return false;
        }
    }
    true
}

/// At most so many rules. The rules themselves are checked after the other keys.
fn check_few_rules(report: &mut Report, count: usize, key: &str) -> bool {
    if count <= MAX_RULES {
        return true;
    }
    report.begin(key, None);
    report_too_many(report, count, " rules; a policy has at most ", MAX_RULES);
    false
}

/// The value of a key.
fn check_value(report: &mut Report, value: &Value<'_>, key: &str, kind: Kind) -> bool {
    match (kind, value) {
        (Kind::Names(table), Value::Array(items)) => {
            check_items(report, items.as_slice(), key, Kind::Name(table))
        }
        (Kind::Numbers(range), Value::Array(items)) => {
            check_items(report, items.as_slice(), key, Kind::Number(range))
        }
        (Kind::Rules, Value::Array(items)) => check_few_rules(report, items.len(), key),
        (Kind::Steps, Value::Array(_)) => true,
        _ => check_one(report, value, key, None, kind),
    }
}

/// The keys of one level, one by one.
fn check_keys(report: &mut Report, members: &[Member<'_>], keys: &[Key]) -> bool {
    for key in keys {
        let name = key.name();
        if let Some(value) = value_of(members, name) {
            if !check_value(report, value, name, key.kind()) {
                return false;
            }
        } else if key.is_needed() {
            report_missing(report, members, name);
            return false;
        }
    }
    true
}

/// The entry of the name that decides which keys come after those of one level.
pub(crate) fn chosen(members: &[Member<'_>], keys: &[Key]) -> Option<&'static Case> {
    for key in keys {
        if let Kind::Choice(table) = key.kind() {
            if let Some(Value::String(name)) = value_of(members, key.name()) {
                return table.find(name);
            }
        }
    }
    None
}

/// The keys that belong to the names of an object, which begin with the first ones: those of one level.
pub(crate) fn keys_at(
    members: &[Member<'_>],
    first: &'static [Key],
    level: usize,
) -> &'static [Key] {
    let mut keys = first;
    for _ in 0..level {
        match chosen(members, keys) {
            Some(case) => keys = case.keys(),
            None => return &[],
        }
    }
    keys
}

pub(crate) fn has_key(keys: &[Key], name: &str) -> bool {
    for key in keys {
        if key.name() == name {
            return true;
        }
    }
    false
}

/// How many members have one of the keys.
fn count_known(members: &[Member<'_>], keys: &[Key]) -> usize {
    let mut count = 0usize;
    for member in members {
        if has_key(keys, member.0) {
            count = count.saturating_add(1);
        }
    }
    count
}

/// The keys that belong to an object, level by level; how many members have one of them, if all is well.
fn check_levels(
    report: &mut Report,
    members: &[Member<'_>],
    first: &'static [Key],
) -> Option<usize> {
    let mut keys = first;
    let mut count = 0usize;
    for _ in 0..LEVELS {
        if !check_keys(report, members, keys) {
            return None;
        }
        count = count.saturating_add(count_known(members, keys));
        match chosen(members, keys) {
            Some(case) => keys = case.keys(),
            None => break,
        }
    }
    Some(count)
}

fn check_rule(report: &mut Report, rule: &Value<'_>) -> bool {
    let Value::Object(members) = rule else {
        return report_no_object(report, rule);
    };
    let members = members.as_slice();
    match check_levels(report, members, &RULE) {
        Some(known) => known == members.len() || report_unknown(report, members, "a rule", &RULE),
        None => false,
    }
}

fn check_rules(report: &mut Report, members: &[Member<'_>]) -> bool {
    if let Some(Value::Array(rules)) = value_of(members, "rules") {
        let rules = rules.as_slice();
        for index in 0..rules.len() {
            report.rule = Some(index);
            if !check_rule(report, &rules[index]) {
                return false;
            }
        }
        report.rule = None;
    }
    true
}

/// A step of a scenario, or of a line.
fn check_step(report: &mut Report, step: &Value<'_>) -> bool {
    let Value::Object(members) = step else {
        return report_no_object(report, step);
    };
    let members = members.as_slice();
    let Some(known) = check_levels(report, members, &STEP) else {
        return false;
    };
    if has_key(keys_at(members, &STEP, 1), "rules") && !check_rules(report, members) {
        return false;
    }
    known == members.len() || report_unknown(report, members, "a step", &STEP)
}

/// The setting is 0 or 1, if it is there.
fn check_setting(report: &mut Report, members: &[Member<'_>]) -> bool {
    match value_of(members, SETTING_KEY) {
        Some(value) => check_one(report, value, SETTING_KEY, None, Kind::Number(SETTING)),
        None => true,
    }
}

/// The steps, in order.
fn check_steps(report: &mut Report, members: &[Member<'_>]) -> bool {
    let Some(Value::Array(steps)) = value_of(members, "steps") else {
        return true;
    };
    let steps = steps.as_slice();
    if steps.len() > MAX_STEPS {
        report.begin("steps", None);
        report_too_many(
            report,
            steps.len(),
            " steps; a scenario has at most ",
            MAX_STEPS,
        );
        return false;
    }
    check_each(report, steps)
}

/// Each step. Several mistakes are reported, one a step.
fn check_each(report: &mut Report, steps: &[Value<'_>]) -> bool {
    let mut wrong = 0usize;
    for index in 0..steps.len() {
        report.step = Some(index);
        report.rule = None;
        if wrong < MAX_REPORTED && !check_step(report, &steps[index]) {
            wrong = wrong.saturating_add(1);
        }
    }
    wrong == 0
}

/// A step that is a line of its own.
pub(crate) fn check_line(report: &mut Report, step: &Value<'_>) -> bool {
    if let Value::Object(members) = step {
        let members = members.as_slice();
        if is_output(members) {
            report_is_output(report);
            return false;
        }
        if value_of(members, "steps").is_some() {
            report.begin("", None);
            report.push("this is a scenario; leave out --lines");
            return false;
        }
    }
    check_step(report, step)
}

pub(crate) fn check_scenario(report: &mut Report, scenario: &Value<'_>) -> bool {
    let Value::Object(members) = scenario else {
        return report_no_object(report, scenario);
    };
    let members = members.as_slice();
    if is_output(members) {
        report_is_output(report);
        return false;
    }
    let Some(known) = check_levels(report, members, &SCENARIO) else {
        return false;
    };
    if known < members.len() {
        return report_unknown(report, members, "it", &SCENARIO);
    }
    check_setting(report, members) && check_steps(report, members)
}
