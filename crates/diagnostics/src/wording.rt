//! Mistakes in words, each after its place.
use crate::checking::{Member, chosen, has_key, keys_at, value_of};
use crate::confusions::{advise, advise_prefix};
use crate::format::{Key, Kind, LEVELS, Range, SIGNALS, Table};
use crate::nearness::Nearest;
use crate::report::Report;
use crate::tables::KEYS;
use json::Value;

fn push_range(report: &mut Report, range: Range) {
    report.push(" from ");
    report.push_number(range.least as usize);
    report.push(" to ");
    report.push_number(range.most as usize);
}

fn push_kind(report: &mut Report, kind: Kind) {
    match kind {
        Kind::Number(range) => {
            report.push("a whole number");
            push_range(report, range);
        }
        Kind::Whole => report.push("a whole number of 64 bits"),
        Kind::Numbers(range) => {
            report.push("an array with whole numbers");
            push_range(report, range);
        }
        Kind::Choice(table) | Kind::Name(table) => {
            report.push("the name of one of the ");
            report.push(table.word());
            report.push("s");
        }
        Kind::Names(table) => {
            report.push("an array with names of ");
            report.push(table.word());
            report.push("s");
        }
        Kind::Rules => report.push("an array of rules"),
        Kind::Steps => report.push("an array of steps"),
        Kind::Setting => report.push("0 or 1"),
    }
}

/// What a value is.
fn push_value(report: &mut Report, value: &Value<'_>) {
    match value {
        Value::Null => report.push("null"),
        Value::Bool(is_true) => report.push(if *is_true { "true" } else { "false" }),
        Value::Number(text) => report.push_shown(text),
        Value::String(text) => {
            report.push("\"");
            report.push_shown(text);
            report.push("\"");
        }
        Value::Array(_) => report.push("an array"),
        Value::Object(_) => report.push("an object"),
    }
}

/// The number of the signal with this name, in any case, with or without `SIG`.
fn signal_number(name: &str) -> Option<usize> {
    for index in 0..SIGNALS.len() {
        let signal = SIGNALS[index];
        let bare = signal.strip_prefix("SIG").unwrap_or(signal);
        if signal.eq_ignore_ascii_case(name) || bare.eq_ignore_ascii_case(name) {
            return Some(index + 1);
        }
    }
    None
}

/// What helps if a string is given for a number.
fn push_number_hint(report: &mut Report, text: &str) {
    if let Some(number) = signal_number(text) {
        report.push("; write ");
        report.push_number(number);
        report.push(" for ");
        report.push(text);
    } else if text.parse::<i64>().is_ok() {
        report.push("; numbers have no quotes");
    }
}

/// A value of another kind.
pub(crate) fn report_kind(report: &mut Report, kind: Kind, value: &Value<'_>) {
    report.push("expected ");
    push_kind(report, kind);
    report.push(", got ");
    push_value(report, value);
    if let (Kind::Number(_) | Kind::Whole, Value::String(text)) = (kind, value) {
        push_number_hint(report, text);
    }
}

/// Another value than an object; returns false.
pub(crate) fn report_no_object(report: &mut Report, value: &Value<'_>) -> bool {
    report.begin("", None);
    report.push("expected an object, got ");
    push_value(report, value);
    false
}

/// A number out of its range.
pub(crate) fn report_number(report: &mut Report, number: &str, range: Range) {
    report.push(number);
    report.push(" is out of range; expected a whole number");
    push_range(report, range);
}

pub(crate) fn report_too_many(report: &mut Report, count: usize, words: &str, most: usize) {
    report.push_number(count);
    report.push(words);
    report.push_number(most);
}

/// `first`, `second` and `last` in quotes.
fn push_item(report: &mut Report, index: usize, count: usize, name: &str) {
    if index > 0 {
        report.push(if index.saturating_add(1) == count {
            " and "
        } else {
            ", "
        });
    }
    report.push("\"");
    report.push(name);
    report.push("\"");
}

/// A name that isn't one of the table, and the names that are near, or all of them.
pub(crate) fn report_name(report: &mut Report, name: &str, table: Table) {
    report.push("\"");
    report.push_shown(name);
    report.push("\" is no ");
    report.push(table.word());
    if advise(report, name, table) {
        return;
    }
    let cases = table.cases();
    let mut nearest = Nearest::NONE;
    for case in cases {
        nearest.add(report, name, case.name());
    }
    if nearest.suggest(report) || advise_prefix(report, name, table) {
        return;
    }
    report.push("; the ");
    report.push(table.word());
    report.push("s are ");
    for index in 0..cases.len() {
        push_item(report, index, cases.len(), cases[index].name());
    }
}

/// The keys that an object may have, level by level.
type Levels = [&'static [Key]; LEVELS];

fn is_known(levels: &Levels, name: &str) -> bool {
    for keys in levels {
        if has_key(keys, name) {
            return true;
        }
    }
    false
}

/// The first key that isn't known.
fn unknown_key<'a>(members: &[Member<'a>], levels: &Levels) -> &'a str {
    for member in members {
        if !is_known(levels, member.0) {
            return member.0;
        }
    }
    ""
}

/// Adds those of the keys that are near.
fn add_keys(report: &mut Report, nearest: &mut Nearest, name: &str, keys: &[Key]) {
    for key in keys {
        nearest.add(report, name, key.name());
    }
}

/// The keys of one level, after `index` of `count`; returns the number of keys so far.
fn push_level(report: &mut Report, keys: &[Key], index: usize, count: usize) -> usize {
    let mut index = index;
    for key in keys {
        push_item(report, index, count, key.name());
        index = index.saturating_add(1);
    }
    index
}

/// All keys that are known.
fn push_keys(report: &mut Report, levels: &Levels) {
    let mut count = 0usize;
    for keys in levels {
        count = count.saturating_add(keys.len());
    }
    report.push("; its keys are ");
    let mut index = 0usize;
    for keys in levels {
        index = push_level(report, keys, index, count);
    }
}

/// The op, act, request or call that the keys of the last level belong to.
fn owner_of(members: &[Member<'_>], whole: &'static str, first: &'static [Key]) -> &'static str {
    let mut owner = whole;
    for level in 0..LEVELS {
        if let Some(case) = chosen(members, keys_at(members, first, level)) {
            owner = case.name();
        }
    }
    owner
}

/// A key that isn't known, and the known ones that are near, or all; returns false.
pub(crate) fn report_unknown(
    report: &mut Report,
    members: &[Member<'_>],
    whole: &'static str,
    first: &'static [Key],
) -> bool {
    let levels = [
        first,
        keys_at(members, first, 1),
        keys_at(members, first, 2),
        keys_at(members, first, 3),
    ];
    let name = unknown_key(members, &levels);
    report.begin("", None);
    report.push(owner_of(members, whole, first));
    report.push(" has no key \"");
    report.push_shown(name);
    report.push("\"");
    let mut nearest = Nearest::NONE;
    for keys in &levels {
        add_keys(report, &mut nearest, name, keys);
    }
    if !nearest.suggest(report) {
        push_keys(report, &levels);
    }
    false
}

/// The first key that belongs to nothing.
fn strange_key<'a>(members: &[Member<'a>]) -> Option<&'a str> {
    for member in members {
        if !KEYS.contains(&member.0) {
            return Some(member.0);
        }
    }
    None
}

/// A key that is missing, and the key that may have been meant for it.
pub(crate) fn report_missing(report: &mut Report, members: &[Member<'_>], key: &str) {
    report.begin("", None);
    report.push("the key \"");
    report.push(key);
    report.push("\" is missing");
    if key == "steps" && value_of(members, "op").is_some() {
        return report.push("; this is a step: put it into {\"steps\":[..]}, or use --lines");
    }
    if let Some(other) = strange_key(members) {
        let is_near = report.few_edits(other, key).is_some();
        report.push(if is_near {
            "; did you mean it by \""
        } else {
            "; there is no key \""
        });
        report.push_shown(other);
        report.push(if is_near { "\"?" } else { "\"" });
    }
}
