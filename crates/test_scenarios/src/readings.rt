//! What a text is read as, by the parser of scenarios and by `serde_json`.

use json::Invalid;
use json_values::{Opening, Scalar, Tokens, open_value, pass_value};
use scenario_runs::{Fault, parse};
use serde_json::Value;
use std::alloc::{AllocError, AllocFailed, Global};
use std::collections::BTreeMap;
use std::fmt;
use std::fmt::{Display, Formatter};
use test_kit::TestError;

/// How deep arrays and objects nest at most.
const MAX_DEPTH: usize = 127;

/// The data of a text, as far as a scenario may depend on it: whole numbers that fit `i64`, strings, arrays, and objects
/// by their keys, with the last value of each. All other values are the same.
#[derive(Debug, PartialEq, Drop)]
pub(crate) enum Reading {
    Value(String),
    NoValue,
}

/// The reason why a value isn't read.
#[derive(Debug, Drop)]
enum Unread {
    Memory,
    NoValue,
}

impl From<AllocError> for Unread {
    fn from(_refused: AllocError) -> Unread {
        Unread::Memory
    }
}

impl<T: Drop> From<AllocFailed<T>> for Unread {
    fn from(_refused: AllocFailed<T>) -> Unread {
        Unread::Memory
    }
}

impl From<Invalid> for Unread {
    fn from(_invalid: Invalid) -> Unread {
        Unread::NoValue
    }
}

impl Display for Reading {
    fn fmt<W: fmt::Write>(&self, f: &mut Formatter<W>) -> fmt::Result {
        match self {
            Reading::Value(data) => f.write_str(data.as_str()),
            Reading::NoValue => f.write_str("no value"),
        }
    }
}

/// Adds a string with its length, so that no two lists of strings have the same text.
fn push_text(out: &mut String, text: &str) -> Result<(), AllocError> {
    write!(out, "{}:{text} ", text.len())?;
    Ok(())
}

/// Adds the members of an object by their keys.
fn push_members(out: &mut String, members: &BTreeMap<String, String>) -> Result<(), AllocError> {
    out.push('{')?;
    for (key, data) in members.iter() {
        push_text(out, key.as_str())?;
        out.push_str(data.as_str())?;
    }
    out.push('}')
}

fn push_scalar(out: &mut String, scalar: Scalar<'_>) -> Result<(), AllocError> {
    match scalar {
        Scalar::Integer(number) => write!(out, "{number} ")?,
        Scalar::Text(text) => push_text(out, text)?,
        Scalar::Other => out.push_str("~ ")?,
    }
    Ok(())
}

/// Reads the next value as the parser of scenarios does.
fn our_data(alloc: Global, reader: &mut Tokens<'_>, depth: usize) -> Result<String, Unread> {
    let mut out = String::new(alloc);
    let opening = open_value(reader)?;
    if let Opening::Scalar(scalar) = opening {
        push_scalar(&mut out, scalar)?;
        return Ok(out);
    }
    if depth == 0 {
        return Err(Unread::NoValue);
    }
    if let Opening::Array = opening {
        out.push('[')?;
        for _ in 0..u64::MAX {
            if reader.take_end_array() {
                break;
            }
            let item = our_data(alloc, reader, depth - 1)?;
            out.push_str(item.as_str())?;
        }
        out.push(']')?;
        return Ok(out);
    }
    let mut members = BTreeMap::new(alloc);
    for _ in 0..u64::MAX {
        let Some(key) = reader.next_key()? else {
            break;
        };
        let key = String::from_str(alloc, key)?;
        let data = our_data(alloc, reader, depth - 1)?;
        members.insert(key, data)?;
    }
    push_members(&mut out, &members)?;
    Ok(out)
}

/// Reads the text as the parser of scenarios does.
fn our_text(alloc: Global, text: &str) -> Result<String, Unread> {
    let mut scratch = Vec::new(alloc);
    let mut reader = Tokens::new(text, &mut scratch)?;
    let data = our_data(alloc, &mut reader, MAX_DEPTH)?;
    match reader.next() {
        Some(_) => Err(Unread::NoValue),
        None => Ok(data),
    }
}

/// Returns whether the parser passes over the text as over one value.
fn is_passed(alloc: Global, text: &str) -> Result<bool, AllocError> {
    let mut scratch = Vec::new(alloc);
    let mut reader = Tokens::new(text, &mut scratch)?;
    Ok(pass_value(&mut reader, MAX_DEPTH).is_ok() && reader.next().is_none())
}

/// Returns the data of a value that `serde_json` has read.
fn their_data(alloc: Global, value: &Value, depth: usize) -> Result<String, Unread> {
    let mut out = String::new(alloc);
    match value {
        Value::Null | Value::Bool(_) => push_scalar(&mut out, Scalar::Other)?,
        Value::Number(number) => match number.as_i64() {
            Some(number) => push_scalar(&mut out, Scalar::Integer(number))?,
            None => push_scalar(&mut out, Scalar::Other)?,
        },
        Value::String(text) => push_text(&mut out, text.as_str())?,
        Value::Array(items) => {
            if depth == 0 {
                return Err(Unread::NoValue);
            }
            out.push('[')?;
            for item in items.iter() {
                out.push_str(their_data(alloc, item, depth - 1)?.as_str())?;
            }
            out.push(']')?;
        }
        Value::Object(map) => {
            if depth == 0 {
                return Err(Unread::NoValue);
            }
            let mut members = BTreeMap::new(alloc);
            for (key, item) in map.iter() {
                let data = their_data(alloc, item, depth - 1)?;
                members.insert(String::from_str(alloc, key.as_str())?, data)?;
            }
            push_members(&mut out, &members)?;
        }
    }
    Ok(out)
}

impl Reading {
    fn of(data: Result<String, Unread>) -> Result<Reading, TestError> {
        match data {
            Ok(data) => Ok(Reading::Value(data)),
            Err(Unread::NoValue) => Ok(Reading::NoValue),
            Err(Unread::Memory) => Err(TestError::Memory),
        }
    }

    /// Reads the text as the parser of scenarios does. The verdicts of its parts have to be those of `parse`.
    pub(crate) fn ours(alloc: Global, bytes: &[u8]) -> Result<Reading, TestError> {
        let is_json = !matches!(parse(alloc, bytes), Err(Fault::BadJson));
        let (reading, is_passed) = match str::from_utf8(bytes) {
            Ok(text) => (Reading::of(our_text(alloc, text))?, is_passed(alloc, text)?),
            Err(_) => (Reading::NoValue, false),
        };
        if reading.is_value() == is_json && is_passed == is_json {
            Ok(reading)
        } else {
            Err(TestError::Wrong("the parser has two verdicts on a text"))
        }
    }

    /// Reads the text by `serde_json`.
    pub(crate) fn theirs(alloc: Global, bytes: &[u8]) -> Result<Reading, TestError> {
        match Value::from_slice(alloc, bytes) {
            Ok(value) => Reading::of(their_data(alloc, &value, MAX_DEPTH + 1)),
            Err(error) if error.is_memory() => Err(TestError::Memory),
            Err(_) => Ok(Reading::NoValue),
        }
    }

    pub(crate) fn is_value(&self) -> bool {
        matches!(self, Reading::Value(_))
    }
}
