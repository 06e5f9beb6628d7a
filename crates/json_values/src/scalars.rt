//! Values that are read without an allocation.
ghost use Rattle.std.specs.Prelude.{◌≡◌, ◌<◌, ℕ, None, Some, IfOk, IfSome, OnOk, OnErr, MatchOption, MatchResult, length};
ghost use Rattle.json.specs.Json.{value};
ghost use Rattle.serde_json.specs.Data.{Data};
ghost use Rattle.serde_json.specs.Read.{of_json, number_of, converted};
ghost use Rattle.json_values.specs.Reading.{IsNumber, IsScalar, Opens, Says, read_items, read_members, rest};

use crate::numbers::number;
use crate::tokens::Tokens;
use json::{Invalid, Token};

/// A value, as far as it is known without an allocation.
#[derive(Clone, Copy, Debug, Drop)]
pub enum Scalar<'a> {
    /// A whole number that fits in `i64`.
    Integer(i64),
    /// A string.
    Text(&'a str),
    /// Any other value.
    Other,
}

/// What comes first in a value.
#[derive(Clone, Copy, Debug, Drop)]
pub enum Opening<'a> {
    Array,
    Object,
    /// The whole value, which is no array and no object.
    Scalar(Scalar<'a>),
}

/// Reads a number, which must not be too large.
#[inline(always)]
fn number_scalar<'a>(text: &str) -> Result<Scalar<'a>, Invalid>
    ensures ok { IfOk result (λ s. IsNumber s (number_of text.now)) }
    ensures invalid { OnErr result (number_of text.now ≡ None) }
{
    match number(text)? {
        Some(number) => Ok(Scalar::Integer(number)),
        None => Ok(Scalar::Other),
    }
}

/// Takes a whole number of few digits or a string without escapes, as nearly all values are. `None` leaves open what comes
/// next.
#[inline(always)]
#[tactic(auto, using(crate::proofs::FirstTokens::first_tokens))]
pub fn common_scalar<'a>(reader: &mut Tokens<'a>) -> Option<Scalar<'a>>
    ensures scalar { MatchOption result (reader.new ≡ reader.old) (λ s. IsScalar s reader.old reader.new) }
    ensures shorter { IfSome result (λ _. length reader.new < length reader.old) }
{
    if let Some(text) = reader.next_text() {
        return Some(Scalar::Text(text));
    }
    let integer = reader.next_integer()?;
    Some(Scalar::Integer(integer))
}

/// Takes the bracket that opens an array, the brace that opens an object, or a whole value of another kind.
#[inline(always)]
#[tactic(auto, using(crate::proofs::FirstTokens::first_tokens))]
pub fn open_value<'a>(reader: &mut Tokens<'a>) -> Result<Opening<'a>, Invalid>
    ensures opened { IfOk result (λ opening. Opens opening reader.old reader.new) }
    ensures shorter { OnOk result (length reader.new < length reader.old) }
    ensures invalid { OnErr result ((depth : ℕ) → converted of_json (value depth reader.old) ≡ None) }
{
    if let Some(scalar) = common_scalar(reader) {
        return Ok(Opening::Scalar(scalar));
    }
    let token = reader.next().ok_or(Invalid)?;
    match token {
        Token::BeginArray => Ok(Opening::Array),
        Token::BeginObject => Ok(Opening::Object),
        Token::String(text) => Ok(Opening::Scalar(Scalar::Text(text))),
        Token::Number(text) => Ok(Opening::Scalar(number_scalar(text)?)),
        Token::Bool(_) | Token::Null => Ok(Opening::Scalar(Scalar::Other)),
        Token::EndObject | Token::EndArray | Token::Key(_) | Token::Bad => Err(Invalid),
    }
}

/// Does what `open_value` does, soonest if the value is an object.
#[inline(always)]
pub fn open_item<'a>(reader: &mut Tokens<'a>) -> Result<Opening<'a>, Invalid>
    ensures opened { IfOk result (λ opening. Opens opening reader.old reader.new) }
    ensures shorter { OnOk result (length reader.new < length reader.old) }
    ensures invalid { OnErr result ((depth : ℕ) → converted of_json (value depth reader.old) ≡ None) }
{
    if reader.take_begin_object() {
        return Ok(Opening::Object);
    }
    open_value(reader)
}

/// Reads the next value, and allocates nothing. Arrays and objects may nest `depth` deep. After an error the reader
/// is at some later token, or has no more tokens.
#[cycle(pass)]
#[inline(always)]
pub fn next_scalar<'a>(reader: &mut Tokens<'a>, depth: usize) -> Result<Scalar<'a>, Invalid>
    ensures ok { IfOk result (λ s. (d : Data) × (converted of_json (value depth reader.old) ≡ Some (d, reader.new)) × Says s d) }
    ensures shorter { OnOk result (length reader.new < length reader.old) }
    ensures invalid { OnErr result (converted of_json (value depth reader.old) ≡ None) }
{
    match common_scalar(reader) {
        Some(scalar) => Ok(scalar),
        None => uncommon_scalar(reader, depth),
    }
}

/// Does what `next_scalar` does, for any value.
#[cycle(pass)]
#[inline(never)]
#[tactic(auto, using(crate::proofs::FirstTokens::passed_over))]
fn uncommon_scalar<'a>(reader: &mut Tokens<'a>, depth: usize) -> Result<Scalar<'a>, Invalid>
    ensures ok { IfOk result (λ s. (d : Data) × (converted of_json (value depth reader.old) ≡ Some (d, reader.new)) × Says s d) }
    ensures shorter { OnOk result (length reader.new < length reader.old) }
    ensures invalid { OnErr result (converted of_json (value depth reader.old) ≡ None) }
{
    let opening = open_value(reader)?;
    match opening {
        Opening::Scalar(scalar) => Ok(scalar),
        Opening::Array => if depth == 0 {
            Err(Invalid)
        } else {
            pass_items(reader, depth - 1)?;
            Ok(Scalar::Other)
        },
        Opening::Object => if depth == 0 {
            Err(Invalid)
        } else {
            pass_members(reader, depth - 1)?;
            Ok(Scalar::Other)
        },
    }
}

/// Passes over the items of an array, and over its closing bracket.
#[cycle(pass)]
#[inline(never)]
#[tactic(auto, using(crate::proofs::Loops::items_passed))]
pub fn pass_items(reader: &mut Tokens<'_>, depth: usize) -> Result<(), Invalid>
    ensures value { MatchResult result (λ _. rest (read_items depth reader.old) ≡ Some reader.new) (λ _. read_items depth reader.old ≡ None) }
    ensures shorter { OnOk result (length reader.new < length reader.old) }
{
    while !reader.take_end_array() {
        next_scalar(reader, depth)?;
    }
    Ok(())
}

/// Passes over the members of an object, and over its closing brace.
#[cycle(pass)]
#[inline(never)]
#[tactic(auto, using(crate::proofs::Loops::members_passed))]
pub fn pass_members(reader: &mut Tokens<'_>, depth: usize) -> Result<(), Invalid>
    ensures value { MatchResult result (λ _. rest (read_members depth reader.old) ≡ Some reader.new) (λ _. read_members depth reader.old ≡ None) }
    ensures shorter { OnOk result (length reader.new < length reader.old) }
{
    while let Some(_) = reader.next_key()? {
        next_scalar(reader, depth)?;
    }
    Ok(())
}

/// Passes over the next value, and checks it as `serde_json` does. It allocates nothing. Arrays and objects may nest
/// `depth` deep.
#[inline(always)]
pub fn pass_value(reader: &mut Tokens<'_>, depth: usize) -> Result<(), Invalid>
    ensures ok { OnOk result ((d : Data) × (converted of_json (value depth reader.old) ≡ Some (d, reader.new))) }
    ensures shorter { OnOk result (length reader.new < length reader.old) }
    ensures invalid { OnErr result (converted of_json (value depth reader.old) ≡ None) }
{
    next_scalar(reader, depth).map(|_| ())
}
