//! Numbers read from their texts.
ghost use Rattle.std.specs.Prelude.{◌≡◌, ◌<◌, ◌≤◌, ◌^◌, ◌==◌, true, false, Some, None, IfSome, IfOk, OnErr, IsTrue, is_some, option_and_then, slice_index, length};
ghost use Rattle.std.specs.Str.Parse.{AllDigits, digits_value};
ghost use Rattle.serde_json.specs.Find.{as_i64};
ghost use Rattle.serde_json.specs.Read.{number_of, number_from, float_of};

use fast_float::Numeral;
use json::Invalid;

fn has_minus(bytes: &[u8]) -> bool
    ensures { result ≡ (slice_index bytes.now 0 == 45) }
{
    bytes.first() == Some(&b'-')
}

fn is_finite(negative: bool, numeral: &Numeral<'_>) -> bool
    ensures { result ≡ is_some (float_of negative numeral.now) }
{
    numeral.to_float::<f64>(negative).is_finite()
}

fn unsigned(numeral: &Numeral<'_>) -> Option<i64>
    ensures { result ≡ option_and_then as_i64 (number_from false numeral.now) }
{
    numeral.to_i64(false)
}

/// Returns a whole number below 0. `-0` is not a whole number.
fn negative(numeral: &Numeral<'_>) -> Option<i64>
    ensures { result ≡ option_and_then as_i64 (number_from true numeral.now) }
{
    let number = numeral.to_i64(true)?;
    if number < 0 { Some(number) } else { None }
}

/// Returns whether a text begins with a minus, and the numeral after it.
#[tactic(auto, using(crate::proofs::NumberTexts::without_minus))]
fn scanned(text: &str) -> (bool, Numeral<'_>)
    ensures { number_from result.0 result.1 ≡ number_of text.now }
{
    let bytes = text.as_bytes();
    if has_minus(bytes) {
        (true, Numeral::scan(&bytes[1..]))
    } else {
        (false, Numeral::scan(bytes))
    }
}

fn unsigned_in_range(numeral: &Numeral<'_>) -> bool
    ensures { result ≡ is_some (number_from false numeral.now) }
{
    numeral.to_u64().is_some() || is_finite(false, numeral)
}

fn negative_in_range(numeral: &Numeral<'_>) -> bool
    ensures { result ≡ is_some (number_from true numeral.now) }
{
    negative(numeral).is_some() || is_finite(true, numeral)
}

/// Reads a number: a whole number that fits in `i64`, or `None` for another one that has a value.
#[tactic(auto, using(crate::proofs::NumberTexts::integer_is_number))]
pub(crate) fn number(text: &str) -> Result<Option<i64>, Invalid>
    ensures ok { IfOk result (λ z. (is_some (number_of text.now) ≡ true) × (z ≡ option_and_then as_i64 (number_of text.now))) }
    ensures invalid { OnErr result (number_of text.now ≡ None) }
{
    let (is_negative, numeral) = scanned(text);
    let (integer, is_in_range) = if is_negative {
        (negative(&numeral), negative_in_range(&numeral))
    } else {
        (unsigned(&numeral), unsigned_in_range(&numeral))
    };
    if is_in_range {
        Ok(integer)
    } else {
        Err(Invalid)
    }
}
