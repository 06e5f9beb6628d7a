//! Numbers and literals at a place of a text (RFC 8259, sections 3 and 6).
ghost use Rattle.std.specs.Prelude.{◌≡◌, ◌+◌, ◌<◌, ◌≤◌, ◌&&◌, length, drop, take, nat_eq, IfSome};
ghost use Rattle.std.specs.List.{prefix_len, starts_with};
ghost use Rattle.std.specs.Char.{digit_value, is_ascii_digit};
ghost use Rattle.std.specs.Str.Parse.{AllDigits, digits_value};
ghost use Rattle.json.specs.Run.{EndsAt};
ghost use Rattle.json.specs.Word.{ends_word, after_digits, after_exponent, after_fraction, after_minus, after_number, after_sign, after_whole};
ghost use Rattle.json_values.specs.Lexing.{AreDigits, IsWholeAt};

use crate::bytes::{byte_at, is_delimiter};

/// Returns where the digits from a place on end.
fn digits_end(bytes: &[u8], from: usize) -> usize
    requires { from ≤ length bytes.now }
    ensures { result ≡ from + prefix_len is_ascii_digit (drop from bytes.now) }
{
    let mut at = from;
    while at < bytes.len() && bytes[at].is_ascii_digit() {
        at += 1;
    }
    at
}

fn some_digits(bytes: &[u8], from: usize) -> Option<usize>
    requires { from ≤ length bytes.now }
    ensures { EndsAt bytes.now from result (after_digits (drop from bytes.now)) }
{
    let end = digits_end(bytes, from);
    if end == from { None } else { Some(end) }
}

fn minus_end(bytes: &[u8], from: usize) -> usize
    requires { from ≤ length bytes.now }
    ensures value { drop result bytes.now ≡ after_minus (drop from bytes.now) }
    ensures bounds { (from ≤ result) × (result ≤ length bytes.now) }
{
    if byte_at(bytes, from) == b'-' {
        from + 1
    } else {
        from
    }
}

fn sign_end(bytes: &[u8], from: usize) -> usize
    requires { from ≤ length bytes.now }
    ensures value { drop result bytes.now ≡ after_sign (drop from bytes.now) }
    ensures bounds { (from ≤ result) × (result ≤ length bytes.now) }
{
    let sign = byte_at(bytes, from);
    if (sign == b'-') | (sign == b'+') {
        from + 1
    } else {
        from
    }
}

fn whole(bytes: &[u8], from: usize) -> Option<usize>
    requires { from ≤ length bytes.now }
    ensures { EndsAt bytes.now from result (after_whole (drop from bytes.now)) }
{
    if byte_at(bytes, from) == b'0' {
        Some(from + 1)
    } else {
        some_digits(bytes, from)
    }
}

fn fraction(bytes: &[u8], from: usize) -> Option<usize>
    requires { from ≤ length bytes.now }
    ensures { EndsAt bytes.now from result (after_fraction (drop from bytes.now)) }
{
    if byte_at(bytes, from) == b'.' {
        some_digits(bytes, from + 1)
    } else {
        Some(from)
    }
}

fn exponent(bytes: &[u8], from: usize) -> Option<usize>
    requires { from ≤ length bytes.now }
    ensures { EndsAt bytes.now from result (after_exponent (drop from bytes.now)) }
{
    let letter = byte_at(bytes, from);
    if (letter == b'e') | (letter == b'E') {
        some_digits(bytes, sign_end(bytes, from + 1))
    } else {
        Some(from)
    }
}

/// Returns where the number at a place ends, if one is there.
#[tactic(auto, unfolding(json::specs::Word::after_number))]
pub(crate) fn number_end(bytes: &[u8], from: usize) -> Option<usize>
    requires { from ≤ length bytes.now }
    ensures { EndsAt bytes.now from result (after_number (drop from bytes.now)) }
{
    let point = whole(bytes, minus_end(bytes, from))?;
    let power = fraction(bytes, point)?;
    exponent(bytes, power)
}

/// Returns whether the word at a place is this literal.
pub(crate) fn is_literal(bytes: &[u8], from: usize, name: &[u8]) -> bool
    requires { from ≤ length bytes.now }
    ensures { result ≡ (starts_with nat_eq (drop from bytes.now) name.now && ends_word (drop (length name.now) (drop from bytes.now))) }
{
    let rest = &bytes[from..];
    rest.starts_with(name) && is_delimiter(byte_at(rest, name.len()))
}

/// Numbers with so many digits, or more, are read elsewhere.
const MANY_DIGITS: usize = 18;

/// Returns the value of a digit, or a greater number for any other byte.
#[inline(always)]
fn digit(byte: u8) -> u64
    ensures { result < 10 → digit_value byte ≡ result }
{
    u64::from(byte).wrapping_sub(u64::from(b'0'))
}

/// Returns the number that the digits at a place write, and how many of them there are, of at most `most`.
#[inline(always)]
fn digits(bytes: &[u8], from: usize, most: usize) -> (u64, usize)
    requires within { from + most ≤ length bytes.now }
    requires few { most ≤ 18 }
    ensures { (result.1 ≤ most) × AllDigits 10 (take result.1 (drop from bytes.now)) × (digits_value 10 (take result.1 (drop from bytes.now)) ≡ result.0) }
{
    let mut value = 0u64;
    let mut count = 0;
    while count < most {
        let digit = digit(bytes[from + count]);
        if digit >= 10 {
            break;
        }
        value = value * 10 + digit;
        count += 1;
    }
    (value, count)
}

/// Returns what `digits` does, of at most `MANY_DIGITS`.
#[inline(always)]
fn first_digits(bytes: &[u8], from: usize) -> (u64, usize)
    requires { from ≤ length bytes.now }
    ensures few { (result.1 ≤ 18) × (from + result.1 ≤ length bytes.now) }
    ensures value { AllDigits 10 (take result.1 (drop from bytes.now)) × (digits_value 10 (take result.1 (drop from bytes.now)) ≡ result.0) }
{
    let rest = bytes.len() - from;
    if rest < MANY_DIGITS {
        return digits(bytes, from, rest);
    }
    // a constant makes straight code of the loop
    digits(bytes, from, MANY_DIGITS)
}

/// Returns the number that the digits at a place write, and their end. `None` leaves it open: there are none, or many.
#[inline(always)]
fn few_digits(bytes: &[u8], from: usize) -> Option<(u64, usize)>
    requires { from ≤ length bytes.now }
    ensures { IfSome result (λ n. AreDigits bytes.now from n.1 n.0) }
{
    let (value, count) = first_digits(bytes, from);
    if count == 0 || count == MANY_DIGITS {
        return None;
    }
    Some((value, from + count))
}

/// Returns the whole number at a place, which has no sign, and where it ends, if it has few digits, as nearly all numbers
/// have. `None` leaves open what is there.
#[inline(always)]
pub(crate) fn short_number(bytes: &[u8], from: usize) -> Option<(u64, usize)>
    requires { from ≤ length bytes.now }
    ensures { IfSome result (λ n. IsWholeAt bytes.now from n.1 n.0) }
{
    let (value, end) = few_digits(bytes, from)?;
    let has_leading_zero = bytes[from] == b'0' && end != from + 1;
    if has_leading_zero || !is_delimiter(byte_at(bytes, end)) {
        return None;
    }
    Some((value, end))
}
