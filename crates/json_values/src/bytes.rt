//! Where spaces, digits and plain text end.
ghost use Rattle.std.specs.Prelude.{◌≡◌, ◌+◌, ◌≤◌, ◌||◌, [], true, length, drop, take, get_or, map, zip};
ghost use Rattle.std.specs.List.{prefix_len};
ghost use Rattle.std.specs.Simd.Lanes.{mask_l};
ghost use Rattle.json.specs.Align.{is_blank};
ghost use Rattle.json.specs.Lex.{between, class, lex};
ghost use Rattle.json.specs.Run.{is_plain, is_stop};
ghost use Rattle.json.specs.Word.{head, is_operator, is_space};
ghost use Rattle.json_values.specs.Lexing.{differ, piece};

use std::simd::prelude::*;

/// Returns the byte at a place, or a space past the end.
#[inline(always)]
pub(crate) fn byte_at(bytes: &[u8], at: usize) -> u8
    ensures value { result ≡ get_or bytes.now at 32 }
    ensures head { result ≡ head (drop at bytes.now) }
{
    if at < bytes.len() { bytes[at] } else { b' ' }
}

/// Returns which of 16 bytes differ from others, as a bit for each.
#[inline(always)]
fn differences(bytes: u8x16, others: u8x16) -> u64
    ensures { result ≡ mask_l (map differ (zip bytes others)) }
{
    bytes.simd_ne(others).to_bitmask()
}

/// Does what `is_at` does, a byte at a time.
#[inline(never)]
fn is_at_slowly(bytes: &[u8], from: usize, front: &[u8; 16], count: usize) -> bool
    requires within { from ≤ length bytes.now }
    requires few { count ≤ 16 }
    ensures same { result ≡ true → piece bytes.now from (from + count) ≡ take count front.now }
    ensures bound { result ≡ true → from + count ≤ length bytes.now }
{
    if bytes.len() - from < count {
        return false;
    }
    let mut at = 0;
    while at < count {
        if bytes[from + at] != front[at] {
            return false;
        }
        at += 1;
    }
    true
}

/// Tests whether the bytes from a place on begin with the first `count` of these. Within a text all 16 are compared at
/// once.
#[inline(always)]
pub(crate) fn is_at(bytes: &[u8], from: usize, front: &[u8; 16], count: usize) -> bool
    requires within { from ≤ length bytes.now }
    requires few { count ≤ 16 }
    ensures same { result ≡ true → piece bytes.now from (from + count) ≡ take count front.now }
    ensures bound { result ≡ true → from + count ≤ length bytes.now }
{
    if bytes.len() - from < 16 {
        return is_at_slowly(bytes, from, front, count);
    }
    let others = differences(u8x16::from_slice(&bytes[from..]), u8x16::from_array(*front));
    others.trailing_zeros() as usize >= count
}

#[inline(always)]
pub(crate) fn is_space(byte: u8) -> bool
    ensures { result ≡ is_blank (class byte) }
{
    byte <= b' ' && matches!(byte, b' ' | b'\n' | b'\r' | b'\t')
}

/// Returns whether a byte ends a number or a literal before it.
#[inline(always)]
pub(crate) fn is_delimiter(byte: u8) -> bool
    ensures { result ≡ (is_operator byte || is_space byte) }
{
    matches!(
        byte,
        b',' | b'}' | b']' | b' ' | b'\n' | b'\r' | b'\t' | b':' | b'{' | b'['
    )
}

/// Returns the place behind the spaces at a place. Most tokens have no space behind them.
#[inline(always)]
pub(crate) fn spaces_end(bytes: &[u8], from: usize) -> usize
    requires { from ≤ length bytes.now }
    ensures same { lex between (drop result bytes.now) ≡ lex between (drop from bytes.now) }
    ensures ends { is_blank (class (head (drop result bytes.now))) ≡ true → drop result bytes.now ≡ [] }
    ensures bounds { (from ≤ result) × (result ≤ length bytes.now) }
{
    if from < bytes.len() && !is_space(bytes[from]) {
        return from;
    }
    spaces_end_slowly(bytes, from)
}

/// Does what `spaces_end` does, a byte at a time.
#[inline(never)]
fn spaces_end_slowly(bytes: &[u8], from: usize) -> usize
    requires { from ≤ length bytes.now }
    ensures same { lex between (drop result bytes.now) ≡ lex between (drop from bytes.now) }
    ensures ends { is_blank (class (head (drop result bytes.now))) ≡ true → drop result bytes.now ≡ [] }
    ensures bounds { (from ≤ result) × (result ≤ length bytes.now) }
{
    let mut at = from;
    while at < bytes.len() && is_space(bytes[at]) {
        at += 1;
    }
    at
}

/// Returns which of 16 bytes end the plain text of a string, as a bit for each.
#[inline(always)]
fn stops(bytes: u8x16) -> u64
    ensures { result ≡ mask_l (map is_stop bytes) }
{
    (bytes.simd_eq(u8x16::splat(b'"'))
        | bytes.simd_eq(u8x16::splat(b'\\'))
        | bytes.simd_lt(u8x16::splat(b' '))).to_bitmask()
}

/// Does what `plain_end` does, a byte at a time.
#[inline(never)]
fn plain_end_slowly(bytes: &[u8], from: usize) -> usize
    requires { from ≤ length bytes.now }
    ensures value { result ≡ from + prefix_len is_plain (drop from bytes.now) }
    ensures bound { result ≤ length bytes.now }
{
    let mut at = from;
    while at < bytes.len() && bytes[at] != b'"' && bytes[at] != b'\\' && bytes[at] >= b' ' {
        at += 1;
    }
    at
}

/// Returns where the plain text of a string ends: at a quote, a backslash, a control byte or the end. Most names end
/// within 16 bytes, which are looked at together.
#[inline(always)]
#[tactic(auto, using(crate::proofs::Runs::runs))]
pub(crate) fn plain_end(bytes: &[u8], from: usize) -> usize
    requires { from ≤ length bytes.now }
    ensures value { result ≡ from + prefix_len is_plain (drop from bytes.now) }
    ensures bound { result ≤ length bytes.now }
{
    if bytes.len() - from < 16 {
        return plain_end_slowly(bytes, from);
    }
    let found = stops(u8x16::from_slice(&bytes[from..]));
    if found == 0 {
        return plain_end_slowly(bytes, from + 16);
    }
    from + found.trailing_zeros() as usize
}
