//! The text of a string with escapes (RFC 8259, section 7), written to a buffer.
ghost use Rattle.std.specs.Prelude.{◌≡◌, ◌+◌, ◌<◌, ◌≤◌, ◌++◌, length, take, drop, get_or, true, None, Some, MatchOption, IfSome};
ghost use Rattle.std.specs.Char.{digit_value};
ghost use Rattle.std.specs.Str.{IsUtf8, IsCharBoundary};
ghost use Rattle.json.specs.Lex.{between, in_escape, in_string, lex};
ghost use Rattle.json.specs.Run.{Escape, is_plain};
ghost use Rattle.json.specs.Text.{code_unit, short_escape, content, plain, after_backslash, after_u, after_high};
ghost use Rattle.json_values.specs.Lexing.{PassesTo};

use crate::bytes::plain_end;

/// Writes bytes at a place of the buffer.
fn append(out: &mut [u8], at: usize, bytes: &[u8])
    requires { at + length bytes.now ≤ length out.old }
    ensures written { take (at + length bytes.now) out.new ≡ take at out.old ++ bytes.now }
    ensures len { length out.new ≡ length out.old }
{
    out[at..at + bytes.len()].copy_from_slice(bytes);
}

/// Returns the value of a digit or a letter, at most 35, or 36 if the byte is neither.
fn digit(byte: u8) -> u32
    ensures value { result ≡ digit_value byte }
    ensures ascii { result < 16 → byte < 128 }
    ensures plain { result < 16 → is_plain byte ≡ true }
{
    match byte {
        b'0'..=b'9' => u32::from(byte - b'0'),
        b'A'..=b'Z' => u32::from(byte - b'A') + 10,
        b'a'..=b'z' => u32::from(byte - b'a') + 10,
        _ => 36,
    }
}

/// Reads four hexadecimal digits at a place as a code unit.
fn code_unit(bytes: &[u8], at: usize) -> Option<u32>
    requires { at + 4 ≤ length bytes.now }
    ensures value { result ≡ code_unit (get_or bytes.now at 0) (get_or bytes.now (at + 1) 0) (get_or bytes.now (at + 2) 0) (get_or bytes.now (at + 3) 0) }
    ensures bounds { IfSome result (λ u. (u < 65536) × (get_or bytes.now (at + 3) 0 < 128)) }
    ensures passed { IfSome result (λ _. lex in_string (drop at bytes.now) ≡ lex in_string (drop (at + 4) bytes.now)) }
{
    let (a, b, c, d) = (
        digit(bytes[at]),
        digit(bytes[at + 1]),
        digit(bytes[at + 2]),
        digit(bytes[at + 3]),
    );
    if (a < 16) & (b < 16) & (c < 16) & (d < 16) {
        Some(a * 4096 + b * 256 + c * 16 + d)
    } else {
        None
    }
}

/// Returns the character that a backslash with this byte means. `\u` is read elsewhere.
#[tactic(auto, unfolding(json::specs::Text::short_escape))]
fn short_escape(byte: u8) -> Option<u8>
    ensures value { result ≡ short_escape byte }
    ensures ascii { IfSome result (λ c. (c < 128) × (byte < 128)) }
{
    match byte {
        b'"' | b'\\' | b'/' => Some(byte),
        b'b' => Some(8),
        b'f' => Some(12),
        b'n' => Some(b'\n'),
        b'r' => Some(b'\r'),
        b't' => Some(b'\t'),
        _ => None,
    }
}

/// Reads the second half of a surrogate pair at a place. Returns the pair's character, and the end of the half.
fn low_surrogate(bytes: &[u8], at: usize, high: u32) -> Option<(char, usize)>
    requires { (at ≤ length bytes.now) × (0xd800 ≤ high) × (high < 0xdc00) }
    ensures value { Escape bytes.now (after_high high) at result }
    ensures passed { PassesTo result (lex in_string (drop at bytes.now)) bytes.now }
{
    if bytes.len() - at < 6 || !((bytes[at] == b'\\') & (bytes[at + 1] == b'u')) {
        return None;
    }
    let low = code_unit(bytes, at + 2)?;
    if !((0xdc00 <= low) & (low < 0xe000)) {
        return None;
    }
    let c = char::from_u32(0x10000 + (high - 0xd800) * 1024 + (low - 0xdc00))?;
    Some((c, at + 6))
}

/// Reads the digits of a `\u` at a place. Returns its character, and the end of the escape.
fn unicode_escape(bytes: &[u8], at: usize) -> Option<(char, usize)>
    requires { at ≤ length bytes.now }
    ensures value { Escape bytes.now after_u at result }
    ensures passed { PassesTo result (lex in_string (drop at bytes.now)) bytes.now }
{
    if bytes.len() - at < 4 {
        return None;
    }
    let unit = code_unit(bytes, at)?;
    if (0xd800 <= unit) & (unit < 0xdc00) {
        return low_surrogate(bytes, at + 4, unit);
    }
    let c = char::from_u32(unit)?;
    Some((c, at + 4))
}

/// Reads an escape after its backslash. Returns its character, and its end.
fn escape(bytes: &[u8], at: usize) -> Option<(char, usize)>
    requires { at ≤ length bytes.now }
    ensures value { Escape bytes.now after_backslash at result }
    ensures passed { PassesTo result (lex in_escape (drop at bytes.now)) bytes.now }
{
    if at == bytes.len() {
        return None;
    }
    if bytes[at] == b'u' {
        return unicode_escape(bytes, at + 1);
    }
    let c = short_escape(bytes[at])?;
    Some((c as char, at + 1))
}

/// Reads a string after its opening quote, at `start`, and writes its text to the buffer. Returns the text's length,
/// and the place of the closing quote.
#[inline(never)]
pub(crate) fn unescape(text: &str, start: usize, out: &mut [u8]) -> Option<(usize, usize)>
    requires boundary { IsCharBoundary text.now start }
    requires room { length text.now ≤ length out.old + start }
    ensures value { MatchOption result (content plain (drop start text.now) ≡ None) (λ r. content plain (drop start text.now) ≡ Some (take r.0 out.new)) }
    ensures text { IfSome result (λ r. (r.0 ≤ length out.new) × IsUtf8 (take r.0 out.new)) }
    ensures bounds { IfSome result (λ r. (r.0 + start ≤ r.1) × (r.1 < length text.now)) }
    ensures passed { IfSome result (λ r. lex in_string (drop start text.now) ≡ lex between (drop (r.1 + 1) text.now)) }
    ensures len { length out.new ≡ length out.old }
{
    let bytes = text.as_bytes();
    let mut at = start;
    let mut len = 0;
    loop {
        let stop = plain_end(bytes, at);
        if stop == bytes.len() || bytes[stop] < b' ' {
            return None;
        }
        append(out, len, &bytes[at..stop]);
        len += stop - at;
        if bytes[stop] == b'"' {
            return Some((len, stop));
        }
        let (c, next) = escape(bytes, stop + 1)?;
        let mut buffer = [0; 4];
        let encoded = c.encode_utf8(&mut buffer);
        append(out, len, encoded.as_bytes());
        len += encoded.len();
        at = next;
    }
}
