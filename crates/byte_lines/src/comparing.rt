//! Compares two texts line by line.
ghost use Rattle.std.specs.Prelude.{◌≡◌, ◌==◌, ◌≤◌, ◌-◌, ◌↔◌, ◌++◌, None, length, option_map, position, slice_get, drop, IfSome};
ghost use Rattle.byte_lines.specs.FedLines.{line_length, lines_in, line_there};
ghost use Rattle.byte_lines.specs.Differences.{IsFirstDifference};

/// The first line at which a text differs from the expected one. A line includes its line feed. Only a text's last line
/// may lack one.
#[derive(Clone, Copy, Debug, PartialEq, Eq)]
pub struct Difference<'a> {
    /// The number of the line, from 1.
    pub line: usize,
    /// The expected line; `None` after the last one.
    pub expected: Option<&'a [u8]>,
    /// The line in its place; `None` after the last one.
    pub got: Option<&'a [u8]>,
}

/// Returns the index of the first line feed of the text.
fn feed_at(text: &[u8]) -> Option<usize>
    ensures { result ≡ position (λ byte. byte == 10) text.now }
{
    text.iter().position(|byte| *byte == b'\n')
}

/// Returns the length of the first line of the text.
#[tactic(auto, using(crate::proofs::FedLineLemmas::first_line))]
fn line_length(text: &[u8]) -> usize
    ensures { result ≡ line_length text.now }
{
    match feed_at(text) {
        Some(before) => before + 1,
        None => text.len(),
    }
}

/// Returns the first line of the text, and the rest of the text. Both are empty if the text is.
#[tactic(auto, using(crate::proofs::FedLineLemmas::first_line))]
fn split_line(text: &[u8]) -> (&[u8], &[u8])
    ensures text { result.0.now ++ result.1.now ≡ text.now }
    ensures line { slice_get (lines_in text.now) 0 ≡ line_there result.0.now }
    ensures rest { drop 1 (lines_in text.now) ≡ lines_in result.1.now }
    ensures shorter { length result.1.now ≤ length text.now - 1 }
{
    text.split_at(line_length(text))
}

/// Returns a line that was split off; `None` if the text had ended.
fn line_there(line: &[u8]) -> Option<&[u8]>
    ensures { option_map (λ l. l.now) result ≡ line_there line.now }
{
    if line.is_empty() { None } else { Some(line) }
}

/// Returns the first line at which `got` differs from `expected`; `None` if the texts are equal.
pub fn first_difference<'a>(expected: &'a [u8], got: &'a [u8]) -> Option<Difference<'a>>
    ensures same { (result ≡ None) ↔ (expected.now ≡ got.now) }
    ensures first { IfSome result (λ d. IsFirstDifference (lines_in expected.now) (lines_in got.now) d) }
{
    let mut expected_rest = expected;
    let mut got_rest = got;
    let mut line = 1;
    while !expected_rest.is_empty() || !got_rest.is_empty() {
        let (expected_line, expected_behind) = split_line(expected_rest);
        let (got_line, got_behind) = split_line(got_rest);
        if expected_line != got_line {
            return Some(Difference {
                line,
                expected: line_there(expected_line),
                got: line_there(got_line),
            });
        }
        expected_rest = expected_behind;
        got_rest = got_behind;
        line += 1;
    }
    None
}
