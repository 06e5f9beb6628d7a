//! JSON texts by chance, with faults in half of them.

use std::alloc::{AllocError, Global};
use test_kit::Dice;

/// Values, and words that are none.
const SCALARS: [&str; 64] = [
    "0",
    "-0",
    "1",
    "-1",
    "7",
    "65",
    "1000",
    "1001",
    "4294967295",
    "4294967296",
    "9223372036854775807",
    "9223372036854775808",
    "-9223372036854775808",
    "-9223372036854775809",
    "18446744073709551615",
    "18446744073709551616",
    "123456789012345678",
    "1234567890123456789",
    "0.0",
    "-0.0",
    "1.0",
    "1.5e3",
    "1e3",
    "1E-3",
    "1e400",
    "-1e999",
    "1e-400",
    "0e0",
    "1.7976931348623157e308",
    "1.7976931348623159e308",
    "01",
    "+1",
    ".5",
    "1.",
    "1e",
    "1e+",
    "-",
    "--1",
    "0x10",
    "NaN",
    "Infinity",
    "true",
    "false",
    "null",
    "nul",
    "True",
    "\"\"",
    "\"a\"",
    "\"spawn\"",
    "\"\\u0073pawn\"",
    "\"\\\"\\\\\\/\\b\\f\\n\\r\\t\"",
    "\"\\ud83d\\ude00\"",
    "\"\\ud800\"",
    "\"\\udc00\\ud800\"",
    "\"\\u0000\"",
    "\"\\x\"",
    "\"\\u12g4\"",
    "\"\t\"",
    "\"\u{7f}é€😀\"",
    "\"a",
    "'a'",
    "\"a name of more than sixteen bytes\"",
    "\"sixteen bytes ..\"",
    "\"fifteen bytes .\\n\"",
];

const KEYS: [&str; 8] = [
    "\"a\"",
    "\"\\u0061\"",
    "\"b\"",
    "\"\"",
    "\"user\"",
    "\"a key of more than sixteen bytes\"",
    "a",
    "1",
];

const SPACES: [&str; 5] = [" ", "\n", "\t ", "\r\n", "\u{a0}"];

/// Bytes that are put into a text: marks, controls, and parts of UTF-8 that are none.
const BYTES: [&[u8]; 20] = [
    b"\"",
    b"\\",
    b"{",
    b"}",
    b"[",
    b"]",
    b",",
    b":",
    b"-",
    b"e",
    b"1",
    b"\x00",
    b"\x1f",
    b"\x7f",
    b"\xff",
    b"\xc0\x80",
    b"\xed\xa0\x80",
    b"\xef\xbb\xbf",
    b"\xc3",
    b"\xf4\x90\x80\x80",
];

/// A text that grows value by value.
#[derive(Drop)]
struct Draft {
    bytes: Vec<u8>,
    /// The brackets and braces that are open.
    open: Vec<u8>,
}

impl Draft {
    fn push(&mut self, text: &str) -> Result<(), AllocError> {
        self.bytes.extend_from_slice(text.as_bytes())?;
        Ok(())
    }

    fn space(&mut self, dice: &mut Dice) -> Result<(), AllocError> {
        if dice.below(8) == 0 {
            // JSON refuses the last one as a space
            let kinds = if dice.below(40) == 0 { 5 } else { 4 };
            let space = SPACES[dice.below(kinds) as usize];
            self.push(space)?;
        }
        Ok(())
    }

    /// Adds a key if the next value is a member's.
    fn key(&mut self, dice: &mut Dice) -> Result<(), AllocError> {
        if self.open.last() == Some(&b'{') {
            let kinds = if dice.below(20) == 0 { 8 } else { 6 };
            let key = KEYS[dice.below(kinds) as usize];
            self.push(key)?;
            self.space(dice)?;
            self.push(":")?;
            self.space(dice)?;
        }
        Ok(())
    }

    fn open(&mut self, dice: &mut Dice) -> Result<(), AllocError> {
        let bracket = dice.pick(&[b'[', b'{']);
        self.bytes.push(bracket)?;
        self.open.push(bracket)?;
        self.space(dice)
    }

    fn close(&mut self) -> Result<(), AllocError> {
        match self.open.pop() {
            Some(b'{') => self.push("}"),
            Some(_) => self.push("]"),
            None => Ok(()),
        }
    }

    fn scalar(&mut self, dice: &mut Dice) -> Result<(), AllocError> {
        let scalar = dice.pick(&SCALARS);
        self.push(scalar)
    }

    /// Adds a value, or a part of one, and returns whether it is whole.
    fn value(&mut self, dice: &mut Dice) -> Result<bool, AllocError> {
        self.key(dice)?;
        if dice.below(3) != 0 {
            self.scalar(dice)?;
            return Ok(true);
        }
        self.open(dice)?;
        let is_empty = dice.below(5) == 0;
        if is_empty {
            self.close()?;
        }
        Ok(is_empty)
    }
}

/// Returns a text in which all that opens is closed.
fn text_of_values(alloc: Global, dice: &mut Dice) -> Result<Vec<u8>, AllocError> {
    let mut draft = Draft {
        bytes: Vec::new(alloc),
        open: Vec::new(alloc),
    };
    for _ in 0..1 + dice.below(24) {
        if draft.value(dice)? {
            draft.space(dice)?;
            if dice.below(3) == 0 {
                draft.close()?;
            }
            if draft.open.is_empty() {
                break;
            }
            draft.push(",")?;
            draft.space(dice)?;
        }
    }
    if !draft.open.is_empty() {
        draft.key(dice)?;
        draft.scalar(dice)?;
    }
    for _ in 0..draft.open.len() {
        draft.close()?;
    }
    Ok(draft.bytes)
}

/// Returns arrays or objects in each other, about as many as may nest.
fn deep_text(alloc: Global, dice: &mut Dice) -> Result<Vec<u8>, AllocError> {
    let mut bytes = Vec::new(alloc);
    let (opening, closing) = if dice.below(2) == 0 {
        ("[", b']')
    } else {
        ("{\"a\":", b'}')
    };
    let depth = 124 + dice.below(8);
    for _ in 0..depth {
        bytes.extend_from_slice(opening.as_bytes())?;
    }
    if opening == "{\"a\":" || dice.below(2) == 0 {
        bytes.push(b'1')?;
    }
    for _ in 0..depth {
        bytes.push(closing)?;
    }
    Ok(bytes)
}

/// Returns the text with a change at one place.
fn changed(alloc: Global, dice: &mut Dice, text: &[u8]) -> Result<Vec<u8>, AllocError> {
    let most = text.len().min(65_535) as u32;
    let at = text.len().min(dice.below(1 + most) as usize);
    let end = text.len().min(at + 1 + dice.below(3) as usize);
    let mut bytes = Vec::new(alloc);
    bytes.extend_from_slice(&text[..at])?;
    match dice.below(5) {
        0 => return Ok(bytes),
        1 => {
            let piece = dice.pick(&BYTES);
            bytes.extend_from_slice(piece)?;
            bytes.extend_from_slice(&text[at..])?;
        }
        2 => bytes.extend_from_slice(&text[end..])?,
        3 => {
            bytes.push(dice.below(256) as u8)?;
            bytes.extend_from_slice(&text[end..])?;
        }
        _ => {
            bytes.extend_from_slice(&text[at..end])?;
            bytes.extend_from_slice(&text[at..])?;
        }
    }
    Ok(bytes)
}

/// Returns a text by chance.
pub(crate) fn text_by_chance(alloc: Global, dice: &mut Dice) -> Result<Vec<u8>, AllocError> {
    let text = if dice.below(50) == 0 {
        deep_text(alloc, dice)?
    } else {
        text_of_values(alloc, dice)?
    };
    if dice.below(3) == 0 {
        changed(alloc, dice, text.as_slice())
    } else {
        Ok(text)
    }
}
