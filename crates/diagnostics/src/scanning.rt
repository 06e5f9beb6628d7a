//! Where a text stops being JSON.
use std::str::from_utf8;

/// What may come next.
#[derive(Clone, Copy)]
pub(crate) enum Wants {
    /// A value: at the start, or after a colon.
    Value,
    /// A value after a comma.
    Item,
    ItemOrEnd,
    /// A key after a comma.
    Key,
    KeyOrEnd,
    Colon,
    CommaOrBrace,
    CommaOrBracket,
    /// Nothing but white space.
    End,
}

/// What is wrong.
#[derive(Clone, Copy)]
pub(crate) enum Wrong {
    /// Another character than what may come.
    Other(Wants),
    /// A word that isn't a value; where it ends.
    Word(usize),
    /// A string without its closing quotes, or with a control character in it.
    Control,
    /// A backslash in a string, and a character that can't follow it.
    Escape,
    TooDeep,
    /// A number beyond what a double holds; where it ends.
    TooLarge(usize),
}

/// A mistake and its place: how many bytes come before it.
#[derive(Clone, Copy)]
pub(crate) struct JsonMistake {
    pub(crate) at: usize,
    pub(crate) wrong: Wrong,
    /// Where the innermost array or object, or the string, begins that isn't closed.
    pub(crate) opened: Option<usize>,
    /// Whether an object is around that array or object; none if nothing is.
    pub(crate) is_in_object: Option<bool>,
}

impl JsonMistake {
    /// A mistake for which it doesn't matter what is open.
    fn at(at: usize, wrong: Wrong) -> JsonMistake {
        JsonMistake {
            at,
            wrong,
            opened: None,
            is_in_object: None,
        }
    }
}

/// How deep arrays and objects may nest.
const MAX_DEPTH: usize = 127;

/// The arrays and objects that aren't closed yet.
#[derive(Drop)]
struct Open {
    depth: usize,
    begins: [usize; MAX_DEPTH],
    is_object: [bool; MAX_DEPTH],
}

impl Open {
    /// Opens one more; false if that is too deep.
    fn push(&mut self, at: usize, is_object: bool) -> bool {
        if self.depth >= MAX_DEPTH {
            return false;
        }
        self.begins[self.depth] = at;
        self.is_object[self.depth] = is_object;
        self.depth += 1;
        true
    }

    fn pop(&mut self) {
        self.depth = self.depth.saturating_sub(1);
    }

    /// Where the innermost begins.
    fn begin(&self) -> Option<usize> {
        self.begins.get(self.depth.checked_sub(1)?).copied()
    }

    /// Whether an object is around the innermost.
    fn is_in_object(&self) -> Option<bool> {
        self.is_object.get(self.depth.checked_sub(2)?).copied()
    }

    /// What may come after a value.
    fn after_value(&self) -> Wants {
        let Some(last) = self.depth.checked_sub(1) else {
            return Wants::End;
        };
        match self.is_object.get(last) {
            Some(true) => Wants::CommaOrBrace,
            _ => Wants::CommaOrBracket,
        }
    }
}

/// A walk over a text.
#[derive(Drop)]
struct Walk {
    open: Open,
    wants: Wants,
    /// Where the next token may begin.
    next: usize,
}

/// Where the string ends whose first character is at `from`, or what is wrong with it.
fn text_end(text: &[u8], from: usize) -> Result<usize, (usize, Wrong)> {
    let mut is_escaped = false;
    let mut digits = 0u8;
    for at in from..text.len() {
        let byte = text[at];
        if digits > 0 {
            if !byte.is_ascii_hexdigit() {
                return Err((at, Wrong::Escape));
            }
            digits -= 1;
        } else if is_escaped {
            if !b"\"\\/bfnrtu".contains(&byte) {
                return Err((at, Wrong::Escape));
            }
            digits = if byte == b'u' { 4 } else { 0 };
            is_escaped = false;
        } else if byte == b'"' {
            return Ok(at.saturating_add(1));
        } else if byte < 0x20 {
            return Err((at, Wrong::Control));
        } else {
            is_escaped = byte == b'\\';
        }
    }
    Err((text.len(), Wrong::Control))
}

/// Where the word ends that begins at `from`.
fn word_end(text: &[u8], from: usize) -> usize {
    for at in from..text.len() {
        if b" \t\n\r,:{}[]\"".contains(&text[at]) {
            return at;
        }
    }
    text.len()
}

/// The bytes from one place to another, which is a word of the text.
pub(crate) fn word_at(text: &[u8], begin: usize, end: usize) -> &str {
    from_utf8(text.get(begin..end).unwrap_or(&[])).unwrap_or("")
}

fn is_value(word: &str) -> bool {
    matches!(word, "true" | "false" | "null") || json::is_number(word)
}

fn is_too_large(word: &str) -> bool {
    match word.parse::<f64>() {
        Ok(number) => number.is_infinite(),
        Err(_) => false,
    }
}

impl Walk {
    fn new() -> Walk {
        Walk {
            open: Open {
                depth: 0,
                begins: [0; MAX_DEPTH],
                is_object: [false; MAX_DEPTH],
            },
            wants: Wants::Value,
            next: 0,
        }
    }

    fn wants_value(&self) -> bool {
        matches!(self.wants, Wants::Value | Wants::Item | Wants::ItemOrEnd)
    }

    fn other(&self, at: usize) -> JsonMistake {
        JsonMistake {
            at,
            wrong: Wrong::Other(self.wants),
            opened: self.open.begin(),
            is_in_object: self.open.is_in_object(),
        }
    }

    fn begin(&mut self, at: usize, is_object: bool) -> Result<(), JsonMistake> {
        if !self.wants_value() {
            return Err(self.other(at));
        }
        if !self.open.push(at, is_object) {
            return Err(JsonMistake::at(at, Wrong::TooDeep));
        }
        self.wants = if is_object {
            Wants::KeyOrEnd
        } else {
            Wants::ItemOrEnd
        };
        Ok(())
    }

    fn end(&mut self, at: usize, may_end: bool) -> Result<(), JsonMistake> {
        if !may_end {
            return Err(self.other(at));
        }
        self.open.pop();
        self.wants = self.open.after_value();
        Ok(())
    }

    fn comma(&mut self, at: usize) -> Result<(), JsonMistake> {
        self.wants = match self.wants {
            Wants::CommaOrBrace => Wants::Key,
            Wants::CommaOrBracket => Wants::Item,
            _ => return Err(self.other(at)),
        };
        Ok(())
    }

    fn colon(&mut self, at: usize) -> Result<(), JsonMistake> {
        if !matches!(self.wants, Wants::Colon) {
            return Err(self.other(at));
        }
        self.wants = Wants::Value;
        Ok(())
    }

    /// A string, which is a value or a key.
    fn quoted(&mut self, text: &[u8], at: usize) -> Result<(), JsonMistake> {
        let is_key = matches!(self.wants, Wants::Key | Wants::KeyOrEnd);
        if !is_key && !self.wants_value() {
            return Err(self.other(at));
        }
        match text_end(text, at.saturating_add(1)) {
            Ok(end) => self.next = end,
            Err((place, wrong)) => {
                return Err(JsonMistake {
                    at: place,
                    wrong,
                    opened: Some(at),
                    is_in_object: None,
                });
            }
        }
        self.wants = if is_key {
            Wants::Colon
        } else {
            self.open.after_value()
        };
        Ok(())
    }

    /// A number, or one of the three words.
    fn word(&mut self, text: &[u8], at: usize) -> Result<(), JsonMistake> {
        if !self.wants_value() {
            return Err(self.other(at));
        }
        let end = word_end(text, at);
        let word = word_at(text, at, end);
        if !is_value(word) {
            return Err(JsonMistake::at(at, Wrong::Word(end)));
        }
        if is_too_large(word) {
            return Err(JsonMistake::at(at, Wrong::TooLarge(end)));
        }
        self.next = end;
        self.wants = self.open.after_value();
        Ok(())
    }

    /// The token that begins with this byte.
    fn step(&mut self, text: &[u8], at: usize, byte: u8) -> Result<(), JsonMistake> {
        match byte {
            b' ' | b'\t' | b'\n' | b'\r' => Ok(()),
            b'{' => self.begin(at, true),
            b'[' => self.begin(at, false),
            b'}' => {
                let may_end = matches!(self.wants, Wants::KeyOrEnd | Wants::CommaOrBrace);
                self.end(at, may_end)
            }
            b']' => {
                let may_end = matches!(self.wants, Wants::ItemOrEnd | Wants::CommaOrBracket);
                self.end(at, may_end)
            }
            b',' => self.comma(at),
            b':' => self.colon(at),
            b'"' => self.quoted(text, at),
            _ => self.word(text, at),
        }
    }
}

/// The first mistake of the text; none if it is JSON.
pub(crate) fn first_mistake(text: &[u8]) -> Result<(), JsonMistake> {
    let mut walk = Walk::new();
    for (at, byte) in text.iter().enumerate() {
        if at >= walk.next {
            walk.step(text, at, *byte)?;
        }
    }
    match walk.wants {
        Wants::End => Ok(()),
        _ => Err(walk.other(text.len())),
    }
}
