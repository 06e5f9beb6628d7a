//! The lexemes of a text, each read in its place.
ghost use Rattle.std.specs.Prelude.{◌≡◌, ◌<◌, ◌≤◌, ◌∷◌, ℕ, List, [], length, drop, true, false, Some, None, IfSome, MatchOption, option_and_then, get_or};
ghost use Rattle.json.specs.Align.{is_blank, is_good};
ghost use Rattle.json.specs.Lex.{token, colon, operator, other, class, begins_colon, between, lex};
ghost use Rattle.json.specs.Run.{is_plain};
ghost use Rattle.std.specs.Bool.{MatchBool};
ghost use Rattle.std.specs.List.{prefix_len};
ghost use Rattle.json.specs.Reads.{token_of};
ghost use Rattle.json.specs.Text.{content, plain};
ghost use Rattle.json.specs.Token.{number};
ghost use Rattle.json.specs.Word.{after_number, head, literal, number_before, word};
ghost use Rattle.serde_json.specs.Find.{as_i64};
ghost use Rattle.serde_json.specs.Read.{number_of};
ghost use Rattle.json_values.specs.Lexing.{HasRoom, IsWritten, LiteralOf};

use crate::bytes::{byte_at, is_at, is_delimiter, plain_end, spaces_end};
use crate::escapes::unescape;
use crate::words::{is_literal, number_end, short_number};
use json::Token;
use std::marker::Model;

/// A text. A clause sees it from the next lexeme on.
#[derive(Drop)]
pub(crate) struct Lexer<'a> {
    text: &'a str,
    at: usize,
    /// Where strings with escapes go. If the text has any, it is as long as what is left of the text.
    scratch: &'a mut [u8],
}

impl<'a> Model for Lexer<'a> {
    ghost use Rattle.std.specs.Prelude.{ℕ, List, drop};
    ghost use Rattle.json_values.specs.Lexing.{IsLexer};

    ghost Value = { List ℕ };

    ghost view = { λ a. drop a.at a.text.now };

    ghost invariant = { IsLexer };
}

impl<'a> Lexer<'a> {
    pub(crate) fn new(text: &'a str, scratch: &'a mut [u8]) -> Lexer<'a>
        requires { HasRoom text.now (length scratch.old) }
        ensures { lex between result ≡ lex between text.now }
    {
        let at = spaces_end(text.as_bytes(), 0);
        Lexer { text, at, scratch }
    }

    /// Returns the first byte of the next lexeme, or a space at the end.
    #[inline(always)]
    pub(crate) fn peek(&self) -> u8
        ensures value { result ≡ head self.now }
        ensures end { is_blank (class result) ≡ true → self.now ≡ [] }
    {
        byte_at(self.text.as_bytes(), self.at)
    }

    /// Passes over a comma, a colon, a bracket or a brace.
    #[inline(always)]
    #[tactic(auto, using(crate::proofs::Texts::past_operator))]
    pub(crate) fn skip(&mut self)
        requires { class (head self.old) ≡ operator }
        ensures { lex between self.new ≡ drop 1 (lex between self.old) }
    {
        self.at = spaces_end(self.text.as_bytes(), self.at + 1);
    }

    /// Takes a string, or returns `None` if it is none.
    #[inline(always)]
    #[tactic(auto, using(crate::proofs::Texts::strings_read))]
    pub(crate) fn string(&mut self) -> Option<&'a str>
        requires { head self.old ≡ 34 }
        ensures value { MatchOption result (content plain (drop 1 self.old) ≡ None) (λ s. content plain (drop 1 self.old) ≡ Some s.now) }
        ensures after { IfSome result (λ _. lex between self.new ≡ drop 1 (lex between self.old)) }
    {
        let text = self.text;
        let start = self.at + 1;
        let stop = plain_end(text.as_bytes(), start);
        match byte_at(text.as_bytes(), stop) {
            b'"' => {
                self.at = spaces_end(text.as_bytes(), stop + 1);
                Some(&text[start..stop])
            }
            b'\\' => self.escaped_string(),
            _ => None,
        }
    }

    /// Takes this string with a colon behind it, if they come next as they are: `written` begins with its quotes and the
    /// colon.
    #[inline(always)]
    pub(crate) fn key(&mut self, name: &str, written: &[u8; 16]) -> bool
        requires plain { prefix_len is_plain name.now ≡ length name.now }
        requires written { IsWritten name.now written.now }
        ensures { MatchBool result
            ((head self.old ≡ 34) × (content plain (drop 1 self.old) ≡ Some name.now) × (drop 1 (lex between self.old) ≡ colon ∷ lex between self.new))
            (self.new ≡ self.old) }
    {
        let bytes = self.text.as_bytes();
        let count = name.len() + 3;
        if !is_at(bytes, self.at, written, count) {
            return false;
        }
        self.at = spaces_end(bytes, self.at + count);
        true
    }

    /// Takes a string with no escape and no colon behind it. `None` leaves open what is there.
    #[inline(always)]
    #[tactic(auto, using(crate::proofs::Texts::strings_read))]
    pub(crate) fn plain_string(&mut self) -> Option<&'a str>
        ensures { MatchOption result (self.new ≡ self.old) (λ s. (head self.old ≡ 34) × (content plain (drop 1 self.old) ≡ Some s.now)
            × (lex between self.new ≡ drop 1 (lex between self.old)) × (begins_colon (lex between self.new) ≡ false)) }
    {
        if self.peek() != b'"' {
            return None;
        }
        let text = self.text;
        let bytes = text.as_bytes();
        let start = self.at + 1;
        let stop = plain_end(bytes, start);
        if byte_at(bytes, stop) != b'"' {
            return None;
        }
        let end = spaces_end(bytes, stop + 1);
        if byte_at(bytes, end) == b':' {
            return None;
        }
        self.at = end;
        Some(&text[start..stop])
    }

    /// Takes a string of a text with escapes.
    #[inline(never)]
    fn escaped_string(&mut self) -> Option<&'a str>
        requires quote { head self.old ≡ 34 }
        requires escape { (i : ℕ) × (get_or self.old i 32 ≡ 92) }
        ensures value { MatchOption result (content plain (drop 1 self.old) ≡ None) (λ s. content plain (drop 1 self.old) ≡ Some s.now) }
        ensures after { IfSome result (λ _. lex between self.new ≡ drop 1 (lex between self.old)) }
    {
        let text = self.text;
        let start = self.at + 1;
        let scratch = std::mem::take(&mut self.scratch);
        let Some((len, stop)) = unescape(text, start, scratch) else {
            self.scratch = scratch;
            return None;
        };
        let (written, rest) = scratch.split_at_mut(len);
        self.scratch = rest;
        self.at = spaces_end(text.as_bytes(), stop + 1);
        let Ok(string) = str::from_utf8(written) else {
            return None;
        };
        Some(string)
    }

    /// Takes a whole number of few digits. `None` leaves open what is there.
    #[inline(always)]
    pub(crate) fn integer(&mut self) -> Option<i64>
        ensures { MatchOption result (self.new ≡ self.old) (λ z. (s : List ℕ)
            × (lex between self.old ≡ token (number s) ∷ lex between self.new) × (option_and_then as_i64 (number_of s) ≡ Some z)) }
    {
        let bytes = self.text.as_bytes();
        if self.peek() != b'-' {
            let (value, end) = short_number(bytes, self.at)?;
            self.at = spaces_end(bytes, end);
            return Some(value as i64);
        }
        let (value, end) = short_number(bytes, self.at + 1)?;
        if value == 0 {
            return None;
        }
        self.at = spaces_end(bytes, end);
        Some(-(value as i64))
    }

    /// Takes a literal of this name, and returns its token.
    fn literal(&mut self, name: &[u8], token: Token<'a>) -> Token<'a>
        requires { LiteralOf name.now (token_of token) }
        ensures value { token_of result ≡ literal name.now (token_of token.entry) self.old }
        ensures after { is_good (token_of result) ≡ true → lex between self.new ≡ drop 1 (lex between self.old) }
    {
        if !is_literal(self.text.as_bytes(), self.at, name) {
            return Token::Bad;
        }
        self.at = spaces_end(self.text.as_bytes(), self.at + name.len());
        token
    }

    #[tactic(auto, using(crate::proofs::Texts::numbers_read))]
    fn number(&mut self) -> Token<'a>
        requires { class (head self.old) ≡ other }
        ensures value { token_of result ≡ number_before self.old (after_number self.old) }
        ensures after { is_good (token_of result) ≡ true → lex between self.new ≡ drop 1 (lex between self.old) }
    {
        let text = self.text;
        let start = self.at;
        let Some(end) = number_end(text.as_bytes(), start) else {
            return Token::Bad;
        };
        if !is_delimiter(byte_at(text.as_bytes(), end)) {
            return Token::Bad;
        }
        self.at = spaces_end(text.as_bytes(), end);
        Token::Number(&text[start..end])
    }

    /// Takes a number or a literal. A word that is neither is bad.
    #[inline(never)]
    #[tactic(auto, using(crate::proofs::Texts::literal_true, crate::proofs::Texts::literal_false, crate::proofs::Texts::literal_null), unfolding(json::specs::Word::word))]
    pub(crate) fn word(&mut self) -> Token<'a>
        requires { class (head self.old) ≡ other }
        ensures value { token_of result ≡ word self.old }
        ensures after { is_good (token_of result) ≡ true → lex between self.new ≡ drop 1 (lex between self.old) }
    {
        match self.peek() {
            b't' => self.literal(b"true", Token::Bool(true)),
            b'f' => self.literal(b"false", Token::Bool(false)),
            b'n' => self.literal(b"null", Token::Null),
            _ => self.number(),
        }
    }
}
