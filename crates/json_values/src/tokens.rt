//! The tokens of a JSON text.
ghost use Rattle.std.specs.Prelude.{◌≡◌, ◌<◌, ◌≤◌, ◌∷◌, ℕ, List, None, Some, IfOk, OnErr, MatchOption, MatchResult, length, option_and_then, option_map, vec_capacity};
ghost use Rattle.std.specs.Bool.{MatchBool};
ghost use Rattle.std.specs.List.{prefix_len};
ghost use Rattle.json.specs.Json.{after_end_array, read_key};
ghost use Rattle.json.specs.Lex.{tokens};
ghost use Rattle.json.specs.Reads.{Yields};
ghost use Rattle.json.specs.Run.{is_plain};
ghost use Rattle.json.specs.Token.{begin_object, end_object, number, string};
ghost use Rattle.serde_json.specs.Find.{as_i64};
ghost use Rattle.serde_json.specs.Read.{number_of};
ghost use Rattle.json_values.specs.Lexing.{HasRoom, IsWritten};

use crate::lexer::Lexer;
use crate::punctuation::{Place, after_value, read};
use json::{Invalid, Token};
use memchr::memchr;
use std::alloc::AllocError;
use std::marker::Model;

/// Returns how many bytes the strings with escapes of a text need at most.
fn room_for(text: &str) -> usize
    ensures room { HasRoom text.now result }
    ensures bound { result ≤ length text.now }
{
    match memchr(b'\\', text.as_bytes()) {
        None => 0,
        Some(_) => text.len(),
    }
}

/// A reader of a JSON text. A clause sees the tokens that are still to come.
#[derive(Drop)]
pub struct Tokens<'a> {
    lexer: Lexer<'a>,
    place: Place,
}

impl<'a> Model for Tokens<'a> {
    ghost use Rattle.std.specs.Prelude.{List};
    ghost use Rattle.json.specs.Token.{Token as SpecToken, tokens_code};
    ghost use Rattle.json_values.specs.Lexing.{tokens_at, NotBeforeComma};

    ghost Value = { List SpecToken };

    ghost coded = { tokens_code };

    ghost view = { λ a. tokens_at a.place a.lexer };

    ghost invariant = { λ a. NotBeforeComma a.place a.lexer };
}

impl<'a> Tokens<'a> {
    /// Returns a reader of the text. Strings with escapes are written to `scratch`, which grows to the length of a text
    /// that has any.
    pub fn new(text: &'a str, scratch: &'a mut Vec<u8>) -> Result<Tokens<'a>, AllocError>
        ensures ok { IfOk result (λ reader. reader ≡ tokens text.now) }
        ensures full { OnErr result (vec_capacity scratch.old < length text.now) }
    {
        let needed = room_for(text);
        if scratch.len() < needed {
            scratch.resize(needed, 0)?;
        }
        Ok(Tokens {
            lexer: Lexer::new(text, scratch.as_mut_slice()),
            place: Place::Fresh,
        })
    }

    /// Takes the next token.
    #[inline(always)]
    pub fn next(&mut self) -> Option<Token<'a>>
        ensures { Yields self.old result self.new }
    {
        let (token, place) = read(&mut self.lexer, self.place);
        self.place = place;
        token
    }

    /// Takes the next token if it is a whole number of few digits, as nearly all numbers are. `None` leaves open what
    /// the next token is.
    #[inline(always)]
    #[tactic(auto, using(crate::proofs::Places::on_some, crate::proofs::Places::a_number))]
    pub fn next_integer(&mut self) -> Option<i64>
        ensures { MatchOption result (self.new ≡ self.old) (λ z. (s : List ℕ) × (self.old ≡ number s ∷ self.new) × (option_and_then as_i64 (number_of s) ≡ Some z)) }
    {
        if !self.place.may_begin() {
            return None;
        }
        let integer = self.lexer.integer();
        if integer.is_some() {
            self.place = after_value(&mut self.lexer);
        }
        integer
    }

    /// Takes the next token if it is a string without escapes, as nearly all are. `None` leaves open what the next token
    /// is.
    #[inline(always)]
    #[tactic(auto, using(crate::proofs::Places::on_some, crate::proofs::Places::a_string))]
    pub fn next_text(&mut self) -> Option<&'a str>
        ensures { MatchOption result (self.new ≡ self.old) (λ s. self.old ≡ string s.now ∷ self.new) }
    {
        if !self.place.may_begin() {
            return None;
        }
        let text = self.lexer.plain_string();
        if text.is_some() {
            self.place = after_value(&mut self.lexer);
        }
        text
    }

    /// Takes this key, if it comes next as it is, with no space before its colon and no escape. `written` begins with the
    /// key in quotes and its colon, and 16 bytes are compared at once. `false` leaves open what comes next.
    #[inline(always)]
    pub fn take_key(&mut self, name: &str, written: &[u8; 16]) -> bool
        requires plain { prefix_len is_plain name.now ≡ length name.now }
        requires written { IsWritten name.now written.now }
        ensures { MatchBool result (read_key self.old ≡ Some (Some name.now, self.new)) (self.new ≡ self.old) }
    {
        if !self.place.may_begin() || !self.lexer.key(name, written) {
            return false;
        }
        self.place = Place::Fresh;
        true
    }

    /// Takes a key, or the brace that closes an object: then it returns `None`.
    #[inline(always)]
    pub fn next_key(&mut self) -> Result<Option<&'a str>, Invalid>
        ensures value { MatchResult result (λ k. read_key self.old ≡ Some (option_map (λ s. s.now) k, self.new)) (λ _. read_key self.old ≡ None) }
    {
        if self.take_end_object() {
            return Ok(None);
        }
        let token = self.next().ok_or(Invalid)?;
        match token {
            Token::Key(key) => Ok(Some(key)),
            Token::EndObject => Ok(None),
            _ => Err(Invalid),
        }
    }

    /// Takes the brace that closes an object, if it is next.
    #[inline(always)]
    #[tactic(auto, using(crate::proofs::Places::closes_object))]
    fn take_end_object(&mut self) -> bool
        ensures { MatchBool result (self.old ≡ end_object ∷ self.new) (self.new ≡ self.old) }
    {
        if self.lexer.peek() != b'}' || !self.place.may_close() {
            return false;
        }
        self.lexer.skip();
        self.place = after_value(&mut self.lexer);
        true
    }

    /// Takes the brace that opens an object, if it is next.
    #[inline(always)]
    #[tactic(auto, using(crate::proofs::Places::opens_object))]
    pub(crate) fn take_begin_object(&mut self) -> bool
        ensures { MatchBool result (self.old ≡ begin_object ∷ self.new) (self.new ≡ self.old) }
    {
        if self.lexer.peek() != b'{' || !self.place.may_begin() {
            return false;
        }
        self.lexer.skip();
        self.place = Place::Fresh;
        true
    }

    /// Takes the bracket that closes an array, if it is next.
    #[inline(always)]
    #[tactic(auto, using(crate::proofs::Places::closes_array))]
    pub fn take_end_array(&mut self) -> bool
        ensures { MatchBool result (after_end_array self.old ≡ Some self.new) ((after_end_array self.old ≡ None) × (self.new ≡ self.old)) }
    {
        if self.lexer.peek() != b']' || !self.place.may_close() {
            return false;
        }
        self.lexer.skip();
        self.place = after_value(&mut self.lexer);
        true
    }
}
