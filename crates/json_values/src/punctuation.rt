//! From lexemes to tokens: which may come after which, with commas and colons between them.
ghost use Rattle.std.specs.Prelude.{◌≡◌, ◌≢◌, ◌⊎◌, ◌∷◌, [], true, false};
ghost use Rattle.json.specs.Lex.{after_value, between, class, lex, other, punctuate};
ghost use Rattle.json.specs.Align.{is_blank};
ghost use Rattle.json.specs.Reads.{token_of, Yields};
ghost use Rattle.json.specs.Word.{head};
ghost use Rattle.json_values.specs.Lexing.{may_begin, may_close, refused_at, tokens_at, NotBeforeComma};

use crate::bytes::is_space;
use crate::lexer::Lexer;
use json::Token;

/// What the reader has passed.
#[derive(Clone, Copy, Drop)]
pub(crate) enum Place {
    AfterComma,
    Fresh,
    AfterValue,
    /// A fault, after which no token comes.
    Failed,
}

impl Place {
    #[inline(always)]
    pub(crate) fn may_close(self) -> bool
        ensures { result ≡ may_close self }
    {
        matches!(self, Place::Fresh | Place::AfterValue)
    }

    #[inline(always)]
    pub(crate) fn may_begin(self) -> bool
        ensures { result ≡ may_begin self }
    {
        matches!(self, Place::Fresh | Place::AfterComma)
    }
}

/// Passes over the comma that may follow a value.
#[inline(always)]
#[tactic(auto, using(crate::proofs::Places::at_bytes), unfolding(json::specs::Lex::punctuate))]
pub(crate) fn after_value(lexer: &mut Lexer<'_>) -> Place
    ensures same { tokens_at result lexer.new ≡ punctuate after_value (lex between lexer.old) }
    ensures passed { NotBeforeComma result lexer.new }
{
    if lexer.peek() == b',' {
        lexer.skip();
        Place::AfterComma
    } else {
        Place::AfterValue
    }
}

/// Takes a key with its colon, or a string.
#[inline(always)]
#[tactic(auto, using(crate::proofs::Places::at_bytes))]
fn string<'a>(lexer: &mut Lexer<'a>, place: Place) -> (Token<'a>, Place)
    requires { (head lexer.old ≡ 34) × (may_begin place ≡ true) }
    ensures value { tokens_at place lexer.old ≡ token_of result.0 ∷ tokens_at result.1 lexer.new }
    ensures passed { NotBeforeComma result.1 lexer.new }
{
    let Some(text) = lexer.string() else {
        return (Token::Bad, Place::Failed);
    };
    if lexer.peek() == b':' {
        lexer.skip();
        (Token::Key(text), Place::Fresh)
    } else {
        (Token::String(text), after_value(lexer))
    }
}

/// Takes a number or a literal.
#[inline(always)]
#[tactic(auto, using(crate::proofs::Places::at_bytes))]
fn word<'a>(lexer: &mut Lexer<'a>, place: Place) -> (Token<'a>, Place)
    requires { (class (head lexer.old) ≡ other) × (may_begin place ≡ true) }
    ensures value { tokens_at place lexer.old ≡ token_of result.0 ∷ tokens_at result.1 lexer.new }
    ensures passed { NotBeforeComma result.1 lexer.new }
{
    let token = lexer.word();
    if let Token::Bad = token {
        return (Token::Bad, Place::Failed);
    }
    (token, after_value(lexer))
}

/// Takes the first token of a value that isn't a string.
#[inline(always)]
#[tactic(auto, using(crate::proofs::Places::opens_array, crate::proofs::Places::opens_object, crate::proofs::Places::stray))]
fn begin<'a>(lexer: &mut Lexer<'a>, place: Place) -> (Token<'a>, Place)
    requires first { (is_blank (class (head lexer.old)) ≡ false) × (head lexer.old ≢ 34) × (head lexer.old ≢ 125) × (head lexer.old ≢ 93) }
    requires place { may_begin place ≡ true }
    ensures value { tokens_at place lexer.old ≡ token_of result.0 ∷ tokens_at result.1 lexer.new }
    ensures passed { NotBeforeComma result.1 lexer.new }
{
    match lexer.peek() {
        b'{' => {
            lexer.skip();
            (Token::BeginObject, Place::Fresh)
        }
        b'[' => {
            lexer.skip();
            (Token::BeginArray, Place::Fresh)
        }
        b',' | b':' | b'\\' => (Token::Bad, Place::Failed),
        _ => word(lexer, place),
    }
}

/// Takes a closing bracket or brace.
#[inline(always)]
#[tactic(auto, using(crate::proofs::Places::closes_array, crate::proofs::Places::closes_object))]
fn close<'a>(lexer: &mut Lexer<'a>, place: Place) -> (Token<'a>, Place)
    requires { ((head lexer.old ≡ 125) ⊎ (head lexer.old ≡ 93)) × (may_close place ≡ true) }
    ensures value { tokens_at place lexer.old ≡ token_of result.0 ∷ tokens_at result.1 lexer.new }
    ensures passed { NotBeforeComma result.1 lexer.new }
{
    let is_object = lexer.peek() == b'}';
    lexer.skip();
    let place = after_value(lexer);
    if is_object {
        (Token::EndObject, place)
    } else {
        (Token::EndArray, place)
    }
}

/// Returns the one bad token. No token comes after it.
#[cold]
fn refuse<'a>(place: Place) -> (Option<Token<'a>>, Place)
    ensures { Yields (refused_at place) result.0 [] × (result.1 ≡ Place.Failed) }
{
    if let Place::Failed = place {
        (None, Place::Failed)
    } else {
        (Some(Token::Bad), Place::Failed)
    }
}

/// Takes the next token.
#[inline(always)]
#[tactic(auto, using(crate::proofs::Places::ended, crate::proofs::Places::not_begun, crate::proofs::Places::not_closed, crate::proofs::Places::refused))]
pub(crate) fn read<'a>(lexer: &mut Lexer<'a>, place: Place) -> (Option<Token<'a>>, Place)
    requires { NotBeforeComma place lexer.old }
    ensures value { Yields (tokens_at place lexer.old) result.0 (tokens_at result.1 lexer.new) }
    ensures passed { NotBeforeComma result.1 lexer.new }
{
    let byte = lexer.peek();
    if byte == b'"' && place.may_begin() {
        let (token, next) = string(lexer, place);
        return (Some(token), next);
    }
    if (byte == b'}') | (byte == b']') {
        if !place.may_close() {
            return refuse(place);
        }
        let (token, next) = close(lexer, place);
        return (Some(token), next);
    }
    if is_space(byte) {
        return if place.may_close() {
            (None, place)
        } else {
            refuse(place)
        };
    }
    if !place.may_begin() {
        return refuse(place);
    }
    let (token, next) = begin(lexer, place);
    (Some(token), next)
}
