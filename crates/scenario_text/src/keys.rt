//! The keys of steps and of rules.
ghost use Rattle.std.specs.Prelude.{◌≡◌, List, ℕ, Option, None, Some, MatchResult, length, option_map};
ghost use Rattle.std.specs.Bool.{MatchBool};
ghost use Rattle.std.specs.List.{prefix_len};
ghost use Rattle.json.specs.Json.{read_key};
ghost use Rattle.json.specs.Run.{is_plain};
ghost use Rattle.json_values.specs.Lexing.{IsWritten};
ghost use Rattle.scenario_text.specs.Keys.{key_named, key_set};

use json::Invalid;
use json_values::Tokens;
use std::ops::BitOr;

/// A set of keys. `OTHER` means all that neither steps nor rules have.
#[derive(Clone, Copy, Drop)]
pub(crate) struct Keys(pub(crate) u32);

impl Keys {
    ghost use Rattle.scenario_text.specs.Keys.{are_among};

    // tools/format sets of one key
    pub(crate) const NONE: Keys = Keys(0);

    pub(crate) const USER: Keys = Keys(1);

    pub(crate) const OP: Keys = Keys(2);

    pub(crate) const CALLER: Keys = Keys(4);

    pub(crate) const LWP: Keys = Keys(8);

    pub(crate) const ACT: Keys = Keys(16);

    pub(crate) const WHICH: Keys = Keys(32);

    pub(crate) const REQUEST: Keys = Keys(64);

    pub(crate) const TARGET: Keys = Keys(128);

    pub(crate) const DATA: Keys = Keys(256);

    pub(crate) const CALL: Keys = Keys(512);

    pub(crate) const CODE: Keys = Keys(1024);

    pub(crate) const SIGNAL: Keys = Keys(2048);

    pub(crate) const OPTIONS: Keys = Keys(4096);

    pub(crate) const ACTION: Keys = Keys(8192);

    pub(crate) const RULES: Keys = Keys(16384);

    pub(crate) const SET: Keys = Keys(32768);

    pub(crate) const MASK: Keys = Keys(65536);

    pub(crate) const FLAGS: Keys = Keys(131072);

    pub(crate) const DECISION: Keys = Keys(262144);

    pub(crate) const PASS: Keys = Keys(524288);

    pub(crate) const OTHER: Keys = Keys(1048576);

    // end

    /// Tests whether all of these keys are among the allowed ones.
    pub(crate) fn are_among(self, allowed: Keys) -> bool
        ensures { result ≡ are_among allowed self }
    {
        allowed.0 & self.0 == self.0
    }
}

impl BitOr for Keys {
    ghost use Rattle.scenario_text.specs.Keys.{◌∪◌};

    type Output = Keys;

    ghost bitor_gives = { λ a b r. r ≡ a ∪ b };

    fn bitor(self, other: Keys) -> Keys {
        Keys(self.0 | other.0)
    }
}

/// A key of a step or of a rule.
#[derive(Clone, Copy)]
pub(crate) enum Key {
    // tools/format keys
    User,
    Op,
    Caller,
    Lwp,
    Act,
    Which,
    Request,
    Target,
    Data,
    Call,
    Code,
    Signal,
    Options,
    Action,
    Rules,
    Set,
    Mask,
    Flags,
    Decision,
    Pass,
    // end
}

/// Returns the key with this name, if steps or rules have it.
#[inline(always)]
pub(crate) fn key_named(text: &str) -> Option<Key>
    ensures { result ≡ key_named text.now }
{
    match text.len() {
        // tools/format names
        2 => match text {
            "op" => Some(Key::Op),
            _ => None,
        },
        3 => match text {
            "lwp" => Some(Key::Lwp),
            "act" => Some(Key::Act),
            "set" => Some(Key::Set),
            _ => None,
        },
        4 => match text {
            "user" => Some(Key::User),
            "data" => Some(Key::Data),
            "call" => Some(Key::Call),
            "code" => Some(Key::Code),
            "mask" => Some(Key::Mask),
            "pass" => Some(Key::Pass),
            _ => None,
        },
        5 => match text {
            "which" => Some(Key::Which),
            "rules" => Some(Key::Rules),
            "flags" => Some(Key::Flags),
            _ => None,
        },
        6 => match text {
            "caller" => Some(Key::Caller),
            "target" => Some(Key::Target),
            "signal" => Some(Key::Signal),
            "action" => Some(Key::Action),
            _ => None,
        },
        7 => match text {
            "request" => Some(Key::Request),
            "options" => Some(Key::Options),
            _ => None,
        },
        8 => match text {
            "decision" => Some(Key::Decision),
            _ => None,
        },
        // end
        _ => None,
    }
}

/// Returns the set of one key.
pub(crate) fn set_of(key: Key) -> Keys
    ensures { result ≡ key_set key }
{
    match key {
        // tools/format sets by key
        Key::User => Keys::USER,
        Key::Op => Keys::OP,
        Key::Caller => Keys::CALLER,
        Key::Lwp => Keys::LWP,
        Key::Act => Keys::ACT,
        Key::Which => Keys::WHICH,
        Key::Request => Keys::REQUEST,
        Key::Target => Keys::TARGET,
        Key::Data => Keys::DATA,
        Key::Call => Keys::CALL,
        Key::Code => Keys::CODE,
        Key::Signal => Keys::SIGNAL,
        Key::Options => Keys::OPTIONS,
        Key::Action => Keys::ACTION,
        Key::Rules => Keys::RULES,
        Key::Set => Keys::SET,
        Key::Mask => Keys::MASK,
        Key::Flags => Keys::FLAGS,
        Key::Decision => Keys::DECISION,
        Key::Pass => Keys::PASS,
        // end
    }
}

/// Returns the name of the key, and 16 bytes that begin with it as texts have it.
#[inline(always)]
fn written(key: Key) -> (&'static str, &'static [u8; 16])
    ensures named { key_named result.0.now ≡ Some key }
    ensures plain { prefix_len is_plain result.0.now ≡ length result.0.now }
    ensures written { IsWritten result.0.now result.1.now }
{
    match key {
        // tools/format written
        Key::User => ("user", b"\"user\":         "),
        Key::Op => ("op", b"\"op\":           "),
        Key::Caller => ("caller", b"\"caller\":       "),
        Key::Lwp => ("lwp", b"\"lwp\":          "),
        Key::Act => ("act", b"\"act\":          "),
        Key::Which => ("which", b"\"which\":        "),
        Key::Request => ("request", b"\"request\":      "),
        Key::Target => ("target", b"\"target\":       "),
        Key::Data => ("data", b"\"data\":         "),
        Key::Call => ("call", b"\"call\":         "),
        Key::Code => ("code", b"\"code\":         "),
        Key::Signal => ("signal", b"\"signal\":       "),
        Key::Options => ("options", b"\"options\":      "),
        Key::Action => ("action", b"\"action\":       "),
        Key::Rules => ("rules", b"\"rules\":        "),
        Key::Set => ("set", b"\"set\":          "),
        Key::Mask => ("mask", b"\"mask\":         "),
        Key::Flags => ("flags", b"\"flags\":        "),
        Key::Decision => ("decision", b"\"decision\":     "),
        Key::Pass => ("pass", b"\"pass\":         "),
        // end
    }
}

/// Takes the name of the key, if it comes next as it is. `false` leaves open what comes next.
#[inline(always)]
fn take(reader: &mut Tokens<'_>, key: Key) -> bool
    ensures { MatchBool result ((name : List ℕ) × (key_named name ≡ Some key) × (read_key reader.old ≡ Some (Some name, reader.new))) (reader.new ≡ reader.old) }
{
    let (name, written) = written(key);
    reader.take_key(name, written)
}

/// Takes a name and returns its key, if steps or rules have it, or takes the brace that closes an object: then it
/// returns `None`. It is fast if the likely key comes next.
#[inline(always)]
pub(crate) fn next_key(reader: &mut Tokens<'_>, likely: Key) -> Result<Option<Option<Key>>, Invalid>
    ensures { MatchResult result
        (λ k. (name : Option (List ℕ)) × (read_key reader.old ≡ Some (name, reader.new)) × (k ≡ option_map key_named name))
        (λ _. read_key reader.old ≡ None) }
{
    if take(reader, likely) {
        return Ok(Some(Some(likely)));
    }
    match reader.next_key()? {
        Some(name) => Ok(Some(key_named(name))),
        None => Ok(None),
    }
}
