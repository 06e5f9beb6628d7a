//! Whole numbers and texts at the keys of steps and rules.
ghost use Rattle.std.specs.Prelude.{◌≡◌};
ghost use Rattle.scenario_text.specs.Fields.{atom_in, integer, number_within, word, text, Gives, within, signal_in};
ghost use Rattle.scenario_text.specs.Steps.{user_in};

use crate::fields::KeyError;
use json_values::Scalar;
use pid_blocks::Uid;
use signals::Signal;

/// Returns a whole number that fits i64.
pub(crate) fn integer(atom: &Scalar<'_>) -> Result<i64, KeyError>
    ensures { result ≡ integer (atom_in atom.now) }
{
    match atom {
        Scalar::Integer(number) => Ok(*number),
        Scalar::Text(_) | Scalar::Other => Err(KeyError::Shape),
    }
}

/// Checks that a number is one from `least` to `greatest`.
pub(crate) fn within(
    number: i64,
    least: u32,
    greatest: u32,
    flaw: KeyError,
) -> Result<u32, KeyError>
    ensures { result ≡ within least greatest flaw number }
{
    if i64::from(least) <= number && number <= i64::from(greatest) {
        Ok(number as u32)
    } else {
        Err(flaw)
    }
}

/// Returns a whole number from `least` to `greatest`.
pub(crate) fn number_within(atom: &Scalar<'_>, least: u32, greatest: u32) -> Result<u32, KeyError>
    ensures { result ≡ number_within least greatest (atom_in atom.now) }
{
    within(integer(atom)?, least, greatest, KeyError::Number)
}

/// Returns a whole number of 32 bits.
pub(crate) fn word(atom: &Scalar<'_>) -> Result<u32, KeyError>
    ensures { result ≡ word (atom_in atom.now) }
{
    number_within(atom, 0, u32::MAX)
}

/// Returns a text.
pub(crate) fn text<'a>(atom: &Scalar<'a>) -> Result<&'a str, KeyError>
    ensures { Gives (λ t. t.now) result (text (atom_in atom.now)) }
{
    match atom {
        Scalar::Text(text) => Ok(*text),
        Scalar::Integer(_) | Scalar::Other => Err(KeyError::Shape),
    }
}

/// Returns the user with this number.
pub(crate) fn user_in(atom: &Scalar<'_>) -> Result<Uid, KeyError>
    ensures { result ≡ user_in (atom_in atom.now) }
{
    let number = within(integer(atom)?, 1001, 1064, KeyError::User)?;
    match Uid::new(number) {
        Ok(user) => Ok(user),
        Err(_) => Err(KeyError::User),
    }
}

/// Returns the signal with this number.
pub(crate) fn signal_in(atom: &Scalar<'_>) -> Result<Signal, KeyError>
    ensures { result ≡ signal_in (atom_in atom.now) }
{
    let number = number_within(atom, 1, 31)?;
    match Signal::new(number) {
        Ok(signal) => Ok(signal),
        Err(_) => Err(KeyError::Number),
    }
}
