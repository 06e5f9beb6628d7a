//! Members with a single value.
ghost use Rattle.std.specs.Prelude.{[], ◌∷◌};
ghost use Rattle.json.specs.Json.{string};
ghost use Rattle.reply_json.specs.Objects.{natural, nonzero_member, member_tokens, Puts};

use json::Writer;
use std::alloc::AllocError;

/// Writes a member that is a number. An error means out of memory, here and below.
pub fn push_number(out: &mut Writer, name: &str, number: u64) -> Result<(), AllocError>
    ensures { Puts result out.old out.new (member_tokens ((name.now, natural number) ∷ [])) }
{
    out.key(name)?;
    out.u64(number)
}

/// Writes a number, or nothing if it is 0.
pub fn push_nonzero(out: &mut Writer, name: &str, number: u64) -> Result<(), AllocError>
    ensures { Puts result out.old out.new (member_tokens (nonzero_member name.now number)) }
{
    if number == 0 {
        return Ok(());
    }
    push_number(out, name, number)
}

/// Writes a member that is a string.
pub fn push_string(out: &mut Writer, name: &str, text: &str) -> Result<(), AllocError>
    ensures { Puts result out.old out.new (member_tokens ((name.now, string text.now) ∷ [])) }
{
    out.key(name)?;
    out.string(text)
}
