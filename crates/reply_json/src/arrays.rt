//! Members that are arrays.
ghost use Rattle.std.specs.Prelude.{[], ◌∷◌, map};
ghost use Rattle.json.specs.Json.{string};
ghost use Rattle.json.specs.Tree.{items_tokens};
ghost use Rattle.json.specs.Value.{items_of};
ghost use Rattle.event_masks.specs.Names.{names_of};
ghost use Rattle.signals.specs.Names.{signal_name};
ghost use Rattle.signals.specs.Sets.{members};
ghost use Rattle.reply_json.specs.Objects.{natural, numbers_of, strings_of, value_tokens, member_tokens, Puts};
ghost use Rattle.reply_json.specs.Replies.{signals_of};

use bitflags::{Flag, Flags};
use json::Writer;
use signals::SigSet;
use std::alloc::AllocError;

/// Writes numbers, and the closing bracket after them.
fn push_each_number(out: &mut Writer, numbers: &[u32]) -> Result<(), AllocError>
    ensures { Puts result out.old out.new (items_tokens (items_of (map (λ n. natural n) numbers.now))) }
{
    for number in numbers {
        out.u64(u64::from(*number))?;
    }
    out.end_array()
}

/// Writes a member that is an array of numbers.
pub fn push_numbers(out: &mut Writer, name: &str, numbers: &[u32]) -> Result<(), AllocError>
    ensures { Puts result out.old out.new (member_tokens ((name.now, numbers_of numbers.now) ∷ [])) }
{
    out.key(name)?;
    out.begin_array()?;
    push_each_number(out, numbers)
}

/// Writes the names of a set's signals in the order of their numbers, and the closing bracket after them.
fn push_each_signal(out: &mut Writer, set: SigSet) -> Result<(), AllocError>
    ensures { Puts result out.old out.new (items_tokens (items_of (map (λ text. string text) (map (λ s. signal_name s) (members set))))) }
{
    for signal in set.signals() {
        out.string(signal.name())?;
    }
    out.end_array()
}

/// Writes a member that is an array of the names of a set's signals.
pub fn push_signals(out: &mut Writer, name: &str, set: SigSet) -> Result<(), AllocError>
    ensures { Puts result out.old out.new (member_tokens ((name.now, signals_of set) ∷ [])) }
{
    out.key(name)?;
    out.begin_array()?;
    push_each_signal(out, set)
}

/// Writes the flag's name if the set has the flag.
fn push_flag<F: Flags + Copy>(out: &mut Writer, set: F, flag: &Flag<F>) -> Result<(), AllocError>
    requires { F.exact }
    ensures { Puts result out.old out.new
        (value_tokens (map (λ text. string text) (names_of ((flag.now.name.now, F.set_of flag.now.value) ∷ []) (F.set_of set)))) }
{
    if set.contains(*flag.value()) {
        out.string(flag.name())?;
    }
    Ok(())
}

/// Writes the names of a set's flags in the order of their table, and the closing bracket after them.
fn push_each_flag<F: Flags + Copy>(out: &mut Writer, set: F) -> Result<(), AllocError>
    requires { F.exact }
    ensures { Puts result out.old out.new (items_tokens (items_of (map (λ text. string text) (names_of F.table (F.set_of set))))) }
{
    for flag in F::flags() {
        push_flag(out, set, flag)?;
    }
    out.end_array()
}

/// Writes a member that is an array of the names of a set's flags.
pub fn push_flags<F: Flags + Copy>(out: &mut Writer, name: &str, set: F) -> Result<(), AllocError>
    requires { F.exact }
    ensures { Puts result out.old out.new (member_tokens ((name.now, strings_of (names_of F.table (F.set_of set))) ∷ [])) }
{
    out.key(name)?;
    out.begin_array()?;
    push_each_flag(out, set)
}
