//! Arrays of names and of signals. A repeated item counts once.
ghost use Rattle.std.specs.Prelude.{◌≡◌, ◌<◌, OnOk, Result, length};
ghost use Rattle.event_masks.specs.Exits.{mask_with, both};
ghost use Rattle.event_masks.specs.Reading.{events_named, flag_named};
ghost use Rattle.signals.specs.Sets.{with as signal_added};
ghost use Rattle.scenario_text.specs.declared.fields.KeyError.{KeyError as Flaw};
ghost use Rattle.scenario_text.specs.Fields.{option_named, with_option, signal_in, adds, gather, gathered, Atom, atom_in, name_in};
ghost use Rattle.scenario_text.specs.Streams.{Reads, ReadsItems};

use crate::atoms::{signal_in, text};
use crate::fields::KeyError;
use event_masks::{EventMask, StopFlags};
use json::Invalid;
use json_values::{Opening, Scalar, Tokens, next_scalar, open_value, pass_members};
use signals::SigSet;
use step_types::Options;

/// A set that the items of an array make.
pub(crate) trait Gathered: Copy + Drop {
    ghost added: { Self → Atom → Result Self Flaw };

    /// Returns the set with one more item.
    fn with_item(self, item: &Scalar<'_>) -> Result<Self, KeyError>
        ensures { result ≡ added self (atom_in item.now) };
}

/// An option of wait4(2).
#[derive(Clone, Copy)]
pub(crate) enum WaitOption {
    Nohang,
    Untraced,
    Continued,
}

fn option_named(name: &str) -> Option<WaitOption>
    ensures { result ≡ option_named name.now }
{
    match name {
        "WNOHANG" => Some(WaitOption::Nohang),
        "WUNTRACED" => Some(WaitOption::Untraced),
        "WCONTINUED" => Some(WaitOption::Continued),
        _ => None,
    }
}

/// Returns the options with one more. `WNOHANG` adds nothing: no wait blocks.
fn with_option(options: Options, option: WaitOption) -> Options
    ensures { result ≡ with_option options option }
{
    match option {
        WaitOption::Nohang => options,
        WaitOption::Untraced => Options {
            untraced: true,
            ..options
        },
        WaitOption::Continued => Options {
            continued: true,
            ..options
        },
    }
}

/// The options of a wait4.
impl Gathered for Options {
    ghost added = { adds (name_in option_named) with_option };

    fn with_item(self, item: &Scalar<'_>) -> Result<Options, KeyError> {
        let option = option_named(text(item)?).ok_or(KeyError::Name)?;
        Ok(with_option(self, option))
    }
}

/// The events of an event mask. `PTRACE_SYSCALL` is two of them.
impl Gathered for EventMask {
    ghost added = { adds (name_in events_named) mask_with };

    fn with_item(self, item: &Scalar<'_>) -> Result<EventMask, KeyError> {
        let events = EventMask::by_name(text(item)?).ok_or(KeyError::Name)?;
        Ok(self.with(events))
    }
}

/// The flags of a stop.
impl Gathered for StopFlags {
    ghost added = { adds (name_in flag_named) both };

    fn with_item(self, item: &Scalar<'_>) -> Result<StopFlags, KeyError> {
        let flag = StopFlags::by_name(text(item)?).ok_or(KeyError::Name)?;
        Ok(self.with(flag))
    }
}

/// A set of signals.
impl Gathered for SigSet {
    ghost added = { adds signal_in signal_added };

    fn with_item(self, item: &Scalar<'_>) -> Result<SigSet, KeyError> {
        Ok(self.with(signal_in(item)?))
    }
}

/// Reads the items of the array that the reader is in.
#[tactic(auto, using(crate::proofs::ReadLoops::ends, crate::proofs::ReadLoops::bind_ok))]
fn gather<S: Gathered>(
    reader: &mut Tokens<'_>,
    depth: usize,
    none: S,
) -> Result<Result<S, KeyError>, Invalid>
    ensures items { ReadsItems (λ x ds. x ≡ gather S.added none ds) depth result reader.old reader.new }
    ensures shorter { OnOk result (length reader.new < length reader.old) }
{
    let mut set = Ok(none);
    'items: while !reader.take_end_array() {
        let item = next_scalar(reader, depth)?;
        set = match set {
            Ok(so_far) => so_far.with_item(&item),
            Err(flaw) => Err(flaw),
        };
    }
    Ok(set)
}

/// Reads the next value, which may be an array of items that make a set.
#[inline(never)]
#[tactic(auto, using(crate::proofs::ReadLoops::opened))]
pub(crate) fn read_set<S: Gathered>(
    reader: &mut Tokens<'_>,
    depth: usize,
    none: S,
) -> Result<Result<S, KeyError>, Invalid>
    requires { 0 < depth }
    ensures set { Reads (λ x d. x ≡ gathered S.added none d) depth result reader.old reader.new }
    ensures shorter { OnOk result (length reader.new < length reader.old) }
{
    let opening = open_value(reader)?;
    match opening {
        Opening::Array => gather(reader, depth - 1, none),
        Opening::Object => {
            pass_members(reader, depth - 1)?;
            Ok(Err(KeyError::Shape))
        }
        Opening::Scalar(_) => Ok(Err(KeyError::Shape)),
    }
}
