//! Reads what the keys of a step say.
ghost use Rattle.std.specs.Prelude.{◌≡◌, ◌<◌, OnOk, length};
ghost use Rattle.scenario_text.specs.Fields.{Gives, atom_in, name_in};
ghost use Rattle.scenario_text.specs.CommonNames.{op_named, disposition_named, act_named, call_named, request_named};
ghost use Rattle.scenario_text.specs.Plan.{with_policy};
ghost use Rattle.scenario_text.specs.Steps.{fields_in, policy_in, step_of};
ghost use Rattle.scenario_text.specs.Streams.{Reads, ReadsMembers, with_atom, with_named, with_value};
ghost use Rattle.scenario_text.specs.declared.keys.Key.TheVariants as key;

use crate::arrays::read_set;
use crate::atoms::{integer, text, user_in, word};
use crate::fields::{Fields, KeyError};
use crate::keys::{Key, Keys, next_key, set_of};
use crate::rules::read_rules;
use crate::step_list::BareStep;
use crate::steps::step_from;
use event_masks::{CallKind, EventMask};
use json::Invalid;
use json_values::{Opening, Scalar, Tokens, next_scalar, open_item, pass_items, pass_value};
use pid_blocks::Uid;
use signals::{Disposition, SigSet};
use step_types::{ActKind, Options, Request, StepKind};

fn op_in(atom: &Scalar<'_>) -> Result<StepKind, KeyError>
    ensures { result ≡ name_in op_named (atom_in atom.now) }
{
    StepKind::by_name(text(atom)?).ok_or(KeyError::Name)
}

fn disposition_in(atom: &Scalar<'_>) -> Result<Disposition, KeyError>
    ensures { result ≡ name_in disposition_named (atom_in atom.now) }
{
    Disposition::by_name(text(atom)?).ok_or(KeyError::Name)
}

fn act_in(atom: &Scalar<'_>) -> Result<ActKind, KeyError>
    ensures { result ≡ name_in act_named (atom_in atom.now) }
{
    ActKind::by_name(text(atom)?).ok_or(KeyError::Name)
}

fn call_in(atom: &Scalar<'_>) -> Result<CallKind, KeyError>
    ensures { result ≡ name_in call_named (atom_in atom.now) }
{
    CallKind::by_name(text(atom)?).ok_or(KeyError::Name)
}

fn request_in(atom: &Scalar<'_>) -> Result<Request, KeyError>
    ensures { result ≡ name_in request_named (atom_in atom.now) }
{
    Request::by_name(text(atom)?).ok_or(KeyError::Name)
}

/// Sets what a key says whose value is a whole number or a text.
#[inline(always)]
fn set(fields: &mut Fields, key: Key, atom: &Scalar<'_>)
    ensures { fields.new ≡ with_atom key (atom_in atom.now) fields.old }
{
    match key {
        // tools/format keys
        Key::User => fields.user = user_in(atom),
        Key::Op => fields.op = op_in(atom),
        Key::Caller => fields.caller = word(atom),
        Key::Lwp => fields.lwp = word(atom),
        Key::Act => fields.act = act_in(atom),
        Key::Which => fields.which = integer(atom),
        Key::Request => fields.request = request_in(atom),
        Key::Target => fields.target = word(atom),
        Key::Data => fields.data = word(atom),
        Key::Call => fields.call = call_in(atom),
        Key::Code => fields.code = integer(atom),
        Key::Signal => fields.signal = word(atom),
        Key::Action => fields.action = disposition_in(atom),
        // end
        _ => {}
    }
}

/// Reads the rules of a policy. It is apart, so that other keys need no room for a policy.
#[inline(never)]
fn read_policy_rules(
    reader: &mut Tokens<'_>,
    depth: usize,
    fields: &mut Fields,
) -> Result<(), Invalid>
    requires { 2 < depth }
    ensures value { Reads (λ _ d. fields.new ≡ with_value key.Rules d fields.old) depth result reader.old reader.new }
    ensures shorter { OnOk result (length reader.new < length reader.old) }
{
    fields.rules = read_rules(reader, depth)?;
    Ok(())
}

/// Reads the options of a wait4.
#[inline(never)]
fn read_options(reader: &mut Tokens<'_>, depth: usize, fields: &mut Fields) -> Result<(), Invalid>
    requires { 2 < depth }
    ensures value { Reads (λ _ d. fields.new ≡ with_value key.Options d fields.old) depth result reader.old reader.new }
    ensures shorter { OnOk result (length reader.new < length reader.old) }
{
    let none = Options {
        untraced: false,
        continued: false,
    };
    fields.options = read_set(reader, depth, none)?;
    Ok(())
}

/// Reads a set of signals.
#[inline(never)]
fn read_signals(reader: &mut Tokens<'_>, depth: usize, fields: &mut Fields) -> Result<(), Invalid>
    requires { 2 < depth }
    ensures value { Reads (λ _ d. fields.new ≡ with_value key.Set d fields.old) depth result reader.old reader.new }
    ensures shorter { OnOk result (length reader.new < length reader.old) }
{
    fields.set = read_set(reader, depth, SigSet::empty())?;
    Ok(())
}

/// Reads an event mask.
#[inline(never)]
fn read_mask(reader: &mut Tokens<'_>, depth: usize, fields: &mut Fields) -> Result<(), Invalid>
    requires { 2 < depth }
    ensures value { Reads (λ _ d. fields.new ≡ with_value key.Mask d fields.old) depth result reader.old reader.new }
    ensures shorter { OnOk result (length reader.new < length reader.old) }
{
    fields.mask = read_set(reader, depth, EventMask::none())?;
    Ok(())
}

/// Reads the value of a key.
fn read_value(
    reader: &mut Tokens<'_>,
    depth: usize,
    key: Key,
    fields: &mut Fields,
) -> Result<(), Invalid>
    requires { 2 < depth }
    ensures value { Reads (λ _ d. fields.new ≡ with_value key d fields.old) depth result reader.old reader.new }
    ensures shorter { OnOk result (length reader.new < length reader.old) }
{
    match key {
        Key::Options => read_options(reader, depth, fields),
        Key::Rules => read_policy_rules(reader, depth, fields),
        Key::Set => read_signals(reader, depth, fields),
        Key::Mask => read_mask(reader, depth, fields),
        _ => {
            let atom = next_scalar(reader, depth)?;
            set(fields, key, &atom);
            Ok(())
        }
    }
}

/// Reads the value of a key, or passes over that of any other name.
fn read_named(
    reader: &mut Tokens<'_>,
    depth: usize,
    key: Option<Key>,
    fields: &mut Fields,
) -> Result<(), Invalid>
    requires { 2 < depth }
    ensures value { Reads (λ _ d. fields.new ≡ with_named key d fields.old) depth result reader.old reader.new }
    ensures shorter { OnOk result (length reader.new < length reader.old) }
{
    match key {
        Some(key) => {
            read_value(reader, depth, key, fields)?;
            fields.keys = set_of(key) | fields.keys;
            Ok(())
        }
        None => {
            pass_value(reader, depth)?;
            fields.keys = Keys::OTHER | fields.keys;
            Ok(())
        }
    }
}

/// Returns the key that comes behind another one in the usual order of a step's keys: the user, the op, and then those of
/// the op.
#[inline(always)]
fn likely_after(key: Option<Key>, fields: &Fields) -> Key {
    match key {
        Some(Key::User) => Key::Op,
        Some(Key::Op) => match fields.op {
            Ok(StepKind::Turn) => Key::Lwp,
            _ => Key::Caller,
        },
        Some(Key::Caller) => match fields.op {
            Ok(StepKind::Ptrace) => Key::Request,
            Ok(StepKind::Sigaction) => Key::Signal,
            Ok(StepKind::Install) => Key::Rules,
            _ => Key::Which,
        },
        Some(Key::Request) => Key::Target,
        Some(Key::Target) => Key::Data,
        Some(Key::Which) => match fields.op {
            Ok(StepKind::Kill) => Key::Signal,
            _ => Key::Options,
        },
        Some(Key::Signal) => Key::Action,
        Some(Key::Lwp) => Key::Act,
        Some(Key::Act) => match fields.act {
            Ok(ActKind::Enter) => Key::Call,
            Ok(ActKind::Raise) => Key::Signal,
            _ => Key::Set,
        },
        Some(Key::Call) => Key::Code,
        _ => Key::User,
    }
}

/// Reads the members of the object that the reader is in.
#[tactic(auto, using(crate::proofs::ReadLoops::ends))]
fn read_fields(reader: &mut Tokens<'_>, depth: usize, fields: &mut Fields) -> Result<(), Invalid>
    requires { 2 < depth }
    ensures members { ReadsMembers (λ _ ms. fields.new ≡ fields_in ms) depth result reader.old reader.new }
    ensures shorter { OnOk result (length reader.new < length reader.old) }
{
    *fields = Fields::none();
    let mut likely = Key::User;
    'members: while let Some(key) = next_key(reader, likely)? {
        read_named(reader, depth, key, fields)?;
        likely = likely_after(key, fields);
    }
    Ok(())
}

/// Reads the next value, which may be a step. What its keys say is in `fields`, the policy of an install too.
#[tactic(auto, using(crate::proofs::ReadLoops::opened))]
pub(crate) fn read_step(
    reader: &mut Tokens<'_>,
    depth: usize,
    fields: &mut Fields,
) -> Result<Result<(Uid, BareStep), KeyError>, Invalid>
    requires { 3 < depth }
    ensures step { Reads (λ x d. Gives (with_policy (policy_in fields.new.rules)) x (step_of d)) depth result reader.old reader.new }
    ensures shorter { OnOk result (length reader.new < length reader.old) }
{
    let opening = open_item(reader)?;
    match opening {
        Opening::Object => {
            read_fields(reader, depth - 1, fields)?;
            Ok(step_from(fields))
        }
        Opening::Array => {
            pass_items(reader, depth - 1)?;
            Ok(Err(KeyError::Shape))
        }
        Opening::Scalar(_) => Ok(Err(KeyError::Shape)),
    }
}
