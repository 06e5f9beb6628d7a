//! What a step changed of its user's rows, as a JSON object.
ghost use Rattle.std.specs.Prelude.{◌≡◌, ◌∷◌, [], codes, IfOk};
ghost use Rattle.std.specs.Option.{option_copied};
ghost use Rattle.lwp_table.specs.Lwps.{Once};
ghost use Rattle.reply_json.specs.Objects.{member_tokens, object_of, Puts};
ghost use Rattle.json_trace.specs.Changes.{changed, changes_members, numbered, removed, removed_member};

use crate::rows::{Row, push_rows};
use json::Writer;
use lwp_table::LwpData;
use proc_table::ProcData;
use reply_json::push_numbers;
use std::alloc::{AllocError, Global};
use visibility::View;

/// Returns the row with the number, and the place after it. It is looked for first at `guess`.
fn row_numbered<R: Row>(rows: &[R], guess: usize, number: u32) -> (Option<&R>, usize)
    requires { Once R.number_of rows.now }
    ensures { option_copied result.0 ≡ numbered R.number_of number rows.now }
{
    if let Some(row) = rows.get(guess) {
        if row.number() == number {
            return (Some(row), guess + 1);
        }
    }
    let mut place = 0usize;
    for row in rows {
        place += 1;
        if row.number() == number {
            return (Some(row), place);
        }
    }
    (None, guess)
}

/// Returns the rows that are new, or not as they were. It takes the time of both lists, if they have the rows that they
/// share in the same order.
fn changed_rows<R: Row>(alloc: Global, before: &[R], after: &[R]) -> Result<Vec<R>, AllocError>
    requires { Once R.number_of before.now }
    ensures { IfOk result (λ rows. rows.items ≡ changed R.number_of R.eq before.now after.now) }
{
    let mut changed = Vec::new(alloc);
    let mut next = 0usize;
    for row in after {
        let (old, place) = row_numbered(before, next, row.number());
        next = place;
        let is_same = match old {
            Some(old) => *old == *row,
            None => false,
        };
        if !is_same {
            changed.push(*row)?;
        }
    }
    Ok(changed)
}

/// Returns the numbers of the rows that are gone.
fn removed_numbers<R: Row>(alloc: Global, before: &[R], after: &[R]) -> Result<Vec<u32>, AllocError>
    requires { Once R.number_of after.now }
    ensures { IfOk result (λ numbers. numbers.items ≡ removed R.number_of before.now after.now) }
{
    let mut removed = Vec::new(alloc);
    let mut next = 0usize;
    for row in before {
        let (found, place) = row_numbered(after, next, row.number());
        next = place;
        if found.is_none() {
            removed.push(row.number())?;
        }
    }
    Ok(removed)
}

/// Writes the numbers of rows that are gone, if there are any.
#[tactic(auto, unfolding(crate::specs::Changes::removed_member))]
fn push_removed(out: &mut Writer, name: &str, numbers: &[u32]) -> Result<(), AllocError>
    ensures { Puts result out.old out.new (member_tokens (removed_member name.now numbers.now)) }
{
    if numbers.is_empty() {
        return Ok(());
    }
    push_numbers(out, name, numbers)
}

/// Writes the members that tell what is different between what a user saw and sees.
#[tactic(auto, using(reply_json::proofs::TokenLemmas::put_rules), unfolding(crate::specs::Changes::changes_members))]
fn push_changes(
    alloc: Global,
    out: &mut Writer,
    processes: &[ProcData],
    lwps: &[LwpData],
    after: &View,
) -> Result<(), AllocError>
    requires processes { Once (λ p. p.pid) processes.now × Once (λ p. p.pid) after.now.processes }
    requires lwps { Once (λ l. l.tid) lwps.now × Once (λ l. l.tid) after.now.lwps }
    ensures { Puts result out.old out.new (member_tokens (changes_members processes.now lwps.now after.now)) }
{
    let changed_processes = changed_rows(alloc, processes, after.processes.as_slice())?;
    let changed_lwps = changed_rows(alloc, lwps, after.lwps.as_slice())?;
    let removed_processes = removed_numbers(alloc, processes, after.processes.as_slice())?;
    let removed_lwps = removed_numbers(alloc, lwps, after.lwps.as_slice())?;
    push_rows(out, "processes", changed_processes.as_slice())?;
    push_rows(out, "lwps", changed_lwps.as_slice())?;
    push_removed(out, "removed_processes", removed_processes.as_slice())?;
    push_removed(out, "removed_lwps", removed_lwps.as_slice())
}

/// Writes the member that tells what is different between what a user saw and sees.
#[tactic(auto, using(reply_json::proofs::TokenLemmas::put_rules))]
pub(crate) fn push_changed_rows(
    alloc: Global,
    out: &mut Writer,
    processes: &[ProcData],
    lwps: &[LwpData],
    after: &View,
) -> Result<(), AllocError>
    requires processes { Once (λ p. p.pid) processes.now × Once (λ p. p.pid) after.now.processes }
    requires lwps { Once (λ l. l.tid) lwps.now × Once (λ l. l.tid) after.now.lwps }
    ensures { Puts result out.old out.new (member_tokens ((codes "rows", object_of (changes_members processes.now lwps.now after.now)) ∷ [])) }
{
    out.key("rows")?;
    out.begin_object()?;
    push_changes(alloc, out, processes, lwps, after)?;
    out.end_object()
}
