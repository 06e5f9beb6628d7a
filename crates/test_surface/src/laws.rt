//! The laws of isolation, on hosts.

ghost use Rattle.std.specs.Prelude.{◌≡◌, [], ◌∷◌, IfOk, OnOk};
ghost use Rattle.requests.specs.Isolation.{host_after};
ghost use Rattle.requests.specs.Machine.{empty};
ghost use Rattle.requests.specs.Run.{last};
ghost use Rattle.step_types.specs.declared.step.Step.TheVariants as op;
ghost use Rattle.step_types.specs.declared.Request.TheVariants as request;
ghost use Rattle.visibility.specs.WorkedRuns.{kills, by};

use pid_blocks::Uid;
use requests::{Host, Reply, Request, Step};
use std::alloc::{AllocError, Global};
use stop_handlers::{ByPolicy, Handler};
use test_kit::{Row, TestError, check_replies, expect, lines_of, rows_of, steps_in};
use trace_stop::Settings;
use visibility::laws::{foreign_number, foreign_numbers, one_step, other_step, two_lists};

pub fn check(rt: &impl Print, alloc: Global) -> Result<(), TestError> {
    one_step_beside_a_step_of_another(alloc)?;
    a_foreign_number_is_as_good_as_nobodys(alloc)?;
    two_lists_in_which_a_user_asks_the_same(alloc)?;
    two_lists_that_differ_in_foreign_numbers(alloc)?;
    println!(rt; "laws on hosts: 4 checks passed")?;
    Ok(())
}

/// Creates an unused host.
fn unused(alloc: Global) -> Result<Host<ByPolicy>, AllocError>
    ensures { IfOk result (λ host. host ≡ kills) }
{
    Host::new(alloc, Settings::standard())
}

/// Makes a process of the user. An error means out of memory.
fn spawn(alloc: Global, host: &mut Host<ByPolicy>, user: Uid) -> Result<(), AllocError>
    ensures { OnOk result (host.new ≡ host_after user op.Spawn host.old) }
{
    let reply = host.step(alloc, user, Step::Spawn);
    if reply.is_memory() {
        return Err(AllocError);
    }
    Ok(())
}

/// Creates a host on which the first user has the processes 1000 and 1001, and the second 2000.
fn with_three(alloc: Global) -> Result<Host<ByPolicy>, TestError>
    ensures { IfOk result (λ host. host ≡ last (by 1001 op.Spawn ∷ by 1002 op.Spawn ∷ by 1001 op.Spawn ∷ []) kills) }
{
    let (first, second) = (Uid::new(1001)?, Uid::new(1002)?);
    let mut host = unused(alloc)?;
    spawn(alloc, &mut host, first)?;
    spawn(alloc, &mut host, second)?;
    spawn(alloc, &mut host, first)?;
    Ok(host)
}

/// Returns the reply to a step of the second user, and the replies to a step of the first one: after it, and on a host
/// without the second user.
fn beside_another(alloc: Global) -> Result<(Reply, (Reply, Reply)), TestError> {
    let (user, other) = (Uid::new(1001)?, Uid::new(1002)?);
    let mut shared = unused(alloc)?;
    let mut own = unused(alloc)?;
    let reply = other_step(alloc, &mut shared, user, other, Step::Spawn);
    let replies = one_step(alloc, &mut shared, &mut own, user, Step::Spawn, Step::Spawn);
    Ok((reply, replies))
}

fn one_step_beside_a_step_of_another(alloc: Global) -> Result<(), TestError> {
    let (reply, (shared, own)) = beside_another(alloc)?;
    let found = format!(in alloc; "{reply}, {shared}, {own}")?;
    let is_own = found.as_str() == "new 2000 104000, new 1000 100000, new 1000 100000";
    expect(is_own, "a step of another user changes a reply")
}

/// Returns an attach by process 1000.
fn attach_to(target: u32) -> Step<Handler<ByPolicy>>
    ensures { result ≡ op.Ptrace 1000 request.Attach target 0 }
{
    Step::Ptrace {
        caller: 1000,
        request: Request::Attach,
        target,
        arg: 0,
    }
}

/// Returns the replies to an attach to another user's process, and to an unused number.
fn foreign_attaches(alloc: Global) -> Result<(Reply, Reply), TestError> {
    let user = Uid::new(1001)?;
    let mut one = with_three(alloc)?;
    let mut other = with_three(alloc)?;
    let (step, also) = (attach_to(2000), attach_to(1500));
    Ok(foreign_number(alloc, &mut one, &mut other, user, step, also))
}

fn a_foreign_number_is_as_good_as_nobodys(alloc: Global) -> Result<(), TestError> {
    let (foreign, unused) = foreign_attaches(alloc)?;
    let found = format!(in alloc; "{foreign}, {unused}")?;
    let is_unknown = found.as_str() == "error ESRCH 3, error ESRCH 3";
    expect(is_unknown, "another user's number is known")
}

/// Returns the replies to the first user's lines on an unused host, and to all lines on another.
fn both_lists(
    alloc: Global,
    own: &[Row<'_>],
    all: &[Row<'_>],
) -> Result<(Vec<Reply>, Vec<Reply>), TestError> {
    let steps = steps_in(alloc, own, None)?;
    let others = steps_in(alloc, all, None)?;
    let user = Uid::new(1001)?;
    let mut one = unused(alloc)?;
    let mut other = unused(alloc)?;
    Ok(two_lists(alloc, &mut one, &mut other, user, steps, others)?)
}

const LISTS: &str = "
spawn -> new 1000 100000
1002: spawn -> new 2000 104000
1002: ptrace 2000 PT_ATTACH 1000 -> error ESRCH 3
list 1000 -> pids 1000
";

fn two_lists_in_which_a_user_asks_the_same(alloc: Global) -> Result<(), TestError> {
    let all = rows_of(alloc, LISTS)?;
    let own = lines_of(alloc, all.as_slice(), Uid::new(1001)?, None)?;
    let (first, both) = both_lists(alloc, own.as_slice(), all.as_slice())?;
    check_replies(alloc, own.as_slice(), first.as_slice())?;
    check_replies(alloc, all.as_slice(), both.as_slice())
}

/// Returns the replies to two lists of steps of both users, each on an unused host.
fn alike_lists(
    alloc: Global,
    foreign: &[Row<'_>],
    others: &[Row<'_>],
) -> Result<(Vec<Reply>, Vec<Reply>), TestError> {
    let steps = steps_in(alloc, foreign, None)?;
    let alike = steps_in(alloc, others, None)?;
    let user = Uid::new(1001)?;
    let mut one = unused(alloc)?;
    let mut other = unused(alloc)?;
    Ok(foreign_numbers(alloc, &mut one, &mut other, user, steps, alike)?)
}

/// The first user names the second one's process and LWP.
const FOREIGN: &str = "
spawn -> new 1000 100000
1002: spawn -> new 2000 104000
ptrace 1000 PT_ATTACH 2000 -> error ESRCH 3
turn 104000 compute -> error ESRCH 3
wait4 1000 2000 -> error ECHILD 10
kill 1000 2000 9 -> error ESRCH 3
1002: list 2000 -> pids 2000
list 2000 -> error ESRCH 3
list 1000 -> pids 1000
";

/// The first user names unused numbers in their place.
const UNUSED: &str = "
spawn -> new 1000 100000
ptrace 1000 PT_ATTACH 1500 -> error ESRCH 3
turn 100007 compute -> error ESRCH 3
wait4 1000 1500 -> error ECHILD 10
1002: ptrace 2000 PT_ATTACH 1000 -> error ESRCH 3
kill 1000 1500 9 -> error ESRCH 3
list 1500 -> error ESRCH 3
list 1000 -> pids 1000
";

fn two_lists_that_differ_in_foreign_numbers(alloc: Global) -> Result<(), TestError> {
    let foreign = rows_of(alloc, FOREIGN)?;
    let unused = rows_of(alloc, UNUSED)?;
    let (named, unnamed) = alike_lists(alloc, foreign.as_slice(), unused.as_slice())?;
    check_replies(alloc, foreign.as_slice(), named.as_slice())?;
    check_replies(alloc, unused.as_slice(), unnamed.as_slice())
}
