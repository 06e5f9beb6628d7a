//! The laws of isolation, as functions on hosts.

ghost use Rattle.std.specs.Prelude.{◌≡◌, ◌≢◌, map, IfOk, OnErr};
ghost use Rattle.requests.specs.View.{view};
ghost use Rattle.requests.specs.Isolation.{Ran, Users, AlikeSteps};
ghost use Rattle.visibility.specs.Runs.{asked, reply_given, MakesStep, BothGiven, Wanting, Agree};
ghost use Rattle.visibility.specs.ForeignLists.{AgreeAlike};

use crate::runs::run_into;
use pid_blocks::Uid;
use requests::{Host, Reply, Step};
use std::alloc::{AllocError, Global};
use stop_handlers::{Decider, Handler};

/// Makes one step of a user in two hosts that show the user the same. If neither runs out of memory, the replies
/// are equal, and the user sees the same of both hosts afterwards.
pub fn one_step<F: Decider + Send + Drop>(
    alloc: Global,
    first: &mut Host<F>,
    second: &mut Host<F>,
    user: Uid,
    step: Step<Handler<F>>,
    same: Step<Handler<F>>,
) -> (Reply, Reply)
    requires steps { same ≡ step }
    requires seen { view user first.old ≡ view user second.old }
    ensures first { MakesStep (reply_given result.0) user step first.old first.new }
    ensures second { MakesStep (reply_given result.1) user step second.old second.new }
    ensures equal { BothGiven (reply_given result.0) (reply_given result.1) (λ r q. (r ≡ q) × (view user first.new ≡ view user second.new)) }
{
    let _number = user.get();
    first.assert_invariant();
    second.assert_invariant();
    let reply = first.step(alloc, user, step);
    let other = second.step(alloc, user, same);
    (reply, other)
}

/// Makes a step of another user. It doesn't change what the user sees, whatever the reply.
pub fn other_step<F: Decider + Send + Drop>(
    alloc: Global,
    host: &mut Host<F>,
    user: Uid,
    other: Uid,
    step: Step<Handler<F>>,
) -> Reply
    requires differ { user ≢ other }
    ensures step { MakesStep (reply_given result) other step host.old host.new }
    ensures view { view user host.new ≡ view user host.old }
{
    let _numbers = (user.get(), other.get());
    host.assert_invariant();
    host.step(alloc, other, step)
}

/// Makes two steps in two equal hosts, which differ only in numbers that the user doesn't see. If neither runs out of
/// memory, the replies are equal, and so are the hosts afterwards.
pub fn foreign_number<F: Decider + Send + Drop>(
    alloc: Global,
    first: &mut Host<F>,
    second: &mut Host<F>,
    user: Uid,
    step: Step<Handler<F>>,
    other: Step<Handler<F>>,
) -> (Reply, Reply)
    requires hosts { second.old ≡ first.old }
    requires steps { AlikeSteps user first.old step other }
    ensures first { MakesStep (reply_given result.0) user step first.old first.new }
    ensures second { MakesStep (reply_given result.1) user other second.old second.new }
    ensures equal { BothGiven (reply_given result.0) (reply_given result.1) (λ r q. (r ≡ q) × (first.new ≡ second.new)) }
{
    let _number = user.get();
    first.assert_invariant();
    let reply = first.step(alloc, user, step);
    let answer = second.step(alloc, user, other);
    (reply, answer)
}

/// Makes two lists of steps of all users in two hosts. All room for replies is allocated before either host changes: an
/// error means out of memory, and changes nothing.
fn both_lists<F: Decider + Send + Drop>(
    alloc: Global,
    first: &mut Host<F>,
    second: &mut Host<F>,
    steps: Vec<(Uid, Step<Handler<F>>)>,
    others: Vec<(Uid, Step<Handler<F>>)>,
) -> Result<(Vec<Reply>, Vec<Reply>), AllocError>
    ensures first { IfOk result (λ r. Ran (map asked steps.items) (map reply_given r.0.items) first.old first.new) }
    ensures second { IfOk result (λ r. Ran (map asked others.items) (map reply_given r.1.items) second.old second.new) }
    ensures first_wanting { IfOk result (λ r. Wanting (map asked steps.items) (map reply_given r.0.items) first.old) }
    ensures second_wanting { IfOk result (λ r. Wanting (map asked others.items) (map reply_given r.1.items) second.old) }
    ensures users { IfOk result (λ r. Users (map asked steps.items) × Users (map asked others.items)) }
    ensures first_refused { OnErr result (first.new ≡ first.old) }
    ensures second_refused { OnErr result (second.new ≡ second.old) }
{
    let replies = Vec::with_capacity(alloc, steps.len())?;
    let answers = Vec::with_capacity(alloc, others.len())?;
    let told = run_into(alloc, first, steps, replies);
    let said = run_into(alloc, second, others, answers);
    Ok((told, said))
}

/// Makes two lists of steps of all users in two hosts that show a user the same. If the answered steps of that user
/// are the same in both, so are the user's replies, and what the user sees of both hosts afterwards. All room for
/// replies is allocated before either host changes: an error means out of memory, and changes nothing.
pub fn two_lists<F: Decider + Send + Drop>(
    alloc: Global,
    first: &mut Host<F>,
    second: &mut Host<F>,
    user: Uid,
    steps: Vec<(Uid, Step<Handler<F>>)>,
    others: Vec<(Uid, Step<Handler<F>>)>,
) -> Result<(Vec<Reply>, Vec<Reply>), AllocError>
    requires seen { view user first.old ≡ view user second.old }
    ensures first { IfOk result (λ r. Ran (map asked steps.items) (map reply_given r.0.items) first.old first.new) }
    ensures second { IfOk result (λ r. Ran (map asked others.items) (map reply_given r.1.items) second.old second.new) }
    ensures first_wanting { IfOk result (λ r. Wanting (map asked steps.items) (map reply_given r.0.items) first.old) }
    ensures second_wanting { IfOk result (λ r. Wanting (map asked others.items) (map reply_given r.1.items) second.old) }
    ensures equal { IfOk result (λ r. Agree user (map asked steps.items) (map asked others.items) (map reply_given r.0.items) (map reply_given r.1.items) first.new second.new) }
    ensures first_refused { OnErr result (first.new ≡ first.old) }
    ensures second_refused { OnErr result (second.new ≡ second.old) }
{
    let _number = user.get();
    first.assert_invariant();
    second.assert_invariant();
    let (told, said) = both_lists(alloc, first, second, steps, others)?;
    Ok((told, said))
}

/// Makes two lists of steps of all users in two hosts that show a user the same. If the answered steps of that user
/// differ only in numbers that the user doesn't see where they are used, the user's replies are the same, and so is what
/// the user sees of both hosts afterwards. An error means out of memory, and changes nothing.
pub fn foreign_numbers<F: Decider + Send + Drop>(
    alloc: Global,
    first: &mut Host<F>,
    second: &mut Host<F>,
    user: Uid,
    steps: Vec<(Uid, Step<Handler<F>>)>,
    others: Vec<(Uid, Step<Handler<F>>)>,
) -> Result<(Vec<Reply>, Vec<Reply>), AllocError>
    requires seen { view user first.old ≡ view user second.old }
    ensures first { IfOk result (λ r. Ran (map asked steps.items) (map reply_given r.0.items) first.old first.new) }
    ensures second { IfOk result (λ r. Ran (map asked others.items) (map reply_given r.1.items) second.old second.new) }
    ensures first_wanting { IfOk result (λ r. Wanting (map asked steps.items) (map reply_given r.0.items) first.old) }
    ensures second_wanting { IfOk result (λ r. Wanting (map asked others.items) (map reply_given r.1.items) second.old) }
    ensures equal { IfOk result (λ r. AgreeAlike user first.old (map asked steps.items) (map asked others.items) (map reply_given r.0.items) (map reply_given r.1.items) first.new second.new) }
    ensures first_refused { OnErr result (first.new ≡ first.old) }
    ensures second_refused { OnErr result (second.new ≡ second.old) }
{
    let _number = user.get();
    first.assert_invariant();
    second.assert_invariant();
    let (told, said) = both_lists(alloc, first, second, steps, others)?;
    Ok((told, said))
}
