//! Lists of steps of all users.

ghost use Rattle.std.specs.Prelude.{◌≡◌, [], map, length, IfOk, OnErr, vec_capacity};
ghost use Rattle.requests.specs.Isolation.{Ran, Private, Users};
ghost use Rattle.visibility.specs.Runs.{asked, reply_given, Wanting};

use pid_blocks::Uid;
use requests::{Host, Reply, Step};
use std::alloc::{AllocError, Global};
use stop_handlers::{Decider, Handler};

/// Makes the steps in turn. `replies` has room for their replies.
pub(crate) fn run_into<F: Decider + Send + Drop>(
    alloc: Global,
    host: &mut Host<F>,
    steps: Vec<(Uid, Step<Handler<F>>)>,
    mut replies: Vec<Reply>,
) -> Vec<Reply>
    requires empty { replies.items ≡ [] }
    requires room { vec_capacity replies ≡ length steps.items }
    ensures ran { Ran (map asked steps.items) (map reply_given result.items) host.old host.new }
    ensures wanting { Wanting (map asked steps.items) (map reply_given result.items) host.old }
    ensures users { Users (map asked steps.items) }
{
    for (user, step) in steps {
        let _number = user.get();
        let reply = host.step(alloc, user, step);
        replies.push_reserved(reply);
    }
    replies
}

/// Makes the steps of all users in turn on the host, and returns the replies in order. The reply is ENOMEM only for a
/// step that takes memory and that the machine wouldn't refuse; such a step changes nothing. Room for the replies is
/// allocated first: an error means out of memory, and changes nothing.
pub fn run_list<F: Decider + Send + Drop>(
    alloc: Global,
    host: &mut Host<F>,
    steps: Vec<(Uid, Step<Handler<F>>)>,
) -> Result<Vec<Reply>, AllocError>
    ensures ran { IfOk result (λ replies. Ran (map asked steps.items) (map reply_given replies.items) host.old host.new) }
    ensures wanting { IfOk result (λ replies. Wanting (map asked steps.items) (map reply_given replies.items) host.old) }
    ensures own { IfOk result (λ replies. Private (map asked steps.items) (map reply_given replies.items) host.old host.new) }
    ensures refused { OnErr result (host.new ≡ host.old) }
{
    host.assert_invariant();
    let replies = Vec::with_capacity(alloc, steps.len())?;
    Ok(run_into(alloc, host, steps, replies))
}
