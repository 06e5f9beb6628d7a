//! Two hosts, compared by what users see of them.

ghost use Rattle.std.specs.Prelude.{◌≡◌, ◌↔◌, IsTrue, IfOk};
ghost use Rattle.requests.specs.View.{view};

use crate::{TestError, expect};
use pid_blocks::Uid;
use requests::Host;
use std::alloc::{AllocError, Global};
use stop_handlers::ByPolicy;
use visibility::user_view;

/// Returns whether a user sees the same of two hosts.
pub fn sees_same(
    alloc: Global,
    left: &Host<ByPolicy>,
    right: &Host<ByPolicy>,
    user: Uid,
) -> Result<bool, AllocError>
    ensures { IfOk result (λ same. IsTrue same ↔ (view user left.now ≡ view user right.now)) }
{
    Ok(user_view(alloc, left, user)? == user_view(alloc, right, user)?)
}

/// Checks that each of the users sees the same of two hosts. The error has this name.
pub fn check_hosts(
    alloc: Global,
    left: &Host<ByPolicy>,
    right: &Host<ByPolicy>,
    users: &[Uid],
    name: &'static str,
) -> Result<(), TestError> {
    for user in users {
        expect(sees_same(alloc, left, right, *user)?, name)?;
    }
    Ok(())
}
