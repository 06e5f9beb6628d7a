//! What the hosts of all users have made together, which only contracts see.

ghost use Rattle.std.specs.Prelude.{◌≡◌, [], None};
ghost use Rattle.std.specs.Borrow.{ftrue};
ghost use Rattle.step_types.specs.Plain.{with_handler};
ghost use Rattle.user_hosts.specs.Made.{Made as Steps, made_code, one_more, one_more_without_handler, with_user};

use pid_blocks::Uid;
use requests::{PlainStep, Reply, Step};
use std::marker::Model;

/// A list of steps. It has no bytes, and its functions do nothing at run time.
#[derive(Drop)]
pub(crate) struct Made {
    pub(crate) ghost steps: { Steps } by { made_code },
}

impl Model for Made {
    ghost also_owns = { λ _. ftrue };
}

// It owns nothing.
unsafe impl Send for Made {}

/// How a list is read off a value.
trait Lists<X> {
    ghost steps: { X → Steps };
}

struct Nothing;

impl Lists<()> for Nothing {
    ghost steps = { λ _. [] };
}

struct Same;

impl Lists<Made> for Same {
    ghost steps = { λ made. made.steps };
}

struct OneMore;

impl<'a> Lists<(&'a Made, Uid, &'a PlainStep, &'a Reply)> for OneMore {
    ghost steps = { λ x. one_more x.1 x.2.now x.3.now x.0.now.steps };
}

struct OneMoreWithoutHandler;

impl<'a, H> Lists<(&'a Made, Uid, &'a Step<H>, &'a Option<Reply>)> for OneMoreWithoutHandler {
    ghost steps = { λ x. one_more_without_handler x.1 (with_handler None x.2.now) x.3.now x.0.now.steps };
}

struct WithUser;

impl<'a> Lists<(&'a Made, Uid, &'a Made)> for WithUser {
    ghost steps = { λ x. with_user x.1 x.0.now.steps x.2.now.steps };
}

impl Made {
    #[inline(always)]
    fn of<X, L: Lists<X>>(_value: &X) -> Made
        ensures { result.steps ≡ L.steps _value.now }
    {
        Made {}
    }

    /// Returns the list without a step.
    pub(crate) fn nothing() -> Made
        ensures { result.steps ≡ [] }
    {
        Made::of::<(), Nothing>(&())
    }

    /// Returns the same list.
    pub(crate) fn same(&self) -> Made
        ensures { result.steps ≡ self.now.steps }
    {
        Made::of::<Made, Same>(self)
    }

    /// Returns the list with one more step of the user, unless it ran out of memory.
    pub(crate) fn one_more(&self, user: Uid, step: &PlainStep, reply: &Reply) -> Made
        ensures { result.steps ≡ one_more user step.now reply.now self.now.steps }
    {
        Made::of::<(&Made, Uid, &PlainStep, &Reply), OneMore>(&(self, user, step, reply))
    }

    /// Returns the list with one more step of the user, unless it needs a handler or ran out of memory.
    #[inline(always)]
    pub(crate) fn one_more_without_handler<H>(
        &self,
        user: Uid,
        step: &Step<H>,
        reply: &Option<Reply>,
    ) -> Made
        ensures { result.steps ≡ one_more_without_handler user (with_handler None step.now) reply.now self.now.steps }
    {
        Made::of::<(&Made, Uid, &Step<H>, &Option<Reply>), OneMoreWithoutHandler>(&(
            self, user, step, reply,
        ))
    }

    /// Returns the list with the user's steps of the source in place of the user's own.
    pub(crate) fn with_user(&self, user: Uid, source: &Made) -> Made
        ensures { result.steps ≡ with_user user self.now.steps source.now.steps }
    {
        Made::of::<(&Made, Uid, &Made), WithUser>(&(self, user, source))
    }
}
