//! What a run hands out of a script's replies.

ghost use Rattle.std.specs.Prelude.{⊤, ◌≡◌, ◌≤◌, ◌+◌, ◌++◌, [], ◌∷◌, ℕ, List, IfOk};
ghost use Rattle.sessions.specs.SessionScripts.{HasRoomAfter};
ghost use Rattle.step_types.specs.declared.Reply.{Reply};

use pid_blocks::Uid;
use requests::Reply;
use std::alloc::{AllocError, Global};

/// Makes what a run hands out of a script's replies. It is begun before the first step of any script. Then the script's
/// own thread adds the replies, one by one, while other threads add theirs.
pub trait Report: Sized + Send + Drop {
    /// What is made of the replies so far.
    type Draft: Send + Drop;

    /// What the run hands out.
    type Output: Send + Drop;

    /// The replies that it was made of, in order.
    ghost made_of: { Self.Output → List Reply };

    /// What else is known of it, if the replies are to this user.
    ghost tells: { Self → ℕ → Self.Output → Type 0 };

    /// The draft was begun by this report for this user. It has room for so many more replies, and was made of these.
    ghost drafted: { Self.Draft → Self → ℕ → ℕ → List Reply → Type 0 };

    /// Begins a draft with room for so many replies to the user. An error means out of memory.
    fn begin(self, alloc: Global, uid: Uid, replies: usize) -> Result<Self::Draft, AllocError>
        ensures { IfOk result (λ draft. drafted draft self uid replies []) };

    /// Adds a reply.
    fn add(draft: &mut Self::Draft, alloc: Global, reply: Reply)
        ensures { (report : Self) (user room : ℕ) (before : List Reply) → drafted draft.old report user (room + 1) before
            → drafted draft.new report user room (before ++ reply ∷ []) };

    /// Ends the draft.
    fn end(draft: Self::Draft) -> Self::Output
        ensures { (report : Self) (user room : ℕ) (replies : List Reply) → drafted draft report user room replies
            → (made_of result ≡ replies) × tells report user result };
}

/// Hands out the replies.
#[derive(Drop)]
pub struct Whole;

impl Report for Whole {
    type Draft = Vec<Reply>;

    type Output = Vec<Reply>;

    ghost made_of = { λ v. v.items };

    ghost tells = { λ _ _ _. ⊤ };

    ghost drafted = { λ v _ _ room replies. HasRoomAfter replies room v };

    fn begin(self, alloc: Global, _uid: Uid, replies: usize) -> Result<Vec<Reply>, AllocError> {
        Vec::with_capacity(alloc, replies)
    }

    fn add(draft: &mut Vec<Reply>, _alloc: Global, reply: Reply) {
        if draft.len() < draft.capacity() {
            draft.push_reserved(reply);
        }
    }

    fn end(draft: Vec<Reply>) -> Vec<Reply> {
        draft
    }
}
