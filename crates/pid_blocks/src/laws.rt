//! Every number belongs to at most one user.

ghost use Rattle.pid_blocks.specs.Laws.{IsApart, NeverMeet, OwnsBlock};
ghost use Rattle.pid_blocks.specs.Blocks.{pid_block, tid_block, pid_owner, tid_owner};

/// No number is in the blocks of two users, and none is both a process's and an LWP's. The owner of
/// a number is the user whose block contains it.
#[tactic(auto, unfolding(crate::specs::Blocks::pid_owner, crate::specs::Blocks::tid_owner))]
pub fn blocks_are_apart()
    ensures pids { IsApart pid_block }
    ensures tids { IsApart tid_block }
    ensures kinds { NeverMeet pid_block tid_block }
    ensures pid_owners { OwnsBlock pid_owner pid_block }
    ensures tid_owners { OwnsBlock tid_owner tid_block }
{}
