//! Each user's own block of process numbers and of LWP numbers, and the choice of a free number.

ghost use Rattle.std.specs.Prelude.{◌≡◌, ◌+◌, ◌-◌, ◌^◌, ◌≤◌, ◌<◌, ℕ, Bool, true, false, SomeIff, IfSome, IfNone};
ghost use Rattle.pid_blocks.specs.Users.{IsUser};
ghost use Rattle.pid_blocks.specs.Blocks.{pid_block, tid_block, cursor_after, next_free, first_free, in_block, InBlock, pid_owner, tid_owner};
ghost use Rattle.pid_blocks.specs.Search.{Decides};

use crate::{Block, FIRST_PID, FIRST_TID, FIRST_USER, PIDS, Pid, TIDS, Uid};

/// Returns the block of a user's process numbers.
#[inline(always)]
pub fn pid_block(user: Uid) -> Block
    ensures block { result ≡ pid_block user }
    ensures user { IsUser user }
{
    Block {
        first: FIRST_PID + PIDS * user.slot() as u32,
        size: PIDS,
    }
}

/// Returns the block of a user's LWP numbers.
#[inline(always)]
pub fn tid_block(user: Uid) -> Block
    ensures block { result ≡ tid_block user }
    ensures user { IsUser user }
{
    Block {
        first: FIRST_TID + TIDS * user.slot() as u32,
        size: TIDS,
    }
}

/// Tests whether the number is in the block of the user's process numbers.
#[inline(always)]
pub fn in_pid_block(user: Uid, number: u32) -> bool
    ensures inside { result ≡ in_block (pid_block user) number }
    ensures user { IsUser user }
{
    number.wrapping_sub(pid_block(user).first) < PIDS
}

/// Tests whether the number is in the block of process numbers that contains a process's number.
#[inline(always)]
#[tactic(auto, unfolding(crate::specs::Blocks::pid_owner))]
pub fn in_block_of(pid: Pid, number: u32) -> bool
    ensures inside { result ≡ in_block (pid_block (pid_owner pid)) number }
    ensures user { IsUser (pid_owner pid) }
{
    number / PIDS == pid.get() / PIDS
}

/// Tests whether the number is in the block of the user's LWP numbers.
#[inline(always)]
pub fn in_tid_block(user: Uid, number: u32) -> bool
    ensures inside { result ≡ in_block (tid_block user) number }
    ensures user { IsUser user }
{
    number.wrapping_sub(tid_block(user).first) < TIDS
}

/// Returns the user whose block contains the process number, or `None` if no user's block does.
#[tactic(auto, unfolding(crate::specs::Blocks::pid_owner))]
pub fn owner_of_pid(number: u32) -> Option<Uid>
    ensures owner { SomeIff result ((1000 ≤ number) × (number < 65000)) (pid_owner number) }
    ensures home { IfSome result (λ u. IsUser u × InBlock (pid_block u) number) }
    ensures stranger { IfNone result ((u : ℕ) → IsUser u → ¬ InBlock (pid_block u) number) }
{
    let offset = number.checked_sub(FIRST_PID)?;
    Uid::new(offset / PIDS + FIRST_USER).ok()
}

/// Returns the user whose block contains the LWP number, or `None` if no user's block does.
#[tactic(auto, unfolding(crate::specs::Blocks::tid_owner))]
pub fn owner_of_tid(number: u32) -> Option<Uid>
    ensures owner { SomeIff result ((100000 ≤ number) × (number < 356000)) (tid_owner number) }
    ensures home { IfSome result (λ u. IsUser u × InBlock (tid_block u) number) }
    ensures stranger { IfNone result ((u : ℕ) → IsUser u → ¬ InBlock (tid_block u) number) }
{
    let offset = number.checked_sub(FIRST_TID)?;
    Uid::new(offset / TIDS + FIRST_USER).ok()
}

/// Returns the first number that isn't taken: from the cursor to the block's end, and then from the block's
/// first number up to the cursor. Returns `None` if all numbers of the block are taken. If the block reaches
/// beyond `u32::MAX`, its numbers are those up to there.
pub fn next_free<F: Fn(u32) -> bool>(block: Block, cursor: u32, taken: F) -> Option<u32>
    requires within { InBlock block cursor }
    requires callable { F.IsAlwaysCallable taken }
    // the result of the definition, for any test that the closure decides on the block
    ensures exact { block.first + block.size ≤ 2 ^ 32 → (test : ℕ → Bool) → Decides (F.post taken) block.first (block.first + block.size) test → result ≡ next_free block cursor test }
    ensures home { IfSome result (InBlock block) }
    ensures free { IfSome result (λ n. F.post taken n false) }
    ensures full { IfNone result ((n : ℕ) → InBlock block n → n < 2 ^ 32 → F.post taken n true) }
{
    match first_free(cursor, block.end().min(1 << 32), &taken) {
        Some(number) => Some(number),
        None => first_free(block.first, u64::from(cursor), &taken),
    }
}

/// Returns the first number from `from` to below `end` that isn't taken.
fn first_free<F: Fn(u32) -> bool>(from: u32, end: u64, taken: &F) -> Option<u32>
    requires numbers { end ≤ 2 ^ 32 }
    requires callable { F.IsAlwaysCallable taken.now }
    ensures exact { (test : ℕ → Bool) → Decides (F.post taken.now) from end test → result ≡ first_free test (end - from) from }
    ensures home { IfSome result (λ n. (from ≤ n) × (n < end)) }
    ensures free { IfSome result (λ n. F.post taken.now n false) }
    ensures full { IfNone result ((n : ℕ) → from ≤ n → n < end → F.post taken.now n true) }
{
    for number in u64::from(from)..end {
        let number = number as u32;
        if !taken(number) {
            return Some(number);
        }
    }
    None
}

/// Returns where the search for a free number begins after `number` was given out: at the next number, or
/// at the block's first number after its last one. No number is above `u32::MAX`.
pub fn cursor_after(block: Block, number: u32) -> u32
    ensures { block.first + block.size ≤ 2 ^ 32 → result ≡ cursor_after block number }
{
    match number.checked_add(1) {
        Some(next) if u64::from(next) < block.end() => next,
        _ => block.first,
    }
}

impl Block {
    /// Returns the number after the block's last one.
    fn end(self) -> u64
        ensures { result ≡ self.first + self.size }
    {
        u64::from(self.first) + u64::from(self.size)
    }
}
