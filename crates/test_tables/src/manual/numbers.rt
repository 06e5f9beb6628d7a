//! Errors, users, blocks of numbers and the choice of free ones.

use pid_blocks::Errno::{EAGAIN, EBUSY, ECHILD, EINVAL, ENOMEM, EPERM, ESRCH};
use pid_blocks::{
    Block, Pid, Tid, Uid, cursor_after, next_free, owner_of_pid, owner_of_tid, pid_block, tid_block,
};
use std::io;

/// Prints each error with its number in errno(2).
pub fn errors(rt: &impl Print) -> io::Result<()> {
    for error in [EPERM, ESRCH, ECHILD, ENOMEM, EBUSY, EINVAL, EAGAIN] {
        println!(rt; "error {error} {} {}", error.name(), error.number())?;
    }
    Ok(())
}

/// Prints the first and the last users with their blocks, and the numbers next to theirs, which are of no user.
pub fn users(rt: &impl Print) -> io::Result<()> {
    for number in [1000, 1001, 1002, 1063, 1064, 1065] {
        match Uid::new(number) {
            Ok(user) => {
                let pids = pid_block(user);
                let tids = tid_block(user);
                println!(rt; "user {} at {}: {pids:?} {tids:?}", user.get(), user.slot())?;
            }
            Err(fault) => println!(rt; "user {number}: {fault}")?,
        }
    }
    Ok(())
}

/// Returns the user's number, or 0 for no user.
fn uid_of(owner: Option<Uid>) -> u32 {
    owner.map_or(0, |user| user.get())
}

/// Prints the owners of the borders of the blocks, as numbers of processes and of LWPs, and whether they are such
/// numbers at all.
pub fn owners(rt: &impl Print) -> io::Result<()> {
    for number in [
        0, 999, 1000, 1999, 2000, 2999, 63000, 63999, 64000, 64999, 65000, 99999, 100000, 103999,
        104000, 107999, 348000, 351999, 352000, 355999, 356000, 4294967295,
    ] {
        let process = uid_of(owner_of_pid(number));
        let lwp = uid_of(owner_of_tid(number));
        let pid = Pid::new(number).map_or(0, |pid| pid.get());
        let tid = Tid::new(number).map_or(0, |tid| tid.get());
        println!(rt; "number {number}: {process} {lwp}, {pid} {tid}")?;
    }
    Ok(())
}

/// Prints the free number that a search from 12 on finds in the block 10 to 13, where none to all of its numbers are
/// taken, and where the next search begins.
pub fn free_numbers(rt: &impl Print) -> io::Result<()> {
    let block = Block { first: 10, size: 4 };
    for count in 0..5 {
        let taken = &[12, 13, 10, 11][..count];
        match next_free(block, 12, |number| taken.contains(&number)) {
            Some(number) => {
                let cursor = cursor_after(block, number);
                println!(rt; "free {number}, then from {cursor}")?;
            }
            None => println!(rt; "none is free")?,
        }
    }
    Ok(())
}
