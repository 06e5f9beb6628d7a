//! The tables of a host: its processes, its LWPs, and where the search for each user's next number begins.

ghost use Rattle.std.specs.Prelude.{◌≡◌, ℕ, ◌+◌, ◌*◌, ◌<◌, ◌≤◌, ◌^◌, Bool, true, false, IsSomeAnd, OnOk, OnErr, IfOk, IfSome, IfNone, filter, get_or, map, option_map, slice_get};
ghost use Rattle.pid_blocks.specs.Users.{IsUser};
ghost use Rattle.pid_blocks.specs.Blocks.{slot, users, pid_block, tid_block, InBlock};
ghost use Rattle.lwp_table.specs.Lwps.{first_lwp, lwp_of, lwps_of, next_lwp};
ghost use Rattle.proc_table.specs.Processes.{process_of};
ghost use Rattle.proc_table.specs.Seen.{visible_process, seen_lwp, find_seen, owns};
ghost use Rattle.std.specs.Fn.{FnReturnsAt};
ghost use Rattle.proc_table.specs.Members.{member};
ghost use Rattle.proc_table.specs.Walks.{next_of, next_news, next_tracee, next_child, find_tracee, find_child, DecidesRows};
ghost use Rattle.proc_table.specs.Fresh.{no_rows, fresh_pid, fresh_tid, process_count, lwp_count_of, lwp_count, is_process, is_lwp};
ghost use Rattle.proc_table.specs.Kept.{TableInvariant};

mod changes;

use crate::ProcData;
use crate::bit_sets::NumberSet;
use crate::processes::Processes;
use lwp_table::{LwpData, LwpTable, OfProcess, OfUser};
use pid_blocks::{
    FIRST_PID, FIRST_TID, PIDS, Pid, TIDS, Tid, Uid, in_pid_block, in_tid_block, next_free,
    pid_block, tid_block,
};
use std::alloc::{AllocError, Global};
use std::marker::Model;

/// The rows of processes and LWPs, and the users' cursors.
#[derive(Drop)]
pub struct Tables {
    processes: Processes,
    /// The numbers of the processes, counted from the first one of all users.
    pids: NumberSet,
    /// The numbers of those that a wait may report.
    news: NumberSet,
    lwps: LwpTable,
    pid_cursors: [u32; 64],
    tid_cursors: [u32; 64],
}

impl Model for Tables {
    ghost use Rattle.std.specs.Prelude.{min};
    ghost use Rattle.proc_table.specs.Kept.{Table};
    ghost use Rattle.proc_table.specs.Indexed.{IsIndexed};

    ghost Value = { Table };

    ghost view = { λ t. record {
      rows = record { processes = t.processes.rows; lwps = t.lwps.rows; pid_cursors = t.pid_cursors; tid_cursors = t.tid_cursors };
      spare_processes = min t.processes.spare (min t.pids.spare t.news.spare);
      spare_lwps = t.lwps.spare;
    } };

    ghost invariant = { λ t. IsIndexed t.pids.pages t.news.pages (record { processes = t.processes.rows; lwps = t.lwps.rows; pid_cursors = t.pid_cursors; tid_cursors = t.tid_cursors }) };
}

impl Clone for Tables {
    ghost is_clone = { λ tables copy. copy.rows ≡ tables.rows };

    /// Returns tables of the same rows and cursors, which take as much memory. It takes the time of the most rows that
    /// there were. The copy's room may be another. Fails when out of memory.
    fn clone(&self) -> Result<Tables, AllocError> {
        Ok(Tables {
            processes: self.processes.clone()?,
            pids: self.pids.clone()?,
            news: self.news.clone()?,
            lwps: self.lwps.clone()?,
            pid_cursors: self.pid_cursors,
            tid_cursors: self.tid_cursors,
        })
    }
}

/// Returns 64 numbers that rise from the first one by steps, one for each user.
#[tactic(auto, using(crate::proofs::Cursors::filled))]
fn cursors(first: u32, step: u32) -> [u32; 64]
    requires { first + step * 64 < 2 ^ 32 }
    ensures { result ≡ map (λ u. first + step * slot u) users }
{
    let mut numbers = [0; 64];
    for user in 0u32..64 {
        numbers[user as usize] = first + step * user;
    }
    numbers
}

impl Tables {
    /// Returns the tables of an unused host.
    #[tactic(auto, using(crate::proofs::KeepsLwps::keeps_none))]
    pub fn unused(alloc: Global) -> Tables
        ensures { result.rows ≡ no_rows }
    {
        Tables {
            processes: Processes::empty(alloc),
            pids: NumberSet::new(alloc),
            news: NumberSet::new(alloc),
            lwps: LwpTable::empty(alloc),
            pid_cursors: cursors(FIRST_PID, PIDS),
            tid_cursors: cursors(FIRST_TID, TIDS),
        }
    }

    /// Returns the tables of an unused host. Fails when out of memory.
    pub fn new(alloc: Global) -> Result<Tables, AllocError>
        ensures { IfOk result (λ tables. tables.rows ≡ no_rows) }
    {
        Ok(Tables::unused(alloc))
    }

    /// Makes the rows and cursors those of the source, in the tables' own memory as far as it goes. Fails when out of
    /// memory, and then the tables are those of an unused host.
    #[inline(always)]
    pub fn copy_from(&mut self, alloc: Global, source: &Tables) -> Result<(), AllocError>
        ensures copied { OnOk result (self.new.rows ≡ source.now.rows) }
        ensures emptied { OnErr result (self.new.rows ≡ no_rows) }
    {
        if self.processes.copy_from(alloc, &source.processes).is_ok()
            && self.pids.copy_from(&source.pids).is_ok()
            && self.news.copy_from(&source.news).is_ok()
            && self.lwps.copy_from(alloc, &source.lwps).is_ok()
        {
            self.pid_cursors = source.pid_cursors;
            self.tid_cursors = source.tid_cursors;
            return Ok(());
        }
        *self = Tables::unused(alloc);
        Err(AllocError)
    }

    /// Makes room for `count` more processes. Fails when out of memory. The rows stay unchanged.
    pub fn reserve_process(&mut self, count: usize) -> Result<(), AllocError>
        ensures room { OnOk result (count ≤ self.new.spare_processes) }
        ensures rows { self.new.rows ≡ self.old.rows }
        ensures spare { self.old.spare_processes ≤ self.new.spare_processes }
        ensures others { self.new.spare_lwps ≡ self.old.spare_lwps }
    {
        self.processes.reserve(count)?;
        self.pids.reserve(count)?;
        self.news.reserve(count)
    }

    /// Makes room for `count` more LWPs. Fails when out of memory. The rows stay unchanged.
    pub fn reserve_lwp(&mut self, count: usize) -> Result<(), AllocError>
        ensures room { OnOk result (count ≤ self.new.spare_lwps) }
        ensures rows { self.new.rows ≡ self.old.rows }
        ensures spare { self.old.spare_lwps ≤ self.new.spare_lwps }
        ensures others { self.new.spare_processes ≡ self.old.spare_processes }
    {
        self.lwps.reserve(count)
    }

    /// States what the tables maintain, for proofs.
    pub fn assert_invariant(&self)
        ensures { TableInvariant self.now.rows }
    {
        let _ = &self.processes;
    }

    /// Returns the process with this number, if any.
    #[inline(always)]
    pub fn process(&self, pid: Pid) -> Option<ProcData>
        ensures row { result ≡ process_of pid self.now.rows.processes }
        ensures kept { TableInvariant self.now.rows }
    {
        self.process_by_number(pid.get())
    }

    /// Returns the process with this number, if any.
    #[inline(always)]
    pub fn process_by_number(&self, number: u32) -> Option<ProcData>
        ensures row { result ≡ process_of number self.now.rows.processes }
        ensures kept { TableInvariant self.now.rows }
    {
        self.processes.get(number)
    }

    /// Returns the LWP with this number, if any.
    pub fn lwp(&self, tid: Tid) -> Option<LwpData>
        ensures row { result ≡ lwp_of tid self.now.rows.lwps }
        ensures kept { TableInvariant self.now.rows }
    {
        self.lwps.get(tid)
    }

    /// Returns the oldest LWP of a process, if any.
    pub fn first_lwp(&self, pid: Pid) -> Option<LwpData>
        ensures row { result ≡ first_lwp pid self.now.rows.lwps }
        ensures kept { TableInvariant self.now.rows }
    {
        self.lwps.first_of(pid)
    }

    /// Returns the next LWP of a process by birth after this one, if any.
    pub fn next_lwp(&self, pid: Pid, after: Tid) -> Option<LwpData>
        requires { IsSomeAnd (lwp_of after self.now.rows.lwps) (λ l. l.pid ≡ pid) }
        ensures row { result ≡ next_lwp pid after self.now.rows.lwps }
        ensures kept { TableInvariant self.now.rows }
    {
        self.lwps.next_of(pid, after)
    }

    /// Returns the LWP at this place in order of birth, if any, by as many passes over all rows as the place is far on.
    pub fn lwp_at(&self, place: usize) -> Option<LwpData>
        ensures row { result ≡ slice_get self.now.rows.lwps place }
        ensures kept { TableInvariant self.now.rows }
    {
        self.lwps.at(place)
    }

    /// Returns an iterator over the LWPs of a process, in order of birth. It looks at no other row.
    pub fn lwps_of(&self, pid: Pid) -> OfProcess<'_>
        ensures rows { result ≡ lwps_of pid self.now.rows.lwps }
        ensures kept { TableInvariant self.now.rows }
    {
        self.lwps.of_process(pid)
    }

    /// Returns an iterator over the LWPs of the user's processes, in order of birth. It looks at no other row.
    pub fn lwps_of_user(&self, uid: Uid) -> OfUser<'_>
        ensures rows { result ≡ filter (λ l. owns uid l.pid self.now.rows.processes) self.now.rows.lwps }
        ensures kept { TableInvariant self.now.rows }
    {
        self.lwps.of_user(uid)
    }

    /// Returns the user's process with this number, if any. It looks at no row if the number isn't in the user's block: all
    /// processes in it are the user's.
    #[tactic(auto, using(crate::proofs::Seen::process_laws))]
    pub fn visible_process(&self, uid: Uid, number: u32) -> Option<ProcData>
        ensures row { result ≡ visible_process uid number self.now.rows }
        ensures kept { TableInvariant self.now.rows }
    {
        let _ = &self.processes;
        if !in_pid_block(uid, number) {
            return None;
        }
        self.process_by_number(number)
    }

    /// Returns the LWP with this number if its process is the user's. It looks at no row if the number isn't in the user's
    /// block: all LWPs in it are of the user's processes.
    #[tactic(auto, using(crate::proofs::Seen::lwp_laws))]
    pub fn seen_lwp(&self, uid: Uid, number: u32) -> Option<LwpData>
        ensures row { result ≡ seen_lwp uid number self.now.rows }
        ensures kept { TableInvariant self.now.rows }
    {
        let _ = &self.lwps;
        if !in_tid_block(uid, number) {
            return None;
        }
        self.lwp(Tid::new(number)?)
    }

    /// Returns the number if it is that of one of the user's processes.
    #[tactic(auto, using(crate::proofs::Seen::process_laws))]
    fn seen_pid(&self, uid: Uid, number: u32) -> Option<Pid>
        ensures { result ≡ option_map (λ p. p.pid) (visible_process uid number self.now.rows) }
    {
        let _ = &self.processes;
        if in_pid_block(uid, number) && self.is_process(number) {
            Pid::new(number)
        } else {
            None
        }
    }

    /// Returns the process of the user's LWP with this number, if any.
    #[tactic(auto, using(crate::proofs::Seen::lwp_laws))]
    fn seen_lwp_pid(&self, uid: Uid, number: u32) -> Option<Pid>
        ensures { result ≡ option_map (λ l. l.pid) (seen_lwp uid number self.now.rows) }
    {
        let _ = &self.lwps;
        if !in_tid_block(uid, number) {
            return None;
        }
        self.lwp_process(number)
    }

    /// Returns the user's process with the number, or with an LWP of that number if it is above 99999.
    pub fn find_seen(&self, uid: Uid, number: u32) -> Option<Pid>
        ensures seen { result ≡ find_seen uid number self.now.rows }
        ensures kept { TableInvariant self.now.rows }
    {
        let _ = &self.processes;
        if number < FIRST_TID {
            self.seen_pid(uid, number)
        } else {
            self.seen_lwp_pid(uid, number)
        }
    }

    /// Returns the place of the user's first number above `after` in a set, if any.
    fn next_in(set: &NumberSet, uid: Uid, after: u32) -> Option<u32>
        ensures some { IfSome result (λ k. (after < k + 1000) × InBlock (pid_block uid) (k + 1000) × (member set.now.pages k ≡ true)
            × ((n : ℕ) → after < n + 1000 → InBlock (pid_block uid) (n + 1000) → n < k → member set.now.pages n ≡ false)) }
        ensures none { IfNone result ((n : ℕ) → after < n + 1000 → InBlock (pid_block uid) (n + 1000) → member set.now.pages n ≡ false) }
        ensures user { IsUser uid }
    {
        let block = pid_block(uid);
        let first = after.saturating_add(1).max(block.first) - FIRST_PID;
        set.next(first, block.first + block.size - FIRST_PID)
    }

    /// Returns the number of the user's first process above a number, if any. It looks at no row.
    #[inline(always)]
    pub fn next_pid(&self, uid: Uid, after: u32) -> Option<Pid>
        ensures next { result ≡ option_map (λ p. p.pid) (next_of uid after self.now.rows.processes) }
        ensures kept { TableInvariant self.now.rows }
    {
        let place = Tables::next_in(&self.pids, uid, after)?;
        Pid::new(FIRST_PID + place)
    }

    /// Returns the user's first process above a number that a wait may report, if any. It looks at no other row.
    pub fn next_news(&self, uid: Uid, after: u32) -> Option<ProcData>
        ensures row { result ≡ next_news uid after self.now.rows.processes }
        ensures kept { TableInvariant self.now.rows }
    {
        let place = Tables::next_in(&self.news, uid, after)?;
        self.process_by_number(FIRST_PID + place)
    }

    /// Returns the user's first process above a number, if any.
    #[inline(always)]
    #[tactic(auto, using(crate::proofs::NextOf::next_of_numbered))]
    pub fn next_of(&self, uid: Uid, after: u32) -> Option<ProcData>
        ensures row { result ≡ next_of uid after self.now.rows.processes }
        ensures kept { TableInvariant self.now.rows }
    {
        let pid = self.next_pid(uid, after)?;
        self.process(pid)
    }

    /// Returns the first process above a number that this process traces, if any.
    #[inline(always)]
    pub fn next_tracee(&self, pid: Pid, after: u32) -> Option<ProcData>
        ensures row { result ≡ next_tracee pid after self.now.rows.processes }
        ensures kept { TableInvariant self.now.rows }
    {
        self.processes.next_tracee(pid, after)
    }

    /// Returns the first process above a number whose parent is this process, if any.
    #[inline(always)]
    pub fn next_child(&self, pid: Pid, after: u32) -> Option<ProcData>
        ensures row { result ≡ next_child pid after self.now.rows.processes }
        ensures kept { TableInvariant self.now.rows }
    {
        self.processes.next_child(pid, after)
    }

    /// Returns the first process, by rising number, that this process traces and that passes the test, if any. It
    /// takes one look at each tracee up to that one.
    pub fn find_tracee<F: Fn(&ProcData) -> bool>(&self, pid: Pid, test: F) -> Option<ProcData>
        requires callable { F.IsAlwaysCallable test }
        // the result of the definition, for any test that the closure decides on the rows
        ensures row { (t : ProcData → Bool) → DecidesRows (FnReturnsAt F.Fn test) self.now.rows.processes t → result ≡ find_tracee pid t self.now.rows.processes }
        ensures kept { TableInvariant self.now.rows }
    {
        self.processes.find_tracee(pid, test)
    }

    /// Returns the process's first child, by rising number, that passes the test. It looks once at each up to that one.
    pub fn find_child<F: Fn(&ProcData) -> bool>(&self, pid: Pid, test: F) -> Option<ProcData>
        requires callable { F.IsAlwaysCallable test }
        // the result of the definition, for any test that the closure decides on the rows
        ensures row { (t : ProcData → Bool) → DecidesRows (FnReturnsAt F.Fn test) self.now.rows.processes t → result ≡ find_child pid t self.now.rows.processes }
        ensures kept { TableInvariant self.now.rows }
    {
        self.processes.find_child(pid, test)
    }

    /// Returns the number of the user's processes.
    pub fn process_count(&self, uid: Uid) -> usize
        ensures count { result ≡ process_count uid self.now.rows }
        ensures kept { TableInvariant self.now.rows }
    {
        self.processes.count(uid)
    }

    /// Returns the number of the user's LWPs.
    pub fn lwp_count_of(&self, uid: Uid) -> usize
        ensures count { result ≡ lwp_count_of uid self.now.rows }
        ensures kept { TableInvariant self.now.rows }
    {
        self.lwps.user_count(uid)
    }

    /// Returns the number of a process's LWPs.
    pub fn lwp_count(&self, pid: Pid) -> usize
        ensures count { result ≡ lwp_count pid self.now.rows }
        ensures kept { TableInvariant self.now.rows }
    {
        self.lwps.count(pid)
    }

    /// Returns where the search for the user's next process number begins.
    pub fn pid_cursor(&self, uid: Uid) -> u32
        ensures cursor { result ≡ get_or self.now.rows.pid_cursors (slot uid) 0 }
        ensures kept { TableInvariant self.now.rows }
    {
        self.pid_cursors[uid.slot()]
    }

    /// Returns where the search for the user's next LWP number begins.
    pub fn tid_cursor(&self, uid: Uid) -> u32
        ensures cursor { result ≡ get_or self.now.rows.tid_cursors (slot uid) 0 }
        ensures kept { TableInvariant self.now.rows }
    {
        self.tid_cursors[uid.slot()]
    }

    /// Returns the process of the LWP with this number, if any.
    #[tactic(auto, using(crate::proofs::Seen::lwp_laws))]
    fn lwp_process(&self, number: u32) -> Option<Pid>
        ensures process { result ≡ option_map (λ l. l.pid) (lwp_of number self.now.rows.lwps) }
        ensures kept { TableInvariant self.now.rows }
    {
        let _ = &self.lwps;
        let tid = Tid::new(number)?;
        self.lwps.process(tid)
    }

    /// Tests whether a process has the number.
    #[tactic(auto, using(crate::proofs::Seen::number_laws))]
    fn is_process(&self, number: u32) -> bool
        ensures { result ≡ is_process self.now.rows number }
    {
        number >= FIRST_PID && self.pids.contains(number - FIRST_PID)
    }

    /// Tests whether an LWP has the number.
    #[tactic(auto, using(crate::proofs::Seen::has_laws))]
    fn is_lwp(&self, number: u32) -> bool
        ensures { result ≡ is_lwp self.now.rows number }
    {
        match Tid::new(number) {
            Some(tid) => self.lwps.has(tid),
            None => false,
        }
    }

    /// Returns the number for the user's next process, or `None` if all of the user's process numbers are taken.
    pub fn fresh_pid(&self, uid: Uid) -> Option<Pid>
        ensures free { result ≡ fresh_pid uid self.now.rows }
        ensures home { IfSome result (λ n. InBlock (pid_block uid) n) }
        ensures fresh { IfSome result (λ n. is_process self.now.rows n ≡ false) }
        ensures kept { TableInvariant self.now.rows }
    {
        let cursor = self.pid_cursor(uid);
        let number = next_free(pid_block(uid), cursor, |n| self.is_process(n))?;
        Pid::new(number)
    }

    /// Returns the number for the user's next LWP, or `None` if all of the user's LWP numbers are taken.
    pub fn fresh_tid(&self, uid: Uid) -> Option<Tid>
        ensures free { result ≡ fresh_tid uid self.now.rows }
        ensures home { IfSome result (λ n. InBlock (tid_block uid) n) }
        ensures fresh { IfSome result (λ n. is_lwp self.now.rows n ≡ false) }
        ensures kept { TableInvariant self.now.rows }
    {
        let cursor = self.tid_cursor(uid);
        let number = next_free(tid_block(uid), cursor, |n| self.is_lwp(n))?;
        Tid::new(number)
    }
}
