//! What adds rows to the tables, changes them and removes them.

ghost use Rattle.std.specs.Prelude.{◌≡◌, ◌+◌, ◌<◌, ◌≤◌, true, false, None, IsSome, IsSomeAnd};
ghost use Rattle.pid_blocks.specs.Blocks.{tid_block, InBlock};
ghost use Rattle.lwp_table.specs.Lwps.{first_lwp, lwp_of, ComputesRows, SparesOthers};
ghost use Rattle.lwp_table.specs.Marks.{Spares};
ghost use Rattle.proc_table.specs.Processes.{process_of};
ghost use Rattle.proc_table.specs.Rows.{change_process};
ghost use Rattle.proc_table.specs.Seen.{owns};
ghost use Rattle.std.specs.Fn.{FnReturnsAt};
ghost use Rattle.proc_table.specs.Walks.{next_tracee, next_child};
ghost use Rattle.proc_table.specs.Fresh.{add_process, add_lwp, is_process, is_lwp};
ghost use Rattle.proc_table.specs.Edits.{map_lwps, IsLwpChange};
ghost use Rattle.proc_table.specs.Kept.{IsRow, InOwnBlock, Named, set_process, set_lwp, drop_process, drop_lwp};

use super::Tables;
use crate::{ProcData, State};
use lwp_table::{LwpData, Traits};
use pid_blocks::{FIRST_PID, Pid, Tid, Uid, cursor_after, pid_block, tid_block};
use signals::SigSet;

impl Tables {
    /// Adds a process. Allocates nothing.
    pub fn add_process(&mut self, row: ProcData)
        requires room { 0 < self.old.spare_processes }
        requires fresh { is_process self.old.rows row.pid ≡ false }
        requires home { InOwnBlock row }
        requires named { Named self.old.rows row }
        ensures rows { self.new.rows ≡ add_process row self.old.rows }
        ensures spare { self.old.spare_processes ≤ self.new.spare_processes + 1 }
        ensures others { self.new.spare_lwps ≡ self.old.spare_lwps }
    {
        let slot = row.uid.slot();
        self.pid_cursors[slot] = cursor_after(pid_block(row.uid), row.pid.get());
        let place = row.pid.get() - FIRST_PID;
        self.pids.begin_page(place);
        self.pids.put(place, true);
        self.news.begin_page(place);
        self.news.put(place, row.has_news());
        self.processes.add(&row);
    }

    /// Adds an LWP of a process of the user. Allocates nothing.
    pub fn add_lwp(&mut self, uid: Uid, row: LwpData)
        requires room { 0 < self.old.spare_lwps }
        requires fresh { is_lwp self.old.rows row.tid ≡ false }
        requires home { InBlock (tid_block uid) row.tid }
        requires owner { owns uid row.pid self.old.rows.processes ≡ true }
        ensures rows { self.new.rows ≡ add_lwp uid row self.old.rows }
        ensures spare { self.old.spare_lwps ≤ self.new.spare_lwps + 1 }
        ensures others { self.new.spare_processes ≡ self.old.spare_processes }
    {
        let slot = uid.slot();
        self.tid_cursors[slot] = cursor_after(tid_block(uid), row.tid.get());
        self.lwps.add(row);
    }

    /// Replaces the row with the same number, which is of the same user.
    #[tactic(auto, using(crate::proofs::Tied::named_list_owners))]
    pub fn set_process(&mut self, row: ProcData)
        requires there { IsSomeAnd (process_of row.pid self.old.rows.processes) (λ was. was.uid ≡ row.uid) }
        requires named { Named self.old.rows row }
        ensures rows { self.new.rows ≡ set_process row self.old.rows }
        ensures spare { self.new.spare_processes ≡ self.old.spare_processes }
        ensures others { self.new.spare_lwps ≡ self.old.spare_lwps }
    {
        self.news.put(row.pid.get() - FIRST_PID, row.has_news());
        self.processes.set(&row);
    }

    /// Replaces the pending signals of a process, in its place.
    #[inline(always)]
    pub fn set_pending(&mut self, pid: Pid, pending: SigSet)
        requires there { IsRow self.old.rows pid }
        ensures rows { self.new.rows ≡ change_process pid (λ p. record p { pending = pending }) self.old.rows }
        ensures spare { self.new.spare_processes ≡ self.old.spare_processes }
        ensures others { self.new.spare_lwps ≡ self.old.spare_lwps }
    {
        self.processes.set_pending(pid, pending);
    }

    /// Replaces the state of a process, in its place.
    #[inline(always)]
    pub fn set_state(&mut self, pid: Pid, state: State)
        requires there { IsRow self.old.rows pid }
        ensures rows { self.new.rows ≡ change_process pid (λ p. record p { state = state }) self.old.rows }
        ensures spare { self.new.spare_processes ≡ self.old.spare_processes }
        ensures others { self.new.spare_lwps ≡ self.old.spare_lwps }
    {
        let has_news = self.processes.set_state(pid, state);
        self.news.put(pid.get() - FIRST_PID, has_news);
    }

    /// Replaces the row with the same number, which is of the same process.
    #[tactic(auto, using(crate::proofs::KeepsLwps::keeps_set_lwp))]
    pub fn set_lwp(&mut self, row: LwpData)
        requires { IsSomeAnd (lwp_of row.tid self.old.rows.lwps) (λ was. was.pid ≡ row.pid) }
        ensures rows { self.new.rows ≡ set_lwp row self.old.rows }
        ensures spare { self.new.spare_lwps ≡ self.old.spare_lwps }
        ensures others { self.new.spare_processes ≡ self.old.spare_processes }
    {
        self.lwps.set(row);
    }

    /// Changes each LWP of a process in its place, by a change that leaves LWPs without the touched traits as they are.
    /// An LWP keeps its number and its process. It looks at no LWP if none may have such a trait, and only at one if no
    /// other may.
    #[inline(always)]
    pub fn edit_touched_lwps<F: Fn(&LwpData) -> LwpData>(
        &mut self,
        pid: Pid,
        touched: &Traits,
        edit: F,
    )
        requires callable { F.IsAlwaysCallable edit }
        requires change { (change : LwpData → LwpData) × IsLwpChange (FnReturnsAt F.Fn edit) self.old.rows.lwps change × Spares touched.now change }
        // the rows by the definition, for any such change that the closure computes on the rows
        ensures rows { (change : LwpData → LwpData) → ComputesRows (FnReturnsAt F.Fn edit) self.old.rows.lwps change → Spares touched.now change → self.new.rows ≡ map_lwps pid change self.old.rows }
        ensures spare { self.new.spare_lwps ≡ self.old.spare_lwps }
        ensures others { self.new.spare_processes ≡ self.old.spare_processes }
    {
        self.lwps.edit_touched_of(pid, touched, edit);
    }

    /// Changes each LWP of a process in its place, by a change that leaves LWPs that don't wait for `child` as they are.
    /// An LWP keeps its number and its process. It looks only at the LWP that may wait for it.
    #[inline(always)]
    pub fn edit_waiting_lwps<F: Fn(&LwpData) -> LwpData>(&mut self, pid: Pid, child: Pid, edit: F)
        requires callable { F.IsAlwaysCallable edit }
        requires change { (change : LwpData → LwpData) × IsLwpChange (FnReturnsAt F.Fn edit) self.old.rows.lwps change × SparesOthers child change }
        // the rows by the definition, for any such change that the closure computes on the rows
        ensures rows { (change : LwpData → LwpData) → ComputesRows (FnReturnsAt F.Fn edit) self.old.rows.lwps change → SparesOthers child change → self.new.rows ≡ map_lwps pid change self.old.rows }
        ensures spare { self.new.spare_lwps ≡ self.old.spare_lwps }
        ensures others { self.new.spare_processes ≡ self.old.spare_processes }
    {
        self.lwps.edit_waiting_of(pid, child, edit);
    }

    /// Removes a process that no row names.
    pub fn remove_process(&mut self, pid: Pid)
        requires there { IsRow self.old.rows pid }
        requires tracees { next_tracee pid 0 self.old.rows.processes ≡ None }
        requires children { next_child pid 0 self.old.rows.processes ≡ None }
        requires lwps { first_lwp pid self.old.rows.lwps ≡ None }
        ensures rows { self.new.rows ≡ drop_process pid self.old.rows }
        ensures spare { self.old.spare_processes ≤ self.new.spare_processes }
        ensures others { self.new.spare_lwps ≡ self.old.spare_lwps }
    {
        self.pids.put(pid.get() - FIRST_PID, false);
        self.news.put(pid.get() - FIRST_PID, false);
        self.processes.remove(pid);
    }

    /// Removes an LWP.
    #[tactic(auto, using(crate::proofs::KeepsLwps::keeps_drop_lwp))]
    pub fn remove_lwp(&mut self, tid: Tid)
        requires { IsSome (lwp_of tid self.old.rows.lwps) }
        ensures rows { self.new.rows ≡ drop_lwp tid self.old.rows }
        ensures spare { self.old.spare_lwps ≤ self.new.spare_lwps }
        ensures others { self.new.spare_processes ≡ self.old.spare_processes }
    {
        self.lwps.remove(tid);
    }
}
