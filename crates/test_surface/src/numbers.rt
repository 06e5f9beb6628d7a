//! Numbers of users, processes, LWPs, errors, signals, events and statuses, and the rules of policies.

use event_masks::{Call, EventMask, StopFlags, call_code, default_mask, entry_flags, exit_flags};
use pid_blocks::{
    BadUser, Block, Errno, Pid, Tid, Uid, cursor_after, in_block_of, in_pid_block, in_tid_block,
    next_free, owner_of_pid, owner_of_tid, pid_block, tid_block,
};
use signals::{
    Action, BadDisposition, BadSignal, Disposition, Dispositions, Pass, SigSet, Signal,
    default_action,
};
use std::alloc::Global;
use stop_handlers::{ByPolicy, Decision, Handler, Policy, Rule, StopView, TooManyRules};
use test_kit::{TestError, expect};
use wait4::Status;

pub fn check(rt: &impl Print, alloc: Global) -> Result<(), TestError> {
    the_last_user_is_1064()?;
    numbers_have_owners()?;
    a_block_ends_before_the_next_one()?;
    the_search_for_a_free_number_goes_round()?;
    errors_have_numbers()?;
    signals_have_names()?;
    a_set_has_its_signals()?;
    an_exec_resets_what_is_caught()?;
    a_call_stops_by_the_mask(alloc)?;
    words_are_those_of_wait()?;
    a_policy_has_16_rules()?;
    println!(rt; "numbers and words: 11 checks passed")?;
    Ok(())
}

fn the_last_user_is_1064() -> Result<(), TestError> {
    let is_none = matches!(Uid::new(1000), Err(BadUser)) && Uid::new(1065).is_err();
    expect(is_none, "a number is a user's")?;
    let last = Uid::new(1064)?;
    expect(
        last.get() == 1064 && last.slot() == 63,
        "a user has another slot",
    )?;
    let pids = Block {
        first: 64000,
        size: 1000,
    };
    let tids = Block {
        first: 352000,
        size: 4000,
    };
    let is_own = pid_block(last) == pids && tid_block(last) == tids;
    expect(is_own, "a user has other blocks")
}

fn numbers_have_owners() -> Result<(), TestError> {
    let last = Some(Uid::new(1064)?);
    let is_own = owner_of_pid(64000) == last && owner_of_tid(355999) == last;
    expect(is_own, "a number is of another user")?;
    let is_none = owner_of_pid(65000).is_none() && owner_of_tid(99999).is_none();
    expect(is_none, "a number of no block has an owner")?;
    let pid = Pid::new(64000).map(|pid| pid.get());
    let tid = Tid::new(355999).map(|tid| tid.get());
    expect(
        pid == Some(64000) && tid == Some(355999),
        "a number is lost",
    )?;
    let is_none = Pid::new(999).is_none() && Tid::new(356000).is_none();
    expect(is_none, "a number of no block is a process's or an LWP's")
}

fn a_block_ends_before_the_next_one() -> Result<(), TestError> {
    let user = Uid::new(1063)?;
    let has_pids = in_pid_block(user, 63000) && in_pid_block(user, 63999);
    let has_tids = in_tid_block(user, 348000) && in_tid_block(user, 351999);
    expect(has_pids && has_tids, "a number isn't in its block")?;
    let has_others = in_pid_block(user, 62999) || in_pid_block(user, 64000);
    let has_other_lwps = in_tid_block(user, 347999) || in_tid_block(user, 352000);
    expect(
        !has_others && !has_other_lwps,
        "a number is in the next block",
    )?;
    let pid = Pid::new(63500).ok_or(TestError::Wrong("a number is lost"))?;
    let is_near = in_block_of(pid, 63000) && in_block_of(pid, 63999);
    let is_far = in_block_of(pid, 62999) || in_block_of(pid, 64000);
    expect(
        is_near && !is_far,
        "another block contains a process's number",
    )
}

fn the_search_for_a_free_number_goes_round() -> Result<(), TestError> {
    let block = Block { first: 10, size: 4 };
    let found = next_free(block, 12, |number| number > 11);
    expect(found == Some(10), "another number is free")?;
    expect(
        next_free(block, 12, |_| true).is_none(),
        "a taken number is free",
    )?;
    let cursors = (cursor_after(block, 10), cursor_after(block, 13));
    expect(cursors == (11, 10), "the next search begins elsewhere")
}

fn errors_have_numbers() -> Result<(), TestError> {
    for (error, name, number) in [
        (Errno::EPERM, "EPERM", 1),
        (Errno::ESRCH, "ESRCH", 3),
        (Errno::ECHILD, "ECHILD", 10),
        (Errno::ENOMEM, "ENOMEM", 12),
        (Errno::EBUSY, "EBUSY", 16),
        (Errno::EINVAL, "EINVAL", 22),
        (Errno::EAGAIN, "EAGAIN", 35),
    ] {
        let is_same = error.name() == name && error.number() == number;
        expect(is_same, "an error has another name or number")?;
    }
    Ok(())
}

fn signals_have_names() -> Result<(), TestError> {
    let is_none = matches!(Signal::new(0), Err(BadSignal)) && Signal::new(32).is_err();
    expect(is_none, "a number is a signal's")?;
    let usr1 = Signal::by_name("SIGUSR1");
    expect(
        usr1.map(|signal| signal.number()) == Some(30),
        "SIGUSR1 isn't 30",
    )?;
    expect(Signal::new(30)?.name() == "SIGUSR1", "30 isn't SIGUSR1")?;
    let is_passed = Pass::new(0).is_ok() && Pass::new(31).is_ok();
    expect(is_passed, "a signal isn't passed on")?;
    expect(matches!(Pass::new(32), Err(BadSignal)), "32 is passed on")?;
    for (number, action) in [(15, Action::End), (18, Action::Stop), (20, Action::Discard)] {
        let is_same = default_action(Signal::new(number)?) == action;
        expect(is_same, "a signal has another default action")?;
    }
    Ok(())
}

fn a_set_has_its_signals() -> Result<(), TestError> {
    let (kill, term, usr1) = (Signal::new(9)?, Signal::new(15)?, Signal::new(30)?);
    let set = SigSet::empty().with(kill).union(SigSet::empty().with(usr1));
    let is_whole = set.contains(kill) && set.contains(usr1) && !set.contains(term);
    expect(is_whole, "a set has other signals")?;
    expect(set.lowest() == Some(kill), "another signal is the lowest")?;
    expect(set.bits() == 536871168, "a set has other bits")?;
    let rest = set.maskable();
    let is_rest = rest == set.without(kill) && rest.lowest() == Some(usr1);
    expect(is_rest, "SIGKILL is masked")
}

fn an_exec_resets_what_is_caught() -> Result<(), TestError> {
    let (hup, kill, term) = (Signal::new(1)?, Signal::new(9)?, Signal::new(15)?);
    let mut all = Dispositions::standard();
    let is_refused = matches!(all.set(kill, Disposition::Ignore), Err(BadDisposition));
    expect(is_refused, "SIGKILL is ignored")?;
    let is_set = all.set(hup, Disposition::Ignore).is_ok()
        && all.set(term, Disposition::Catch).is_ok();
    expect(is_set, "a signal is neither ignored nor caught")?;
    let is_kept = all.get(hup) == Disposition::Ignore && all.get(term) == Disposition::Catch;
    expect(is_kept, "a signal has another disposition")?;
    let after = all.after_exec();
    let is_reset = after.get(hup) == Disposition::Ignore && after.get(term) == Disposition::Default;
    expect(is_reset, "a signal has another disposition after an exec")?;
    let nothing = all.nothing();
    let is_nothing = nothing.contains(hup) && !nothing.contains(term);
    expect(is_nothing, "other signals do nothing")
}

fn a_call_stops_by_the_mask(alloc: Global) -> Result<(), TestError> {
    let (fork, scx) = (EventMask::PTRACE_FORK, EventMask::PTRACE_SCX);
    for (call, code, flags) in [
        (Call::Exit(3), 1, None),
        (Call::Fork, 2, Some(StopFlags(10))),
        (Call::Exec, 59, Some(StopFlags::PL_FLAG_SCX)),
        (Call::Vfork, 66, Some(StopFlags(138))),
        (Call::ThrExit, 431, None),
        (Call::ThrNew, 455, Some(StopFlags::PL_FLAG_SCX)),
        (Call::Other(20), 20, Some(StopFlags::PL_FLAG_SCX)),
    ] {
        let is_same = call_code(call) == code && exit_flags(fork.with(scx), call) == flags;
        expect(is_same, "a call has another code or stop")?;
    }
    expect(
        default_mask() == EventMask::PTRACE_EXEC,
        "tracing begins otherwise",
    )?;
    let sce = EventMask::PTRACE_SCE;
    let is_asked = entry_flags(sce) == Some(StopFlags::PL_FLAG_SCE) && entry_flags(fork).is_none();
    expect(is_asked, "another call stops at its entry")?;
    names_have_an_order(alloc)
}

/// The names of all events and of all flags, in their order.
const EVENTS: &str = "PTRACE_EXEC+PTRACE_SCE+PTRACE_SCX+PTRACE_FORK+PTRACE_LWP+PTRACE_VFORK";

const FLAGS: &str = "PL_FLAG_SCE+PL_FLAG_SCX+PL_FLAG_EXEC+PL_FLAG_FORKED+PL_FLAG_CHILD+PL_FLAG_BORN\
    +PL_FLAG_EXITED+PL_FLAG_VFORKED+PL_FLAG_VFORK_DONE";

fn names_have_an_order(alloc: Global) -> Result<(), TestError> {
    let events = format!(in alloc; "{}", EventMask(63))?;
    let flags = format!(in alloc; "{}", StopFlags(511))?;
    let is_same = events.as_str() == EVENTS && flags.as_str() == FLAGS;
    expect(is_same, "flags have other names")
}

fn words_are_those_of_wait() -> Result<(), TestError> {
    let stopped = Status::stopped(Signal::new(5)?);
    for (word, status) in [
        (0, Some(Status::exited(0))),
        (768, Some(Status::exited(3))),
        (9, Status::signaled(Signal::new(9)?)),
        (19, Some(Status::continued())),
        (1407, Some(stopped)),
        (32, None),
        (127, None),
        (128, None),
        (65536, None),
        (4294967295, None),
    ] {
        expect(
            Status::of_word(word) == status,
            "a word is another status's",
        )?;
        if let Some(status) = status {
            expect(status.word() == word, "a status has another word")?;
        }
    }
    expect(
        Status::signaled(Signal::new(19)?).is_none(),
        "SIGCONT ends a process",
    )
}

fn a_policy_has_16_rules() -> Result<(), TestError> {
    let (Some(pid), Some(tid)) = (Pid::new(1001), Tid::new(100001)) else {
        return Err(TestError::Wrong("a number is lost"));
    };
    let view = StopView {
        pid,
        tid,
        sig: Signal::new(30)?,
        flags: StopFlags(0),
        child: 0,
        code: 0,
    };
    for decision in [
        Decision::Decline,
        Decision::Leave,
        Decision::Continue(Pass::new(0)?),
        Decision::Detach(Pass::new(31)?),
        Decision::Kill,
    ] {
        let rule = Rule {
            signal: Some(view.sig),
            flags: view.flags,
            decision,
        };
        let policy = Policy::new(&[rule; 16])?;
        expect(
            policy.decide(&view) == decision,
            "a policy decides otherwise",
        )?;
        let handler = Handler::new(policy, ByPolicy(policy));
        let is_same = handler.policy().is_same(&policy) && handler.ask(&view) == decision;
        expect(is_same, "a handler answers otherwise")?;
        let is_refused = matches!(Policy::new(&[rule; 17]), Err(TooManyRules));
        expect(is_refused, "a policy has 17 rules")?;
    }
    Ok(())
}
