//! Sessions for callers in C. `include/tracehost.h` has the calls as C sees them.
//!
//! Each call of the header is an `extern "C"` function in this file. A handle is a box with a session, or closed, and
//! each clause says what its call does to both. What a caller in C has to keep of pointers is said in the header.
//!
//! It is apart from `open_sessions`, so that exported names and layouts are in one crate.
//!
//! Begin with the header, then with specs/Calls. The main law is `laws::all_calls_are_private`: of all calls on all
//! handles, copies of sessions among them, each user's answers are those of the user's own calls. Copies of one user are
//! not among them: of these the clause of `tracehost_copy_user` says what each user then sees.
#![tactic(auto)]

ghost use Rattle.std.specs.Prelude.{◌≡◌, ◌≢◌, ◌≤◌, ◌⊎◌, ◌↔◌, None, Some, IsSome, IsSomeAnd, IsNone, option_map};
ghost use Rattle.open_sessions.specs.Calls.{NoLine};
ghost use Rattle.pid_blocks.specs.Users.{IsUser};
ghost use Rattle.step_types.specs.declared.step.Step.TheVariants as op;
ghost use Rattle.signals.specs.Dispositions.{disposition_numbered};
ghost use Rattle.step_types.specs.Names.{request_numbered};
ghost use Rattle.tracehost_c.specs.Numbers.{act_of as numbered_act, options_numbered};
ghost use Rattle.tracehost_c.specs.Rules.{policy_numbered};
ghost use Rattle.tracehost_c.specs.Calls.{opened, style_of, Explains, Gets, LineCall, ShowsLast, ShowsNumbers, ShowsRows, ShowsState, ShowsStep, ShowsView, TakesUser, RefusesUser, TypedCall};

mod acts;
mod calls;
pub mod handle;
pub mod laws;
mod options;
mod replies;
mod rows;
mod rules;
mod views;

use acts::act_of;
use calls::{
    ANSWERED, INVALID, NO_MEMORY, NOT_OPEN, make, put_copy, put_explanation, put_line, put_numbers,
    put_rows, put_state, put_step, put_text, put_user, refused,
};
use handle::Tracehost;
use open_sessions::Session;
use options::options_of;
use pid_blocks::Uid;
use replies::FlatReply;
use requests::{Request, Step};
use rows::{FlatLwp, FlatProcess};
use rules::{FlatRule, policy_of};
use signals::Disposition;
use std::alloc::Global;
use trace_stop::Settings;
use views::put_view;

/// Opens a session with an unused host. `out` is a closed handle.
#[unsafe(no_mangle)]
pub extern "C" fn tracehost_open(
    alloc: Global,
    kill_on_debugger_exit: bool,
    out: &mut Tracehost,
) -> u32
    ensures busy { (result ≡ 1) ↔ IsSome out.old.held.session }
    ensures opened { Gets (Some (opened (record { kill_on_debugger_exit = kill_on_debugger_exit }))) out.old.held.session out.new.held.session result }
    ensures unchanged { result ≢ 0 → out.new ≡ out.old }
    ensures code { result ≤ 2 }
{
    if out.is_open() {
        return NOT_OPEN;
    }
    let settings = Settings {
        kill_on_debugger_exit,
    };
    let Ok(session) = Box::new(alloc, Session::new(alloc, settings)) else {
        return NO_MEMORY;
    };
    *out = Tracehost::of(session);
    ANSWERED
}

/// Closes a session, and frees its memory.
#[unsafe(no_mangle)]
pub extern "C" fn tracehost_close(alloc: Global, handle: &mut Tracehost) -> u32
    ensures closed { handle.new.held.session ≡ None }
    ensures open { (result ≡ 0) ↔ IsSome handle.old.held.session }
    ensures code { result ≤ 1 }
{
    if !handle.is_open() {
        return NOT_OPEN;
    }
    let taken = std::mem::replace(handle, Tracehost::closed(alloc));
    let _session = taken.session();
    ANSWERED
}

/// Copies an open session into a closed handle. From then on both go their own ways.
#[unsafe(no_mangle)]
pub extern "C" fn tracehost_copy(alloc: Global, from: &mut Tracehost, to: &mut Tracehost) -> u32
    ensures source { from.new.held.session ≡ from.old.held.session }
    ensures copied { Gets from.old.held.session to.old.held.session to.new.held.session result }
    ensures unchanged { result ≢ 0 → to.new ≡ to.old }
    ensures closed { IsNone from.old.held.session → result ≡ 1 }
    ensures busy { IsSome to.old.held.session → result ≡ 1 }
    ensures not_open { result ≡ 1 → IsSome from.old.held.session → IsSome to.old.held.session }
    ensures code { result ≤ 2 }
{
    if !from.is_open() {
        return NOT_OPEN;
    }
    if to.is_open() {
        return NOT_OPEN;
    }
    let taken = std::mem::replace(from, Tracehost::closed(alloc));
    let session = taken.session();
    let copy = session.copy(alloc);
    *from = Tracehost::of(session);
    let Ok(copy) = copy else {
        return NO_MEMORY;
    };
    let Ok(copy) = Box::new(alloc, copy) else {
        return NO_MEMORY;
    };
    *to = Tracehost::of(copy);
    ANSWERED
}

/// Copies an open session over another one. From then on both go their own ways. The first one keeps the memory that the
/// other one had, for its next copy.
#[unsafe(no_mangle)]
pub extern "C" fn tracehost_copy_over(
    alloc: Global,
    from: &mut Tracehost,
    to: &mut Tracehost,
) -> u32
    ensures source { from.new.held.session ≡ from.old.held.session }
    ensures copied { Gets from.old.held.session to.old.held.session to.new.held.session result }
    ensures unchanged { result ≢ 0 → to.new ≡ to.old }
    ensures not_open { (result ≡ 1) ↔ (IsNone from.old.held.session ⊎ IsNone to.old.held.session) }
    ensures code { result ≤ 2 }
{
    if !from.is_open() {
        return NOT_OPEN;
    }
    let mut source = std::mem::replace(from, Tracehost::closed(alloc)).session();
    let code = put_copy(alloc, &mut source, to);
    *from = Tracehost::of(source);
    code
}

/// Copies what one user has in an open session over what the user has in another one: the processes, and how many answers
/// the user has had. From then on both go their own ways. All other users of the second session keep what they have. No
/// answer is its last one afterwards.
#[unsafe(no_mangle)]
pub extern "C" fn tracehost_copy_user(
    alloc: Global,
    from: &mut Tracehost,
    to: &mut Tracehost,
    user: u32,
) -> u32
    ensures source { from.new.held.session ≡ from.old.held.session }
    ensures copied { result ≡ 0 → TakesUser user from.old.held.session to.old.held.session to.new.held.session }
    ensures unchanged { result ≢ 0 → to.new.held.session ≡ to.old.held.session }
    ensures not_open { (result ≡ 1) ↔ (IsNone from.old.held.session ⊎ IsNone to.old.held.session) }
    ensures invalid { (result ≡ 3) ↔ RefusesUser user from.old.held.session to.old.held.session }
    ensures code { result ≤ 3 }
{
    if !from.is_open() {
        return NOT_OPEN;
    }
    let source = std::mem::replace(from, Tracehost::closed(alloc)).session();
    let code = put_user(alloc, &source, user, to);
    *from = Tracehost::of(source);
    code
}

/// Answers a line, and writes the line of its answer over the front of `out`, as far as it has room, and the line's
/// whole length.
#[unsafe(no_mangle)]
pub extern "C" fn tracehost_line(
    alloc: Global,
    handle: &mut Tracehost,
    json: bool,
    line: &[u8],
    out: &mut [u8],
    whole: &mut usize,
) -> u32
    ensures call { LineCall line.now handle.old.held.session handle.new.held.session result }
    ensures shown { result ≡ 0 → ShowsLast (style_of json) handle.new.held.session out.old out.new whole.new }
    ensures kept { result ≢ 0 → (out.new ≡ out.old) × (whole.new ≡ whole.old) }
{
    if !handle.is_open() {
        return NOT_OPEN;
    }
    let taken = std::mem::replace(handle, Tracehost::closed(alloc));
    let mut session = taken.session();
    let code = put_line(alloc, &mut session, json, line, out, whole);
    *handle = Tracehost::of(session);
    code
}

/// Writes the line of the last answer as `tracehost_line` does.
#[unsafe(no_mangle)]
pub extern "C" fn tracehost_last_line(
    alloc: Global,
    handle: &mut Tracehost,
    json: bool,
    out: &mut [u8],
    whole: &mut usize,
) -> u32
    ensures session { handle.new.held.session ≡ handle.old.held.session }
    ensures closed { (result ≡ 1) ↔ IsNone handle.old.held.session }
    ensures code { result ≤ 2 }
    ensures shown { result ≡ 0 → ShowsLast (style_of json) handle.old.held.session out.old out.new whole.new }
    ensures refused { result ≢ 0 → (out.new ≡ out.old) × (whole.new ≡ whole.old) }
{
    if !handle.is_open() {
        return NOT_OPEN;
    }
    let taken = std::mem::replace(handle, Tracehost::closed(alloc));
    let mut session = taken.session();
    let code = put_text(alloc, &mut session, json, out, whole);
    *handle = Tracehost::of(session);
    code
}

/// Writes the line of the step that was answered last over the front of `out`, as far as it has room, and the line's
/// whole length. Read as a line, it is this step, a PT_TRACE_ME without what it ignores.
#[unsafe(no_mangle)]
pub extern "C" fn tracehost_last_step(
    alloc: Global,
    handle: &mut Tracehost,
    out: &mut [u8],
    whole: &mut usize,
) -> u32
    ensures session { handle.new.held.session ≡ handle.old.held.session }
    ensures closed { (result ≡ 1) ↔ IsNone handle.old.held.session }
    ensures code { result ≤ 3 }
    ensures shown { result ≡ 0 → ShowsStep handle.old.held.session out.old out.new whole.new }
    ensures none { result ≡ 3 → IsSomeAnd handle.old.held.session (λ s. NoLine s.asked) }
    ensures refused { result ≢ 0 → (out.new ≡ out.old) × (whole.new ≡ whole.old) }
{
    if !handle.is_open() {
        return NOT_OPEN;
    }
    let taken = std::mem::replace(handle, Tracehost::closed(alloc));
    let mut session = taken.session();
    let code = put_step(alloc, &mut session, out, whole);
    *handle = Tracehost::of(session);
    code
}

/// Writes why a line isn't a step over the front of `out`, as far as it has room, and the length of the whole text. It
/// calls the line by this number. A step has no explanation.
#[unsafe(no_mangle)]
pub extern "C" fn tracehost_explain(
    alloc: Global,
    line: &[u8],
    number: usize,
    out: &mut [u8],
    whole: &mut usize,
) -> u32
    ensures explained { result ≡ 0 → Explains line.now out.old out.new whole.new }
    ensures refused { result ≢ 0 → (result ≡ 2) × (out.new ≡ out.old) × (whole.new ≡ whole.old) }
{
    put_explanation(alloc, number, line, out, whole)
}

/// Writes the numbers of the last answer, if it is a list, over the front of `out`, as far as it has room, and how many
/// there are.
#[unsafe(no_mangle)]
pub extern "C" fn tracehost_numbers(
    alloc: Global,
    handle: &mut Tracehost,
    out: &mut [u32],
    whole: &mut usize,
) -> u32
    ensures session { handle.new.held.session ≡ handle.old.held.session }
    ensures closed { (result ≡ 1) ↔ IsNone handle.old.held.session }
    ensures code { result ≤ 1 }
    ensures shown { result ≡ 0 → ShowsNumbers handle.old.held.session out.old out.new whole.new }
    ensures refused { result ≢ 0 → (out.new ≡ out.old) × (whole.new ≡ whole.old) }
{
    if !handle.is_open() {
        return NOT_OPEN;
    }
    let taken = std::mem::replace(handle, Tracehost::closed(alloc));
    let session = taken.session();
    put_numbers(&session, out, whole);
    *handle = Tracehost::of(session);
    ANSWERED
}

/// Makes a process of the user.
#[unsafe(no_mangle)]
pub extern "C" fn tracehost_spawn(
    alloc: Global,
    handle: &mut Tracehost,
    user: u32,
    reply: &mut FlatReply,
) -> u32
    ensures { TypedCall user (Some op.Spawn) handle.old.held.session handle.new.held.session reply.old reply.new result }
{
    make(alloc, handle, user, &Step::Spawn, reply)
}

/// Lists the user's processes for the process `caller`.
#[unsafe(no_mangle)]
pub extern "C" fn tracehost_list(
    alloc: Global,
    handle: &mut Tracehost,
    user: u32,
    caller: u32,
    reply: &mut FlatReply,
) -> u32
    ensures { TypedCall user (Some (op.List caller)) handle.old.held.session handle.new.held.session reply.old reply.new result }
{
    make(alloc, handle, user, &Step::list(caller), reply)
}

/// sigaction(2) by the process `caller`.
#[unsafe(no_mangle)]
pub extern "C" fn tracehost_sigaction(
    alloc: Global,
    handle: &mut Tracehost,
    user: u32,
    caller: u32,
    signal: u32,
    disposition: u32,
    reply: &mut FlatReply,
) -> u32
    ensures { TypedCall user (option_map (λ d. op.Sigaction caller signal d) (disposition_numbered disposition))
        handle.old.held.session handle.new.held.session reply.old reply.new result }
{
    match Disposition::by_number(disposition) {
        Some(disposition) => make(
            alloc,
            handle,
            user,
            &Step::sigaction(caller, signal, disposition),
            reply,
        ),
        None => refused(handle),
    }
}

/// kill(2) by the process `caller`.
#[unsafe(no_mangle)]
pub extern "C" fn tracehost_kill(
    alloc: Global,
    handle: &mut Tracehost,
    user: u32,
    caller: u32,
    which: i64,
    signal: u32,
    reply: &mut FlatReply,
) -> u32
    ensures { TypedCall user (Some (op.Kill caller which signal)) handle.old.held.session handle.new.held.session reply.old reply.new result }
{
    let step = Step::Kill {
        caller,
        which,
        sig: signal,
    };
    make(alloc, handle, user, &step, reply)
}

/// wait4(2) by the process `caller`, as with WNOHANG.
#[unsafe(no_mangle)]
pub extern "C" fn tracehost_wait4(
    alloc: Global,
    handle: &mut Tracehost,
    user: u32,
    caller: u32,
    which: i64,
    options: u32,
    reply: &mut FlatReply,
) -> u32
    ensures { TypedCall user (option_map (λ o. op.Wait4 caller which o) (options_numbered options))
        handle.old.held.session handle.new.held.session reply.old reply.new result }
{
    match options_of(options) {
        Some(options) => {
            let step = Step::Wait4 {
                caller,
                which,
                options,
            };
            make(alloc, handle, user, &step, reply)
        }
        None => refused(handle),
    }
}

/// Installs a stop handler of the process `caller` that decides by these rules, at most 16.
#[unsafe(no_mangle)]
pub extern "C" fn tracehost_install(
    alloc: Global,
    handle: &mut Tracehost,
    user: u32,
    caller: u32,
    rules: &[FlatRule],
    reply: &mut FlatReply,
) -> u32
    ensures { TypedCall user (option_map (λ p. op.Install caller p) (policy_numbered rules.now))
        handle.old.held.session handle.new.held.session reply.old reply.new result }
{
    match policy_of(rules) {
        Some(policy) => make(alloc, handle, user, &Step::install(caller, policy), reply),
        None => refused(handle),
    }
}

/// Waits for any child of the process `caller`. A trace stop goes to its handlers.
#[unsafe(no_mangle)]
pub extern "C" fn tracehost_handle(
    alloc: Global,
    handle: &mut Tracehost,
    user: u32,
    caller: u32,
    reply: &mut FlatReply,
) -> u32
    ensures { TypedCall user (Some (op.Handle caller)) handle.old.held.session handle.new.held.session reply.old reply.new result }
{
    make(alloc, handle, user, &Step::handle(caller), reply)
}

/// ptrace(2) by the process `caller`.
#[unsafe(no_mangle)]
pub extern "C" fn tracehost_ptrace(
    alloc: Global,
    handle: &mut Tracehost,
    user: u32,
    caller: u32,
    request: u32,
    target: u32,
    data: u32,
    reply: &mut FlatReply,
) -> u32
    ensures { TypedCall user (option_map (λ r. op.Ptrace caller r target «data») (request_numbered request))
        handle.old.held.session handle.new.held.session reply.old reply.new result }
{
    match Request::by_number(request) {
        Some(request) => make(
            alloc,
            handle,
            user,
            &Step::ptrace(caller, request, target, data),
            reply,
        ),
        None => refused(handle),
    }
}

/// The turn of an LWP: its act by its number, and the system call and the argument of the act.
#[unsafe(no_mangle)]
pub extern "C" fn tracehost_turn(
    alloc: Global,
    handle: &mut Tracehost,
    user: u32,
    lwp: u32,
    act: u32,
    call: u32,
    argument: u32,
    reply: &mut FlatReply,
) -> u32
    ensures { TypedCall user (option_map (λ a. op.Turn lwp a) (numbered_act act call argument))
        handle.old.held.session handle.new.held.session reply.old reply.new result }
{
    match act_of(act, call, argument) {
        Some(act) => make(alloc, handle, user, &Step::turn(lwp, act), reply),
        None => refused(handle),
    }
}

/// Writes what the user sees: the rows of the processes over the front of `processes`, and those of their LWPs over the
/// front of `lwps`, as far as they have room, and how many rows there are.
#[unsafe(no_mangle)]
pub extern "C" fn tracehost_view(
    alloc: Global,
    handle: &mut Tracehost,
    user: u32,
    processes: &mut [FlatProcess],
    lwps: &mut [FlatLwp],
    process_count: &mut usize,
    lwp_count: &mut usize,
) -> u32
    ensures session { handle.new.held.session ≡ handle.old.held.session }
    ensures closed { (result ≡ 1) ↔ IsNone handle.old.held.session }
    ensures code { result ≤ 3 }
    ensures shown { result ≡ 0 → ShowsView user handle.old.held.session
        processes.old processes.new process_count.new lwps.old lwps.new lwp_count.new }
    ensures no_user { result ≡ 3 → ¬ IsUser user }
    ensures refused { result ≡ 2 → IsUser user }
    ensures processes_kept { result ≢ 0 → (processes.new ≡ processes.old) × (process_count.new ≡ process_count.old) }
    ensures lwps_kept { result ≢ 0 → (lwps.new ≡ lwps.old) × (lwp_count.new ≡ lwp_count.old) }
{
    if !handle.is_open() {
        return NOT_OPEN;
    }
    let Ok(user) = Uid::new(user) else {
        return INVALID;
    };
    let taken = std::mem::replace(handle, Tracehost::closed(alloc));
    let session = taken.session();
    let code = put_view(
        alloc,
        &session,
        user,
        processes,
        lwps,
        process_count,
        lwp_count,
    );
    *handle = Tracehost::of(session);
    code
}

/// Writes all that the user sees as numbers over the front of `out`, as far as it has room, and how many there are. Two
/// hosts show the user the same exactly if these numbers are the same.
#[unsafe(no_mangle)]
pub extern "C" fn tracehost_state(
    alloc: Global,
    handle: &mut Tracehost,
    user: u32,
    out: &mut [u32],
    whole: &mut usize,
) -> u32
    ensures session { handle.new.held.session ≡ handle.old.held.session }
    ensures closed { (result ≡ 1) ↔ IsNone handle.old.held.session }
    ensures code { result ≤ 3 }
    ensures shown { result ≡ 0 → ShowsState user handle.old.held.session out.old out.new whole.new }
    ensures no_user { result ≡ 3 → ¬ IsUser user }
    ensures refused { result ≡ 2 → IsUser user }
    ensures kept { result ≢ 0 → (out.new ≡ out.old) × (whole.new ≡ whole.old) }
{
    if !handle.is_open() {
        return NOT_OPEN;
    }
    let Ok(user) = Uid::new(user) else {
        return INVALID;
    };
    let taken = std::mem::replace(handle, Tracehost::closed(alloc));
    let session = taken.session();
    let code = put_state(alloc, &session, user, out, whole);
    *handle = Tracehost::of(session);
    code
}

/// Writes the rows that the user sees as text over the front of `out`, as far as it has room, and the length of the whole
/// text.
#[unsafe(no_mangle)]
pub extern "C" fn tracehost_rows(
    alloc: Global,
    handle: &mut Tracehost,
    user: u32,
    out: &mut [u8],
    whole: &mut usize,
) -> u32
    ensures session { handle.new.held.session ≡ handle.old.held.session }
    ensures closed { (result ≡ 1) ↔ IsNone handle.old.held.session }
    ensures code { result ≤ 3 }
    ensures shown { result ≡ 0 → ShowsRows user handle.old.held.session out.old out.new whole.new }
    ensures no_user { result ≡ 3 → ¬ IsUser user }
    ensures refused { result ≡ 2 → IsUser user }
    ensures kept { result ≢ 0 → (out.new ≡ out.old) × (whole.new ≡ whole.old) }
{
    if !handle.is_open() {
        return NOT_OPEN;
    }
    let Ok(user) = Uid::new(user) else {
        return INVALID;
    };
    let taken = std::mem::replace(handle, Tracehost::closed(alloc));
    let session = taken.session();
    let code = put_rows(alloc, &session, user, out, whole);
    *handle = Tracehost::of(session);
    code
}
