//! Names that belong in another place, or to another system, and what to write for them.
use crate::format::{Case, Table};
use crate::report::Report;

/// Requests of FreeBSD and Linux that read or write memory or registers, which the model leaves out.
const LEFT_OUT: [&str; 38] = [
    "PT_READ_I",
    "PT_READ_D",
    "PT_WRITE_I",
    "PT_WRITE_D",
    "PT_IO",
    "PT_GETREGS",
    "PT_SETREGS",
    "PT_GETFPREGS",
    "PT_SETFPREGS",
    "PT_GETDBREGS",
    "PT_SETDBREGS",
    "PT_GETREGSET",
    "PT_SETREGSET",
    "PT_GETXMMREGS",
    "PT_SETXMMREGS",
    "PT_GETXSTATE",
    "PT_SETXSTATE",
    "PT_SETSTEP",
    "PT_CLEARSTEP",
    "PT_GET_SC_ARGS",
    "PT_GET_SC_RET",
    "PT_VM_TIMESTAMP",
    "PT_VM_ENTRY",
    "PT_COREDUMP",
    "PT_SC_REMOTE",
    "PTRACE_PEEKTEXT",
    "PTRACE_PEEKDATA",
    "PTRACE_PEEKUSER",
    "PTRACE_POKETEXT",
    "PTRACE_POKEDATA",
    "PTRACE_POKEUSER",
    "PTRACE_GETREGS",
    "PTRACE_SETREGS",
    "PTRACE_GETFPREGS",
    "PTRACE_SETFPREGS",
    "PTRACE_GETREGSET",
    "PTRACE_SETREGSET",
    "PTRACE_GETSIGINFO",
];

/// A name that another system or interface has, and the model's name for it.
type Alias = (&'static str, &'static str);

const OPS: [Alias; 3] = [("wait", "wait4"), ("waitpid", "wait4"), ("waitid", "wait4")];

const REQUESTS: [Alias; 8] = [
    ("PT_CONT", "PT_CONTINUE"),
    ("PT_SINGLESTEP", "PT_STEP"),
    ("PTRACE_CONT", "PT_CONTINUE"),
    ("PTRACE_SINGLESTEP", "PT_STEP"),
    ("PTRACE_SEIZE", "PT_ATTACH"),
    ("PTRACE_TRACEME", "PT_TRACE_ME"),
    ("PTRACE_SETOPTIONS", "PT_SET_EVENT_MASK"),
    ("PTRACE_GETEVENTMSG", "PT_LWPINFO"),
];

const EVENTS: [Alias; 18] = [
    ("PL_FLAG_SCE", "PTRACE_SCE"),
    ("PL_FLAG_SCX", "PTRACE_SCX"),
    ("PL_FLAG_EXEC", "PTRACE_EXEC"),
    ("PL_FLAG_FORKED", "PTRACE_FORK"),
    ("PL_FLAG_CHILD", "PTRACE_FORK"),
    ("PL_FLAG_BORN", "PTRACE_LWP"),
    ("PL_FLAG_EXITED", "PTRACE_LWP"),
    ("PL_FLAG_VFORKED", "PTRACE_FORK"),
    ("PL_FLAG_VFORK_DONE", "PTRACE_VFORK"),
    ("PTRACE_DEFAULT", "PTRACE_EXEC"),
    ("PTRACE_O_TRACEFORK", "PTRACE_FORK"),
    ("PTRACE_O_TRACEVFORK", "PTRACE_FORK"),
    ("PTRACE_O_TRACEVFORKDONE", "PTRACE_VFORK"),
    ("PTRACE_O_TRACEEXEC", "PTRACE_EXEC"),
    ("PTRACE_O_TRACECLONE", "PTRACE_LWP"),
    ("PTRACE_O_TRACESYSGOOD", "PTRACE_SYSCALL"),
    ("PTRACE_EVENT_EXEC", "PTRACE_EXEC"),
    ("PTRACE_EVENT_FORK", "PTRACE_FORK"),
];

const STOP_FLAGS: [Alias; 7] = [
    ("PTRACE_SCE", "PL_FLAG_SCE"),
    ("PTRACE_SCX", "PL_FLAG_SCX"),
    ("PTRACE_SYSCALL", "PL_FLAG_SCE"),
    ("PTRACE_EXEC", "PL_FLAG_EXEC"),
    ("PTRACE_FORK", "PL_FLAG_FORKED"),
    ("PTRACE_VFORK", "PL_FLAG_VFORK_DONE"),
    ("PTRACE_LWP", "PL_FLAG_BORN"),
];

const WAIT_OPTIONS: [Alias; 1] = [("WSTOPPED", "WUNTRACED")];

const ACTIONS: [Alias; 5] = [
    ("SIG_IGN", "ignore"),
    ("SIG_DFL", "default"),
    ("SIG_CATCH", "catch"),
    ("handler", "catch"),
    ("handle", "catch"),
];

const CALLS: [Alias; 6] = [
    ("clone", "fork"),
    ("rfork", "fork"),
    ("posix_spawn", "vfork"),
    ("thr_create", "thr_new"),
    ("pthread_create", "thr_new"),
    ("pthread_exit", "thr_exit"),
];

/// System calls by their numbers on FreeBSD.
const SYSTEM_CALLS: [(&str, usize); 34] = [
    ("read", 3),
    ("write", 4),
    ("open", 5),
    ("close", 6),
    ("unlink", 10),
    ("getpid", 20),
    ("accept", 30),
    ("access", 33),
    ("getppid", 39),
    ("dup", 41),
    ("ioctl", 54),
    ("readlink", 58),
    ("munmap", 73),
    ("mprotect", 74),
    ("dup2", 90),
    ("fcntl", 92),
    ("select", 93),
    ("fsync", 95),
    ("socket", 97),
    ("connect", 98),
    ("bind", 104),
    ("listen", 106),
    ("gettimeofday", 116),
    ("readv", 120),
    ("writev", 121),
    ("rename", 128),
    ("mkdir", 136),
    ("rmdir", 137),
    ("poll", 209),
    ("nanosleep", 240),
    ("kqueue", 362),
    ("mmap", 477),
    ("lseek", 478),
    ("openat", 499),
];

/// The model's name for it.
fn alias(aliases: &[Alias], name: &str) -> Option<&'static str> {
    for pair in aliases {
        if pair.0.eq_ignore_ascii_case(name) {
            return Some(pair.1);
        }
    }
    None
}

/// The name of the table that is this one after its prefix, as `kill` in `PT_KILL`.
fn with_prefix(table: Table, name: &str) -> Option<&'static str> {
    let prefix = match table {
        Table::Request => "PT_",
        Table::Event => "PTRACE_",
        Table::StopFlag => "PL_FLAG_",
        _ => return None,
    };
    for case in table.cases() {
        match case.name().strip_prefix(prefix) {
            Some(rest) if rest.eq_ignore_ascii_case(name) => return Some(case.name()),
            _ => {}
        }
    }
    None
}

/// The request that is meant by its whole name, or without `PT_`.
fn request(name: &str) -> Option<&'static str> {
    match Table::Request.find(name).map(Case::name) {
        None => with_prefix(Table::Request, name),
        found => found,
    }
}

fn system_call(name: &str) -> Option<usize> {
    for pair in SYSTEM_CALLS {
        if pair.0 == name {
            return Some(pair.1);
        }
    }
    None
}

/// Some text, and then `"key":"name"`.
fn push_member(report: &mut Report, before: &str, key: &str, name: &str) {
    report.push(before);
    report.push("\"");
    report.push(key);
    report.push("\":\"");
    report.push(name);
    report.push("\"");
}

/// The model's name for a system call that has a longer one on FreeBSD.
fn call_name(name: &str) -> &str {
    match name {
        "execve" | "fexecve" => "exec",
        "_exit" => "exit",
        _ => name,
    }
}

/// The members `"call"` and `"code"` of a step for a system call.
fn push_call(report: &mut Report, before: &str, name: &str) {
    let name = call_name(name);
    match (system_call(name), Table::Call.find(name)) {
        (Some(number), None) => {
            push_member(report, before, "call", "other");
            report.push(",\"code\":");
            report.push_number(number);
        }
        _ => {
            push_member(report, before, "call", name);
            report.push(match name {
                "exit" | "other" => ",\"code\":0",
                _ => "",
            });
        }
    }
}

fn is_call(name: &str) -> bool {
    Table::Call.find(call_name(name)).is_some() || system_call(name).is_some()
}

/// What to write in place of this op.
fn advise_op(report: &mut Report, name: &str) -> bool {
    if let Some(request) = request(name) {
        push_member(report, "; write ", "op", "ptrace");
        push_member(report, ",", "request", request);
    } else if Table::Act.find(name).is_some() {
        push_member(report, "; write ", "op", "turn");
        push_member(report, ",", "act", name);
    } else if is_call(name) {
        push_member(report, "; write ", "op", "turn");
        push_member(report, ",", "act", "enter");
        push_call(report, ",", name);
    } else {
        return advise_alias(report, &OPS, name);
    }
    true
}

/// What to write in place of this act.
fn advise_act(report: &mut Report, name: &str) -> bool {
    if is_call(name) {
        push_member(report, "; write ", "act", "enter");
        push_call(report, ",", name);
    } else if Table::Op.find(name).is_some() {
        push_member(report, "; it is an op: write ", "op", name);
    } else if let Some(request) = request(name) {
        push_member(report, "; write ", "op", "ptrace");
        push_member(report, ",", "request", request);
    } else {
        return false;
    }
    true
}

/// What to write in place of this call.
fn advise_call(report: &mut Report, name: &str) -> bool {
    if system_call(name).is_some() {
        push_call(report, "; write ", name);
    } else if Table::Act.find(name).is_some() {
        push_member(report, "; it is an act: write ", "act", name);
    } else if Table::Op.find(name).is_some() {
        push_member(report, "; it is an op: write ", "op", name);
    } else {
        return advise_alias(report, &CALLS, name);
    }
    true
}

/// What to write in place of this request.
fn advise_request(report: &mut Report, name: &str) -> bool {
    if LEFT_OUT.contains(&name) {
        report.push(
            ": the model leaves out memory, registers and siginfo, see docs/DIFFERENCES.md",
        );
        return true;
    }
    if Table::Event.find(name).is_some() && name != "PTRACE_SYSCALL" {
        push_member(
            report,
            "; it is an event: write ",
            "request",
            "PT_SET_EVENT_MASK",
        );
        report.push(",\"mask\":[\"");
        report.push(name);
        report.push("\"]");
        return true;
    }
    advise_alias(report, &REQUESTS, name)
}

/// What to write in place of this option of a wait.
fn advise_option(report: &mut Report, name: &str) -> bool {
    match name {
        "WEXITED" | "WTRAPPED" => report.push(
            "; leave it out: a wait reports ends and trace stops without an option",
        ),
        "WNOWAIT" => report.push(": the model leaves it out, see docs/DIFFERENCES.md"),
        _ => return advise_alias(report, &WAIT_OPTIONS, name),
    }
    true
}

/// What to write in place of this stop flag.
fn advise_flag(report: &mut Report, name: &str) -> bool {
    if name == "PL_FLAG_SI" {
        report.push(": the model leaves out siginfo, see docs/DIFFERENCES.md");
        return true;
    }
    advise_alias(report, &STOP_FLAGS, name)
}

/// What to write in place of this decision.
fn advise_decision(report: &mut Report, name: &str) -> bool {
    let Some(rest) = name.strip_prefix("PT_") else {
        return false;
    };
    for case in Table::Decision.cases() {
        if case.name().eq_ignore_ascii_case(rest) {
            report.push_meant(case.name());
            return true;
        }
    }
    false
}

fn advise_alias(report: &mut Report, aliases: &[Alias], name: &str) -> bool {
    match alias(aliases, name) {
        Some(meant) => {
            report.push_meant(meant);
            true
        }
        None => false,
    }
}

/// What to write if a name of another table or system is given; false if it is none of those.
pub(crate) fn advise(report: &mut Report, name: &str, table: Table) -> bool {
    match table {
        Table::Op => advise_op(report, name),
        Table::Act => advise_act(report, name),
        Table::Call => advise_call(report, name),
        Table::Request => advise_request(report, name),
        Table::Event => advise_alias(report, &EVENTS, name),
        Table::WaitOption => advise_option(report, name),
        Table::Action => advise_alias(report, &ACTIONS, name),
        Table::Decision => advise_decision(report, name),
        Table::StopFlag => advise_flag(report, name),
    }
}

/// The name that is meant by one without its prefix; false if there is none.
pub(crate) fn advise_prefix(report: &mut Report, name: &str, table: Table) -> bool {
    match with_prefix(table, name) {
        Some(meant) => {
            report.push_meant(meant);
            true
        }
        None => false,
    }
}
