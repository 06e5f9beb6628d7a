//! The names of a scenario, with the keys that belong to each. Written by `tools/format` from format/scenario.toml.

use crate::format::{Case, Key, Kind, Range, Table};

const USER: Range = Range {
    least: 1001,
    most: 1064,
};

const WORD: Range = Range {
    least: 0,
    most: 4294967295,
};

const BYTE: Range = Range {
    least: 0,
    most: 255,
};

const SIGNAL: Range = Range { least: 1, most: 31 };

const PASS: Range = Range { least: 0, most: 31 };

const CALLER: Key = Key::Needed("caller", Kind::Number(WORD));

const TARGET: Key = Key::Needed("target", Kind::Number(WORD));

/// The keys of a request with a target and data.
const TARGET_AND_DATA: &[Key] = &[TARGET, Key::Optional("data", Kind::Number(WORD))];

/// The signal that a process goes on with.
const PASSED: &[Key] = &[Key::Optional("pass", Kind::Number(PASS))];

/// All keys of scenarios, steps and rules.
pub(crate) const KEYS: &[&str] = &[
    "steps",
    "kill_on_debugger_exit",
    "user",
    "op",
    "caller",
    "request",
    "target",
    "data",
    "mask",
    "which",
    "options",
    "signal",
    "action",
    "rules",
    "flags",
    "decision",
    "pass",
    "lwp",
    "act",
    "set",
    "call",
    "code",
];

/// The keys of every step, which come first.
pub(crate) const STEP: [Key; 2] = [
    Key::Needed("user", Kind::Number(USER)),
    Key::Needed("op", Kind::Choice(Table::Op)),
];

/// The keys of a rule.
pub(crate) const RULE: [Key; 3] = [
    Key::Optional("signal", Kind::Number(SIGNAL)),
    Key::Optional("flags", Kind::Names(Table::StopFlag)),
    Key::Needed("decision", Kind::Choice(Table::Decision)),
];

pub(crate) const OPS: [Case; 9] = [
    Case("spawn", &[]),
    Case(
        "ptrace",
        &[CALLER, Key::Needed("request", Kind::Choice(Table::Request))],
    ),
    Case(
        "wait4",
        &[
            CALLER,
            Key::Needed("which", Kind::Whole),
            Key::Optional("options", Kind::Names(Table::WaitOption)),
        ],
    ),
    Case(
        "kill",
        &[
            CALLER,
            Key::Needed("which", Kind::Whole),
            Key::Needed("signal", Kind::Number(WORD)),
        ],
    ),
    Case(
        "sigaction",
        &[
            CALLER,
            Key::Needed("signal", Kind::Number(WORD)),
            Key::Needed("action", Kind::Name(Table::Action)),
        ],
    ),
    Case("list", &[CALLER]),
    Case("install", &[CALLER, Key::Needed("rules", Kind::Rules)]),
    Case("handle", &[CALLER]),
    Case(
        "turn",
        &[
            Key::Needed("lwp", Kind::Number(WORD)),
            Key::Needed("act", Kind::Choice(Table::Act)),
        ],
    ),
];

pub(crate) const REQUESTS: [Case; 18] = [
    Case("PT_TRACE_ME", &[]),
    Case("PT_ATTACH", TARGET_AND_DATA),
    Case("PT_CONTINUE", TARGET_AND_DATA),
    Case("PT_STEP", TARGET_AND_DATA),
    Case("PT_TO_SCE", TARGET_AND_DATA),
    Case("PT_TO_SCX", TARGET_AND_DATA),
    Case("PT_SYSCALL", TARGET_AND_DATA),
    Case("PT_DETACH", TARGET_AND_DATA),
    Case("PT_KILL", TARGET_AND_DATA),
    Case("PT_SUSPEND", TARGET_AND_DATA),
    Case("PT_RESUME", TARGET_AND_DATA),
    Case(
        "PT_SET_EVENT_MASK",
        &[TARGET, Key::Needed("mask", Kind::Names(Table::Event))],
    ),
    Case("PT_GET_EVENT_MASK", TARGET_AND_DATA),
    Case("PT_FOLLOW_FORK", TARGET_AND_DATA),
    Case("PT_LWP_EVENTS", TARGET_AND_DATA),
    Case("PT_LWPINFO", TARGET_AND_DATA),
    Case("PT_GETNUMLWPS", TARGET_AND_DATA),
    Case("PT_GETLWPLIST", TARGET_AND_DATA),
];

pub(crate) const EVENTS: [Case; 7] = [
    Case("PTRACE_EXEC", &[]),
    Case("PTRACE_SCE", &[]),
    Case("PTRACE_SCX", &[]),
    Case("PTRACE_FORK", &[]),
    Case("PTRACE_LWP", &[]),
    Case("PTRACE_VFORK", &[]),
    Case("PTRACE_SYSCALL", &[]),
];

pub(crate) const WAIT_OPTIONS: [Case; 3] = [
    Case("WNOHANG", &[]),
    Case("WUNTRACED", &[]),
    Case("WCONTINUED", &[]),
];

pub(crate) const ACTIONS: [Case; 3] = [
    Case("default", &[]),
    Case("ignore", &[]),
    Case("catch", &[]),
];

pub(crate) const ACTS: [Case; 5] = [
    Case("compute", &[]),
    Case("raise", &[Key::Needed("signal", Kind::Number(WORD))]),
    Case("block", &[Key::Needed("set", Kind::Numbers(SIGNAL))]),
    Case("enter", &[Key::Needed("call", Kind::Choice(Table::Call))]),
    Case("leave", &[]),
];

pub(crate) const CALLS: [Case; 7] = [
    Case("exit", &[Key::Needed("code", Kind::Number(BYTE))]),
    Case("fork", &[]),
    Case("vfork", &[]),
    Case("exec", &[]),
    Case("thr_new", &[]),
    Case("thr_exit", &[]),
    Case("other", &[Key::Needed("code", Kind::Number(WORD))]),
];

pub(crate) const DECISIONS: [Case; 5] = [
    Case("decline", &[]),
    Case("leave", &[]),
    Case("continue", PASSED),
    Case("detach", PASSED),
    Case("kill", &[]),
];

pub(crate) const STOP_FLAGS: [Case; 9] = [
    Case("PL_FLAG_SCE", &[]),
    Case("PL_FLAG_SCX", &[]),
    Case("PL_FLAG_EXEC", &[]),
    Case("PL_FLAG_FORKED", &[]),
    Case("PL_FLAG_CHILD", &[]),
    Case("PL_FLAG_BORN", &[]),
    Case("PL_FLAG_EXITED", &[]),
    Case("PL_FLAG_VFORKED", &[]),
    Case("PL_FLAG_VFORK_DONE", &[]),
];
