//! The names of steps, requests and acts, and the numbers of the last two.

ghost use Rattle.std.specs.Prelude.{◌≡◌, Some};
ghost use Rattle.step_types.specs.Plain.{bare};
ghost use Rattle.step_types.specs.Names.{kind_of_step, op_name, op_named, request_name, request_named, request_number, request_numbered};
ghost use Rattle.step_types.specs.Names.{kind_of_act, act_name, act_named, act_number, act_numbered};

use crate::{Act, ActKind, Request, Step, StepKind};

impl<H> Step<H> {
    /// Returns the kind of the step.
    pub fn kind(&self) -> StepKind
        ensures { result ≡ kind_of_step (bare self.now) }
    {
        match self {
            Step::Spawn => StepKind::Spawn,
            Step::Ptrace { .. } => StepKind::Ptrace,
            Step::Wait4 { .. } => StepKind::Wait4,
            Step::Kill { .. } => StepKind::Kill,
            Step::Sigaction { .. } => StepKind::Sigaction,
            Step::List { .. } => StepKind::List,
            Step::Install { .. } => StepKind::Install,
            Step::Handle { .. } => StepKind::Handle,
            Step::Turn { .. } => StepKind::Turn,
        }
    }
}

impl StepKind {
    /// Returns the name in a scenario: its op.
    pub fn name(&self) -> &'static str
        ensures named { result.now ≡ op_name self.now }
        ensures inverse { op_named result.now ≡ Some self.now }
    {
        match self {
            StepKind::Spawn => "spawn",
            StepKind::Ptrace => "ptrace",
            StepKind::Wait4 => "wait4",
            StepKind::Kill => "kill",
            StepKind::Sigaction => "sigaction",
            StepKind::List => "list",
            StepKind::Install => "install",
            StepKind::Handle => "handle",
            StepKind::Turn => "turn",
        }
    }

    /// Returns the kind with this name, or `None` if no kind has it.
    pub fn by_name(name: &str) -> Option<StepKind>
        ensures { result ≡ op_named name.now }
    {
        match name {
            "spawn" => Some(StepKind::Spawn),
            "ptrace" => Some(StepKind::Ptrace),
            "wait4" => Some(StepKind::Wait4),
            "kill" => Some(StepKind::Kill),
            "sigaction" => Some(StepKind::Sigaction),
            "list" => Some(StepKind::List),
            "install" => Some(StepKind::Install),
            "handle" => Some(StepKind::Handle),
            "turn" => Some(StepKind::Turn),
            _ => None,
        }
    }
}

impl Request {
    /// Returns the name in ptrace(2).
    pub fn name(&self) -> &'static str
        ensures named { result.now ≡ request_name self.now }
        ensures inverse { request_named result.now ≡ Some self.now }
    {
        match self {
            Request::TraceMe => "PT_TRACE_ME",
            Request::Attach => "PT_ATTACH",
            Request::Continue => "PT_CONTINUE",
            Request::Step => "PT_STEP",
            Request::ToSce => "PT_TO_SCE",
            Request::ToScx => "PT_TO_SCX",
            Request::Syscall => "PT_SYSCALL",
            Request::Detach => "PT_DETACH",
            Request::Kill => "PT_KILL",
            Request::Suspend => "PT_SUSPEND",
            Request::Resume => "PT_RESUME",
            Request::SetEventMask => "PT_SET_EVENT_MASK",
            Request::GetEventMask => "PT_GET_EVENT_MASK",
            Request::FollowFork => "PT_FOLLOW_FORK",
            Request::LwpEvents => "PT_LWP_EVENTS",
            Request::LwpInfo => "PT_LWPINFO",
            Request::GetNumLwps => "PT_GETNUMLWPS",
            Request::GetLwpList => "PT_GETLWPLIST",
        }
    }

    /// Returns the request with this name, or `None` if no request has it.
    pub fn by_name(name: &str) -> Option<Request>
        ensures { result ≡ request_named name.now }
    {
        match name {
            "PT_TRACE_ME" => Some(Request::TraceMe),
            "PT_ATTACH" => Some(Request::Attach),
            "PT_CONTINUE" => Some(Request::Continue),
            "PT_STEP" => Some(Request::Step),
            "PT_TO_SCE" => Some(Request::ToSce),
            "PT_TO_SCX" => Some(Request::ToScx),
            "PT_SYSCALL" => Some(Request::Syscall),
            "PT_DETACH" => Some(Request::Detach),
            "PT_KILL" => Some(Request::Kill),
            "PT_SUSPEND" => Some(Request::Suspend),
            "PT_RESUME" => Some(Request::Resume),
            "PT_SET_EVENT_MASK" => Some(Request::SetEventMask),
            "PT_GET_EVENT_MASK" => Some(Request::GetEventMask),
            "PT_FOLLOW_FORK" => Some(Request::FollowFork),
            "PT_LWP_EVENTS" => Some(Request::LwpEvents),
            "PT_LWPINFO" => Some(Request::LwpInfo),
            "PT_GETNUMLWPS" => Some(Request::GetNumLwps),
            "PT_GETLWPLIST" => Some(Request::GetLwpList),
            _ => None,
        }
    }

    /// Returns the number in <sys/ptrace.h> of FreeBSD.
    pub fn number(&self) -> u32
        ensures numbered { result ≡ request_number self.now }
        ensures inverse { request_numbered result ≡ Some self.now }
    {
        match self {
            Request::TraceMe => 0,
            Request::Attach => 10,
            Request::Continue => 7,
            Request::Step => 9,
            Request::ToSce => 20,
            Request::ToScx => 21,
            Request::Syscall => 22,
            Request::Detach => 11,
            Request::Kill => 8,
            Request::Suspend => 18,
            Request::Resume => 19,
            Request::SetEventMask => 26,
            Request::GetEventMask => 25,
            Request::FollowFork => 23,
            Request::LwpEvents => 24,
            Request::LwpInfo => 13,
            Request::GetNumLwps => 14,
            Request::GetLwpList => 15,
        }
    }

    /// Returns the request with this number, or `None` if no request has it.
    pub fn by_number(number: u32) -> Option<Request>
        ensures { result ≡ request_numbered number }
    {
        match number {
            0 => Some(Request::TraceMe),
            10 => Some(Request::Attach),
            7 => Some(Request::Continue),
            9 => Some(Request::Step),
            20 => Some(Request::ToSce),
            21 => Some(Request::ToScx),
            22 => Some(Request::Syscall),
            11 => Some(Request::Detach),
            8 => Some(Request::Kill),
            18 => Some(Request::Suspend),
            19 => Some(Request::Resume),
            26 => Some(Request::SetEventMask),
            25 => Some(Request::GetEventMask),
            23 => Some(Request::FollowFork),
            24 => Some(Request::LwpEvents),
            13 => Some(Request::LwpInfo),
            14 => Some(Request::GetNumLwps),
            15 => Some(Request::GetLwpList),
            _ => None,
        }
    }
}

impl Act {
    /// Returns the kind of the act.
    pub fn kind(&self) -> ActKind
        ensures { result ≡ kind_of_act self.now }
    {
        match self {
            Act::Compute => ActKind::Compute,
            Act::Raise(_) => ActKind::Raise,
            Act::Block(_) => ActKind::Block,
            Act::Enter(_) => ActKind::Enter,
            Act::Leave => ActKind::Leave,
        }
    }
}

impl ActKind {
    /// Returns the name in a scenario.
    pub fn name(&self) -> &'static str
        ensures named { result.now ≡ act_name self.now }
        ensures inverse { act_named result.now ≡ Some self.now }
    {
        match self {
            ActKind::Compute => "compute",
            ActKind::Raise => "raise",
            ActKind::Block => "block",
            ActKind::Enter => "enter",
            ActKind::Leave => "leave",
        }
    }

    /// Returns the kind with this name, or `None` if no kind has it.
    pub fn by_name(name: &str) -> Option<ActKind>
        ensures { result ≡ act_named name.now }
    {
        match name {
            "compute" => Some(ActKind::Compute),
            "raise" => Some(ActKind::Raise),
            "block" => Some(ActKind::Block),
            "enter" => Some(ActKind::Enter),
            "leave" => Some(ActKind::Leave),
            _ => None,
        }
    }

    /// Returns the number.
    pub fn number(&self) -> u32
        ensures numbered { result ≡ act_number self.now }
        ensures inverse { act_numbered result ≡ Some self.now }
    {
        match self {
            ActKind::Compute => 0,
            ActKind::Raise => 1,
            ActKind::Block => 2,
            ActKind::Enter => 3,
            ActKind::Leave => 4,
        }
    }

    /// Returns the kind with this number, or `None` if no kind has it.
    pub fn by_number(number: u32) -> Option<ActKind>
        ensures { result ≡ act_numbered number }
    {
        match number {
            0 => Some(ActKind::Compute),
            1 => Some(ActKind::Raise),
            2 => Some(ActKind::Block),
            3 => Some(ActKind::Enter),
            4 => Some(ActKind::Leave),
            _ => None,
        }
    }
}
