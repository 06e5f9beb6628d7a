//! A debugger and the process that it attaches to, on a session's host.

use event_masks::Call;
use explorer::{Line, Script, Verdict};
use pid_blocks::Uid;
use requests::{Act, PlainStep, Request, Step};
use session_search::{OwnSession, search_schedules};
use std::alloc::{AllocError, Global};
use step_types::Options;
use trace_stop::Settings;

/// The processes that a user's first two spawns make, and the LWP of the second one.
const DEBUGGER: u32 = 1000;

const TARGET: u32 = 1001;

const TARGET_LWP: u32 = 100001;

/// The line of a script that has failed.
const FAILED: u32 = u32::MAX;

/// The line behind the debugger's last one.
const DONE: u32 = 3;

fn line(step: PlainStep, made: u32, refused: u32) -> Line<PlainStep> {
    Line {
        step,
        made,
        refused,
    }
}

/// A step that must not be refused.
fn must(step: PlainStep, made: u32) -> Line<PlainStep> {
    line(step, made, FAILED)
}

/// Returns what is true of a debugger that attaches to a process, waits and detaches, while the process exits. A careful
/// debugger goes on if the process has ended before; a forgetful one doesn't detach.
pub fn attach_to_exiting(
    alloc: Global,
    user: Uid,
    careful: bool,
    detaches: bool,
) -> Result<Verdict, AllocError> {
    let mut start = OwnSession::new(alloc, Settings::standard(), user);
    let _debugger = start.prepare(alloc, user, &Step::Spawn)?;
    let _target = start.prepare(alloc, user, &Step::Spawn)?;
    let gone = if careful { DONE } else { FAILED };
    let debugger = vec![in alloc;
        line(Step::ptrace(DEBUGGER, Request::Attach, TARGET, 0), 1, gone),
        must(
            Step::wait4(
                DEBUGGER,
                TARGET as i64,
                Options {
                    untraced: false,
                    continued: false,
                }
            ),
            if detaches { 2 } else { DONE }
        ),
        line(
            Step::ptrace(DEBUGGER, Request::Detach, TARGET, 0),
            DONE,
            gone
        ),
    ]?;
    let exit = Act::Enter(Call::Exit(0));
    let target = vec![in alloc;
        must(Step::turn(TARGET_LWP, exit), 1),
        must(Step::turn(TARGET_LWP, Act::Leave), 2),
    ]?;
    let scripts = vec![in alloc; Script { lines: debugger }, Script { lines: target }]?;
    search_schedules(alloc, start, scripts, 1000)
}
