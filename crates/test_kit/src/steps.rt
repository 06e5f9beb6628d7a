//! Steps in words: an op with the values of its keys, in the order of docs/FORMAT.md.

use event_masks::{Call, EventMask};
use requests::{Act, PlainStep, Request, Step};
use signals::{Disposition, SigSet, Signal};
use stop_handlers::Policy;
use wait4::Options;

fn number(word: &str) -> Option<u32> {
    word.parse().ok()
}

fn options(names: &[&str]) -> Options {
    Options {
        untraced: names.contains(&"WUNTRACED"),
        continued: names.contains(&"WCONTINUED"),
    }
}

fn call(words: &[&str]) -> Option<Call> {
    Some(match words {
        ["fork"] => Call::Fork,
        ["vfork"] => Call::Vfork,
        ["exec"] => Call::Exec,
        ["thr_new"] => Call::ThrNew,
        ["thr_exit"] => Call::ThrExit,
        ["exit", code] => Call::Exit(code.parse().ok()?),
        ["other", code] => Call::Other(number(code)?),
        _ => return None,
    })
}

fn signals(numbers: &[&str]) -> Option<SigSet> {
    let mut set = SigSet::empty();
    for word in numbers {
        set = set.with(Signal::new(number(word)?).ok()?);
    }
    Some(set)
}

fn act(words: &[&str]) -> Option<Act> {
    Some(match words {
        ["compute"] => Act::Compute,
        ["leave"] => Act::Leave,
        ["raise", signal] => Act::Raise(number(signal)?),
        ["block", numbers @ ..] => Act::Block(signals(numbers)?),
        ["enter", words @ ..] => Act::Enter(call(words)?),
        _ => return None,
    })
}

/// Returns the data of PT_SET_EVENT_MASK for these events.
fn mask(names: &[&str]) -> Option<u32> {
    let mut mask = EventMask::none();
    for name in names {
        mask = mask.with(EventMask::by_name(name)?);
    }
    Some(mask.0)
}

fn ptrace(caller: &str, words: &[&str]) -> Option<PlainStep> {
    let caller = number(caller)?;
    if let ["PT_SET_EVENT_MASK", target, events @ ..] = words {
        let (target, data) = (number(target)?, mask(events)?);
        return Some(Step::ptrace(caller, Request::SetEventMask, target, data));
    }
    let (name, target, data) = match words {
        [name] => (name, 0, 0),
        [name, target] => (name, number(target)?, 0),
        [name, target, data] => (name, number(target)?, number(data)?),
        _ => return None,
    };
    Some(Step::ptrace(caller, Request::by_name(name)?, target, data))
}

/// Returns the step in these words, as `ptrace 1000 PT_ATTACH 1001` or `turn 100001 enter exit 3`. `install 1000` installs
/// `policy`.
pub(crate) fn step_of(words: &[&str], policy: Option<&Policy>) -> Option<PlainStep> {
    Some(match words {
        ["spawn"] => Step::Spawn,
        ["list", caller] => Step::list(number(caller)?),
        ["handle", caller] => Step::handle(number(caller)?),
        ["install", caller] => Step::install(number(caller)?, *policy?),
        ["kill", caller, which, signal] => {
            Step::kill(number(caller)?, which.parse().ok()?, number(signal)?)
        }
        ["sigaction", caller, signal, action] => {
            Step::sigaction(
                number(caller)?,
                number(signal)?,
                Disposition::by_name(action)?,
            )
        }
        ["wait4", caller, which, names @ ..] => {
            Step::wait4(number(caller)?, which.parse().ok()?, options(names))
        }
        ["turn", lwp, words @ ..] => Step::turn(number(lwp)?, act(words)?),
        ["ptrace", caller, words @ ..] => ptrace(caller, words)?,
        _ => return None,
    })
}
