//! The text of an answer.
ghost use Rattle.std.specs.Prelude.{◌≡◌, ◌++◌, OnOk, string_bytes, option_map};
ghost use Rattle.scenario_runs.specs.declared.style.Style.TheVariants as style;
ghost use Rattle.open_sessions.specs.Answers.{answer_text, line_reply, refusal};

use crate::answers::LineAnswer;
use reply_json::refusal_json;
use scenario_runs::{Fault, ObjectWriter, Style, USERS, push_line};
use std::alloc::{AllocError, Global};

/// Adds a refusal as text: the line that names the fault for which a line is not a step.
fn push_fault(fault: Fault, text: &mut String) -> Result<(), AllocError>
    ensures { OnOk result (string_bytes text.new ≡ string_bytes text.old ++ refusal style.Text fault) }
{
    let name = fault.name();
    writeln!(text, "refused {name}")?;
    Ok(())
}

/// Adds a refusal as a JSON object.
fn push_object(alloc: Global, fault: Fault, text: &mut String) -> Result<(), AllocError>
    ensures { OnOk result (string_bytes text.new ≡ string_bytes text.old ++ refusal style.Json fault) }
{
    let object = refusal_json(alloc, fault.name())?;
    writeln!(text, "{object}")?;
    Ok(())
}

/// Adds a refusal in the style.
fn push_refusal(
    alloc: Global,
    style: Style,
    fault: Fault,
    text: &mut String,
) -> Result<(), AllocError>
    ensures { OnOk result (string_bytes text.new ≡ string_bytes text.old ++ refusal style fault) }
{
    match style {
        Style::Text => push_fault(fault, text),
        Style::Json => push_object(alloc, fault, text),
    }
}

/// Adds the line of the last answer, by the number of answers that each user has had.
pub(crate) fn push_last(
    alloc: Global,
    style: Style,
    last: &Option<LineAnswer>,
    made: &[u64; USERS],
    text: &mut String,
) -> Result<(), AllocError>
    ensures { OnOk result (string_bytes text.new ≡ string_bytes text.old ++ answer_text style made.now (option_map line_reply last.now)) }
{
    match last {
        None => Ok(()),
        Some(Ok(answer)) => {
            let user = answer.0;
            let number = made[user.slot()];
            let mut objects = ObjectWriter::new(alloc);
            push_line(alloc, style, &mut objects, text, user, number, &answer.1)
        }
        Some(Err(fault)) => push_refusal(alloc, style, *fault, text),
    }
}
