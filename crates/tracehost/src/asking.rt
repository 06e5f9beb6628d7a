//! What the options and the operand of a command line ask for.
ghost use Rattle.std.specs.Prelude.{◌≡◌};
ghost use Rattle.std.specs.Result.{OkIff};
ghost use Rattle.tracehost.specs.Asking as spec;
ghost use Rattle.tracehost.specs.Asking.{IsUserOrNone, asked_by, expectation_by, explains_by, input_by, mode_by, only_file, style_by};

use pid_blocks::{BadUser, Uid};
use scenario_runs::Style;

/// The options of a command line, and its operand, as they are written.
#[derive(Clone, Copy, Drop)]
pub(crate) struct Arguments<'a> {
    /// The operand.
    pub(crate) file: Option<&'a str>,
    /// The word of `--explain`: `auto`, `always` or `never`.
    pub(crate) explain: Option<&'a str>,
    /// The number of `--user`.
    pub(crate) user: Option<u32>,
    /// Whether `--threads` is there.
    pub(crate) threads: bool,
    /// The file of `--expect`.
    pub(crate) expect: Option<&'a str>,
    /// Whether `--bless` is there.
    pub(crate) bless: bool,
    /// The file of `--expect-list`.
    pub(crate) list: Option<&'a str>,
    /// The word of `--json`: `replies`, `trace` or `trace+rows`.
    pub(crate) json: Option<&'a str>,
    /// Whether `--lines` is there.
    pub(crate) lines: bool,
    /// The number of `--kill-on-debugger-exit`.
    pub(crate) kill_on_debugger_exit: Option<u32>,
}

impl<'a> Arguments<'a> {
    /// Returns the arguments of a command line that has only an operand.
    pub(crate) fn of_file(file: &'a str) -> Arguments<'a>
        ensures { result ≡ only_file file.entry }
    {
        Arguments {
            file: Some(file),
            explain: None,
            user: None,
            threads: false,
            expect: None,
            bless: false,
            list: None,
            json: None,
            lines: false,
            kill_on_debugger_exit: None,
        }
    }
}

/// Which lines of a run are printed, and in which order.
#[derive(Clone, Copy, Drop)]
pub(crate) struct Selection {
    /// The only user whose lines are printed; none for all.
    pub(crate) user: Option<Uid>,
    pub(crate) style: Style,
    /// Each user's steps are made by a thread of their own, and the lines come user by user.
    pub(crate) threads: bool,
    /// Each line has the step that it answers, too.
    pub(crate) trace: bool,
    /// Each line has its step, and what that changed of its user's rows.
    pub(crate) rows: bool,
}

/// The lines that a run should print.
#[derive(Clone, Copy, Drop)]
pub(crate) struct Expectation<'a> {
    /// The file of the lines.
    pub(crate) path: &'a str,
    /// The file gets the run's lines.
    pub(crate) blesses: bool,
}

/// How the input is read.
#[derive(Clone, Copy, Drop)]
pub(crate) enum Mode<'a> {
    /// As a scenario, which is run. The lines are printed, or compared with those of the expected file.
    Scenario {
        shown: Selection,
        expected: Option<Expectation<'a>>,
    },
    /// As a list of scenarios, each with the file of its expected lines.
    List {
        path: &'a str,
        shown: Selection,
    },
    /// As lines with a step each, which a host answers one by one.
    Lines {
        /// A debugger's end kills the processes that it traces.
        kills_on_exit: bool,
        style: Style,
    },
}

/// What the command line asks for.
#[derive(Clone, Copy, Drop)]
pub(crate) struct RunRequest<'a> {
    /// The file of the input; none for standard input.
    pub(crate) file: Option<&'a str>,
    /// Refused input is explained on standard error.
    pub(crate) explains: bool,
    pub(crate) mode: Mode<'a>,
}

/// Which of the standard streams are terminals.
#[derive(Clone, Copy, Drop)]
pub(crate) struct Terminals {
    pub(crate) input: bool,
    pub(crate) error: bool,
}

/// Returns whether an option has this value.
pub(crate) fn has_value(option: Option<&str>, value: &str) -> bool
    ensures { result ≡ spec.has_value option.entry value.now }
{
    match option {
        Some(given) => given == value,
        None => false,
    }
}

/// Returns whether refused input is explained, by the word of `--explain`.
pub(crate) fn explains(explain: Option<&str>, terminals: Terminals) -> bool
    ensures { result ≡ explains_by explain.entry terminals.error }
{
    if has_value(explain, "always") {
        true
    } else if has_value(explain, "never") {
        false
    } else {
        terminals.error
    }
}

/// Returns the file of the input; none for standard input.
fn input_of<'a>(file: Option<&'a str>) -> Option<&'a str>
    ensures { result ≡ input_by file.entry }
{
    if has_value(file, "-") { None } else { file }
}

/// Returns the style of the lines, by the word of `--json`.
fn style_of(json: Option<&str>) -> Style
    ensures { result ≡ style_by json.entry }
{
    if json.is_some() {
        Style::Json
    } else {
        Style::Text
    }
}

/// Returns the only user whose lines are printed; none for all.
fn shown_user(number: Option<u32>) -> Result<Option<Uid>, BadUser>
    ensures { OkIff result (IsUserOrNone number) number }
{
    match number {
        Some(number) => Ok(Some(Uid::new(number)?)),
        None => Ok(None),
    }
}

/// Returns the lines that a run should print.
fn expectation_of<'a>(expect: Option<&'a str>, blesses: bool) -> Option<Expectation<'a>>
    ensures { result ≡ expectation_by expect.entry blesses }
{
    let path = expect?;
    Some(Expectation { path, blesses })
}

/// Returns how the input is read, if only this user's lines are printed.
fn mode_of<'a>(arguments: Arguments<'a>, user: Option<Uid>) -> Mode<'a>
    ensures { result ≡ mode_by arguments.entry user }
{
    let style = style_of(arguments.json);
    if arguments.lines {
        return Mode::Lines {
            kills_on_exit: arguments.kill_on_debugger_exit != Some(0),
            style,
        };
    }
    let shown = Selection {
        user,
        style,
        threads: arguments.threads,
        trace: has_value(arguments.json, "trace"),
        rows: has_value(arguments.json, "trace+rows"),
    };
    match arguments.list {
        Some(path) => Mode::List { path, shown },
        None => Mode::Scenario {
            shown,
            expected: expectation_of(arguments.expect, arguments.bless),
        },
    }
}

/// Returns what the arguments ask for.
///
/// # Errors
///
/// Fails if the number of `--user` isn't from 1001 to 1064.
pub(crate) fn asked_for<'a>(
    arguments: Arguments<'a>,
    terminals: Terminals,
) -> Result<RunRequest<'a>, BadUser>
    ensures { OkIff result (IsUserOrNone arguments.entry.user) (asked_by arguments.entry terminals) }
{
    let user = shown_user(arguments.user)?;
    Ok(RunRequest {
        file: input_of(arguments.file),
        explains: explains(arguments.explain, terminals),
        mode: mode_of(arguments, user),
    })
}
