//! `tracehost [FILE] [--user UID] [--threads]` runs a scenario, and prints its lines, or only those of one user. With
//! `--threads` each user's steps are made by a thread of their own, and the lines come user by user. With
//! `--expect FILE` the lines are compared with the file's, and only what is different is printed. With `--bless` the
//! file then gets the lines. `--expect-list LIST` compares those of many scenarios.
//!
//! `tracehost --lines [FILE] [--kill-on-debugger-exit 0|1]` makes the step of each line, and prints its reply before it
//! waits for the next one.
//!
//! Both read standard input if FILE is missing or `-`. With `--json` each line is a JSON object. With `--json=trace` it
//! also has the step that it answers, and with `--json=trace+rows` the rows that the step changed. `--explain` explains
//! on standard error where and why input is refused; on a terminal it does so without being asked.
#![tactic(auto)]

ghost use Rattle.std.specs.Prelude.{◌≡◌, ◌⊎◌, false, IfOk, IfSome, OnOk, option_map};
ghost use Rattle.pid_blocks.specs.Users.{IsUser};
ghost use Rattle.json_trace.specs.Parts.{WritesFront};
ghost use Rattle.scenario_runs.specs.Runs.{Writes};
ghost use Rattle.tracehost.specs.Options.{line_options};
ghost use Rattle.tracehost.specs.Runs.{lines_shown, run_text, traces_shown, kept, Compared};
ghost use Rattle.tracehost.specs.Statuses.{IsStatus};
ghost use Rattle.tracehost.specs.declared.CommandError.TheVariants as trouble;
ghost use Rattle.scenario_text.specs.declared.fault.Fault.TheVariants.{Memory};

mod answered;
mod asking;
mod command_line;
mod comparing;
mod differing;
mod expecting;
mod explaining;
mod given;
mod listing;
mod texts;

use crate::asking::{Expectation, Mode, RunRequest, Selection, Terminals};
use crate::command_line::{Message, Refusal, asked_of};
use crate::comparing::ComparingWriter;
use crate::expecting::{RunLines, compare, read_expected};
use crate::explaining::{Explained, explain_empty_run, explained_scenario, prompt, unread};
use crate::listing::compare_list;
use crate::texts::{FileTexts, Texts};
use json_trace::{replies_to, write_states, write_trace, write_trace_by_user};
use open_sessions::{ServeError, serve};
use pid_blocks::Uid;
use scenario::{replies_by_user, run_threads_with};
use scenario_runs::{
    Fault, LineOptions, RunFault, Scenario, Style, policy_handlers, read, replies, run_with,
};
use std::alloc::AllocError;
use std::io::{BufReader, BufWriter, IsTerminal, Read, Write};
use std::process::ExitCode;
use std::rt::{Env, Files};
use std::sync::Wait;
use std::thread::Threads;
use std::{env, fs, io};
use stop_handlers::{Decider, Handler};
use trace_stop::Settings;

/// The version of the program and of all that comes with it.
const VERSION: &str = "0.24.0";

/// How many bytes of lines are read, or of answers written, by one call. A pipe holds as many.
const BUFFER_BYTES: usize = 65536;

/// Why the program ends with another status than 0.
#[derive(Drop)]
enum CommandError {
    /// The command line is refused, or asks for help or the version.
    Command(Message),
    /// An argument isn't UTF-8.
    Words,
    /// The user of `--user` isn't one.
    User,
    /// What was found in the command line isn't what it says.
    Misread,
    /// The input is refused.
    Fault(Fault),
    /// The input is refused; and lines that explain it.
    Explained(Fault, String),
    /// The run failed.
    Run(RunFault),
    /// The session ended before its input.
    Serve(ServeError),
    /// A file can't be written; and a line with the reason.
    Unwritten(String),
    /// The run's lines aren't the expected ones; and a line about the first difference.
    Different(String),
    /// Rows of a list weren't as expected; and a line that counts them, and the status.
    List(String, u8),
}

impl From<io::Error> for CommandError {
    fn from(error: io::Error) -> CommandError {
        if error.kind() == io::ErrorKind::OutOfMemory {
            CommandError::Fault(Fault::Memory)
        } else {
            CommandError::Words
        }
    }
}

impl From<AllocError> for CommandError {
    ghost from_gives = { λ _ e. e ≡ trouble.Fault Memory };

    fn from(_refused: AllocError) -> CommandError {
        CommandError::Fault(Fault::Memory)
    }
}

impl From<Refusal> for CommandError {
    fn from(refusal: Refusal) -> CommandError {
        match refusal {
            Refusal::Command(message) => CommandError::Command(message),
            Refusal::User => CommandError::User,
            Refusal::Misread => CommandError::Misread,
            Refusal::Memory => CommandError::Fault(Fault::Memory),
        }
    }
}

impl From<Fault> for CommandError {
    fn from(fault: Fault) -> CommandError {
        CommandError::Fault(fault)
    }
}

impl From<RunFault> for CommandError {
    ghost from_gives = { λ f e. e ≡ trouble.Run f };

    fn from(fault: RunFault) -> CommandError {
        CommandError::Run(fault)
    }
}

impl From<ServeError> for CommandError {
    fn from(fault: ServeError) -> CommandError {
        CommandError::Serve(fault)
    }
}

/// The settings of a host whose debuggers' ends kill or detach what they trace.
fn settings_of(kills_on_exit: bool) -> Settings
    ensures { result ≡ record { kill_on_debugger_exit = kills_on_exit } }
{
    if kills_on_exit {
        Settings::standard()
    } else {
        Settings::detach_on_exit()
    }
}

/// The options of a run's lines by what is shown of it.
fn options_of(shown: &Selection) -> LineOptions
    ensures { result ≡ line_options shown.now }
{
    LineOptions {
        user: shown.user,
        style: shown.style,
    }
}

/// Opens the file of the input.
fn open_input<R: Files + AllocGlobal>(
    rt: &R,
    path: &str,
    explains: bool,
) -> Result<R::File, CommandError> {
    match fs::open(rt, path) {
        Ok(file) => Ok(file),
        Err(error) if explains => Err(unread(rt.alloc(), path, &error)),
        Err(_) => Err(CommandError::Fault(Fault::Read)),
    }
}

/// The scenario of the file.
pub(crate) fn scenario_in<R: Files + AllocGlobal>(rt: &R, path: &str) -> Result<Scenario, Fault> {
    match fs::open(rt, path) {
        Ok(mut file) => read(rt.alloc(), &mut file),
        Err(_) => Err(Fault::Read),
    }
}

/// The scenario of the file, or of standard input.
fn scenario_of<R: Files + Input + AllocGlobal>(
    rt: &R,
    file: Option<&str>,
) -> Result<Scenario, Fault> {
    match file {
        Some(path) => scenario_in(rt, path),
        None => scenario_of_input(rt),
    }
}

/// The scenario of standard input. It is apart, so that a file needs no room for what is read ahead of it.
#[inline(never)]
fn scenario_of_input<R: Input + AllocGlobal>(rt: &R) -> Result<Scenario, Fault> {
    read(rt.alloc(), &mut rt.reader())
}

/// Answers the lines of the reader.
fn serve_reader<R: Print + AllocGlobal, I: Read + Drop>(
    rt: &R,
    settings: Settings,
    style: Style,
    input: I,
) -> Result<(), CommandError> {
    let mut reader = BufReader::with_capacity(rt.alloc(), BUFFER_BYTES, input)?;
    let mut writer = BufWriter::with_capacity(rt.alloc(), BUFFER_BYTES, io::writer(rt))?;
    let served = serve(rt.alloc(), settings, style, &mut reader, &mut writer);
    // what is left could not be written, and isn't tried again
    let _left = writer.into_parts();
    served?;
    Ok(())
}

/// Answers the lines of the reader, and explains those that are refused if that is asked for.
fn serve_input<R: Print + Eprint + AllocGlobal, I: Read + Drop>(
    rt: &R,
    settings: Settings,
    style: Style,
    input: I,
    explains: bool,
) -> Result<(), CommandError> {
    if explains {
        serve_reader(rt, settings, style, Explained::new(rt, input))
    } else {
        serve_reader(rt, settings, style, input)
    }
}

/// Answers the lines of the file, or of standard input.
fn serve_lines<R: Files + Input + Print + Eprint + AllocGlobal>(
    rt: &R,
    settings: Settings,
    style: Style,
    file: Option<&str>,
    explains: bool,
) -> Result<(), CommandError> {
    match file {
        Some(path) => serve_input(
            rt,
            settings,
            style,
            open_input(rt, path, explains)?,
            explains,
        ),
        None => serve_input(rt, settings, style, rt.reader(), explains),
    }
}

/// Makes the steps of the scenario, and writes the lines of their replies.
fn write_replies<R: AllocGlobal + Threads + Wait + Sync, F: Decider + Send + Drop, W: Write>(
    rt: &R,
    scenario: &Scenario,
    handlers: Vec<Handler<F>>,
    shown: &Selection,
    writer: &mut W,
) -> Result<(), RunFault>
    ensures { Writes result (W.contents writer.old) (W.contents writer.new) (lines_shown shown.now scenario.now) }
{
    let options = options_of(shown);
    if shown.threads {
        run_threads_with(rt, rt.alloc(), scenario, handlers, options, writer)
    } else {
        run_with(rt.alloc(), scenario, handlers, options, writer)
    }
}

/// For proofs: a user is one of the 64.
fn assert_user(user: Option<Uid>)
    ensures { IfSome user (λ u. IsUser u) }
{
    if let Some(user) = user {
        let _number = user.get();
    }
}

/// Makes the steps of the scenario, and writes the lines of their replies with the steps.
fn write_traces<R: AllocGlobal + Threads + Wait + Sync, F: Decider + Send + Drop, W: Write>(
    rt: &R,
    scenario: &Scenario,
    handlers: Vec<Handler<F>>,
    shown: &Selection,
    writer: &mut W,
) -> Result<(), RunFault>
    ensures { Writes result (W.contents writer.old) (W.contents writer.new) (traces_shown shown.now scenario.now) }
{
    assert_user(shown.user);
    if shown.threads {
        let replies = replies_by_user(rt, rt.alloc(), scenario, handlers)?;
        write_trace_by_user(rt.alloc(), scenario, replies.as_slice(), shown.user, writer)
    } else {
        let replies = replies_to(replies(rt.alloc(), scenario, handlers)?, shown.user);
        write_trace(rt.alloc(), scenario, replies.as_slice(), shown.user, writer)
    }
}

/// Makes the steps of the scenario, and writes the lines that are asked for.
fn write_run<R: AllocGlobal + Threads + Wait + Sync, F: Decider + Send + Drop, W: Write>(
    rt: &R,
    scenario: &Scenario,
    handlers: Vec<Handler<F>>,
    shown: &Selection,
    writer: &mut W,
) -> Result<(), RunFault>
    ensures front { WritesFront result (W.contents writer.old) (W.contents writer.new) (run_text shown.now scenario.now) }
    ensures whole { shown.now.rows ≡ false → Writes result (W.contents writer.old) (W.contents writer.new) (run_text shown.now scenario.now) }
{
    if shown.rows {
        write_states(rt.alloc(), scenario, shown.user, writer)
    } else if shown.trace {
        write_traces(rt, scenario, handlers, shown, writer)
    } else {
        write_replies(rt, scenario, handlers, shown, writer)
    }
}

/// Makes the steps of the scenario, and compares the lines that are asked for with these bytes.
fn compared_run<'a, R: AllocGlobal + Threads + Wait + Sync, F: Decider + Send + Drop>(
    rt: &R,
    scenario: &Scenario,
    handlers: Vec<Handler<F>>,
    shown: &Selection,
    expected: &'a [u8],
) -> Result<ComparingWriter<'a>, RunFault>
    ensures { IfOk result (λ w. kept w.expected.now w.same w.text ≡ run_text shown.now scenario.now) }
{
    let mut lines = ComparingWriter::new(rt.alloc(), expected);
    match write_run(rt, scenario, handlers, shown, &mut lines) {
        Ok(()) => Ok(lines),
        // a write into memory fails only if none is left
        Err(RunFault::Write) => Err(RunFault::Memory),
        Err(fault) => Err(fault),
    }
}

/// Makes the steps of the scenario, and returns the lines that are asked for; none if they are the expected ones.
pub(crate) fn different_run<R: AllocGlobal + Threads + Wait + Sync, F: Decider + Send + Drop>(
    rt: &R,
    scenario: &Scenario,
    handlers: Vec<Handler<F>>,
    shown: &Selection,
    expected: Option<&[u8]>,
) -> Result<Option<Vec<u8>>, RunFault>
    ensures { IfOk result (λ text. Compared (run_text shown.now scenario.now) (option_map (λ bytes. bytes.now) expected.entry) (option_map (λ text. text.items) text)) }
{
    let Some(wanted) = expected else {
        let lines = compared_run(rt, scenario, handlers, shown, &[])?;
        return Ok(Some(lines.into_text()?));
    };
    let lines = compared_run(rt, scenario, handlers, shown, wanted)?;
    if lines.has(wanted) {
        return Ok(None);
    }
    Ok(Some(lines.into_text()?))
}

/// Runs the scenario with a handler for each of its policies.
fn run_scenario<R: Files + Print + AllocGlobal + Threads + Wait + Sync, T: Texts>(
    rt: &R,
    texts: &T,
    scenario: &Scenario,
    shown: &Selection,
    expected: Option<Expectation<'_>>,
    explains: bool,
) -> Result<(), CommandError>
    ensures { OnOk result (IfSome expected.entry (λ e. e.blesses ≡ false → IfSome (T.text texts.now e.path.now) (λ lines. run_text shown.now scenario.now ≡ lines))) }
{
    let handlers = policy_handlers(rt.alloc(), scenario.policies())?;
    match expected {
        Some(Expectation { path, blesses }) => {
            let wanted = read_expected(rt, texts, path, blesses, explains)?;
            let bytes = wanted.bytes.as_ref().map(|bytes| bytes.as_slice());
            let Some(text) = different_run(rt, scenario, handlers, shown, bytes)? else {
                return Ok(());
            };
            let run = RunLines {
                scenario,
                shown,
                text: text.as_slice(),
            };
            compare(rt, &wanted, run, explains)
        }
        None => {
            write_run(rt, scenario, handlers, shown, &mut io::writer(rt))?;
            Ok(())
        }
    }
}

/// Reads the scenario, and runs it.
fn read_and_run<R: Files + Input + Print + Eprint + AllocGlobal + Threads + Wait + Sync>(
    rt: &R,
    file: Option<&str>,
    explains: bool,
    shown: &Selection,
    expected: Option<Expectation<'_>>,
) -> Result<(), CommandError> {
    if !explains {
        let scenario = scenario_of(rt, file)?;
        return run_scenario(rt, &FileTexts(rt), &scenario, shown, expected, false);
    }
    let scenario = explained_scenario(rt, file)?;
    explain_empty_run(rt, &scenario, shown);
    run_scenario(rt, &FileTexts(rt), &scenario, shown, expected, true)
}

/// Reads the command line, and does what it asks for. The first trouble ends it.
fn go<R: Files + Input + Print + Eprint + Env + AllocGlobal + Threads + Wait + Sync>(
    rt: &R,
    terminals: Terminals,
) -> Result<(), CommandError> {
    let words: Vec<String> = env::args(rt)?.collect(rt.alloc())?;
    let RunRequest {
        file,
        explains,
        mode,
    } = asked_of(rt.alloc(), VERSION, words.as_slice(), terminals)?;
    if explains && terminals.input && file.is_none() {
        prompt(rt, &mode);
    }
    match mode {
        Mode::Scenario { shown, expected } => read_and_run(rt, file, explains, &shown, expected),
        Mode::List { path, shown } => compare_list(rt, &FileTexts(rt), path, &shown, explains),
        Mode::Lines {
            kills_on_exit,
            style,
        } => serve_lines(rt, settings_of(kills_on_exit), style, file, explains),
    }
}

/// Prints the message, and returns its status: the version on standard output, and all else on standard error.
fn report_command<R: Print + Eprint>(rt: &R, message: &Message) -> u8
    ensures { (result ≡ 2) ⊎ ((result ≡ 0) ⊎ (result ≡ 3)) }
{
    if !message.is_version() {
        let _ = eprint!(rt; "{message}");
        return 2;
    }
    match print!(rt; "{message}") {
        Ok(()) => 0,
        Err(_) => {
            let _ = eprintln!(rt; "{}", RunFault::Write);
            RunFault::Write.status()
        }
    }
}

/// Prints the trouble on standard error, and returns its status.
fn report<R: Print + Eprint>(rt: &R, trouble: &CommandError) -> u8
    ensures { IsStatus trouble.now result }
{
    match trouble {
        CommandError::Command(message) => report_command(rt, message),
        CommandError::Words => {
            let _ = eprintln!(rt; "error: an argument is no text");
            2
        }
        CommandError::User => {
            let _ = eprintln!(rt; "error: a user is a number from 1001 to 1064");
            2
        }
        CommandError::Misread => {
            let _ = eprintln!(rt; "tracehost: internal error: the command line was misread");
            3
        }
        CommandError::Fault(fault) => {
            let _ = eprintln!(rt; "{fault}");
            fault.status()
        }
        CommandError::Explained(fault, explanation) => {
            let _ = eprint!(rt; "{fault}\n{explanation}");
            fault.status()
        }
        CommandError::Run(fault) => {
            let _ = eprintln!(rt; "{fault}");
            fault.status()
        }
        CommandError::Serve(fault) => {
            let _ = eprintln!(rt; "{fault}");
            fault.status()
        }
        CommandError::Unwritten(reason) => {
            let _ = eprint!(rt; "{}\n{reason}", RunFault::Write);
            RunFault::Write.status()
        }
        CommandError::List(line, status) => {
            let _ = eprintln!(rt; "{line}");
            *status
        }
        CommandError::Different(line) => {
            let _ = eprintln!(rt; "{line}");
            4
        }
    }
}

fn main(rt: HostRuntime) -> ExitCode {
    let terminals = Terminals {
        input: rt.stdin().is_terminal(),
        error: rt.stderr().is_terminal(),
    };
    match go(&rt, terminals) {
        Ok(()) => ExitCode::SUCCESS,
        Err(trouble) => ExitCode::from(report(&rt, &trouble)),
    }
}
