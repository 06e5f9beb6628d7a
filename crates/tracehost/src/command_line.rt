//! The command line: its options, and what helps if it is refused. `clap` splits the words, and `asking` turns them into
//! a `RunRequest`.

ghost use Rattle.std.specs.Prelude.{IfOk, IfSome, codes};
ghost use Rattle.clap.specs.Matches.{found_of, one_text};
ghost use Rattle.tracehost.specs.Found.{AreOf, IsAlone, IsAsked, IsIn, IsNumber};

use crate::asking::{Arguments, RunRequest, Terminals, asked_for, explains, has_value};
use crate::given::are_so;
use clap::error::ErrorKind;
use clap::{Arg, ArgAction, ArgMatches, Command};
use std::alloc::{AllocError, Global};
use std::fmt;

/// Why a command line asks for nothing that can be done.
#[derive(Drop)]
pub(crate) enum Refusal {
    /// It is refused, or asks for help or the version.
    Command(Message),
    /// The user of `--user` isn't one.
    User,
    /// What was found in it isn't what its words say, which is a fault of the program.
    Misread,
    /// Memory ran out.
    Memory,
}

/// What is printed for a command line that is refused, or that asks for help or the version; and lines that explain it.
#[derive(Drop)]
pub(crate) struct Message {
    error: clap::Error,
    advice: String,
}

impl Message {
    /// Whether this is the version, which was asked for.
    pub(crate) fn is_version(&self) -> bool {
        self.error.kind() == ErrorKind::DisplayVersion
    }
}

impl fmt::Display for Message {
    fn fmt<W: fmt::Write>(&self, f: &mut fmt::Formatter<W>) -> fmt::Result {
        let (error, advice) = (&self.error, &self.advice);
        write!(f, "{error}{advice}")
    }
}

/// The values of `--explain`.
const WHEN: &[&str] = &["auto", "always", "never"];

/// The values of `--json`.
const WHAT: &[&str] = &["replies", "trace", "trace+rows"];

/// The end of the help.
const AFTER_HELP: &str =
    "Help goes to standard error, with status 2. Keys, ops, requests, acts and calls are in docs/FORMAT.md.

Examples:
  tracehost examples/two_users.json --user 1002
  tracehost examples/first.json --expect examples/first.out
  echo '{\"user\":1001,\"op\":\"spawn\"}' | tracehost --lines";

/// What helps if `--kill-on-debugger-exit` is given for a scenario.
const SETTING_ADVICE: &str =
    "  --kill-on-debugger-exit: a scenario has a key for it, {\"kill_on_debugger_exit\":0,\"steps\":[..]}\n";

/// What helps if `--bless` is given without a file.
const BLESS_ADVICE: &str = "  --bless: name the file that gets the lines, --expect FILE\n";

/// The refusal of `--json=trace` for a session line by line.
const TRACE_OF_LINES: &str = "the argument '--lines' cannot be used with '--json=trace'";

/// The refusal of `--json=trace+rows` for a session line by line.
const ROWS_OF_LINES: &str = "the argument '--lines' cannot be used with '--json=trace+rows'";

/// The refusal of `--json=trace+rows` for a run with threads.
const ROWS_OF_THREADS: &str = "the argument '--threads' cannot be used with '--json=trace+rows'";

/// What helps if `--json=trace` or `--json=trace+rows` is given for a session line by line.
const TRACE_ADVICE: &str =
    "  --json=trace: with --lines each answer comes after its step; write --json\n";

/// What helps if `--json=trace+rows` is given for a run with threads.
const ROWS_ADVICE: &str =
    "  --json=trace+rows: the steps are made one after another; leave --threads out\n";

/// The long options by their first letters, each with a value if it needs one.
const LONG_OPTIONS: [(&str, &str); 7] = [
    ("-b", "--bless"),
    ("-u", "--user UID"),
    ("-t", "--threads"),
    ("-e", "--expect FILE, --expect-list LIST or --explain"),
    ("-j", "--json"),
    ("-l", "--lines"),
    ("-k", "--kill-on-debugger-exit 0 or 1"),
];

/// The command with the options of a scenario.
fn with_scenario_options<'a>(
    alloc: Global,
    command: Command<'a>,
) -> Result<Command<'a>, AllocError> {
    let user = Arg::new(alloc, "UID")
        .long("user")
        .action(ArgAction::Set)
        .value_parser(clap::value_parser!(u32).range(1001..=1064))
        .help("Print only the lines of this user, 1001 to 1064");
    let command = command.arg(user)?;
    let threads = Arg::new(alloc, "threads")
        .long("threads")
        .action(ArgAction::SetTrue)
        .help(
            "Test sharing: run each user's steps in a thread of their own, and print the lines user by user",
        );
    let command = command.arg(threads)?;
    let expect = Arg::new(alloc, "expect")
        .long("expect")
        .value_name("FILE")
        .action(ArgAction::Set)
        .help("Compare the lines with this file, and print only what is different");
    let command = command.arg(expect)?;
    let bless = Arg::new(alloc, "bless")
        .long("bless")
        .action(ArgAction::SetTrue)
        .requires_arg("expect")?
        .help("With --expect: write the lines to its file if they are different");
    let command = command.arg(bless)?;
    let list = Arg::new(alloc, "LIST")
        .long("expect-list")
        .action(ArgAction::Set)
        .conflicts_with("FILE")?
        .conflicts_with("expect")?
        .conflicts_with("bless")?
        .help(
            "Run the scenario of each line of this file, and compare its lines with the file after the tab",
        );
    let command = command.arg(list)?;
    let json = Arg::new(alloc, "json")
        .long("json")
        .value_name("WHAT")
        .action(ArgAction::Set)
        .num_args(0..=1)
        .require_equals(true)
        .default_missing_value("replies")
        .value_parser(WHAT)
        .help(
            "Print each line as a JSON object: the reply, with trace also its step, with trace+rows also the rows that it changed",
        );
    command.arg(json)
}

/// The command with the options of a session line by line.
fn with_line_options<'a>(alloc: Global, command: Command<'a>) -> Result<Command<'a>, AllocError> {
    let lines = Arg::new(alloc, "lines")
        .long("lines")
        .action(ArgAction::SetTrue)
        .conflicts_with("UID")?
        .conflicts_with("threads")?
        .conflicts_with("expect")?
        .conflicts_with("bless")?
        .conflicts_with("LIST")?
        .help("Read one step a line, and answer each before waiting for the next");
    let command = command.arg(lines)?;
    let kill = Arg::new(alloc, "0|1")
        .long("kill-on-debugger-exit")
        .action(ArgAction::Set)
        .value_parser(clap::value_parser!(u32).range(0..=1))
        .requires_arg("lines")?
        .help(
            "With --lines: whether a debugger's end kills the processes that it traces [default: 1]",
        );
    command.arg(kill)
}

/// The command line, by the options that the program has.
fn matches_of<'a>(
    alloc: Global,
    version: &'a str,
    words: &'a [String],
) -> Result<ArgMatches<'a>, clap::Error> {
    let file = Arg::new(alloc, "FILE").help(
        "The scenario, or with --lines the steps; without it, or with -, standard input",
    );
    let command = Command::new(alloc, "tracehost")
        .version(version)
        .about("A model of FreeBSD's process tracing on a host that debuggers of many users share")
        .after_help(AFTER_HELP)
        .arg(file)?;
    let explain = Arg::new(alloc, "WHEN")
        .long("explain")
        .action(ArgAction::Set)
        .num_args(0..=1)
        .require_equals(true)
        .default_missing_value("always")
        .value_parser(WHEN)
        .help("Explain where and why input is refused [default: auto, on a terminal]");
    let command = with_scenario_options(alloc, command.arg(explain)?)?;
    let mut command = with_line_options(alloc, command)?;
    let matches = command.try_get_matches_from_mut(words)?;
    match conflict_in(&matches) {
        Some(refusal) => Err(command.error(ErrorKind::ArgumentConflict, refusal)?),
        None => Ok(matches),
    }
}

/// The refusal of `--json` with this value beside the other options, if they can't be used together.
fn conflict_in(matches: &ArgMatches<'_>) -> Option<&'static str> {
    let json = matches.get_str("json");
    let rows = has_value(json, "trace+rows");
    if matches.get_flag("lines") && has_value(json, "trace") {
        Some(TRACE_OF_LINES)
    } else if matches.get_flag("lines") && rows {
        Some(ROWS_OF_LINES)
    } else if matches.get_flag("threads") && rows {
        Some(ROWS_OF_THREADS)
    } else {
        None
    }
}

/// Whether refused input is explained, by the words of a command line that is refused.
fn explains_in(words: &[String], terminals: Terminals) -> bool {
    let mut when = None;
    for word in words {
        let word = word.as_str();
        if word == "--explain" {
            when = Some("always");
        } else if let Some(value) = word.strip_prefix("--explain=") {
            when = Some(value);
        }
    }
    explains(when, terminals)
}

/// The long option for a word like `-u` or `-u1001`: the program has no short ones.
fn long_option(word: &str) -> Option<&'static str> {
    for pair in LONG_OPTIONS {
        if word.starts_with(pair.0) {
            return Some(pair.1);
        }
    }
    None
}

/// What helps against a word that isn't an option.
fn option_advice(alloc: Global, words: &[String]) -> Result<String, AllocError> {
    for word in words {
        let word = word.as_str();
        if let Some(option) = long_option(word) {
            return format!(in alloc; "  {word}: options have long names; write {option}\n");
        }
    }
    Ok(String::new(alloc))
}

/// What helps against options that can't be used together.
fn conflict_advice(alloc: Global, words: &[String]) -> Result<String, AllocError> {
    let is_given = |option: &str| words.iter().any(|word| word.as_str() == option);
    if is_given("--json=trace+rows") && is_given("--threads") {
        String::from_str(alloc, ROWS_ADVICE)
    } else if is_given("--json=trace") || is_given("--json=trace+rows") {
        String::from_str(alloc, TRACE_ADVICE)
    } else {
        Ok(String::new(alloc))
    }
}

/// What helps against an option without the one that it needs.
fn missing_advice(words: &[String]) -> &'static str {
    if words.iter().any(|word| word.as_str() == "--bless") {
        BLESS_ADVICE
    } else {
        SETTING_ADVICE
    }
}

/// What helps against a command line that `clap` refuses; empty if that says enough.
fn advice(alloc: Global, kind: ErrorKind, words: &[String]) -> Result<String, AllocError> {
    match kind {
        ErrorKind::MissingRequiredArgument => String::from_str(alloc, missing_advice(words)),
        ErrorKind::UnknownArgument => option_advice(alloc, words),
        ErrorKind::ArgumentConflict => conflict_advice(alloc, words),
        _ => Ok(String::new(alloc)),
    }
}

/// The refusal of a command line that `clap` refuses.
fn refused(alloc: Global, error: clap::Error, words: &[String], terminals: Terminals) -> Refusal {
    let kind = error.kind();
    if kind == ErrorKind::OutOfMemory {
        return Refusal::Memory;
    }
    if explains_in(words, terminals) {
        if let Ok(advice) = advice(alloc, kind, words) {
            return Refusal::Command(Message { error, advice });
        }
    }
    Refusal::Command(Message {
        error,
        advice: String::new(alloc),
    })
}

/// The number of `--user`; none without the option.
fn user_number(matches: &ArgMatches<'_>) -> Result<Option<u32>, Refusal>
    ensures { IfOk result (λ number. IsNumber (one_text (found_of matches.now) (codes "UID")) number) }
{
    match matches.try_get_one("UID") {
        Ok(number) => Ok(number),
        Err(_) => Err(Refusal::User),
    }
}

/// The number of `--kill-on-debugger-exit`; none without the option.
fn kill_number(matches: &ArgMatches<'_>) -> Result<Option<u32>, Refusal>
    ensures { IfOk result (λ number. IsNumber (one_text (found_of matches.now) (codes "0|1")) number) }
{
    match matches.try_get_one("0|1") {
        Ok(number) => Ok(number),
        Err(_) => Err(Refusal::Misread),
    }
}

/// The options and the operand that were found.
fn arguments_of<'a>(matches: &ArgMatches<'a>) -> Result<Arguments<'a>, Refusal>
    ensures { IfOk result (λ arguments. IsIn (found_of matches.now) arguments) }
{
    Ok(Arguments {
        file: matches.get_str("FILE"),
        explain: matches.get_str("WHEN"),
        user: user_number(matches)?,
        threads: matches.get_flag("threads"),
        expect: matches.get_str("expect"),
        bless: matches.get_flag("bless"),
        list: matches.get_str("LIST"),
        json: matches.get_str("json"),
        lines: matches.get_flag("lines"),
        kill_on_debugger_exit: kill_number(matches)?,
    })
}

/// The operand of a command line that has nothing else, if it can't be taken for an option.
fn only_file<'a>(words: &'a [String]) -> Option<&'a str>
    ensures { IfSome result (λ file. IsAlone words.now file.now) }
{
    if words.len() != 2 {
        return None;
    }
    let word = words[1].as_str();
    match word.as_bytes().first() {
        None | Some(b'-') => None,
        Some(_) => Some(word),
    }
}

/// The arguments among the words of a command line, as `clap` finds them.
fn found_arguments<'a>(
    alloc: Global,
    version: &'a str,
    words: &'a [String],
    terminals: Terminals,
) -> Result<Arguments<'a>, Refusal>
    ensures { IfOk result (AreOf words.now) }
{
    let matches = match matches_of(alloc, version, words) {
        Ok(matches) => matches,
        Err(error) => return Err(refused(alloc, error, words, terminals)),
    };
    let arguments = arguments_of(&matches)?;
    if are_so(words, &arguments) {
        Ok(arguments)
    } else {
        Err(Refusal::Misread)
    }
}

/// The arguments among the words of a command line. One with only an operand needs no `clap`, whose work would take longer
/// than a short run.
fn arguments_in<'a>(
    alloc: Global,
    version: &'a str,
    words: &'a [String],
    terminals: Terminals,
) -> Result<Arguments<'a>, Refusal>
    ensures { IfOk result (AreOf words.now) }
{
    match only_file(words) {
        Some(file) => Ok(Arguments::of_file(file)),
        None => found_arguments(alloc, version, words, terminals),
    }
}

/// Returns what the words of a command line ask for. The first word is the program's name.
///
/// # Errors
///
/// `Command` if the words are refused, or ask for help or for the version, which is that of the program. `User` if
/// the user isn't from 1001 to 1064. `Misread` if `clap` found what the words don't say. `Memory` if memory runs out.
pub(crate) fn asked_of<'a>(
    alloc: Global,
    version: &'a str,
    words: &'a [String],
    terminals: Terminals,
) -> Result<RunRequest<'a>, Refusal>
    ensures { IfOk result (IsAsked words.now terminals) }
{
    let arguments = arguments_in(alloc, version, words, terminals)?;
    match asked_for(arguments, terminals) {
        Ok(asked) => Ok(asked),
        Err(_) => Err(Refusal::User),
    }
}
