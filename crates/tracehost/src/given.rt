//! Compares arguments with the words that they were found in. `clap` promises little of a command like this program's,
//! so that none of its options is invented or lost is seen here.
ghost use Rattle.std.specs.Prelude.{◌≡◌, drop};
ghost use Rattle.tracehost.specs.Given as spec;

use crate::asking::Arguments;

/// Returns whether this is one of the words.
fn has_word(words: &[String], text: &str) -> bool
    ensures { result ≡ spec.has_word words.now text.now }
{
    words.iter().any(|word| word.as_str() == text)
}

/// Returns whether the word is the option, or begins with it and `=`.
fn names(option: &str, word: &str) -> bool
    ensures { result ≡ spec.names option.now word.now }
{
    let (option, word) = (option.as_bytes(), word.as_bytes());
    word.starts_with(option)
        && match word.get(option.len()) {
            Some(byte) => *byte == b'=',
            None => true,
        }
}

/// Returns whether a word names the option.
fn has_option(words: &[String], option: &str) -> bool
    ensures { result ≡ spec.has_option words.now option.now }
{
    words.iter().any(|word| names(option, word.as_str()))
}

/// Returns whether an option is set as the words say.
fn is_so(words: &[String], option: &str, is_set: bool) -> bool
    ensures { result ≡ spec.is_so words.now option.now is_set }
{
    if is_set {
        has_option(words, option)
    } else {
        has_word(words, "--") || !has_option(words, option)
    }
}

/// Returns whether the operand is a word, if there is one.
fn is_operand(words: &[String], file: Option<&str>) -> bool
    ensures { result ≡ spec.is_operand words.now file.entry }
{
    match file {
        Some(file) => has_word(words, file),
        None => true,
    }
}

/// Returns the words after the program's name.
fn after_name(words: &[String]) -> &[String]
    ensures { result.now ≡ drop 1 words.now }
{
    match words.split_first() {
        Some((_name, rest)) => rest,
        None => words,
    }
}

/// Returns whether the arguments are set as the words after the program's name say.
pub(crate) fn are_so(words: &[String], arguments: &Arguments<'_>) -> bool
    ensures { result ≡ spec.are_so (drop 1 words.now) arguments.now }
{
    let words = after_name(words);
    is_operand(words, arguments.file)
        && is_so(words, "--explain", arguments.explain.is_some())
        && is_so(words, "--user", arguments.user.is_some())
        && is_so(words, "--threads", arguments.threads)
        && is_so(words, "--expect", arguments.expect.is_some())
        && is_so(words, "--bless", arguments.bless)
        && is_so(words, "--expect-list", arguments.list.is_some())
        && is_so(words, "--json", arguments.json.is_some())
        && is_so(words, "--lines", arguments.lines)
        && is_so(
            words,
            "--kill-on-debugger-exit",
            arguments.kill_on_debugger_exit.is_some(),
        )
}
