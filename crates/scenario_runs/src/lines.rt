//! The lines of replies.
ghost use Rattle.std.specs.Prelude.{◌≡◌, ◌∷◌, [], ◌+◌, ◌-◌, ◌^◌, ◌<◌, ◌≤◌, ◌++◌, ◌==◌, ℕ, codes, decimal, length, map, Option, IfOk, OnOk, string_bytes, slice_index, slice_set};
ghost use Rattle.std.specs.List.{join_with_byte};
ghost use Rattle.pid_blocks.specs.Blocks.{slot};
ghost use Rattle.step_types.specs.Words.{reply_words};
ghost use Rattle.scenario_runs.specs.Lines.{line, shown_line};
ghost use Rattle.scenario_runs.specs.declared.style.Style.TheVariants as style;
ghost use Rattle.scenario_runs.specs.Runs.{answered, shown};

use crate::number_lists::push_list;
use crate::running::{LineOptions, RunOptions};
use crate::short_lines::{ROOM, push_short};
use crate::style::Style;
use arrayvec::ArrayString;
use itoa::Buffer;
use pid_blocks::Uid;
use reply_json::ObjectWriter;
use requests::Reply;
use scenario_text::USERS;
use std::alloc::{AllocError, Global};
use std::marker::Model;

/// The words of a line while they are put together. The lines of a user begin alike, so the next line of the same user
/// keeps its beginning.
#[derive(Drop)]
pub(crate) struct Words {
    line: ArrayString<ROOM>,
    /// The user with whose number the line begins, if any.
    user: Option<Uid>,
    /// The bytes of that number and of the space behind it.
    kept: usize,
}

impl Model for Words {
    ghost use Rattle.std.specs.Prelude.{List, ℕ};
    ghost use Rattle.scenario_runs.specs.Lines.{IsBegun};

    ghost Value = { List ℕ };

    ghost view = { λ a. a.line.bytes };

    ghost invariant = { IsBegun };
}

impl Words {
    pub(crate) fn new() -> Words {
        Words {
            line: ArrayString::new(),
            user: None,
            kept: 0,
        }
    }

    /// Begins a line with the user's number and a space.
    fn begin(&mut self, uid: Uid)
        ensures words { self.new ≡ decimal uid ++ codes " " }
        ensures few { length self.new ≤ 11 }
    {
        if self.user == Some(uid) {
            let _ = self.line.as_str();
            self.line.truncate(self.kept);
            return;
        }
        let mut digits = Buffer::new();
        self.user = None;
        self.line.clear();
        self.line.push_str(digits.format(uid.get()));
        self.line.push_str(" ");
        self.kept = self.line.len();
        self.user = Some(uid);
    }
}

/// Adds the words of a reply that isn't one of the most frequent, and ends the line.
fn push_long(text: &mut String, reply: &Reply) -> Result<(), AllocError>
    ensures { OnOk result (string_bytes text.new ≡ string_bytes text.old ++ (32 ∷ join_with_byte 32 (reply_words reply.now)) ++ (10 ∷ [])) }
{
    match reply {
        Reply::Lwps(tids) => push_list(text, "lwps", tids.as_slice()),
        Reply::Pids(pids) => push_list(text, "pids", pids.as_slice()),
        _ => {
            writeln!(text, " {reply}")?;
            Ok(())
        }
    }
}

/// Adds the line of a reply as text. It is put together in `words`.
fn push_text(
    words: &mut Words,
    text: &mut String,
    uid: Uid,
    number: u64,
    reply: &Reply,
) -> Result<(), AllocError>
    ensures { OnOk result (string_bytes text.new
        ≡ string_bytes text.old ++ (line style.Text number (answered (uid, reply.now))).text) }
{
    let mut digits = Buffer::new();
    words.begin(uid);
    words.line.push_str(digits.format(number));
    if push_short(&mut words.line, reply) {
        return text.push_str(words.line.as_str());
    }
    text.push_str(words.line.as_str())?;
    push_long(text, reply)
}

/// Adds the line of a reply as a JSON object.
fn push_object(
    alloc: Global,
    objects: &mut ObjectWriter,
    text: &mut String,
    uid: Uid,
    number: u64,
    reply: &Reply,
) -> Result<(), AllocError>
    ensures { OnOk result (string_bytes text.new
        ≡ string_bytes text.old ++ (line style.Json number (answered (uid, reply.now))).text) }
{
    objects.push_reply(alloc, text, uid, number, reply)?;
    text.push_str("\n")
}

/// Adds the line of the user's reply with this number. A JSON line is put together in `objects`.
pub fn push_line(
    alloc: Global,
    style: Style,
    objects: &mut ObjectWriter,
    text: &mut String,
    uid: Uid,
    number: u64,
    reply: &Reply,
) -> Result<(), AllocError>
    ensures { OnOk result (string_bytes text.new
        ≡ string_bytes text.old ++ (line style number (answered (uid, reply.now))).text) }
{
    match style {
        Style::Text => push_text(&mut Words::new(), text, uid, number, reply),
        Style::Json => push_object(alloc, objects, text, uid, number, reply),
    }
}

/// Adds the line of a reply, if the options show it. A line as text is put together in `words`, which a run keeps from
/// line to line.
pub(crate) fn push_shown_by(
    alloc: Global,
    options: &LineOptions,
    words: &mut Words,
    objects: &mut ObjectWriter,
    text: &mut String,
    uid: Uid,
    number: u64,
    reply: &Reply,
) -> Result<(), AllocError>
    ensures { OnOk result (string_bytes text.new
        ≡ string_bytes text.old ++ shown_line options.now.user (line options.now.style number (answered (uid, reply.now)))) }
{
    let is_shown = match options.user {
        Some(user) => uid == user,
        None => true,
    };
    if !is_shown {
        return Ok(());
    }
    match options.style {
        Style::Text => push_text(words, text, uid, number, reply),
        Style::Json => push_object(alloc, objects, text, uid, number, reply),
    }
}

/// Adds the line of a reply, if the options show it.
pub fn push_shown(
    alloc: Global,
    options: &LineOptions,
    objects: &mut ObjectWriter,
    text: &mut String,
    uid: Uid,
    number: u64,
    reply: &Reply,
) -> Result<(), AllocError>
    ensures { OnOk result (string_bytes text.new
        ≡ string_bytes text.old ++ shown_line options.now.user (line options.now.style number (answered (uid, reply.now)))) }
{
    let mut words = Words::new();
    push_shown_by(
        alloc, options, &mut words, objects, text, uid, number, reply,
    )
}

/// Counts one more reply of the user, and returns the new count.
pub fn count_reply(made: &mut [u64; USERS], uid: Uid) -> u64
    requires { (k : ℕ) → slice_index made.old k + 1 < 2 ^ 64 }
    ensures range { (1001 ≤ uid) × (uid ≤ 1064) }
    ensures number { result ≡ slice_index made.old (uid - 1001) + 1 }
    ensures after { made.new ≡ slice_set made.old (uid - 1001) result }
{
    let slot = uid.slot();
    let _user = uid.get();
    made[slot] += 1;
    made[slot]
}

/// Returns the text of the replies in order, in the style of the options. Each has a line with its user and the user's
/// own step number. If the options name a user, the text has only that user's lines. An error means out of memory.
pub fn render_with(
    alloc: Global,
    replies: &[(Uid, Reply)],
    options: LineOptions,
) -> Result<String, AllocError>
    ensures { IfOk result (λ s. string_bytes s ≡ shown options.style options.user (map answered replies.now)) }
{
    let mut text = String::new(alloc);
    let mut objects = ObjectWriter::new(alloc);
    let mut made = [0u64; USERS];
    for reply in replies {
        let number = count_reply(&mut made, reply.0);
        push_shown(
            alloc,
            &options,
            &mut objects,
            &mut text,
            reply.0,
            number,
            &reply.1,
        )?;
    }
    Ok(text)
}

/// Returns the text of the replies in order, in words. Each has a line with its user and the user's own step number. If
/// a user is named, the text has only that user's lines. An error means out of memory.
pub fn render(
    alloc: Global,
    replies: &[(Uid, Reply)],
    user: Option<Uid>,
) -> Result<String, AllocError>
    ensures { IfOk result (λ s. string_bytes s ≡ shown style.Text user (map answered replies.now)) }
{
    let options = LineOptions::in_words(RunOptions { user });
    render_with(alloc, replies, options)
}
