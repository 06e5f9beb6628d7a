//! The lines of one user, which the user's own thread makes.

ghost use Rattle.std.specs.Prelude.{◌≡◌, ◌++◌, false, Some, String, string_bytes, IfSome};
ghost use Rattle.std.specs.Global.{Global};
ghost use Rattle.step_types.specs.Replies.{is_memory};
ghost use Rattle.scenario_runs.specs.Lines.{line, shown_line};
ghost use Rattle.scenario_runs.specs.Runs.{answered};
ghost use Rattle.scenario.specs.Scripts.{replies_in, DrawnUp, Shows};

use pid_blocks::Uid;
use requests::Reply;
use scenario_runs::{LineOptions, ObjectWriter, push_shown};
use sessions::Report;
use std::alloc::{AllocError, Global};
use std::marker::Model;
use std::snapshot::Snapshot;

/// The bytes of a usual line.
const USUAL_LINE: usize = 128;

/// Reports the lines of the replies that the options show.
#[derive(Drop)]
pub(crate) struct LineReport {
    pub(crate) options: LineOptions,
}

/// A reply, and the replies before it, which only contracts see.
#[derive(Drop)]
struct Replies {
    before: Option<Snapshot<Replies>>,
    last: Reply,
}

impl Model for Replies {
    ghost use Rattle.std.specs.Prelude.{List, ◌++◌, ◌∷◌, [], length};
    ghost use Rattle.step_types.specs.declared.Reply.{Reply};
    ghost use Rattle.scenario.specs.Unseen.{unseen_in};

    ghost Value = { List Reply };

    ghost view = { λ r. unseen_in r.before ++ r.last ∷ [] };

    ghost size = { length };
}

/// The lines of a user's replies so far, and the replies, which only contracts see. There are no lines once memory ran
/// out, here or for one of the steps.
#[derive(Drop)]
pub(crate) struct LineDraft {
    options: LineOptions,
    uid: Uid,
    number: u64,
    text: Option<String>,
    objects: ObjectWriter,
    replies: Option<Snapshot<Replies>>,
}

/// The lines of a user's replies, and the replies, which only contracts see. There are no lines if memory ran out,
/// here or for one of the steps.
#[derive(Drop)]
pub(crate) struct UserLines {
    text: Option<String>,
    replies: Option<Snapshot<Replies>>,
}

impl UserLines {
    /// Returns the lines, if there are any.
    pub(crate) fn into_text(self) -> Option<String>
        ensures { result ≡ self.text }
    {
        let UserLines { text, replies: _ } = self;
        text
    }
}

impl Report for LineReport {
    type Draft = LineDraft;

    type Output = UserLines;

    ghost made_of = { replies_in };

    ghost tells = { λ r u lines. Shows r.options u lines };

    ghost drafted = { DrawnUp };

    fn begin(self, alloc: Global, uid: Uid, replies: usize) -> Result<LineDraft, AllocError> {
        let LineReport { options } = self;
        let text = String::with_capacity(alloc, usual_bytes(&options, uid, replies))?;
        Ok(LineDraft {
            options,
            uid,
            number: 0,
            text: Some(text),
            objects: ObjectWriter::new(alloc),
            replies: None,
        })
    }

    fn add(draft: &mut LineDraft, alloc: Global, reply: Reply) {
        draft.number = draft.number.saturating_add(1);
        add_line(
            alloc,
            &draft.options,
            &mut draft.objects,
            &mut draft.text,
            draft.uid,
            draft.number,
            &reply,
        );
        let replies = Replies {
            before: draft.replies.take(),
            last: reply,
        };
        draft.replies = Some(Snapshot::of(&replies));
    }

    fn end(draft: LineDraft) -> UserLines {
        let LineDraft {
            options: _,
            uid: _,
            number: _,
            text,
            objects: _,
            replies,
        } = draft;
        UserLines { text, replies }
    }
}

/// Returns how many bytes the lines of so many replies to the user usually have, if the options show them.
fn usual_bytes(options: &LineOptions, uid: Uid, replies: usize) -> usize {
    match options.user {
        Some(user) if user != uid => 0,
        _ => replies.saturating_mul(USUAL_LINE),
    }
}

/// Adds the line of a reply to the text, if the options show it. There is no text any more if memory runs out, here or
/// for the step.
fn add_line(
    alloc: Global,
    options: &LineOptions,
    objects: &mut ObjectWriter,
    text: &mut Option<String>,
    uid: Uid,
    number: u64,
    reply: &Reply,
)
    ensures { IfSome text.new (λ new. (is_memory reply.now ≡ false) × (old : String Global) × (text.old ≡ Some old)
        × (string_bytes new ≡ string_bytes old ++ shown_line options.now.user (line options.now.style number (answered (uid, reply.now))))) }
{
    if reply.is_memory() {
        *text = None;
        return;
    }
    let Some(lines) = text else {
        return;
    };
    if push_shown(alloc, options, objects, lines, uid, number, reply).is_err() {
        *text = None;
    }
}
