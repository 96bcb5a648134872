//! The lines of what a node replied to an event.
ghost use Rattle.std.specs.Prelude.{◌≡◌, ◌++◌, OnOk, string_bytes};
ghost use Rattle.scp_live_lines.specs.Replies.{reply_word, refused_line, changes_nothing, ignored_lines, ok_line};

use scp_core::{CommandFate, Reply};
use scp_words::word_of_fate;
use std::alloc::AllocError;

/// The word for a reply.
pub fn word_of_reply(reply: &Reply) -> &'static str
    ensures { result.now ≡ reply_word reply.now }
{
    match reply {
        Reply::Accepted => "accepted",
        Reply::Moved => "moved",
        Reply::Sent(_) => "sent",
        Reply::Idle => "idle",
        Reply::Blocked => "blocked",
        Reply::Full => "full",
        Reply::NotOpen => "not-open",
        Reply::AlreadyOpen => "already-open",
        Reply::LivesSpent => "lives-spent",
        Reply::NoLink => "no-link",
        Reply::Failed => "failed",
        Reply::JournalFull => "journal-full",
        Reply::NoMemory => "no-memory",
    }
}

/// Adds the line of an event that a node refused with this reply: `refused WORD`.
pub fn write_refused(text: &mut String, reply: &Reply) -> Result<(), AllocError>
    ensures { OnOk result (string_bytes text.new ≡ string_bytes text.old ++ refused_line reply.now) }
{
    let word = word_of_reply(reply);
    writeln!(text, "refused {word}")
}

/// Adds the line of an event that doesn't reach a node whose journal is nearly full: `refused journal-full`.
pub fn write_turned_away(text: &mut String) -> Result<(), AllocError>
    ensures { OnOk result (string_bytes text.new ≡ string_bytes text.old ++ refused_line Reply.JournalFull) }
{
    write_refused(text, &Reply::JournalFull)
}

/// Whether a command with this fate changed nothing.
fn is_idle(fate: CommandFate) -> bool
    ensures { result ≡ changes_nothing fate }
{
    match fate {
        CommandFate::Proposed
        | CommandFate::RoundAdded
        | CommandFate::BallotMoved
        | CommandFate::Asked => false,
        _ => true,
    }
}

/// Adds the line of a command that changed nothing, with the word for why: `ignored WORD`. Adds nothing if it changed something.
pub fn write_ignored(text: &mut String, fate: CommandFate) -> Result<(), AllocError>
    ensures { OnOk result (string_bytes text.new ≡ string_bytes text.old ++ ignored_lines fate) }
{
    if !is_idle(fate) {
        return Ok(());
    }
    let word = word_of_fate(fate);
    writeln!(text, "ignored {word}")
}

/// Adds the line that ends the answer to the line with this number: `ok NUMBER`.
pub fn write_ok(text: &mut String, number: u64) -> Result<(), AllocError>
    ensures { OnOk result (string_bytes text.new ≡ string_bytes text.old ++ ok_line number) }
{
    writeln!(text, "ok {number}")
}
