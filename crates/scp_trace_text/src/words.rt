//! The words of a trace.
ghost use Rattle.std.specs.Prelude.{◌≡◌, option_map};
ghost use Rattle.scp_trace_text.specs.Words.{verdict_of as verdict_by, why_word, side_word, kind_word, answer_word};

use scp_words::below::envelope::Pledges;
use scp_words::below::ledger::{CommandFate, Verdict};
use scp_words::below::pending::{Becoming, Why};

/// What became of a command, in the verdicts for messages.
pub(crate) fn verdict_of(fate: CommandFate) -> Verdict
    ensures { result ≡ verdict_by fate }
{
    match fate {
        CommandFate::OldSlot => Verdict::OldSlot,
        CommandFate::FarSlot => Verdict::FarSlot,
        CommandFate::Decided => Verdict::Already,
        CommandFate::BadValue => Verdict::BadValue,
        CommandFate::ProposedBefore
        | CommandFate::NoRoundLeft
        | CommandFate::NoBallot
        | CommandFate::BallotStays
        | CommandFate::AskedBefore => Verdict::Idle,
        CommandFate::Proposed
        | CommandFate::RoundAdded
        | CommandFate::BallotMoved
        | CommandFate::Asked => Verdict::Fresh,
    }
}

/// The word for why a message is parked.
pub(crate) fn word_of_why(why: Why) -> &'static str
    ensures { result.now ≡ why_word why }
{
    match why {
        Why::Asks => "asks",
        Why::Waits => "waits",
        Why::Behind => "behind",
        Why::Over => "over",
    }
}

/// The word for what became of a message without a number on an open connection.
pub(crate) fn word_of_side(became: Becoming) -> Option<&'static str>
    ensures { option_map (λ word. word.now) result ≡ side_word became }
{
    match became {
        Becoming::Answered => Some("answered"),
        Becoming::Stored => Some("stored"),
        Becoming::BadSet => Some("bad-set"),
        Becoming::Missed => Some("missed"),
        Becoming::Unwanted => Some("unwanted"),
        Becoming::Nothing
        | Becoming::Discarded
        | Becoming::Opens
        | Becoming::Goes
        | Becoming::Parks(_)
        | Becoming::Ticks => None,
    }
}

/// The word for the kind of a statement.
pub(crate) fn word_of_kind(pledges: &Pledges) -> &'static str
    ensures { result.now ≡ kind_word pledges.now }
{
    match pledges {
        Pledges::Nominate(_) => "nominate",
        Pledges::Prepare(_) => "prepare",
        Pledges::Confirm(_) => "confirm",
        Pledges::Externalize(_) => "externalize",
    }
}

/// The word for whether there is a record to send.
pub(crate) fn word_of_answer(is_there: bool) -> &'static str
    ensures { result.now ≡ answer_word is_there }
{
    if is_there { "record" } else { "none" }
}
