//! What became of a message or a command, and why a connection ended.
ghost use Rattle.std.specs.Prelude.{◌≡◌};
ghost use Rattle.scp_words.specs.Words.{verdict_word, cause_word, drop_word, fate_word};

use scp_ledger::below::pending::DropCause;
use scp_ledger::below::wire::Cause;
use scp_ledger::{CommandFate, Verdict};

/// The word of a verdict, as in a report.
pub fn word_of_verdict(verdict: Verdict) -> &'static str
    ensures { result.now ≡ verdict_word verdict }
{
    match verdict {
        Verdict::OldSlot => "old-slot",
        Verdict::FarSlot => "far-slot",
        Verdict::Already => "already",
        Verdict::Unasked => "unasked",
        Verdict::Own => "own",
        Verdict::BadStatement => "bad-statement",
        Verdict::BadValue => "bad-value",
        Verdict::Stale => "stale",
        Verdict::Idle => "idle",
        Verdict::Fresh => "fresh",
        Verdict::Forwarded => "forwarded",
        Verdict::Decided => "decided",
    }
}

/// The word for why a connection ended.
pub fn word_of_cause(cause: Cause) -> &'static str
    ensures { result.now ≡ cause_word cause }
{
    match cause {
        Cause::Malformed => "malformed",
        Cause::Link => "link",
        Cause::Spent => "spent",
        Cause::ParkedFull => "parked-full",
    }
}

/// The word for why a message was dropped.
pub fn word_of_drop(cause: DropCause) -> &'static str
    ensures { result.now ≡ drop_word cause }
{
    match cause {
        DropCause::BadSet => "bad-set",
        DropCause::GaveUp => "gave-up",
        DropCause::Closed => "closed",
        DropCause::ParkedFull => "parked-full",
    }
}

/// The word for what became of a command.
pub fn word_of_fate(fate: CommandFate) -> &'static str
    ensures { result.now ≡ fate_word fate }
{
    match fate {
        CommandFate::OldSlot => "old-slot",
        CommandFate::FarSlot => "far-slot",
        CommandFate::Decided => "decided",
        CommandFate::BadValue => "bad-value",
        CommandFate::ProposedBefore => "proposed-before",
        CommandFate::Proposed => "proposed",
        CommandFate::NoRoundLeft => "no-round-left",
        CommandFate::RoundAdded => "round-added",
        CommandFate::NoBallot => "no-ballot",
        CommandFate::BallotStays => "ballot-stays",
        CommandFate::BallotMoved => "ballot-moved",
        CommandFate::AskedBefore => "asked-before",
        CommandFate::Asked => "asked",
    }
}
