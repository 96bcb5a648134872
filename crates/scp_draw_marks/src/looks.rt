//! How facts look: their classes and their signs.
ghost use Rattle.std.specs.Prelude.{◌≡◌, ◌++◌, ◌-◌, Bool, OnOk, IsOkUnless, filter, length, option_copied, option_map, slice_get, string_bytes};
ghost use Rattle.scp_draw_marks.specs.Looks.{kind_word, said_sign, taken_sign, entry_sign, sign_of as sign_by, is_ballot as is_ballot_so, is_nomination as is_nomination_so, same_voice as same_voices, goes_on as goes_on_so, is_sent as is_sent_so, is_decision as is_decision_so, decides as decides_so, value_of_decision as value_by_decision, value_of_fact as value_by_fact, value_of_telling as value_by_telling, value_at as value_by_mark, are_other as are_other_so, first_value as first_value_of, is_against as is_against_so, conflict_class, entry_class, says_class, decided_class, fact_class};

use crate::facts::same_slot;
use crate::marks::{Act, Mark};
use crate::topic::Kind;
use scp_facts::below::node::{Fate, Node, SharedDecision};
use scp_facts::{Fact, Telling};
use scp_words::below::envelope::SharedEnvelope;
use scp_words::below::types::{Fault, Value};
use scp_words::{word_of_fate, word_of_verdict};

// ---- words and signs

/// The class of a kind.
pub fn word_of_kind(kind: Kind) -> &'static str
    ensures { result.now ≡ kind_word kind }
{
    match kind {
        Kind::Nominate => "nominate",
        Kind::Prepare => "prepare",
        Kind::Confirm => "confirm",
        Kind::Externalize => "externalize",
        Kind::Records => "records",
        Kind::Sets => "sets",
        Kind::Commands => "commands",
        Kind::Decisions => "decisions",
        Kind::Links => "links",
    }
}

/// The sign of what a node says.
fn sign_of_said(kind: Kind) -> &'static str
    ensures { result.now ≡ said_sign kind }
{
    match kind {
        Kind::Nominate => "N",
        Kind::Prepare => "P",
        Kind::Confirm => "C",
        Kind::Externalize => "E",
        Kind::Records => "R",
        Kind::Sets => "Q",
        Kind::Commands => "O",
        Kind::Decisions => "D",
        Kind::Links => "L",
    }
}

/// The sign of what a node takes.
fn sign_of_taken(kind: Kind) -> &'static str
    ensures { result.now ≡ taken_sign kind }
{
    match kind {
        Kind::Nominate => "n",
        Kind::Prepare => "p",
        Kind::Confirm => "c",
        Kind::Externalize => "e",
        Kind::Records => "r",
        Kind::Sets => "q",
        Kind::Commands => "o",
        Kind::Decisions => "d",
        Kind::Links => "l",
    }
}

fn sign_of_entry(kind: Kind, fate: Option<&Fate>) -> &'static str
    ensures { result.now ≡ entry_sign kind (option_copied fate.entry) }
{
    match fate {
        Some(Fate::Taken { .. }) => sign_of_taken(kind),
        Some(Fate::Dropped { .. }) => "x",
        Some(Fate::Closed { .. }) => "/",
        None => "",
    }
}

/// The sign of a fact. What is sent has none, nor what only came in.
pub fn sign_of(node: &Node, kind: Kind, fact: &Fact) -> &'static str
    ensures { result.now ≡ sign_by node.now kind fact.now }
{
    match fact {
        Fact::Full => "f",
        Fact::Came(..) | Fact::Given(_) | Fact::Sent(..) => "",
        Fact::Discarded(_) => "x",
        Fact::Opened(_) => "+",
        Fact::Parked { .. } => "?",
        Fact::Heard { .. } => "q",
        Fact::Ticked => "t",
        Fact::Missed { .. } => "m",
        Fact::Entered { entry, .. } => sign_of_entry(kind, node.journal().get(*entry)),
        Fact::Obeyed(..) => "!",
        Fact::Says(_) => sign_of_said(kind),
        Fact::Decided(_) => "D",
        Fact::Applied(_) => "A",
        Fact::Answers { .. } => "a",
    }
}

// ---- statements that were never sent

fn is_ballot(kind: Kind) -> bool
    ensures { result ≡ is_ballot_so kind }
{
    match kind {
        Kind::Prepare | Kind::Confirm | Kind::Externalize => true,
        Kind::Nominate
        | Kind::Records
        | Kind::Sets
        | Kind::Commands
        | Kind::Decisions
        | Kind::Links => false,
    }
}

fn is_nomination(kind: Kind) -> bool
    ensures { result ≡ is_nomination_so kind }
{
    match kind {
        Kind::Nominate => true,
        Kind::Prepare
        | Kind::Confirm
        | Kind::Externalize
        | Kind::Records
        | Kind::Sets
        | Kind::Commands
        | Kind::Decisions
        | Kind::Links => false,
    }
}

fn same_voice(one: Kind, other: Kind) -> bool
    ensures { result ≡ same_voices one other }
{
    (is_nomination(one) && is_nomination(other)) || (is_ballot(one) && is_ballot(other))
}

fn goes_on(one: &Mark, other: &Mark) -> bool
    ensures { result ≡ goes_on_so one.now other.now }
{
    one.node == other.node
        && same_slot(one.topic.slot, other.topic.slot)
        && same_voice(one.topic.kind, other.topic.kind)
}

/// Whether what the mark says is sent to some node before the node says something newer.
pub fn is_sent(mark: &Mark, later: &[Mark]) -> bool
    ensures { result ≡ is_sent_so mark.now later.now }
{
    for next in later {
        if goes_on(mark, next) {
            match next.act {
                Act::Says => return false,
                Act::Sends => return true,
                Act::Decides | Act::Else => {}
            }
        }
    }
    false
}

// ---- decisions that differ

fn is_decision(act: Act) -> bool
    ensures { result ≡ is_decision_so act }
{
    match act {
        Act::Decides => true,
        Act::Says | Act::Sends | Act::Else => false,
    }
}

/// Whether the mark is a decision of the slot.
fn decides(slot: Option<u64>, mark: &Mark) -> bool
    ensures { result ≡ decides_so slot mark.now }
{
    is_decision(mark.act) && same_slot(mark.topic.slot, slot)
}

/// How many of the marks are decisions of the slot.
pub fn decided_count(slot: Option<u64>, marks: &[Mark]) -> usize
    ensures { result ≡ length (filter (decides_so slot) marks.now) }
{
    let mut count = 0;
    for mark in marks {
        if decides(slot, mark) {
            count += 1;
        }
    }
    count
}

fn value_of_decision(decisions: &[SharedDecision], place: usize) -> Option<&Value>
    ensures { option_map (λ value. value.now) result ≡ value_by_decision (slice_get decisions.entry.now place) }
{
    match decisions.get(place) {
        Some(decision) => Some(&decision.get().value),
        None => None,
    }
}

fn value_of_fact<'a>(node: Option<&'a Node>, fact: &Fact) -> Option<&'a Value>
    ensures { option_map (λ value. value.now) result ≡ value_by_fact (option_copied node.entry) fact.now }
{
    match (node, fact) {
        (Some(node), Fact::Decided(place)) => value_of_decision(node.decisions(), *place),
        _ => None,
    }
}

fn value_of_telling<'a>(nodes: &'a [Node], telling: Option<&Telling>) -> Option<&'a Value>
    ensures { option_map (λ value. value.now) result ≡ value_by_telling nodes.entry.now (option_copied telling.entry) }
{
    match telling {
        Some(Telling::Of(told)) => value_of_fact(
            nodes.get(usize::from(told.node.saturating_sub(1))),
            &told.fact,
        ),
        Some(Telling::Line(_)) | None => None,
    }
}

/// The value that was decided at a mark, if any was.
fn value_at<'a>(nodes: &'a [Node], tellings: &[Telling], mark: &Mark) -> Option<&'a Value>
    ensures { option_map (λ value. value.now) result ≡ value_by_mark nodes.entry.now tellings.now mark.now }
{
    value_of_telling(nodes, tellings.get(mark.at))
}

fn are_other(one: Option<&Value>, other: Option<&Value>) -> bool
    ensures { result ≡ are_other_so (option_map (λ value. value.now) one.entry) (option_map (λ value. value.now) other.entry) }
{
    match (one, other) {
        (Some(one), Some(other)) => !(one == other),
        _ => false,
    }
}

/// The first of the values that were decided for a slot.
fn first_value<'a>(
    nodes: &'a [Node],
    tellings: &[Telling],
    slot: Option<u64>,
    marks: &[Mark],
) -> Option<&'a Value>
    ensures { option_map (λ value. value.now) result ≡ first_value_of nodes.entry.now tellings.now (filter (decides_so slot) marks.now) }
{
    for mark in marks {
        if decides(slot, mark) {
            return value_at(nodes, tellings, mark);
        }
    }
    None
}

/// Whether a mark's value isn't that of its slot's first decision.
#[tactic(auto, using(crate::proofs::Valuing::none_other))]
pub fn is_against(nodes: &[Node], tellings: &[Telling], marks: &[Mark], mark: &Mark) -> bool
    ensures { result ≡ is_against_so nodes.now tellings.now marks.now mark.now }
{
    let own = value_at(nodes, tellings, mark);
    if own.is_none() {
        return false;
    }
    are_other(first_value(nodes, tellings, mark.topic.slot, marks), own)
}

// ---- classes

fn write_entry_class(
    out: &mut String,
    standing: Option<&SharedEnvelope>,
    fate: Option<&Fate>,
) -> Result<(), Fault>
    ensures added { OnOk result (string_bytes out.new ≡ string_bytes out.old ++ entry_class (option_copied standing.entry) (option_copied fate.entry)) }
    ensures only_memory { IsOkUnless result Fault.NoMemory }
{
    match fate {
        Some(Fate::Taken { verdict, .. }) => {
            out.push_str(word_of_verdict(*verdict))?;
            if standing.is_some() {
                out.push_str(" conflict")?;
            }
        }
        Some(Fate::Dropped { .. }) => out.push_str("dropped")?,
        Some(Fate::Closed { .. }) => out.push_str("closed")?,
        None => out.push_str("seen")?,
    }
    Ok(())
}

fn class_of_said(sent: bool) -> &'static str
    ensures { result.now ≡ says_class sent }
{
    if sent { "says" } else { "says unsent" }
}

fn class_of_decided(against: bool) -> &'static str
    ensures { result.now ≡ decided_class against }
{
    if against {
        "decided against"
    } else {
        "decided"
    }
}

/// Adds the class of a fact: what became of it.
pub fn write_class(
    out: &mut String,
    node: &Node,
    sent: bool,
    against: bool,
    fact: &Fact,
) -> Result<(), Fault>
    ensures added { OnOk result (string_bytes out.new ≡ string_bytes out.old ++ fact_class node.now sent against fact.now) }
    ensures only_memory { IsOkUnless result Fault.NoMemory }
{
    match fact {
        Fact::Discarded(_) => out.push_str("dropped")?,
        Fact::Parked { .. } => out.push_str("parked")?,
        Fact::Entered { entry, standing } => {
            return write_entry_class(out, standing.as_ref(), node.journal().get(*entry));
        }
        Fact::Obeyed(fate, _) => out.push_str(word_of_fate(*fate))?,
        Fact::Says(_) => out.push_str(class_of_said(sent))?,
        Fact::Decided(_) => out.push_str(class_of_decided(against))?,
        Fact::Full
        | Fact::Came(..)
        | Fact::Given(_)
        | Fact::Opened(_)
        | Fact::Heard { .. }
        | Fact::Ticked
        | Fact::Missed { .. }
        | Fact::Applied(_)
        | Fact::Answers { .. }
        | Fact::Sent(..) => out.push_str("seen")?,
    }
    Ok(())
}
