//! Where a statement was said, and where it was taken.
ghost use Rattle.std.specs.Prelude.{◌≡◌, ◌-◌, option_copied, option_map, slice_get};
ghost use Rattle.std.specs.List.{list_any};
ghost use Rattle.scp_draw_marks.specs.Lines.{said_in as said_by_fact, said_by as said_by_telling, said_at as said_by_mark, statement_in as statement_by, statement_of as statement_by_fate, taken_in as taken_by_fact, taken_of as taken_by_node, taken_by as taken_by_telling, taken_at as taken_by_mark, are_same as are_alike, takes_it as takes_it_so, is_taken as is_taken_so, sender_in as sender_by_place, sender_of as sender_by_node, sender_by as sender_by_telling, sender_at as sender_by_mark, says_it as says_it_so, row_said as row_of_said, begins_in as begins_in_row, start_of as start_by_mark};

use crate::facts::came_by;
use crate::marks::Mark;
use scp_facts::below::node::{Fate, Node};
use scp_facts::{Fact, Telling, same_statement};
use scp_words::below::envelope::Statement;
use scp_words::below::types::ConnId;
use scp_words::below::wire::Message;

// ---- what is said

fn said_in(fact: &Fact) -> Option<&Statement>
    ensures { option_map (λ s. s.now) result ≡ said_by_fact fact.entry.now }
{
    match fact {
        Fact::Says(envelope) => Some(&envelope.get().statement),
        _ => None,
    }
}

fn said_by(telling: Option<&Telling>) -> Option<&Statement>
    ensures { option_map (λ s. s.now) result ≡ said_by_telling (option_copied telling.entry) }
{
    match telling {
        Some(Telling::Of(told)) => said_in(&told.fact),
        Some(Telling::Line(_)) | None => None,
    }
}

fn said_at<'a>(tellings: &'a [Telling], mark: &Mark) -> Option<&'a Statement>
    ensures { option_map (λ s. s.now) result ≡ said_by_mark tellings.entry.now mark.now }
{
    said_by(tellings.get(mark.at))
}

// ---- what is taken

fn statement_in(message: &Message) -> Option<&Statement>
    ensures { option_map (λ s. s.now) result ≡ statement_by message.entry.now }
{
    match message {
        Message::Envelope(envelope) => Some(&envelope.get().statement),
        _ => None,
    }
}

fn statement_of(fate: Option<&Fate>) -> Option<&Statement>
    ensures { option_map (λ s. s.now) result ≡ statement_by_fate (option_copied fate.entry) }
{
    match fate {
        Some(Fate::Taken { message, .. }) => statement_in(message),
        Some(Fate::Dropped { .. }) | Some(Fate::Closed { .. }) | None => None,
    }
}

fn taken_in<'a>(node: &'a Node, fact: &'a Fact) -> Option<&'a Statement>
    ensures { option_map (λ s. s.now) result ≡ taken_by_fact node.entry.now fact.entry.now }
{
    match fact {
        Fact::Parked { message, .. } => statement_in(message),
        Fact::Entered { entry, .. } => statement_of(node.journal().get(*entry)),
        _ => None,
    }
}

fn taken_of<'a>(node: Option<&'a Node>, fact: &'a Fact) -> Option<&'a Statement>
    ensures { option_map (λ s. s.now) result ≡ taken_by_node (option_copied node.entry) fact.entry.now }
{
    match node {
        Some(node) => taken_in(node, fact),
        None => None,
    }
}

fn taken_by<'a>(nodes: &'a [Node], telling: Option<&'a Telling>) -> Option<&'a Statement>
    ensures { option_map (λ s. s.now) result ≡ taken_by_telling nodes.entry.now (option_copied telling.entry) }
{
    match telling {
        Some(Telling::Of(told)) => taken_of(
            nodes.get(usize::from(told.node.saturating_sub(1))),
            &told.fact,
        ),
        Some(Telling::Line(_)) | None => None,
    }
}

fn taken_at<'a>(nodes: &'a [Node], tellings: &'a [Telling], mark: &Mark) -> Option<&'a Statement>
    ensures { option_map (λ s. s.now) result ≡ taken_by_mark nodes.entry.now tellings.entry.now mark.now }
{
    taken_by(nodes, tellings.get(mark.at))
}

// ---- both

#[tactic(auto, unfolding(crate::specs::Lines::are_same))]
fn are_same(one: Option<&Statement>, other: Option<&Statement>) -> bool
    ensures { result ≡ are_alike (option_map (λ s. s.now) one.entry) (option_map (λ s. s.now) other.entry) }
{
    match (one, other) {
        (Some(one), Some(other)) => same_statement(one, other),
        (None, _) | (Some(_), None) => false,
    }
}

/// Whether what the mark says is what a node takes at the other mark.
fn takes_it(nodes: &[Node], tellings: &[Telling], mark: &Mark, other: &Mark) -> bool
    ensures { result ≡ takes_it_so nodes.now tellings.now mark.now other.now }
{
    are_same(said_at(tellings, mark), taken_at(nodes, tellings, other))
}

/// Whether what the mark says is taken by a node at one of these marks.
pub fn is_taken(nodes: &[Node], tellings: &[Telling], mark: &Mark, later: &[Mark]) -> bool
    ensures { result ≡ is_taken_so nodes.now tellings.now mark.now later.now }
{
    for next in later {
        if takes_it(nodes, tellings, mark, next) {
            return true;
        }
    }
    false
}

// ---- where a message's line begins

fn sender_in(place: Option<(ConnId, u64)>) -> u8
    ensures { result ≡ sender_by_place place }
{
    match place {
        Some((conn, _)) => conn.from.0[0],
        None => 0,
    }
}

fn sender_of(node: Option<&Node>, fact: &Fact) -> u8
    ensures { result ≡ sender_by_node (option_copied node.entry) fact.now }
{
    match node {
        Some(node) => sender_in(came_by(node, fact)),
        None => 0,
    }
}

fn sender_by(nodes: &[Node], telling: Option<&Telling>) -> u8
    ensures { result ≡ sender_by_telling nodes.now (option_copied telling.entry) }
{
    match telling {
        Some(Telling::Of(told)) => sender_of(
            nodes.get(usize::from(told.node.saturating_sub(1))),
            &told.fact,
        ),
        Some(Telling::Line(_)) | None => 0,
    }
}

fn sender_at(nodes: &[Node], tellings: &[Telling], mark: &Mark) -> u8
    ensures { result ≡ sender_by_mark nodes.now tellings.now mark.now }
{
    sender_by(nodes, tellings.get(mark.at))
}

/// Whether the node of this number says the statement at the mark.
fn says_it(tellings: &[Telling], sender: u8, statement: Option<&Statement>, mark: &Mark) -> bool
    ensures { result ≡ says_it_so tellings.now sender (option_map (λ s. s.now) statement.entry) mark.now }
{
    mark.node == sender && are_same(said_at(tellings, mark), statement)
}

/// The row of the first of these marks at which the node of this number says the statement.
fn row_said(
    tellings: &[Telling],
    sender: u8,
    statement: Option<&Statement>,
    marks: &[Mark],
) -> Option<u64>
    ensures { result ≡ row_of_said tellings.now sender (option_map (λ s. s.now) statement.entry) marks.now }
{
    for mark in marks {
        if says_it(tellings, sender, statement, mark) {
            return Some(mark.row);
        }
    }
    None
}

fn begins_in(from: Option<u64>, said: Option<u64>) -> Option<u64>
    ensures { result ≡ begins_in_row from said }
{
    match (from, said) {
        (Some(from), Some(said)) => Some(from.min(said)),
        (Some(from), None) => Some(from),
        (None, _) => None,
    }
}

/// The row in which the line of a mark's message begins: that in which it was said, if a mark says it, or else that in which it came.
pub fn start_of(nodes: &[Node], tellings: &[Telling], marks: &[Mark], mark: &Mark) -> Option<u64>
    ensures { result ≡ start_by_mark nodes.now tellings.now marks.now mark.now }
{
    let statement = taken_at(nodes, tellings, mark);
    let sender = sender_at(nodes, tellings, mark);
    let said = row_said(tellings, sender, statement, marks);
    begins_in(mark.from, said)
}
