//! The elements of facts.
ghost use Rattle.std.specs.Prelude.{◌≡◌, ◌++◌, ◌-◌, IfOk, OnOk, IsOkUnless, Some, flat_map, slice_get, string_bytes};
ghost use Rattle.scp_draw_marks.specs.Pieces.{escaped};
ghost use Rattle.scp_trace.specs.scp_core.specs.History.{peer_at};
ghost use Rattle.scp_trace.specs.scp_core.specs.Kv.{NodeView};
ghost use Rattle.scp_draw_marks.specs.Looks.{is_against as is_against_so};
ghost use Rattle.scp_draw_marks.specs.Lines.{start_of as start_of_mark};
ghost use Rattle.scp_draw.specs.Elements.{column as column_of, number_of as number_by, beside as beside_side, toward as toward_side, rule_text, bar_of, arrow_from, stroke_to, stroke_of, ring_at, rings_of_origin, rings_of, sign_text, sender_class, front_text, title_text, shapes_text, back_text, fact_element, told_element, reaches as reaches_so, element as element_of};

use scp_draw_marks::{
    Mark, came_by, is_against, is_sent, is_taken, sign_of, start_of, word_of_kind, write_across,
    write_bar, write_class, write_escaped, write_letters, write_line, write_ring,
};
use scp_trace::below::facts::{Fact, Telling, Told};
use scp_trace::below::node::{Node, Origin};
use scp_trace::below::stand_slot::Names;
use scp_trace::below::types::{ConnId, Fault, NodeId};
use scp_trace::{Scene, write_told};
use std::alloc::Global;

/// What is drawn: all facts of these nodes, which are as they are at the end, and the marks of the facts.
#[derive(Clone, Copy)]
pub struct Picture<'a> {
    pub alloc: Global,
    pub names: &'a Names,
    pub nodes: &'a [Node],
    pub tellings: &'a [Telling],
    pub marks: &'a [Mark],
}

// ---- columns

/// The place of the column of the node of this number.
pub fn column(number: u8) -> u64
    ensures { result ≡ column_of number }
{
    20 * u64::from(number)
}

fn number_of(id: &NodeId) -> u8
    ensures { result ≡ number_by id.now }
{
    id.0[0]
}

fn beside(number: u8, other: u8) -> u64
    ensures { result ≡ beside_side number other }
{
    if number < other {
        column(number) + 1
    } else {
        column(number).saturating_sub(1)
    }
}

fn toward(number: u8, other: u8) -> u64
    ensures { result ≡ toward_side number other }
{
    if number < other {
        column(number) + 4
    } else {
        column(number).saturating_sub(4)
    }
}

// ---- shapes

fn write_rule(out: &mut String, mark: &Mark) -> Result<(), Fault>
    ensures added { OnOk result (string_bytes out.new ≡ string_bytes out.old ++ rule_text mark.now) }
    ensures only_memory { IsOkUnless result Fault.NoMemory }
{
    if mark.begins {
        let line = mark.line;
        let mut number = String::new(*out.allocator());
        write!(number, "{line}")?;
        write_across(out, "s", 2, mark.row)?;
        write_letters(out, "s", 2, mark.row, number.as_str())?;
    }
    Ok(())
}

fn write_bar_of(out: &mut String, mark: &Mark, fact: &Fact) -> Result<(), Fault>
    ensures added { OnOk result (string_bytes out.new ≡ string_bytes out.old ++ bar_of mark.now fact.now) }
    ensures only_memory { IsOkUnless result Fault.NoMemory }
{
    if let Fact::Says(_) = fact {
        write_bar(out, "b", column(mark.node), mark.row)?;
    }
    Ok(())
}

fn write_arrow(
    out: &mut String,
    mark: &Mark,
    start: Option<u64>,
    place: Option<(ConnId, u64)>,
) -> Result<(), Fault>
    ensures added { OnOk result (string_bytes out.new ≡ string_bytes out.old ++ arrow_from mark.now start place) }
    ensures only_memory { IsOkUnless result Fault.NoMemory }
{
    if let (Some(row), Some((conn, _))) = (start, place) {
        let sender = number_of(&conn.from);
        write_line(out, "a", column(sender), row, column(mark.node), mark.row)?;
    }
    Ok(())
}

fn peer_of(node: &Node, link: u8) -> NodeId
    ensures { result ≡ peer_at node.now.config link }
{
    match node.peers().get(link as usize) {
        Some(peer) => *peer,
        None => node.me(),
    }
}

fn write_stroke_to(out: &mut String, mark: &Mark, other: u8) -> Result<(), Fault>
    ensures added { OnOk result (string_bytes out.new ≡ string_bytes out.old ++ stroke_to mark.now other) }
    ensures only_memory { IsOkUnless result Fault.NoMemory }
{
    let (begin, end) = (beside(mark.node, other), toward(mark.node, other));
    write_line(out, "o", begin, mark.row, end, mark.row)?;
    Ok(())
}

fn write_stroke(out: &mut String, node: &Node, mark: &Mark, fact: &Fact) -> Result<(), Fault>
    ensures added { OnOk result (string_bytes out.new ≡ string_bytes out.old ++ stroke_of node.now mark.now fact.now) }
    ensures only_memory { IsOkUnless result Fault.NoMemory }
{
    if let Fact::Sent(link, _) = fact {
        return write_stroke_to(out, mark, number_of(&peer_of(node, *link)));
    }
    Ok(())
}

/// A ring around the column of a node.
fn write_ring_at(out: &mut String, row: u64, id: &NodeId) -> Result<(), Fault>
    ensures added { OnOk result (string_bytes out.new ≡ string_bytes out.old ++ ring_at row id.now) }
    ensures only_memory { IsOkUnless result Fault.NoMemory }
{
    write_ring(out, "q", column(number_of(id)), row)?;
    Ok(())
}

fn write_rings(out: &mut String, row: u64, ids: &[NodeId]) -> Result<(), Fault>
    ensures added { OnOk result (string_bytes out.new ≡ string_bytes out.old ++ flat_map (ring_at row) ids.now) }
    ensures only_memory { IsOkUnless result Fault.NoMemory }
{
    for id in ids {
        write_ring_at(out, row, id)?;
    }
    Ok(())
}

fn write_rings_of_origin(out: &mut String, row: u64, origin: &Origin) -> Result<(), Fault>
    ensures added { OnOk result (string_bytes out.new ≡ string_bytes out.old ++ rings_of_origin row origin.now) }
    ensures only_memory { IsOkUnless result Fault.NoMemory }
{
    match origin {
        Origin::Machine { quorum, .. } => {
            let nodes = quorum.nodes(*out.allocator())?;
            write_rings(out, row, nodes.as_slice())
        }
        Origin::Named { .. } => Ok(()),
    }
}

fn write_rings_of(out: &mut String, node: &Node, mark: &Mark, fact: &Fact) -> Result<(), Fault>
    ensures added { OnOk result (string_bytes out.new ≡ string_bytes out.old ++ rings_of node.now mark.now fact.now) }
    ensures only_memory { IsOkUnless result Fault.NoMemory }
{
    match fact {
        Fact::Decided(place) => match node.decisions().get(*place) {
            Some(decision) => write_rings_of_origin(out, mark.row, &decision.get().origin),
            None => Ok(()),
        },
        _ => Ok(()),
    }
}

fn write_sign(out: &mut String, mark: &Mark, sign: &str) -> Result<(), Fault>
    ensures added { OnOk result (string_bytes out.new ≡ string_bytes out.old ++ sign_text mark.now sign.now) }
    ensures only_memory { IsOkUnless result Fault.NoMemory }
{
    if sign.is_empty() {
        return Ok(());
    }
    write_letters(out, "f", column(mark.node), mark.row, sign)?;
    Ok(())
}

// ---- an element

fn write_sender(out: &mut String, place: Option<(ConnId, u64)>) -> Result<(), Fault>
    ensures added { OnOk result (string_bytes out.new ≡ string_bytes out.old ++ sender_class place) }
    ensures only_memory { IsOkUnless result Fault.NoMemory }
{
    if let Some((conn, _)) = place {
        let sender = number_of(&conn.from);
        write!(out, " m{sender}")?;
    }
    Ok(())
}

fn write_front(
    out: &mut String,
    node: &Node,
    mark: &Mark,
    sent: bool,
    against: bool,
    fact: &Fact,
) -> Result<(), Fault>
    ensures added { OnOk result (string_bytes out.new ≡ string_bytes out.old ++ front_text node.now mark.now sent against fact.now) }
    ensures only_memory { IsOkUnless result Fault.NoMemory }
{
    let number = mark.node;
    let kind = word_of_kind(mark.topic.kind);
    write!(out, "<g class='n{number} k{kind} ")?;
    write_class(out, node, sent, against, fact)?;
    write_sender(out, came_by(node, fact))?;
    out.push_str("'><title>")?;
    Ok(())
}

/// The text shown when somebody points at a mark.
fn title_of(picture: Picture<'_>, mark: &Mark, told: &Told) -> Result<String, Fault>
    ensures text { (node : NodeView) → slice_get picture.entry.nodes.now (told.now.node - 1) ≡ Some node → IfOk result (λ text. string_bytes text ≡ title_text picture.entry.names.now node mark.now told.now) }
    ensures only_memory { IsOkUnless result Fault.NoMemory }
{
    let line = mark.line;
    let mut text = String::new(picture.alloc);
    writeln!(text, "line {line}")?;
    let scene = Scene {
        alloc: picture.alloc,
        names: picture.names,
        line,
        nodes: picture.nodes,
    };
    write_told(&mut text, scene, told)?;
    Ok(text)
}

fn write_shapes(
    out: &mut String,
    node: &Node,
    mark: &Mark,
    start: Option<u64>,
    fact: &Fact,
) -> Result<(), Fault>
    ensures added { OnOk result (string_bytes out.new ≡ string_bytes out.old ++ shapes_text node.now mark.now start fact.now) }
    ensures only_memory { IsOkUnless result Fault.NoMemory }
{
    write_rule(out, mark)?;
    write_bar_of(out, mark, fact)?;
    write_arrow(out, mark, start, came_by(node, fact))?;
    write_stroke(out, node, mark, fact)?;
    write_rings_of(out, node, mark, fact)?;
    write_sign(out, mark, sign_of(node, mark.topic.kind, fact))
}

fn write_back(
    out: &mut String,
    node: &Node,
    mark: &Mark,
    start: Option<u64>,
    fact: &Fact,
) -> Result<(), Fault>
    ensures added { OnOk result (string_bytes out.new ≡ string_bytes out.old ++ back_text node.now mark.now start fact.now) }
    ensures only_memory { IsOkUnless result Fault.NoMemory }
{
    out.push_str("</title>")?;
    write_shapes(out, node, mark, start, fact)?;
    out.push_str("</g>\n")?;
    Ok(())
}

/// Whether what the mark says is sent before the node says something newer, or the script sends it and a node takes it.
fn reaches(picture: Picture<'_>, mark: &Mark, later: &[Mark]) -> bool
    ensures { result ≡ reaches_so picture.entry.nodes.now picture.entry.tellings.now mark.now later.now }
{
    is_sent(mark, later) || is_taken(picture.nodes, picture.tellings, mark, later)
}

/// The beginning of the element of a mark, before these later marks.
fn front_of(
    picture: Picture<'_>,
    node: &Node,
    mark: &Mark,
    later: &[Mark],
    fact: &Fact,
) -> Result<String, Fault>
    ensures text { IfOk result (λ text. string_bytes text ≡ front_text node.now mark.now (reaches_so picture.entry.nodes.now picture.entry.tellings.now mark.now later.now) (is_against_so picture.entry.nodes.now picture.entry.tellings.now picture.entry.marks.now mark.now) fact.now) }
    ensures only_memory { IsOkUnless result Fault.NoMemory }
{
    let sent = reaches(picture, mark, later);
    let against = is_against(picture.nodes, picture.tellings, picture.marks, mark);
    let mut front = String::new(picture.alloc);
    write_front(&mut front, node, mark, sent, against, fact)?;
    Ok(front)
}

/// The end of the element of a mark.
fn back_of(picture: Picture<'_>, node: &Node, mark: &Mark, fact: &Fact) -> Result<String, Fault>
    ensures text { IfOk result (λ text. string_bytes text ≡ back_text node.now mark.now (start_of_mark picture.entry.nodes.now picture.entry.tellings.now picture.entry.marks.now mark.now) fact.now) }
    ensures only_memory { IsOkUnless result Fault.NoMemory }
{
    let start = start_of(picture.nodes, picture.tellings, picture.marks, mark);
    let mut back = String::new(picture.alloc);
    write_back(&mut back, node, mark, start, fact)?;
    Ok(back)
}

/// Adds the parts of an element, with the title escaped for HTML.
fn add_parts(out: &mut Vec<u8>, front: &str, title: &str, back: &str) -> Result<(), Fault>
    ensures added { OnOk result (out.new.items ≡ out.old.items ++ (front.now ++ (escaped title.now ++ back.now))) }
    ensures only_memory { IsOkUnless result Fault.NoMemory }
{
    out.extend_from_slice(front.as_bytes())?;
    write_escaped(out, title.as_bytes())?;
    out.extend_from_slice(back.as_bytes())?;
    Ok(())
}

/// Adds the element of a fact of this node.
fn write_fact_element(
    out: &mut Vec<u8>,
    picture: Picture<'_>,
    node: &Node,
    mark: &Mark,
    later: &[Mark],
    told: &Told,
) -> Result<(), Fault>
    requires there { slice_get picture.nodes.now (told.now.node - 1) ≡ Some node.now }
    ensures added { OnOk result (out.new.items ≡ out.old.items ++ fact_element picture.entry.names.now node.now mark.now (reaches_so picture.entry.nodes.now picture.entry.tellings.now mark.now later.now) (is_against_so picture.entry.nodes.now picture.entry.tellings.now picture.entry.marks.now mark.now) (start_of_mark picture.entry.nodes.now picture.entry.tellings.now picture.entry.marks.now mark.now) told.now) }
    ensures only_memory { IsOkUnless result Fault.NoMemory }
{
    let front = front_of(picture, node, mark, later, &told.fact)?;
    let title = title_of(picture, mark, told)?;
    let back = back_of(picture, node, mark, &told.fact)?;
    add_parts(out, front.as_str(), title.as_str(), back.as_str())?;
    Ok(())
}

/// Adds the element of a fact, if its node exists.
fn write_told_element(
    out: &mut Vec<u8>,
    picture: Picture<'_>,
    mark: &Mark,
    later: &[Mark],
    told: &Told,
) -> Result<(), Fault>
    ensures added { OnOk result (out.new.items ≡ out.old.items ++ told_element picture.entry.names.now (slice_get picture.entry.nodes.now (told.now.node - 1)) mark.now (reaches_so picture.entry.nodes.now picture.entry.tellings.now mark.now later.now) (is_against_so picture.entry.nodes.now picture.entry.tellings.now picture.entry.marks.now mark.now) (start_of_mark picture.entry.nodes.now picture.entry.tellings.now picture.entry.marks.now mark.now) told.now) }
    ensures only_memory { IsOkUnless result Fault.NoMemory }
{
    match picture.nodes.get(usize::from(told.node.saturating_sub(1))) {
        Some(node) => write_fact_element(out, picture, node, mark, later, told),
        None => Ok(()),
    }
}

/// Adds the element of a mark, before these later marks. The only refusal is `NoMemory`.
pub fn write_element(
    out: &mut Vec<u8>,
    picture: Picture<'_>,
    mark: &Mark,
    later: &[Mark],
) -> Result<(), Fault>
    ensures added { OnOk result (out.new.items ≡ out.old.items ++ element_of picture.entry.names.now picture.entry.nodes.now picture.entry.tellings.now picture.entry.marks.now later.now mark.now) }
    ensures only_memory { IsOkUnless result Fault.NoMemory }
{
    match picture.tellings.get(mark.at) {
        Some(Telling::Of(told)) => write_told_element(out, picture, mark, later, told),
        Some(Telling::Line(_)) | None => Ok(()),
    }
}
