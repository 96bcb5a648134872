//! The lines that a shorthand says.
ghost use Rattle.std.specs.Prelude.{◌≡◌, ◌++◌, ◌∷◌, [], IfOk, OnOk, string_bytes};
ghost use Rattle.scp_script_short.specs.Lines.{open_line as open_of, round_line as round_of, ask_line as ask_of, opens_of as opens_of_node, opens as all_opens, round_of_each, rounds as all_rounds, ask_lines, asks as all_asks, lines_of as said_lines};

use crate::shorthand::Shorthand;
use scp_script_text::below::types::{Slot, WINDOW};
use scp_script_text::below::wire::Bytes;
use std::alloc::{AllocError, Global};

/// A line of this text.
fn line(alloc: Global, text: &str) -> Result<Bytes, AllocError>
    ensures { IfOk result (λ line. line ≡ text.now) }
{
    Ok(Bytes::new(Vec::from_slice(alloc, text.as_bytes())?))
}

/// The text of `open I J`.
fn open_text(alloc: Global, node: u32, peer: u32) -> Result<String, AllocError>
    ensures { IfOk result (λ text. string_bytes text ≡ open_of node peer) }
{
    let mut text = format!(in alloc; "open {node} ")?;
    let peer = peer.to_string(alloc)?;
    text.push_str(peer.as_str())?;
    Ok(text)
}

/// `open I J`.
fn open_line(alloc: Global, node: u32, peer: u32) -> Result<Bytes, AllocError>
    ensures { IfOk result (λ line. line ≡ open_of node peer) }
{
    let text = open_text(alloc, node, peer)?;
    line(alloc, text.as_str())
}

/// The text of `round I SLOT`.
fn round_text(alloc: Global, node: u32, slot: Slot) -> Result<String, AllocError>
    ensures { IfOk result (λ text. string_bytes text ≡ round_of node slot) }
{
    let mut text = format!(in alloc; "round {node} ")?;
    let slot = slot.0.to_string(alloc)?;
    text.push_str(slot.as_str())?;
    Ok(text)
}

/// `round I SLOT`.
fn round_line(alloc: Global, node: u32, slot: Slot) -> Result<Bytes, AllocError>
    ensures { IfOk result (λ line. line ≡ round_of node slot) }
{
    let text = round_text(alloc, node, slot)?;
    line(alloc, text.as_str())
}

/// The text of `ask I J SLOT`.
fn ask_text(alloc: Global, node: u32, peer: u32, slot: u32) -> Result<String, AllocError>
    ensures { IfOk result (λ text. string_bytes text ≡ ask_of node peer slot) }
{
    let mut text = format!(in alloc; "ask {node} {peer} ")?;
    let slot = slot.to_string(alloc)?;
    text.push_str(slot.as_str())?;
    Ok(text)
}

/// `ask I J SLOT`.
fn ask_line(alloc: Global, node: u32, peer: u32, slot: u32) -> Result<Bytes, AllocError>
    ensures { IfOk result (λ line. line ≡ ask_of node peer slot) }
{
    let text = ask_text(alloc, node, peer, slot)?;
    line(alloc, text.as_str())
}

/// The lines that open one node's links to the others of this many nodes.
#[tactic(auto, using(crate::proofs::Numbers::opens_more))]
fn opens_of(alloc: Global, nodes: u32, node: u32) -> Result<Vec<Bytes>, AllocError>
    ensures { IfOk result (λ lines. lines.items ≡ opens_of_node nodes node) }
{
    let mut lines = Vec::new(alloc);
    for index in 0..nodes {
        if index + 1 != node {
            lines.push(open_line(alloc, node, index + 1)?)?;
        }
    }
    Ok(lines)
}

/// The lines that open each link.
#[tactic(auto, using(crate::proofs::Numbers::all_opens_more))]
fn opens(alloc: Global, nodes: u32) -> Result<Vec<Bytes>, AllocError>
    ensures { IfOk result (λ lines. lines.items ≡ all_opens nodes) }
{
    let mut lines = Vec::new(alloc);
    for index in 0..nodes {
        let mut more = opens_of(alloc, nodes, index + 1)?;
        lines.append(&mut more)?;
    }
    Ok(lines)
}

/// The lines of one more round at each node.
#[tactic(auto, using(crate::proofs::Numbers::round_more))]
fn one_round(alloc: Global, nodes: u32, slot: Slot) -> Result<Vec<Bytes>, AllocError>
    ensures { IfOk result (λ lines. lines.items ≡ round_of_each nodes slot) }
{
    let mut lines = Vec::new(alloc);
    for index in 0..nodes {
        lines.push(round_line(alloc, index + 1, slot)?)?;
    }
    Ok(lines)
}

/// The lines of this many more rounds at each node.
#[tactic(auto, using(crate::proofs::Numbers::rounds_more))]
fn rounds(alloc: Global, nodes: u32, slot: Slot, times: u32) -> Result<Vec<Bytes>, AllocError>
    ensures { IfOk result (λ lines. lines.items ≡ all_rounds nodes slot times) }
{
    let mut lines = Vec::new(alloc);
    for time in 0..times {
        let mut more = one_round(alloc, nodes, slot)?;
        lines.append(&mut more)?;
    }
    Ok(lines)
}

/// Adds the line that asks for a slot, and before it `settle` if as many slots as a window has were asked for since the last one.
fn add_ask(
    alloc: Global,
    lines: &mut Vec<Bytes>,
    node: u32,
    peer: u32,
    slot: u32,
) -> Result<(), AllocError>
    ensures { OnOk result (lines.new.items ≡ lines.old.items ++ ask_lines node peer slot) }
{
    if slot > 1 && u64::from(slot) % WINDOW == 1 {
        lines.push(line(alloc, "settle")?)?;
    }
    lines.push(ask_line(alloc, node, peer, slot)?)?;
    Ok(())
}

/// The lines that ask for the slots from 1 to the last.
#[tactic(auto, using(crate::proofs::Numbers::asks_more))]
fn asks(alloc: Global, node: u32, peer: u32, until: u32) -> Result<Vec<Bytes>, AllocError>
    ensures { IfOk result (λ lines. lines.items ≡ all_asks node peer until) }
{
    let mut lines = Vec::new(alloc);
    for index in 0..until {
        add_ask(alloc, &mut lines, node, peer, index + 1)?;
    }
    Ok(lines)
}

/// The lines that a shorthand says.
pub fn lines_of(alloc: Global, shorthand: Shorthand) -> Result<Vec<Bytes>, AllocError>
    ensures { IfOk result (λ lines. lines.items ≡ said_lines shorthand) }
{
    match shorthand {
        Shorthand::OpenAll { nodes } => opens(alloc, nodes),
        Shorthand::Rounds { nodes, slot, times } => rounds(alloc, nodes, slot, times),
        Shorthand::CatchUp { node, peer, until } => asks(alloc, node, peer, until),
    }
}
