//! The command that a line's words say.
ghost use Rattle.std.specs.Prelude.{◌≡◌, ◌∷◌, [], false, IfOk, IfSome, IsOkUnless, codes, map, option_map};
ghost use Rattle.scp_script.specs.Words.{same, node_in, link_in, number_in, capacity_in, hex_bytes, set_in};
ghost use Rattle.scp_script.specs.Script.{caps_by, nodes_by, set_by, open_by, close_by, send_by, ask_by, propose_by, round_by, timer_by, wait_by, command_in, is_set};
ghost use Rattle.scp_script.specs.inside.Bare.{bare};
ghost use Rattle.scp_script.specs.Nodes.{NamesNodes};
ghost use Rattle.scp_script.specs.declared.command.Command.TheVariants.{Tick, Report};

use crate::command::Command;
use crate::words::{are_digits, bytes_of, capacity, link, node, number, set_of, value_of};
use scp_wire::Bytes;
use scp_wire::below::types::{Capacities, Fault, Value};
use std::alloc::Global;

/// A `tick` line.
fn tick(word: &str) -> Option<Command>
    ensures found { result ≡ option_map Tick (node_in word.now) }
    ensures nodes { IfSome result NamesNodes }
{
    match node(word) {
        Some(node) => Some(Command::Tick(node)),
        None => None,
    }
}

/// A `report` line.
fn report(word: &str) -> Option<Command>
    ensures found { result ≡ option_map Report (node_in word.now) }
    ensures nodes { IfSome result NamesNodes }
{
    match node(word) {
        Some(node) => Some(Command::Report(node)),
        None => None,
    }
}

/// A `nodes` line.
fn nodes(count: &str, quorum: &str) -> Option<Command>
    ensures found { result ≡ nodes_by (node_in count.now) (node_in quorum.now) }
    ensures nodes { IfSome result NamesNodes }
{
    let count = node(count)?;
    let quorum = node(quorum)?;
    if quorum <= count {
        Some(Command::Nodes { count, quorum })
    } else {
        None
    }
}

/// A `caps` line.
fn caps(link: &str, inbox: &str, ready: &str, decided: &str) -> Option<Command>
    ensures found { result ≡ caps_by (capacity_in link.now) (capacity_in inbox.now) (capacity_in ready.now) (capacity_in decided.now) }
    ensures nodes { IfSome result NamesNodes }
{
    let link = capacity(link)?;
    let inbox = capacity(inbox)?;
    let ready = capacity(ready)?;
    let decided = capacity(decided)?;
    Some(Command::Caps(Capacities {
        link,
        inbox,
        ready,
        decided,
    }))
}

/// A `set` line. Whether the set is sane is judged elsewhere.
fn set(alloc: Global, word: &str, digits: &str) -> Result<Option<Command>, Fault>
    ensures found { IfOk result (λ found. found ≡ set_by (node_in word.now) (set_in (hex_bytes digits.now))) }
    ensures nodes { IfOk result (λ found. IfSome found NamesNodes) }
    ensures only_memory { IsOkUnless result Fault.NoMemory }
{
    let Some(node) = node(word) else {
        return Ok(None);
    };
    let Some(set) = set_of(alloc, digits)? else {
        return Ok(None);
    };
    Ok(Some(Command::Set { node, set }))
}

/// An `open` line.
fn open(from: &str, to: &str) -> Option<Command>
    ensures found { result ≡ open_by (link_in from.now to.now) }
    ensures nodes { IfSome result NamesNodes }
{
    let (from, to) = link(from, to)?;
    Some(Command::Open { from, to })
}

/// A `close` line.
fn close(from: &str, to: &str) -> Option<Command>
    ensures found { result ≡ close_by (link_in from.now to.now) }
    ensures nodes { IfSome result NamesNodes }
{
    let (from, to) = link(from, to)?;
    Some(Command::Close { from, to })
}

/// An `ask` line.
fn ask(from: &str, to: &str, slot: &str) -> Option<Command>
    ensures found { result ≡ ask_by (link_in from.now to.now) (number_in slot.now) }
    ensures nodes { IfSome result NamesNodes }
{
    let (from, to) = link(from, to)?;
    let slot = number(slot)?;
    Some(Command::Ask { from, to, slot })
}

/// A `send` line.
fn send(alloc: Global, from: &str, to: &str, bytes: &str) -> Result<Option<Command>, Fault>
    ensures found { IfOk result (λ found. found ≡ send_by (link_in from.now to.now) (hex_bytes bytes.now)) }
    ensures nodes { IfOk result (λ found. IfSome found NamesNodes) }
    ensures only_memory { IsOkUnless result Fault.NoMemory }
{
    let Some((from, to)) = link(from, to) else {
        return Ok(None);
    };
    let Some(bytes) = bytes_of(alloc, bytes)? else {
        return Ok(None);
    };
    Ok(Some(Command::Send { from, to, bytes }))
}

/// A `propose` line. Its value may have any length: the ledger decides what can be proposed.
fn propose(alloc: Global, word: &str, slot: &str, digits: &str) -> Result<Option<Command>, Fault>
    ensures found { IfOk result (λ found. found ≡ propose_by (node_in word.now) (number_in slot.now) (hex_bytes digits.now)) }
    ensures nodes { IfOk result (λ found. IfSome found NamesNodes) }
    ensures only_memory { IsOkUnless result Fault.NoMemory }
{
    let Some(node) = node(word) else {
        return Ok(None);
    };
    let Some(slot) = number(slot) else {
        return Ok(None);
    };
    let Some(value) = value_of(alloc, digits)? else {
        return Ok(None);
    };
    Ok(Some(Command::Propose { node, slot, value }))
}

/// A `round` line.
fn round(word: &str, slot: &str) -> Option<Command>
    ensures found { result ≡ round_by (node_in word.now) (number_in slot.now) }
    ensures nodes { IfSome result NamesNodes }
{
    let node = node(word)?;
    let slot = number(slot)?;
    Some(Command::Round { node, slot })
}

/// A `timer` line.
fn timer(word: &str, slot: &str) -> Option<Command>
    ensures found { result ≡ timer_by (node_in word.now) (number_in slot.now) }
    ensures nodes { IfSome result NamesNodes }
{
    let node = node(word)?;
    let slot = number(slot)?;
    Some(Command::Timer { node, slot })
}

/// A `wait` line.
fn wait(word: &str, things: &str) -> Option<Command>
    ensures found { result ≡ wait_by (node_in word.now) (number_in things.now) }
    ensures nodes { IfSome result NamesNodes }
{
    let node = node(word)?;
    let things = number(things)?;
    Some(Command::Wait { node, things })
}

/// The command of one word.
fn of_one(verb: &str) -> Option<Command>
    ensures found { result ≡ command_in (verb.now ∷ []) }
    ensures nodes { IfSome result NamesNodes }
{
    if verb == "settle" {
        Some(Command::Settle)
    } else {
        None
    }
}

/// The command of two words.
fn of_two(verb: &str, node: &str) -> Option<Command>
    ensures found { result ≡ command_in (verb.now ∷ node.now ∷ []) }
    ensures nodes { IfSome result NamesNodes }
{
    match verb {
        "tick" => tick(node),
        "report" => report(node),
        _ => None,
    }
}

/// The command of three words of which the first isn't `set`.
fn of_three(verb: &str, first: &str, second: &str) -> Option<Command>
    ensures found { same verb.now (codes "set") ≡ false → result ≡ command_in (verb.now ∷ first.now ∷ second.now ∷ []) }
    ensures nodes { IfSome result NamesNodes }
{
    match verb {
        "nodes" => nodes(first, second),
        "open" => open(first, second),
        "close" => close(first, second),
        "round" => round(first, second),
        "timer" => timer(first, second),
        "wait" => wait(first, second),
        _ => None,
    }
}

/// The command of three words.
fn of_three_or_set(
    alloc: Global,
    verb: &str,
    first: &str,
    second: &str,
) -> Result<Option<Command>, Fault>
    ensures found { IfOk result (λ found. found ≡ command_in (verb.now ∷ first.now ∷ second.now ∷ [])) }
    ensures nodes { IfOk result (λ found. IfSome found NamesNodes) }
    ensures only_memory { IsOkUnless result Fault.NoMemory }
{
    if verb == "set" {
        return set(alloc, first, second);
    }
    Ok(of_three(verb, first, second))
}

/// The command of four words.
fn of_four(
    alloc: Global,
    verb: &str,
    first: &str,
    second: &str,
    third: &str,
) -> Result<Option<Command>, Fault>
    ensures found { IfOk result (λ found. found ≡ command_in (verb.now ∷ first.now ∷ second.now ∷ third.now ∷ [])) }
    ensures nodes { IfOk result (λ found. IfSome found NamesNodes) }
    ensures only_memory { IsOkUnless result Fault.NoMemory }
{
    if verb == "ask" {
        return Ok(ask(first, second, third));
    }
    if verb == "send" {
        return send(alloc, first, second, third);
    }
    if verb == "propose" {
        return propose(alloc, first, second, third);
    }
    Ok(None)
}

/// The command of five words.
fn of_five(verb: &str, link: &str, inbox: &str, ready: &str, decided: &str) -> Option<Command>
    ensures found { result ≡ command_in (verb.now ∷ link.now ∷ inbox.now ∷ ready.now ∷ decided.now ∷ []) }
    ensures nodes { IfSome result NamesNodes }
{
    if verb == "caps" {
        caps(link, inbox, ready, decided)
    } else {
        None
    }
}

/// The command of a line's words.
pub fn command_from(alloc: Global, words: &[&str]) -> Result<Option<Command>, Fault>
    ensures found { IfOk result (λ found. found ≡ command_in (map (λ word. word.now) words.now)) }
    ensures nodes { IfOk result (λ found. IfSome found NamesNodes) }
    ensures only_memory { IsOkUnless result Fault.NoMemory }
{
    match words {
        [verb] => Ok(of_one(*verb)),
        [verb, node] => Ok(of_two(*verb, *node)),
        [verb, first, second] => of_three_or_set(alloc, *verb, *first, *second),
        [verb, first, second, third] => of_four(alloc, *verb, *first, *second, *third),
        [verb, link, inbox, ready, decided] => {
            Ok(of_five(*verb, *link, *inbox, *ready, *decided))
        }
        _ => Ok(None),
    }
}

/// Whether the first word is `set`.
pub fn is_set(words: &[&str]) -> bool
    ensures { result ≡ is_set (map (λ word. word.now) words.now) }
{
    match words {
        [verb, ..] => *verb == "set",
        [] => false,
    }
}

/// A `send` line, without its bytes.
fn bare_send(alloc: Global, from: &str, to: &str, bytes: &str) -> Option<Command>
    ensures found { result ≡ option_map bare (send_by (link_in from.now to.now) (hex_bytes bytes.now)) }
    ensures nodes { IfSome result NamesNodes }
{
    let (from, to) = link(from, to)?;
    if !are_digits(bytes) {
        return None;
    }
    let bytes = Bytes::new(Vec::new(alloc));
    Some(Command::Send { from, to, bytes })
}

/// A `propose` line, without its value.
fn bare_propose(alloc: Global, word: &str, slot: &str, digits: &str) -> Option<Command>
    ensures found { result ≡ option_map bare (propose_by (node_in word.now) (number_in slot.now) (hex_bytes digits.now)) }
    ensures nodes { IfSome result NamesNodes }
{
    let node = node(word)?;
    let slot = number(slot)?;
    if !are_digits(digits) {
        return None;
    }
    let value = Value::new(Vec::new(alloc));
    Some(Command::Propose { node, slot, value })
}

/// The command of four words, bare.
fn bare_of_four(
    alloc: Global,
    verb: &str,
    first: &str,
    second: &str,
    third: &str,
) -> Option<Command>
    ensures found { result ≡ option_map bare (command_in (verb.now ∷ first.now ∷ second.now ∷ third.now ∷ [])) }
    ensures nodes { IfSome result NamesNodes }
{
    if verb == "ask" {
        return ask(first, second, third);
    }
    if verb == "send" {
        return bare_send(alloc, first, second, third);
    }
    if verb == "propose" {
        return bare_propose(alloc, first, second, third);
    }
    None
}

/// The command of five words, which has no bytes to leave out.
fn bare_of_five(verb: &str, link: &str, inbox: &str, ready: &str, decided: &str) -> Option<Command>
    ensures found { result ≡ option_map bare (command_in (verb.now ∷ link.now ∷ inbox.now ∷ ready.now ∷ decided.now ∷ [])) }
    ensures nodes { IfSome result NamesNodes }
{
    of_five(verb, link, inbox, ready, decided)
}

/// The command of a line's words, without the bytes that it sends or proposes. It takes no memory. The line must not be a `set` line.
pub fn bare_command(alloc: Global, words: &[&str]) -> Option<Command>
    ensures found { is_set (map (λ word. word.now) words.now) ≡ false → result ≡ option_map bare (command_in (map (λ word. word.now) words.now)) }
    ensures nodes { IfSome result NamesNodes }
{
    match words {
        [verb] => of_one(*verb),
        [verb, node] => of_two(*verb, *node),
        [verb, first, second] => of_three(*verb, *first, *second),
        [verb, first, second, third] => bare_of_four(alloc, *verb, *first, *second, *third),
        [verb, first, second, third, fourth] => {
            bare_of_five(*verb, *first, *second, *third, *fourth)
        }
        _ => None,
    }
}
