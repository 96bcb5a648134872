//! The warnings of a script, by its commands.
ghost use Rattle.std.specs.Prelude.{◌≡◌, ◌≤◌, ◌∷◌, ◌++◌, [], ◌||◌, ◌&&◌, ℕ, not, nat_eq, All, IfOk, OnOk, IsOkUnless, option_to_list, if◌then◌else◌, List, flat_map};
ghost use Rattle.std.specs.Ordering.{nat_cmp};
ghost use Rattle.std.specs.BTreeSet as sorted;
ghost use Rattle.scp_script.specs.scp_wire.specs.Message.{message_reading};
ghost use Rattle.scp_script.specs.Script.{is_link, node_count, AreAdmitted};
ghost use Rattle.scp_script.specs.Nodes.{NamesNodes, numbers};
ghost use Rattle.scp_script.specs.declared.command.Command.{Command};
ghost use Rattle.scp_script_check.specs.declared.warning.Warning.TheVariants.{Driven, BadValue, Unled};
ghost use Rattle.scp_script_check.specs.Nodes.{speaks_in, settles_them, acts_on, is_list};
ghost use Rattle.scp_script_check.specs.Warnings.{AreWarnings, warnings_by, bytes_warning, command_warnings, line_warnings, rest_warning, rest_place, is_unopened, unopened, unopened_from, report_warning, leader_of, turn_of};
ghost use Rattle.scp_script_check.specs.inside.Sent.{has_sent};
ghost use Rattle.scp_script_check.specs.inside.Behind.{KnowsBefore, KnowsWhole, place_behind};

use crate::nodes::{is_opened, is_reported, is_scripted, speaks};
use crate::proposals::led;
use crate::reading::Script;
use crate::turns::{Turn, has_node, leader, turn_at, turns};
use crate::warning::Warning;
use scp_nominate::below::kv::is_ops;
use scp_nominate::below::types::{Fault, Value};
use scp_script::below::wire::{Bytes, decode};
use scp_script::{Command, count_of_nodes, id_from};
use std::alloc::{AllocError, Global};
use std::collections::BTreeSet;

/// A link that lines sent on.
#[derive(Clone, Copy, PartialEq, Eq)]
struct SentLink {
    from: u8,
    to: u8,
}

/// What the lines so far did.
#[derive(Drop)]
struct Before {
    /// The links that they sent on.
    sent: Vec<SentLink>,
    /// The slots that they proposed operation lists for.
    proposed: BTreeSet<u64>,
}

/// What is known of the whole script.
#[derive(Clone, Copy)]
struct Whole<'a> {
    commands: &'a [Command],
    turns: &'a [Turn],
    led: &'a BTreeSet<u64>,
}

/// The warning of the bytes of a `send`, if they encode no message.
fn of_bytes(alloc: Global, line: usize, bytes: &Bytes) -> Result<Option<Warning>, Fault>
    ensures found { IfOk result (λ found. option_to_list found ≡ bytes_warning line (message_reading bytes.now)) }
    ensures only_memory { IsOkUnless result Fault.NoMemory }
{
    match decode(alloc, bytes.as_slice()) {
        Ok(_) => Ok(None),
        Err(Fault::Malformed(place)) => Ok(Some(Warning::Malformed { line, place })),
        Err(Fault::TooLong) => Ok(Some(Warning::TooLong { line })),
        Err(fault) => Err(fault),
    }
}

/// Whether the link is among these.
fn has_link(links: &[SentLink], from: u8, to: u8) -> bool
    ensures { result ≡ has_sent links.now from to }
{
    for link in links {
        if from == link.from && to == link.to {
            return true;
        }
    }
    false
}

/// The warning of the link of a `send`, after sends on these links; also notes the link.
#[tactic(auto, using(crate::proofs::Sending::sent_more, crate::proofs::Sending::sent_again))]
fn of_link(
    commands: &[Command],
    sent: &mut Vec<SentLink>,
    line: usize,
    from: u8,
    to: u8,
) -> Result<Option<Warning>, Fault>
    ensures found { IfOk result (λ found. option_to_list found ≡ (if not (has_sent sent.old.items from to) && speaks_in from commands.now then Driven line from to ∷ [] else [])) }
    ensures sent { OnOk result ((f t : ℕ) → has_sent sent.new.items f t ≡ (has_sent sent.old.items f t || is_link f t from to)) }
    ensures only_memory { IsOkUnless result Fault.NoMemory }
{
    if has_link(sent.as_slice(), from, to) {
        return Ok(None);
    }
    sent.push(SentLink { from, to })?;
    if speaks(commands, from) {
        Ok(Some(Warning::Driven { line, from, to }))
    } else {
        Ok(None)
    }
}

/// The warning of a proposal of an operation list, after proposals for these slots; also notes the slot.
fn of_list(
    whole: &Whole<'_>,
    proposed: &mut BTreeSet<u64>,
    line: usize,
    node: u8,
    slot: u64,
) -> Result<Option<Warning>, AllocError>
    requires node { 1 ≤ node }
    ensures found { IfOk result (λ found. option_to_list found ≡ (if not (sorted.contains nat_cmp proposed.old slot) && not (sorted.contains nat_cmp whole.now.led.now slot) then Unled line slot (leader_of (turn_of whole.now.turns.now node) slot 1) ∷ [] else [])) }
    ensures proposed { OnOk result ((q : ℕ) → sorted.contains nat_cmp proposed.new q ≡ (sorted.contains nat_cmp proposed.old q || nat_eq slot q)) }
{
    let is_new = proposed.insert(slot)?;
    if !is_new || whole.led.contains(&slot) {
        return Ok(None);
    }
    let leader = leader(turn_at(whole.turns, node), slot, 1);
    Ok(Some(Warning::Unled { line, slot, leader }))
}

/// The warning of a proposal, after proposals for these slots; also notes the slot of an operation list.
fn of_proposal(
    whole: &Whole<'_>,
    proposed: &mut BTreeSet<u64>,
    line: usize,
    node: u8,
    slot: u64,
    value: &Value,
) -> Result<Option<Warning>, AllocError>
    requires node { 1 ≤ node }
    ensures found { IfOk result (λ found. option_to_list found ≡ (if is_list value.now then (if not (sorted.contains nat_cmp proposed.old slot) && not (sorted.contains nat_cmp whole.now.led.now slot) then Unled line slot (leader_of (turn_of whole.now.turns.now node) slot 1) ∷ [] else []) else BadValue line ∷ [])) }
    ensures proposed { OnOk result ((q : ℕ) → sorted.contains nat_cmp proposed.new q ≡ (sorted.contains nat_cmp proposed.old q || (nat_eq slot q && is_list value.now))) }
{
    if is_ops(value) {
        of_list(whole, proposed, line, node, slot)
    } else {
        Ok(Some(Warning::BadValue { line }))
    }
}

/// Adds a warning, if there is one.
fn add(out: &mut Vec<Warning>, warning: Option<Warning>) -> Result<(), AllocError>
    ensures { OnOk result (out.new.items ≡ out.old.items ++ option_to_list warning) }
{
    let Some(warning) = warning else {
        return Ok(());
    };
    out.push(warning)?;
    Ok(())
}

/// Adds the warnings of a `send`, and notes its link.
fn add_send(
    alloc: Global,
    commands: &[Command],
    sent: &mut Vec<SentLink>,
    line: usize,
    from: u8,
    to: u8,
    bytes: &Bytes,
    out: &mut Vec<Warning>,
) -> Result<(), Fault>
    ensures added { OnOk result (out.new.items ≡ out.old.items ++ (bytes_warning line (message_reading bytes.now) ++ (if not (has_sent sent.old.items from to) && speaks_in from commands.now then Driven line from to ∷ [] else []))) }
    ensures sent { OnOk result ((f t : ℕ) → has_sent sent.new.items f t ≡ (has_sent sent.old.items f t || is_link f t from to)) }
    ensures only_memory { IsOkUnless result Fault.NoMemory }
{
    let of_bytes = of_bytes(alloc, line, bytes)?;
    let of_link = of_link(commands, sent, line, from, to)?;
    add(out, of_bytes)?;
    add(out, of_link)?;
    Ok(())
}

/// Adds the warnings of a line, and notes what it does.
fn add_line(
    alloc: Global,
    whole: &Whole<'_>,
    before: &mut Before,
    line: usize,
    command: &Command,
    out: &mut Vec<Warning>,
) -> Result<(), Fault>
    requires whole { KnowsWhole whole.now }
    requires names { NamesNodes command.now }
    ensures added { OnOk result ((done : List Command) → KnowsBefore before.old done → out.new.items ≡ out.old.items ++ command_warnings whole.now.turns.now whole.now.commands.now done line command.now) }
    ensures known { OnOk result ((done : List Command) → KnowsBefore before.old done → KnowsBefore before.new (done ++ command.now ∷ [])) }
    ensures only_memory { IsOkUnless result Fault.NoMemory }
{
    match command {
        Command::Send { from, to, bytes } => {
            let commands = whole.commands;
            add_send(
                alloc,
                commands,
                &mut before.sent,
                line,
                *from,
                *to,
                bytes,
                out,
            )?;
            Ok(())
        }
        Command::Propose { node, slot, value } => {
            let found = of_proposal(whole, &mut before.proposed, line, *node, *slot, value)?;
            add(out, found)?;
            Ok(())
        }
        _ => Ok(()),
    }
}

/// The warnings of the lines, in their order.
fn of_lines(alloc: Global, whole: &Whole<'_>, lines: &[usize]) -> Result<Vec<Warning>, Fault>
    requires whole { KnowsWhole whole.now }
    requires names { All NamesNodes whole.now.commands.now }
    ensures found { IfOk result (λ found. found.items ≡ line_warnings whole.now.turns.now whole.now.commands.now [] lines.now whole.now.commands.now) }
    ensures only_memory { IsOkUnless result Fault.NoMemory }
{
    let commands = whole.commands;
    let mut out = Vec::new(alloc);
    let mut before = Before {
        sent: Vec::new(alloc),
        proposed: BTreeSet::new(alloc),
    };
    for (index, line) in lines.iter().enumerate() {
        let Some(command) = commands.get(index) else {
            return Ok(out);
        };
        add_line(alloc, whole, &mut before, *line, command, &mut out)?;
    }
    Ok(out)
}

/// Whether the command brings the nodes to rest.
fn settles(command: &Command) -> bool
    ensures { result ≡ settles_them command.now }
{
    matches!(command, Command::Settle | Command::Wait { .. })
}

/// Whether the command puts something into a queue.
fn acts(command: &Command) -> bool
    ensures { result ≡ acts_on command.now }
{
    matches!(
        command,
        Command::Open { .. }
            | Command::Close { .. }
            | Command::Send { .. }
            | Command::Propose { .. }
            | Command::Round { .. }
            | Command::Timer { .. }
            | Command::Tick(_)
            | Command::Ask { .. }
    )
}

/// The place of the first command that acts after the last `settle` or `wait`.
fn unsettled(commands: &[Command]) -> Option<usize>
    ensures { result ≡ rest_place 0 commands.now }
{
    let mut found = None;
    for (index, command) in commands.iter().enumerate() {
        found = behind(found, index, command);
    }
    found
}

/// That place after one more command.
fn behind(found: Option<usize>, index: usize, command: &Command) -> Option<usize>
    ensures { result ≡ place_behind found index command.now }
{
    if settles(command) {
        return None;
    }
    if found.is_none() && acts(command) {
        return Some(index);
    }
    found
}

/// Whether the link is missing. Its sender speaks, the receiver has the sender among its nodes, and no line opens the link. Nor does the
/// script alone speak for the receiver.
fn is_missing(whole: &Whole<'_>, from: u8, to: u8) -> bool
    requires to { 1 ≤ to }
    ensures { result ≡ is_unopened whole.now.turns.now whole.now.commands.now from to }
{
    if from == to {
        return false;
    }
    if !speaks(whole.commands, from) {
        return false;
    }
    if !has_node(turn_at(whole.turns, to), id_from(from)) {
        return false;
    }
    if is_scripted(whole.commands, to) {
        return false;
    }
    !is_opened(whole.commands, from, to)
}

/// The warning of a link, if it is missing.
fn missing_link(whole: &Whole<'_>, from: u8, to: u8) -> Option<Warning>
    requires to { 1 ≤ to }
    ensures { option_to_list result ≡ unopened_from whole.now.turns.now whole.now.commands.now from to }
{
    if is_missing(whole, from, to) {
        Some(Warning::Unopened { from, to })
    } else {
        None
    }
}

/// Adds the links from a node that are missing.
fn add_unopened(
    whole: &Whole<'_>,
    from: u8,
    count: u8,
    out: &mut Vec<Warning>,
) -> Result<(), AllocError>
    ensures { OnOk result (out.new.items ≡ out.old.items ++ flat_map (unopened_from whole.now.turns.now whole.now.commands.now from) (numbers count)) }
{
    for index in 0..count {
        add(out, missing_link(whole, from, index + 1))?;
    }
    Ok(())
}

/// Adds each link that is missing.
fn add_missing(whole: &Whole<'_>, count: u8, out: &mut Vec<Warning>) -> Result<(), AllocError>
    requires count { count ≡ node_count whole.now.commands.now }
    ensures { OnOk result (out.new.items ≡ out.old.items ++ unopened whole.now.turns.now whole.now.commands.now) }
{
    for index in 0..count {
        add_unopened(whole, index + 1, count, out)?;
    }
    Ok(())
}

/// Adds that no report is asked for.
fn add_unreported(commands: &[Command], out: &mut Vec<Warning>) -> Result<(), AllocError>
    ensures { OnOk result (out.new.items ≡ out.old.items ++ report_warning commands.now) }
{
    if is_reported(commands) {
        return Ok(());
    }
    out.push(Warning::Unreported)?;
    Ok(())
}

/// The warning of the lines after the last `settle` or `wait`.
fn of_rest(commands: &[Command], lines: &[usize]) -> Option<Warning>
    ensures { option_to_list result ≡ rest_warning lines.now commands.now }
{
    let place = unsettled(commands)?;
    match lines.get(place) {
        Some(line) => Some(Warning::Unsettled { line: *line }),
        None => None,
    }
}

/// The warnings of a script whose nodes lead in these turns.
fn warnings_of(
    alloc: Global,
    whole: &Whole<'_>,
    lines: &[usize],
    count: u8,
) -> Result<Vec<Warning>, Fault>
    requires whole { KnowsWhole whole.now }
    requires names { All NamesNodes whole.now.commands.now }
    requires count { count ≡ node_count whole.now.commands.now }
    ensures found { IfOk result (λ found. found.items ≡ warnings_by whole.now.turns.now whole.now.commands.now lines.now) }
    ensures only_memory { IsOkUnless result Fault.NoMemory }
{
    let mut out = of_lines(alloc, whole, lines)?;
    add(&mut out, of_rest(whole.commands, lines))?;
    add_missing(whole, count, &mut out)?;
    add_unreported(whole.commands, &mut out)?;
    Ok(out)
}

/// The warnings of a script: by its lines, in their order, and then as a whole. The only error is `NoMemory`.
pub fn warnings(alloc: Global, script: &Script) -> Result<Vec<Warning>, Fault>
    requires names { All NamesNodes script.now.commands.items }
    requires admitted { AreAdmitted [] script.now.commands.items }
    // Each warning is there exactly if its definition holds.
    ensures found { IfOk result (λ found. AreWarnings script.now.commands.items script.now.lines.items found.items) }
    ensures only_memory { IsOkUnless result Fault.NoMemory }
{
    let commands = script.commands.as_slice();
    let lines = script.lines.as_slice();
    let count = count_of_nodes(commands);
    let turns = turns(alloc, commands, count)?;
    let turns = turns.as_slice();
    let led = led(alloc, commands, turns, count)?;
    let whole = Whole {
        commands,
        turns,
        led: &led,
    };
    warnings_of(alloc, &whole, lines, count)
}
