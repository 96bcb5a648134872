//! Commands, and what became of them, as JSON.
ghost use Rattle.std.specs.Prelude.{◌≡◌, codes, map, IfOk};
ghost use Rattle.serde_json.specs.Data.{array, string, object, member, no_members};
ghost use Rattle.serde_json.specs.View.{view, items_of};
ghost use Rattle.scp_account.specs.Pieces.{count, digits};
ghost use Rattle.scp_account.specs.Commands.{fate_json, command_json};

use crate::digits::digits_of;
use scp_line::below::ledger::CommandFate;
use scp_line::below::types::{Slot, Value as Bytes};
use scp_line::below::wire::Command;
use scp_line::below::words::word_of_fate;
use serde_json::{Value, json};
use std::alloc::{AllocError, Global};

/// What became of a command.
fn fate_value(alloc: Global, fate: CommandFate) -> Result<Value, AllocError>
    ensures { IfOk result (λ v. view v ≡ fate_json fate) }
{
    Ok(Value::from(String::from_str(alloc, word_of_fate(fate))?))
}

/// What became of commands.
pub fn fate_values(alloc: Global, fates: &[CommandFate]) -> Result<Value, AllocError>
    ensures { IfOk result (λ v. view v ≡ array (items_of (map fate_json fates.now))) }
{
    let mut values = Vec::new(alloc);
    for fate in fates {
        values.push(fate_value(alloc, *fate)?)?;
    }
    Ok(Value::from(values))
}

/// A proposal.
fn proposal(
    alloc: Global,
    slot: Slot,
    value: &Bytes,
    fate: CommandFate,
) -> Result<Value, AllocError>
    ensures { IfOk result (λ v. view v ≡ object (member (codes "command") (string (codes "propose")) (member (codes "fate") (fate_json fate) (member (codes "slot") (count slot.0) (member (codes "value") (digits value.now) no_members))))) }
{
    let number = slot.0;
    json!(in alloc; {"command": "propose", "fate": fate_value(alloc, fate)?, "slot": number, "value": digits_of(alloc, value.as_slice())?})
}

/// A command that has a slot and nothing else.
fn plain(
    alloc: Global,
    word: &'static str,
    slot: Slot,
    fate: CommandFate,
) -> Result<Value, AllocError>
    ensures { IfOk result (λ v. view v ≡ object (member (codes "command") (string word.now) (member (codes "fate") (fate_json fate) (member (codes "slot") (count slot.0) no_members)))) }
{
    let number = slot.0;
    json!(in alloc; {"command": word, "fate": fate_value(alloc, fate)?, "slot": number})
}

/// A request for a record, with its link and slot.
fn request(alloc: Global, link: u8, slot: Slot, fate: CommandFate) -> Result<Value, AllocError>
    ensures { IfOk result (λ v. view v ≡ object (member (codes "command") (string (codes "ask")) (member (codes "fate") (fate_json fate) (member (codes "link") (count link) (member (codes "slot") (count slot.0) no_members))))) }
{
    let number = slot.0;
    json!(in alloc; {"command": "ask", "fate": fate_value(alloc, fate)?, "link": link, "slot": number})
}

/// A command, and what became of it.
pub fn command_value(
    alloc: Global,
    command: &Command,
    fate: CommandFate,
) -> Result<Value, AllocError>
    ensures { IfOk result (λ v. view v ≡ command_json command.now fate) }
{
    match command {
        Command::Tick => json!(in alloc; {"command": "tick", "fate": fate_value(alloc, fate)?}),
        Command::Propose(slot, value) => proposal(alloc, *slot, value, fate),
        Command::Round(slot) => plain(alloc, "round", *slot, fate),
        Command::Timer(slot) => plain(alloc, "timer", *slot, fate),
        Command::Ask(link, slot) => request(alloc, *link, *slot, fate),
    }
}
