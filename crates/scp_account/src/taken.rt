//! What a slot stage took, in order, as JSON.
ghost use Rattle.std.specs.Prelude.{◌≡◌, ◌++◌, ◌∷◌, List, drop, map, All, IfOk, OnOk, IsOkUnless};
ghost use Rattle.serde_json.specs.Data.{array};
ghost use Rattle.serde_json.specs.View.{view, items_of};
ghost use Rattle.scp_line.specs.scp_ledger.specs.declared.journal.Fate.{Fate};
ghost use Rattle.scp_facts.specs.declared.happening.Happening.{Happening};
ghost use Rattle.scp_facts.specs.Taken.{in_order};
ghost use Rattle.scp_account.specs.Commands.{command_json};
ghost use Rattle.scp_account.specs.Entries.{entry_json};
ghost use Rattle.scp_account.specs.Taken.{taken_json};
ghost use Rattle.scp_account.specs.Fits.{FitsEntry};
ghost use Rattle.scp_account.specs.inside.Happened.{happened};

use crate::commands::command_value;
use crate::entries::entry_value;
use scp_facts::Happening;
use scp_line::below::ledger::{CommandFate, Fate};
use scp_line::below::types::Fault;
use scp_line::below::wire::Command;
use serde_json::Value;
use std::alloc::{AllocError, Global};

/// Adds the entry at this index, if there is one, and returns the index after it.
fn add_entry(
    alloc: Global,
    values: &mut Vec<Value>,
    journal: &[Fate],
    place: usize,
) -> Result<usize, Fault>
    ensures added { IfOk result (λ next. (more : List Happening) → map view values.new.items ++ in_order entry_json command_json more (drop next journal.now) ≡ map view values.old.items ++ in_order entry_json command_json (Happening.Entered ∷ more) (drop place journal.now)) }
    ensures only_memory { All FitsEntry journal.now → IsOkUnless result Fault.NoMemory }
{
    if place >= journal.len() {
        return Ok(place);
    }
    values.push(entry_value(alloc, &journal[place])?)?;
    Ok(place + 1)
}

/// Adds a command and what became of it.
fn add_command(
    alloc: Global,
    values: &mut Vec<Value>,
    command: &Command,
    fate: CommandFate,
) -> Result<(), AllocError>
    ensures { OnOk result ((entries : List Fate) → (more : List Happening) → map view values.new.items ++ in_order entry_json command_json more entries ≡ map view values.old.items ++ in_order entry_json command_json (Happening.Obeyed command.now fate ∷ more) entries) }
{
    values.push(command_value(alloc, command, fate)?)?;
    Ok(())
}

/// Adds the entries from this index on.
fn add_entries(
    alloc: Global,
    values: &mut Vec<Value>,
    journal: &[Fate],
    place: usize,
) -> Result<(), Fault>
    ensures added { OnOk result (map view values.new.items ≡ map view values.old.items ++ map entry_json (drop place journal.now)) }
    ensures only_memory { All FitsEntry journal.now → IsOkUnless result Fault.NoMemory }
{
    for index in place..journal.len() {
        values.push(entry_value(alloc, &journal[index])?)?;
    }
    Ok(())
}

/// What a slot stage took, in order: the entries of its journal, and its commands.
pub fn taken_values(
    alloc: Global,
    journal: &[Fate],
    happenings: &[&Happening],
) -> Result<Value, Fault>
    ensures value { IfOk result (λ v. view v ≡ array (items_of (taken_json journal.now (happened happenings.now)))) }
    ensures only_memory { All FitsEntry journal.now → IsOkUnless result Fault.NoMemory }
{
    let mut values = Vec::new(alloc);
    let mut entry = 0;
    for happening in happenings {
        match *happening {
            Happening::Entered => entry = add_entry(alloc, &mut values, journal, entry)?,
            Happening::Obeyed(command, fate) => add_command(alloc, &mut values, command, *fate)?,
            _ => {}
        }
    }
    add_entries(alloc, &mut values, journal, entry)?;
    Ok(Value::from(values))
}

/// The entries of a journal.
pub fn entry_values(alloc: Global, journal: &[Fate]) -> Result<Value, Fault>
    ensures value { IfOk result (λ v. view v ≡ array (items_of (map entry_json journal.now))) }
    ensures only_memory { All FitsEntry journal.now → IsOkUnless result Fault.NoMemory }
{
    let mut values = Vec::new(alloc);
    for fate in journal {
        values.push(entry_value(alloc, fate)?)?;
    }
    Ok(Value::from(values))
}
