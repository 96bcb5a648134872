//! Messages of a ledger that contradict each other.
ghost use Rattle.std.specs.Prelude.{◌≡◌, ◌++◌, ◌∷◌, [], map, List, IfOk, OnOk, IsOkUnless};
ghost use Rattle.scp_history.specs.declared.line.Line.{Line as OneLine};
ghost use Rattle.scp_shown.specs.Listed.{Picks};
ghost use Rattle.scp_shown.specs.Parts.{entry_of};
ghost use Rattle.scp_shown.specs.Contradictions.{Pair, placed_from, placed_of, pairs_with, DoContradict, contradicts_line, AreContradictLines};
ghost use Rattle.scp_shown.specs.inside.Placing.{placed};

use crate::part::Part;
use scp_history::below::envelope::Statement;
use scp_history::below::judged::{Message, contradict};
use scp_history::below::types::Fault;
use scp_history::{Line, Place};
use std::alloc::{AllocError, Global};

/// A statement and its place.
#[derive(Clone, Copy, Drop)]
struct Placed<'a> {
    place: Place,
    statement: &'a Statement,
}

/// Adds the statements of an archive's messages, with their places.
fn add_messages<'a>(
    all: &mut Vec<Placed<'a>>,
    file: usize,
    messages: &'a [Message],
) -> Result<(), AllocError>
    ensures { OnOk result (map placed all.new.items ≡ map placed all.old.items ++ placed_from file 1 messages.now) }
{
    for (at, message) in messages.iter().enumerate() {
        let place = Place {
            file,
            message: at + 1,
        };
        all.push(Placed {
            place,
            statement: &message.envelope.get().statement,
        })?;
    }
    Ok(())
}

/// The statements of all entries, with their places.
fn placed_in_parts<'a>(alloc: Global, parts: &[Part<'a>]) -> Result<Vec<Placed<'a>>, AllocError>
    ensures { IfOk result (λ all. map placed all.items ≡ placed_of (map entry_of parts.now)) }
{
    let mut all = Vec::new(alloc);
    for part in parts {
        add_messages(&mut all, part.file, part.ledger.judged.messages.as_slice())?;
    }
    Ok(all)
}

/// Adds the line of two statements if they contradict each other.
fn add_pair(
    lines: &mut Vec<Line>,
    ledger: u32,
    first: &Placed<'_>,
    last: &Placed<'_>,
) -> Result<(), AllocError>
    ensures { OnOk result ((pairs : List Pair) × Picks DoContradict ((placed first.now, placed last.now) ∷ []) pairs × (lines.new.items ≡ lines.old.items ++ map (contradicts_line ledger) pairs)) }
{
    if !contradict(first.statement, last.statement) {
        return Ok(());
    }
    lines.push(Line::Contradicts {
        ledger,
        node: last.statement.node,
        first: first.place,
        last: last.place,
    })?;
    Ok(())
}

/// Adds the lines of the earlier statements that contradict a later one.
fn add_earlier(
    lines: &mut Vec<Line>,
    ledger: u32,
    earlier: &[Placed<'_>],
    last: &Placed<'_>,
) -> Result<(), AllocError>
    ensures { OnOk result ((pairs : List Pair) × Picks DoContradict (pairs_with (map placed earlier.now) (placed last.now)) pairs × (lines.new.items ≡ lines.old.items ++ map (contradicts_line ledger) pairs)) }
{
    for first in earlier {
        add_pair(lines, ledger, first, last)?;
    }
    Ok(())
}

/// Adds the lines of each two statements that contradict each other.
fn add_all(lines: &mut Vec<Line>, ledger: u32, all: &[Placed<'_>]) -> Result<(), AllocError>
    ensures { OnOk result ((more : List OneLine) × AreContradictLines ledger (map placed all.now) more × (lines.new.items ≡ lines.old.items ++ more)) }
{
    for at in 0..all.len() {
        add_earlier(lines, ledger, &all[..at], &all[at])?;
    }
    Ok(())
}

/// Adds the lines of each two messages of a ledger that contradict each other, ascending by the later one, and then by the earlier one. The only
/// refusal is `Fault::NoMemory`. Compares the node of each message with that of each earlier one.
pub(crate) fn add_contradict_lines(
    alloc: Global,
    lines: &mut Vec<Line>,
    ledger: u32,
    parts: &[Part<'_>],
) -> Result<(), Fault>
    ensures added { OnOk result ((more : List OneLine) × AreContradictLines ledger (placed_of (map entry_of parts.now)) more × (lines.new.items ≡ lines.old.items ++ more)) }
    ensures only_memory { IsOkUnless result Fault.NoMemory }
{
    let all = placed_in_parts(alloc, parts)?;
    add_all(lines, ledger, all.as_slice())?;
    Ok(())
}
