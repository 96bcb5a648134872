//! The lines that show notices.
ghost use Rattle.std.specs.Prelude.{◌≡◌, ◌++◌, IfOk, OnOk, codes, string_bytes};
ghost use Rattle.std.specs.Fmt.{decimal};
ghost use Rattle.scp_notices.specs.Texts.{side_text, sides_text, lost_words, count_words, notice_text, notices_text};

use crate::notice::{Notice, Side};
use scp_line::below::words::{word_of_fate, write_hex, write_numbers};
use std::alloc::{AllocError, Global};

/// Adds the numbers of nodes and the value that they applied, after a space.
fn write_side(text: &mut String, side: &Side) -> Result<(), AllocError>
    ensures { OnOk result (string_bytes text.new ≡ string_bytes text.old ++ side_text side.now) }
{
    text.push_str(" ")?;
    write_numbers(text, side.nodes.as_slice())?;
    text.push_str(":")?;
    write_hex(text, side.value.as_slice())
}

/// Adds each of the sides.
fn write_sides(text: &mut String, sides: &[Side]) -> Result<(), AllocError>
    ensures { OnOk result (string_bytes text.new ≡ string_bytes text.old ++ sides_text sides.now) }
{
    for side in sides {
        write_side(text, side)?;
    }
    Ok(())
}

/// Adds the line of a slot for which nodes applied different values.
fn write_disagree(text: &mut String, slot: u64, sides: &[Side]) -> Result<(), AllocError>
    ensures { OnOk result (string_bytes text.new ≡ string_bytes text.old ++ codes "disagree " ++ decimal slot ++ sides_text sides.now ++ codes "\n") }
{
    write!(text, "disagree {slot}")?;
    write_sides(text, sides)?;
    text.push_str("\n")
}

/// Adds the numbers of two nodes, with a space between them.
fn write_pair(text: &mut String, node: u8, peer: u8) -> Result<(), AllocError>
    ensures { OnOk result (string_bytes text.new ≡ string_bytes text.old ++ (decimal node ++ codes " " ++ decimal peer)) }
{
    write!(text, "{node}")?;
    write!(text, " {peer}")
}

/// Adds the words for two nodes, the first of which lost own statements for the second.
fn write_lost(text: &mut String, node: u8, peer: u8) -> Result<(), AllocError>
    ensures { OnOk result (string_bytes text.new ≡ string_bytes text.old ++ lost_words node peer) }
{
    text.push_str("overwritten ")?;
    write_pair(text, node, peer)
}

/// Adds a count after a space, and ends the line.
fn write_count(text: &mut String, count: u64) -> Result<(), AllocError>
    ensures { OnOk result (string_bytes text.new ≡ string_bytes text.old ++ count_words count) }
{
    writeln!(text, " {count}")
}

/// Adds the line of two nodes, the first of which lost own statements for the second.
fn write_overwritten(text: &mut String, node: u8, peer: u8, count: u64) -> Result<(), AllocError>
    ensures { OnOk result (string_bytes text.new ≡ string_bytes text.old ++ (lost_words node peer ++ count_words count)) }
{
    write_lost(text, node, peer)?;
    write_count(text, count)
}

/// Adds the line of a notice.
fn write_notice(text: &mut String, notice: &Notice) -> Result<(), AllocError>
    ensures { OnOk result (string_bytes text.new ≡ string_bytes text.old ++ notice_text notice.now) }
{
    match notice {
        Notice::Unsettled { line, rounds } => writeln!(text, "unsettled {line} {rounds}"),
        Notice::GaveUp { line } => writeln!(text, "gave-up {line}"),
        Notice::Disagree { slot, sides } => write_disagree(text, *slot, sides.as_slice()),
        Notice::Ignored { line, why } => {
            let word = word_of_fate(*why);
            writeln!(text, "ignored {line} {word}")
        }
        Notice::Overwritten { node, peer, count } => {
            write_overwritten(text, *node, *peer, *count)
        }
        Notice::NoWait => text.push_str("no-wait\n"),
    }
}

/// A line for each notice, in their order: `unsettled LINE ROUNDS`, `gave-up LINE`, `disagree SLOT 1,2:VALUE 3,4:VALUE`, `ignored LINE WHY`,
/// `overwritten I J COUNT` or `no-wait`.
/// A value is in hex digits, as in reports. It fails only if it is out of memory.
pub fn text_of_notices(alloc: Global, notices: &[Notice]) -> Result<String, AllocError>
    ensures { IfOk result (λ text. string_bytes text ≡ notices_text notices.now) }
{
    let mut text = String::new(alloc);
    for notice in notices {
        write_notice(&mut text, notice)?;
    }
    Ok(text)
}
