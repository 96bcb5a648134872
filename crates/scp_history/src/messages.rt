//! The lines of messages that don't count.
ghost use Rattle.std.specs.Prelude.{◌≡◌, ◌++◌, OnOk};
ghost use Rattle.scp_history.specs.Records.{message_line, message_lines};

use crate::line::{Line, Place};
use scp_audit::Ledger;
use scp_audit::below::judged::{Message, Verdict};
use std::alloc::AllocError;

/// Adds the line of a message, if it doesn't count.
fn add_message(
    lines: &mut Vec<Line>,
    ledger: u32,
    place: Place,
    message: &Message,
) -> Result<(), AllocError>
    ensures { OnOk result (lines.new.items ≡ lines.old.items ++ message_line ledger place message.now) }
{
    let verdict = message.verdict;
    if verdict == Verdict::Counts {
        return Ok(());
    }
    let envelope = message.envelope.get();
    lines.push(Line::Message {
        ledger,
        place,
        verdict,
        hash: envelope.set_hash(),
        node: envelope.statement.node,
    })?;
    Ok(())
}

/// Adds the lines of the messages that don't count.
fn add_lines(
    lines: &mut Vec<Line>,
    ledger: u32,
    file: usize,
    messages: &[Message],
) -> Result<(), AllocError>
    ensures { OnOk result (lines.new.items ≡ lines.old.items ++ message_lines ledger file 1 messages.now) }
{
    for (at, message) in messages.iter().enumerate() {
        let place = Place {
            file,
            message: at + 1,
        };
        add_message(lines, ledger, place, message)?;
    }
    Ok(())
}

/// Adds the lines of a ledger's messages that don't count. The ledger is of the archive with this number.
pub fn add_message_lines(
    lines: &mut Vec<Line>,
    file: usize,
    ledger: &Ledger,
) -> Result<(), AllocError>
    ensures { OnOk result (lines.new.items ≡ lines.old.items ++ message_lines ledger.now.number file 1 ledger.now.judged.messages.items) }
{
    add_lines(lines, ledger.number, file, &ledger.judged.messages)
}
