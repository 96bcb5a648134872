//! How a fault is reported: its line, and the exit status of the program.
ghost use Rattle.std.specs.Prelude.{◌≡◌, IfOk, string_bytes};
ghost use Rattle.scp_line.specs.Outcome.{stage_word, fault_line, status_of};

use scp_turn::below::types::{Fault, Stage};
use std::alloc::{AllocError, Global};

fn word_of_stage(stage: Stage) -> &'static str
    ensures { result.now ≡ stage_word stage }
{
    match stage {
        Stage::Reader => "reader",
        Stage::Pend => "pend",
        Stage::Slot => "slot",
        Stage::Apply => "apply",
    }
}

/// The line that reports the stage of a node that failed.
fn line_of_stage(alloc: Global, node: u8, stage: Stage) -> Result<String, AllocError>
    ensures { IfOk result (λ line. string_bytes line ≡ fault_line node (Fault.Refused stage)) }
{
    let word = word_of_stage(stage);
    let mut line = String::new(alloc);
    writeln!(&mut line, "fault 13 node {node} {word}")?;
    Ok(line)
}

/// The line that reports a fault, with its line feed: `fault 12 line N`, `fault 10 node I`, `fault 13 node I STAGE`, or `fault` and the
/// fault's number. It fails only where it is out of memory.
pub fn line_of_fault(alloc: Global, node: u8, fault: Fault) -> Result<String, AllocError>
    ensures { IfOk result (λ line. string_bytes line ≡ fault_line node fault) }
{
    match fault {
        Fault::BadScript(line) => format!(in alloc; "fault 12 line {line}\n"),
        Fault::Failed => format!(in alloc; "fault 10 node {node}\n"),
        Fault::Refused(stage) => line_of_stage(alloc, node, stage),
        _ => {
            let number = fault.number();
            format!(in alloc; "fault {number}\n")
        }
    }
}

/// The exit status of a fault: 1 where a script or a message was refused (`Malformed`, `TooLong`, `BadScript`), 3 for every other fault.
pub fn status(fault: Fault) -> u8
    ensures { result ≡ status_of fault }
{
    match fault {
        Fault::Malformed(_) | Fault::TooLong | Fault::BadScript(_) => 1,
        _ => 3,
    }
}
