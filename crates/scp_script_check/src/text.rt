//! The lines that report warnings.
ghost use Rattle.std.specs.Prelude.{◌≡◌, ◌++◌, IfOk, IsOkUnless, codes, string_bytes};
ghost use Rattle.std.specs.Fmt.{decimal};
ghost use Rattle.scp_script_check.specs.Texts.{warning_text, warnings_text};

use crate::warning::Warning;
use scp_nominate::below::types::{Fault, NodeId};
use scp_script_text::below::text::Term;
use std::alloc::{AllocError, Global};

/// The line that warns of a line in these words.
fn of_line(alloc: Global, line: usize, words: &str) -> Result<String, AllocError>
    ensures { IfOk result (λ text. string_bytes text ≡ codes "warn line " ++ decimal line ++ words.now) }
{
    let mut text = format!(in alloc; "warn line {line}")?;
    text.push_str(words)?;
    Ok(text)
}

/// The line that reports where bytes encode no message.
fn malformed(alloc: Global, line: usize, place: usize) -> Result<String, AllocError>
    ensures { IfOk result (λ text. string_bytes text ≡ codes "warn line " ++ decimal line ++ codes " malformed at " ++ decimal place ++ codes "\n") }
{
    let mut text = format!(in alloc; "warn line {line} malformed at {place}")?;
    text.push_str("\n")?;
    Ok(text)
}

/// The line that reports a link that the script drives.
fn driven(alloc: Global, line: usize, from: u8, to: u8) -> Result<String, AllocError>
    ensures { IfOk result (λ text. string_bytes text ≡ codes "warn line " ++ decimal line ++ codes " driven " ++ decimal from ++ codes " " ++ decimal to ++ codes "\n") }
{
    let mut text = format!(in alloc; "warn line {line} driven {from} {to}")?;
    text.push_str("\n")?;
    Ok(text)
}

/// The line that reports a link that is missing.
fn unopened(alloc: Global, from: u8, to: u8) -> Result<String, AllocError>
    ensures { IfOk result (λ text. string_bytes text ≡ codes "warn unopened " ++ decimal from ++ codes " " ++ decimal to ++ codes "\n") }
{
    let mut text = format!(in alloc; "warn unopened {from} {to}")?;
    text.push_str("\n")?;
    Ok(text)
}

/// The line that reports a slot that no proposer leads.
fn unled(alloc: Global, line: usize, slot: u64, leader: &NodeId) -> Result<String, Fault>
    ensures text { IfOk result (λ text. string_bytes text ≡ warning_text (Warning.Unled line slot leader.now)) }
    ensures only_memory { IsOkUnless result Fault.NoMemory }
{
    let mut text = format!(in alloc; "warn line {line} unled {slot} leader ")?;
    leader.write(&mut text)?;
    text.push_str("\n")?;
    Ok(text)
}

/// The line that reports a warning.
fn text_of(alloc: Global, warning: &Warning) -> Result<String, Fault>
    ensures text { IfOk result (λ text. string_bytes text ≡ warning_text warning.now) }
    ensures only_memory { IsOkUnless result Fault.NoMemory }
{
    match warning {
        Warning::Malformed { line, place } => Ok(malformed(alloc, *line, *place)?),
        Warning::TooLong { line } => Ok(of_line(alloc, *line, " too-long\n")?),
        Warning::Driven { line, from, to } => Ok(driven(alloc, *line, *from, *to)?),
        Warning::BadValue { line } => Ok(of_line(alloc, *line, " bad-value\n")?),
        Warning::Unled { line, slot, leader } => unled(alloc, *line, *slot, leader),
        Warning::Unsettled { line } => Ok(of_line(alloc, *line, " unsettled\n")?),
        Warning::Unopened { from, to } => Ok(unopened(alloc, *from, *to)?),
        Warning::Unreported => Ok("warn unreported\n".to_string(alloc)?),
    }
}

/// The lines that report the warnings of a script.
pub fn text_of_warnings(alloc: Global, warnings: &[Warning]) -> Result<String, Fault>
    ensures text { IfOk result (λ text. string_bytes text ≡ warnings_text warnings.now) }
    ensures only_memory { IsOkUnless result Fault.NoMemory }
{
    let mut out = String::new(alloc);
    for warning in warnings {
        let text = text_of(alloc, warning)?;
        out.push_str(text.as_str())?;
    }
    Ok(out)
}
