//! What the slots of a script's nodes need where they are stuck.
ghost use Rattle.std.specs.Prelude.{◌≡◌, ◌==◌, ◌++◌, IfOk, IfSome, OnOk, flat_map, map, option_map, slice_get};
ghost use Rattle.std.specs.List.{slice_split};
ghost use Rattle.scp_sim_findings.specs.declared.outcome.Finding.TheVariants.{Stuck};
ghost use Rattle.scp_sim_findings.specs.Needs.{AreNeedsOf, is_need, need_text, needs_in};

use crate::lines::lines_in;
use crate::outcome::Finding;
use crate::standing::stand_of;
use std::alloc::{AllocError, Global};

/// The fourth word of a line.
fn fourth_word(line: &[u8]) -> Option<&[u8]>
    ensures { option_map (λ word. word.now) result ≡ slice_get (slice_split (λ byte. byte == 32) line.entry.now) 3 }
{
    line.split(|byte| *byte == b' ').nth(3)
}

/// Whether the line of a status says what a slot needs: its fourth word is `needs`.
fn is_need(line: &[u8]) -> bool
    ensures { result ≡ is_need line.now }
{
    match fourth_word(line) {
        Some(word) => word == b"needs".as_slice(),
        None => false,
    }
}

/// Adds a line, if it says what a slot needs.
fn add_need(needs: &mut Vec<u8>, line: &[u8]) -> Result<(), AllocError>
    ensures { OnOk result (needs.new.items ≡ needs.old.items ++ need_text line.now) }
{
    if is_need(line) {
        needs.extend_from_slice(line)?;
        needs.push(b'\n')?;
    }
    Ok(())
}

/// Those of these lines that say what slots need.
fn needs_among(alloc: Global, lines: &[&[u8]]) -> Result<Vec<u8>, AllocError>
    ensures { IfOk result (λ needs. needs.items ≡ flat_map need_text (map (λ line. line.now) lines.now)) }
{
    let mut needs = Vec::new(alloc);
    for line in lines {
        add_need(&mut needs, line)?;
    }
    Ok(needs)
}

/// The lines of a status that say what slots need.
fn needs_in(alloc: Global, stand: &[u8]) -> Result<Vec<u8>, AllocError>
    ensures { IfOk result (λ needs. needs.items ≡ needs_in stand.now) }
{
    let lines = lines_in(alloc, stand)?;
    let needs = needs_among(alloc, lines.as_slice())?;
    Ok(needs)
}

/// What the slots of a script's nodes need. `None` for a text that isn't a script.
fn stuck_needs(alloc: Global, script: &[u8]) -> Result<Option<Vec<u8>>, AllocError>
    ensures { IfOk result (λ found. IfSome found (λ needs. AreNeedsOf Stuck script.now needs.items)) }
{
    let found = stand_of(alloc, script)?;
    match found {
        Some(stand) => {
            let needs = needs_in(alloc, stand.as_bytes())?;
            Ok(Some(needs))
        }
        None => Ok(None),
    }
}

/// What the slots of a script's nodes need, if nodes are stuck, as `bowls stand` shows it. `None` for a text that isn't a script.
pub fn needs_of(
    alloc: Global,
    script: &[u8],
    finding: Finding,
) -> Result<Option<Vec<u8>>, AllocError>
    ensures { IfOk result (λ found. IfSome found (λ needs. AreNeedsOf finding script.now needs.items)) }
{
    match finding {
        Finding::Stuck => stuck_needs(alloc, script),
        Finding::Split | Finding::Cut => Ok(Some(Vec::new(alloc))),
    }
}
