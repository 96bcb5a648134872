//! Whole scripts with their shorthand expanded.
ghost use Rattle.std.specs.Prelude.{◌≡◌, ◌⊎◌, ◌<◌, ◌≤◌, IfOk, IfErr, IsOkUnless, IsErrOf, map, nat_le};
ghost use Rattle.scp_script_text.specs.Scripts.{lines_of};
ghost use Rattle.scp_script_short.specs.Scripts.{said as says, nodes_of as nodes_of_lines, said_in, placed_from, first_bad as first_bad_from, weight as weight_of, weight_in, IsExpanded};

use crate::placed::{PlacedLines, placed_lines};
use crate::said::{Said, nodes_of, said_line};
use crate::shorthand::Shorthand;
use scp_script_text::below::text::BadLine;
use scp_script_text::below::types::{Fault, SCRIPT_LIMIT};
use std::alloc::{AllocError, Global};

/// The most that the shorthands of a script may weigh together. A `rounds` weighs its rounds at all nodes together, a `catchup` its
/// slots, an `open all` the square of the number of nodes. It is the number of bytes that a script may have.
pub const LINE_LIMIT: u64 = SCRIPT_LIMIT as u64;

/// A script in which each shorthand is replaced by the lines that it stands for.
#[derive(Drop)]
pub struct Expanded {
    /// Its lines.
    pub lines: PlacedLines,
    /// The first shorthand with a bad word. It stays among the lines as it is.
    pub refused: Option<BadLine>,
}

/// The lines of a script.
fn lines<'a>(alloc: Global, script: &'a [u8]) -> Result<Vec<&'a [u8]>, AllocError>
    ensures { IfOk result (λ lines. map (λ line. line.now) lines.items ≡ lines_of script.entry.now) }
{
    script.split(|byte| *byte == b'\n').collect(alloc)
}

/// What each of the lines says in a script of this many nodes.
fn said_each(alloc: Global, nodes: Option<u32>, lines: &[&[u8]]) -> Result<Vec<Said>, Fault>
    ensures said { IfOk result (λ script. script.items ≡ map (says nodes) (map (λ line. line.now) lines.now)) }
    ensures only_memory { IsOkUnless result Fault.NoMemory }
{
    let mut script = Vec::new(alloc);
    for line in lines {
        script.push(said_line(alloc, nodes, *line)?)?;
    }
    Ok(script)
}

/// What each line of a script says.
fn said_lines(alloc: Global, script: &[u8]) -> Result<Vec<Said>, Fault>
    ensures said { IfOk result (λ found. found.items ≡ said_in script.now) }
    ensures only_memory { IsOkUnless result Fault.NoMemory }
{
    let lines = lines(alloc, script)?;
    let nodes = nodes_of(alloc, lines.as_slice())?;
    said_each(alloc, nodes, lines.as_slice())
}

/// The first shorthand with a bad word.
fn first_bad(script: &[Said]) -> Option<BadLine>
    ensures { result ≡ first_bad_from 1 script.now }
{
    for (index, said) in script.iter().enumerate() {
        if let Said::Bad(_, bad) = said {
            let line = index + 1;
            return Some(BadLine { line, bad: *bad });
        }
    }
    None
}

/// What a line weighs.
fn weight(said: &Said) -> u64
    ensures { result ≡ weight_of said.now }
{
    match said {
        Said::Short(Shorthand::OpenAll { nodes }) => u64::from(*nodes) * u64::from(*nodes),
        Said::Short(Shorthand::Rounds { nodes, times, .. }) => u64::from(*nodes)
            * u64::from(*times),
        Said::Short(Shorthand::CatchUp { until, .. }) => u64::from(*until),
        Said::Line(_) | Said::Bad(_, _) => 0,
    }
}

/// Whether the lines together weigh at most `LINE_LIMIT`.
fn is_within(script: &[Said]) -> bool
    ensures { result ≡ nat_le (weight_in script.now) LINE_LIMIT }
{
    let mut left = LINE_LIMIT;
    for said in script {
        let weight = weight(said);
        if weight > left {
            return false;
        }
        left -= weight;
    }
    true
}

/// The script with each shorthand replaced by the lines that it stands for. `open all` is `open I J` for each two of the script's nodes,
/// in both directions. `rounds SLOT K` is K times `round I SLOT` at every node. With `catchup I J N`, node I asks node J for the slots
/// from 1 to N, with a `settle` after each sixteen that others follow. The first `nodes` line says how many nodes there are; without one
/// nothing is expanded. It takes time in proportion to the script and to what it says.
pub fn expand(alloc: Global, script: &[u8]) -> Result<Expanded, Fault>
    // It has exactly the lines that each line stands for, and the first shorthand that is refused.
    ensures expanded { IfOk result (IsExpanded script.now) }
    // A script that is expanded has shorthands that weigh at most `LINE_LIMIT`. `TooLong` is returned only if they weigh more.
    ensures within { IfOk result (λ expanded. weight_in (said_in script.now) ≤ LINE_LIMIT) }
    ensures too_long { IsErrOf result Fault.TooLong → LINE_LIMIT < weight_in (said_in script.now) }
    // There are no errors but out of memory and `TooLong`.
    ensures only { IfErr result (λ f. (f ≡ Fault.NoMemory) ⊎ (f ≡ Fault.TooLong)) }
{
    let said = said_lines(alloc, script)?;
    if !is_within(said.as_slice()) {
        return Err(Fault::TooLong);
    }
    let refused = first_bad(said.as_slice());
    let lines = placed_lines(alloc, said.as_slice())?;
    Ok(Expanded { lines, refused })
}
