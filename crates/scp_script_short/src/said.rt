//! What one line of a script says.
ghost use Rattle.std.specs.Prelude.{◌≡◌, IfOk, IsOkUnless, map};
ghost use Rattle.scp_script_text.specs.scp_text.specs.Messages.{words_of};
ghost use Rattle.scp_script_short.specs.Reading.{shorthand_in};
ghost use Rattle.scp_script_short.specs.Scripts.{said_by as says_by, said as says, nodes_said as nodes_of_words, nodes_of as nodes_of_lines, expansion as lines_said};

use crate::reading::{number_to, shorthand_of};
use crate::shorthand::Shorthand;
use crate::writing::lines_of;
use scp_script_text::below::text::{BadWord, WordFault, words};
use scp_script_text::below::types::{Fault, NODE_LIMIT};
use scp_script_text::below::wire::Bytes;
use std::alloc::{AllocError, Global};

/// What one line of a script says.
#[derive(Drop)]
pub enum Said {
    /// The line itself.
    Line(Bytes),
    /// A shorthand, which stands for its lines.
    Short(Shorthand),
    /// A shorthand with this bad word; the line stays as it is.
    Bad(Bytes, BadWord),
}

/// A copy of the bytes.
fn copy_of(alloc: Global, line: &[u8]) -> Result<Bytes, AllocError>
    ensures { IfOk result (λ copied. copied ≡ line.now) }
{
    Ok(Bytes::new(Vec::from_slice(alloc, line)?))
}

/// What a line says in a script of this many nodes.
fn said_of(alloc: Global, nodes: u32, line: &[u8]) -> Result<Said, Fault>
    ensures said { IfOk result (λ said. said ≡ says_by (shorthand_in nodes (words_of line.now)) line.now) }
    ensures only_memory { IsOkUnless result Fault.NoMemory }
{
    let words = words(alloc, line)?;
    match shorthand_of(alloc, words.as_slice(), nodes) {
        Ok(Some(shorthand)) => Ok(Said::Short(shorthand)),
        Ok(None) => Ok(Said::Line(copy_of(alloc, line)?)),
        Err(WordFault::Bad(bad)) => Ok(Said::Bad(copy_of(alloc, line)?, bad)),
        Err(WordFault::NoMemory) => Err(Fault::NoMemory),
    }
}

/// The same; if no line says how many nodes there are, a line says itself.
pub fn said_line(alloc: Global, nodes: Option<u32>, line: &[u8]) -> Result<Said, Fault>
    ensures said { IfOk result (λ said. said ≡ says nodes line.now) }
    ensures only_memory { IsOkUnless result Fault.NoMemory }
{
    match nodes {
        Some(nodes) => said_of(alloc, nodes, line),
        None => Ok(Said::Line(copy_of(alloc, line)?)),
    }
}

/// How many nodes the words of a line say, if it is a `nodes` line.
fn nodes_said(alloc: Global, words: &[&[u8]]) -> Result<Option<u32>, Fault>
    ensures said { IfOk result (λ found. found ≡ nodes_of_words (map (λ word. word.now) words.now)) }
    ensures only_memory { IsOkUnless result Fault.NoMemory }
{
    match words {
        [verb, count, ..] => {
            if *verb == b"nodes".as_slice() {
                number_to(alloc, NODE_LIMIT as u32, *count)
            } else {
                Ok(None)
            }
        }
        _ => Ok(None),
    }
}

/// How many nodes a line says.
fn nodes_in(alloc: Global, line: &[u8]) -> Result<Option<u32>, Fault>
    ensures said { IfOk result (λ found. found ≡ nodes_of_words (words_of line.now)) }
    ensures only_memory { IsOkUnless result Fault.NoMemory }
{
    let words = words(alloc, line)?;
    nodes_said(alloc, words.as_slice())
}

/// How many nodes the lines say: what the first line says that gives a number.
pub fn nodes_of(alloc: Global, lines: &[&[u8]]) -> Result<Option<u32>, Fault>
    ensures said { IfOk result (λ found. found ≡ nodes_of_lines (map (λ line. line.now) lines.now)) }
    ensures only_memory { IsOkUnless result Fault.NoMemory }
{
    for line in lines {
        if let Some(nodes) = nodes_in(alloc, *line)? {
            return Ok(Some(nodes));
        }
    }
    Ok(None)
}

/// The lines that a line stands for.
pub fn expansion(alloc: Global, said: &Said) -> Result<Vec<Bytes>, AllocError>
    ensures { IfOk result (λ lines. lines.items ≡ lines_said said.now) }
{
    match said {
        Said::Short(shorthand) => lines_of(alloc, *shorthand),
        Said::Line(line) | Said::Bad(line, _) => {
            let mut lines = Vec::new(alloc);
            lines.push(copy_of(alloc, line.as_slice())?)?;
            Ok(lines)
        }
    }
}
