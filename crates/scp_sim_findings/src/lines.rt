//! The lines of texts.
ghost use Rattle.std.specs.Prelude.{◌≡◌, IfOk, map};
ghost use Rattle.scp_script_hints.specs.scp_script.specs.Words.{lines_of};
ghost use Rattle.scp_sim_findings.specs.Shrunk.{text_of};

use std::alloc::{AllocError, Global};

/// Lines as a text, each with its line end.
pub fn text_of(alloc: Global, lines: &[&[u8]]) -> Result<Vec<u8>, AllocError>
    ensures { IfOk result (λ text. text.items ≡ text_of (map (λ line. line.now) lines.now)) }
{
    let mut text = Vec::new(alloc);
    for line in lines {
        text.extend_from_slice(line)?;
        text.push(b'\n')?;
    }
    Ok(text)
}

/// The lines of a text.
pub fn lines_in<'a>(alloc: Global, text: &'a [u8]) -> Result<Vec<&'a [u8]>, AllocError>
    ensures { IfOk result (λ lines. map (λ line. line.now) lines.items ≡ lines_of text.entry.now) }
{
    text.split(|byte| *byte == b'\n').collect(alloc)
}
