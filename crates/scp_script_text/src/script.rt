//! Whole scripts, line by line.
ghost use Rattle.std.specs.Prelude.{◌≡◌, ◌++◌, ◌∷◌, if◌then◌else◌, OnOk, IfOk, IfErr, map};
ghost use Rattle.scp_script_text.specs.Scripts.{lines_of, IsLineOf, IsNoLineOf, IsLineIn, IsNoLineIn, IsScriptOf, IsRefusedScript};
ghost use Rattle.scp_script_text.specs.inside.Scripts.{IsPlaced};

use crate::hexing::hex_line;
use crate::line::copy_of;
use crate::nodes::carried_in;
use crate::slot_hexing::hex_line as slot_hex_line;
use crate::slot_texting::text_line as slot_text_line;
use crate::texting::text_line;
use scp_text::below::wire::Bytes;
use scp_text::{BadLine, ReadFault, WordFault, words};
use std::alloc::{AllocError, Global};

/// What a script is about, which decides what its lines carry.
#[derive(Clone, Copy, PartialEq, Eq)]
pub enum Kind {
    /// Nodes. Lines carry messages after `send I J`, values after `propose I SLOT`, quorum sets after `set I`.
    Nodes,
    /// One slot. Lines carry the quorum set of `slot ME SLOT SET`, the value of `propose VALUE`, the envelope and the set of `envelope
    /// ENVELOPE SET`.
    Slot,
}

/// The form in which lines have what they carry.
#[derive(Clone, Copy, PartialEq, Eq)]
pub enum Form {
    /// In hex digits.
    Hex,
    /// As text that people can write.
    Text,
}

/// The lines of a script.
fn lines<'a>(alloc: Global, script: &'a [u8]) -> Result<Vec<&'a [u8]>, AllocError>
    ensures { IfOk result (λ lines. map (λ line. line.now) lines.items ≡ lines_of script.entry.now) }
{
    script.split(|byte| *byte == b'\n').collect(alloc)
}

/// A line of a script of nodes, with what it carries in this form. A line that carries nothing stays as it is. It is refused at the first
/// word that can't be in this form, or when out of memory.
pub fn line_in(alloc: Global, form: Form, line: &[u8]) -> Result<Bytes, WordFault>
    ensures written { IfOk result (IsLineOf form line.now) }
    ensures refused { IfErr result (IsNoLineOf form line.now) }
{
    let words = words(alloc, line)?;
    let words = words.as_slice();
    match (carried_in(words), form) {
        (Some(carried), Form::Hex) => hex_line(alloc, carried, words, line),
        (Some(carried), Form::Text) => text_line(alloc, carried, words, line),
        (None, _) => Ok(copy_of(alloc, line)?),
    }
}

/// The same for a script of one slot. Each of its lines has a text, if need be itself.
fn slot_line_in(alloc: Global, form: Form, line: &[u8]) -> Result<Bytes, WordFault>
    ensures written { IfOk result (IsLineIn Kind.Slot form line.now) }
    ensures refused { IfErr result (IsNoLineIn Kind.Slot form line.now) }
{
    match form {
        Form::Hex => slot_hex_line(alloc, line),
        Form::Text => Ok(slot_text_line(alloc, line)?),
    }
}

/// A line of a script of this kind in this form.
fn line_of_kind(alloc: Global, kind: Kind, form: Form, line: &[u8]) -> Result<Bytes, WordFault>
    ensures written { IfOk result (IsLineIn kind form line.now) }
    ensures refused { IfErr result (IsNoLineIn kind form line.now) }
{
    match kind {
        Kind::Nodes => line_in(alloc, form, line),
        Kind::Slot => slot_line_in(alloc, form, line),
    }
}

/// The same; a refusal has the line's place, from 1 on.
fn placed_line(
    alloc: Global,
    kind: Kind,
    form: Form,
    line: &[u8],
    place: usize,
) -> Result<Bytes, ReadFault>
    ensures written { IfOk result (IsLineIn kind form line.now) }
    ensures refused { IfErr result (IsPlaced kind form line.now place) }
{
    match line_of_kind(alloc, kind, form, line) {
        Ok(out) => Ok(out),
        Err(WordFault::NoMemory) => Err(ReadFault::NoMemory),
        Err(WordFault::Bad(bad)) => Err(ReadFault::Bad(BadLine { line: place, bad })),
    }
}

/// Adds a line, after a line feed unless it is the first.
fn add_line(out: &mut Vec<u8>, first: bool, line: &[u8]) -> Result<(), AllocError>
    ensures { OnOk result (out.new.items ≡ out.old.items ++ (if first then line.now else 10 ∷ line.now)) }
{
    if !first {
        out.push(b'\n')?;
    }
    out.extend_from_slice(line)
}

/// The script of this kind, with what its lines carry in this form. All other lines stay, to the byte. Hex digits that encode nothing
/// stay too. In a script of nodes they come below a comment that says why. In a script of one slot they stay as they are; there a line is
/// made text only if that text in hex digits is the same line again. It takes time in proportion to the script.
pub fn rewrite(alloc: Global, kind: Kind, form: Form, script: &[u8]) -> Result<Vec<u8>, ReadFault>
    // Each line is in this form, with a line feed between two lines.
    ensures written { IfOk result (λ out. IsScriptOf kind form script.now out.items) }
    // A refusal reports the first line that can't be in this form, with the first word that prevents it, or that memory ran out. A slot's
    // script can always be text.
    ensures refused { IfErr result (IsRefusedScript kind form script.now) }
{
    let mut out = Vec::new(alloc);
    let lines = lines(alloc, script)?;
    let mut first = true;
    for (index, line) in lines.iter().enumerate() {
        let written = match placed_line(alloc, kind, form, *line, index + 1) {
            Ok(written) => written,
            Err(fault) => return Err(fault),
        };
        add_line(&mut out, first, written.as_slice())?;
        first = false;
    }
    Ok(out)
}
