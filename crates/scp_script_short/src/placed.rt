//! The lines of an expanded script, each with the number of the line that stands for it.
ghost use Rattle.std.specs.Prelude.{◌≡◌, ◌++◌, ◌∷◌, if◌then◌else◌, IfOk, OnOk};
ghost use Rattle.scp_script_short.specs.Scripts.{placed_at, script_of, place_at, placed_from};

use crate::said::{Said, expansion};
use scp_script_text::below::wire::Bytes;
use std::alloc::{AllocError, Global};
use std::marker::Model;

/// A line of an expanded script, and the number, from 1 on, of the line that stands for it.
#[derive(Drop)]
pub struct PlacedLine {
    pub place: usize,
    pub line: Bytes,
}

/// The lines of an expanded script.
#[derive(Drop)]
pub struct PlacedLines(Vec<PlacedLine>);

impl Model for PlacedLines {
    ghost use Rattle.std.specs.Prelude.{List};
    ghost use Rattle.scp_script_short.specs.declared.placed.PlacedLine.{PlacedLine};

    ghost Value = { List PlacedLine };

    ghost view = { λ lines. lines.0.items };
}

impl PlacedLines {
    /// These lines. Moves them and takes no memory.
    pub fn new(lines: Vec<PlacedLine>) -> PlacedLines
        ensures { result ≡ lines.items }
    {
        PlacedLines(lines)
    }

    /// The lines.
    pub fn as_slice(&self) -> &[PlacedLine]
        ensures { result.now ≡ self.now }
    {
        self.0.as_slice()
    }

    /// The number of the line that stands for this line of the expanded script. Both are counted from 1 on. `None` if there is no such
    /// line.
    pub fn place_of(&self, line: usize) -> Option<usize>
        ensures { result ≡ place_at self.now line }
    {
        if line == 0 {
            return None;
        }
        let placed = self.0.get(line - 1)?;
        Some(placed.place)
    }

    /// The expanded script: its lines, with a line feed between two. It fails only when out of memory.
    pub fn script(&self, alloc: Global) -> Result<Vec<u8>, AllocError>
        ensures { IfOk result (λ script. script.items ≡ script_of self.now) }
    {
        joined(alloc, self.as_slice())
    }
}

/// Adds a line, after a line feed unless it is the first.
fn add_line(script: &mut Vec<u8>, first: bool, line: &[u8]) -> Result<(), AllocError>
    ensures { OnOk result (script.new.items ≡ script.old.items ++ (if first then line.now else 10 ∷ line.now)) }
{
    if !first {
        script.push(b'\n')?;
    }
    script.extend_from_slice(line)
}

/// The lines, with a line feed between two.
fn joined(alloc: Global, lines: &[PlacedLine]) -> Result<Vec<u8>, AllocError>
    ensures { IfOk result (λ script. script.items ≡ script_of lines.now) }
{
    let mut script = Vec::new(alloc);
    let mut first = true;
    for placed in lines {
        add_line(&mut script, first, placed.line.as_slice())?;
        first = false;
    }
    Ok(script)
}

/// Adds lines of this place.
fn add_placed(
    placed: &mut Vec<PlacedLine>,
    place: usize,
    lines: Vec<Bytes>,
) -> Result<(), AllocError>
    ensures { OnOk result (placed.new.items ≡ placed.old.items ++ placed_at place lines.items) }
{
    for line in lines {
        placed.push(PlacedLine { place, line })?;
    }
    Ok(())
}

/// The lines that the lines of a script stand for, in their order.
pub fn placed_lines(alloc: Global, script: &[Said]) -> Result<PlacedLines, AllocError>
    ensures { IfOk result (λ lines. lines ≡ placed_from 1 script.now) }
{
    let mut placed = Vec::new(alloc);
    for (index, said) in script.iter().enumerate() {
        let lines = expansion(alloc, said)?;
        add_placed(&mut placed, index + 1, lines)?;
    }
    Ok(PlacedLines(placed))
}
