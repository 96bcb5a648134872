//! The page of a run.
ghost use Rattle.std.specs.Prelude.{◌≡◌, ◌++◌, OnOk, IsOkUnless};
ghost use Rattle.scp_draw_marks.specs.Places.{DrawingView};
ghost use Rattle.scp_draw.specs.Frame.{head, legend, stands_head, tail};
ghost use Rattle.scp_draw_marks.specs.Pieces.{escaped};
ghost use Rattle.scp_draw.specs.Page.{for_nodes, box_text, drawn_page, page_text};

use crate::element::Picture;
use crate::frame::{head_text, legend_text, stands_head_text, tail_text};
use crate::section::{write_boxes, write_sections};
use scp_draw_marks::{Mark, Pen, drawing_of, write_escaped};
use scp_trace::below::facts::Telling;
use scp_trace::below::node::Node;
use scp_trace::below::stand_slot::Names;
use scp_trace::below::types::Fault;
use std::alloc::Global;

/// All that is drawn of a run: its nodes, and what was noted of them.
#[derive(Clone, Copy)]
pub struct Run<'a> {
    pub alloc: Global,
    /// Names of quorum sets.
    pub names: &'a Names,
    /// The number of nodes.
    pub count: u8,
    /// The nodes at the end.
    pub nodes: &'a [Node],
    pub tellings: &'a [Telling],
}

/// Adds the part of the page before the sections.
fn write_top(out: &mut Vec<u8>, run: Run<'_>) -> Result<(), Fault>
    ensures added { OnOk result (out.new.items ≡ out.old.items ++ (head ++ (for_nodes box_text run.entry.count ++ legend))) }
    ensures only_memory { IsOkUnless result Fault.NoMemory }
{
    let mut boxes = String::new(run.alloc);
    write_boxes(&mut boxes, run.count)?;
    out.extend_from_slice(head_text().as_bytes())?;
    out.extend_from_slice(boxes.as_bytes())?;
    out.extend_from_slice(legend_text().as_bytes())?;
    Ok(())
}

/// Adds the part of the page after the sections.
fn write_bottom(out: &mut Vec<u8>, ending: &str) -> Result<(), Fault>
    ensures added { OnOk result (out.new.items ≡ out.old.items ++ (stands_head ++ (escaped ending.now ++ tail))) }
    ensures only_memory { IsOkUnless result Fault.NoMemory }
{
    out.extend_from_slice(stands_head_text().as_bytes())?;
    write_escaped(out, ending.as_bytes())?;
    out.extend_from_slice(tail_text().as_bytes())?;
    Ok(())
}

/// Adds the page of a picture with these sections and marks.
fn write_drawn(
    out: &mut Vec<u8>,
    run: Run<'_>,
    pens: &[Pen],
    marks: &[Mark],
    ending: &str,
) -> Result<(), Fault>
    ensures added { (d : DrawingView) → d.pens ≡ pens.now → d.marks ≡ marks.now → OnOk result (out.new.items ≡ out.old.items ++ drawn_page run.entry.names.now run.entry.nodes.now run.entry.tellings.now run.entry.count ending.now d) }
    ensures only_memory { IsOkUnless result Fault.NoMemory }
{
    let picture = Picture {
        alloc: run.alloc,
        names: run.names,
        nodes: run.nodes,
        tellings: run.tellings,
        marks,
    };
    write_top(out, run)?;
    write_sections(out, picture, run.count, pens)?;
    write_bottom(out, ending)
}

/// Adds the page of a run, with where its nodes stand at the end. The facts are read once to place them, and once for each section. The bytes
/// of what was sent and what came are read again, and nothing is copied. The only refusal is `NoMemory`.
pub fn write_page(out: &mut Vec<u8>, run: Run<'_>, ending: &str) -> Result<(), Fault>
    ensures added { OnOk result (out.new.items ≡ out.old.items ++ page_text run.entry.names.now run.entry.nodes.now run.entry.tellings.now run.entry.count ending.now) }
    ensures only_memory { IsOkUnless result Fault.NoMemory }
{
    let drawing = drawing_of(run.alloc, run.nodes, run.tellings)?;
    let (pens, marks) = drawing.into_parts();
    write_drawn(out, run, pens.as_slice(), marks.as_slice(), ending)
}
