//! The sections of the page.
ghost use Rattle.std.specs.Prelude.{◌≡◌, ◌++◌, [], IfOk, OnOk, IsOkUnless, flat_map, if◌then◌else◌, string_bytes};
ghost use Rattle.std.specs.List.{list_any};
ghost use Rattle.scp_draw_marks.specs.Topics.{same_slot as same_slots};
ghost use Rattle.scp_draw.specs.Elements.{element};
ghost use Rattle.scp_draw.specs.Page.{for_nodes, box_text, label_text, stem_text, elements_of, slot_heading, splits as splits_so, is_split as is_split_by, split_text, heading, first_slot as first_slot_of, is_open as is_open_among, open_text, room as room_of, room_text, section_front, section_text, section_in};

use crate::element::{Picture, column, write_element};
use scp_draw_marks::{Mark, Pen, decided_count, is_against, same_slot, write_down, write_letters};
use scp_trace::below::facts::Telling;
use scp_trace::below::node::Node;
use scp_trace::below::types::Fault;

/// Adds the box that hides or shows a node.
fn write_box(out: &mut String, number: u8) -> Result<(), Fault>
    ensures added { OnOk result (string_bytes out.new ≡ string_bytes out.old ++ box_text number) }
    ensures only_memory { IsOkUnless result Fault.NoMemory }
{
    write!(out, "<label><input type='checkbox' checked id='n{number}'>")?;
    writeln!(out, "node {number}</label>")?;
    Ok(())
}

/// Adds the boxes of the nodes from 1 to this number. The only refusal is `NoMemory`.
pub fn write_boxes(out: &mut String, count: u8) -> Result<(), Fault>
    ensures added { OnOk result (string_bytes out.new ≡ string_bytes out.old ++ for_nodes box_text count) }
    ensures only_memory { IsOkUnless result Fault.NoMemory }
{
    for index in 0..count {
        write_box(out, index + 1)?;
    }
    Ok(())
}

/// Adds the node's number above its column.
fn write_label(out: &mut String, number: u8) -> Result<(), Fault>
    ensures added { OnOk result (string_bytes out.new ≡ string_bytes out.old ++ label_text number) }
    ensures only_memory { IsOkUnless result Fault.NoMemory }
{
    let mut digits = String::new(*out.allocator());
    write!(digits, "{number}")?;
    write_letters(out, "h", column(number), 0, digits.as_str())?;
    Ok(())
}

fn write_labels(out: &mut String, count: u8) -> Result<(), Fault>
    ensures added { OnOk result (string_bytes out.new ≡ string_bytes out.old ++ for_nodes label_text count) }
    ensures only_memory { IsOkUnless result Fault.NoMemory }
{
    for index in 0..count {
        write_label(out, index + 1)?;
    }
    Ok(())
}

/// Adds the line down a column.
fn write_stem(out: &mut String, number: u8) -> Result<(), Fault>
    ensures added { OnOk result (string_bytes out.new ≡ string_bytes out.old ++ stem_text number) }
    ensures only_memory { IsOkUnless result Fault.NoMemory }
{
    write_down(out, "l", column(number))?;
    Ok(())
}

fn write_stems(out: &mut String, count: u8) -> Result<(), Fault>
    ensures added { OnOk result (string_bytes out.new ≡ string_bytes out.old ++ for_nodes stem_text count) }
    ensures only_memory { IsOkUnless result Fault.NoMemory }
{
    for index in 0..count {
        write_stem(out, index + 1)?;
    }
    Ok(())
}

/// Adds the element of a mark, if the mark belongs to the section.
fn write_mark(
    out: &mut Vec<u8>,
    picture: Picture<'_>,
    slot: Option<u64>,
    mark: &Mark,
    later: &[Mark],
) -> Result<(), Fault>
    ensures added { OnOk result (out.new.items ≡ out.old.items ++ (if same_slots mark.now.topic.slot slot then element picture.entry.names.now picture.entry.nodes.now picture.entry.tellings.now picture.entry.marks.now later.now mark.now else [])) }
    ensures only_memory { IsOkUnless result Fault.NoMemory }
{
    if same_slot(mark.topic.slot, slot) {
        return write_element(out, picture, mark, later);
    }
    Ok(())
}

/// Adds the elements of a section.
fn write_elements(out: &mut Vec<u8>, picture: Picture<'_>, slot: Option<u64>) -> Result<(), Fault>
    ensures added { OnOk result (out.new.items ≡ out.old.items ++ elements_of picture.entry.names.now picture.entry.nodes.now picture.entry.tellings.now picture.entry.marks.now slot picture.entry.marks.now) }
    ensures only_memory { IsOkUnless result Fault.NoMemory }
{
    for (index, mark) in picture.marks.iter().enumerate() {
        write_mark(out, picture, slot, mark, &picture.marks[index + 1..])?;
    }
    Ok(())
}

/// Adds the words for a slot, and for how many of the nodes decided it.
fn write_slot(out: &mut String, slot: u64, decided: usize, count: u8) -> Result<(), Fault>
    ensures added { OnOk result (string_bytes out.new ≡ string_bytes out.old ++ slot_heading slot decided count) }
    ensures only_memory { IsOkUnless result Fault.NoMemory }
{
    write!(out, "Slot {slot}, decided by {decided} of {count} nodes")?;
    Ok(())
}

/// Whether the mark is a decision of the slot whose value isn't that of the slot's first decision, among all marks.
fn splits(
    nodes: &[Node],
    tellings: &[Telling],
    all: &[Mark],
    slot: Option<u64>,
    mark: &Mark,
) -> bool
    ensures { result ≡ splits_so nodes.now tellings.now all.now slot mark.now }
{
    same_slot(mark.topic.slot, slot) && is_against(nodes, tellings, all, mark)
}

/// Whether one of these marks is a decision of the slot whose value isn't that of the slot's first decision, among all marks.
fn has_split(
    nodes: &[Node],
    tellings: &[Telling],
    all: &[Mark],
    slot: Option<u64>,
    marks: &[Mark],
) -> bool
    ensures { result ≡ list_any (splits_so nodes.now tellings.now all.now slot) marks.now }
{
    for mark in marks {
        if splits(nodes, tellings, all, slot, mark) {
            return true;
        }
    }
    false
}

/// Whether nodes decided the slot differently.
fn is_split(picture: Picture<'_>, slot: Option<u64>) -> bool
    ensures { result ≡ is_split_by picture.entry.nodes.now picture.entry.tellings.now picture.entry.marks.now slot }
{
    has_split(
        picture.nodes,
        picture.tellings,
        picture.marks,
        slot,
        picture.marks,
    )
}

/// The word for a slot that nodes decided differently.
fn word_of_split(split: bool) -> &'static str
    ensures { result.now ≡ split_text split }
{
    if split { ", split" } else { "" }
}

/// Adds the words for a slot, and that nodes decided it differently if they did.
fn write_slot_heading(
    out: &mut String,
    slot: u64,
    decided: usize,
    count: u8,
    split: bool,
) -> Result<(), Fault>
    ensures added { OnOk result (string_bytes out.new ≡ string_bytes out.old ++ (slot_heading slot decided count ++ split_text split)) }
    ensures only_memory { IsOkUnless result Fault.NoMemory }
{
    write_slot(out, slot, decided, count)?;
    out.push_str(word_of_split(split))?;
    Ok(())
}

/// Adds the heading of a section.
fn write_heading(
    out: &mut String,
    count: u8,
    split: bool,
    marks: &[Mark],
    slot: Option<u64>,
) -> Result<(), Fault>
    ensures added { OnOk result (string_bytes out.new ≡ string_bytes out.old ++ heading count split marks.now slot) }
    ensures only_memory { IsOkUnless result Fault.NoMemory }
{
    match slot {
        Some(number) => write_slot_heading(out, number, decided_count(slot, marks), count, split),
        None => {
            out.push_str("Links, quorum sets and time")?;
            Ok(())
        }
    }
}

/// The first slot that has a section.
fn first_slot(pens: &[Pen]) -> Option<u64>
    ensures { result ≡ first_slot_of pens.now }
{
    match pens.split_first() {
        Some((pen, pens)) => match pen.slot {
            Some(slot) => Some(slot),
            None => first_slot(pens),
        },
        None => None,
    }
}

/// Whether a section is open at first, if it is a slot's: there are few, or it is the first slot's.
fn is_open(pens: &[Pen], pen: &Pen) -> bool
    ensures { result ≡ is_open_among pens.now pen.now }
{
    pens.len() <= 3 || same_slot(pen.slot, first_slot(pens))
}

/// The word for a section that is open at first.
fn word_of_open(opened: bool, slot: Option<u64>) -> &'static str
    ensures { result.now ≡ open_text opened slot }
{
    match slot {
        Some(_) if opened => " open",
        _ => "",
    }
}

/// So many hundredths of the width of a picture with this number of columns are as wide as the page.
fn room(count: u8) -> u64
    ensures { result ≡ room_of count }
{
    column(count) + 20
}

/// Adds the size of a picture with this number of columns and rows.
fn write_room(out: &mut String, count: u8, rows: u64) -> Result<(), Fault>
    ensures added { OnOk result (string_bytes out.new ≡ string_bytes out.old ++ room_text count rows) }
    ensures only_memory { IsOkUnless result Fault.NoMemory }
{
    let width = room(count);
    write!(out, "<svg style='width:calc(10000% / {width});")?;
    write!(out, "height:calc({rows}em + 64px)'>")?;
    Ok(())
}

/// The text before the elements of a section.
fn front_of(
    picture: Picture<'_>,
    count: u8,
    opened: bool,
    split: bool,
    pen: &Pen,
) -> Result<String, Fault>
    ensures text { IfOk result (λ text. string_bytes text ≡ section_front count opened split picture.entry.marks.now pen.now) }
    ensures only_memory { IsOkUnless result Fault.NoMemory }
{
    let mut text = String::new(picture.alloc);
    text.push_str("<details")?;
    text.push_str(word_of_open(opened, pen.slot))?;
    text.push_str("><summary>")?;
    write_heading(&mut text, count, split, picture.marks, pen.slot)?;
    text.push_str("</summary>\n")?;
    write_room(&mut text, count, pen.floor)?;
    text.push_str("<g transform='translate(0 24)'>")?;
    write_labels(&mut text, count)?;
    text.push_str("</g><g transform='translate(0 48)'>")?;
    write_stems(&mut text, count)?;
    text.push_str("\n")?;
    Ok(text)
}

/// Adds a section.
fn write_section(
    out: &mut Vec<u8>,
    picture: Picture<'_>,
    count: u8,
    opened: bool,
    pen: &Pen,
) -> Result<(), Fault>
    ensures added { OnOk result (out.new.items ≡ out.old.items ++ section_text picture.entry.names.now picture.entry.nodes.now picture.entry.tellings.now count opened picture.entry.marks.now pen.now) }
    ensures only_memory { IsOkUnless result Fault.NoMemory }
{
    let split = is_split(picture, pen.slot);
    let front = front_of(picture, count, opened, split, pen)?;
    out.extend_from_slice(front.as_bytes())?;
    write_elements(out, picture, pen.slot)?;
    out.extend_from_slice(b"</g></svg></details>\n")?;
    Ok(())
}

/// Adds all sections.
pub fn write_sections(
    out: &mut Vec<u8>,
    picture: Picture<'_>,
    count: u8,
    pens: &[Pen],
) -> Result<(), Fault>
    ensures added { OnOk result (out.new.items ≡ out.old.items ++ flat_map (section_in picture.entry.names.now picture.entry.nodes.now picture.entry.tellings.now count picture.entry.marks.now pens.now) pens.now) }
    ensures only_memory { IsOkUnless result Fault.NoMemory }
{
    for pen in pens {
        write_section(out, picture, count, is_open(pens, pen), pen)?;
    }
    Ok(())
}
