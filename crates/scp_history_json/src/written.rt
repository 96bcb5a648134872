//! The text of objects.
ghost use Rattle.std.specs.Prelude.{◌≡◌, ◌++◌, IfOk, OnOk, string_bytes};
ghost use Rattle.serde_json.specs.Written.{compact_text};
ghost use Rattle.scp_history_json.specs.Json.{line_json, line_object, report_objects};

use crate::objects::line_value;
use scp_shown::below::history::Line;
use std::alloc::{AllocError, Global};

/// The object of a line, as text.
fn object_text(alloc: Global, by_number: bool, line: &Line) -> Result<String, AllocError>
    ensures { IfOk result (λ text. string_bytes text ≡ compact_text (line_json by_number line.now)) }
{
    let object = line_value(alloc, by_number, line)?;
    let text = object.to_string(alloc)?;
    Ok(text)
}

/// Adds the object of a line, with the line feed that ends it.
fn write_object(text: &mut String, by_number: bool, line: &Line) -> Result<(), AllocError>
    ensures { OnOk result (string_bytes text.new ≡ string_bytes text.old ++ line_object by_number line.now) }
{
    let object = object_text(*text.allocator(), by_number, line)?;
    text.push_str(object.as_str())?;
    text.push_str("\n")
}

/// Adds an object for each line of a report, a line for each. A node is shown by its address or, where numbers are asked for and the first 31 bytes of
/// its id are 0, by the last one.
pub fn write_objects(text: &mut String, by_number: bool, lines: &[Line]) -> Result<(), AllocError>
    ensures { OnOk result (string_bytes text.new ≡ string_bytes text.old ++ report_objects by_number lines.now) }
{
    for line in lines {
        write_object(text, by_number, line)?;
    }
    Ok(())
}
