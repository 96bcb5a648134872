//! The pieces of a picture as text.
ghost use Rattle.std.specs.Prelude.{◌≡◌, ◌++◌, OnOk, string_bytes};
ghost use Rattle.scp_draw_marks.specs.Pieces.{escaped_byte, escaped, begun_text, length_text, place_text, line_text, down_text, across_text, bar_text, ring_text, letters_text};

use std::alloc::AllocError;

/// Adds a byte as it is written in the text of a page.
fn write_byte(out: &mut Vec<u8>, byte: u8) -> Result<(), AllocError>
    ensures { OnOk result (out.new.items ≡ out.old.items ++ escaped_byte byte) }
{
    match byte {
        b'&' => out.extend_from_slice(b"&amp;")?,
        b'<' => out.extend_from_slice(b"&lt;")?,
        b'>' => out.extend_from_slice(b"&gt;")?,
        b'"' => out.extend_from_slice(b"&quot;")?,
        _ => out.push(byte)?,
    }
    Ok(())
}

/// Adds a text as it is written in a page.
pub fn write_escaped(out: &mut Vec<u8>, text: &[u8]) -> Result<(), AllocError>
    ensures { OnOk result (out.new.items ≡ out.old.items ++ escaped text.now) }
{
    for byte in text {
        write_byte(out, *byte)?;
    }
    Ok(())
}

/// Begins an element of this class.
fn begin(out: &mut String, element: &str, class: &str) -> Result<(), AllocError>
    ensures { OnOk result (string_bytes out.new ≡ string_bytes out.old ++ begun_text element.now class.now) }
{
    write!(out, "<{element} class='{class}'")
}

/// Adds an attribute that is a length.
fn write_length(out: &mut String, name: &str, units: u64) -> Result<(), AllocError>
    ensures { OnOk result (string_bytes out.new ≡ string_bytes out.old ++ length_text name.now units) }
{
    write!(out, " {name}='{units}em'")
}

/// Adds an attribute that is a place to the right.
fn write_place(out: &mut String, name: &str, units: u64) -> Result<(), AllocError>
    ensures { OnOk result (string_bytes out.new ≡ string_bytes out.old ++ place_text name.now units) }
{
    write!(out, " {name}='{units}%'")
}

/// Adds a line of this class between two points.
pub fn write_line(
    out: &mut String,
    class: &str,
    x1: u64,
    y1: u64,
    x2: u64,
    y2: u64,
) -> Result<(), AllocError>
    ensures { OnOk result (string_bytes out.new ≡ string_bytes out.old ++ line_text class.now x1 y1 x2 y2) }
{
    begin(out, "line", class)?;
    write_place(out, "x1", x1)?;
    write_length(out, "y1", y1)?;
    write_place(out, "x2", x2)?;
    write_length(out, "y2", y2)?;
    out.push_str("/>")
}

/// Adds a line of this class from the top to the bottom.
pub fn write_down(out: &mut String, class: &str, x: u64) -> Result<(), AllocError>
    ensures { OnOk result (string_bytes out.new ≡ string_bytes out.old ++ down_text class.now x) }
{
    begin(out, "line", class)?;
    write_place(out, "x1", x)?;
    write_place(out, "x2", x)?;
    out.push_str(" y2='100%'/>")
}

/// Adds a line of this class from a point to the right, beyond what is shown.
pub fn write_across(out: &mut String, class: &str, x: u64, y: u64) -> Result<(), AllocError>
    ensures { OnOk result (string_bytes out.new ≡ string_bytes out.old ++ across_text class.now x y) }
{
    begin(out, "line", class)?;
    write_place(out, "x1", x)?;
    write_length(out, "y1", y)?;
    write_length(out, "y2", y)?;
    out.push_str(" x2='1000%'/>")
}

/// Adds a bar of this class from a point to the bottom.
pub fn write_bar(out: &mut String, class: &str, x: u64, y: u64) -> Result<(), AllocError>
    ensures { OnOk result (string_bytes out.new ≡ string_bytes out.old ++ bar_text class.now x y) }
{
    begin(out, "rect", class)?;
    write_place(out, "x", x)?;
    write_length(out, "y", y)?;
    out.push_str(" width='.4em' height='100%'/>")
}

/// Adds a ring of this class around a point.
pub fn write_ring(out: &mut String, class: &str, x: u64, y: u64) -> Result<(), AllocError>
    ensures { OnOk result (string_bytes out.new ≡ string_bytes out.old ++ ring_text class.now x y) }
{
    begin(out, "circle", class)?;
    write_place(out, "cx", x)?;
    write_length(out, "cy", y)?;
    out.push_str(" r='.6em'/>")
}

/// Adds letters of this class at a point.
pub fn write_letters(
    out: &mut String,
    class: &str,
    x: u64,
    y: u64,
    letters: &str,
) -> Result<(), AllocError>
    ensures { OnOk result (string_bytes out.new ≡ string_bytes out.old ++ letters_text class.now x y letters.now) }
{
    begin(out, "text", class)?;
    write_place(out, "x", x)?;
    write_length(out, "y", y)?;
    out.push_str(">")?;
    out.push_str(letters)?;
    out.push_str("</text>")
}
