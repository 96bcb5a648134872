//! The lines of messages for a peer.
ghost use Rattle.std.specs.Prelude.{◌≡◌, ◌++◌, OnOk, codes, string_bytes};
ghost use Rattle.scp_live_lines.specs.Sent.{worded, send_line, again_line};

use scp_words::write_hex;
use std::alloc::AllocError;

/// Adds a line of a word, a name, and bytes in hexadecimal digits.
fn write_line(text: &mut String, word: &str, name: &str, bytes: &[u8]) -> Result<(), AllocError>
    ensures { OnOk result (string_bytes text.new ≡ string_bytes text.old ++ worded word.now name.now bytes.now) }
{
    write!(text, "{word} {name} ")?;
    write_hex(text, bytes)?;
    text.push_str("\n")?;
    Ok(())
}

/// Adds the line of a message that is sent to a peer: `send NAME HEX`.
pub fn write_send(text: &mut String, name: &str, bytes: &[u8]) -> Result<(), AllocError>
    ensures { OnOk result (string_bytes text.new ≡ string_bytes text.old ++ send_line name.now bytes.now) }
{
    write_line(text, "send", name, bytes)
}

/// Adds the line of a message that may already have been sent: `again NAME HEX`.
pub fn write_again(text: &mut String, name: &str, bytes: &[u8]) -> Result<(), AllocError>
    ensures { OnOk result (string_bytes text.new ≡ string_bytes text.old ++ again_line name.now bytes.now) }
{
    write_line(text, "again", name, bytes)
}
