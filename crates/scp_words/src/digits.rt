//! Bytes as digits.
ghost use Rattle.std.specs.Prelude.{◌≡◌, ◌++◌, OnOk, string_bytes};
ghost use Rattle.scp_words.specs.Words.{hex_word};

use std::alloc::AllocError;

/// Adds bytes as hexadecimal digits, or a dash for none.
pub fn write_hex(text: &mut String, bytes: &[u8]) -> Result<(), AllocError>
    ensures { OnOk result (string_bytes text.new ≡ string_bytes text.old ++ hex_word bytes.now) }
{
    if bytes.is_empty() {
        text.push_str("-")?;
        return Ok(());
    }
    let digits = hex::encode(*text.allocator(), bytes)?;
    text.push_str(digits.as_str())?;
    Ok(())
}
