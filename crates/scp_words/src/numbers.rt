//! Numbers in a row.
ghost use Rattle.std.specs.Prelude.{◌≡◌, ◌++◌, OnOk, flat_map, string_bytes};
ghost use Rattle.scp_words.specs.Words.{behind_comma, numbers_text};

use std::alloc::AllocError;

/// Adds numbers, a comma before each.
fn write_more(text: &mut String, numbers: &[u8]) -> Result<(), AllocError>
    ensures { OnOk result (string_bytes text.new ≡ string_bytes text.old ++ flat_map behind_comma numbers.now) }
{
    for number in numbers {
        write!(text, ",{number}")?;
    }
    Ok(())
}

/// Adds numbers, with commas between them.
pub fn write_numbers(text: &mut String, numbers: &[u8]) -> Result<(), AllocError>
    ensures { OnOk result (string_bytes text.new ≡ string_bytes text.old ++ numbers_text numbers.now) }
{
    match numbers.split_first() {
        None => Ok(()),
        Some((first, rest)) => {
            write!(text, "{first}")?;
            write_more(text, rest)
        }
    }
}
