//! Bytes as Base32.
ghost use Rattle.std.specs.Prelude.{◌≡◌, ◌<◌, ◌++◌, ◌∷◌, [], length, OnOk, string_bytes};
ghost use Rattle.scp_strkey.specs.Base32.{letter, letters, letters_of, base32};

use std::alloc::AllocError;

/// How many letters five bytes have.
const LETTERS: u32 = 8;

/// How many bytes have these letters.
const BYTES: usize = 5;

/// The letter of five bits.
fn letter_of(bits: u8) -> u8
    requires { bits < 32 }
    ensures letter { result ≡ letter bits }
    ensures ascii { result < 128 }
{
    if bits < 26 { b'A' + bits } else { 24 + bits }
}

/// Adds the letter of five bits.
fn write_letter(text: &mut String, bits: u8) -> Result<(), AllocError>
    requires { bits < 32 }
    ensures { OnOk result (string_bytes text.new ≡ string_bytes text.old ++ letter bits ∷ []) }
{
    text.push(char::from(letter_of(bits)))
}

/// Adds the last letters of a number, this many.
fn write_letters(text: &mut String, count: u32, number: u64) -> Result<(), AllocError>
    ensures { OnOk result (string_bytes text.new ≡ string_bytes text.old ++ letters count number) }
{
    if count == 0 {
        return Ok(());
    }
    write_letters(text, count - 1, number / 32)?;
    write_letter(text, (number % 32) as u8)
}

/// The number that five bytes are.
fn number_of(five: &[u8]) -> u64
    requires { length five.now ≡ 5 }
    ensures { letters_of five.now ≡ letters 8 result }
{
    let high = u64::from(five[0]) * 0x1_0000_0000 + u64::from(five[1]) * 0x100_0000;
    high + u64::from(five[2]) * 0x1_0000 + u64::from(five[3]) * 0x100 + u64::from(five[4])
}

/// Adds the letters of five bytes.
fn write_five(text: &mut String, five: &[u8]) -> Result<(), AllocError>
    requires { length five.now ≡ 5 }
    ensures { OnOk result (string_bytes text.new ≡ string_bytes text.old ++ letters_of five.now) }
{
    write_letters(text, LETTERS, number_of(five))
}

/// Adds the Base32 of the bytes (RFC 4648, section 6), five by five. Fewer than five at the end are left out.
pub fn write_base32(text: &mut String, bytes: &[u8]) -> Result<(), AllocError>
    ensures { OnOk result (string_bytes text.new ≡ string_bytes text.old ++ base32 bytes.now) }
{
    let mut rest = bytes;
    while rest.len() >= BYTES {
        write_five(text, &rest[..BYTES])?;
        rest = &rest[BYTES..];
    }
    Ok(())
}
