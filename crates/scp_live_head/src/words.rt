//! The words of lines.
ghost use Rattle.std.specs.Prelude.{◌≡◌, ◌≢◌, ◌<◌, ◌^◌, ◌++◌, ◌∷◌, ℕ, List, length, IfSome, IfNone, IsSomeAnd, OnOk, position, nat_eq};
ghost use Rattle.std.specs.Fmt.{decimal};
ghost use Rattle.hex.specs.Hex.{encode_lower};
ghost use Rattle.scp_live_head.specs.inside.Words.{Without, CutsAt};

use std::alloc::{AllocError, Global};
use std::str;

/// What is behind this front, if the bytes begin with it.
pub(crate) fn after<'a>(bytes: &'a [u8], front: &[u8]) -> Option<&'a [u8]>
    ensures some { IfSome result (λ rest. bytes.now ≡ front.now ++ rest.now) }
    ensures none { IfNone result ((rest : List ℕ) → bytes.now ≢ front.now ++ rest) }
{
    bytes.strip_prefix(front)
}

/// Where the first mark is, if there is one.
fn place_of(bytes: &[u8], mark: &u8) -> Option<usize>
    ensures { result ≡ position (λ byte. nat_eq byte mark.now) bytes.now }
{
    bytes.iter().position(|byte| *byte == *mark)
}

/// Where the first mark is, if there is one.
fn mark_at(bytes: &[u8], mark: u8) -> Option<usize>
    ensures found { IfSome result (λ n. CutsAt mark n bytes.now) }
    ensures none { IfNone result (Without mark bytes.now) }
{
    place_of(bytes, &mark)
}

/// What is before the first mark, and what is behind it.
pub(crate) fn cut_at(bytes: &[u8], mark: u8) -> Option<(&[u8], &[u8])>
    ensures some { IfSome result (λ parts. (bytes.now ≡ parts.0.now ++ mark ∷ parts.1.now) × Without mark parts.0.now) }
    ensures none { IfNone result (Without mark bytes.now) }
{
    let end = mark_at(bytes, mark)?;
    Some((&bytes[..end], &bytes[end + 1..]))
}

/// The number in a text of digits.
fn number_in(text: &str) -> Option<u64>
    ensures { (n : ℕ) → n < 2 ^ 64 → text.now ≡ decimal n → IsSomeAnd result (λ number. number ≡ n) }
{
    let Ok(number) = text.parse::<u64>() else {
        return None;
    };
    Some(number)
}

/// The number below 2^64 that these digits are. Other words may be a number too: whoever reads one writes it again and compares.
pub(crate) fn number_of(word: &[u8]) -> Option<u64>
    ensures { (n : ℕ) → n < 2 ^ 64 → word.now ≡ decimal n → IsSomeAnd result (λ number. number ≡ n) }
{
    let Ok(text) = str::from_utf8(word) else {
        return None;
    };
    number_in(text)
}

/// Adds a number in decimal digits.
pub(crate) fn add_number(alloc: Global, bytes: &mut Vec<u8>, number: u64) -> Result<(), AllocError>
    ensures { OnOk result (bytes.new.items ≡ bytes.old.items ++ decimal number) }
{
    let digits = number.to_string(alloc)?;
    bytes.extend_from_slice(digits.as_bytes())
}

/// Adds bytes as hexadecimal digits.
pub(crate) fn add_digits(
    alloc: Global,
    bytes: &mut Vec<u8>,
    digits_of: &[u8],
) -> Result<(), AllocError>
    ensures { OnOk result (bytes.new.items ≡ bytes.old.items ++ encode_lower digits_of.now) }
{
    let digits = hex::encode(alloc, digits_of)?;
    bytes.extend_from_slice(digits.as_bytes())
}
