//! The words for reasons, verdicts and statements, and the digits of bytes.
ghost use Rattle.std.specs.Prelude.{◌≡◌, ◌++◌, OnOk, string_bytes};
ghost use Rattle.hex.specs.Hex.{encode_lower};
ghost use Rattle.sha2.specs.Sha256.{sha256};
ghost use Rattle.scp_history.specs.Words.{unread_word, verdict_word, shows_hash, verdict_words, statement_word, value_digits, spaced_value, spaced_statement, spaced_verdict};

use crate::line::StatementWord;
use scp_audit::below::archive::Unread;
use scp_audit::below::judged::Verdict;
use scp_strkey::below::types::{Hash, Value};
use sha2::{Digest, Sha256};
use std::alloc::AllocError;

/// How many bytes of a value's hash are shown.
const SHOWN: usize = 8;

/// Adds bytes as two lower-case digits each.
fn write_digits(text: &mut String, bytes: &[u8]) -> Result<(), AllocError>
    ensures { OnOk result (string_bytes text.new ≡ string_bytes text.old ++ encode_lower bytes.now) }
{
    let digits = hex::encode(*text.allocator(), bytes)?;
    text.push_str(digits.as_str())?;
    Ok(())
}

/// The SHA-256 of the bytes (FIPS 180-4).
fn sha256_of(bytes: &[u8]) -> [u8; 32]
    ensures { result ≡ sha256 bytes.now }
{
    let mut hasher = Sha256::new();
    hasher.update(bytes);
    hasher.finalize()
}

/// Adds the first 16 digits of the value's SHA-256.
pub fn write_value(text: &mut String, value: &Value) -> Result<(), AllocError>
    ensures { OnOk result (string_bytes text.new ≡ string_bytes text.old ++ value_digits value.now) }
{
    let hash = sha256_of(value.as_slice());
    write_digits(text, &hash[..SHOWN])
}

/// Adds why a record isn't read.
pub fn write_why(text: &mut String, why: Unread) -> Result<(), AllocError>
    ensures { OnOk result (string_bytes text.new ≡ string_bytes text.old ++ unread_word why) }
{
    match why {
        Unread::Fragment => text.push_str("fragment"),
        Unread::TooLong => text.push_str("too-long"),
        Unread::Malformed(place) => {
            write!(text, "malformed at {place}")?;
            Ok(())
        }
    }
}

/// The word of a verdict, without the hash.
pub fn word_of_verdict(verdict: Verdict) -> &'static str
    ensures { result.now ≡ verdict_word verdict }
{
    match verdict {
        Verdict::Counts => "counts",
        Verdict::OtherSlot => "other-slot",
        Verdict::Insane => "insane",
        Verdict::MissingSet => "missing-set",
        Verdict::BadSet => "bad-set",
        Verdict::NotNewer => "not-newer",
    }
}

/// Whether the hash of the quorum set that a message names is shown with its verdict.
fn does_show_hash(verdict: Verdict) -> bool
    ensures { result ≡ shows_hash verdict }
{
    match verdict {
        Verdict::Counts => false,
        Verdict::OtherSlot => false,
        Verdict::Insane => false,
        Verdict::MissingSet => true,
        Verdict::BadSet => true,
        Verdict::NotNewer => false,
    }
}

/// Adds a verdict. Where the quorum set is missing or bad, its hash follows.
fn write_verdict(text: &mut String, verdict: Verdict, hash: &Hash) -> Result<(), AllocError>
    ensures { OnOk result (string_bytes text.new ≡ string_bytes text.old ++ verdict_words verdict hash.now.0) }
{
    text.push_str(word_of_verdict(verdict))?;
    if !does_show_hash(verdict) {
        return Ok(());
    }
    text.push_str(" ")?;
    write_digits(text, &hash.0)
}

/// The word of a statement.
pub fn word_of_statement(statement: StatementWord) -> &'static str
    ensures { result.now ≡ statement_word statement }
{
    match statement {
        StatementWord::Externalize => "externalize",
        StatementWord::Confirm => "confirm",
        StatementWord::Prepare => "prepare",
    }
}

/// Adds a value after a space.
pub(crate) fn write_spaced_value(text: &mut String, value: &Value) -> Result<(), AllocError>
    ensures { OnOk result (string_bytes text.new ≡ string_bytes text.old ++ spaced_value value.now) }
{
    text.push_str(" ")?;
    write_value(text, value)
}

/// Adds the word of a statement after a space.
pub(crate) fn write_spaced_statement(
    text: &mut String,
    statement: StatementWord,
) -> Result<(), AllocError>
    ensures { OnOk result (string_bytes text.new ≡ string_bytes text.old ++ spaced_statement statement) }
{
    text.push_str(" ")?;
    text.push_str(word_of_statement(statement))
}

/// Adds a verdict after a space.
pub(crate) fn write_spaced_verdict(
    text: &mut String,
    verdict: Verdict,
    hash: &Hash,
) -> Result<(), AllocError>
    ensures { OnOk result (string_bytes text.new ≡ string_bytes text.old ++ spaced_verdict verdict hash.now.0) }
{
    text.push_str(" ")?;
    write_verdict(text, verdict, hash)
}
