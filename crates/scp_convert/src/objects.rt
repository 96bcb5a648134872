//! What was made of a line, as JSON.
ghost use Rattle.std.specs.Prelude.{◌≡◌, IfOk, codes, string_bytes};
ghost use Rattle.serde_json.specs.Data.{number, unsigned, string, object, member, no_members};
ghost use Rattle.serde_json.specs.View.{view};
ghost use Rattle.serde_json.specs.Written.{compact_text};
ghost use Rattle.scp_convert.specs.Words.{kind_word, made_json};

use scp_prompt::{Kind, Way};
use serde_json::{Value, json};
use std::alloc::{AllocError, Global};

/// The word of a kind.
fn word_of_kind(kind: Kind) -> &'static str
    ensures { result.now ≡ kind_word kind }
{
    match kind {
        Kind::Message => "message",
        Kind::Envelope => "envelope",
        Kind::Statement => "statement",
        Kind::Set => "set",
        Kind::Value => "value",
    }
}

/// The object of a line whose text was written.
fn text_object(alloc: Global, kind: Kind, line: usize, text: String) -> Result<Value, AllocError>
    ensures { IfOk result (λ v. view v ≡ object (member (codes "as") (string (kind_word kind)) (member (codes "line") (number (unsigned line)) (member (codes "text") (string (string_bytes text)) no_members)))) }
{
    let word = word_of_kind(kind);
    let number = line as u64;
    json!(in alloc; {"as": word, "line": number, "text": text})
}

/// The object of a line whose bytes were written.
fn bytes_object(alloc: Global, kind: Kind, line: usize, text: String) -> Result<Value, AllocError>
    ensures { IfOk result (λ v. view v ≡ object (member (codes "as") (string (kind_word kind)) (member (codes "bytes") (string (string_bytes text)) (member (codes "line") (number (unsigned line)) no_members)))) }
{
    let word = word_of_kind(kind);
    let number = line as u64;
    json!(in alloc; {"as": word, "bytes": text, "line": number})
}

/// The object of a line.
fn made_object(
    alloc: Global,
    way: Way,
    kind: Kind,
    line: usize,
    made: String,
) -> Result<Value, AllocError>
    ensures { IfOk result (λ v. view v ≡ made_json way kind line (string_bytes made)) }
{
    match way {
        Way::Decode => text_object(alloc, kind, line, made),
        Way::Encode => bytes_object(alloc, kind, line, made),
    }
}

/// The object of a line, as text.
#[tactic(auto, using(crate::proofs::Floats::text_is))]
pub fn made_line(
    alloc: Global,
    way: Way,
    kind: Kind,
    line: usize,
    made: String,
) -> Result<String, AllocError>
    ensures { IfOk result (λ text. string_bytes text ≡ compact_text (made_json way kind line (string_bytes made))) }
{
    let object = made_object(alloc, way, kind, line, made)?;
    let text = object.to_string(alloc)?;
    Ok(text)
}
