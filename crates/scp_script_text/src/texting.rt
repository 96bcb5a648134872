//! What a line of a script of nodes carries in hex digits, as text.
ghost use Rattle.std.specs.Prelude.{◌≡◌, ◌≢◌, ◌++◌, ◌≤◌, length, Ok, Err, IfOk, IfErr, IsOkUnless, map, string_bytes, codes};
ghost use Rattle.scp_script_text.specs.Lines.{before, name_of as named, fault_text as text_of_fault, comment as comment_on, IsShown, IsUnread, IsTextLine, IsTextOf, IsNoText};

use crate::line::{digits_at, first_words, line_of, words_behind};
use crate::nodes::{Carried, words_before};
use scp_text::below::quorum::QuorumSet;
use scp_text::below::types::{Fault, Value};
use scp_text::below::wire::{Bytes, decode};
use scp_text::{BadWord, WordFault, text_of, text_of_set, text_of_value};
use std::alloc::{AllocError, Global};

/// The text of the message that the bytes encode.
fn message_text(alloc: Global, bytes: &[u8]) -> Result<String, Fault>
    ensures shown { IfOk result (λ text. IsShown Carried.Message bytes.now (string_bytes text)) }
    ensures unread { IfErr result (λ fault. fault ≢ Fault.NoMemory → IsUnread Carried.Message bytes.now fault) }
{
    let message = decode(alloc, bytes)?;
    match text_of(alloc, &message) {
        Ok(text) => Ok(text),
        Err(_) => Err(Fault::NoMemory),
    }
}

/// The text of a value of these bytes.
fn value_text(alloc: Global, bytes: &[u8]) -> Result<String, Fault>
    ensures shown { IfOk result (λ text. IsShown Carried.Value bytes.now (string_bytes text)) }
    ensures unread { IfErr result (λ fault. fault ≢ Fault.NoMemory → IsUnread Carried.Value bytes.now fault) }
{
    let value = Value::new(Vec::from_slice(alloc, bytes)?);
    text_of_value(alloc, &value)
}

/// The text of the quorum set that the bytes encode.
fn set_text(alloc: Global, bytes: &[u8]) -> Result<String, Fault>
    ensures shown { IfOk result (λ text. IsShown Carried.Set bytes.now (string_bytes text)) }
    ensures unread { IfErr result (λ fault. fault ≢ Fault.NoMemory → IsUnread Carried.Set bytes.now fault) }
{
    let set = QuorumSet::decode(alloc, bytes)?;
    match text_of_set(alloc, &set) {
        Ok(text) => Ok(text),
        Err(_) => Err(Fault::NoMemory),
    }
}

/// The text of what the bytes encode, or why they encode nothing of this kind.
pub fn shown(alloc: Global, carried: Carried, bytes: &[u8]) -> Result<String, Fault>
    ensures shown { IfOk result (λ text. IsShown carried bytes.now (string_bytes text)) }
    ensures unread { IfErr result (λ fault. fault ≢ Fault.NoMemory → IsUnread carried bytes.now fault) }
{
    match carried {
        Carried::Message => message_text(alloc, bytes),
        Carried::Value => value_text(alloc, bytes),
        Carried::Set => set_text(alloc, bytes),
    }
}

/// The name of what a line carries.
fn name_of(carried: Carried) -> &'static str
    ensures { result.now ≡ named carried }
{
    match carried {
        Carried::Message => "message",
        Carried::Value => "value",
        Carried::Set => "set",
    }
}

/// Why bytes encode nothing of this kind, in words.
fn fault_text(alloc: Global, fault: Fault) -> Result<String, AllocError>
    ensures { IfOk result (λ text. string_bytes text ≡ text_of_fault fault) }
{
    match fault {
        Fault::Malformed(place) => format!(in alloc; "malformed at {place}"),
        _ => "too long".to_string(alloc),
    }
}

/// The comment above hex digits that encode nothing of this kind.
fn comment(alloc: Global, carried: Carried, fault: Fault) -> Result<String, AllocError>
    ensures { IfOk result (λ text. string_bytes text ≡ comment_on carried fault) }
{
    let name = name_of(carried);
    let why = fault_text(alloc, fault)?;
    format!(in alloc; "# {name}: {why}\n")
}

/// The line below a comment that says why its hex digits encode nothing of this kind.
fn line_with_comment(
    alloc: Global,
    carried: Carried,
    fault: Fault,
    line: &[u8],
) -> Result<Bytes, AllocError>
    ensures { IfOk result (λ out. out ≡ comment_on carried fault ++ line.now) }
{
    let comment = comment(alloc, carried, fault)?;
    let mut out = Vec::from_slice(alloc, comment.as_bytes())?;
    out.extend_from_slice(line)?;
    Ok(Bytes::new(out))
}

/// The line with these bytes as text. If they encode nothing of this kind, it is the line as it is below a comment.
fn line_of_bytes(
    alloc: Global,
    carried: Carried,
    words: &[&[u8]],
    line: &[u8],
    bytes: &[u8],
) -> Result<Bytes, WordFault>
    ensures written { IfOk result (IsTextLine carried (map (λ word. word.now) words.now) line.now bytes.now) }
    ensures only_memory { IsOkUnless result WordFault.NoMemory }
{
    match shown(alloc, carried, bytes) {
        Ok(text) => Ok(line_of(alloc, words, text.as_bytes())?),
        Err(Fault::NoMemory) => Err(WordFault::NoMemory),
        Err(fault) => Ok(line_with_comment(alloc, carried, fault, line)?),
    }
}

/// A line with what it carries as text.
pub fn text_line(
    alloc: Global,
    carried: Carried,
    words: &[&[u8]],
    line: &[u8],
) -> Result<Bytes, WordFault>
    ensures written { IfOk result (IsTextOf carried (map (λ word. word.now) words.now) line.now) }
    ensures refused { IfErr result (IsNoText carried (map (λ word. word.now) words.now)) }
{
    let count = words_before(carried);
    match digits_at(alloc, words_behind(words, count)) {
        Ok(bytes) => line_of_bytes(
            alloc,
            carried,
            first_words(words, count),
            line,
            bytes.as_slice(),
        ),
        Err(WordFault::NoMemory) => Err(WordFault::NoMemory),
        Err(WordFault::Bad(bad)) => {
            let word = bad.word + count;
            Err(WordFault::Bad(BadWord { word, ..bad }))
        }
    }
}
