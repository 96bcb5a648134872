//! Values and quorum sets alone, as text and back.
ghost use Rattle.std.specs.Prelude.{◌≡◌, ◌≤◌, ◌<◌, ◌⊎◌, ◌↔◌, Some, Ok, length, IfOk, IfSome, IfErr, IsOkUnless, IsErrOf, string_bytes};
ghost use Rattle.scp_kv.specs.scp_xdr.specs.Kind.{Fits, Spells};
ghost use Rattle.scp_wire.specs.scp_quorum.specs.QuorumKind.{set_kind, set_value};
ghost use Rattle.scp_text.specs.Values.{value_text, value_in};
ghost use Rattle.scp_text.specs.Sets.{set_text, set_in};
ghost use Rattle.scp_text.specs.Messages.{or_refused, Answers};

use crate::message::see_bytes;
use crate::set::read_fitting;
use crate::term::Term;
use scp_device::{BadWord, Expected, WordFault};
use scp_kv::below::types::{Fault, VALUE_LIMIT, Value};
use scp_wire::below::quorum::QuorumSet;
use std::alloc::Global;

/// That the text of a value within its limit is read as it. Does nothing.
fn see_value(bytes: &[u8])
    requires { length bytes.now ≤ 4096 }
    ensures { value_in (value_text bytes.now) ≡ Some bytes.now }
{
    see_bytes(bytes);
}

/// That the text of a quorum set that bytes spell is read as it. Does nothing.
fn see_set(bytes: &[u8], set: &QuorumSet)
    requires { Spells set_kind bytes.now (set_value set.now) }
    ensures { set_in (set_text set.now) ≡ Some set.now }
{
    see_bytes(bytes);
}

/// A value that was read, which is within its limit.
fn read_value(alloc: Global, text: &[u8]) -> Result<Option<Value>, Fault>
    ensures found { IfOk result (λ found. found ≡ value_in text.now) }
    ensures short { IfOk result (λ found. IfSome found (λ value. length value ≤ 4096)) }
    ensures only_memory { IsOkUnless result Fault.NoMemory }
{
    Value::read(alloc, text)
}

/// The value that the text says: `ops(..)`, `hex(..)` or `-`. Refused at word 1 where it says none, or for want of memory.
pub fn value_of(alloc: Global, text: &[u8]) -> Result<Value, WordFault>
    // The value is the one that the text says, and a refusal tells that it says none.
    ensures said { Answers result (or_refused (value_in text.now) 1 Expected.AValue) }
    // It has at most 4,096 bytes.
    ensures within { IfOk result (λ value. length value ≤ 4096) }
{
    match read_value(alloc, text)? {
        Some(value) => Ok(value),
        None => Err(WordFault::Bad(BadWord {
            word: 1,
            expected: Expected::AValue,
        })),
    }
}

/// The text of a value, the shortest of its forms. `TooLong` over 4,096 bytes.
pub fn text_of_value(alloc: Global, value: &Value) -> Result<String, Fault>
    // The text is the value's.
    ensures text { IfOk result (λ text. string_bytes text ≡ value_text value.now) }
    // It says just this value.
    ensures read_back { IfOk result (λ text. value_in (string_bytes text) ≡ Some value.now) }
    // It is too long just where it is over its limit.
    ensures too_long { IsErrOf result Fault.TooLong ↔ (4096 < length value.now) }
    // There are two reasons to refuse.
    ensures only { IfErr result (λ f. (f ≡ Fault.NoMemory) ⊎ (f ≡ Fault.TooLong)) }
{
    if value.as_slice().len() > VALUE_LIMIT {
        return Err(Fault::TooLong);
    }
    see_value(value.as_slice());
    let mut text = String::new(alloc);
    value.write(&mut text)?;
    Ok(text)
}

/// The quorum set that the text says, as `2of(1,2,2of(3,4))`. Refused at word 1 where it says none, or for want of memory.
pub fn set_of(alloc: Global, text: &[u8]) -> Result<QuorumSet, WordFault>
    // The set is the one that the text says, and a refusal tells that it says none.
    ensures said { Answers result (or_refused (set_in text.now) 1 Expected.ASet) }
    // It is within its limits.
    ensures within { IfOk result (λ set. Fits set_kind (set_value set)) }
{
    match read_fitting(alloc, text)? {
        Some(set) => Ok(set),
        None => Err(WordFault::Bad(BadWord {
            word: 1,
            expected: Expected::ASet,
        })),
    }
}

/// The text of a quorum set. `TooLong` where it is over its limits.
pub fn text_of_set(alloc: Global, set: &QuorumSet) -> Result<String, Fault>
    // The text is the set's.
    ensures text { IfOk result (λ text. string_bytes text ≡ set_text set.now) }
    // It says just this set.
    ensures read_back { IfOk result (λ text. set_in (string_bytes text) ≡ Some set.now) }
    // It is too long just where it breaks a limit.
    ensures too_long { IsErrOf result Fault.TooLong ↔ ¬ (Fits set_kind (set_value set.now)) }
    // There are two reasons to refuse.
    ensures only { IfErr result (λ f. (f ≡ Fault.NoMemory) ⊎ (f ≡ Fault.TooLong)) }
{
    let bytes = set.encode()?;
    see_set(bytes.as_slice(), set);
    let mut text = String::new(alloc);
    set.write(&mut text)?;
    Ok(text)
}
