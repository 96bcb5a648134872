//! Bytes, names and numbers as JSON.
ghost use Rattle.std.specs.Prelude.{◌≡◌, IfOk, IsOkUnless};
ghost use Rattle.serde_json.specs.View.{view};
ghost use Rattle.scp_account.specs.Pieces.{digits, id_json, set_json, message_json, own_json};
ghost use Rattle.scp_line.specs.scp_wire.specs.Fitting.{IsFitting};
ghost use Rattle.scp_account.specs.Fits.{FitsSet, FitsOwn};

use scp_line::below::envelope::Envelope;
use scp_line::below::quorum::QuorumSet;
use scp_line::below::types::{Fault, NodeId};
use scp_line::below::wire::Message;
use serde_json::Value;
use std::alloc::{AllocError, Global};

/// Bytes as lower-case hexadecimal digits.
pub fn digits_of(alloc: Global, bytes: &[u8]) -> Result<Value, AllocError>
    ensures { IfOk result (λ v. view v ≡ digits bytes.now) }
{
    Ok(Value::from(hex::encode(alloc, bytes)?))
}

/// The id of a node.
pub fn id_value(alloc: Global, node: &NodeId) -> Result<Value, AllocError>
    ensures { IfOk result (λ v. view v ≡ id_json node.now) }
{
    digits_of(alloc, &node.0)
}

/// The bytes of a quorum set. `TooLong` only if it breaks a limit.
pub fn set_value(alloc: Global, set: &QuorumSet) -> Result<Value, Fault>
    ensures value { IfOk result (λ v. view v ≡ set_json set.now) }
    ensures only_memory { FitsSet set.now → IsOkUnless result Fault.NoMemory }
{
    let bytes = set.encode()?;
    Ok(digits_of(alloc, bytes.as_slice())?)
}

/// The bytes of a message. `TooLong` only if it breaks a limit.
pub fn message_value(alloc: Global, message: &Message) -> Result<Value, Fault>
    ensures value { IfOk result (λ v. view v ≡ message_json message.now) }
    ensures only_memory { IsFitting message.now → IsOkUnless result Fault.NoMemory }
{
    let bytes = scp_line::below::wire::encode(alloc, message)?;
    Ok(digits_of(alloc, bytes.as_slice())?)
}

/// The bytes of an envelope. `TooLong` only if it breaks a limit.
pub fn own_value(alloc: Global, own: &Envelope) -> Result<Value, Fault>
    ensures value { IfOk result (λ v. view v ≡ own_json own.now) }
    ensures only_memory { FitsOwn own.now → IsOkUnless result Fault.NoMemory }
{
    let bytes = scp_line::below::envelope::encode(alloc, own)?;
    Ok(digits_of(alloc, bytes.as_slice())?)
}
