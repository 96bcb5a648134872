//! The messages of a link.
ghost use Rattle.std.specs.Prelude.{◌≡◌, IfOk, IsOkUnless};
ghost use Rattle.scp_wire.specs.Carried.{is_carried};

use crate::boxed::BoxedEnvelope;
use scp_envelope::ValueList;
use scp_quorum::QuorumSet;
use scp_quorum::below::types::{Fault, Hash, Slot, Value};

/// The most bytes that a link message may have (this project's profile).
pub const MESSAGE_LIMIT: usize = 65_536;

/// What goes over a link (this project's profile): an XDR union (RFC 4506, section 4.15) of the kinds below.
#[derive(Drop)]
pub enum Message {
    /// Kind 1: a statement of a node.
    Envelope(BoxedEnvelope),
    /// Kind 2: asks for the quorum set with this hash.
    GetSet(Hash),
    /// Kind 3: a quorum set, as an answer.
    Set(QuorumSet),
    /// Kind 4: the answer of a node that has no quorum set with this hash.
    NoSet(Hash),
    /// Kind 5: asks for the value that was decided for a slot.
    GetRecord(Slot),
    /// Kind 6: the value that was decided for a slot.
    Record(Slot, Value),
    /// Kind 7: the values that were decided for the slots from this one on, 1 to 32 of them. It is read as its records.
    Records { first: Slot, values: ValueList },
}

impl Message {
    /// Another message that equals this one. Shares an envelope; copies a quorum set, and the bytes of values.
    pub fn copy(&self) -> Result<Message, Fault>
        // The copy is the original.
        ensures same { IfOk result (λ m. m ≡ self.now) }
        // The only refusal is `NoMemory`.
        ensures only_memory { IsOkUnless result Fault.NoMemory }
    {
        match self {
            Message::Envelope(envelope) => Ok(Message::Envelope(envelope.copy()?)),
            Message::GetSet(hash) => Ok(Message::GetSet(*hash)),
            Message::Set(set) => Ok(Message::Set(set.copy()?)),
            Message::NoSet(hash) => Ok(Message::NoSet(*hash)),
            Message::GetRecord(slot) => Ok(Message::GetRecord(*slot)),
            Message::Record(slot, value) => Ok(Message::Record(*slot, value.copy()?)),
            Message::Records { first, values } => Ok(Message::Records {
                first: *first,
                values: values.copy()?,
            }),
        }
    }

    /// Whether the message is numbered on its connection. A side message isn't: one that asks for a quorum set, or
    /// answers that. Nor is a batch, since its records are.
    pub fn is_carried(&self) -> bool
        ensures { result ≡ is_carried self.now }
    {
        match self {
            Message::GetSet(_) | Message::Set(_) | Message::NoSet(_) | Message::Records { .. } =>
                false,
            Message::Envelope(_) | Message::GetRecord(_) | Message::Record(..) => true,
        }
    }
}
