//! The encoding of link messages (RFC 4506; this project's profile).
//!
//! A `let _number = ..` that nothing uses shows the prover the range of that number.
ghost use Rattle.std.specs.Prelude.{◌≡◌, ◌≢◌, ◌<◌, ◌^◌, length, IfOk, IfErr, IsErrOf, ◌↔◌, ◌⊎◌, Ok, Err, Some, None};
ghost use Rattle.scp_quorum.specs.scp_xdr.specs.Kind.{Values};
ghost use Rattle.scp_quorum.specs.scp_xdr.specs.Reading.{start, read_uint32};
ghost use Rattle.scp_quorum.specs.scp_xdr.specs.Words.{Gives, IsReadingFault};
ghost use Rattle.scp_wire.specs.Carried.{is_side};
ghost use Rattle.scp_wire.specs.Fitting.{IsFitting};
ghost use Rattle.scp_wire.specs.Message.{message_kind, message_value, message_reading, SpellsMessage, FitsMessage, HasRanges, BreaksALimit};
ghost use Rattle.scp_wire.specs.Reading.{reading_of, ReadingIsSpelt, SpellingIsRead};
ghost use Rattle.scp_wire.specs.inside.Reading.{has_side_word};

use crate::boxed::BoxedEnvelope;
use crate::message::{MESSAGE_LIMIT, Message};
use scp_envelope::{Envelope, ValueList};
use scp_quorum::QuorumSet;
use scp_quorum::below::types::{Fault, Hash, Slot, Value};
use scp_quorum::below::xdr::{
    Reader, Writer, Xdr, check, numbered_fits, pass_numbered, read_numbered, spend_array,
    spend_u32, spend_u64, write_numbered,
};
use std::alloc::Global;

/// The discriminants of the kinds of messages.
const ENVELOPE: u32 = 1;

const GET_SET: u32 = 2;

const SET: u32 = 3;

const NO_SET: u32 = 4;

const GET_RECORD: u32 = 5;

const RECORD: u32 = 6;

const RECORDS: u32 = 7;

/// The most records of a batch (this project's profile).
pub const BATCH_LIMIT: u32 = 32;

impl Xdr for Message {
    ghost kind = { message_kind };

    ghost value = { message_value };

    fn read(alloc: Global, reader: &mut Reader<'_>) -> Result<Message, Fault> {
        let place = reader.place();
        match reader.u32()? {
            ENVELOPE => {
                let envelope = Envelope::read(alloc, reader)?;
                Ok(Message::Envelope(BoxedEnvelope::new(alloc, envelope)?))
            }
            GET_SET => Ok(Message::GetSet(Hash::read(alloc, reader)?)),
            SET => Ok(Message::Set(QuorumSet::read(alloc, reader)?)),
            NO_SET => Ok(Message::NoSet(Hash::read(alloc, reader)?)),
            GET_RECORD => Ok(Message::GetRecord(Slot(reader.u64()?))),
            RECORD => {
                let slot = Slot(reader.u64()?);
                Ok(Message::Record(slot, Value::read(alloc, reader)?))
            }
            RECORDS => {
                let (first, values) = read_numbered(alloc, BATCH_LIMIT, reader)?;
                Ok(Message::Records {
                    first: Slot(first),
                    values: ValueList::new(values),
                })
            }
            _ => Err(Fault::Malformed(place)),
        }
    }

    fn pass(reader: &mut Reader<'_>) -> Result<(), Fault> {
        let place = reader.place();
        match reader.u32()? {
            ENVELOPE => Envelope::pass(reader),
            GET_SET | NO_SET => Hash::pass(reader),
            SET => QuorumSet::pass(reader),
            GET_RECORD => {
                reader.u64()?;
                Ok(())
            }
            RECORD => {
                reader.u64()?;
                Value::pass(reader)
            }
            RECORDS => pass_numbered::<Value>(BATCH_LIMIT, reader),
            _ => Err(Fault::Malformed(place)),
        }
    }

    fn fits(&self) -> bool {
        match self {
            Message::Envelope(envelope) => envelope.get().fits(),
            Message::GetSet(hash) | Message::NoSet(hash) => hash.fits(),
            Message::Set(set) => set.fits(),
            Message::GetRecord(slot) => {
                let _number = slot.0;
                true
            }
            Message::Record(slot, value) => {
                let _number = slot.0;
                value.fits()
            }
            Message::Records { first, values } => {
                numbered_fits(BATCH_LIMIT, first.0, values.as_slice())
            }
        }
    }

    fn spend(&self, room: usize) -> Option<usize> {
        let left = spend_u32(room)?;
        match self {
            Message::Envelope(envelope) => envelope.get().spend(left),
            Message::GetSet(hash) | Message::NoSet(hash) => hash.spend(left),
            Message::Set(set) => set.spend(left),
            Message::GetRecord(slot) => {
                let _number = slot.0;
                spend_u64(left)
            }
            Message::Record(slot, value) => {
                let _number = slot.0;
                value.spend(spend_u64(left)?)
            }
            Message::Records { first, values } => {
                let _number = first.0;
                spend_array(values.as_slice(), spend_u64(left)?)
            }
        }
    }

    fn write(&self, writer: &mut Writer) -> Result<(), Fault> {
        match self {
            Message::Envelope(envelope) => {
                writer.u32(ENVELOPE)?;
                envelope.get().write(writer)?;
            }
            Message::GetSet(hash) => {
                writer.u32(GET_SET)?;
                hash.write(writer)?;
            }
            Message::Set(set) => {
                writer.u32(SET)?;
                set.write(writer)?;
            }
            Message::NoSet(hash) => {
                writer.u32(NO_SET)?;
                hash.write(writer)?;
            }
            Message::GetRecord(slot) => {
                writer.u32(GET_RECORD)?;
                writer.u64(slot.0)?;
            }
            Message::Record(slot, value) => {
                writer.u32(RECORD)?;
                writer.u64(slot.0)?;
                value.write(writer)?;
            }
            Message::Records { first, values } => {
                writer.u32(RECORDS)?;
                write_numbered(writer, BATCH_LIMIT, first.0, values.as_slice())?;
            }
        }
        Ok(())
    }
}

/// The message that all of the bytes encode: each message has one encoding (RFC 4506).
///
/// Over 65,536 bytes are `TooLong` before any of them is read. Else the first fault from left to right is answered: `Malformed` with its
/// place, or `TooLong` for a length or a count over its limit and for a fifth level of inner quorum sets. A batch without records is
/// malformed at its count, one past the last slot at its first slot. `NoMemory` comes last, if there is none for the envelope, the quorum
/// set or the values. Takes time in proportion to the bytes, and copies each value's bytes once.
pub fn decode(alloc: Global, bytes: &[u8]) -> Result<Message, Fault>
    // What is read is encoded by exactly these bytes.
    ensures found { IfOk result (λ m. SpellsMessage bytes.now (message_value m)) }
    // What is read breaks no limit.
    ensures fits { IfOk result IsFitting }
    // What is encoded is read, unless memory runs out.
    ensures only { (v : Values message_kind) → SpellsMessage bytes.now v → Gives message_value result (Ok v) }
    // Which fault is the first, and its place.
    ensures exact { Gives message_value result (message_reading bytes.now) }
    // What is read is the reading of the bytes.
    ensures reading { IfOk result (λ m. reading_of bytes.now ≡ Some m) }
    // Bytes that are refused have no reading, unless memory ran out.
    ensures none { IfErr result (λ f. f ≢ Fault.NoMemory → reading_of bytes.now ≡ None) }
    // They are malformed or too long.
    ensures faults { IfErr result (λ f. f ≢ Fault.NoMemory → IsReadingFault f) }
    // Memory is asked for last: it runs out only if the bytes encode a message.
    ensures memory_last { IsErrOf result Fault.NoMemory → (v : Values message_kind) × SpellsMessage bytes.now v }
{
    if bytes.len() > MESSAGE_LIMIT {
        return Err(Fault::TooLong);
    }
    scp_quorum::below::xdr::decode(alloc, bytes)
}

/// The one encoding of the message (RFC 4506). `TooLong` exactly where it breaks a limit. These are 4,096 bytes a value, an
/// envelope's and a quorum set's own, 1 to 32 records a batch, none past the last slot, and 65,536 bytes in all.
pub fn encode(alloc: Global, message: &Message) -> Result<Vec<u8>, Fault>
    // What is written encodes the message.
    ensures spells { IfOk result (λ bytes. SpellsMessage bytes.items (message_value message.now)) }
    // It is too long exactly where it breaks a limit.
    ensures too_long { IsErrOf result Fault.TooLong ↔ ¬ (FitsMessage (message_value message.now)) }
    // That is where its value has over 4,096 bytes, or its envelope, quorum set or batch breaks one of its limits or has over 65,532 bytes.
    ensures limits { IsErrOf result Fault.TooLong ↔ BreaksALimit message.now }
    // There are two reasons to refuse.
    ensures only { IfErr result (λ f. (f ≡ Fault.NoMemory) ⊎ (f ≡ Fault.TooLong)) }
{
    see_ranges(message);
    scp_quorum::below::xdr::encode_within(alloc, MESSAGE_LIMIT, message)
}

/// The message's numbers are in the range of their types. Does nothing.
fn see_ranges(message: &Message)
    ensures { HasRanges message.now }
{
    match message {
        Message::GetSet(hash) | Message::NoSet(hash) => see_hash(*hash),
        Message::Envelope(_) | Message::Set(_) => {}
        Message::GetRecord(slot) | Message::Record(slot, _) => see_slot(*slot),
        Message::Records { first, .. } => see_slot(*first),
    }
}

fn see_hash(hash: Hash)
    ensures { length hash.0 ≡ 32 }
{}

fn see_slot(slot: Slot)
    ensures { slot.0 < 2 ^ 64 }
{}

/// Whether all of the bytes encode one message that isn't carried. Takes no memory, and looks only at the first word if
/// the bytes are of another kind.
pub fn is_side_message(bytes: &[u8]) -> bool
    ensures { result ≡ is_side (reading_of bytes.now) }
{
    if bytes.len() > MESSAGE_LIMIT {
        return false;
    }
    if !is_of_side_kind(bytes) {
        return false;
    }
    check::<Message>(bytes).is_ok()
}

/// Whether the first word is the discriminant of a message that isn't carried.
fn is_of_side_kind(bytes: &[u8]) -> bool
    ensures { result ≡ has_side_word (read_uint32 (start bytes.now)) }
{
    let mut reader = Reader::new(bytes);
    matches!(reader.u32(), Ok(GET_SET | SET | NO_SET))
}

/// Bytes that encode a message are read as that message.
pub fn what_is_spelt_is_read()
    ensures { SpellingIsRead }
{}

/// The reading of bytes is a message exactly where they encode it.
pub fn reading_of_is_what_is_spelt()
    ensures { ReadingIsSpelt }
{}
