//! An entry of a history archive: what is kept of one ledger.
//!
//! A `let _ledger = ..` that nothing uses shows the prover the range of that number.
ghost use Rattle.std.specs.Prelude.{◌↔◌, ◌⊎◌, ◌≡◌, IfOk, IfErr, IsErrOf, IsTrue, Ok};
ghost use Rattle.scp_quorum.specs.scp_xdr.specs.Kind.{Values, Fits, Spells, spelling};
ghost use Rattle.scp_quorum.specs.scp_xdr.specs.Length.{spelled_len};
ghost use Rattle.scp_quorum.specs.scp_xdr.specs.Reading.{reading, reading_whole};
ghost use Rattle.scp_quorum.specs.scp_xdr.specs.Passing.{passing};
ghost use Rattle.scp_quorum.specs.scp_xdr.specs.Words.{Gives, Decodes, GoesPast, Leaves, Extends};
ghost use Rattle.scp_archive.specs.Entry.{entry_kind, entry_value, parts_kind, parts_value};

use scp_envelope::Envelope;
use scp_quorum::QuorumSet;
use scp_quorum::below::types::Fault;
use scp_quorum::below::xdr::{
    Reader, Writer, Xdr, array_fits, pass_array, read_array, spend_array, spend_u32, write_array,
};
use std::alloc::Global;

/// The most quorum sets of an entry (this project's profile).
pub const SET_LIMIT: u32 = 65_536;

/// The most messages of an entry (this project's profile).
pub const MESSAGE_LIMIT: u32 = 65_536;

/// The one version of entries.
const VERSION: u32 = 0;

/// What an archive keeps of one ledger (Stellar-ledger.x).
#[derive(Drop)]
pub struct Entry {
    /// Quorum sets that the messages of this entry name, or those of an entry after it.
    pub sets: Vec<QuorumSet>,
    /// The number of the ledger, which is its slot.
    pub ledger: u32,
    /// The messages by which the ledger was closed, as its publisher has them.
    pub messages: Vec<Envelope>,
}

/// The fields of an entry, after its version.
fn read_parts(alloc: Global, reader: &mut Reader<'_>) -> Result<Entry, Fault>
    ensures { Decodes parts_value reader.new result (reading parts_kind reader.old) }
{
    let sets = read_array(alloc, SET_LIMIT, reader)?;
    let ledger = reader.u32()?;
    let messages = read_array(alloc, MESSAGE_LIMIT, reader)?;
    Ok(Entry {
        sets,
        ledger,
        messages,
    })
}

/// Passes over the fields of an entry, without memory.
fn pass_parts(reader: &mut Reader<'_>) -> Result<(), Fault>
    ensures { GoesPast reader.new result (passing parts_kind reader.old) }
{
    pass_array::<QuorumSet>(SET_LIMIT, reader)?;
    reader.u32()?;
    pass_array::<Envelope>(MESSAGE_LIMIT, reader)
}

impl Xdr for Entry {
    ghost kind = { entry_kind };

    ghost value = { entry_value };

    fn read(alloc: Global, reader: &mut Reader<'_>) -> Result<Entry, Fault> {
        let place = reader.place();
        match reader.u32()? {
            VERSION => read_parts(alloc, reader),
            _ => Err(Fault::Malformed(place)),
        }
    }

    fn pass(reader: &mut Reader<'_>) -> Result<(), Fault> {
        let place = reader.place();
        match reader.u32()? {
            VERSION => pass_parts(reader),
            _ => Err(Fault::Malformed(place)),
        }
    }

    fn fits(&self) -> bool {
        let _ledger = self.ledger;
        array_fits(SET_LIMIT, &self.sets) && array_fits(MESSAGE_LIMIT, &self.messages)
    }

    fn spend(&self, room: usize) -> Option<usize> {
        let left = spend_u32(room)?;
        let left = spend_array(&self.sets, left)?;
        let left = spend_u32(left)?;
        spend_array(&self.messages, left)
    }

    fn write(&self, writer: &mut Writer) -> Result<(), Fault> {
        writer.u32(VERSION)?;
        write_array(writer, SET_LIMIT, &self.sets)?;
        writer.u32(self.ledger)?;
        write_array(writer, MESSAGE_LIMIT, &self.messages)
    }
}

/// The entry that all of the bytes encode (RFC 4506): version 0, at most 65,536 quorum sets and 65,536 messages, each within its own
/// limits. The first fault from left to right is answered before memory is taken: `Malformed` with its place, or `TooLong` for a length,
/// a count or a depth over its limit.
pub fn decode(alloc: Global, bytes: &[u8]) -> Result<Entry, Fault>
    // What is read is encoded by exactly these bytes.
    ensures found { IfOk result (λ e. Spells entry_kind bytes.now (entry_value e)) }
    // What is encoded is read, unless memory runs out.
    ensures only { (v : Values entry_kind) → Spells entry_kind bytes.now v → Gives entry_value result (Ok v) }
    // Which fault is the first, and its place.
    ensures exact { Gives entry_value result (reading_whole entry_kind bytes.now) }
    // Memory runs out only if the bytes encode an entry.
    ensures memory_last { IsErrOf result Fault.NoMemory → (v : Values entry_kind) × Spells entry_kind bytes.now v }
{
    scp_quorum::below::xdr::decode(alloc, bytes)
}

/// The one encoding of the entry (RFC 4506). `TooLong` exactly where a count is over its limit, or a quorum set or a message breaks one of
/// its own. The only other refusal is `NoMemory`.
pub fn encode(alloc: Global, entry: &Entry) -> Result<Vec<u8>, Fault>
    // What is written encodes the entry.
    ensures spells { IfOk result (λ bytes. Spells entry_kind bytes.items (entry_value entry.now)) }
    // It is too long exactly where it breaks a limit.
    ensures too_long { IsErrOf result Fault.TooLong ↔ ¬ (Fits entry_kind (entry_value entry.now)) }
    // There are two reasons to refuse.
    ensures only { IfErr result (λ f. (f ≡ Fault.NoMemory) ⊎ (f ≡ Fault.TooLong)) }
{
    scp_quorum::below::xdr::encode(alloc, entry)
}
