//! The encoding of statements and envelopes (RFC 4506; Stellar-SCP.x).
//!
//! A `let _name = ..` that nothing uses shows the prover the range of that number.
ghost use Rattle.std.specs.Prelude.{◌↔◌, ◌⊎◌, ◌≡◌, IfOk, IfErr, IsErrOf, Ok};
ghost use Rattle.scp_xdr.specs.Kind.{Values, Fits, Spells};
ghost use Rattle.scp_xdr.specs.Reading.{reading_whole};
ghost use Rattle.scp_xdr.specs.Words.{Gives};
ghost use Rattle.scp_envelope.specs.Kinds.{prepare_kind, prepare_value, confirm_kind, confirm_value, externalize_kind, externalize_value, list_kind, nominate_kind, nominate_value, pledges_kind, pledges_value, statement_kind, statement_value, signature_kind, envelope_kind, envelope_value};

use crate::lists::ValueList;
use crate::signature::Signature;
use crate::statement::{Confirm, Envelope, Externalize, Nominate, Pledges, Prepare, Statement};
use scp_xdr::below::types::{Ballot, Fault, Hash, NodeId, Slot, Value};
use scp_xdr::{
    Reader, Writer, Xdr, array_fits, optional_fits, pass_array, pass_optional, read_array,
    read_optional, spend_array, spend_opaque, spend_optional, spend_u32, spend_u64, write_array,
    write_optional,
};
use std::alloc::Global;

/// How many values a nomination's list may have (this project's profile).
const LIST_LIMIT: u32 = 64;

/// How many bytes a signature may have.
const SIGNATURE_LIMIT: u32 = 64;

const PREPARE: u32 = 0;

const CONFIRM: u32 = 1;

const EXTERNALIZE: u32 = 2;

const NOMINATE: u32 = 3;

impl Xdr for ValueList {
    ghost kind = { list_kind };

    ghost value = { λ list. list };

    fn read(alloc: Global, reader: &mut Reader<'_>) -> Result<ValueList, Fault> {
        Ok(ValueList::new(read_array(alloc, LIST_LIMIT, reader)?))
    }

    fn pass(reader: &mut Reader<'_>) -> Result<(), Fault> {
        pass_array::<Value>(LIST_LIMIT, reader)
    }

    fn fits(&self) -> bool {
        array_fits(LIST_LIMIT, self.as_slice())
    }

    fn spend(&self, room: usize) -> Option<usize> {
        spend_array(self.as_slice(), room)
    }

    fn write(&self, writer: &mut Writer) -> Result<(), Fault> {
        write_array(writer, LIST_LIMIT, self.as_slice())
    }
}

impl Xdr for Signature {
    ghost kind = { signature_kind };

    ghost value = { λ signature. signature };

    fn read(alloc: Global, reader: &mut Reader<'_>) -> Result<Signature, Fault> {
        let bytes = reader.opaque(SIGNATURE_LIMIT)?;
        Ok(Signature::new(Vec::from_slice(alloc, bytes)?))
    }

    fn pass(reader: &mut Reader<'_>) -> Result<(), Fault> {
        reader.opaque(SIGNATURE_LIMIT)?;
        Ok(())
    }

    fn fits(&self) -> bool {
        self.as_slice().len() <= SIGNATURE_LIMIT as usize
    }

    fn spend(&self, room: usize) -> Option<usize> {
        spend_opaque(self.as_slice(), room)
    }

    fn write(&self, writer: &mut Writer) -> Result<(), Fault> {
        writer.opaque(SIGNATURE_LIMIT, self.as_slice())?;
        Ok(())
    }
}

impl Xdr for Prepare {
    ghost kind = { prepare_kind };

    ghost value = { prepare_value };

    fn read(alloc: Global, reader: &mut Reader<'_>) -> Result<Prepare, Fault> {
        let set_hash = Hash::read(alloc, reader)?;
        let ballot = Ballot::read(alloc, reader)?;
        let prepared = read_optional(alloc, reader)?;
        let prepared_prime = read_optional(alloc, reader)?;
        let n_commit = reader.u32()?;
        let n_high = reader.u32()?;
        Ok(Prepare {
            set_hash,
            ballot,
            prepared,
            prepared_prime,
            n_commit,
            n_high,
        })
    }

    fn pass(reader: &mut Reader<'_>) -> Result<(), Fault> {
        Hash::pass(reader)?;
        Ballot::pass(reader)?;
        pass_optional::<Ballot>(reader)?;
        pass_optional::<Ballot>(reader)?;
        reader.u32()?;
        reader.u32()?;
        Ok(())
    }

    fn fits(&self) -> bool {
        let _commit = self.n_commit;
        let _high = self.n_high;
        self.set_hash.fits()
            && self.ballot.fits()
            && optional_fits(&self.prepared)
            && optional_fits(&self.prepared_prime)
    }

    fn spend(&self, room: usize) -> Option<usize> {
        let left = self.set_hash.spend(room)?;
        let left = self.ballot.spend(left)?;
        let left = spend_optional(&self.prepared, left)?;
        let left = spend_optional(&self.prepared_prime, left)?;
        let left = spend_u32(left)?;
        spend_u32(left)
    }

    fn write(&self, writer: &mut Writer) -> Result<(), Fault> {
        self.set_hash.write(writer)?;
        self.ballot.write(writer)?;
        write_optional(writer, &self.prepared)?;
        write_optional(writer, &self.prepared_prime)?;
        writer.u32(self.n_commit)?;
        writer.u32(self.n_high)?;
        Ok(())
    }
}

impl Xdr for Confirm {
    ghost kind = { confirm_kind };

    ghost value = { confirm_value };

    fn read(alloc: Global, reader: &mut Reader<'_>) -> Result<Confirm, Fault> {
        let ballot = Ballot::read(alloc, reader)?;
        let n_prepared = reader.u32()?;
        let n_commit = reader.u32()?;
        let n_high = reader.u32()?;
        let set_hash = Hash::read(alloc, reader)?;
        Ok(Confirm {
            ballot,
            n_prepared,
            n_commit,
            n_high,
            set_hash,
        })
    }

    fn pass(reader: &mut Reader<'_>) -> Result<(), Fault> {
        Ballot::pass(reader)?;
        reader.u32()?;
        reader.u32()?;
        reader.u32()?;
        Hash::pass(reader)
    }

    fn fits(&self) -> bool {
        let _prepared = self.n_prepared;
        let _commit = self.n_commit;
        let _high = self.n_high;
        self.ballot.fits() && self.set_hash.fits()
    }

    fn spend(&self, room: usize) -> Option<usize> {
        let left = self.ballot.spend(room)?;
        let left = spend_u32(left)?;
        let left = spend_u32(left)?;
        let left = spend_u32(left)?;
        self.set_hash.spend(left)
    }

    fn write(&self, writer: &mut Writer) -> Result<(), Fault> {
        self.ballot.write(writer)?;
        writer.u32(self.n_prepared)?;
        writer.u32(self.n_commit)?;
        writer.u32(self.n_high)?;
        self.set_hash.write(writer)?;
        Ok(())
    }
}

impl Xdr for Externalize {
    ghost kind = { externalize_kind };

    ghost value = { externalize_value };

    fn read(alloc: Global, reader: &mut Reader<'_>) -> Result<Externalize, Fault> {
        let commit = Ballot::read(alloc, reader)?;
        let n_high = reader.u32()?;
        let set_hash = Hash::read(alloc, reader)?;
        Ok(Externalize {
            commit,
            n_high,
            set_hash,
        })
    }

    fn pass(reader: &mut Reader<'_>) -> Result<(), Fault> {
        Ballot::pass(reader)?;
        reader.u32()?;
        Hash::pass(reader)
    }

    fn fits(&self) -> bool {
        let _high = self.n_high;
        self.commit.fits() && self.set_hash.fits()
    }

    fn spend(&self, room: usize) -> Option<usize> {
        let left = self.commit.spend(room)?;
        let left = spend_u32(left)?;
        self.set_hash.spend(left)
    }

    fn write(&self, writer: &mut Writer) -> Result<(), Fault> {
        self.commit.write(writer)?;
        writer.u32(self.n_high)?;
        self.set_hash.write(writer)?;
        Ok(())
    }
}

impl Xdr for Nominate {
    ghost kind = { nominate_kind };

    ghost value = { nominate_value };

    fn read(alloc: Global, reader: &mut Reader<'_>) -> Result<Nominate, Fault> {
        let set_hash = Hash::read(alloc, reader)?;
        let votes = ValueList::read(alloc, reader)?;
        let accepted = ValueList::read(alloc, reader)?;
        Ok(Nominate {
            set_hash,
            votes,
            accepted,
        })
    }

    fn pass(reader: &mut Reader<'_>) -> Result<(), Fault> {
        Hash::pass(reader)?;
        ValueList::pass(reader)?;
        ValueList::pass(reader)
    }

    fn fits(&self) -> bool {
        self.set_hash.fits() && self.votes.fits() && self.accepted.fits()
    }

    fn spend(&self, room: usize) -> Option<usize> {
        let left = self.set_hash.spend(room)?;
        let left = self.votes.spend(left)?;
        self.accepted.spend(left)
    }

    fn write(&self, writer: &mut Writer) -> Result<(), Fault> {
        self.set_hash.write(writer)?;
        self.votes.write(writer)?;
        self.accepted.write(writer)?;
        Ok(())
    }
}

impl Xdr for Pledges {
    ghost kind = { pledges_kind };

    ghost value = { pledges_value };

    fn read(alloc: Global, reader: &mut Reader<'_>) -> Result<Pledges, Fault> {
        let place = reader.place();
        match reader.u32()? {
            PREPARE => Ok(Pledges::Prepare(Prepare::read(alloc, reader)?)),
            CONFIRM => Ok(Pledges::Confirm(Confirm::read(alloc, reader)?)),
            EXTERNALIZE => Ok(Pledges::Externalize(Externalize::read(alloc, reader)?)),
            NOMINATE => Ok(Pledges::Nominate(Nominate::read(alloc, reader)?)),
            _ => Err(Fault::Malformed(place)),
        }
    }

    fn pass(reader: &mut Reader<'_>) -> Result<(), Fault> {
        let place = reader.place();
        match reader.u32()? {
            PREPARE => Prepare::pass(reader),
            CONFIRM => Confirm::pass(reader),
            EXTERNALIZE => Externalize::pass(reader),
            NOMINATE => Nominate::pass(reader),
            _ => Err(Fault::Malformed(place)),
        }
    }

    fn fits(&self) -> bool {
        match self {
            Pledges::Prepare(prepare) => prepare.fits(),
            Pledges::Confirm(confirm) => confirm.fits(),
            Pledges::Externalize(externalize) => externalize.fits(),
            Pledges::Nominate(nominate) => nominate.fits(),
        }
    }

    fn spend(&self, room: usize) -> Option<usize> {
        let left = spend_u32(room)?;
        match self {
            Pledges::Prepare(prepare) => prepare.spend(left),
            Pledges::Confirm(confirm) => confirm.spend(left),
            Pledges::Externalize(externalize) => externalize.spend(left),
            Pledges::Nominate(nominate) => nominate.spend(left),
        }
    }

    fn write(&self, writer: &mut Writer) -> Result<(), Fault> {
        match self {
            Pledges::Prepare(prepare) => {
                writer.u32(PREPARE)?;
                prepare.write(writer)?;
            }
            Pledges::Confirm(confirm) => {
                writer.u32(CONFIRM)?;
                confirm.write(writer)?;
            }
            Pledges::Externalize(externalize) => {
                writer.u32(EXTERNALIZE)?;
                externalize.write(writer)?;
            }
            Pledges::Nominate(nominate) => {
                writer.u32(NOMINATE)?;
                nominate.write(writer)?;
            }
        }
        Ok(())
    }
}

impl Xdr for Statement {
    ghost kind = { statement_kind };

    ghost value = { statement_value };

    fn read(alloc: Global, reader: &mut Reader<'_>) -> Result<Statement, Fault> {
        let node = NodeId::read(alloc, reader)?;
        let slot = Slot(reader.u64()?);
        let pledges = Pledges::read(alloc, reader)?;
        Ok(Statement {
            node,
            slot,
            pledges,
        })
    }

    fn pass(reader: &mut Reader<'_>) -> Result<(), Fault> {
        NodeId::pass(reader)?;
        reader.u64()?;
        Pledges::pass(reader)
    }

    fn fits(&self) -> bool {
        let _number = self.slot.0;
        self.node.fits() && self.pledges.fits()
    }

    fn spend(&self, room: usize) -> Option<usize> {
        let left = self.node.spend(room)?;
        let left = spend_u64(left)?;
        self.pledges.spend(left)
    }

    fn write(&self, writer: &mut Writer) -> Result<(), Fault> {
        self.node.write(writer)?;
        writer.u64(self.slot.0)?;
        self.pledges.write(writer)?;
        Ok(())
    }
}

impl Xdr for Envelope {
    ghost kind = { envelope_kind };

    ghost value = { envelope_value };

    fn read(alloc: Global, reader: &mut Reader<'_>) -> Result<Envelope, Fault> {
        let statement = Statement::read(alloc, reader)?;
        let signature = Signature::read(alloc, reader)?;
        Ok(Envelope {
            statement,
            signature,
        })
    }

    fn pass(reader: &mut Reader<'_>) -> Result<(), Fault> {
        Statement::pass(reader)?;
        Signature::pass(reader)
    }

    fn fits(&self) -> bool {
        self.statement.fits() && self.signature.fits()
    }

    fn spend(&self, room: usize) -> Option<usize> {
        let left = self.statement.spend(room)?;
        self.signature.spend(left)
    }

    fn write(&self, writer: &mut Writer) -> Result<(), Fault> {
        self.statement.write(writer)?;
        self.signature.write(writer)?;
        Ok(())
    }
}

/// The envelope that all of the bytes encode (RFC 4506; at most 4,096 bytes in a value, 64 values in a list and 64
/// bytes in a signature). The first fault from left to right is answered before memory is taken: `Malformed` with its
/// place, or `TooLong` for a length or a count over its limit. Copies each value's bytes once.
pub fn decode(alloc: Global, bytes: &[u8]) -> Result<Envelope, Fault>
    // What is read is encoded by exactly these bytes.
    ensures found { IfOk result (λ e. Spells envelope_kind bytes.now (envelope_value e)) }
    // What is encoded is read, unless memory runs out.
    ensures only { (v : Values envelope_kind) → Spells envelope_kind bytes.now v → Gives envelope_value result (Ok v) }
    // Which fault is the first, and its place.
    ensures exact { Gives envelope_value result (reading_whole envelope_kind bytes.now) }
    // Memory runs out only if the bytes encode an envelope.
    ensures memory_last { IsErrOf result Fault.NoMemory → (v : Values envelope_kind) × Spells envelope_kind bytes.now v }
{
    scp_xdr::decode(alloc, bytes)
}

/// The one encoding of the envelope (RFC 4506). `TooLong` exactly where a value has over 4,096 bytes, a list over 64
/// values or the signature over 64 bytes. The only other refusal is `NoMemory`.
pub fn encode(alloc: Global, envelope: &Envelope) -> Result<Vec<u8>, Fault>
    // What is written encodes the envelope.
    ensures spells { IfOk result (λ bytes. Spells envelope_kind bytes.items (envelope_value envelope.now)) }
    // It is too long exactly where it breaks a limit.
    ensures too_long { IsErrOf result Fault.TooLong ↔ ¬ (Fits envelope_kind (envelope_value envelope.now)) }
    // There are two reasons to refuse.
    ensures only { IfErr result (λ f. (f ≡ Fault.NoMemory) ⊎ (f ≡ Fault.TooLong)) }
{
    scp_xdr::encode(alloc, envelope)
}
