//! The encodings of the types that all crates share.
//!
//! A `let _name = ..` that nothing uses shows the prover the range of that number, or the length of these bytes.
ghost use Rattle.scp_xdr.specs.Shared.{value_kind, hash_kind, node_kind, node_value, ballot_kind, ballot_value};

use crate::reader::Reader;
use crate::room::{spend_fixed, spend_opaque, spend_u32};
use crate::writer::Writer;
use crate::xdr::Xdr;
use scp_types::{Ballot, Fault, Hash, NodeId, SharedValue, Value};
use std::alloc::Global;

/// The most bytes of a value, as a count of XDR.
const VALUE_LIMIT: u32 = scp_types::VALUE_LIMIT as u32;

impl Xdr for Value {
    ghost kind = { value_kind };

    ghost value = { λ v. v };

    fn read(alloc: Global, reader: &mut Reader<'_>) -> Result<Value, Fault> {
        let bytes = reader.opaque(VALUE_LIMIT)?;
        Ok(Value::new(Vec::from_slice(alloc, bytes)?))
    }

    fn pass(reader: &mut Reader<'_>) -> Result<(), Fault> {
        reader.opaque(VALUE_LIMIT)?;
        Ok(())
    }

    fn fits(&self) -> bool {
        self.as_slice().len() <= VALUE_LIMIT as usize
    }

    fn spend(&self, room: usize) -> Option<usize> {
        spend_opaque(self.as_slice(), room)
    }

    fn write(&self, writer: &mut Writer) -> Result<(), Fault> {
        writer.opaque(VALUE_LIMIT, self.as_slice())?;
        Ok(())
    }
}

impl Xdr for Hash {
    ghost kind = { hash_kind };

    ghost value = { λ h. h.0 };

    fn read(_alloc: Global, reader: &mut Reader<'_>) -> Result<Hash, Fault> {
        Ok(Hash(reader.fixed()?))
    }

    fn pass(reader: &mut Reader<'_>) -> Result<(), Fault> {
        reader.fixed::<32>()?;
        Ok(())
    }

    fn fits(&self) -> bool {
        let _bytes = self.0;
        true
    }

    fn spend(&self, room: usize) -> Option<usize> {
        spend_fixed(&self.0, room)
    }

    fn write(&self, writer: &mut Writer) -> Result<(), Fault> {
        writer.fixed(&self.0)?;
        Ok(())
    }
}

impl Xdr for NodeId {
    ghost kind = { node_kind };

    ghost value = { node_value };

    fn read(_alloc: Global, reader: &mut Reader<'_>) -> Result<NodeId, Fault> {
        let place = reader.place();
        match reader.u32()? {
            0 => Ok(NodeId(reader.fixed()?)),
            _ => Err(Fault::Malformed(place)),
        }
    }

    fn pass(reader: &mut Reader<'_>) -> Result<(), Fault> {
        let place = reader.place();
        match reader.u32()? {
            0 => {
                reader.fixed::<32>()?;
                Ok(())
            }
            _ => Err(Fault::Malformed(place)),
        }
    }

    fn fits(&self) -> bool {
        let _bytes = self.0;
        true
    }

    fn spend(&self, room: usize) -> Option<usize> {
        let left = spend_u32(room)?;
        spend_fixed(&self.0, left)
    }

    fn write(&self, writer: &mut Writer) -> Result<(), Fault> {
        writer.u32(0)?;
        writer.fixed(&self.0)?;
        Ok(())
    }
}

impl Xdr for Ballot {
    ghost kind = { ballot_kind };

    ghost value = { ballot_value };

    fn read(alloc: Global, reader: &mut Reader<'_>) -> Result<Ballot, Fault> {
        let counter = reader.u32()?;
        let value = SharedValue::new(alloc, Value::read(alloc, reader)?)?;
        Ok(Ballot { counter, value })
    }

    fn pass(reader: &mut Reader<'_>) -> Result<(), Fault> {
        reader.u32()?;
        Value::pass(reader)
    }

    fn fits(&self) -> bool {
        let _counter = self.counter;
        self.value.get().fits()
    }

    fn spend(&self, room: usize) -> Option<usize> {
        let left = spend_u32(room)?;
        self.value.get().spend(left)
    }

    fn write(&self, writer: &mut Writer) -> Result<(), Fault> {
        writer.u32(self.counter)?;
        self.value.get().write(writer)
    }
}
