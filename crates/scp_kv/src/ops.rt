ghost use Rattle.std.specs.Prelude.{◌≡◌, ◌↔◌, is_some, option_map, IfOk, IfSome, IsNone, IsTrue, IsErrOf, IsOkUnless};
ghost use Rattle.scp_xdr.specs.Kind.{opaque, Values};
ghost use Rattle.scp_xdr.specs.Reading.{reading};
ghost use Rattle.scp_xdr.specs.Words.{Decodes};
ghost use Rattle.scp_kv.specs.Op.{op_kind, ops_kind, op_value, ops_value, ops_in, IsOps};

use scp_xdr::below::types::{Fault, VALUE_LIMIT, Value};
use scp_xdr::{
    Reader, Writer, Xdr, array_fits, decode, is_spelling, pass_array, read_array, spend_array,
    spend_opaque, spend_u32, write_array,
};
use std::alloc::Global;

/// The most bytes of an operation list (this project's profile).
const LIST_LIMIT: usize = VALUE_LIMIT;

/// The most operations of an operation list (this project's profile).
const COUNT_LIMIT: u32 = 64;

/// The most bytes of a key (this project's profile).
pub const KEY_LIMIT: u32 = 64;

/// The most bytes of a value that is put at a key (this project's profile).
pub const ENTRY_LIMIT: u32 = 256;

/// One change of the state. In an operation list a key has at most 64 bytes, and a value at most 256. Its XDR is a
/// union: 0, the key and the value; or 1 and the key.
#[derive(Drop)]
pub enum Op {
    /// Sets a key to a value.
    Put(Value, Value),
    /// Takes a key out, if it is there.
    Del(Value),
}

/// The operations of a value. Their XDR is an array: their count, and each of them.
#[derive(Drop)]
struct OpList(Vec<Op>);

/// At most `max` bytes, after their length. A refusal leaves the reader anywhere.
pub fn read_bytes(alloc: Global, max: u32, reader: &mut Reader<'_>) -> Result<Value, Fault>
    ensures { Decodes (λ v. v) reader.new result (reading (opaque max) reader.old) }
{
    let bytes = reader.opaque(max)?;
    Ok(Value::new(Vec::from_slice(alloc, bytes)?))
}

impl Xdr for Op {
    ghost kind = { op_kind };

    ghost value = { op_value };

    fn read(alloc: Global, reader: &mut Reader<'_>) -> Result<Op, Fault> {
        let place = reader.place();
        match reader.u32()? {
            0 => {
                let key = read_bytes(alloc, KEY_LIMIT, reader)?;
                Ok(Op::Put(key, read_bytes(alloc, ENTRY_LIMIT, reader)?))
            }
            1 => Ok(Op::Del(read_bytes(alloc, KEY_LIMIT, reader)?)),
            _ => Err(Fault::Malformed(place)),
        }
    }

    fn pass(reader: &mut Reader<'_>) -> Result<(), Fault> {
        let place = reader.place();
        match reader.u32()? {
            0 => {
                reader.opaque(KEY_LIMIT)?;
                reader.opaque(ENTRY_LIMIT)?;
                Ok(())
            }
            1 => {
                reader.opaque(KEY_LIMIT)?;
                Ok(())
            }
            _ => Err(Fault::Malformed(place)),
        }
    }

    fn fits(&self) -> bool {
        match self {
            Op::Put(key, value) => {
                key.as_slice().len() <= KEY_LIMIT as usize
                    && value.as_slice().len() <= ENTRY_LIMIT as usize
            }
            Op::Del(key) => key.as_slice().len() <= KEY_LIMIT as usize,
        }
    }

    fn spend(&self, room: usize) -> Option<usize> {
        let left = spend_u32(room)?;
        match self {
            Op::Put(key, value) => {
                let left = spend_opaque(key.as_slice(), left)?;
                spend_opaque(value.as_slice(), left)
            }
            Op::Del(key) => spend_opaque(key.as_slice(), left),
        }
    }

    fn write(&self, writer: &mut Writer) -> Result<(), Fault> {
        match self {
            Op::Put(key, value) => {
                writer.u32(0)?;
                writer.opaque(KEY_LIMIT, key.as_slice())?;
                writer.opaque(ENTRY_LIMIT, value.as_slice())?;
            }
            Op::Del(key) => {
                writer.u32(1)?;
                writer.opaque(KEY_LIMIT, key.as_slice())?;
            }
        }
        Ok(())
    }
}

impl Xdr for OpList {
    ghost kind = { ops_kind };

    ghost value = { λ list. ops_value list.0.items };

    fn read(alloc: Global, reader: &mut Reader<'_>) -> Result<OpList, Fault> {
        Ok(OpList(read_array(alloc, COUNT_LIMIT, reader)?))
    }

    fn pass(reader: &mut Reader<'_>) -> Result<(), Fault> {
        pass_array::<Op>(COUNT_LIMIT, reader)
    }

    fn fits(&self) -> bool {
        array_fits(COUNT_LIMIT, self.0.as_slice())
    }

    fn spend(&self, room: usize) -> Option<usize> {
        spend_array(self.0.as_slice(), room)
    }

    fn write(&self, writer: &mut Writer) -> Result<(), Fault> {
        write_array(writer, COUNT_LIMIT, self.0.as_slice())
    }
}

/// `is_ops` of the value's bytes.
fn is_list(bytes: &[u8]) -> bool
    ensures lists { IsTrue result ↔ ((ops : Values ops_kind) × IsOps bytes.now ops) }
    ensures same { result ≡ is_some (ops_in bytes.now) }
{
    bytes.len() <= LIST_LIMIT && is_spelling::<OpList>(bytes)
}

/// `ops_of` of the value's bytes.
fn read_list(alloc: Global, bytes: &[u8]) -> Result<Option<Vec<Op>>, Fault>
    ensures same { IfOk result (λ found. option_map (λ ops. ops_value ops.items) found ≡ ops_in bytes.now) }
    ensures found { IfOk result (λ found. IfSome found (λ ops. IsOps bytes.now (ops_value ops.items))) }
    ensures none { IfOk result (λ found. IsNone found → ¬ ((ops : Values ops_kind) × IsOps bytes.now ops)) }
    ensures only_memory { IsOkUnless result Fault.NoMemory }
    ensures memory_last { IsErrOf result Fault.NoMemory → (ops : Values ops_kind) × IsOps bytes.now ops }
{
    if bytes.len() > LIST_LIMIT {
        return Ok(None);
    }
    match decode::<OpList>(alloc, bytes) {
        Ok(OpList(ops)) => Ok(Some(ops)),
        Err(fault) => match fault {
            Fault::NoMemory => Err(fault),
            _ => Ok(None),
        },
    }
}

/// Whether the value is an operation list: at most 4,096 bytes that are the XDR (RFC 4506, section 4) of an array of
/// at most 64 operations, with nothing after it. Four zero bytes are the empty list; no bytes are no list. Takes no
/// memory, and its time grows with the value's length.
pub fn is_ops(value: &Value) -> bool
    ensures lists { IsTrue result ↔ ((ops : Values ops_kind) × IsOps value.now ops) }
    ensures same { result ≡ is_some (ops_in value.now) }
{
    is_list(value.as_slice())
}

/// The operations of the value if it is an operation list (see `is_ops`), and `None` if it isn't. The only refusal is
/// `NoMemory`, and it comes only for an operation list. Goes over the bytes twice: first without memory, and then, if
/// they are a list, it copies each key and value once.
pub fn ops_of(alloc: Global, value: &Value) -> Result<Option<Vec<Op>>, Fault>
    ensures same { IfOk result (λ found. option_map (λ ops. ops_value ops.items) found ≡ ops_in value.now) }
    ensures found { IfOk result (λ found. IfSome found (λ ops. IsOps value.now (ops_value ops.items))) }
    ensures none { IfOk result (λ found. IsNone found → ¬ ((ops : Values ops_kind) × IsOps value.now ops)) }
    ensures only_memory { IsOkUnless result Fault.NoMemory }
    ensures memory_last { IsErrOf result Fault.NoMemory → (ops : Values ops_kind) × IsOps value.now ops }
{
    read_list(alloc, value.as_slice())
}
