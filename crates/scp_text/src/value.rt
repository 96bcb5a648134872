//! Values and operations as text.
ghost use Rattle.std.specs.Prelude.{◌≡◌, ◌++◌, IfOk, OnOk, IsOkUnless, option_map, string_bytes};
ghost use Rattle.scp_kv.specs.scp_xdr.specs.Kind.{Values};
ghost use Rattle.scp_kv.specs.Op.{ops_kind, ops_value};
ghost use Rattle.scp_text.specs.Values.{bytes_text, bytes_in, hex_text, op_text, op_in, list_of, ops_text, value_text, value_by, value_in, put_in, del_in};
ghost use Rattle.scp_text.specs.Pieces.{items_in};

use crate::pieces::{digits, inside, items, word, write_digits};
use crate::term::{Term, read_all, write_all};
use scp_kv::below::types::{Fault, VALUE_LIMIT, Value};
use scp_kv::below::xdr::{
    Reader, Writer, Xdr, array_fits, encode_within, pass_array, read_array, spend_array,
    write_array,
};
use scp_kv::{Op, ops_of};
use std::alloc::Global;

/// The most bytes of an operation list (this project's profile).
const LIST_LIMIT: usize = VALUE_LIMIT;

/// The most operations of an operation list (this project's profile).
const COUNT_LIMIT: u32 = 64;

/// The operations of a value. Their XDR is that of an array: their count, and each of them.
#[derive(Drop)]
struct OpList(Vec<Op>);

impl Xdr for OpList {
    ghost kind = { ops_kind };

    ghost value = { λ list. ops_value list.0.items };

    fn read(alloc: Global, reader: &mut Reader<'_>) -> Result<OpList, Fault> {
        Ok(OpList(read_array(alloc, COUNT_LIMIT, reader)?))
    }

    fn pass(reader: &mut Reader<'_>) -> Result<(), Fault> {
        pass_array::<Op>(COUNT_LIMIT, reader)
    }

    fn fits(&self) -> bool {
        array_fits(COUNT_LIMIT, self.0.as_slice())
    }

    fn spend(&self, room: usize) -> Option<usize> {
        spend_array(self.0.as_slice(), room)
    }

    fn write(&self, writer: &mut Writer) -> Result<(), Fault> {
        write_array(writer, COUNT_LIMIT, self.0.as_slice())
    }
}

/// A key, or the value of a put.
#[tactic(auto, unfolding(crate::specs::Values::bytes_in))]
fn read_bytes(alloc: Global, text: &[u8]) -> Result<Option<Value>, Fault>
    ensures found { IfOk result (λ found. found ≡ bytes_in text.now) }
    ensures only_memory { IsOkUnless result Fault.NoMemory }
{
    if let Some(own) = word(text) {
        return Ok(Some(Value::new(Vec::from_slice(alloc, own.as_bytes())?)));
    }
    let Some(inner) = inside(b"hex(", text) else {
        return Ok(None);
    };
    match digits(alloc, inner)? {
        Some(bytes) => Ok(Some(Value::new(bytes))),
        None => Ok(None),
    }
}

/// Adds a key, or the value of a put: its own characters where it is a word of them, else its digits as `hex(..)`. The one refusal is
/// `NoMemory`.
#[tactic(auto, unfolding(crate::specs::Values::bytes_text))]
pub fn write_bytes(out: &mut String, bytes: &[u8]) -> Result<(), Fault>
    ensures added { OnOk result (string_bytes out.new ≡ string_bytes out.old ++ bytes_text bytes.now) }
    ensures only_memory { IsOkUnless result Fault.NoMemory }
{
    if let Some(own) = word(bytes) {
        out.push_str(own)?;
        return Ok(());
    }
    out.push_str("hex(")?;
    write_digits(out, bytes)?;
    out.push_str(")")?;
    Ok(())
}

/// What `put(KEY,VALUE)` says, by what stands inside.
fn read_put(alloc: Global, inner: &[u8]) -> Result<Option<Op>, Fault>
    ensures found { IfOk result (λ found. found ≡ put_in (items_in inner.now)) }
    ensures only_memory { IsOkUnless result Fault.NoMemory }
{
    let parts = items(alloc, inner)?;
    let [first, second] = parts.as_slice() else {
        return Ok(None);
    };
    let Some(key) = read_bytes(alloc, *first)? else {
        return Ok(None);
    };
    let Some(value) = read_bytes(alloc, *second)? else {
        return Ok(None);
    };
    Ok(Some(Op::Put(key, value)))
}

/// What `del(KEY)` says, by what stands inside.
fn read_del(alloc: Global, inner: &[u8]) -> Result<Option<Op>, Fault>
    ensures found { IfOk result (λ found. found ≡ del_in (items_in inner.now)) }
    ensures only_memory { IsOkUnless result Fault.NoMemory }
{
    let parts = items(alloc, inner)?;
    let [only] = parts.as_slice() else {
        return Ok(None);
    };
    match read_bytes(alloc, *only)? {
        Some(key) => Ok(Some(Op::Del(key))),
        None => Ok(None),
    }
}

impl Term for Op {
    ghost writes = { op_text };

    ghost reads = { op_in };

    #[tactic(auto, unfolding(crate::specs::Values::op_in))]
    fn read(alloc: Global, text: &[u8]) -> Result<Option<Op>, Fault> {
        if let Some(inner) = inside(b"put(", text) {
            return read_put(alloc, inner);
        }
        match inside(b"del(", text) {
            Some(inner) => read_del(alloc, inner),
            None => Ok(None),
        }
    }

    #[tactic(auto, unfolding(crate::specs::Values::op_text))]
    fn write(&self, out: &mut String) -> Result<(), Fault> {
        match self {
            Op::Put(key, value) => {
                out.push_str("put(")?;
                write_bytes(out, key.as_slice())?;
                out.push_str(",")?;
                write_bytes(out, value.as_slice())?;
            }
            Op::Del(key) => {
                out.push_str("del(")?;
                write_bytes(out, key.as_slice())?;
            }
        }
        out.push_str(")")?;
        Ok(())
    }
}

/// The value that is the operation list, within its limits.
fn value_of_list(alloc: Global, ops: Vec<Op>) -> Result<Option<Value>, Fault>
    ensures found { IfOk result (λ found. found ≡ list_of ops.items) }
    ensures only_memory { IsOkUnless result Fault.NoMemory }
{
    match encode_within(alloc, LIST_LIMIT, &OpList(ops)) {
        Ok(bytes) => Ok(Some(Value::new(bytes))),
        Err(Fault::TooLong) => Ok(None),
        Err(fault) => Err(fault),
    }
}

/// What `ops(..)` says, by what stands inside.
fn read_ops(alloc: Global, inner: &[u8]) -> Result<Option<Value>, Fault>
    ensures found { IfOk result (λ found. found ≡ value_by (Some inner.now) None) }
    ensures only_memory { IsOkUnless result Fault.NoMemory }
{
    let parts = items(alloc, inner)?;
    match read_all(alloc, parts.as_slice())? {
        Some(ops) => value_of_list(alloc, ops),
        None => Ok(None),
    }
}

/// What `hex(..)` says, by what stands inside.
fn read_hex(alloc: Global, inner: &[u8]) -> Result<Option<Value>, Fault>
    ensures found { IfOk result (λ found. found ≡ value_by None (Some inner.now)) }
    ensures only_memory { IsOkUnless result Fault.NoMemory }
{
    match digits(alloc, inner)? {
        Some(bytes) if bytes.len() <= LIST_LIMIT => Ok(Some(Value::new(bytes))),
        _ => Ok(None),
    }
}

/// Adds bytes in digits, or a dash for none.
fn write_hex(out: &mut String, bytes: &[u8]) -> Result<(), Fault>
    ensures added { OnOk result (string_bytes out.new ≡ string_bytes out.old ++ hex_text bytes.now) }
    ensures only_memory { IsOkUnless result Fault.NoMemory }
{
    match bytes {
        [] => out.push_str("-")?,
        [_, ..] => {
            out.push_str("hex(")?;
            write_digits(out, bytes)?;
            out.push_str(")")?;
        }
    }
    Ok(())
}

/// Adds an operation list.
fn write_ops(out: &mut String, ops: &[Op]) -> Result<(), Fault>
    ensures added { OnOk result (string_bytes out.new ≡ string_bytes out.old ++ ops_text ops.now) }
    ensures only_memory { IsOkUnless result Fault.NoMemory }
{
    out.push_str("ops(")?;
    write_all(out, ops)?;
    out.push_str(")")?;
    Ok(())
}

impl Term for Value {
    ghost writes = { value_text };

    ghost reads = { value_in };

    #[tactic(auto, unfolding(crate::specs::Values::value_in))]
    fn read(alloc: Global, text: &[u8]) -> Result<Option<Value>, Fault> {
        if text == b"-".as_slice() {
            return Ok(Some(Value::new(Vec::new(alloc))));
        }
        if let Some(inner) = inside(b"ops(", text) {
            return read_ops(alloc, inner);
        }
        match inside(b"hex(", text) {
            Some(inner) => read_hex(alloc, inner),
            None => Ok(None),
        }
    }

    #[tactic(auto, unfolding(crate::specs::Values::value_text))]
    fn write(&self, out: &mut String) -> Result<(), Fault> {
        match ops_of(*out.allocator(), self)? {
            Some(ops) => write_ops(out, ops.as_slice()),
            None => write_hex(out, self.as_slice()),
        }
    }
}
