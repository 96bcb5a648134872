mod items;

use crate::twice::{ballot_of, is_right_or_out_of_memory, value_of};
use scp_quorum::below::types::{Fault, Hash, NodeId, Value};
use scp_quorum::below::xdr::*;
use std::alloc::Global;
use std::test::*;

/// What is read from the bytes as a part of a value.
fn read_of<T: Xdr>(alloc: Global, bytes: &[u8]) -> Result<T, Fault> {
    T::read(alloc, &mut Reader::new(bytes))
}

/// Whether the value isn't written within this limit.
fn is_over<T: Xdr>(alloc: Global, limit: usize, value: &T) -> bool {
    matches!(encode_within(alloc, limit, value), Err(Fault::TooLong))
}

/// Whether the value is encoded as these bytes, and within a limit of their length but no smaller one.
/// Also whether it is read from them as a whole and as a part.
fn is_kept<T: Xdr + PartialEq>(alloc: Global, value: &T, bytes: &[u8]) -> Result<bool, Fault> {
    if !is_over(alloc, 0, value) || !is_over(alloc, bytes.len().saturating_sub(1), value) {
        return Ok(false);
    }
    if encode(alloc, value)?.as_slice() != bytes
        || encode_within(alloc, bytes.len(), value)?.as_slice() != bytes
    {
        return Ok(false);
    }
    if decode::<T>(alloc, bytes)? != *value {
        return Ok(false);
    }
    Ok(read_of::<T>(alloc, bytes)? == *value)
}

/// The node of 32 bytes of 7.
const NODE: [u8; 36] = [
    0, 0, 0, 0, 7, 7, 7, 7, 7, 7, 7, 7, 7, 7, 7, 7, 7, 7, 7, 7, 7, 7, 7, 7, 7, 7, 7, 7, 7, 7, 7, 7,
    7, 7, 7, 7,
];

/// The ballot of counter 3 with the value "abcde".
const BALLOT: [u8; 16] = [
    0, 0, 0, 3, 0, 0, 0, 5, b'a', b'b', b'c', b'd', b'e', 0, 0, 0,
];

/// If memory runs out, it is written and read again.
#[test]
fn names_and_ballots_are_written_and_read(rt: HostRuntime) -> Result<(), Fail> {
    let alloc = rt.alloc();
    assert!(rt; is_kept(alloc, &Hash([5; 32]), &[5; 32])?);
    assert!(rt; is_kept(alloc, &NodeId([7; 32]), &NODE)?);
    let ballot = ballot_of(alloc, 3, b"abcde")?;
    assert!(rt; is_right_or_out_of_memory(is_kept(alloc, &ballot, &BALLOT)));
    assert!(rt; is_kept(alloc, &ballot, &BALLOT)?);
    assert!(rt; is_kept(alloc, ballot.value.get(), &BALLOT[4..])?);
    Ok(())
}

#[test]
fn long_values_are_not_encoded(rt: HostRuntime) -> Result<(), Fail> {
    let value = Value::new(vec![in rt.alloc(); 1; 4_097]?);
    assert!(rt; matches!(encode(rt.alloc(), &value), Err(Fault::TooLong)));
    assert!(rt; is_over(rt.alloc(), 9_999, &value));
    Ok(())
}

/// What is written before an array or an optional.
const FLAG: [u8; 4] = [0, 0, 0, 1];

/// A writer of a flag.
fn flagged(alloc: Global) -> Result<Writer, Fault> {
    let mut writer = Writer::new(alloc);
    writer.flag(true)?;
    Ok(writer)
}

/// Whether these bytes were written after a flag. A refusal may leave a part of them, but the flag is still there.
fn is_behind_flag(writer: Writer, written: Result<(), Fault>, bytes: &[u8]) -> Result<bool, Fault> {
    let found = writer.into_vec();
    if !found.starts_with(&FLAG) {
        return Ok(false);
    }
    written?;
    Ok(found.len() == bytes.len().saturating_add(4) && found.ends_with(bytes))
}

/// A value of one byte and one of none, as an array.
const TWO_VALUES: [u8; 16] = [0, 0, 0, 2, 0, 0, 0, 1, 1, 0, 0, 0, 0, 0, 0, 0];

/// Whether the values fit an array of exactly two and 16 bytes, and are written so.
fn is_array_written(alloc: Global, values: &[Value]) -> Result<bool, Fault> {
    if !array_fits(2, values) || array_fits(1, values) {
        return Ok(false);
    }
    if spend_array(values, 16) != Some(0) || spend_array(values, 15).is_some() {
        return Ok(false);
    }
    let mut writer = flagged(alloc)?;
    let written = write_array(&mut writer, 2, values);
    is_behind_flag(writer, written, &TWO_VALUES)
}

/// Whether the array is read as these values, and passed over.
fn is_array_read(alloc: Global, values: &Vec<Value>) -> Result<bool, Fault> {
    let mut passing = Reader::new(&TWO_VALUES);
    if pass_array::<Value>(2, &mut passing).is_err() || passing.end().is_err() {
        return Ok(false);
    }
    let mut reader = Reader::new(&TWO_VALUES);
    let read = read_array::<Value>(alloc, 2, &mut reader)?;
    Ok(read == *values && reader.end().is_ok())
}

/// If memory runs out, the array is written by another writer, and read again.
#[test]
fn arrays_are_written_and_read(rt: HostRuntime) -> Result<(), Fail> {
    let alloc = rt.alloc();
    let mut values = Vec::new(alloc);
    values.push(value_of(alloc, &[1])?)?;
    values.push(value_of(alloc, &[])?)?;
    assert!(rt; is_right_or_out_of_memory(is_array_written(alloc, &values)));
    assert!(rt; is_array_written(alloc, &values)?);
    assert!(rt; is_right_or_out_of_memory(is_array_read(alloc, &values)));
    assert!(rt; is_array_read(alloc, &values)?);
    Ok(())
}

/// Whether the optional fits exactly the length of these bytes, and is written so.
fn is_optional_written<T: Xdr>(
    alloc: Global,
    item: &Option<T>,
    bytes: &[u8],
) -> Result<bool, Fault> {
    let len = bytes.len();
    if spend_optional(item, len) != Some(0) || spend_optional(item, len / 2).is_some() {
        return Ok(false);
    }
    if !optional_fits(item) {
        return Ok(false);
    }
    let mut writer = flagged(alloc)?;
    let written = write_optional(&mut writer, item);
    is_behind_flag(writer, written, bytes)
}

/// Whether the optional is read from the bytes, and passed over.
fn is_optional_read<T: Xdr + PartialEq>(
    alloc: Global,
    item: &Option<T>,
    bytes: &[u8],
) -> Result<bool, Fault> {
    let mut passing = Reader::new(bytes);
    if pass_optional::<T>(&mut passing).is_err() || passing.end().is_err() {
        return Ok(false);
    }
    let mut reader = Reader::new(bytes);
    let read = read_optional::<T>(alloc, &mut reader)?;
    Ok(read == *item && reader.end().is_ok())
}

/// Whether the optional is written as the bytes, and read from them.
fn is_optional<T: Xdr + PartialEq>(
    alloc: Global,
    item: &Option<T>,
    bytes: &[u8],
) -> Result<bool, Fault> {
    Ok(is_optional_written(alloc, item, bytes)? && is_optional_read(alloc, item, bytes)?)
}

/// A ballot as an optional that is there.
const SOME_BALLOT: [u8; 20] = [
    0, 0, 0, 1, 0, 0, 0, 3, 0, 0, 0, 5, b'a', b'b', b'c', b'd', b'e', 0, 0, 0,
];

/// If memory runs out, the optional is written by another writer, and read again.
#[test]
fn optionals_are_written_and_read(rt: HostRuntime) -> Result<(), Fail> {
    let alloc = rt.alloc();
    let mut bytes = [4; 36];
    bytes[..4].copy_from_slice(&FLAG);
    assert!(rt; is_optional(alloc, &Some(Hash([4; 32])), &bytes)?);
    assert!(rt; is_optional::<Hash>(alloc, &None, &[0; 4])?);
    let some = Some(ballot_of(alloc, 3, b"abcde")?);
    assert!(rt; is_right_or_out_of_memory(is_optional_written(alloc, &some, &SOME_BALLOT)));
    assert!(rt; is_optional_written(alloc, &some, &SOME_BALLOT)?);
    assert!(rt; is_right_or_out_of_memory(is_optional_read(alloc, &some, &SOME_BALLOT)));
    assert!(rt; is_optional_read(alloc, &some, &SOME_BALLOT)?);
    Ok(())
}

/// 4,294,967,295 items are announced; one value of one byte follows.
const ANNOUNCED: [u8; 12] = [255, 255, 255, 255, 0, 0, 0, 1, 9, 0, 0, 0];

/// Whether an array of at most this many items is refused with the fault when it is read,
/// and when it is passed over. Being out of memory is handed on.
fn is_refused<T: Xdr>(alloc: Global, max: u32, bytes: &[u8], fault: Fault) -> Result<bool, Fault> {
    if pass_array::<T>(max, &mut Reader::new(bytes)) != Err(fault) {
        return Ok(false);
    }
    match read_array::<T>(alloc, max, &mut Reader::new(bytes)).err() {
        Some(Fault::NoMemory) => Err(Fault::NoMemory),
        found => Ok(found == Some(fault)),
    }
}

/// However many items are announced, the first fault is that of the count or of what is missing.
#[test]
fn announced_items_take_no_memory(rt: HostRuntime) -> Result<(), Fail> {
    let alloc = rt.alloc();
    for (max, bytes, fault) in [
        (u32::MAX, ANNOUNCED.as_slice(), Fault::Malformed(12)),
        (u32::MAX - 1, &ANNOUNCED, Fault::TooLong),
        (0, &ANNOUNCED, Fault::TooLong),
        (u32::MAX, &ANNOUNCED[..3], Fault::Malformed(0)),
        (1, &TWO_VALUES, Fault::TooLong),
    ] {
        assert!(rt;
            is_refused::<Value>(alloc, max, bytes, fault)?,
            "{max} {bytes:?}"
        );
    }
    assert!(rt; is_refused::<Hash>(alloc, u32::MAX, &ANNOUNCED, Fault::Malformed(4))?);
    Ok(())
}
