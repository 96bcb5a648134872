//! What a writer takes, and a reader gives.
use scp_quorum::below::types::Fault;
use scp_quorum::below::xdr::{Reader, Writer};
use std::test::*;

/// An item, after its limit if it has one.
#[derive(Clone, Copy, Debug)]
enum Item {
    Number(u32),
    Long(u64),
    Two([u8; 2]),
    Five([u8; 5]),
    Bytes(u32, &'static [u8]),
    Count(u32, u32),
    Flag(bool),
}

fn write_item(writer: &mut Writer, item: Item) -> Result<(), Fault> {
    match item {
        Item::Number(number) => writer.u32(number),
        Item::Long(number) => writer.u64(number),
        Item::Two(bytes) => writer.fixed(&bytes),
        Item::Five(bytes) => writer.fixed(&bytes),
        Item::Bytes(max, bytes) => writer.opaque(max, bytes),
        Item::Count(max, count) => writer.count(max, count as usize),
        Item::Flag(flag) => writer.flag(flag),
    }
}

/// Whether this is the next item.
fn is_next(reader: &mut Reader<'_>, item: Item) -> Result<bool, Fault> {
    Ok(match item {
        Item::Number(number) => reader.u32()? == number,
        Item::Long(number) => reader.u64()? == number,
        Item::Two(bytes) => reader.fixed::<2>()? == bytes,
        Item::Five(bytes) => reader.fixed::<5>()? == bytes,
        Item::Bytes(max, bytes) => reader.opaque(max)? == bytes,
        Item::Count(max, count) => reader.count(max)? == count,
        Item::Flag(flag) => reader.flag()? == flag,
    })
}

/// The file of RFC 4506, section 7.3: "sillyprog", of kind EXEC with interpreter "lisp", owned by
/// "john", with the data "(quit)".
const FILE: [Item; 5] = [
    Item::Bytes(255, b"sillyprog"),
    Item::Number(2),
    Item::Bytes(255, b"lisp"),
    Item::Bytes(32, b"john"),
    Item::Bytes(65_535, b"(quit)"),
];

/// Its bytes, as the standard has them.
const SILLYPROG: [u8; 48] = [
    0x00, 0x00, 0x00, 0x09, 0x73, 0x69, 0x6c, 0x6c, 0x79, 0x70, 0x72, 0x6f, 0x67, 0x00, 0x00, 0x00,
    0x00, 0x00, 0x00, 0x02, 0x00, 0x00, 0x00, 0x04, 0x6c, 0x69, 0x73, 0x70, 0x00, 0x00, 0x00, 0x04,
    0x6a, 0x6f, 0x68, 0x6e, 0x00, 0x00, 0x00, 0x06, 0x28, 0x71, 0x75, 0x69, 0x74, 0x29, 0x00, 0x00,
];

/// Items with their bytes.
const ENCODED: [(&[Item], &[u8]); 7] = [
    (&FILE, &SILLYPROG),
    (
        &[Item::Bytes(255, b"sillyprog")],
        &[
            0, 0, 0, 9, 0x73, 0x69, 0x6c, 0x6c, 0x79, 0x70, 0x72, 0x6f, 0x67, 0, 0, 0,
        ],
    ),
    (
        &[Item::Number(0x0102_0304), Item::Long(0x0506_0708_090a_0b0c)],
        &[1, 2, 3, 4, 5, 6, 7, 8, 9, 10, 11, 12],
    ),
    (
        &[Item::Number(9), Item::Five([7, 8, 9, 10, 11])],
        &[0, 0, 0, 9, 7, 8, 9, 10, 11, 0, 0, 0],
    ),
    (
        &[Item::Number(9), Item::Bytes(5, &[7, 8, 9, 10, 11])],
        &[0, 0, 0, 9, 0, 0, 0, 5, 7, 8, 9, 10, 11, 0, 0, 0],
    ),
    (
        &[Item::Number(9), Item::Count(3, 3)],
        &[0, 0, 0, 9, 0, 0, 0, 3],
    ),
    (
        &[
            Item::Five([7, 8, 9, 10, 11]),
            Item::Count(3, 3),
            Item::Flag(true),
            Item::Flag(false),
        ],
        &[7, 8, 9, 10, 11, 0, 0, 0, 0, 0, 0, 3, 0, 0, 0, 1, 0, 0, 0, 0],
    ),
];

/// Writes the items, each once more where memory runs out.
fn write_each(writer: &mut Writer, items: &[Item]) -> Result<(), Fault> {
    for item in items {
        if write_item(writer, *item) == Err(Fault::NoMemory) {
            write_item(writer, *item)?;
        }
    }
    Ok(())
}

/// Whether these bytes were written.
fn wrote(writer: Writer, bytes: &[u8]) -> bool {
    writer.into_vec().as_slice() == bytes
}

/// There is room for a part of the bytes, from none to all of them. A refusal leaves what was
/// written, and the item that is written then comes right after it.
#[test]
fn items_are_written(rt: HostRuntime) -> Result<(), Fail> {
    for (items, bytes) in ENCODED {
        for capacity in 0..=bytes.len() {
            let mut writer = Writer::with_capacity(rt.alloc(), capacity)?;
            write_each(&mut writer, items)?;
            assert!(rt; wrote(writer, bytes), "{items:?} {capacity}");
        }
    }
    Ok(())
}

/// Whether these items are read from the bytes, and nothing is left.
fn are_read(bytes: &[u8], items: &[Item]) -> bool {
    let mut reader = Reader::new(bytes);
    for item in items {
        if is_next(&mut reader, *item) != Ok(true) {
            return false;
        }
    }
    reader.place() == bytes.len() && reader.end().is_ok()
}

#[test]
fn items_are_read(rt: HostRuntime) {
    for (items, bytes) in ENCODED {
        assert!(rt; are_read(bytes, items), "{items:?}");
    }
}

/// Whether the item after a flag is refused with the fault, and the reader stays where it was.
fn is_refused(bytes: &[u8], item: Item, fault: Fault) -> bool {
    let mut reader = Reader::new(bytes);
    let mut same = Reader::new(bytes);
    reader.flag() == Ok(true)
        && same.flag() == Ok(true)
        && is_next(&mut reader, item) == Err(fault)
        && reader.place() == 4
        && reader.u32() == same.u32()
}

/// Items that come after a flag, with their bytes.
const BEHIND_FLAG: [(Item, &[u8]); 6] = [
    (Item::Number(7), &[0, 0, 0, 1, 0, 0, 0, 7]),
    (Item::Long(7), &[0, 0, 0, 1, 0, 0, 0, 0, 0, 0, 0, 7]),
    (Item::Five([1; 5]), &[0, 0, 0, 1, 1, 1, 1, 1, 1, 0, 0, 0]),
    (
        Item::Bytes(5, &[1; 5]),
        &[0, 0, 0, 1, 0, 0, 0, 5, 1, 1, 1, 1, 1, 0, 0, 0],
    ),
    (Item::Count(9, 7), &[0, 0, 0, 1, 0, 0, 0, 7]),
    (Item::Flag(true), &[0, 0, 0, 1, 0, 0, 0, 1]),
];

/// Bytes are cut within their length or after it, and other items where they begin.
#[test]
fn each_cut_has_its_place(rt: HostRuntime) {
    for (item, bytes) in BEHIND_FLAG {
        for end in 4..bytes.len() {
            let is_behind_length = end >= 8 && matches!(item, Item::Bytes(_, _));
            let fault = Fault::Malformed(if is_behind_length { 8 } else { 4 });
            assert!(rt;
                is_refused(&bytes[..end], item, fault),
                "{item:?} cut at {end}"
            );
        }
    }
}

/// An item after a flag, and the fault of these bytes. A length or a count over its limit comes
/// before missing bytes, and these before padding that isn't zero.
const WRONG: [(Item, &[u8], Fault); 10] = [
    (
        Item::Bytes(4, &[]),
        &[0, 0, 0, 1, 0, 0, 0, 5, 1],
        Fault::TooLong,
    ),
    (
        Item::Bytes(5, &[]),
        &[0, 0, 0, 1, 0, 0, 0, 5, 1],
        Fault::Malformed(8),
    ),
    (
        Item::Bytes(4_096, &[]),
        &[0, 0, 0, 1, 255, 255, 255, 255],
        Fault::TooLong,
    ),
    (
        Item::Bytes(u32::MAX, &[]),
        &[0, 0, 0, 1, 255, 255, 255, 255],
        Fault::Malformed(8),
    ),
    (
        Item::Bytes(8, &[]),
        &[0, 0, 0, 1, 0, 0, 0, 2, 7, 7, 0, 1],
        Fault::Malformed(11),
    ),
    (Item::Count(4, 5), &[0, 0, 0, 1, 0, 0, 0, 5], Fault::TooLong),
    (
        Item::Two([1, 2]),
        &[0, 0, 0, 1, 1, 2, 0, 9],
        Fault::Malformed(7),
    ),
    (
        Item::Two([1, 2]),
        &[0, 0, 0, 1, 1, 2, 9],
        Fault::Malformed(4),
    ),
    (
        Item::Flag(true),
        &[0, 0, 0, 1, 0, 0, 0, 2],
        Fault::Malformed(4),
    ),
    (
        Item::Flag(true),
        &[0, 0, 0, 1, 1, 0, 0, 0],
        Fault::Malformed(4),
    ),
];

#[test]
fn wrong_bytes_have_their_faults(rt: HostRuntime) {
    for (item, bytes, fault) in WRONG {
        assert!(rt; is_refused(bytes, item, fault), "{item:?} of {bytes:?}");
    }
}

/// A refusal leaves what was written.
#[test]
fn items_over_their_limits_are_not_written(rt: HostRuntime) -> Result<(), Fail> {
    for item in [Item::Bytes(2, b"abc"), Item::Count(2, 3)] {
        let mut writer = Writer::new(rt.alloc());
        writer.u32(1)?;
        assert_eq!(rt; write_item(&mut writer, item), Err(Fault::TooLong));
        assert!(rt; wrote(writer, &[0, 0, 0, 1]), "{item:?}");
    }
    Ok(())
}
