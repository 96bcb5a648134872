//! What the items of one link are read as behind its last number. examples/stages.calls shows what they are read as before.
use crate::bytes::*;
use scp_outbox::below::types::{CARRIED_LIMIT, ConnId, Fault, NodeId};
use scp_outbox::below::wire::{Bytes, Carried, Cause, Inbound, LinkItem, LinkReader, Message};
use std::alloc::Global;
use std::process::Abort;
use std::test::*;

/// What comes over the link: the opening of a life, bytes on it, or its close; or nothing, when the rest of a batch is asked for.
#[derive(Clone, Copy, Debug)]
enum Comes {
    Opened(u32),
    Bytes(u32, &'static [u8]),
    Closed(u32),
    Nothing,
}

/// What was read, in short: the connection's life; for a carried message its number, and for a record its slot.
#[derive(Clone, Copy, Debug, PartialEq, Eq)]
enum Read {
    Opened(u32),
    Asks(u32, u64),
    Record(u32, u64, u64),
    Side(u32),
    Closed(u32, Cause),
    Other,
    Nothing,
    /// Something was left of a batch, and nothing was read.
    Rest,
}

fn conn(life: u32) -> ConnId {
    ConnId {
        from: NodeId([2; 32]),
        to: NodeId([1; 32]),
        life,
    }
}

fn carried(carried: &Carried) -> Read {
    let life = carried.conn.life;
    match carried.message.get() {
        Message::GetRecord(_) => Read::Asks(life, carried.seq.0),
        Message::Record(slot, _) => Read::Record(life, carried.seq.0, slot.0),
        _ => Read::Other,
    }
}

fn in_short(read: Option<Inbound>) -> Read {
    match read {
        None => Read::Nothing,
        Some(Inbound::Opened(conn)) => Read::Opened(conn.life),
        Some(Inbound::Carried(message)) => carried(&message),
        Some(Inbound::Side { conn, .. }) => Read::Side(conn.life),
        Some(Inbound::Closed { conn, cause }) => Read::Closed(conn.life, cause),
        Some(Inbound::Local(_)) => Read::Other,
    }
}

/// What the reader reads of what comes.
fn reads(reader: &mut LinkReader, alloc: Global, comes: Comes) -> Result<Read, Fault> {
    let item = match comes {
        Comes::Opened(life) => LinkItem::Opened(conn(life)),
        Comes::Bytes(life, bytes) => {
            LinkItem::Bytes(conn(life), Bytes::new(Vec::from_slice(alloc, bytes)?))
        }
        Comes::Closed(life) => LinkItem::Closed(conn(life)),
        Comes::Nothing => return Ok(in_short(reader.rest())),
    };
    if reader.has_rest() {
        return Ok(Read::Rest);
    }
    Ok(in_short(reader.take(alloc, item)?))
}

/// The first row that isn't read as it says.
fn first_wrong(
    reader: &mut LinkReader,
    alloc: Global,
    rows: &[(Comes, Read)],
) -> Result<Option<(Comes, Read)>, Fault> {
    for (comes, wanted) in rows {
        let seen = reads(reader, alloc, *comes)?;
        if seen != *wanted {
            return Ok(Some((*comes, seen)));
        }
    }
    Ok(None)
}

/// A second life: the numbers begin again at 0, and the rest of a batch comes before the next item.
const SECOND: [(Comes, Read); 6] = [
    (Comes::Bytes(2, &BATCH), Read::Record(2, 0, 1)),
    (Comes::Closed(2), Read::Rest),
    (Comes::Nothing, Read::Record(2, 1, 2)),
    (Comes::Closed(2), Read::Rest),
    (Comes::Nothing, Read::Record(2, 2, 3)),
    (Comes::Closed(2), Read::Closed(2, Cause::Link)),
];

/// With one number left, the first record of a batch has it, and the second ends the connection.
const ONE_LEFT: [(Comes, Read); 5] = [
    (Comes::Bytes(1, &BATCH), Read::Record(1, 999_999, 1)),
    (Comes::Nothing, Read::Closed(1, Cause::Spent)),
    (Comes::Nothing, Read::Nothing),
    (Comes::Bytes(1, &GET_RECORD), Read::Nothing),
    (Comes::Opened(2), Read::Opened(2)),
];

/// With none left, a side message may follow, and a batch ends the connection.
const A_BATCH_BEHIND: [(Comes, Read); 4] = [
    (Comes::Bytes(1, &GET_SET), Read::Side(1)),
    (Comes::Bytes(1, &BATCH), Read::Closed(1, Cause::Spent)),
    (Comes::Bytes(1, &GET_SET), Read::Nothing),
    (Comes::Opened(2), Read::Opened(2)),
];

/// A request ends the connection too.
const A_REQUEST_BEHIND: [(Comes, Read); 3] = [
    (Comes::Bytes(1, &GET_RECORD), Read::Closed(1, Cause::Spent)),
    (Comes::Bytes(1, &GET_RECORD), Read::Nothing),
    (Comes::Opened(2), Read::Opened(2)),
];

/// A reader of a link on whose first life this many requests came; `None` if one of them isn't read under its number.
fn asked(alloc: Global, count: u64) -> Result<Option<LinkReader>, Fault> {
    let mut reader = LinkReader::new(alloc);
    reads(&mut reader, alloc, Comes::Opened(1))?;
    for number in 0..count {
        let seen = reads(&mut reader, alloc, Comes::Bytes(1, &GET_RECORD))?;
        if seen != Read::Asks(1, number) {
            return Ok(None);
        }
    }
    Ok(Some(reader))
}

/// After this many requests the rows are read, and then a second life.
fn expect_end(
    rt: &impl Abort,
    alloc: Global,
    count: u64,
    rows: &[(Comes, Read)],
) -> Result<(), Fault> {
    let mut reader = asked(alloc, count)?.expect(rt, "numbers in turn");
    for rows in [rows, &SECOND] {
        let wrong = first_wrong(&mut reader, alloc, rows)?;
        assert!(rt; wrong.is_none(), "{wrong:?}");
    }
    Ok(())
}

#[test]
fn a_batch_that_passes_the_last_number_ends_the_connection(rt: HostRuntime) -> Result<(), Fail> {
    Ok(expect_end(&rt, rt.alloc(), CARRIED_LIMIT - 1, &ONE_LEFT)?)
}

#[test]
fn a_batch_behind_the_last_number_ends_the_connection(rt: HostRuntime) -> Result<(), Fail> {
    Ok(expect_end(&rt, rt.alloc(), CARRIED_LIMIT, &A_BATCH_BEHIND)?)
}

#[test]
fn a_request_behind_the_last_number_ends_the_connection(rt: HostRuntime) -> Result<(), Fail> {
    Ok(expect_end(&rt, rt.alloc(), CARRIED_LIMIT, &A_REQUEST_BEHIND)?)
}
