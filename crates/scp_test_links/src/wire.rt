//! Messages as bytes and back: calls that are refused and made again, what is carried, what is a side message, and what fills a message.
use crate::bytes::*;
use scp_outbox::below::envelope::{Envelope, Pledges};
use scp_outbox::below::types::{Fault, Hash, NodeId, Slot};
use scp_outbox::below::wire::{Bytes, FittingMessage, Message, decode, encode, is_side_message};
use std::alloc::Global;
use std::process::Abort;
use std::test::*;

/// Whether the message and a copy of it are written as these bytes.
fn is_written(alloc: Global, message: &Message, bytes: &[u8]) -> Result<bool, Fault> {
    let copy = message.copy()?;
    let is_copied = encode(alloc, &copy)?.as_slice() == bytes;
    Ok(is_copied && encode(alloc, message)?.as_slice() == bytes)
}

/// Whether the bytes are read, and the message that they encode is written and copied as it was read. A call that runs out of memory is made
/// again. So any allocation may be refused, alone or with all later ones, and no assertion stops a test.
fn is_kept(alloc: Global, bytes: &[u8]) -> Result<bool, Fault> {
    let message = match decode(alloc, bytes) {
        Err(Fault::NoMemory) => decode(alloc, bytes)?,
        answer => answer?,
    };
    match is_written(alloc, &message, bytes) {
        Err(Fault::NoMemory) => is_written(alloc, &message, bytes),
        answer => answer,
    }
}

#[test]
fn refused_messages_are_read_written_and_copied_again(rt: HostRuntime) -> Result<(), Fail> {
    for bytes in [
        ENVELOPE.as_slice(),
        &PREPARE,
        &GET_SET,
        &TWO_OF_THREE,
        &NESTED,
        &FOUR_INNER_LEVELS,
        &NO_SET,
        &GET_RECORD,
        &RECORD,
        &ONE_BYTE,
        &BATCH,
    ] {
        assert!(rt; is_kept(rt.alloc(), bytes)?);
    }
    Ok(())
}

/// Whether the bytes encode a message that is carried, or a side message, as the arguments say. No beginning of them is a side message.
fn is_so(alloc: Global, bytes: &[u8], carried: bool, side: bool) -> Result<bool, Fault> {
    for len in 0..bytes.len() {
        if is_side_message(&bytes[..len]) {
            return Ok(false);
        }
    }
    Ok(decode(alloc, bytes)?.is_carried() == carried && is_side_message(bytes) == side)
}

#[test]
fn a_message_is_carried_or_aside_or_a_batch(rt: HostRuntime) -> Result<(), Fail> {
    for (bytes, carried, side) in [
        (ENVELOPE.as_slice(), true, false),
        (&GET_SET, false, true),
        (&TWO_OF_THREE, false, true),
        (&NESTED, false, true),
        (&NO_SET, false, true),
        (&GET_RECORD, true, false),
        (&RECORD, true, false),
        (&BATCH, false, false),
    ] {
        assert!(rt; is_so(rt.alloc(), bytes, carried, side)?);
    }
    Ok(())
}

/// Whether the first 65,536 bytes, which fill a message, encode a side message.
fn is_whole(bytes: &[u8; 65_548]) -> bool {
    is_side_message(&bytes[..65_536])
}

/// Whether all of the bytes encode a side message.
fn is_longer(bytes: &[u8; 65_548]) -> bool {
    is_side_message(bytes.as_slice())
}

#[test]
fn bytes_that_spell_no_side_message(rt: HostRuntime) {
    for kind in [0, 1, 5, 6, 7] {
        let mut other = NO_SET;
        other[3] = kind;
        assert!(rt; !is_side_message(&other));
    }
    // another type of key
    let mut wrong = TWO_OF_THREE;
    wrong[51] = 1;
    assert!(rt; !is_side_message(&wrong));
    assert!(rt; !is_side_message(&FIVE_INNER_LEVELS));
    // a set around sets of 1,000, 800 and 19 nodes fills a message; with one more set of no node it is too long
    let mut set = [0; 65_548];
    set[3] = 3;
    set[15] = 3;
    set[22..24].copy_from_slice(&[3, 0xe8]);
    set[36_034..36_036].copy_from_slice(&[3, 0x20]);
    set[64_847] = 19;
    assert!(rt; is_whole(&set));
    set[15] = 4;
    assert!(rt; !is_longer(&set));
}

/// Whether it is the envelope of `ENVELOPE`.
fn is_first(envelope: &Envelope) -> bool {
    let statement = &envelope.statement;
    match &statement.pledges {
        Pledges::Nominate(nominate) => {
            statement.node == NodeId([1; 32])
                && statement.slot == Slot(1)
                && envelope.signature.as_slice().is_empty()
                && nominate.set_hash.0.as_slice() == &ENVELOPE[52..84]
                && nominate.accepted.as_slice().is_empty()
                && matches!(nominate.votes.as_slice(), [value] if value.as_slice() == &RECORD[16..])
        }
        _ => false,
    }
}

/// Whether the message holds that envelope, copies it and shares it.
fn is_shared(message: &Message) -> Result<bool, Fault> {
    match message {
        Message::Envelope(envelope) => Ok(
            is_first(envelope.get())
                && is_first(envelope.copy()?.get())
                && is_first(envelope.share()?.get()),
        ),
        _ => Ok(false),
    }
}

#[test]
fn what_is_held_is_as_it_came(rt: HostRuntime) -> Result<(), Fail> {
    let bytes = Bytes::new(Vec::from_slice(rt.alloc(), &RECORD)?);
    assert_eq!(rt; bytes.as_slice(), RECORD.as_slice());
    let fitting = FittingMessage::of(Message::GetRecord(Slot(1)));
    assert!(rt; matches!(fitting.get(), Message::GetRecord(Slot(1))));
    assert!(rt; matches!(fitting.into_inner(), Message::GetRecord(Slot(1))));
    assert!(rt; is_shared(&decode(rt.alloc(), &ENVELOPE)?)?);
    Ok(())
}
