use crate::twice::{ballot_of, is_right_or_out_of_memory};
use scp_quorum::below::types::*;
use std::alloc::Global;
use std::test::*;

#[test]
fn names_are_ordered_by_their_parts(rt: HostRuntime) {
    let mut last_byte = [0; 32];
    last_byte[31] = 255;
    let mut first_byte = [0; 32];
    first_byte[0] = 1;
    let low = NodeId(last_byte);
    let high = NodeId(first_byte);
    assert!(rt; low < high);
    assert!(rt; Hash(last_byte) < Hash(first_byte));
    assert!(rt; Slot(1) < Slot(256));
    assert!(rt; Seq(255) < Seq(256));
    let life = |from: NodeId, to: NodeId, life: u32| ConnId { from, to, life };
    assert!(rt; life(low, high, 9) < life(high, low, 1));
    assert!(rt; life(low, low, 9) < life(low, high, 1));
    assert!(rt; life(low, high, 1) < life(low, high, 2));
}

/// This many bytes that aren't all alike.
fn counted(alloc: Global, len: u32) -> Result<Vec<u8>, Fault> {
    let mut bytes = Vec::new(alloc);
    for number in 0..len {
        let [_, _, high, low] = number.to_be_bytes();
        bytes.push(high ^ low)?;
    }
    Ok(bytes)
}

/// Whether a copy of the ballot equals it, and a copy of a copy of its value has these bytes.
fn is_copied(ballot: &Ballot, bytes: &[u8]) -> Result<bool, Fault> {
    let value = ballot.value.get().copy()?.copy()?;
    let is_value = value.as_slice() == bytes && value == *ballot.value.get();
    Ok(ballot.copy()? == *ballot && is_value && value.into_vec().as_slice() == bytes)
}

/// For values of each length, and ballots of each counter. A copy that is refused is made again.
#[test]
fn copies_are_the_same(rt: HostRuntime) -> Result<(), Fail> {
    for (counter, len) in [
        (0, 0),
        (1, 1),
        (u32::MAX, 2),
        (0, 3),
        (1, 31),
        (2, 32),
        (3, 33),
        (1, 255),
        (1, 256),
        (1, 4_095),
        (0, 4_096),
        (1, 4_097),
        (u32::MAX, 70_000),
    ] {
        let bytes = counted(rt.alloc(), len)?;
        let ballot = ballot_of(rt.alloc(), counter, &bytes)?;
        assert!(rt;
            is_right_or_out_of_memory(is_copied(&ballot, &bytes)),
            "of {len} bytes"
        );
        assert!(rt; is_copied(&ballot, &bytes)?, "of {len} bytes");
    }
    Ok(())
}

/// Whether the fault has this text.
fn is_shown(alloc: Global, fault: Fault, text: &str) -> Result<bool, Fail> {
    Ok(format!(in alloc; "{fault}")?.as_str() == text)
}

#[test]
fn faults_have_their_numbers_and_texts(rt: HostRuntime) -> Result<(), Fail> {
    let faults = [
        (Fault::NoMemory, 1, "no memory"),
        (Fault::Malformed(7), 2, "malformed at 7"),
        (Fault::TooLong, 3, "too long"),
        (Fault::Insane, 4, "insane quorum set"),
        (Fault::Full, 5, "full"),
        (Fault::NotOpen, 6, "not open"),
        (Fault::AlreadyOpen, 7, "already open"),
        (Fault::LivesSpent, 8, "lives spent"),
        (Fault::BadConfig, 9, "bad configuration"),
        (Fault::Failed, 10, "failed"),
        (Fault::JournalFull, 11, "journal full"),
        (Fault::BadScript(3), 12, "bad script at line 3"),
        (Fault::Refused(Stage::Pend), 13, "refused by a stage"),
        (Fault::Device, 14, "device"),
    ];
    for (fault, number, text) in faults {
        assert_eq!(rt; fault.number(), number);
        assert!(rt; is_shown(rt.alloc(), fault, text)?, "{text}");
    }
    Ok(())
}
