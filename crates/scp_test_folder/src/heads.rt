//! First lines, written and read.

use scp_live_head::below::types::Hash;
use scp_live_head::{FirstLine, Head, HeadFault, epoch_in, read_beginning, read_head, slot_in};
use std::alloc::{AllocError, Global};
use std::process::Abort;
use std::test::Fail;

/// The first lines of an epoch: its number, its first slot, the state, own statements, and the text. The sums are Python's.
#[derive(Clone, Copy)]
struct Case {
    epoch: u64,
    first: u64,
    base: &'static [u8],
    said: &'static [&'static [u8]],
    text: &'static [u8],
}

const CASES: [Case; 2] = [
    Case {
        epoch: 2,
        first: 12,
        base: b"ab",
        said: &[b"c", b"\x00\xff"],
        text: b"scp_node 2 1111111111111111111111111111111111111111111111111111111111111111 2 12 2222222222222222222222222222222222222222222222222222222222222222\nbase 6162\nsaid 63\nsaid 00ff\n= aa4053495034bacf139e894b63a3bd7042ec86e71cdf72fadcf39c0d531cade8\n",
    },
    Case {
        epoch: 18_446_744_073_709_551_615,
        first: 1,
        base: b"",
        said: &[],
        text: b"scp_node 2 1111111111111111111111111111111111111111111111111111111111111111 18446744073709551615 1 2222222222222222222222222222222222222222222222222222222222222222\nbase -\n= 96b511ad2ff402b2c86ba429d3b7d1865a1b35528938bd2c718d8548ee75530c\n",
    },
];

/// The head of a case.
fn head_of(alloc: Global, case: &Case) -> Result<Head, AllocError> {
    let line = FirstLine::new(Hash([0x11; 32]), case.epoch, case.first, Hash([0x22; 32]));
    let mut said = Vec::new(alloc);
    for statement in case.said {
        said.push(Vec::from_slice(alloc, statement)?)?;
    }
    Ok(Head::new(line, Vec::from_slice(alloc, case.base)?, said))
}

/// Whether a head says what a case says.
fn says(head: &Head, case: &Case) -> bool {
    let line = head.line();
    let said = head.said();
    line.digest() == Hash([0x11; 32])
        && line.before() == Hash([0x22; 32])
        && (line.epoch(), line.first()) == (case.epoch, case.first)
        && head.base() == case.base
        && said.len() == case.said.len()
        && said
            .iter()
            .zip(case.said)
            .all(|(one, other)| one.as_slice() == *other)
}

/// The line by which these bytes are refused, if they are.
fn refusal(alloc: Global, bytes: &[u8]) -> Result<Option<usize>, AllocError> {
    match read_head(alloc, bytes) {
        Ok(_) => Ok(None),
        Err(HeadFault::Line(line)) => Ok(Some(line)),
        Err(HeadFault::NoMemory) => Err(AllocError),
    }
}

/// Whether a text is read as this case says, and what is behind it is left.
fn is_read(alloc: Global, case: &Case) -> Result<bool, AllocError> {
    let mut bytes = Vec::from_slice(alloc, case.text)?;
    bytes.extend_from_slice(b"+open bob\n")?;
    match read_head(alloc, &bytes) {
        Ok((head, size)) => Ok(size == case.text.len() && says(&head, case)),
        Err(HeadFault::Line(_)) => Ok(false),
        Err(HeadFault::NoMemory) => Err(AllocError),
    }
}

#[test]
fn a_head_is_one_text(rt: HostRuntime) -> Result<(), Fail> {
    let alloc = rt.alloc();
    for case in &CASES {
        let bytes = head_of(alloc, case)?.bytes(alloc)?;
        assert!(rt; bytes.as_slice() == case.text, "{}", case.epoch);
        assert!(rt; is_read(alloc, case)?, "{}", case.epoch);
    }
    Ok(())
}

/// A front lacks the line behind those that are whole in it.
#[test]
fn each_front_of_a_head_is_refused_by_its_line(rt: HostRuntime) -> Result<(), Fail> {
    let alloc = rt.alloc();
    for case in &CASES {
        let mut line = 1_usize;
        for (end, byte) in case.text.iter().enumerate() {
            let found = refusal(alloc, &case.text[..end])?;
            assert!(rt; found == Some(line), "{end}");
            if *byte == b'\n' {
                line = line.saturating_add(1);
            }
        }
        assert!(rt; refusal(alloc, case.text)?.is_none());
    }
    Ok(())
}

#[test]
fn a_head_with_another_byte_is_refused(rt: HostRuntime) -> Result<(), Fail> {
    let alloc = rt.alloc();
    for case in &CASES {
        for place in 0..case.text.len() {
            let mut bytes = Vec::from_slice(alloc, case.text)?;
            bytes[place] ^= 1;
            assert!(rt; refusal(alloc, &bytes)?.is_some(), "{place}");
        }
    }
    Ok(())
}

/// A log of a node without epochs is that of epoch 1, from slot 1, and so is an empty one.
#[test]
fn a_log_without_epochs_is_that_of_the_first(rt: HostRuntime) -> Result<(), Fail> {
    let alloc = rt.alloc();
    let cases: [(&[u8], (u64, u64)); 4] = [
        (b"", (1, 1)),
        (b"scp_node 1 00\n+open bob\n", (1, 1)),
        (CASES[0].text, (2, 12)),
        (CASES[1].text, (18_446_744_073_709_551_615, 1)),
    ];
    for (bytes, want) in cases {
        let head = read_beginning(alloc, bytes)?;
        assert!(rt; (epoch_in(&head), slot_in(&head)) == want);
    }
    Ok(())
}
