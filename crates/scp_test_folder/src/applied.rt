//! The file of what ended epochs applied.

use scp_live_head::Applied;
use scp_live_head::below::live_log::MemoryLog;
use scp_live_head::below::types::Fault;
use std::alloc::Global;
use std::process::Abort;
use std::test::Fail;

/// Three slots, and where the line of each ends.
const FILE: &[u8] = b"3 6162\n4 63\n5 \n";

const ENDS: [(u64, usize); 3] = [(3, 7), (4, 12), (5, 15)];

/// Files with a line that doesn't count, the first slot of an epoch, and how many bytes are kept.
const FILES: [(&[u8], u64, usize); 6] = [
    (b"3 61\n5 62\n", 9, 5),
    (b"3 61\n3 62\n", 9, 5),
    (b"3 61\n04 62\n", 9, 5),
    (b"3 61\n4 6G\n5 62\n", 9, 5),
    (b"3 61\n4 AA\n5 62\n", 9, 5),
    (b"3  61\n4 62\n", 9, 0),
];

/// What is kept of a file where the present epoch begins with this slot.
fn kept(alloc: Global, file: &[u8], first: u64) -> Result<MemoryFile, Fault> {
    let mut applied = Applied::new(MemoryLog::new(alloc, Vec::from_slice(alloc, file)?));
    applied.recover(alloc, first)?;
    Ok(applied)
}

type MemoryFile = Applied<MemoryLog>;

/// How many bytes of a front of the file are kept.
fn size_of(end: usize, first: u64) -> usize {
    let mut size = 0;
    for (slot, line_end) in ENDS {
        if slot < first && line_end <= end {
            size = line_end;
        }
    }
    size
}

#[test]
fn each_front_of_the_file_is_cut_behind_its_last_line(rt: HostRuntime) -> Result<(), Fail> {
    let alloc = rt.alloc();
    for end in 0..FILE.len() + 1 {
        for first in 0..8 {
            let applied = kept(alloc, &FILE[..end], first)?;
            let size = size_of(end, first);
            assert_eq!(rt; applied.file().bytes().len(), size, "{end} {first}");
            assert!(rt; FILE.starts_with(applied.file().bytes()), "{end} {first}");
        }
    }
    Ok(())
}

#[test]
fn a_line_that_is_not_the_next_one_is_cut_off(rt: HostRuntime) -> Result<(), Fail> {
    let alloc = rt.alloc();
    for (file, first, size) in FILES {
        let applied = kept(alloc, file, first)?;
        assert_eq!(rt; applied.file().bytes().len(), size);
        assert!(rt; file.starts_with(applied.file().bytes()));
    }
    Ok(())
}

#[test]
fn what_was_applied_is_added_line_by_line(rt: HostRuntime) -> Result<(), Fail> {
    let alloc = rt.alloc();
    let mut applied = Applied::new(MemoryLog::new(alloc, Vec::new(alloc)));
    let mut values = Vec::new(alloc);
    for value in [b"ab".as_slice(), b"c", b""] {
        values.push(Vec::from_slice(alloc, value)?)?;
    }
    applied.add(alloc, 3, values.as_slice())?;
    assert!(rt; applied.file().bytes() == FILE);
    Ok(())
}
