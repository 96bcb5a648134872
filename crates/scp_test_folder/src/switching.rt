//! A log that is switched, and a start at each moment of it.

use crate::content::Content;
use crate::memory::MemoryFolder;
use crate::starting::{Started, batch, start};
use scp_live_folder::{Epochs, Folder};
use scp_live_head::below::live_log::Kept;
use scp_live_head::below::types::{Fault, Hash};
use scp_live_head::{FirstLine, Head};
use std::alloc::{AllocError, Global};
use std::process::Abort;
use std::test::Fail;

/// The first lines of an epoch.
fn header(alloc: Global, epoch: u64, first: u64) -> Result<Vec<u8>, AllocError> {
    let line = FirstLine::new(Hash([1; 32]), epoch, first, Hash([2; 32]));
    let base = Vec::from_slice(alloc, b"a state")?;
    let mut said = Vec::new(alloc);
    said.push(Vec::from_slice(alloc, b"a statement")?)?;
    Head::new(line, base, said).bytes(alloc)
}

/// Keeps a batch of one entry.
fn keep<D: Folder>(alloc: Global, kept: &mut Kept<Epochs<D>>, line: &[u8]) -> Result<(), Fault> {
    let entries = batch(alloc, line)?;
    kept.keep(alloc, entries.as_slice(), String::new(alloc))?;
    Ok(())
}

/// Ends the epoch. The next one has this number and this first slot, and begins with one entry.
pub fn switch<D: Folder>(
    alloc: Global,
    kept: &mut Kept<Epochs<D>>,
    epoch: u64,
    first: u64,
) -> Result<(), Fault> {
    let header = header(alloc, epoch, first)?;
    let entries = batch(alloc, b"open bob")?;
    kept.switch(alloc, header.as_slice(), entries.as_slice())
}

/// A new node's log, with two entries.
pub fn begun(alloc: Global) -> Result<Kept<Epochs<MemoryFolder>>, Fault> {
    let folder = MemoryFolder::new(alloc, Content::new(alloc, b"")?);
    let mut kept = start(alloc, folder)?.kept;
    keep(alloc, &mut kept, b"open bob")?;
    keep(alloc, &mut kept, b"ask bob 1")?;
    Ok(kept)
}

/// An epoch: its number, how many entries its log has, and the folder.
#[derive(Drop)]
pub struct Epoch<'a> {
    pub number: u64,
    pub entries: usize,
    pub content: &'a Content,
}

/// Two epochs, one after the other.
#[derive(Drop)]
pub struct Seam<'a> {
    pub before: Epoch<'a>,
    pub after: Epoch<'a>,
}

/// Whether a start found this epoch, whole.
fn is_found(started: &Started<MemoryFolder>, epoch: &Epoch<'_>) -> bool {
    let log = started.kept.log();
    log.epoch() == epoch.number
        && started.entries.len() == epoch.entries
        && log.folder().content().is_same(epoch.content)
}

/// Which of two epochs a start finds from what a crash left: whether it is the second. None for anything else.
pub fn found(alloc: Global, left: &Content, seam: &Seam<'_>) -> Result<Option<bool>, Fault> {
    let started = start(alloc, MemoryFolder::new(alloc, left.copy(alloc)?))?;
    if is_found(&started, &seam.before) {
        return Ok(Some(false));
    }
    if is_found(&started, &seam.after) {
        return Ok(Some(true));
    }
    Ok(None)
}

/// Whether a start finds one of two epochs from what a crash left, also where the second name of `now` was lost.
fn finds_one(alloc: Global, left: &Content, seam: &Seam<'_>) -> Result<bool, Fault> {
    if found(alloc, left, seam)?.is_none() {
        return Ok(false);
    }
    let lost = left.unlinked(alloc, seam.before.number)?;
    Ok(found(alloc, &lost, seam)?.is_some())
}

/// The same, with each front of `next`.
fn finds_one_at_each_byte(alloc: Global, left: &Content, seam: &Seam<'_>) -> Result<bool, Fault> {
    for end in 0..left.next.len() + 1 {
        let torn = left.with_next(alloc, &left.next[..end])?;
        if !finds_one(alloc, &torn, seam)? {
            return Ok(false);
        }
    }
    Ok(true)
}

/// The same, from each of these contents.
fn finds_one_at_each(alloc: Global, contents: &[Content], seam: &Seam<'_>) -> Result<bool, Fault> {
    for left in contents {
        if !finds_one_at_each_byte(alloc, left, seam)? {
            return Ok(false);
        }
    }
    Ok(true)
}

/// Whether a start finds one of two epochs at each moment of a switch: behind the first so many contents of a folder, which are those before
/// it. The first and the last of the others are the two epochs.
fn is_one_at_each_moment(
    alloc: Global,
    folder: &MemoryFolder,
    moment: usize,
    seam: &Seam<'_>,
) -> Result<bool, Fault> {
    let Some(contents) = folder.past().get(moment..) else {
        return Ok(false);
    };
    // (as it was, with `next`, with its second name)
    Ok(
        contents.len() == 3
            && found(alloc, seam.before.content, seam)? == Some(false)
            && found(alloc, folder.content(), seam)? == Some(true)
            && finds_one_at_each(alloc, contents, seam)?,
    )
}

/// The number of an epoch, how many entries its log has, and the number of the next one.
const SWITCHES: [(u64, usize, u64); 2] = [(1, 2, 2), (2, 1, 3)];

/// Switches, and starts at each moment of it.
fn switches(
    alloc: Global,
    kept: &mut Kept<Epochs<MemoryFolder>>,
    (number, entries, next): (u64, usize, u64),
) -> Result<bool, Fault> {
    let before = kept.log().folder().content().copy(alloc)?;
    let moment = kept.log().folder().past().len();
    switch(alloc, kept, next, 12)?;
    let folder = kept.log().folder();
    let seam = Seam {
        before: Epoch {
            number,
            entries,
            content: &before,
        },
        after: Epoch {
            number: next,
            entries: 1,
            content: folder.content(),
        },
    };
    is_one_at_each_moment(alloc, folder, moment, &seam)
}

#[test]
fn a_start_at_each_moment_of_a_switch_finds_one_epoch(rt: HostRuntime) -> Result<(), Fail> {
    let alloc = rt.alloc();
    let mut kept = begun(alloc)?;
    for row in SWITCHES {
        assert!(rt; switches(alloc, &mut kept, row)?, "{}", row.0);
    }
    assert_eq!(rt; kept.log().folder().content().past.len(), 2);
    Ok(())
}
