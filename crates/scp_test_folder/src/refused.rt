//! Each call of a folder refused in turn.

use crate::content::Content;
use crate::memory::MemoryFolder;
use crate::refusing::Refuses;
use crate::starting::start;
use crate::switching::{Epoch, Seam, begun, found, switch};
use scp_live_head::below::types::Fault;
use std::alloc::Global;
use std::process::Abort;
use std::test::Fail;

/// How many calls a start and a switch do: `now` is read, `next` and the second name are removed and that is synced; the log is read, cut and
/// synced. Then `next` is written, the second name is given and both are synced; `next` is renamed and that is synced.
const CALLS: u64 = 12;

/// A start and a switch in a folder that refuses each call behind so many.
fn run(alloc: Global, folder: &mut MemoryFolder, calls: u64, late: bool) -> Result<(), Fault> {
    let mut kept = start(alloc, Refuses::new(folder, calls, late))?.kept;
    switch(alloc, &mut kept, 2, 12)
}

/// Whether a run that is refused behind so many calls says so, and leaves one of two epochs.
fn leaves_one(
    alloc: Global,
    content: &Content,
    seam: &Seam<'_>,
    (calls, late): (u64, bool),
) -> Result<bool, Fault> {
    let mut folder = MemoryFolder::new(alloc, content.copy(alloc)?);
    match run(alloc, &mut folder, calls, late) {
        Err(Fault::Device) => Ok(found(alloc, folder.content(), seam)?.is_some()),
        Err(fault) => Err(fault),
        Ok(()) => Ok(false),
    }
}

/// Whether a run that is refused at any call leaves one of two epochs, and a run that isn't leaves the second.
fn leaves_one_at_each(alloc: Global, content: &Content, seam: &Seam<'_>) -> Result<bool, Fault> {
    for calls in 0..CALLS {
        if !leaves_one(alloc, content, seam, (calls, false))?
            || !leaves_one(alloc, content, seam, (calls, true))?
        {
            return Ok(false);
        }
    }
    let mut whole = MemoryFolder::new(alloc, content.copy(alloc)?);
    run(alloc, &mut whole, CALLS, false)?;
    Ok(whole.content().is_same(seam.after.content))
}

/// From a folder at rest, and from each that a switch leaves before its rename.
#[test]
fn each_refused_call_leaves_one_epoch(rt: HostRuntime) -> Result<(), Fail> {
    let alloc = rt.alloc();
    let mut kept = begun(alloc)?;
    let before = kept.log().folder().content().copy(alloc)?;
    let moment = kept.log().folder().past().len();
    switch(alloc, &mut kept, 2, 12)?;
    let folder = kept.log().folder();
    let seam = Seam {
        before: Epoch {
            number: 1,
            entries: 2,
            content: &before,
        },
        after: Epoch {
            number: 2,
            entries: 1,
            content: folder.content(),
        },
    };
    for content in folder.past().iter().skip(moment) {
        assert!(rt; leaves_one_at_each(alloc, content, &seam)?);
    }
    Ok(())
}
