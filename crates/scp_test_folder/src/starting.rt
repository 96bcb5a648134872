//! A start from a folder that a crash may have left.
ghost use Rattle.std.specs.Prelude.{◌≡◌, ◌++◌, ◌∷◌, ℕ, take, drop, ◌+◌, IfOk, IfSome, IfNone, All};
ghost use Rattle.std.specs.Bool.{OnTrue};
ghost use Rattle.hex.specs.Hex.{IsBytes};
ghost use Rattle.scp_live_head.specs.scp_live_log.specs.Log.{IsLine, IsEntry};

use scp_live_folder::{Epochs, Folder};
use scp_live_head::below::live_log::{Entry, Kept, LogFault, Wanted};
use scp_live_head::below::types::{Fault, Hash};
use scp_live_head::{Head, HeadFault, epoch_in, read_beginning};
use std::alloc::{AllocError, Global};

/// The first line of the log of a node without epochs.
pub const PLAIN: &[u8] =
    b"scp_node 1 0000000000000000000000000000000000000000000000000000000000000000\n";

/// Where the first line ends, if it ends.
fn line_end(bytes: &[u8]) -> Option<usize>
    ensures found { IfSome result (λ n. bytes.now ≡ take n bytes.now ++ 10 ∷ drop (n + 1) bytes.now) }
    ensures none { IfNone result (IsLine bytes.now) }
{
    bytes.iter().position(|byte| *byte == b'\n')
}

/// Whether these bytes contain a line end.
fn has_end(bytes: &[u8]) -> bool
    ensures { OnTrue result (¬ (IsLine bytes.now)) }
{
    match line_end(bytes) {
        Some(_) => true,
        None => false,
    }
}

/// What is in memory as bytes is bytes.
fn are_bytes(bytes: &[u8])
    ensures { IsBytes bytes.now }
{}

/// The entry of a line and of the digest of what was sent for it.
fn entry_of(line: Vec<u8>, sent: Hash) -> Entry
    requires line { IsLine line.items }
    ensures entry { IsEntry result }
{
    are_bytes(&sent.0);
    Entry::new(line, sent)
}

/// One entry.
fn one(alloc: Global, entry: Entry) -> Result<Vec<Entry>, AllocError>
    requires entry { IsEntry entry }
    ensures entries { IfOk result (λ entries. All IsEntry entries.items) }
{
    let mut entries = Vec::new(alloc);
    entries.push(entry)?;
    Ok(entries)
}

/// A batch of one entry with this line, or an empty one for more than a line.
pub fn batch(alloc: Global, line: &[u8]) -> Result<Vec<Entry>, AllocError>
    ensures entries { IfOk result (λ entries. All IsEntry entries.items) }
{
    let copy = Vec::from_slice(alloc, line)?;
    match line_end(copy.as_slice()) {
        Some(_) => Ok(Vec::new(alloc)),
        None => one(alloc, entry_of(copy, Hash([7; 32]))),
    }
}

/// A node's log that was read: its disk, its entries, and the number of its epoch.
#[derive(Drop)]
pub struct Started<D> {
    pub kept: Kept<Epochs<D>>,
    pub entries: Vec<Entry>,
}

/// The number of the epoch of a log with these bytes, and the log's first lines. Refused by `Fault::Failed` if they can't be read.
fn header_in(alloc: Global, bytes: &[u8]) -> Result<(u64, Vec<u8>), Fault> {
    let head = match read_beginning(alloc, bytes) {
        Ok(head) => head,
        Err(HeadFault::NoMemory) => return Err(Fault::NoMemory),
        Err(HeadFault::Line(_)) => return Err(Fault::Failed),
    };
    let header = match &head {
        Some(head) => head.bytes(alloc)?,
        None => Vec::from_slice(alloc, PLAIN)?,
    };
    Ok((epoch_in(&head), header))
}

/// Reads the entries of a log with these first lines. Refused by `Fault::Failed` if it can't be read.
fn recovered<D: Folder + Drop>(
    alloc: Global,
    epochs: Epochs<D>,
    header: &[u8],
    wanted: Wanted,
) -> Result<Started<D>, Fault> {
    if !has_end(header) {
        return Err(Fault::Failed);
    }
    let mut kept = Kept::new(epochs);
    match kept.recover(alloc, header, wanted) {
        Ok(found) => Ok(Started {
            kept,
            entries: found.entries,
        }),
        Err(LogFault::Failed(fault)) => Err(fault),
        Err(_) => Err(Fault::Failed),
    }
}

/// A start: the first lines of `now` are read, what was begun of a switch is taken away, and the entries are read. Refused by `Fault::Failed`
/// if the log can't be read.
pub fn start<D: Folder + Drop>(alloc: Global, folder: D) -> Result<Started<D>, Fault> {
    let mut folder = folder;
    let bytes = folder.read(alloc)?;
    let (epoch, header) = header_in(alloc, &bytes)?;
    // (a first line that isn't whole is begun)
    let wanted = if bytes.len() < header.len() {
        Wanted::New
    } else {
        Wanted::AtLeast(0)
    };
    let mut epochs = Epochs::new(folder, epoch);
    epochs.start()?;
    recovered(alloc, epochs, &header, wanted)
}
