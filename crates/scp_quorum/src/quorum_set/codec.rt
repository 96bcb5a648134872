//! The encoding of quorum sets (RFC 4506).
ghost use Rattle.std.specs.Prelude.{◌≡◌, ◌↔◌, ◌+◌, ◌-◌, map, IsTrue, List, length};
ghost use Rattle.scp_xdr.specs.Kind.{Fits, TreeFits, spelling, tree};
ghost use Rattle.scp_xdr.specs.Length.{spelled_len};
ghost use Rattle.scp_xdr.specs.Reading.{reading, read_inner as read_inner_at};
ghost use Rattle.scp_xdr.specs.Passing.{passing, pass_inner as pass_inner_at};
ghost use Rattle.scp_xdr.specs.Words.{Decodes, GoesPast, Leaves, Extends};
ghost use Rattle.scp_xdr.specs.Shared.{node_value};
ghost use Rattle.scp_quorum.specs.QuorumKind.{level_kind, set_kind, level_value, set_value};

use super::QuorumSet;
use scp_xdr::below::types::{Fault, NodeId};
use scp_xdr::{
    Reader, Writer, Xdr, array_fits, pass_array, read_array, spend_array, spend_u32, write_array,
};
use std::alloc::Global;

/// How many validators, and how many inner sets, a quorum set may have (this project's profile).
const MAX_ENTRIES: u32 = 1_000;

/// How many levels of inner sets there may be (this project's profile).
const MAX_LEVELS: u32 = 4;

impl Xdr for QuorumSet {
    ghost kind = { set_kind };

    ghost value = { set_value };

    fn read(alloc: Global, reader: &mut Reader<'_>) -> Result<QuorumSet, Fault> {
        read_set(alloc, MAX_LEVELS, reader)
    }

    fn pass(reader: &mut Reader<'_>) -> Result<(), Fault> {
        pass_set(MAX_LEVELS, reader)
    }

    fn fits(&self) -> bool {
        self.fits_at(MAX_LEVELS)
    }

    fn spend(&self, room: usize) -> Option<usize> {
        self.spend_all(room)
    }

    fn write(&self, writer: &mut Writer) -> Result<(), Fault> {
        self.write_at(MAX_LEVELS, writer)
    }
}

/// A threshold and validators.
fn read_level(alloc: Global, reader: &mut Reader<'_>) -> Result<(u32, Vec<NodeId>), Fault>
    ensures { Decodes (λ x. (x.0, map node_value x.1.items)) reader.new result (reading level_kind reader.old) }
{
    let threshold = reader.u32()?;
    let validators = read_array(alloc, MAX_ENTRIES, reader)?;
    Ok((threshold, validators))
}

/// A quorum set with at most this many levels of inner sets.
#[cycle(reading)]
#[tactic(auto, unfolding(scp_xdr::specs::Reading::tree_with))]
fn read_set(alloc: Global, levels: u32, reader: &mut Reader<'_>) -> Result<QuorumSet, Fault>
    ensures { Decodes set_value reader.new result (reading (tree levels 1000 level_kind) reader.old) }
{
    let (threshold, validators) = read_level(alloc, reader)?;
    let inner_sets = read_inner(alloc, levels, reader)?;
    Ok(QuorumSet {
        threshold,
        validators,
        inner_sets,
    })
}

/// The count of inner sets and each of them, if this many levels may follow.
#[cycle(reading)]
fn read_inner(alloc: Global, levels: u32, reader: &mut Reader<'_>) -> Result<Vec<QuorumSet>, Fault>
    ensures { Decodes (λ sets. map set_value sets.items) reader.new result (read_inner_at (λ c. reading level_kind c) levels 1000 reader.old) }
{
    if levels == 0 {
        reader.count(0)?;
        return Ok(Vec::new(alloc));
    }
    let count = reader.count(MAX_ENTRIES)?;
    let mut sets = Vec::new(alloc);
    for _ in 0..count {
        let set = read_set(alloc, levels - 1, reader)?;
        sets.push(set)?;
    }
    Ok(sets)
}

fn pass_level(reader: &mut Reader<'_>) -> Result<(), Fault>
    ensures { GoesPast reader.new result (passing level_kind reader.old) }
{
    reader.u32()?;
    pass_array::<NodeId>(MAX_ENTRIES, reader)
}

/// Passes over a quorum set with at most this many levels of inner sets, without memory.
#[cycle(passing)]
fn pass_set(levels: u32, reader: &mut Reader<'_>) -> Result<(), Fault>
    ensures { GoesPast reader.new result (passing (tree levels 1000 level_kind) reader.old) }
{
    pass_level(reader)?;
    pass_inner(levels, reader)
}

#[cycle(passing)]
fn pass_inner(levels: u32, reader: &mut Reader<'_>) -> Result<(), Fault>
    ensures { GoesPast reader.new result (pass_inner_at (λ d. passing level_kind d) levels 1000 reader.old) }
{
    if levels == 0 {
        reader.count(0)?;
        return Ok(());
    }
    let count = reader.count(MAX_ENTRIES)?;
    for _ in 0..count {
        pass_set(levels - 1, reader)?;
    }
    Ok(())
}

impl QuorumSet {
    /// Whether the set keeps its limits with at most this many levels of inner sets.
    fn fits_at(&self, levels: u32) -> bool
        ensures { IsTrue result ↔ TreeFits (λ v. Fits level_kind v) levels 1000 (set_value self.now) }
    {
        let _threshold = self.threshold;
        let limit = if levels == 0 { 0 } else { MAX_ENTRIES };
        if !array_fits(MAX_ENTRIES, &self.validators) || self.inner_sets.len() > limit as usize {
            return false;
        }
        for inner in &self.inner_sets {
            if !inner.fits_at(levels.saturating_sub(1)) {
                return false;
            }
        }
        true
    }

    /// Takes the length of the encoding off the room.
    fn spend_all(&self, room: usize) -> Option<usize>
        ensures { Leaves room result (spelled_len set_kind (set_value self.now)) }
    {
        let mut left = spend_u32(room)?;
        left = spend_array(&self.validators, left)?;
        left = spend_u32(left)?;
        for inner in &self.inner_sets {
            left = inner.spend_all(left)?;
        }
        Some(left)
    }

    /// Writes a set that keeps its limits with at most this many levels of inner sets.
    fn write_at(&self, levels: u32, writer: &mut Writer) -> Result<(), Fault>
        requires { TreeFits (λ v. Fits level_kind v) levels 1000 (set_value self.now) }
        ensures { Extends writer.old writer.new result (spelling set_kind (set_value self.now)) }
    {
        writer.u32(self.threshold)?;
        write_array(writer, MAX_ENTRIES, &self.validators)?;
        writer.count(MAX_ENTRIES, self.inner_sets.len())?;
        for inner in &self.inner_sets {
            inner.write_at(levels.saturating_sub(1), writer)?;
        }
        Ok(())
    }
}
