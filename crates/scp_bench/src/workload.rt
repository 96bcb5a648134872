use crate::consensus::decide_slots;
use crate::decode::decode_records;
use crate::quorum::{Shape, find_quorums};
use crate::votes::{Sharing, count_votes};
use scp_slot::below::types::Fault;
use std::alloc::Global;

/// The names of all workloads.
pub static NAMES: [&str; 10] = [
    "decode",
    "quorum-shared",
    "quorum-own",
    "quorum-chain",
    "quorum-missing",
    "votes-one",
    "votes-each",
    "consensus-4",
    "consensus-8",
    "consensus-16",
];

/// What is done.
#[derive(Clone, Copy)]
enum Work {
    /// Messages are decoded.
    Decode,
    /// The greatest quorum is asked for, 1,000 times.
    Quorum(Shape),
    /// Claims are tested on a voting board.
    Votes(Sharing),
    /// So many nodes decide slots.
    Consensus(u32),
}

/// What may be run.
#[derive(Clone, Copy)]
pub struct Workload<'a> {
    name: &'a str,
    work: Work,
}

impl<'a> Workload<'a> {
    /// The workload of this name.
    pub fn named(name: &'a str) -> Option<Workload<'a>> {
        let work = match name {
            "decode" => Work::Decode,
            "quorum-shared" => Work::Quorum(Shape::Shared),
            "quorum-own" => Work::Quorum(Shape::Own),
            "quorum-chain" => Work::Quorum(Shape::Chain),
            "quorum-missing" => Work::Quorum(Shape::Missing),
            "votes-one" => Work::Votes(Sharing::One),
            "votes-each" => Work::Votes(Sharing::Each),
            "consensus-4" => Work::Consensus(4),
            "consensus-8" => Work::Consensus(8),
            "consensus-16" => Work::Consensus(16),
            _ => return None,
        };
        Some(Workload { name, work })
    }

    /// Its size where none is given.
    pub fn small(self) -> u32 {
        match self.work {
            Work::Decode => 1_000,
            _ => 30,
        }
    }

    /// Runs it, and gives what was done, in counts.
    fn counts(self, alloc: Global, size: u32) -> Result<String, Fault> {
        match self.work {
            Work::Decode => decode_records(alloc, size),
            Work::Quorum(shape) => find_quorums(alloc, shape, size),
            Work::Votes(sharing) => count_votes(alloc, sharing, size),
            Work::Consensus(nodes) => decide_slots(alloc, nodes, size),
        }
    }

    /// Runs it at this size, and prints what was done in one line.
    pub fn run(self, rt: &HostRuntime, size: u32) -> Result<(), Fault> {
        let counts = self.counts(rt.alloc(), size)?;
        let name = self.name;
        match println!(rt; "{name} {size}: {counts}") {
            Ok(()) => Ok(()),
            Err(_) => Err(Fault::Device),
        }
    }
}

/// Runs every workload small, and prints a line of each.
pub fn run_all(rt: &HostRuntime) -> Result<(), Fault> {
    for name in NAMES {
        if let Some(workload) = Workload::named(name) {
            workload.run(rt, workload.small())?;
        }
    }
    Ok(())
}
