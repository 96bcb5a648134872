//! Quorum sets that aren't sane.
ghost use Rattle.scp_ledger.specs.scp_quorum.specs.Sane.{IsSane};

use scp_ledger::below::quorum::QuorumSet;

/// A quorum set that isn't sane.
#[derive(Drop)]
pub struct InsaneSet {
    pub set: QuorumSet,
    ghost insane: { ¬ IsSane set },
}
