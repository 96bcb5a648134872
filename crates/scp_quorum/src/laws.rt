//! Laws of the definitions. Each is the contract of a function that does nothing.
ghost use Rattle.scp_quorum.specs.QuorumKind.{SetIsItsValue, ValueIsASets};
ghost use Rattle.scp_quorum.specs.Laws.{SatisfyingIsMonotone, BlockingIsMonotone, QuorumsOfAPart, NoneBlocksNone};

/// A quorum set is read back from its value, so bytes encode one set at most. Each value of the kind is that of the
/// set that it is read back as.
pub fn a_quorum_set_is_its_value()
    ensures set { SetIsItsValue }
    ensures value { ValueIsASets }
{}

/// If nodes satisfy a quorum set, more nodes do too.
pub fn satisfying_is_monotone()
    ensures { SatisfyingIsMonotone }
{}

/// If nodes block a quorum set, more nodes do too.
pub fn blocking_is_monotone()
    ensures { BlockingIsMonotone }
{}

/// If only the sets of some nodes are known, the quorums are those over all sets that lie inside these nodes.
pub fn quorums_of_a_part()
    ensures { QuorumsOfAPart }
{}

/// The empty set of nodes blocks no sane quorum set.
pub fn none_blocks_none()
    ensures { NoneBlocksNone }
{}
