mod codec;
mod same;
mod sane;
mod slices;

ghost use Rattle.std.specs.Prelude.{◌≡◌, ◌↔◌, ◌<◌, ◌≤◌, ◌⊎◌, [], ◌++◌, IfOk, OnOk, IfErr, IsErrOf, IsOkUnless, IsTrue, Ok};
ghost use Rattle.scp_xdr.specs.Tree.{in_a_row, tree_of};
ghost use Rattle.scp_xdr.specs.Kind.{Values, Fits, Spells};
ghost use Rattle.scp_xdr.specs.Reading.{reading_whole};
ghost use Rattle.scp_xdr.specs.Words.{Gives};
ghost use Rattle.scp_quorum.specs.Sane.{all_nodes, levels};
ghost use Rattle.scp_quorum.specs.QuorumKind.{set_kind, set_value, set_spelling};
ghost use Rattle.sha2.specs.Sha256.{sha256};

use scp_xdr::below::types::{Fault, Hash, NodeId};
use sha2::{Digest, Sha256};
pub use slices::{Nodes, blocked, satisfied};
use std::alloc::{AllocError, Global};
use std::marker::Model;

/// How many levels of inner sets a quorum set may have: one more than can be encoded. So a set that is
/// too deep to be encoded can still be made, and is refused where it is written (this project's profile).
const MAX_LEVELS: u32 = 5;

/// A threshold over nodes and further quorum sets, which together are its entries.
#[derive(Drop)]
pub struct QuorumSet {
    threshold: u32,
    validators: Vec<NodeId>,
    inner_sets: Vec<QuorumSet>,
}

impl Model for QuorumSet {
    ghost use Rattle.std.proofs.Common.{arith};
    ghost use Rattle.scp_xdr.specs.Tree.{Tree, in_a_row};
    ghost use Rattle.scp_xdr.specs.inside.TreeModel.{coded_tree, tree_count, most_le-row_count};
    ghost use Rattle.scp_quorum.specs.QuorumTree.{QuorumTree};
    ghost use Rattle.scp_quorum.specs.inside.QuorumTree.{coded_level};

    ghost Value = { QuorumTree };

    ghost coded = { coded_tree coded_level };

    ghost view = { λ a. record { head = record { threshold = a.threshold; validators = a.validators.items }; inner = in_a_row a.inner_sets.items } };

    ghost size = { tree_count };

    ghost size_decreases = { λ a h. omega (arith, most_le-row_count a.inner_sets.items) };
}

impl QuorumSet {
    /// The quorum set of these parts, whether it is sane or not. `Fault::TooLong` exactly where it
    /// would have more than 5 levels of inner sets, so that whatever goes over a set needs only a small
    /// stack. That is one level more than any encoding has (this project's profile). Moves the parts
    /// and takes no memory; looks at each inner set, not at the nodes.
    pub fn new(
        threshold: u32,
        validators: Vec<NodeId>,
        inner_sets: Vec<QuorumSet>,
    ) -> Result<QuorumSet, Fault>
        ensures made { IfOk result (λ set. set ≡ tree_of (record { threshold = threshold; validators = validators.items }) inner_sets.items) }
        ensures too_long { IsErrOf result Fault.TooLong ↔ 5 < levels (in_a_row inner_sets.items) }
        ensures only { IsOkUnless result Fault.TooLong }
    {
        if !are_within(MAX_LEVELS, inner_sets.as_slice()) {
            return Err(Fault::TooLong);
        }
        Ok(QuorumSet {
            threshold,
            validators,
            inner_sets,
        })
    }

    /// The quorum set of these nodes alone, whether it is sane or not. Moves them and takes no memory.
    pub fn of_nodes(threshold: u32, validators: Vec<NodeId>) -> QuorumSet
        ensures { result ≡ tree_of (record { threshold = threshold; validators = validators.items }) [] }
    {
        let inner_sets = Vec::new(*validators.allocator());
        QuorumSet {
            threshold,
            validators,
            inner_sets,
        }
    }

    /// How many entries must be satisfied.
    pub fn threshold(&self) -> u32
        ensures { result ≡ self.now.head.threshold }
    {
        self.threshold
    }

    /// The nodes among the entries.
    pub fn validators(&self) -> &[NodeId]
        ensures { result.now ≡ self.now.head.validators }
    {
        self.validators.as_slice()
    }

    /// The quorum sets among the entries.
    pub fn inner_sets(&self) -> &[QuorumSet]
        ensures { in_a_row result.now ≡ self.now.inner }
    {
        self.inner_sets.as_slice()
    }

    /// An equal quorum set, in the same allocator. The only refusal is `Fault::NoMemory`.
    pub fn copy(&self) -> Result<QuorumSet, Fault>
        ensures same { IfOk result (λ copied. copied ≡ self.now) }
        ensures only_memory { IsOkUnless result Fault.NoMemory }
    {
        let alloc = *self.validators.allocator();
        let mut inner_sets = Vec::with_capacity(alloc, self.inner_sets.len())?;
        for inner in &self.inner_sets {
            inner_sets.push(inner.copy()?)?;
        }
        let validators = Vec::from_slice(alloc, &self.validators)?;
        Ok(QuorumSet {
            threshold: self.threshold,
            validators,
            inner_sets,
        })
    }

    /// All nodes, with those of the inner sets: first the set's own, then those of each inner set
    /// in turn. The only refusal is `Fault::NoMemory`.
    pub fn nodes(&self) -> Result<Vec<NodeId>, Fault>
        ensures all { IfOk result (λ nodes. nodes.items ≡ all_nodes self.now) }
        ensures only_memory { IsOkUnless result Fault.NoMemory }
    {
        let mut nodes = Vec::new(*self.validators.allocator());
        self.append_nodes(&mut nodes)?;
        Ok(nodes)
    }

    fn append_nodes(&self, nodes: &mut Vec<NodeId>) -> Result<(), AllocError>
        ensures { OnOk result (nodes.new.items ≡ nodes.old.items ++ all_nodes self.now) }
    {
        nodes.extend_from_slice(&self.validators)?;
        for inner in &self.inner_sets {
            inner.append_nodes(nodes)?;
        }
        Ok(())
    }

    /// The quorum set that all of the bytes encode (RFC 4506). A set has at most 1,000 validators
    /// and 1,000 inner sets, and there are at most 4 levels of inner sets (this project's profile).
    /// The first fault is found before memory is taken: `Fault::Malformed` with its place, or
    /// `Fault::TooLong` for a count over its limit and for a fifth level.
    pub fn decode(alloc: Global, bytes: &[u8]) -> Result<QuorumSet, Fault>
        ensures found { IfOk result (λ set. Spells set_kind bytes.now (set_value set)) }
        ensures only { (v : Values set_kind) → Spells set_kind bytes.now v → Gives set_value result (Ok v) }
        ensures exact { Gives set_value result (reading_whole set_kind bytes.now) }
        ensures memory_last { IsErrOf result Fault.NoMemory → (v : Values set_kind) × Spells set_kind bytes.now v }
    {
        scp_xdr::decode(alloc, bytes)
    }

    /// The one encoding of the quorum set (RFC 4506). `Fault::TooLong` exactly where a count or the
    /// depth is over its limit; the only other refusal is `Fault::NoMemory`.
    pub fn encode(&self) -> Result<Vec<u8>, Fault>
        ensures spells { IfOk result (λ bytes. Spells set_kind bytes.items (set_value self.now)) }
        ensures too_long { IsErrOf result Fault.TooLong ↔ ¬ (Fits set_kind (set_value self.now)) }
        ensures only { IfErr result (λ f. (f ≡ Fault.NoMemory) ⊎ (f ≡ Fault.TooLong)) }
    {
        let alloc = *self.validators.allocator();
        scp_xdr::encode(alloc, self)
    }

    /// The SHA-256 (FIPS 180-4) of the encoding, by which the quorum set is named. Takes the memory of the
    /// encoding. `Fault::TooLong` exactly where there is no encoding; the only other refusal is `Fault::NoMemory`.
    pub fn hash(&self) -> Result<Hash, Fault>
        ensures digest { IfOk result (λ hash. hash.0 ≡ sha256 (set_spelling self.now)) }
        ensures too_long { IsErrOf result Fault.TooLong ↔ ¬ (Fits set_kind (set_value self.now)) }
        ensures only { IfErr result (λ f. (f ≡ Fault.NoMemory) ⊎ (f ≡ Fault.TooLong)) }
    {
        let bytes = self.encode()?;
        Ok(sha256_of(&bytes))
    }
}

/// Whether the sets are at most `most` levels deep, counting themselves.
fn are_within(most: u32, sets: &[QuorumSet]) -> bool
    ensures { IsTrue result ↔ levels (in_a_row sets.now) ≤ most }
{
    if most == 0 {
        return sets.is_empty();
    }
    for set in sets {
        if !are_within(most - 1, set.inner_sets()) {
            return false;
        }
    }
    true
}

/// The SHA-256 of the bytes (FIPS 180-4).
fn sha256_of(bytes: &[u8]) -> Hash
    ensures { result.0 ≡ sha256 bytes.now }
{
    let mut hasher = Sha256::new();
    hasher.update(bytes);
    Hash(hasher.finalize())
}
