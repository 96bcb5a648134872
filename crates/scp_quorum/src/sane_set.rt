ghost use Rattle.std.specs.Prelude.{◌≡◌, ◌⊎◌, [], ◌∷◌, IfOk, IfErr, IsOkUnless};
ghost use Rattle.std.specs.Bool.{OnFalse, OnTrue};
ghost use Rattle.scp_xdr.specs.Tree.{no_trees};
ghost use Rattle.scp_quorum.specs.Sane.{IsSane};
ghost use Rattle.scp_quorum.specs.QuorumKind.{set_spelling};
ghost use Rattle.sha2.specs.Sha256.{sha256};

use crate::quorum_set::QuorumSet;
use scp_xdr::below::types::{Fault, Hash, NodeId};
use std::alloc::Global;
use std::marker::Model;

/// A sane quorum set, which keeps its hash.
#[derive(Drop)]
pub struct SaneSet {
    set: QuorumSet,
    hash: Hash,
}

impl Model for SaneSet {
    ghost use Rattle.std.specs.Prelude.{◌≡◌};
    ghost use Rattle.sha2.specs.Sha256.{sha256};
    ghost use Rattle.scp_xdr.specs.inside.TreeModel.{coded_tree};
    ghost use Rattle.scp_quorum.specs.QuorumTree.{QuorumTree};
    ghost use Rattle.scp_quorum.specs.inside.QuorumTree.{coded_level};
    ghost use Rattle.scp_quorum.specs.Sane.{IsSane};
    ghost use Rattle.scp_quorum.specs.QuorumKind.{set_spelling};

    ghost Value = { QuorumTree };

    ghost coded = { coded_tree coded_level };

    ghost view = { λ a. a.set };

    ghost invariant = { λ a. IsSane a.set × (a.hash.0 ≡ sha256 (set_spelling a.set)) };
}

impl QuorumSet {
    /// The quorum set as a sane one, with its hash. A refusal hands it back: `Fault::Insane` exactly
    /// where it isn't sane, and `Fault::NoMemory` if there was no memory for the hash.
    pub fn into_sane(self) -> Result<SaneSet, (Fault, QuorumSet)>
        ensures same { IfOk result (λ sane. sane ≡ self) }
        ensures sane { IfOk result (λ _. IsSane self) }
        ensures refused { IfErr result (λ back. ((back.0 ≡ Fault.Insane) × (IsSane self → ⊥)) ⊎ ((back.0 ≡ Fault.NoMemory) × IsSane self)) }
        ensures handed_back { IfErr result (λ back. back.1 ≡ self) }
    {
        if !self.is_sane() {
            return Err((Fault::Insane, self));
        }
        match self.hash() {
            Ok(hash) => Ok(SaneSet { set: self, hash }),
            Err(_) => Err((Fault::NoMemory, self)),
        }
    }
}

impl SaneSet {
    /// The quorum set of threshold 1 whose only entry is this node. The only refusal is `Fault::NoMemory`.
    pub fn alone(alloc: Global, node: NodeId) -> Result<SaneSet, Fault>
        ensures value { IfOk result (λ alone. alone ≡ record { head = record { threshold = 1; validators = node ∷ [] }; inner = no_trees }) }
        ensures only_memory { IsOkUnless result Fault.NoMemory }
    {
        let mut validators = Vec::new(alloc);
        validators.push(node)?;
        let set = QuorumSet::of_nodes(1, validators);
        match set.hash() {
            Ok(hash) => Ok(SaneSet { set, hash }),
            Err(_) => Err(Fault::NoMemory),
        }
    }

    /// The SHA-256 (FIPS 180-4) of the encoding. It is kept, and not computed again.
    pub fn hash(&self) -> Hash
        ensures { result.0 ≡ sha256 (set_spelling self.now) }
    {
        self.hash
    }

    /// Whether the sets are equal: the same thresholds, and the same entries in the same order. The hashes are compared
    /// first. If they are equal, all of both sets is compared, since equal hashes alone don't show it.
    pub fn is_same(&self, other: &SaneSet) -> bool
        ensures equal { OnTrue result (self.now ≡ other.now) }
        ensures different { OnFalse result (self.now ≡ other.now → ⊥) }
    {
        self.hash == other.hash && self.set.is_same(&other.set)
    }

    /// The quorum set.
    pub fn set(&self) -> &QuorumSet
        ensures value { result.now ≡ self.now }
        ensures sane { IsSane self.now }
    {
        &self.set
    }
}
