//! Statements and envelopes: the types of Stellar-SCP.x, with the meaning that the SCP draft gives them.
ghost use Rattle.std.specs.Prelude.{◌≡◌};
ghost use Rattle.scp_envelope.specs.Kinds.{set_hash_of};

use crate::lists::ValueList;
use crate::signature::Signature;
use scp_xdr::below::types::{Ballot, Hash, NodeId, Slot};

/// What a node says while it prepares ballots.
#[derive(Drop)]
pub struct Prepare {
    /// The hash of the node's quorum set.
    pub set_hash: Hash,
    /// The ballot that it votes to prepare.
    pub ballot: Ballot,
    /// The highest ballot that it accepted as prepared.
    pub prepared: Option<Ballot>,
    /// The highest ballot below `prepared` and incompatible with it that it accepted as prepared.
    pub prepared_prime: Option<Ballot>,
    /// The lowest counter that it votes to commit; 0 if it votes for none.
    pub n_commit: u32,
    /// The highest counter that it confirmed as prepared; 0 if there is none.
    pub n_high: u32,
}

/// What a node says once it accepted a commit.
#[derive(Drop)]
pub struct Confirm {
    /// Its current ballot, whose value is the one that it accepted.
    pub ballot: Ballot,
    /// The highest counter that it accepted as prepared.
    pub n_prepared: u32,
    /// The lowest counter that it accepted as committed.
    pub n_commit: u32,
    /// The highest counter that it accepted as committed.
    pub n_high: u32,
    /// The hash of the node's quorum set.
    pub set_hash: Hash,
}

/// What a node says once it confirmed a commit.
#[derive(Drop)]
pub struct Externalize {
    /// The lowest ballot that it confirmed as committed.
    pub commit: Ballot,
    /// The highest counter that it confirmed as committed.
    pub n_high: u32,
    /// The hash of the quorum set with which it confirmed.
    pub set_hash: Hash,
}

/// What a node says while it nominates values.
#[derive(Drop)]
pub struct Nominate {
    /// The hash of the node's quorum set.
    pub set_hash: Hash,
    /// The values that it votes for.
    pub votes: ValueList,
    /// The values that it accepted.
    pub accepted: ValueList,
}

/// What a statement says, by its kind. The first three are ballot statements.
#[derive(Drop)]
pub enum Pledges {
    /// Discriminant 0.
    Prepare(Prepare),
    /// Discriminant 1.
    Confirm(Confirm),
    /// Discriminant 2.
    Externalize(Externalize),
    /// Discriminant 3.
    Nominate(Nominate),
}

/// What a node says about a slot.
#[derive(Drop)]
pub struct Statement {
    /// The node that says it.
    pub node: NodeId,
    /// The slot that it is about.
    pub slot: Slot,
    /// What it says.
    pub pledges: Pledges,
}

/// A statement as it is sent, with a signature that is kept and not checked.
#[derive(Drop)]
pub struct Envelope {
    /// What is said.
    pub statement: Statement,
    /// The sender's signature.
    pub signature: Signature,
}

impl Envelope {
    /// The hash of the quorum set that the statement names: quorumSetHash, or commitQuorumSetHash of an EXTERNALIZE.
    pub fn set_hash(&self) -> Hash
        ensures { result ≡ set_hash_of self.now.statement.pledges }
    {
        match &self.statement.pledges {
            Pledges::Prepare(prepare) => prepare.set_hash,
            Pledges::Confirm(confirm) => confirm.set_hash,
            Pledges::Externalize(externalize) => externalize.set_hash,
            Pledges::Nominate(nominate) => nominate.set_hash,
        }
    }
}
