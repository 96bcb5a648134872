//! What a stage of a node does, and what it hands out.
use scp_ends::Law;
use scp_theorem::below::ledger::OutgoingList;
use scp_theorem::below::wire::Message;

/// What goes out to a node's peers, into the outboxes of its links.
#[derive(Drop)]
pub enum Outs {
    /// Nothing.
    Nothing,
    /// A message for the link of this number.
    Answer(u8, Message),
    /// Messages for one link each, and messages for all.
    All(OutgoingList),
}

/// What a stage gives at once for a thing that it took.
#[derive(Drop)]
pub struct Given<U> {
    /// What goes on to the next stage, if anything does.
    pub onward: Option<U>,
    /// What goes out to peers.
    pub outs: Outs,
}

/// A stage of a node: it takes things of one kind and gives things of another, which fit what may be sent after what it gave before.
///
/// A worker takes a thing only when nothing is left to give, and then lets the stage give until nothing is left.
pub trait Stage<T: Drop, L: Law<T>, U: Drop, M: Law<U>>: Drop {
    ghost use Rattle.std.specs.Prelude.{[], ◌∷◌, ◌++◌, List, IfSome, MatchOption, option_to_list};
    ghost use Rattle.scp_theorem.specs.scp_ledger.specs.declared.took.Outgoing.{Outgoing};
    ghost use Rattle.scp_workers.specs.Handing.{FitsOuts, outgoing_of};

    // A stage whose first state was this took these things, gave these, handed these out, and is in this state now.
    ghost runs: { Self → List T → List U → List Outgoing → Self → Type 0 };

    // Nothing is left to give.
    ghost rests: { Self → Type 0 };

    /// Takes a thing. Returns `None` if it failed: it is out of memory, or can't take more.
    fn take(&mut self, thing: T) -> Option<Given<U>>
        requires rests { rests self.old }
        requires fits { (first : Self) × (took : List T) × (gave : List U) × (out : List Outgoing) × runs first took gave out self.old × L.fits (took ++ thing ∷ []) }
        ensures runs { IfSome result (λ given. (first : Self) → (took : List T) → (gave : List U) → (out : List Outgoing) → runs first took gave out self.old → runs first (took ++ thing ∷ []) (gave ++ option_to_list given.onward) (out ++ outgoing_of given.outs) self.new × M.fits (gave ++ option_to_list given.onward)) }
        ensures outs { IfSome result (λ given. FitsOuts given.outs) };

    /// The next thing that it gives, if any is left.
    fn give(&mut self) -> Option<U>
        ensures gives { MatchOption result ((first : Self) → (took : List T) → (gave : List U) → (out : List Outgoing) → runs first took gave out self.old → runs first took gave out self.new × rests self.new) (λ x. (first : Self) → (took : List T) → (gave : List U) → (out : List Outgoing) → runs first took gave out self.old → runs first took (gave ++ x ∷ []) out self.new × M.fits (gave ++ x ∷ [])) };
}
