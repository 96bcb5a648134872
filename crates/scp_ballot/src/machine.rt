//! A node's board, the state of its ballots, and the loop over the rules.
ghost use Rattle.std.specs.Prelude.{◌≡◌, ◌≢◌, ◌⊎◌, ◌↔◌, ◌<◌, [], Option, Some, None, IsSome, IsSomeAnd, IfOk, IfSome, IfNone, OnOk, IsOkUnless, false, is_some};
ghost use Rattle.std.specs.Option.{ForSome, option_map};
ghost use Rattle.scp_ballot_rules.specs.scp_vote.specs.Licence.{Licensed};
ghost use Rattle.scp_ballot_rules.specs.scp_vote.specs.Board.{IsNewBoard};
ghost use Rattle.scp_ballot_rules.specs.inside.Rules.{IsChange};
ghost use Rattle.scp_ballot_rules.specs.Ready.{IsReady};
ghost use Rattle.scp_ballot_rules.specs.Owed.{OwesNothing};
ghost use Rattle.scp_ballot_rules.specs.Told.{ballots_on};
ghost use Rattle.scp_ballot.specs.inside.Exactly.{ComesTo};

use crate::next::next;
use scp_ballot_rules::below::envelope::{
    Envelope, SharedEnvelope, SharedStatement, Signature, Statement,
};
use scp_ballot_rules::below::quorum::SaneSet;
use scp_ballot_rules::below::types::{Fault, Hash, NodeId, Slot};
use scp_ballot_rules::below::vote::Board;
use scp_ballot_rules::{State, local_of, me_of, new_board, pledges_of, put_ballot};
use std::alloc::Global;
use std::sync::Arc;

/// The board, the state of this node's ballots, and the statement that was emitted last.
#[derive(Drop)]
pub(crate) struct Machine {
    pub(crate) alloc: Global,
    pub(crate) slot: Slot,
    pub(crate) hash: Hash,
    pub(crate) board: Board,
    pub(crate) state: State,
    pub(crate) emitted: Option<SharedStatement>,
}

impl Machine {
    ghost use Rattle.scp_ballot.specs.inside.Machine.{own_at, IsAtRest, IsSettled, Renews, IsOwnStatement, MachineBegins};

    /// An empty board for this node and its set, and nothing said.
    pub(crate) fn new(alloc: Global, me: NodeId, slot: Slot, local: Arc<SaneSet>) -> Machine
        ensures begins { MachineBegins me local.value result }
        ensures slot { result.slot ≡ slot }
    {
        let hash = local.hash();
        Machine {
            alloc,
            slot,
            hash,
            board: new_board(alloc, me, local),
            state: State::blank(),
            emitted: None,
        }
    }

    /// The own statement of a state.
    pub(crate) fn own(&self, state: &State) -> Result<Statement, Fault>
        ensures own { IfOk result (λ s. IsOwnStatement self.now state.now s) }
        ensures only_memory { IsOkUnless result Fault.NoMemory }
    {
        let pledges = pledges_of(self.alloc, self.hash, state)?;
        Ok(Statement {
            node: me_of(&self.board),
            slot: self.slot,
            pledges,
        })
    }

    /// Puts the own statement of a state on the board, and keeps the state.
    fn renew(&mut self, state: State) -> Result<(), Fault>
        ensures renews { OnOk result (Renews self.old self.new state) }
        ensures only_memory { IsOkUnless result Fault.NoMemory }
    {
        let statement = self.own(&state)?;
        let envelope = SharedEnvelope::new(self.alloc, unsigned(self.alloc, statement))?;
        let local = local_of(&self.board).clone()?;
        put_ballot(&mut self.board, envelope, local)?;
        self.state = state;
        Ok(())
    }

    /// Keeps what an input made of the state, if it changed it, and applies the rules until none changes the state, at
    /// most 64 times (this project's profile). Returns whether it ended by this limit.
    pub(crate) fn settle(&mut self, first: Option<State>) -> Result<bool, Fault>
        requires rest { IsAtRest self.old }
        requires first { IfSome first (λ next. IsChange (ballots_on self.old.board) self.old.state next) }
        ensures settled { OnOk result (IsSettled self.old first self.new) }
        ensures owed { IfOk result (λ more. more ≡ false → OwesNothing self.new.hash (ballots_on self.new.board)) }
        ensures exact { IfOk result (λ more. ComesTo self.old first (ballots_on self.new.board) self.new.state more) }
        ensures only_memory { IsOkUnless result Fault.NoMemory }
    {
        match first {
            Some(next) => self.renew(next)?,
            None => {}
        }
        for _ in 0..64u32 {
            match next(self.alloc, &self.board, &self.state)? {
                Some(next) => self.renew(next)?,
                None => return Ok(false),
            }
        }
        Ok(true)
    }
}

/// The statement's envelope, without a signature.
pub(crate) fn unsigned(alloc: Global, statement: Statement) -> Envelope
    ensures statement { result.statement ≡ statement }
    ensures unsigned { result.signature ≡ [] }
{
    Envelope {
        statement,
        signature: Signature::new(Vec::new(alloc)),
    }
}
