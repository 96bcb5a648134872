//! The ends by which threads reach an outbox, each with its pass.
ghost use Rattle.std.specs.Prelude.{◌≡◌, ◌≢◌, ℕ, [], ◌∷◌, ◌++◌, ◌≤◌, length, true, MatchResult};
ghost use Rattle.std.specs.Arc.{arc_value};
ghost use Rattle.crossbeam_queue.specs.Passes.{IsPassOf};
ghost use Rattle.crossbeam_queue.specs.Passes as claims;
ghost use Rattle.scp_outbox.specs.scp_wire.specs.Fitting.{IsFitting};
ghost use Rattle.scp_outbox.specs.Outbox.{IfMessage};
ghost use Rattle.scp_shared_outbox.specs.Ends as ends;
ghost use Rattle.scp_shared_outbox.specs.inside.Passes as passes;
ghost use Rattle.scp_shared_outbox.specs.inside.Rule as rule;

use crate::desk;
use crate::desk::Desk;
use crate::rule::Pass;
use scp_outbox::below::types::Fault;
use scp_outbox::below::wire::FittingMessage;
use scp_outbox::{MARK_LIMIT, Mark, Out};
use std::marker::{Brand, Model};
use std::sync::{Arc, Wait};

/// The end of one producer.
#[derive(Drop)]
pub struct Putter {
    desk: Arc<Desk>,
    pass: Pass,
    number: u8,
}

impl Model for Putter {
    ghost use Rattle.std.specs.Arc.{arc_value};
    ghost use Rattle.std.specs.Coded.{codes};
    ghost use Rattle.crossbeam_queue.specs.Passes.{IsPassOf};
    ghost use Rattle.scp_outbox.specs.scp_xdr.specs.inside.TreeModel.{coded_row};
    ghost use Rattle.scp_outbox.specs.scp_quorum.specs.inside.QuorumTree.{coded_level};
    ghost use Rattle.scp_shared_outbox.specs.Ends as ends;
    ghost use Rattle.scp_shared_outbox.specs.inside.Passes as passes;

    ghost Value = { ends.PutterView };

    ghost coded = { Prim.hlevel (codes, coded_row coded_level) };

    ghost view = { λ s. passes.putter_of s.number s.pass };

    ghost invariant = { λ s. IsPassOf (arc_value s.desk).place s.pass × passes.IsPutting s.number s.pass };
}

/// The end that leaves marks.
#[derive(Drop)]
pub struct Marker {
    desk: Arc<Desk>,
    pass: Pass,
}

impl Model for Marker {
    ghost use Rattle.std.specs.Arc.{arc_value};
    ghost use Rattle.std.specs.Coded.{codes};
    ghost use Rattle.crossbeam_queue.specs.Passes.{IsPassOf};
    ghost use Rattle.scp_outbox.specs.scp_xdr.specs.inside.TreeModel.{coded_row};
    ghost use Rattle.scp_outbox.specs.scp_quorum.specs.inside.QuorumTree.{coded_level};
    ghost use Rattle.scp_shared_outbox.specs.Ends as ends;
    ghost use Rattle.scp_shared_outbox.specs.inside.Passes as passes;

    ghost Value = { ends.MarkerView };

    ghost coded = { Prim.hlevel (codes, coded_row coded_level) };

    ghost view = { λ s. passes.marker_of s.pass };

    ghost invariant = { λ s. IsPassOf (arc_value s.desk).place s.pass × passes.IsMarking s.pass };
}

/// The end that is given what waits.
#[derive(Drop)]
pub struct Taker {
    desk: Arc<Desk>,
    pass: Pass,
}

impl Model for Taker {
    ghost use Rattle.std.specs.Arc.{arc_value};
    ghost use Rattle.std.specs.Coded.{codes};
    ghost use Rattle.crossbeam_queue.specs.Passes.{IsPassOf};
    ghost use Rattle.scp_outbox.specs.scp_xdr.specs.inside.TreeModel.{coded_row};
    ghost use Rattle.scp_outbox.specs.scp_quorum.specs.inside.QuorumTree.{coded_level};
    ghost use Rattle.scp_shared_outbox.specs.Ends as ends;
    ghost use Rattle.scp_shared_outbox.specs.inside.Passes as passes;

    ghost Value = { ends.TakerView };

    ghost coded = { Prim.hlevel (codes, coded_row coded_level) };

    ghost view = { λ s. passes.taker_of s.pass };

    ghost invariant = { λ s. IsPassOf (arc_value s.desk).place s.pass × passes.IsTaking s.pass };
}

impl Putter {
    pub(crate) fn made(desk: Arc<Desk>, pass: Pass, number: u8) -> Putter
        requires place { IsPassOf (arc_value desk).place pass }
        requires fresh { claims.view pass ≡ rule.producer number }
        ensures { result ≡ record { desk = pass.table_id; number = number; put = [] } }
    {
        Putter { desk, pass, number }
    }

    pub(crate) fn into_pass(self) -> Pass
        ensures { (passes.putter_of self.number result ≡ self) × (result.me.1 ≡ []) × passes.IsPutting self.number result }
    {
        let Putter {
            desk: _desk,
            pass,
            number: _,
        } = self;
        pass
    }

    /// Lets a message wait, as `Outbox::put` does, and wakes whoever waits in `next`. Is never refused, takes no memory, and
    /// waits only for the lock.
    pub fn put<R: Wait>(&mut self, rt: &R, message: FittingMessage)
        // The end knows that it was put, after all that this producer put before.
        ensures { self.new ≡ record self.old { put = self.old.put ++ message ∷ [] } }
    {
        {
            let mut lost = self.desk.lost.lock(rt);
            *lost = desk::put::<Brand, R>(
                rt,
                &self.desk.place,
                &mut self.pass,
                self.number,
                message,
            );
        }
        self.desk.changed.notify_all();
    }

    /// How many own statements were lost, before they were given, since the outbox was made, as `Outbox::overwritten` counts
    /// them up to this turn. Waits only for the lock.
    pub fn overwritten<R: Wait>(&self, rt: &R) -> u64 {
        *self.desk.lost.lock(rt)
    }
}

impl Marker {
    pub(crate) fn made(desk: Arc<Desk>, pass: Pass) -> Marker
        requires place { IsPassOf (arc_value desk).place pass }
        requires fresh { claims.view pass ≡ rule.marker [] }
        ensures { result ≡ record { desk = pass.table_id; marked = [] } }
    {
        Marker { desk, pass }
    }

    pub(crate) fn into_pass(self) -> Pass
        ensures { (passes.marker_of result ≡ self) × (result.me.1 ≡ []) × passes.IsMarking result }
    {
        let Marker { desk: _desk, pass } = self;
        pass
    }

    /// Lets a mark wait, as `Outbox::mark` does, and wakes whoever waits in `next`. `Fault::Full` if 16 marks wait, so never for one of
    /// the first 16; nothing changes then. Takes no memory, and waits only for the lock.
    pub fn mark<R: Wait>(&mut self, rt: &R, mark: Mark) -> Result<(), Fault>
        // The end knows that it was left; or at least 16 were left before, and all is as it was.
        ensures { MatchResult result (λ _. self.new ≡ record self.old { marked = self.old.marked ++ mark ∷ [] }) (λ fault. (fault ≡ Fault.Full) × (MARK_LIMIT ≤ length self.old.marked) × (self.new ≡ self.old)) }
    {
        {
            let _turn = self.desk.lost.lock(rt);
            desk::mark::<Brand, R>(rt, &self.desk.place, &mut self.pass, mark)?;
        }
        self.desk.changed.notify_all();
        Ok(())
    }

    /// How many own statements were lost, as `Putter::overwritten` counts them.
    pub fn overwritten<R: Wait>(&self, rt: &R) -> u64 {
        *self.desk.lost.lock(rt)
    }
}

impl Taker {
    pub(crate) fn made(desk: Arc<Desk>, pass: Pass) -> Taker
        requires place { IsPassOf (arc_value desk).place pass }
        requires takes { (claims.view pass).takes ≡ true }
        ensures { result ≡ passes.taker_of pass }
    {
        Taker { desk, pass }
    }

    pub(crate) fn apart(self) -> (Arc<Desk>, Pass)
        ensures { IsPassOf (arc_value result.0).place result.1 × (passes.taker_of result.1 ≡ self) × passes.IsTaking result.1 }
    {
        let Taker { desk, pass } = self;
        (desk, pass)
    }

    /// What is to be sent next, as `Outbox::next` gives it. If there is nothing, it waits until there is. Takes no memory.
    pub fn next<R: Wait>(&mut self, rt: &R) -> Out
        // The end knows that it was given.
        ensures given { self.new ≡ record self.old { gave = self.old.gave ++ result ∷ [] } }
        // It is a mark or a message.
        ensures some { result ≢ Out.Nothing }
        // A message that is given fits a link.
        ensures fits { IfMessage result IsFitting }
    {
        desk::next(rt, &self.desk, &mut self.pass)
    }

    /// How many own statements were lost, as `Putter::overwritten` counts them.
    pub fn overwritten<R: Wait>(&self, rt: &R) -> u64 {
        *self.desk.lost.lock(rt)
    }
}
