//! A worker: it runs a stage between two channels.
ghost use Rattle.std.specs.Prelude.{◌≡◌, ◌≤◌, true, false, []};
ghost use Rattle.scp_ends.specs.Ends.{HeardAll};
ghost use Rattle.scp_workers.specs.Working.{Holds, EndsWell, FitsAlone, AreUnused, sent_by};
ghost use Rattle.scp_workers.specs.inside.Working.{SameEnds};

use crate::ending::{Left, stop};
use crate::sending::take_or_lose;
use crate::stage::Stage;
use crate::telling::{about_to_send, receive};
use scp_ends::{Counter, Done, Gate, Gone, Item, Law, Nobody, Rx, Stage as Place, Tx, Unheard};
use scp_shared_outbox::Putter;
use scp_theorem::below::types::{NODE_LIMIT, NodeId};
use std::marker::Model;
use std::snapshot::Snapshot;
use std::sync::Wait;

/// Receives things, takes them into its stage, puts what goes to peers into the links' outboxes, and sends what the stage gives. Contracts
/// see its ends, the stage that it was made of, whether it failed, and whether it was cut off.
pub struct Worker<T: Drop, L: Law<T>, U: Drop, M: Law<U>, S: Stage<T, L, U, M>> {
    rx: Rx<T, L>,
    tx: Option<Tx<U, M>>,
    stage: S,
    first: Snapshot<S>,
    outlets: Vec<Putter>,
    producers: u8,
    stops: [bool; NODE_LIMIT],
    counter: Counter,
    failed: bool,
    gone: Option<Nobody>,
}

impl<T: Drop, L: Law<T>, U: Drop, M: Law<U>, S: Stage<T, L, U, M>> Drop for Worker<T, L, U, M, S> {
    fn drop(self) {
        let Worker {
            rx: _,
            tx: _,
            stage: _,
            first: _,
            outlets: _,
            producers: _,
            stops: _,
            counter: _,
            failed: _,
            gone: _,
        } = self;
    }
}

impl<T: Drop, L: Law<T>, U: Drop, M: Law<U>, S: Stage<T, L, U, M>> Model for Worker<T, L, U, M, S> {
    ghost use Rattle.std.specs.Prelude.{◌≡◌, ◌≤◌, true, false, is_some};
    ghost use Rattle.scp_theorem.specs.scp_types.specs.declared.limits.TheConstants.{NODE_LIMIT};
    ghost use Rattle.std.specs.Coded.{codes};
    ghost use Rattle.scp_theorem.specs.scp_xdr.specs.inside.TreeModel.{coded_row};
    ghost use Rattle.scp_theorem.specs.scp_quorum.specs.inside.QuorumTree.{coded_level};
    ghost use Rattle.scp_ends.specs.Order.{values};
    ghost use Rattle.scp_workers.specs.Working.{Work, FitsAlone, sent_by};
    ghost use Rattle.scp_workers.specs.inside.Working.{AreStops, HasGiven};

    ghost Value = { Work T U S };

    ghost coded = { Prim.hlevel (codes, coded_row coded_level) };

    ghost view = { λ w. record { input = w.rx; output = w.tx; outlets = w.outlets.items; first = w.first.value; failed = w.failed; cut_off = is_some w.gone } };

    ghost invariant = { λ w. (w.rx.producers ≡ w.producers) × (w.producers ≤ NODE_LIMIT) × (w.failed ≡ false → HasGiven S.runs S.rests w.first.value (values w.rx.got) (sent_by w.tx) w.outlets.items w.stage) × AreStops w.stops w.rx.got × (is_some w.gone ≡ true → w.failed ≡ true) × FitsAlone L.fits w.rx };
}

/// What a worker ends with: its receiving end, what is left of its sending end, its ends of the outboxes, its stage, and how it ended. It
/// ended well or not; nobody sent to it any more; or nobody received its end any more.
pub struct Ended<T: Drop, L: Law<T>, U: Drop, M: Law<U>, S: Stage<T, L, U, M>> {
    rx: Rx<T, L>,
    done: Option<Done<U, M>>,
    outlets: Vec<Putter>,
    first: Snapshot<S>,
    stage: S,
    well: bool,
    gone: Option<Nobody>,
    unheard: Option<Unheard<U, M>>,
}

impl<T: Drop, L: Law<T>, U: Drop, M: Law<U>, S: Stage<T, L, U, M>> Drop for Ended<T, L, U, M, S> {
    fn drop(self) {
        let Ended {
            rx: _,
            done: _,
            outlets: _,
            first: _,
            stage: _,
            well: _,
            gone: _,
            unheard: _,
        } = self;
    }
}

impl<T: Drop, L: Law<T>, U: Drop, M: Law<U>, S: Stage<T, L, U, M>> Model for Ended<T, L, U, M, S> {
    ghost use Rattle.std.specs.Prelude.{is_some};
    ghost use Rattle.std.specs.Coded.{codes};
    ghost use Rattle.scp_theorem.specs.scp_xdr.specs.inside.TreeModel.{coded_row};
    ghost use Rattle.scp_theorem.specs.scp_quorum.specs.inside.QuorumTree.{coded_level};
    ghost use Rattle.scp_workers.specs.Working.{End, EndsWell};
    ghost use Rattle.scp_workers.specs.inside.Working.{HearsToTheEnd};

    ghost Value = { End T U S };

    ghost coded = { Prim.hlevel (codes, coded_row coded_level) };

    ghost view = { λ e. record { input = e.rx; output = e.done; outlets = e.outlets.items; first = e.first.value; stage = e.stage; well = e.well; cut_off = is_some e.gone; unheard = is_some e.unheard } };

    ghost invariant = { λ e. EndsWell S.runs S.rests (record { input = e.rx; output = e.done; outlets = e.outlets.items; first = e.first.value; stage = e.stage; well = e.well; cut_off = is_some e.gone; unheard = is_some e.unheard }) × HearsToTheEnd e.rx (is_some e.gone) };
}

impl<T: Drop, L: Law<T>, U: Drop, M: Law<U>, S: Stage<T, L, U, M>> Ended<T, L, U, M, S> {
    /// Whether it ended well.
    pub fn well(&self) -> bool
        ensures { result ≡ self.now.well }
    {
        self.well
    }

    /// Whether it ended because nobody sent to it any more, before the end of each producer came.
    pub fn is_cut_off(&self) -> bool
        ensures { result ≡ self.now.cut_off }
    {
        self.gone.is_some()
    }

    /// Its receiving end, what is left of its sending end, its ends of the outboxes, and the stage.
    pub fn into_parts(self) -> (Rx<T, L>, Option<Done<U, M>>, Vec<Putter>, S)
        ensures parts { (result.0 ≡ self.input) × (result.1 ≡ self.output) × (result.2.items ≡ self.outlets) × (result.3 ≡ self.stage) }
        ensures well { EndsWell S.runs S.rests self }
        ensures heard { self.cut_off ≡ false → HeardAll self.input }
    {
        let Ended {
            rx,
            done,
            outlets,
            first: _,
            stage,
            well: _,
            gone: _,
            unheard: _,
        } = self;
        (rx, done, outlets, stage)
    }
}

impl<T: Drop, L: Law<T>, U: Drop, M: Law<U>, S: Stage<T, L, U, M>> Worker<T, L, U, M, S> {
    /// A worker of this node at this place, between a channel with this many producers and the one for what the stage gives, if there is one.
    /// Nothing went through either yet. `outlets[l]` is its end of link l's outbox, and put nothing yet. Takes no memory.
    pub fn new(
        node: NodeId,
        place: Place,
        stage: S,
        outlets: Vec<Putter>,
        rx: Rx<T, L>,
        producers: u8,
        tx: Option<Tx<U, M>>,
    ) -> Worker<T, L, U, M, S>
        requires unused { (rx.got ≡ []) × (sent_by tx ≡ []) }
        requires outlets { AreUnused outlets.items }
        requires producers { (rx.producers ≡ producers) × (producers ≤ NODE_LIMIT) }
        requires fits { FitsAlone L.fits rx }
        requires fresh { S.runs stage [] [] [] stage × S.rests stage }
        ensures { result ≡ record { input = rx; output = tx; outlets = outlets.items; first = stage; failed = false; cut_off = false } }
    {
        let first = Snapshot::of(&stage);
        Worker {
            rx,
            tx,
            stage,
            first,
            outlets,
            producers,
            stops: [false; NODE_LIMIT],
            counter: Counter::new(node, place),
            failed: false,
            gone: None,
        }
    }

    /// Receives once, and does what follows from that. Returns whether to go on.
    fn step<R: Wait, G: Gate>(&mut self, rt: &R, gate: &G) -> bool
        ensures same { SameEnds self.old self.new }
        ensures gone { result ≡ false → self.new.cut_off ≡ true }
    {
        let item = match receive(rt, gate, &mut self.counter, &mut self.rx, &mut self.tx) {
            Ok(item) => item,
            Err(Gone(nobody)) => {
                self.gone = Some(nobody);
                self.failed = true;
                return false;
            }
        };
        match item {
            Item::One(_, thing) => {
                self.failed = take_or_lose::<T, L, U, M, S, R, G>(
                    rt,
                    gate,
                    &mut self.counter,
                    &mut self.outlets,
                    &mut self.stage,
                    &mut self.tx,
                    self.failed,
                    thing,
                );
            }
            Item::Stop(number) => self.stops[number as usize] = true,
        }
        true
    }

    /// Whether each producer has ended.
    fn is_over(&self) -> bool
        ensures { result ≡ true → HeardAll self.now.input }
    {
        self.stops[..self.producers as usize].iter().all(|x| *x)
    }

    /// Whether each producer has ended, and nothing was lost.
    fn is_well(&self) -> bool
        ensures { result ≡ true → (self.now.failed ≡ false) × HeardAll self.now.input }
    {
        !self.failed && self.is_over()
    }

    /// Works until each producer has ended, or until there is no producer any more.
    #[tactic(auto, using(crate::proofs::Outlets::same_on))]
    fn work<R: Wait, G: Gate>(&mut self, rt: &R, gate: &G)
        ensures same { SameEnds self.old self.new }
        ensures over { self.new.cut_off ≡ false → HeardAll self.new.input }
    {
        for _ in rt.forever() {
            if self.is_over() || !self.step(rt, gate) {
                break;
            }
        }
    }

    /// Ends the worker.
    fn end<R: Wait>(self, rt: &R) -> Ended<T, L, U, M, S>
        requires { self.cut_off ≡ false → HeardAll self.input }
        ensures { Holds self result }
    {
        let well = self.is_well();
        let Worker {
            rx,
            tx,
            stage,
            first,
            outlets,
            producers: _,
            stops: _,
            counter: _,
            failed: _,
            gone,
        } = self;
        let Left {
            done,
            unheard,
            well,
        } = stop(rt, tx, well);
        Ended {
            rx,
            done,
            outlets,
            first,
            stage,
            well,
            gone,
            unheard,
        }
    }

    /// Works until each producer has ended, and then ends. If it fails, because it is out of memory or nobody receives from it any more, it
    /// goes on receiving and drops what it receives. If there is no producer any more, it ends at once. It sends its end in each case.
    pub fn run<R: Wait, G: Gate>(mut self, rt: &R, gate: &G) -> Ended<T, L, U, M, S>
        ensures { Holds self result }
    {
        self.work(rt, gate);
        about_to_send(gate, &mut self.counter, &mut self.tx);
        self.end(rt)
    }
}
