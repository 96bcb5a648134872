//! The worker that carries what waits in an outbox to a link.
ghost use Rattle.std.specs.Prelude.{◌≡◌, ◌↔◌, [], ◌∷◌, ◌++◌, true, false, IsTrue, IsSome, IfSome, MatchBool};
ghost use Rattle.scp_theorem.specs.scp_outbox.specs.declared.mark.Mark.TheVariants as mark;
ghost use Rattle.scp_theorem.specs.scp_outbox.specs.declared.mark.Out.TheVariants as out;
ghost use Rattle.scp_workers.specs.Carrying.{Carries, EndAtStop, HasCarried, HaveNoStop, Holds, IsCarried, IsSameLink, IsSameTaker, is_stop};

use scp_ends::{Counter, Gate, LinkDone, LinkTx, Stage};
use scp_shared_outbox::Taker;
use scp_theorem::below::outbox::{Mark, Out};
use scp_theorem::below::types::NodeId;
use scp_theorem::below::wire::{Bytes, Message, encode};
use std::alloc::Global;
use std::marker::Model;
use std::sync::Wait;

/// Carries what waits in an outbox to a link. Contracts see the link's end, the end of the outbox, and whether it failed.
pub struct Courier {
    alloc: Global,
    taker: Taker,
    link: LinkTx,
    counter: Counter,
    failed: bool,
}

impl Drop for Courier {
    fn drop(self) {
        let Courier {
            alloc: _,
            taker: _,
            link: _,
            counter: _,
            failed: _,
        } = self;
    }
}

impl Model for Courier {
    ghost use Rattle.std.specs.Prelude.{◌≡◌, false};
    ghost use Rattle.scp_workers.specs.Carrying.{CourierWorking, AreSpelt, Carried, unsent};
    ghost use Rattle.std.specs.Coded.{codes};
    ghost use Rattle.scp_theorem.specs.scp_xdr.specs.inside.TreeModel.{coded_row};
    ghost use Rattle.scp_theorem.specs.scp_quorum.specs.inside.QuorumTree.{coded_level};

    ghost Value = { CourierWorking };

    ghost coded = { Prim.hlevel (codes, coded_row coded_level) };

    ghost view = { λ w. record { link = w.link; taker = w.taker; failed = w.failed } };

    ghost invariant = { λ w. AreSpelt w.link.tail.sent × (w.failed ≡ false → Carried w.taker.gave (unsent w.link) w.link) };
}

/// What a courier ends with: the end of the outbox, how its link is left, and, if it ended well, what the link's end leaves.
pub struct CourierEnded {
    done: Option<LinkDone>,
    taker: Taker,
    lives: u32,
    is_open: bool,
}

impl Drop for CourierEnded {
    fn drop(self) {
        let CourierEnded {
            done: _,
            taker: _,
            lives: _,
            is_open: _,
        } = self;
    }
}

impl Model for CourierEnded {
    ghost use Rattle.std.specs.Prelude.{IfSome};
    ghost use Rattle.scp_workers.specs.Carrying.{CourierEnd, HasCarried, IsCarried};
    ghost use Rattle.std.specs.Coded.{codes};
    ghost use Rattle.scp_theorem.specs.scp_xdr.specs.inside.TreeModel.{coded_row};
    ghost use Rattle.scp_theorem.specs.scp_quorum.specs.inside.QuorumTree.{coded_level};

    ghost Value = { CourierEnd };

    ghost coded = { Prim.hlevel (codes, coded_row coded_level) };

    ghost view = { λ e. record { link = e.done; taker = e.taker; lives = e.lives; is_open = e.is_open } };

    ghost invariant = { λ e. IfSome e.done (λ k. IsCarried e.lives e.is_open k × HasCarried e.taker.gave k) };
}

impl CourierEnded {
    /// Whether it ended well.
    pub fn well(&self) -> bool
        ensures { IsTrue result ↔ IsSome self.now.link }
    {
        self.done.is_some()
    }

    /// How often the courier opened its link.
    pub fn lives(&self) -> u32
        ensures { result ≡ self.now.lives }
    {
        self.lives
    }

    /// Whether the courier left its link open.
    pub fn is_open(&self) -> bool
        ensures { result ≡ self.now.is_open }
    {
        self.is_open
    }

    /// What the link's end leaves, if the courier ended well; and the end of the outbox.
    pub fn into_parts(self) -> (Option<LinkDone>, Taker)
        ensures link { result.0 ≡ self.link }
        // All that the courier carried was given through this end.
        ensures taker { result.1 ≡ self.taker }
        // The link was opened this often and is open or not as reported, and all bytes that were sent encode messages.
        ensures carried { IfSome result.0 (IsCarried self.lives self.is_open) }
        // It was given all up to Stop, and sent that.
        ensures given { IfSome result.0 (HasCarried self.taker.gave) }
    {
        let CourierEnded {
            done,
            taker,
            lives: _,
            is_open: _,
        } = self;
        (done, taker)
    }
}

impl Courier {
    /// A courier of this node for the link of this number, between an outbox that gave nothing yet
    /// and a link over which nothing was sent yet. Takes no memory.
    pub fn new(alloc: Global, node: NodeId, link: u8, taker: Taker, tx: LinkTx) -> Courier
        requires unused { tx.tail.sent ≡ [] }
        requires fresh { taker.gave ≡ [] }
        ensures { result ≡ record { link = tx; taker = taker; failed = false } }
    {
        Courier {
            alloc,
            taker,
            link: tx,
            counter: Counter::new(node, Stage::Courier(link)),
            failed: false,
        }
    }

    /// Carries what is given until the mark Stop comes, and then ends the link. If it fails, because it is out of memory, the link refuses or
    /// the receiving end is gone, it goes on taking and drops what it takes.
    pub fn run<R: Wait, G: Gate>(mut self, rt: &R, gate: &G) -> CourierEnded
        requires { self.taker.gave ≡ [] }
        // It ends with the link and the end of the outbox that it was given.
        ensures { Holds self result }
    {
        for _ in rt.forever() {
            if !self.step(rt, gate) {
                break;
            }
        }
        self.end(rt, gate)
    }

    /// Takes what is next, and carries it. Returns whether to go on. Before it waits, the link's reader is woken for what was sent.
    fn step<R: Wait, G: Gate>(&mut self, rt: &R, gate: &G) -> bool
        requires { HaveNoStop self.old.taker.gave }
        ensures same { IsSameLink self.old.link self.new.link }
        ensures taker { IsSameTaker self.old.taker self.new.taker }
        ensures on { result ≡ true → HaveNoStop self.new.taker.gave }
        ensures over { result ≡ false → EndAtStop self.new.taker.gave }
    {
        self.link.flush();
        let given = self.take(rt, gate);
        let over = is_stop(&given);
        !over
    }

    /// Takes what is next, and carries it unless something was lost before. Returns what it took.
    fn take<R: Wait, G: Gate>(&mut self, rt: &R, gate: &G) -> Out
        ensures same { IsSameLink self.old.link self.new.link }
        ensures given { self.new.taker ≡ record self.old.taker { gave = self.old.taker.gave ++ result ∷ [] } }
    {
        let given = self.taker.next(rt);
        self.counter.taken(gate);
        if self.failed
            || !carry(
                rt,
                self.alloc,
                gate,
                &mut self.counter,
                &mut self.link,
                &given,
            )
        {
            self.failed = true;
        }
        given
    }

    /// Ends the link.
    fn end<R: Wait, G: Gate>(mut self, rt: &R, gate: &G) -> CourierEnded
        requires { EndAtStop self.taker.gave }
        ensures { Holds self result }
    {
        self.counter.putting(gate);
        let Courier {
            alloc: _,
            taker,
            link,
            counter: _,
            failed,
        } = self;
        let lives = link.lives();
        let is_open = link.is_open();
        CourierEnded {
            done: stop_well(rt, link, !failed),
            taker,
            lives,
            is_open,
        }
    }
}

/// Carries what was given. Returns whether it was sent.
fn carry<R: Wait, G: Gate>(
    rt: &R,
    alloc: Global,
    gate: &G,
    counter: &mut Counter,
    link: &mut LinkTx,
    given: &Out,
) -> bool
    ensures same { IsSameLink link.old link.new }
    ensures carries { MatchBool result (Carries given.now link.old link.new) (link.new ≡ link.old) }
{
    match given {
        Out::Mark(Mark::Opened) => open(rt, gate, counter, link),
        Out::Mark(Mark::Closed) => close(rt, gate, counter, link),
        Out::Message(message) => send(rt, alloc, gate, counter, link, message),
        Out::Mark(Mark::Stop) | Out::Nothing => true,
    }
}

/// Whether it is the mark Stop.
fn is_stop(given: &Out) -> bool
    ensures { result ≡ is_stop given.now }
{
    matches!(given, Out::Mark(Mark::Stop))
}

/// Opens the link. Returns whether it could.
fn open<R: Wait, G: Gate>(rt: &R, gate: &G, counter: &mut Counter, link: &mut LinkTx) -> bool
    ensures { MatchBool result (Carries (out.Mark mark.Opened) link.old link.new) (link.new ≡ link.old) }
{
    counter.putting(gate);
    link.open(rt).is_ok()
}

/// Closes the link. Returns whether it could.
fn close<R: Wait, G: Gate>(rt: &R, gate: &G, counter: &mut Counter, link: &mut LinkTx) -> bool
    ensures { MatchBool result (Carries (out.Mark mark.Closed) link.old link.new) (link.new ≡ link.old) }
{
    counter.putting(gate);
    link.close(rt).is_ok()
}

/// Sends the message's encoding. Returns whether it could.
fn send<R: Wait, G: Gate>(
    rt: &R,
    alloc: Global,
    gate: &G,
    counter: &mut Counter,
    link: &mut LinkTx,
    message: &Message,
) -> bool
    ensures { MatchBool result (Carries (out.Message message.now) link.old link.new) (link.new ≡ link.old) }
{
    let Ok(bytes) = encode(alloc, message) else {
        return false;
    };
    counter.putting(gate);
    link.send(rt, Bytes::new(bytes)).is_ok()
}

/// Ends the link's end. Returns what it leaves if the courier did well and the receiving end isn't gone.
fn stop_well<R: Wait>(rt: &R, link: LinkTx, well: bool) -> Option<LinkDone>
    ensures { IfSome result (λ d. (d ≡ link) × (well ≡ true)) }
{
    match link.stop(rt) {
        Ok(done) if well => Some(done),
        _ => None,
    }
}
