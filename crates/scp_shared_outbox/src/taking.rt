//! Taking the ends of an outbox back: what came of it.
ghost use Rattle.std.specs.Prelude.{◌≡◌, true};
ghost use Rattle.crossbeam_queue.specs.Passes.{view, IsPassOf};
ghost use Rattle.scp_shared_outbox.specs.Turns.{IsOutOf, put_by};
ghost use Rattle.scp_shared_outbox.specs.Ends.{AreAll, AreOf, puts_of};
ghost use Rattle.scp_shared_outbox.specs.inside.Rule.{IsHeld, IsStill, KnowsRest};
ghost use Rattle.scp_shared_outbox.specs.inside.Passes.{HavePut};

use crate::desk::take_out;
use crate::ends::{Marker, Putter, Taker};
use crate::rule::{Hears, HearsMarks, Pass, Place, ToldPuts, ToldRest};
use scp_outbox::Outbox;
use std::sync::Wait;

/// Takes all ends of an outbox back, and returns the outbox. What was given is what an outbox gives in one order of what the
/// producers put and of what was marked, and the outbox is what is left.
pub fn take_back<R: Wait>(rt: &R, putters: Vec<Putter>, marker: Marker, taker: Taker) -> Outbox
    // They are all ends of one outbox, with the producers' in the order of their numbers.
    requires all { AreAll putters.items marker taker }
    ensures { IsOutOf (puts_of putters.items) marker.marked taker.gave result }
{
    let (desk, mut pass) = taker.apart();
    let outbox = take_out(rt, &desk.place, &mut pass);
    hear_marks(&desk.place, &mut pass, marker);
    hear_all(&desk.place, &mut pass, putters);
    outbox
}

/// Takes the passes of all producers in, in the order of their numbers.
fn hear_all(place: &Place, pass: &mut Pass, putters: Vec<Putter>)
    requires place { IsPassOf place.now pass.old }
    requires ones { AreOf pass.old.table_id putters.items }
    requires held { IsHeld (view pass.old) }
    ensures heard { HavePut (view pass.old).turns putters.items }
{
    for putter in putters {
        hear(place, pass, putter);
    }
}

/// Takes a producer's pass in: what it put is what it put in the turns so far.
fn hear(place: &Place, pass: &mut Pass, putter: Putter)
    requires place { IsPassOf place.now pass.old }
    requires one { putter.desk ≡ pass.old.table_id }
    requires held { IsHeld (view pass.old) }
    ensures place { IsPassOf place.now pass.new × (pass.new.table_id ≡ pass.old.table_id) }
    ensures still { IsStill (view pass.old) (view pass.new) }
    ensures heard { put_by putter.number (view pass.old).turns ≡ putter.put }
{
    place.absorb::<Hears>(pass, putter.into_pass());
    place.learn_as::<ToldPuts>(pass);
}

/// Takes the pass of the end that leaves marks in: what was marked and given is what the turns so far say.
fn hear_marks(place: &Place, pass: &mut Pass, marker: Marker)
    requires place { IsPassOf place.now pass.old }
    requires one { marker.desk ≡ pass.old.table_id }
    requires held { IsHeld (view pass.old) }
    ensures place { IsPassOf place.now pass.new × (pass.new.table_id ≡ pass.old.table_id) }
    ensures still { IsStill (view pass.old) (view pass.new) }
    ensures heard { KnowsRest (view pass.new) × ((view pass.new).marked ≡ marker.marked) }
{
    place.absorb::<HearsMarks>(pass, marker.into_pass());
    place.learn_as::<ToldRest>(pass);
}
