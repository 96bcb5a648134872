//! Making an outbox and its ends.
ghost use Rattle.std.specs.Prelude.{◌≡◌, ◌+◌, [], length, true, false, IfOk, IsOkUnless};
ghost use Rattle.std.specs.Arc.{arc_value};
ghost use Rattle.crossbeam_queue.specs.Passes.{view, IsPassOf};
ghost use Rattle.scp_shared_outbox.specs.Turns.{unused};
ghost use Rattle.scp_shared_outbox.specs.Ends.{AreNew, AreFresh};
ghost use Rattle.scp_shared_outbox.specs.inside.Rule.{taker};

use crate::desk::Desk;
use crate::ends::{Marker, Putter, Taker};
use crate::rule::{Leaves, Makes, MakesMarker, Pass, Place};
use scp_outbox::Outbox;
use scp_outbox::below::types::Fault;
use std::alloc::{AllocError, Global};
use std::sync::{Arc, Condvar, Mutex};

/// The ends of a new outbox, for a link that isn't live: one for each producer, one that leaves marks, and one that is given what
/// waits. Takes all the memory that it ever needs. The only refusal is `Fault::NoMemory`.
pub fn make(alloc: Global, producers: u8) -> Result<(Vec<Putter>, Marker, Taker), Fault>
    // The ends belong to one outbox, and nothing was put, marked or given.
    ensures ends { IfOk result (λ r. AreNew producers r.0.items r.1 r.2) }
    // The only refusal is `NoMemory`.
    ensures only_memory { IsOkUnless result Fault.NoMemory }
{
    let (desk, mut pass) = placed(alloc, Outbox::new(alloc, false)?)?;
    let marker = hand_marker(&desk, &mut pass)?;
    let putters = hand_out_all(alloc, &desk, &mut pass, producers)?;
    Ok((putters, marker, Taker::made(desk, pass)))
}

/// Puts a new outbox into its place. The new place has room, so the only refusal really is `Fault::NoMemory`.
fn placed(alloc: Global, outbox: Outbox) -> Result<(Arc<Desk>, Pass), Fault>
    requires { outbox ≡ unused }
    ensures placed { IfOk result (λ r. IsPassOf (arc_value r.0).place r.1 × (view r.1 ≡ taker true 0)) }
    ensures only_memory { IsOkUnless result Fault.NoMemory }
{
    let (place, mut pass) = Place::ruled(alloc, 1)?;
    if place.try_push_as::<Leaves>(&mut pass, outbox).is_err() {
        return Err(Fault::NoMemory);
    }
    let desk = Desk {
        place,
        lost: Mutex::new(0),
        changed: Condvar::new(),
    };
    Ok((Arc::new(alloc, desk)?, pass))
}

/// The end that leaves marks.
fn hand_marker(desk: &Arc<Desk>, pass: &mut Pass) -> Result<Marker, AllocError>
    requires { IsPassOf (arc_value desk.now).place pass.old × (view pass.old ≡ taker true 0) }
    ensures { IfOk result (λ m. (m ≡ record { desk = pass.new.table_id; marked = [] }) × IsPassOf (arc_value desk.now).place pass.new × (view pass.new ≡ taker false 0)) }
{
    let shared = Arc::try_clone(desk)?;
    let mine = desk.place.another::<MakesMarker>(pass);
    Ok(Marker::made(shared, mine))
}

/// The end of the next producer.
fn hand_out(desk: &Arc<Desk>, pass: &mut Pass, number: u8) -> Result<Putter, AllocError>
    requires { IsPassOf (arc_value desk.now).place pass.old × (view pass.old ≡ taker false number) }
    ensures { IfOk result (λ p. (p ≡ record { desk = pass.new.table_id; number = number; put = [] }) × IsPassOf (arc_value desk.now).place pass.new × (view pass.new ≡ taker false (number + 1)) × (pass.new.table_id ≡ pass.old.table_id)) }
{
    let shared = Arc::try_clone(desk)?;
    let mine = desk.place.another::<Makes>(pass);
    Ok(Putter::made(shared, mine, number))
}

/// The ends of all producers, in the order of their numbers.
fn hand_out_all(
    alloc: Global,
    desk: &Arc<Desk>,
    pass: &mut Pass,
    producers: u8,
) -> Result<Vec<Putter>, AllocError>
    requires { IsPassOf (arc_value desk.now).place pass.old × (view pass.old ≡ taker false 0) }
    ensures { IfOk result (λ ends. AreFresh pass.new.table_id ends.items × (length ends.items ≡ producers) × IsPassOf (arc_value desk.now).place pass.new × (view pass.new ≡ taker false producers) × (pass.new.table_id ≡ pass.old.table_id)) }
{
    let mut ends = Vec::new(alloc);
    for number in 0..producers {
        ends.reserve(1)?;
        ends.push_reserved(hand_out(desk, pass, number)?);
    }
    Ok(ends)
}
