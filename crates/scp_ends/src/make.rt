//! Making a channel.
ghost use Rattle.std.specs.Prelude.{◌≡◌, ℕ, ◌+◌, ◌<◌, ◌≤◌, ◌⊎◌, ◌↔◌, [], length, IfOk, IsErrOf, IfErr, IsTrue};
ghost use Rattle.crossbeam_channel.specs.Claims.{view, IsSeatAt};
ghost use Rattle.crossbeam_channel.specs.Ends.{sends_on, receives_on, ruled_capacity};
ghost use Rattle.scp_ends.specs.Order.{receiver};
ghost use Rattle.scp_ends.specs.inside.Passes.{line_of};
ghost use Rattle.scp_ends.specs.Ends.{fresh, AreFresh, IsOfSize};

use crate::ends::{Rx, Tx};
use crate::item::{Item, View};
use crate::rule::{InOrder, Law, Makes, Room, Sizes};
use crate::waiting::{Bells, Ringer};
use crossbeam_channel::{Pass, RuledSender, bounded_with};
use scp_ledger::below::types::{CAPACITY_LIMIT, Fault, NODE_LIMIT};
use std::alloc::{AllocError, Global};
use std::marker::Brand;
use std::sync::Arc;

/// Lets the consumer's pass know the capacity.
fn size<T: Drop, L: Law<T>, J: Room>(
    sender: &RuledSender<Item<T>, View<T>, InOrder<L>>,
    pass: &mut Pass<Item<T>, View<T>>,
    capacity: usize,
)
    requires seat { IsSeatAt (sends_on sender.now) pass.old × (view pass.old ≡ receiver 0 0 []) }
    requires room { J.room ≡ capacity }
    ensures { IsSeatAt (sends_on sender.now) pass.new × (view pass.new ≡ receiver capacity 0 []) × (line_of pass.new ≡ line_of pass.old) }
{
    let _spent = sender.another::<Sizes<J>>(pass);
}

/// Makes the end of the next producer.
fn hand_out<T: Drop, L: Law<T>>(
    sender: &RuledSender<Item<T>, View<T>, InOrder<L>>,
    pass: &mut Pass<Item<T>, View<T>>,
    number: u8,
    bells: &Arc<Bells>,
    capacity: usize,
) -> Result<Tx<T, L>, AllocError>
    requires { IsSeatAt (sends_on sender.now) pass.old × (view pass.old ≡ receiver (ruled_capacity (sends_on sender.now)) number []) }
    ensures { IfOk result (λ t. (t ≡ fresh (line_of pass.new) number) × IsSeatAt (sends_on sender.now) pass.new × (view pass.new ≡ receiver (ruled_capacity (sends_on sender.now)) (number + 1) []) × (line_of pass.new ≡ line_of pass.old)) }
{
    let ringer = Ringer::of_sender(Arc::try_clone(bells)?, capacity);
    let sender_of_its_own = sender.try_clone()?;
    let mine = sender.another::<Makes>(pass);
    Ok(Tx::made(sender_of_its_own, mine, number, ringer))
}

fn is_room(capacity: usize) -> bool
    ensures { IsTrue result ↔ ((0 < capacity) × (capacity ≤ 1024)) }
{
    capacity > 0 && capacity <= usize::from(CAPACITY_LIMIT)
}

/// The ends of a channel: one for each producer, and one for the consumer.
pub(crate) fn channel<T: Drop, L: Law<T>>(
    alloc: Global,
    producers: u8,
    capacity: usize,
) -> Result<(Vec<Tx<T, L>>, Rx<T, L>), Fault>
    ensures ends { IfOk result (λ r. AreFresh r.1.line r.0.items × (length r.0.items ≡ producers) × (r.1 ≡ record { line = r.1.line; producers = producers; room = capacity; got = [] })) }
    ensures bad_config { IsErrOf result Fault.BadConfig ↔ (IsOfSize producers capacity → ⊥) }
    ensures only { IfErr result (λ f. (f ≡ Fault.NoMemory) ⊎ (f ≡ Fault.BadConfig)) }
{
    if producers == 0 || usize::from(producers) > NODE_LIMIT || !is_room(capacity) {
        return Err(Fault::BadConfig);
    }
    let made = ends_of(alloc, producers, capacity)?;
    Ok(made)
}

/// The ends of all producers, in the order of their numbers.
fn hand_out_all<T: Drop, L: Law<T>>(
    alloc: Global,
    sender: &RuledSender<Item<T>, View<T>, InOrder<L>>,
    pass: &mut Pass<Item<T>, View<T>>,
    producers: u8,
    bells: &Arc<Bells>,
    capacity: usize,
) -> Result<Vec<Tx<T, L>>, AllocError>
    requires { IsSeatAt (sends_on sender.now) pass.old × (view pass.old ≡ receiver (ruled_capacity (sends_on sender.now)) 0 []) }
    ensures { IfOk result (λ ends. AreFresh (line_of pass.new) ends.items × (length ends.items ≡ producers) × IsSeatAt (sends_on sender.now) pass.new × (view pass.new ≡ receiver (ruled_capacity (sends_on sender.now)) producers [])) }
{
    let mut ends = Vec::new(alloc);
    for number in 0..producers {
        ends.reserve(1)?;
        ends.push_reserved(hand_out(sender, pass, number, bells, capacity)?);
    }
    Ok(ends)
}

/// The ends of a channel of this size.
fn ends_of<T: Drop, L: Law<T>>(
    alloc: Global,
    producers: u8,
    capacity: usize,
) -> Result<(Vec<Tx<T, L>>, Rx<T, L>), AllocError>
    requires { 0 < capacity }
    ensures { IfOk result (λ r. AreFresh r.1.line r.0.items × (length r.0.items ≡ producers) × (r.1 ≡ record { line = r.1.line; producers = producers; room = capacity; got = [] })) }
{
    let (sender, receiver, mut pass) = bounded_with::<Item<T>, View<T>, InOrder<L>, Global>(
        alloc, capacity,
    )?;
    size::<T, L, Brand>(&sender, &mut pass, capacity);
    let bells = Arc::new(alloc, Bells::new())?;
    let ends = hand_out_all(alloc, &sender, &mut pass, producers, &bells, capacity)?;
    Ok((
        ends,
        Rx::made(receiver, pass, Ringer::of_receiver(bells, capacity)),
    ))
}

/// The ends of a channel of one producer.
pub(crate) fn lone_channel<T: Drop, L: Law<T>>(
    alloc: Global,
    capacity: usize,
) -> Result<(Tx<T, L>, Rx<T, L>), Fault>
    ensures ends { IfOk result (λ r. (r.0 ≡ fresh r.1.line 0) × (r.1 ≡ record { line = r.1.line; producers = 1; room = capacity; got = [] })) }
    ensures bad_config { IsErrOf result Fault.BadConfig ↔ (IsOfSize 1 capacity → ⊥) }
    ensures only { IfErr result (λ f. (f ≡ Fault.NoMemory) ⊎ (f ≡ Fault.BadConfig)) }
{
    if !is_room(capacity) {
        return Err(Fault::BadConfig);
    }
    let made = lone_ends(alloc, capacity)?;
    Ok(made)
}

fn lone_ends<T: Drop, L: Law<T>>(
    alloc: Global,
    capacity: usize,
) -> Result<(Tx<T, L>, Rx<T, L>), AllocError>
    requires { 0 < capacity }
    ensures { IfOk result (λ r. (r.0 ≡ fresh r.1.line 0) × (r.1 ≡ record { line = r.1.line; producers = 1; room = capacity; got = [] })) }
{
    let (sender, receiver, mut pass) = bounded_with::<Item<T>, View<T>, InOrder<L>, Global>(
        alloc, capacity,
    )?;
    size::<T, L, Brand>(&sender, &mut pass, capacity);
    let bells = Arc::new(alloc, Bells::new())?;
    let end = hand_out(&sender, &mut pass, 0, &bells, capacity)?;
    Ok((
        end,
        Rx::made(receiver, pass, Ringer::of_receiver(bells, capacity)),
    ))
}
