//! Taking the ends of the outboxes of all links back.
ghost use Rattle.std.specs.Prelude.{◌≡◌, ◌≤◌, ◌<◌, ◌∷◌, [], length, IfOk, OnOk, IsOkUnless};
ghost use Rattle.scp_outbox.specs.scp_types.specs.declared.limits.TheConstants.{NODE_LIMIT};
ghost use Rattle.scp_shared_outbox.specs.Table.{AreAllBack, AllCameOut};
ghost use Rattle.scp_shared_outbox.specs.inside.Links.{AllEndIn, ArePairs, IsAnyOf, StandLast, TookFrom, TookIn};

use crate::outlets::Outlets;
use crate::{Marker, Putter, Taker, take_back};
use scp_outbox::below::types::Fault;
use scp_outbox::below::wire::peer_at;
use std::alloc::{AllocError, Global};
use std::sync::Wait;

/// Takes the ends of the outboxes of `count` nodes back. What was given over each link whose taker is there is what came out of its outbox. The
/// only refusal is `Fault::NoMemory`.
pub fn take_all_back<R: Wait>(
    rt: &R,
    alloc: Global,
    count: u8,
    mut outlets: Vec<Outlets>,
    mut markers: Vec<Vec<Marker>>,
    mut takers: Vec<Vec<Option<Taker>>>,
) -> Result<(), Fault>
    requires few { count ≤ NODE_LIMIT }
    requires all { AreAllBack count outlets.items markers.items takers.items }
    ensures came { OnOk result (AllCameOut count outlets.items takers.items) }
    ensures only_memory { IsOkUnless result Fault.NoMemory }
{
    while let Some(row) = markers.pop() {
        let Some(ends) = takers.pop() else {
            unreachable!()
        };
        take_row(rt, alloc, markers.len() as u8 + 1, &mut outlets, row, ends)?;
    }
    Ok(())
}

/// Takes the ends of the outboxes of all links to the node with this number back. Those of the later nodes are back already, so each
/// stage's end is its last.
fn take_row<R: Wait>(
    rt: &R,
    alloc: Global,
    to: u8,
    outlets: &mut Vec<Outlets>,
    mut markers: Vec<Marker>,
    mut takers: Vec<Option<Taker>>,
) -> Result<(), Fault>
    requires few { length markers.items < NODE_LIMIT }
    requires number { 1 ≤ to }
    requires last { StandLast to outlets.old.items markers.items takers.items }
    ensures took { OnOk result (ArePairs (TookFrom to takers.items) outlets.old.items outlets.new.items) }
    ensures only_memory { IsOkUnless result Fault.NoMemory }
{
    while let Some(marker) = markers.pop() {
        let Some(taker) = takers.pop() else {
            unreachable!()
        };
        let from = peer_at(markers.len() as u8, to);
        take_link(
            rt,
            alloc,
            &mut outlets[usize::from(from - 1)],
            marker,
            taker,
        )?;
    }
    Ok(())
}

/// Takes the ends of one link's outbox back: the producers' ends are the last that the stages have.
fn take_link<R: Wait>(
    rt: &R,
    alloc: Global,
    outlets: &mut Outlets,
    marker: Marker,
    taker: Option<Taker>,
) -> Result<(), AllocError>
    requires last { AllEndIn marker.desk outlets.old }
    requires taker { IsAnyOf marker.desk taker }
    ensures { OnOk result (TookIn outlets.old outlets.new taker) }
{
    let (Some(first), Some(second), Some(third)) = (
        outlets.pend.pop(),
        outlets.slot.pop(),
        outlets.apply.pop(),
    ) else {
        unreachable!()
    };
    if let Some(taker) = taker {
        let _left = take_back(rt, three(alloc, first, second, third)?, marker, taker);
    }
    Ok(())
}

/// Three ends, in their order.
fn three(
    alloc: Global,
    first: Putter,
    second: Putter,
    third: Putter,
) -> Result<Vec<Putter>, AllocError>
    ensures { IfOk result (λ putters. putters.items ≡ first ∷ second ∷ third ∷ []) }
{
    let mut putters = Vec::new(alloc);
    putters.push(first)?;
    putters.push(second)?;
    putters.push(third)?;
    Ok(putters)
}
