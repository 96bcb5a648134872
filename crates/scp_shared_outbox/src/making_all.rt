//! Making the outboxes of all links.
ghost use Rattle.std.specs.Prelude.{◌≡◌, ◌≤◌, ◌+◌, ◌∷◌, [], length, IfOk, OnOk, IsOkUnless};
ghost use Rattle.scp_outbox.specs.scp_types.specs.declared.limits.TheConstants.{NODE_LIMIT};
ghost use Rattle.scp_shared_outbox.specs.Ends.{PutterView};
ghost use Rattle.scp_shared_outbox.specs.Places.{Each};
ghost use Rattle.scp_shared_outbox.specs.Table.{AreMade};
ghost use Rattle.scp_shared_outbox.specs.inside.Links.{ArePairs, HandedOut, HasNone, IsLonger, IsNewTaker};

use crate::outlets::Outlets;
use crate::{Marker, Putter, Taker, make};
use scp_outbox::below::types::Fault;
use std::alloc::{AllocError, Global};

/// The ends of all outboxes: for each node n, at place n - 1, those of its own stages; and a row of those that belong to the links to it.
#[derive(Drop)]
pub struct Made {
    pub outlets: Vec<Outlets>,
    pub markers: Vec<Vec<Marker>>,
    pub takers: Vec<Vec<Taker>>,
}

/// The ends of the outboxes of `count` nodes, each a peer of all others. The only refusal is `Fault::NoMemory`.
pub fn make_all(alloc: Global, count: u8) -> Result<Made, Fault>
    requires few { count ≤ NODE_LIMIT }
    ensures made { IfOk result (λ made. AreMade count made.outlets.items made.markers.items made.takers.items) }
    ensures only_memory { IsOkUnless result Fault.NoMemory }
{
    let mut outlets = none_yet(alloc, count)?;
    let mut markers = Vec::new(alloc);
    let mut takers = Vec::new(alloc);
    for index in 0..count {
        markers.reserve(1)?;
        takers.reserve(1)?;
        let row = row_to(alloc, count, index + 1, &mut outlets)?;
        markers.push_reserved(row.markers);
        takers.push_reserved(row.takers);
    }
    Ok(Made {
        outlets,
        markers,
        takers,
    })
}

/// No ends yet, for each of `count` nodes.
fn none_yet(alloc: Global, count: u8) -> Result<Vec<Outlets>, AllocError>
    ensures { IfOk result (λ outlets. (length outlets.items ≡ count) × Each HasNone outlets.items) }
{
    let mut outlets = Vec::new(alloc);
    for _ in 0..count {
        outlets.push(Outlets {
            pend: Vec::new(alloc),
            slot: Vec::new(alloc),
            apply: Vec::new(alloc),
        })?;
    }
    Ok(outlets)
}

/// The ends of the links to one node that are its own.
#[derive(Drop)]
struct Row {
    markers: Vec<Marker>,
    takers: Vec<Taker>,
}

/// The outboxes of all links to the node with this number. Their producers' ends go to the nodes from which the links come, after the
/// ends of these nodes' links to earlier nodes: so exactly to the link's place.
fn row_to(alloc: Global, count: u8, to: u8, outlets: &mut Vec<Outlets>) -> Result<Row, Fault>
    requires many { length outlets.old.items ≡ count }
    requires number { (1 ≤ to) × (to ≤ count) }
    ensures many { IfOk result (λ row. (length row.markers.items + 1 ≡ count) × (length row.takers.items + 1 ≡ count)) }
    ensures unmarked { IfOk result (λ row. Each (λ place m. m.marked ≡ []) row.markers.items) }
    ensures takers { IfOk result (λ row. Each (IsNewTaker row.markers.items) row.takers.items) }
    ensures outlets { IfOk result (λ row. ArePairs (HandedOut row.markers.items to count) outlets.old.items outlets.new.items) }
    ensures only_memory { IsOkUnless result Fault.NoMemory }
{
    let mut markers = Vec::new(alloc);
    let mut takers = Vec::new(alloc);
    for index in 0..count {
        if index + 1 == to {
            continue;
        }
        markers.reserve(1)?;
        takers.reserve(1)?;
        let (putters, marker, taker) = make(alloc, 3)?;
        add(&mut outlets[usize::from(index)], putters)?;
        markers.push_reserved(marker);
        takers.push_reserved(taker);
    }
    Ok(Row { markers, takers })
}

/// Gives each stage one more of these ends.
fn add(outlets: &mut Outlets, putters: Vec<Putter>) -> Result<(), AllocError>
    requires three { length putters.items ≡ 3 }
    ensures { OnOk result ((first second third : PutterView) → putters.items ≡ first ∷ second ∷ third ∷ [] → IsLonger outlets.old outlets.new first second third) }
{
    outlets.pend.reserve(1)?;
    outlets.slot.reserve(1)?;
    outlets.apply.reserve(1)?;
    let (first, second, third) = apart(putters);
    outlets.pend.push_reserved(first);
    outlets.slot.push_reserved(second);
    outlets.apply.push_reserved(third);
    Ok(())
}

/// Three ends, taken apart.
fn apart(mut putters: Vec<Putter>) -> (Putter, Putter, Putter)
    requires three { length putters.items ≡ 3 }
    ensures { putters.items ≡ result.0 ∷ result.1 ∷ result.2 ∷ [] }
{
    let (Some(third), Some(second), Some(first)) = (putters.pop(), putters.pop(), putters.pop())
    else {
        unreachable!()
    };
    (first, second, third)
}
