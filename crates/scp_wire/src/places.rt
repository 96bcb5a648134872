//! The place of a node among the peers of another.
ghost use Rattle.std.specs.Prelude.{◌≡◌, ◌<◌};
ghost use Rattle.scp_quorum.specs.scp_types.specs.declared.limits.TheConstants.{NODE_LIMIT};
ghost use Rattle.scp_wire.specs.Places.{link_of, peer_at};

/// The number of a node's link from another, by the nodes' numbers from 1 on: the other's place among the node's peers.
pub fn link_of(from: u8, to: u8) -> u8
    ensures { result ≡ link_of from to }
{
    if from < to {
        from.saturating_sub(1)
    } else {
        from.saturating_sub(2)
    }
}

/// The peer at a place.
pub fn peer_at(place: u8, to: u8) -> u8
    requires few { place < NODE_LIMIT }
    ensures { result ≡ peer_at place to }
{
    if place + 1 < to { place + 1 } else { place + 2 }
}
