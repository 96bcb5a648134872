//! Laws of the orders. Each is the contract of a function that does nothing.
ghost use Rattle.std.specs.Prelude.{◌≡◌};
ghost use Rattle.scp_types.specs.declared.ballot.Ballot.{Ballot};
ghost use Rattle.scp_types.specs.declared.names.ConnId.{ConnId};
ghost use Rattle.scp_types.specs.Order.{ballot_cmp, conn_cmp};

use crate::ballot::Ballot;
use crate::names::ConnId;

/// Ballots are ordered by their counters and, where the counters are equal, by the bytes of their
/// values (the SCP draft).
pub fn ballots_are_ordered_by_counter_then_value()
    ensures { (a b : Ballot) → ⟦<Ballot as Ord>⟧.cmp a b ≡ ballot_cmp a b }
{}

/// Connections are ordered by sender, then by receiver, then by life.
pub fn connections_are_ordered_by_sender_receiver_life()
    ensures { (a b : ConnId) → ⟦<ConnId as Ord>⟧.cmp a b ≡ conn_cmp a b }
{}
