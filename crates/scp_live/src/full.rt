//! What a node with a nearly full journal doesn't hear.
ghost use Rattle.std.specs.Prelude.{◌≡◌};
ghost use Rattle.scp_live.specs.Full.{is_of_peer, is_turned_away};

use crate::live::Live;
use scp_again::below::node::Event;
use scp_live_lines::is_nearly_full;

/// Whether a peer opens a connection, or sends something.
fn is_of_peer(event: &Event) -> bool
    ensures { result ≡ is_of_peer event.now }
{
    match event {
        Event::Open(_) | Event::Send(_, _) => true,
        _ => false,
    }
}

impl Live {
    /// Whether the event is turned away: it is a peer's, and the journal is nearly full. So the journal never gets full by what peers send,
    /// and the node goes on answering its host.
    pub fn turns_away(&self, event: &Event) -> bool
        ensures { result ≡ is_turned_away event.now self.now.node }
    {
        is_of_peer(event) && is_nearly_full(self.node.journal().len())
    }
}
