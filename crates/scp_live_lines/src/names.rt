//! The names of peers.
ghost use Rattle.std.specs.Prelude.{◌≡◌, ◌<◌, IfSome, length, map, position, string_bytes};
ghost use Rattle.scp_core.specs.scp_types.specs.Same.{same_node};
ghost use Rattle.scp_live_lines.specs.Names.{name_at, name_of};

use scp_core::below::types::NodeId;

/// The index where the id first occurs among the peers.
fn place_of(peers: &[NodeId], id: &NodeId) -> Option<usize>
    ensures found { result ≡ position (λ peer. same_node peer id.now) peers.now }
{
    peers.iter().position(|peer| *peer == *id)
}

/// The name at this index, or a dash.
fn name_at<'a>(names: &'a [String], place: usize) -> &'a str
    ensures { result.now ≡ name_at (map string_bytes names.now) place }
{
    match names.get(place) {
        Some(name) => name.as_str(),
        None => "-",
    }
}

/// The name of the peer with this id: the name at the index where the id first occurs among the peers. A dash if no peer has the id.
pub fn name_of<'a>(names: &'a [String], peers: &[NodeId], id: &NodeId) -> &'a str
    ensures { result.now ≡ name_of (map string_bytes names.now) peers.now id.now }
{
    match place_of(peers, id) {
        Some(place) => name_at(names, place),
        None => "-",
    }
}
