//! The node of a configuration, and its peers.
ghost use Rattle.std.specs.Prelude.{◌≡◌, ◌≢◌, Some, None, map, option_map, IfOk, IfErr};
ghost use Rattle.toml.specs.View.{view, table_view};
ghost use Rattle.scp_live_config.specs.Names.{NoTwo, named, name_said, values_of};
ghost use Rattle.std.specs.List.{AllByRecursion};
ghost use Rattle.scp_live_config.specs.Config.{SaysNames, ArePeers, node_in, peers_in};
ghost use Rattle.scp_live_config.specs.Wrong.{IsWrong};
ghost use Rattle.scp_live_config.specs.inside.Faults.{Tells, IsWrongPeer, IsWrongAmongPeers};

use crate::fault::ConfigFault;
use crate::names::{name_said, named};
use crate::settings::Named;
use crate::table::find;
use crate::wrong::Wrong;
use scp_quorum::below::types::LINK_LIMIT;
use std::alloc::Global;
use toml::{Table, Value};

/// The name and id of the node itself, which `NODE` gives.
pub fn read_node(alloc: Global, names: &[Named], doc: &Table) -> Result<Named, ConfigFault>
    requires names { SaysNames (table_view doc.now) names.now }
    ensures read { IfOk result (λ node. node_in names.now (table_view doc.now) ≡ Some node) }
    ensures wrong { IfErr result (Tells (IsWrong (table_view doc.now))) }
{
    match find(doc, "NODE") {
        None => Err(ConfigFault::Wrong(Wrong::Node)),
        Some(value) => match name_said(names, value) {
            Some(node) => Ok(node.copy(alloc)?),
            None => Err(ConfigFault::Wrong(Wrong::Node)),
        },
    }
}

/// The peer that the value at an index gives, after these peers.
fn read_peer(
    alloc: Global,
    names: &[Named],
    node: &Named,
    before: &[Named],
    place: usize,
    value: &Value,
) -> Result<Named, ConfigFault>
    ensures read { IfOk result (λ peer. name_said names.now (view value.now) ≡ Some peer) }
    ensures other { IfOk result (λ peer. peer.name ≢ node.now.name) }
    ensures new { IfOk result (λ peer. named before.now peer.name ≡ None) }
    ensures wrong { IfErr result (Tells (IsWrongPeer node.now before.now place (name_said names.now (view value.now)))) }
{
    let Some(peer) = name_said(names, value) else {
        return Err(ConfigFault::Wrong(Wrong::Peer(place)));
    };
    if peer.name() == node.name() {
        return Err(ConfigFault::Wrong(Wrong::PeerIsNode(place)));
    }
    match named(before, peer.name()) {
        None => Ok(peer.copy(alloc)?),
        Some(_) => Err(ConfigFault::Wrong(Wrong::PeerTwice(place))),
    }
}

/// The array at `PEERS`, if there is one.
fn peers_at(doc: &Table) -> Option<&[Value]>
    ensures { option_map (λ values. map view values.now) result ≡ option_map values_of (peers_in (table_view doc.now)) }
{
    match find(doc, "PEERS") {
        Some(Value::Array(values)) => Some(values.as_slice()),
        _ => None,
    }
}

/// The peers that these values give, in their order.
fn read_each(
    alloc: Global,
    names: &[Named],
    node: &Named,
    values: &[Value],
) -> Result<Vec<Named>, ConfigFault>
    ensures said { IfOk result (λ peers. map (name_said names.now) (map view values.now) ≡ map Some peers.items) }
    ensures once { IfOk result (λ peers. NoTwo (λ peer. peer.name) peers.items) }
    ensures others { IfOk result (λ peers. AllByRecursion (λ peer. peer.name ≢ node.now.name) peers.items) }
    ensures wrong { IfErr result (Tells (IsWrongAmongPeers names.now node.now (map view values.now))) }
{
    let mut peers = Vec::new(alloc);
    for (place, value) in values.iter().enumerate() {
        let peer = match read_peer(alloc, names, node, &peers, place, value) {
            Ok(peer) => peer,
            Err(fault) => return Err(fault),
        };
        peers.push(peer)?;
    }
    Ok(peers)
}

/// The peers that `PEERS` gives, in their order.
pub fn read_peers(
    alloc: Global,
    names: &[Named],
    node: &Named,
    doc: &Table,
) -> Result<Vec<Named>, ConfigFault>
    requires names { SaysNames (table_view doc.now) names.now }
    requires node { node_in names.now (table_view doc.now) ≡ Some node.now }
    ensures read { IfOk result (λ peers. ArePeers names.now node.now (table_view doc.now) peers.items) }
    ensures wrong { IfErr result (Tells (IsWrong (table_view doc.now))) }
{
    let Some(values) = peers_at(doc) else {
        return Err(ConfigFault::Wrong(Wrong::Peers));
    };
    if values.len() > LINK_LIMIT as usize {
        return Err(ConfigFault::Wrong(Wrong::Peers));
    }
    match read_each(alloc, names, node, values) {
        Ok(peers) => Ok(peers),
        Err(fault) => Err(fault),
    }
}
