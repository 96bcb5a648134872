//! Networks from the configurations of their nodes.
ghost use Rattle.std.specs.Prelude.{◌≡◌, ◌↔◌, [], ◌∷◌, map, nat_eq, IfOk, IfErr, OnOk, IsTrue};
ghost use Rattle.std.specs.Bool.{OnFalse, OnTrue};
ghost use Rattle.std.specs.Cmp.Lexicographic.{pointwise};
ghost use Rattle.std.specs.List.{All, Any, list_any};
ghost use Rattle.scp_quorum_files.specs.Configs.{AreConfigsOf, IsConfigsFault};
ghost use Rattle.scp_quorum_files.specs.inside.Agreeing.{Agrees, AddsNames, AddsSettings, DontAgree};

use crate::network::{Named, Network};
use scp_live_config::{ConfigFault, Named as Identity, Settings, read_config};
use scp_quorum_search::Member;
use scp_quorum_search::below::types::NodeId;
use std::alloc::{AllocError, AllocFailed, Global};

/// Why configurations give no network. A place counts from 0.
#[derive(Debug, Drop)]
pub enum ConfigsFault {
    /// Memory ran out.
    NoMemory,
    /// The configuration at this place can't be read.
    Config { place: usize, fault: ConfigFault },
    /// The configuration at this place is of the node of an earlier one.
    Twice(usize),
    /// The configuration at this place gives a name another id than an earlier one does, or an id another name.
    Names(usize),
}

impl From<AllocError> for ConfigsFault {
    ghost use Rattle.std.specs.Prelude.{◌≡◌};
    ghost use Rattle.scp_quorum_files.specs.declared.configs.ConfigsFault.TheVariants.{NoMemory};

    ghost from_gives = { λ _ e. e ≡ NoMemory };

    fn from(_e: AllocError) -> ConfigsFault {
        ConfigsFault::NoMemory
    }
}

impl<T: Drop> From<AllocFailed<T>> for ConfigsFault {
    ghost use Rattle.std.specs.Prelude.{◌≡◌};
    ghost use Rattle.scp_quorum_files.specs.declared.configs.ConfigsFault.TheVariants.{NoMemory};

    ghost from_gives = { λ _ e. e ≡ NoMemory };

    fn from(_e: AllocFailed<T>) -> ConfigsFault {
        ConfigsFault::NoMemory
    }
}

/// Whether a node has the name exactly if it has the id.
fn agrees(node: &Named, identity: &Identity) -> bool
    ensures { IsTrue result ↔ Agrees node.now identity.now }
{
    (node.name.as_str() == identity.name()) == (node.id == identity.id())
}

/// Whether each node has the name exactly if it has the id.
fn all_agree(nodes: &[Named], identity: &Identity) -> bool
    ensures all { OnTrue result (All (λ n. Agrees n identity.now) nodes.now) }
    ensures not_all { OnFalse result (Any (λ n. Agrees n identity.now → ⊥) nodes.now) }
{
    for node in nodes {
        if !agrees(node, identity) {
            return false;
        }
    }
    true
}

/// Whether a node has the id.
fn has_id(nodes: &[Named], id: &NodeId) -> bool
    ensures { result ≡ list_any (λ n. pointwise nat_eq n.id.0 id.now.0) nodes.now }
{
    nodes.iter().any(|node| node.id == *id)
}

/// Adds a name and its id, unless they are there. False if the name is there with another id, or the id with another name.
fn add_name(alloc: Global, nodes: &mut Vec<Named>, identity: &Identity) -> Result<bool, AllocError>
    ensures { IfOk result (λ added. AddsNames nodes.old.items (identity.now ∷ []) nodes.new.items added) }
{
    if !all_agree(nodes, identity) {
        return Ok(false);
    }
    let id = identity.id();
    if has_id(nodes, &id) {
        return Ok(true);
    }
    let name = String::from_str(alloc, identity.name())?;
    nodes.push(Named { name, id })?;
    Ok(true)
}

/// Adds these names and their ids. False if one isn't added.
fn add_names(
    alloc: Global,
    nodes: &mut Vec<Named>,
    identities: &[Identity],
) -> Result<bool, AllocError>
    ensures { IfOk result (λ added. AddsNames nodes.old.items identities.now nodes.new.items added) }
{
    for identity in identities {
        if !add_name(alloc, nodes, identity)? {
            return Ok(false);
        }
    }
    Ok(true)
}

/// Whether the node is one of the members.
fn is_member(members: &[Member], node: &NodeId) -> bool
    ensures { IsTrue result ↔ Any (λ m. m.node ≡ node.now) members.now }
{
    members.iter().any(|member| member.node == *node)
}

/// Adds the node of a configuration, which is at this place.
fn add_settings(
    alloc: Global,
    network: &mut Network,
    place: usize,
    settings: &Settings,
) -> Result<(), ConfigsFault>
    ensures added { OnOk result (AddsSettings network.old settings.now network.new) }
    ensures refused { IfErr result (DontAgree network.old settings.now) }
{
    let node = settings.node.id();
    if is_member(&network.members, &node) {
        return Err(ConfigsFault::Twice(place));
    }
    if !add_names(alloc, &mut network.nodes, &settings.names)? {
        return Err(ConfigsFault::Names(place));
    }
    match settings.set.set().copy() {
        Ok(set) => Ok(network.members.push(Member { node, set })?),
        Err(_) => Err(ConfigsFault::NoMemory),
    }
}

/// The network of nodes with these configurations, in TOML: each with its quorum set, and the others whose names they give.
pub fn read_configs(alloc: Global, texts: &[&str]) -> Result<Network, ConfigsFault>
    ensures read { IfOk result (AreConfigsOf (map (λ text. text.now) texts.now)) }
    ensures refused { IfErr result (IsConfigsFault (map (λ text. text.now) texts.now)) }
{
    let mut network = Network {
        nodes: Vec::new(alloc),
        members: Vec::new(alloc),
        strays: Vec::new(alloc),
        organisations: Vec::new(alloc),
    };
    for (place, text) in texts.iter().enumerate() {
        match read_config(alloc, *text) {
            Ok(settings) => add_settings(alloc, &mut network, place, &settings)?,
            Err(fault) => return Err(ConfigsFault::Config { place, fault }),
        }
    }
    Ok(network)
}
