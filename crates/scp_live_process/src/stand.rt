//! The status of the node, and the names with which its nodes are shown.
ghost use Rattle.std.specs.Prelude.{◌≡◌, IfOk, OnOk, None, IsOkUnless, map, string_bytes};
ghost use Rattle.scp_stand_node.specs.Stand.{IsStand};
ghost use Rattle.scp_live_process.specs.Stands.{naming_in, AreNamesIn, TellsStand};
ghost use Rattle.scp_live.specs.Living.{IsLive};
ghost use Rattle.scp_live_process.specs.inside.Texts.{AddsText};

use scp_live::Live;
use scp_live::below::live_config::Named;
use scp_stand_node::below::stand_slot::{Names, NodeName};
use scp_stand_node::below::turn::Node;
use scp_stand_node::below::types::Fault;
use scp_stand_node::{Seen, write_stand};
use std::alloc::{AllocError, Global};

/// The name that a configuration gives a node.
fn name_of(alloc: Global, node: &Named) -> Result<NodeName, AllocError>
    ensures { IfOk result (λ name. name ≡ naming_in node.now) }
{
    let name = String::from_str(alloc, node.name())?;
    Ok(NodeName::new(node.id(), name))
}

/// The names that a configuration gives these nodes.
fn each_name(alloc: Global, nodes: &[Named]) -> Result<Vec<NodeName>, AllocError>
    ensures { IfOk result (λ names. names.items ≡ map naming_in nodes.now) }
{
    let mut names = Vec::with_capacity(alloc, nodes.len())?;
    for node in nodes {
        names.push(name_of(alloc, node)?)?;
    }
    Ok(names)
}

/// The names with which nodes are shown: those of a configuration.
pub fn names_of(alloc: Global, nodes: &[Named]) -> Result<Names, AllocError>
    ensures { IfOk result (AreNamesIn nodes.now) }
{
    let names = each_name(alloc, nodes)?;
    Ok(Names::of_nodes(alloc, names))
}

/// Adds the status of a node that plays in no script, with these names.
fn write_named<'a>(
    alloc: Global,
    node: &'a Node,
    names: &'a Names,
    text: &mut String,
) -> Result<(), Fault>
    requires live { IsLive node.now }
    ensures told { OnOk result (AddsText (string_bytes text.old) (string_bytes text.new) (IsStand names.now None node.now)) }
    ensures only_memory { IsOkUnless result Fault.NoMemory }
{
    write_stand(
        text,
        Seen {
            alloc,
            names,
            node,
            lines: None,
        },
    )
}

/// Adds the status of the node, with the names of its configuration.
pub fn tell_stand(alloc: Global, live: &Live, text: &mut String) -> Result<(), Fault>
    requires live { IsLive live.now.node }
    ensures told { OnOk result (AddsText (string_bytes text.old) (string_bytes text.new) (TellsStand live.now)) }
    ensures only_memory { IsOkUnless result Fault.NoMemory }
{
    let names = names_of(alloc, live.nodes())?;
    write_named(alloc, live.node(), &names, text)
}
