//! The pieces of an object.
ghost use Rattle.std.specs.Prelude.{◌≡◌, map, IfOk};
ghost use Rattle.serde_json.specs.Data.{array};
ghost use Rattle.serde_json.specs.View.{view, items_of};
ghost use Rattle.scp_history_json.specs.Json.{node_json, nodes_json, value_json, place_json, side_json};

use scp_shown::below::history::{Place, Side, write_node, write_value};
use scp_shown::below::types::{NodeId, SharedValue};
use serde_json::{Value, json};
use std::alloc::{AllocError, Global};

/// A node: its address or its number.
pub(crate) fn node_value(alloc: Global, by_number: bool, node: &NodeId) -> Result<Value, AllocError>
    ensures { IfOk result (λ v. view v ≡ node_json by_number node.now) }
{
    let mut text = String::new(alloc);
    write_node(&mut text, by_number, node)?;
    Ok(Value::from(text))
}

/// Nodes.
pub(crate) fn nodes_value(
    alloc: Global,
    by_number: bool,
    nodes: &[NodeId],
) -> Result<Value, AllocError>
    ensures { IfOk result (λ v. view v ≡ nodes_json by_number nodes.now) }
{
    let mut values = Vec::new(alloc);
    for node in nodes {
        values.push(node_value(alloc, by_number, node)?)?;
    }
    Ok(Value::from(values))
}

/// A value: the first digits of its SHA-256.
pub(crate) fn hash_value(alloc: Global, value: &SharedValue) -> Result<Value, AllocError>
    ensures { IfOk result (λ v. view v ≡ value_json value.now) }
{
    let mut text = String::new(alloc);
    write_value(&mut text, value.get())?;
    Ok(Value::from(text))
}

/// Where a message is.
pub(crate) fn place_value(alloc: Global, place: Place) -> Result<Value, AllocError>
    ensures { IfOk result (λ v. view v ≡ place_json place) }
{
    let file = place.file as u64;
    let message = place.message as u64;
    json!(in alloc; {"file": file, "message": message})
}

/// A value, and the nodes for which it is certified.
fn side_value(alloc: Global, by_number: bool, side: &Side) -> Result<Value, AllocError>
    ensures { IfOk result (λ v. view v ≡ side_json by_number side.now) }
{
    json!(in alloc; {
        "nodes": nodes_value(alloc, by_number, side.nodes.as_slice())?,
        "value": hash_value(alloc, &side.value)?
    })
}

/// The values that are certified.
pub(crate) fn sides_value(
    alloc: Global,
    by_number: bool,
    sides: &[Side],
) -> Result<Value, AllocError>
    ensures { IfOk result (λ v. view v ≡ array (items_of (map (side_json by_number) sides.now))) }
{
    let mut values = Vec::new(alloc);
    for side in sides {
        values.push(side_value(alloc, by_number, side)?)?;
    }
    Ok(Value::from(values))
}
