//! What came on the links of a node whose stages ran in threads, as JSON.
ghost use Rattle.std.specs.Prelude.{◌≡◌, IfOk, Some, map, slice_get};
ghost use Rattle.serde_json.specs.Data.{array, null};
ghost use Rattle.serde_json.specs.View.{view, items_of};
ghost use Rattle.scp_account.specs.Arrived.{item_json, arrived_json, arrival_json, arrivals_json};

use crate::digits::{digits_of, id_value};
use crate::links::word;
use scp_line::LinkReport;
use scp_line::below::types::NodeId;
use scp_line::below::wire::LinkItem;
use serde_json::{Value, json};
use std::alloc::{AllocError, Global};

/// An item that came.
fn item_value(alloc: Global, item: &LinkItem) -> Result<Value, AllocError>
    ensures { IfOk result (λ v. view v ≡ item_json item.now) }
{
    match item {
        LinkItem::Opened(_) => word(alloc, "open"),
        LinkItem::Bytes(_, bytes) => digits_of(alloc, bytes.as_slice()),
        LinkItem::Closed(_) => word(alloc, "close"),
    }
}

/// The items that came, in order.
fn item_values(alloc: Global, items: &[LinkItem]) -> Result<Value, AllocError>
    ensures { IfOk result (λ v. view v ≡ array (items_of (map item_json items.now))) }
{
    let mut values = Vec::new(alloc);
    for item in items {
        values.push(item_value(alloc, item)?)?;
    }
    Ok(Value::from(values))
}

/// The value for what wasn't kept.
fn not_kept() -> Value
    ensures { view result ≡ null }
{
    Value::Null
}

/// What came on a link, if it was kept.
fn kept_value(alloc: Global, kept: &Option<Vec<LinkItem>>) -> Result<Value, AllocError>
    ensures { IfOk result (λ v. view v ≡ arrived_json (Some kept.now)) }
{
    match kept {
        Some(items) => item_values(alloc, items.as_slice()),
        None => Ok(not_kept()),
    }
}

/// What came on the link with this number, if it was kept.
fn arrived_value(
    alloc: Global,
    came: &[Option<Vec<LinkItem>>],
    link: usize,
) -> Result<Value, AllocError>
    ensures { IfOk result (λ v. view v ≡ arrived_json (slice_get came.now link)) }
{
    match came.get(link) {
        Some(kept) => kept_value(alloc, kept),
        None => Ok(not_kept()),
    }
}

/// The link with this number to this peer.
fn arrival_value(
    alloc: Global,
    came: &[Option<Vec<LinkItem>>],
    link: usize,
    peer: &NodeId,
) -> Result<Value, AllocError>
    ensures { IfOk result (λ v. view v ≡ arrival_json came.now link peer.now) }
{
    json!(in alloc; {"came": arrived_value(alloc, came, link)?, "peer": id_value(alloc, peer)?})
}

/// These links, in their order.
pub fn arrival_values(
    alloc: Global,
    came: &[Option<Vec<LinkItem>>],
    links: &[LinkReport],
) -> Result<Value, AllocError>
    ensures { IfOk result (λ v. view v ≡ array (items_of (arrivals_json came.now 0 links.now))) }
{
    let mut values = Vec::new(alloc);
    let mut link = 0;
    for report in links {
        values.push(arrival_value(alloc, came, link, &report.peer)?)?;
        link += 1;
    }
    Ok(Value::from(values))
}
