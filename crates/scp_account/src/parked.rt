//! What waits at a node for quorum sets, as JSON.
ghost use Rattle.std.specs.Prelude.{◌≡◌, IfOk, IsOkUnless, codes, map};
ghost use Rattle.serde_json.specs.Data.{array, null, object, member, no_members};
ghost use Rattle.serde_json.specs.View.{view, items_of};
ghost use Rattle.scp_account.specs.Pieces.{count as number, digits, id_json};
ghost use Rattle.scp_account.specs.Parked.{hash_json, number_json, parked_json, waiting_json};

use crate::digits::{digits_of, id_value, message_value};
use scp_line::Parked;
use scp_line::below::types::{ConnId, Fault, Hash, Seq};
use scp_line::below::wire::Carried;
use serde_json::{Value, json};
use std::alloc::{AllocError, Global};

/// What is held of a connection, with its first waiting message and the hash that this message waits for.
fn waiting(
    alloc: Global,
    count: usize,
    first: u64,
    hash: &Hash,
    conn: &ConnId,
) -> Result<Value, AllocError>
    ensures { IfOk result (λ v. view v ≡ object (member (codes "count") (number count) (member (codes "first") (number first) (member (codes "from") (id_json conn.now.from) (member (codes "hash") (digits hash.now.0) (member (codes "life") (number conn.now.life) no_members)))))) }
{
    let life = conn.life;
    json!(in alloc; {"count": count, "first": first, "from": id_value(alloc, &conn.from)?, "hash": digits_of(alloc, &hash.0)?, "life": life})
}

/// What is held of a connection on which nothing waits.
fn ready(alloc: Global, count: usize, conn: &ConnId) -> Result<Value, AllocError>
    ensures { IfOk result (λ v. view v ≡ object (member (codes "count") (number count) (member (codes "first") null (member (codes "from") (id_json conn.now.from) (member (codes "hash") null (member (codes "life") (number conn.now.life) no_members)))))) }
{
    let life = conn.life;
    json!(in alloc; {"count": count, "first": null, "from": id_value(alloc, &conn.from)?, "hash": null, "life": life})
}

/// What is held of a connection.
fn parked_with(
    alloc: Global,
    count: usize,
    first: Option<(Seq, Hash)>,
    conn: &ConnId,
) -> Result<Value, AllocError>
    ensures { IfOk result (λ v. view v ≡ object (member (codes "count") (number count) (member (codes "first") (number_json first) (member (codes "from") (id_json conn.now.from) (member (codes "hash") (hash_json first) (member (codes "life") (number conn.now.life) no_members)))))) }
{
    match first {
        Some((seq, hash)) => waiting(alloc, count, seq.0, &hash, conn),
        None => ready(alloc, count, conn),
    }
}

/// What is held of each of these connections.
pub fn parked_values(alloc: Global, parked: &[Parked]) -> Result<Value, AllocError>
    ensures { IfOk result (λ v. view v ≡ array (items_of (map parked_json parked.now))) }
{
    let mut values = Vec::new(alloc);
    for held in parked {
        values.push(parked_with(alloc, held.count, held.first, &held.conn)?)?;
    }
    Ok(Value::from(values))
}

/// A message that waits.
fn waiting_value(alloc: Global, carried: &Carried) -> Result<Value, Fault>
    ensures value { IfOk result (λ v. view v ≡ waiting_json carried.now) }
    ensures only_memory { IsOkUnless result Fault.NoMemory }
{
    let life = carried.conn.life;
    let number = carried.seq.0;
    let bytes = message_value(alloc, carried.message.get())?;
    let value =
        json!(in alloc; {"bytes": bytes, "from": id_value(alloc, &carried.conn.from)?, "life": life, "message": number})?;
    Ok(value)
}

/// The messages that wait.
pub fn waiting_values(alloc: Global, messages: &[Carried]) -> Result<Value, Fault>
    ensures value { IfOk result (λ v. view v ≡ array (items_of (map waiting_json messages.now))) }
    ensures only_memory { IsOkUnless result Fault.NoMemory }
{
    let mut values = Vec::new(alloc);
    for carried in messages {
        values.push(waiting_value(alloc, carried)?)?;
    }
    Ok(Value::from(values))
}
