//! The capacities of a configuration.
ghost use Rattle.std.specs.Prelude.{◌≡◌, Some, None, IfOk, IfErr, IfSome, IfNone, option_map};
ghost use Rattle.toml.specs.Data.{get_member};
ghost use Rattle.toml.specs.View.{view, table_view};
ghost use Rattle.scp_live_config.specs.Config.{capacity_said, SaysQueues, SaysCapacities};
ghost use Rattle.scp_live_config.specs.Wrong.{IsWrong, queue_key, IsStray};
ghost use Rattle.scp_live_config.specs.declared.wrong.Section.TheVariants as section;
ghost use Rattle.scp_live_config.specs.inside.Faults.{Tells, IsWrongQueue};

use crate::fault::ConfigFault;
use crate::table::{find, number_to, stray};
use crate::wrong::{Queue, Section, Wrong};
use scp_quorum::below::types::Capacities;
use std::alloc::Global;
use toml::{Table, Value};

/// The capacity of a queue whose key is missing.
const USUAL: u16 = 64;

/// The key of a queue's capacity.
pub fn key_of(queue: Queue) -> &'static str
    ensures { result.now ≡ queue_key queue }
{
    match queue {
        Queue::Link => "LINK",
        Queue::Inbox => "INBOX",
        Queue::Ready => "READY",
        Queue::Decided => "DECIDED",
    }
}

/// The capacity that the table gives for a queue.
fn capacity(queues: &Table, queue: Queue) -> Result<u16, ConfigFault>
    ensures read { IfOk result (λ n. capacity_said (get_member (queue_key queue) (table_view queues.now)) ≡ Some n) }
    ensures wrong { IfErr result (Tells (IsWrongQueue (table_view queues.now))) }
{
    match find(queues, key_of(queue)) {
        None => Ok(USUAL),
        Some(value) => match number_to(1024, value) {
            Some(number) => Ok(number as u16),
            None => Err(ConfigFault::Wrong(Wrong::Capacity(queue))),
        },
    }
}

/// The capacities that the table `CAPACITIES` gives.
fn read_queues(alloc: Global, queues: &Table) -> Result<Capacities, ConfigFault>
    ensures read { IfOk result (λ capacities. SaysQueues (table_view queues.now) capacities) }
    ensures wrong { IfErr result (Tells (IsWrongQueue (table_view queues.now))) }
{
    if let Some(key) = stray(Section::Queues, queues) {
        let key = String::from_str(alloc, key.as_str())?;
        return Err(ConfigFault::Wrong(Wrong::StrayCapacity(key)));
    }
    Ok(Capacities {
        link: capacity(queues, Queue::Link)?,
        inbox: capacity(queues, Queue::Inbox)?,
        ready: capacity(queues, Queue::Ready)?,
        decided: capacity(queues, Queue::Decided)?,
    })
}

/// The capacities that a document gives.
pub fn read_capacities(alloc: Global, doc: &Table) -> Result<Capacities, ConfigFault>
    ensures read { IfOk result (λ capacities. SaysCapacities (table_view doc.now) capacities) }
    ensures wrong { IfErr result (Tells (IsWrong (table_view doc.now))) }
{
    match find(doc, "CAPACITIES") {
        None => Ok(Capacities {
            link: USUAL,
            inbox: USUAL,
            ready: USUAL,
            decided: USUAL,
        }),
        Some(value) => match value.as_table() {
            Some(queues) => read_queues(alloc, queues),
            None => Err(ConfigFault::Wrong(Wrong::Capacities)),
        },
    }
}
