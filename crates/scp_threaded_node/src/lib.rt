//! A node whose stages run in threads of their own.
//!
//! What it promises, under every schedule:
//! - A node that was started consists of the channels and workers of one node, each worker in a thread of its own.
//! - Each link that the host drives carries exactly what the host does on it, in order. Each other link belongs to a courier.
//! - `end` stops a node, joins each of its threads, and gathers what they left. The ledger theorem holds of what was sent over its links, and
//!   of its own commands.
//! - Each of its stages put what it handed out into the outboxes of its links, and each courier sent what its outbox gave over its link.
//! - If the node is made to keep it, its report has what came over each of its links: all that was sent over the link.
//! - If the node can't be gathered, the first stage that failed is reported. Else it is the fault of the first link whose sending end has
//!   one, or of its commands, or out of memory.
#![tactic(auto)]

mod acting;
pub mod below;
mod ending;
mod make;
mod node;
mod starting;

pub use acting::{Act, act_at, flush, is_carried_at, tell};
pub use ending::{Over, Stood, end};
pub use make::{Lane, Parts, make_parts};
pub use node::{Node, Running, Source, Tail, start};
pub use scp_gather::{NodeReport, what_is_reported_keeps_the_headline};
pub use starting::{
    ApplyThread, CourierThread, HoldsCourier, HoldsEnds, PendThread, ReaderThread, SlotThread,
};
