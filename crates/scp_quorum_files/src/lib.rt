//! Networks, their nodes and quorum sets, in files that others publish, and in the configurations of nodes.
//!
//! What it promises:
//! - A network is what its document says: each node by its name, with its quorum set, and the organisations.
//! - A node that a quorum set names, and that has no quorum set itself, is among the names. It isn't left out of the set.
//! - Each key that isn't known is reported, as often as it comes.
//! - A text is refused only if it isn't JSON, or says of no network that it is this one.
#![tactic(auto)]

mod configs;
mod fault;
mod form;
mod keys;
mod names;
mod naming;
mod network;
mod read;
mod report;
mod sets;
mod words;

pub use configs::{ConfigsFault, read_configs};
pub use fault::FileFault;
pub use form::{Form, Part};
pub use naming::{NamingFault, nodes_named};
pub use network::{Named, Network, Organisation};
pub use read::read_json;
pub use report::{beside_text, network_text};
pub use words::{write_configs_fault, write_file_fault};
