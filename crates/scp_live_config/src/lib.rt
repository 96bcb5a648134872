//! Reads the configuration of a node from a TOML text.
//!
//! What it promises:
//! - a text that is a valid configuration is read as exactly what it says: the names with their ids, the node's own name, the peers in
//!   order, a sane quorum set, and the capacities;
//! - for any other text a fault is reported: the text isn't TOML, with a line, or a key whose value isn't what is expected there;
//! - a document of which such a fault holds is no valid configuration, so no valid one is refused as wrong;
//! - the digest of a configuration is the SHA-256 (FIPS 180-4) of its form, and configurations that differ have different forms.
#![tactic(auto)]

mod fault;
mod form;
mod laws;
mod names;
mod parts;
mod peers;
mod queues;
mod read;
mod sets;
mod settings;
mod table;
mod text;
mod wrong;

pub use fault::ConfigFault;
pub use laws::{one_form_has_one_meaning, what_is_wrong_says_nothing};
pub use read::read_config;
pub use settings::{Named, Settings};
pub use text::write_fault;
pub use wrong::{Queue, Section, SetWrong, Wrong};
