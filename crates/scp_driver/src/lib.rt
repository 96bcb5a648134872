//! What an application says about values: which are valid, what is taken from others, how candidates are combined, and who
//! leads; and what it makes of the decided values.
#![tactic(auto)]

mod application;
pub mod below;
mod driver;
mod kv_driver;

pub use application::Application;
pub use driver::{Driver, Level};
pub use kv_driver::{KvDriver, place_of};
