//! What crates above take of those that this one is built on: a module for each, by its name without `scp_`.

pub mod script_text {
    pub use scp_script_text::{Form, Kind, rewrite};
}
