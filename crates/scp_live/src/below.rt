//! What crates above take of those that this one is built on: a module for each, by its name without `scp_`.

pub mod live_config {
    pub use scp_live_config::{ConfigFault, Named, SetWrong, Settings, Wrong, write_fault};
}

pub mod live_lines {
    pub use scp_live_lines::{
        Asked, WordFault, read_line, write_again, write_ok, write_turned_away,
    };
}
