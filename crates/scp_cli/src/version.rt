//! The version. A build that nothing is proved of is made from a copy in which it says so (`scripts/quick`).

/// The version of the program.
pub static VERSION: &str = "1.0";
