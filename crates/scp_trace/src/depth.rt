//! How much a trace shows.

/// How much a trace shows of a script's run.
#[derive(Clone, Copy, PartialEq, Eq)]
pub enum Depth {
    /// Only where nodes stand: at the reports and at the end.
    Stands,
    /// All that happens, line by line, and where nodes stand.
    Whole,
}
