//! What is asked of history archives.

use scp_ledgers::Span;

/// Which ledgers are shown, and how.
#[derive(Clone, Copy)]
pub struct HistoryOrder {
    pub span: Span,
    /// Whether a node whose id is a number below 256 is shown by that number.
    pub by_number: bool,
    /// Whether each line is a JSON object.
    pub json: bool,
}
