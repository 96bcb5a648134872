//! An entry of a ledger.

use scp_history::below::audit::Ledger;

/// An entry of a ledger, judged, and the number of the archive that it is of, from 1.
#[derive(Clone, Copy, Drop)]
pub struct Part<'a> {
    pub file: usize,
    pub ledger: &'a Ledger,
}
