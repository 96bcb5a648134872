//! The report on history archives that are set beside each other.
//!
//! What it promises:
//! - each record that isn't read, each archive that is cut and each ledger that is shown has its lines, and nothing else has any;
//! - the entries of one ledger are joined, in the order of the archives and of their records;
//! - ledgers come in ascending order, each once, and at the end their sums;
//! - the text is that of the lines, one after another;
//! - files have one report: it follows from their bytes.
//!
//! Not claimed: that an archive says what a network said. It is its publisher's word, and no signature is checked.
#![tactic(auto)]

mod archives;
pub mod below;
mod ending;
mod entries;
mod grouped;
mod laws;
mod report;
mod span;
mod text;

pub use archives::Archives;
pub use laws::files_have_one_report;
pub use span::Span;
pub use text::write_report;
