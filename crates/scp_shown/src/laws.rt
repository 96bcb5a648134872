//! Laws of the definitions. Each is the contract of a function that does nothing.
ghost use Rattle.scp_shown.specs.Laws.{LinesAreOne};

/// The lines of a ledger follow from its entries: of the same messages with the same verdicts they are the same.
pub fn entries_have_one_list_of_lines()
    ensures { LinesAreOne }
{}
