//! Laws of the definitions, each the contract of a function that does nothing.
ghost use Rattle.scp_ledger.specs.Journals.{JournalsPass, LedgerKeepsWindow, TakesGrow};
ghost use Rattle.scp_ledger.specs.Laws.{JournalStands};
ghost use Rattle.scp_ledger.specs.Onwards.{WindowIsKept};

use scp_slot::below::driver::Driver;

/// For each connection, the journal grows by what each thing that is taken says of that connection: the number of a message, or its end.
pub fn the_journal_stands_for_what_was_taken<D: Driver + Drop + Copy>()
    ensures { JournalStands D.says.level D.says.extracted D.says.combined D.says.place }
{}

/// `Journals` ties all that a ledger took to what each thing gave, to the verdict on each, and to the ledger. It holds of a new ledger, and
/// it holds with one thing more. One thing more only adds to the journal and to the decisions.
pub fn what_holds_of_a_ledger_holds_with_one_thing_more<D: Driver + Drop + Copy>()
    ensures journals { JournalsPass D.says.level D.says.extracted D.says.combined D.says.place }
    ensures grows { TakesGrow D.says.level D.says.extracted D.says.combined D.says.place }
{}

/// The window of what goes to the applier: each decision is for one of the 16 slots from the lowest undecided one on, and its slot has none
/// yet. Each beginning of such a list keeps the window. With one thing more it is kept exactly where that thing may be given.
pub fn a_beginning_keeps_the_window()
    ensures kept { WindowIsKept }
{}

/// What a ledger gives next fits the window of all that it gave before, so the applier can take it.
pub fn what_is_given_on_keeps_the_window<D: Driver + Drop + Copy>()
    ensures given { LedgerKeepsWindow D.says.level D.says.extracted D.says.combined D.says.place }
{}
