//! Laws of the definitions, each the contract of a function that does nothing.
ghost use Rattle.scp_theorem.specs.Books.{LedgerKeepsHeadline};
ghost use Rattle.scp_theorem.specs.State.{FoldIsMade};

use scp_apply::below::driver::Driver;
use scp_apply::below::kv::ops_in_finds_the_list;

/// Where the ledger theorem holds of a node's account, the headline holds of the books that the account makes.
pub fn what_keeps_the_ledger_keeps_the_headline<D: Driver + Drop + Copy>()
    ensures headline { LedgerKeepsHeadline D.says.level D.says.extracted D.says.combined D.says.place }
{}

/// The state that operation lists fold to, as `KvDriver` applies them, is what their operations make of the empty map, in order. A value that
/// is no operation list doesn't change it.
pub fn the_fold_is_what_lists_make()
    ensures { FoldIsMade }
{
    ops_in_finds_the_list();
}
