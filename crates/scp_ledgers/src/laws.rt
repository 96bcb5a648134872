//! Laws of the definitions. Each is the contract of a function that does nothing else.
ghost use Rattle.scp_ledgers.specs.Laws.{ReportsAreOne};

use scp_shown::below::audit::an_archive_has_one_audit;
use scp_shown::entries_have_one_list_of_lines;

/// The report on files, its lines and its text, follows from their bytes.
pub fn files_have_one_report()
    ensures { ReportsAreOne }
{
    an_archive_has_one_audit();
    entries_have_one_list_of_lines();
}
