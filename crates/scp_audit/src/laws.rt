//! Laws of the definitions. Each is the contract of a function that does nothing else.
ghost use Rattle.scp_audit.specs.Laws.{AuditsAreOne};

use scp_archive::{a_stream_is_one_list_of_records, an_entry_is_its_value};
use scp_judged::messages_have_one_list_of_verdicts;

/// Bytes have one audit: the same records, each an entry or not read for the same reason, and of each ledger the same messages with the
/// same verdicts, of which the same counts.
pub fn an_archive_has_one_audit()
    ensures { AuditsAreOne }
{
    a_stream_is_one_list_of_records();
    an_entry_is_its_value();
    messages_have_one_list_of_verdicts();
}
