//! Laws of the definitions. Each is the contract of a function that does nothing.
ghost use Rattle.scp_archive.specs.Laws.{RecordsAreApart, NothingHasNoRecord, StreamIsOneList, StreamBegins, StreamGrows, EntryIsItsValue};

use scp_envelope::an_envelope_is_its_value;
use scp_quorum::a_quorum_set_is_its_value;

/// No record begins another, and bytes begin with one record at most.
pub fn no_record_begins_another()
    ensures apart { RecordsAreApart }
    ensures nothing { NothingHasNoRecord }
{}

/// Bytes are one list of records, and one rest that begins with none.
pub fn a_stream_is_one_list_of_records()
    ensures { StreamIsOneList }
{}

/// What holds of a stream, of the records so far and of what is left holds with each record more.
pub fn a_stream_grows_by_a_record()
    ensures begins { StreamBegins }
    ensures grows { StreamGrows }
{}

/// An entry is its value, but for the memory that it is in.
pub fn an_entry_is_its_value()
    ensures { EntryIsItsValue }
{
    a_quorum_set_is_its_value();
    an_envelope_is_its_value();
}
