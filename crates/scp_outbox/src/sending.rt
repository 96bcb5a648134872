//! Laws of what is sent. Each is the contract of a function that does nothing.
ghost use Rattle.scp_outbox.specs.Sending.{EmptyOwes, PutsKeepOwes, GivesKeepOwes, MarksKeepOwes, EmptySends, PutsKeepSends, GivesKeepSends, MarksKeepSends, SendsAreSent, NothingChangesNothing, TurnsAddUp};

use crate::one_statement_waits_of_each_slot_and_kind;

/// All that an outbox gives was handed out. If each statement handed out is newer than those of its slot and kind before it, so
/// is each that is given. This holds at first, and stays so when a message is handed out and put, when the next is given, and
/// when a mark is left.
pub fn what_is_given_was_handed_out()
    ensures empty { EmptyOwes }
    ensures puts { PutsKeepOwes }
    ensures gives { GivesKeepOwes }
    ensures marks { MarksKeepOwes }
{
    one_statement_waits_of_each_slot_and_kind();
}

/// All that is sent was handed out. If each statement handed out is newer than those of its slot and kind before it, so is
/// each that is sent. This holds at first, and stays so when more is handed out and put, when the next is sent, and when a
/// mark is given or left.
pub fn what_is_sent_was_handed_out()
    ensures empty { EmptySends }
    ensures puts { PutsKeepSends }
    ensures gives { GivesKeepSends }
    ensures marks { MarksKeepSends }
    ensures sent { SendsAreSent }
{
    one_statement_waits_of_each_slot_and_kind();
}

/// What is handed out in turns is handed out as one list for each link. A turn without messages changes nothing, and the lists
/// of two turns come one after the other.
pub fn what_is_handed_out_adds_up()
    ensures none { NothingChangesNothing }
    ensures turns { TurnsAddUp }
{}
