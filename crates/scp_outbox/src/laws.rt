//! Laws of the definitions. Each is the contract of a function that does nothing.
ghost use Rattle.scp_outbox.specs.Laws.{PutsAddTheMessage, GivesAreOfWhatWaits, GivesAddNothing, StatementsKeepOneEach, PutsKeepOneEach, GivesKeepOneEach, GivesTakeOne, GivesMessagesWhileLive};

/// What waits after a put waited before, or was put. What is given waited, and what then waits waited before. So
/// each message that is given was put.
pub fn what_is_given_was_put()
    ensures put { PutsAddTheMessage }
    ensures given { GivesAreOfWhatWaits }
    ensures left { GivesAddNothing }
{}

/// Whatever comes or goes, at most one statement of each slot and kind waits, and nothing is over its limit.
pub fn one_statement_waits_of_each_slot_and_kind()
    ensures takes { StatementsKeepOneEach }
    ensures put { PutsKeepOneEach }
    ensures given { GivesKeepOneEach }
{}

/// What is given is gone: one item less waits then. A message is given only while the link is live and no mark waits.
pub fn what_is_given_is_gone()
    ensures gone { GivesTakeOne }
    ensures live { GivesMessagesWhileLive }
{}
