//! Laws of what travels, each the contract of a function that does nothing.
ghost use Rattle.scp_gather.specs.Sent.{WhatIsCarriedIsSentOut};
ghost use Rattle.scp_gather.specs.Theirs.{WhatCameFirstIsTheirs, WhatIsReadIsTheirs};

use scp_workers::below::shared_outbox::{statements_are_given_in_order, what_is_given_was_put};
use scp_workers::below::wire::what_is_spelt_is_read;

/// What a courier carried of what came out of an outbox may be sent, and each statement is newer than those of its slot and kind before it.
pub fn what_is_carried_is_sent_out()
    ensures { WhatIsCarriedIsSentOut }
{
    what_is_given_was_put();
    statements_are_given_in_order();
}

/// If all bytes that went over a link are what its sender may send, all that is read of the link is the sender's own. The sender may send
/// each message, and each statement is newer than those of its slot and kind before it. No connection of the link ends because of bytes that
/// are no message. The same holds of each beginning of what is read.
pub fn what_is_read_is_the_senders_own()
    ensures all { WhatIsReadIsTheirs }
    ensures first { WhatCameFirstIsTheirs }
{
    what_is_spelt_is_read();
}
