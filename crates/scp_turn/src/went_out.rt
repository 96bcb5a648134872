//! A law of the definitions, the contract of a function that does nothing.
ghost use Rattle.scp_turn.specs.WentOut.{SendingsAreSent};

/// What went out over a link, in order, is all that was sent to its peer, of which the ledger theorem speaks.
pub fn what_went_out_was_sent()
    ensures { SendingsAreSent }
{}
