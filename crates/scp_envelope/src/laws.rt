//! Laws of the definitions. Each is the contract of a function that does nothing.
ghost use Rattle.scp_envelope.specs.Envelopes.{EnvelopeIsItsValue, ValueIsAnEnvelopes};
ghost use Rattle.scp_envelope.specs.Laws.{NewerIsIrreflexive, NewerIsTransitive, NewerIsAsymmetric, LargerIsLonger, AcceptedPreparedGoesDown, ExternalizeAcceptsPrepared, ExternalizeAcceptsCommitted};

/// An envelope is read back from its value, so bytes encode one envelope at most. Each value of the kind is that of
/// the envelope that it is read back as.
pub fn an_envelope_is_its_value()
    ensures envelope { EnvelopeIsItsValue }
    ensures value { ValueIsAnEnvelopes }
{}

/// Newer is a strict order of all statements: irreflexive and transitive, and no two are newer than each other.
pub fn newer_is_an_order()
    ensures irreflexive { NewerIsIrreflexive }
    ensures transitive { NewerIsTransitive }
    ensures asymmetric { NewerIsAsymmetric }
{}

/// The lists of sane nominations ascend. Of two ascending lists, one that contains the other is larger exactly where it is longer.
pub fn larger_is_longer()
    ensures { LargerIsLonger }
{}

/// What is accepted as prepared is also accepted with a smaller or equal counter and the same value.
pub fn accepted_prepared_goes_down()
    ensures { AcceptedPreparedGoesDown }
{}

/// An EXTERNALIZE of a value accepts all that a CONFIRM of the value accepts whose nCommit is the EXTERNALIZE's counter.
pub fn externalize_accepts_what_confirm_accepts()
    ensures prepared { ExternalizeAcceptsPrepared }
    ensures committed { ExternalizeAcceptsCommitted }
{}
