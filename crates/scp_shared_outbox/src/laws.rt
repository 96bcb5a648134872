//! Laws of the ends, and of what an outbox gives. Each is the contract of a function that does nothing.
ghost use Rattle.scp_shared_outbox.specs.Crossing.{EndsCross};
ghost use Rattle.scp_shared_outbox.specs.Laws.{GivenWasPut, MarksComeInOrder, StatementsGoInOrder};

/// Each end of an outbox may be moved to another thread.
pub fn ends_cross_threads()
    ensures crosses { EndsCross }
{}

/// Each message that was given was put by a producer.
pub fn what_is_given_was_put()
    ensures put { GivenWasPut }
{
    scp_outbox::what_is_given_was_put();
}

/// The marks that were given are the first that were left, in their order.
pub fn marks_are_given_in_order()
    ensures order { MarksComeInOrder }
{}

/// If only one producer puts statements, each newer than those of its slot and kind before it, those that are given are so too.
pub fn statements_are_given_in_order()
    ensures order { StatementsGoInOrder }
{
    scp_outbox::what_is_given_was_handed_out();
}
