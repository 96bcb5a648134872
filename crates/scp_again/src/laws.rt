//! The law of what is sent once more: the contract of a function that does nothing.
ghost use Rattle.scp_again.specs.Laws.{NodesNeverGoBack, LateNodesNeverGoBack};

use scp_core::below::driver::Driver;
use scp_core::below::outbox::what_is_given_was_handed_out;

/// Over each link of a node that runs, with what is sent once more at any moments, of two statements of one slot and kind the later one is the same or
/// newer.
pub fn what_is_sent_once_more_never_goes_back<D: Driver + Drop + Copy>()
    ensures made { NodesNeverGoBack D.says }
    ensures late { LateNodesNeverGoBack D.says }
{
    what_is_given_was_handed_out();
}
