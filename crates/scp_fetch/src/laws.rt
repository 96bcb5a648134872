//! Laws of the definitions. Each is the contract of a function that does nothing.
ghost use Rattle.scp_fetch.specs.Calls.{AskedByTheCalls};

/// For every list of calls: a link counts as asked for a hash exactly where it was asked for it, and since then the hash stayed wanted and
/// the link didn't open. So the link was asked since both the hash became wanted and the link last opened.
pub fn a_link_counts_as_asked_by_the_calls()
    ensures asked { AskedByTheCalls }
{}
