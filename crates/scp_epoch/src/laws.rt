//! Laws of lives, each the contract of a function that does nothing.
ghost use Rattle.std.specs.Prelude.{ℕ, List};
ghost use Rattle.scp_epoch.specs.Ascending.{LivesNeverGoBack};
ghost use Rattle.scp_epoch.specs.Laws.{LivesApplyInOrder, LivesApplyOnce, LivesShowOneState, LivesHoldTheirLedgers, LivesHoldTheirHeadlines, TheSameIsSaidAgain, WhatBeginsSoBeginsBehind, WhatStandsLikeTakesUp};

use scp_again::below::node::{Application, Driver, what_holds_of_a_past_holds_with_one_step_more};
use scp_again::below::outbox::what_is_given_was_handed_out;
use scp_turn::{each_node_holds_its_headline, each_node_holds_its_ledger};

/// A life is one ledger, over all its epochs.
pub fn a_life_is_one_ledger<A: Application + Drop + Copy>()
    // Its slots are applied in order, from the first one on, none twice.
    ensures slots { LivesApplyInOrder A.says A.begins A.after }
    ensures once { LivesApplyOnce A.says A.begins A.after }
    // Its last node shows what all applied values make of the state with which the life began.
    ensures state { LivesShowOneState A.says A.begins A.after }
    // Each of its nodes holds its ledger, and its headline, over all that it heard.
    ensures ledgers { LivesHoldTheirLedgers A.says A.begins A.after }
    ensures headlines { LivesHoldTheirHeadlines A.says A.begins A.after }
{
    what_holds_of_a_past_holds_with_one_step_more::<A>();
    each_node_holds_its_ledger::<A>();
    each_node_holds_its_headline::<A>();
}

/// How a node takes up another one where `next` isn't called: it begins behind it, and stands like it.
pub fn what_begins_behind_and_stands_like_takes_up<A: Application + Drop + Copy>()
    ensures behind { WhatBeginsSoBeginsBehind A.says A.begins A.after }
    ensures takes_up { WhatStandsLikeTakesUp A.says A.begins A.after }
{
    what_holds_of_a_past_holds_with_one_step_more::<A>();
    each_node_holds_its_ledger::<A>();
}

/// Two ledgers of one node that say the same would say the same messages once more of each open slot.
pub fn what_is_said_the_same_is_the_same_messages<D: Driver + Drop + Copy>()
    ensures messages { TheSameIsSaidAgain D }
{}

/// Over each link of a life, what its nodes send behind what was carried into their epochs, with what each would send once more at its epoch's
/// end: of two statements of one slot and kind the later one is the same or newer.
pub fn what_a_life_sends_never_goes_back<A: Application + Drop + Copy>()
    ensures { LivesNeverGoBack A.says A.begins A.after }
{
    what_holds_of_a_past_holds_with_one_step_more::<A>();
    each_node_holds_its_ledger::<A>();
    each_node_holds_its_headline::<A>();
    what_is_given_was_handed_out();
}
