//! Laws of the definitions, each the contract of a function that does nothing: what follows from the ledger theorem. A clause `from` says it
//! of a node that began with any slot, and with any state; the one before it of a node that began with slot 1, and with the first state.
ghost use Rattle.std.specs.Prelude.{ℕ, List};
ghost use Rattle.scp_core.specs.Node.{StepsSayWhy};
ghost use Rattle.scp_core.specs.Theorem.{StepsKeep, StepsKeepFrom};
ghost use Rattle.scp_core.specs.Ledger.{TheoremGivesLedger, TheoremGivesLedgerFrom};
ghost use Rattle.scp_core.specs.Headline.{LedgerGivesHeadline, LedgerGivesHeadlineFrom};
ghost use Rattle.scp_core.specs.Room.{TheoremGivesRoom};
ghost use Rattle.scp_core.specs.Settled.{IdleIsSettled};
ghost use Rattle.scp_core.specs.Same.{SameEventsSameReplies, SameEventsSameRepliesFrom};
ghost use Rattle.scp_core.specs.Handed.{StepsPutAll, DrainsGiveNext, RepliesFit};

use scp_theorem::below::apply::{
    what_holds_of_an_applier_holds_with_one_thing_more, what_is_applied_is_a_function,
};
use scp_theorem::below::ballot_rules::the_rules_are_a_function;
use scp_theorem::below::driver::{Application, Driver};
use scp_theorem::below::envelope::newer_is_an_order;
use scp_theorem::below::ledger::{
    a_beginning_keeps_the_window, what_holds_of_a_ledger_holds_with_one_thing_more,
};
use scp_theorem::below::nominate::an_input_is_a_function;
use scp_theorem::below::outbox::what_is_sent_was_handed_out;
use scp_theorem::below::pending::{
    nothing_is_of_a_stranger, the_last_sets_are_stored, what_is_replied_was_asked_for,
    who_it_is_stays,
};
use scp_theorem::below::wire::{
    a_beginning_keeps_the_shape, what_fits_a_link, what_is_read_grows_with_the_items,
    what_is_read_keeps_the_shape,
};
use scp_theorem::{what_keeps_the_ledger_keeps_the_headline, what_ran_keeps_the_ledger};

/// What holds of a list of exchanges and the node holds of the list with one more step: from slot 1 and the first state, and so from whatever a
/// node began with.
pub fn what_holds_of_a_past_holds_with_one_step_more<D: Driver + Drop + Copy>()
    ensures keeps { StepsKeep D.says }
    ensures from { (first : ℕ) (base : List ℕ) → StepsKeepFrom D.says first base }
{
    what_is_read_grows_with_the_items();
    what_is_read_keeps_the_shape();
    a_beginning_keeps_the_shape();
    who_it_is_stays();
    what_holds_of_a_ledger_holds_with_one_thing_more::<D>();
    what_holds_of_an_applier_holds_with_one_thing_more();
}

/// The node holds its ledger. Each message has at most one fate, each fate and each verdict has its cause, each decision has what it rests
/// on, and all that was sent has its reason: it is what the outboxes gave of exactly what the stages handed out.
pub fn each_node_holds_its_ledger<D: Driver + Drop + Copy>()
    ensures ledger { TheoremGivesLedger D.says }
    ensures from { (first : ℕ) (base : List ℕ) → TheoremGivesLedgerFrom D.says first base }
{
    what_ran_keeps_the_ledger::<D>();
    what_is_read_grows_with_the_items();
    what_is_read_keeps_the_shape();
    a_beginning_keeps_the_shape();
    who_it_is_stays();
    nothing_is_of_a_stranger();
    what_is_replied_was_asked_for();
    what_is_sent_was_handed_out();
    what_holds_of_a_ledger_holds_with_one_thing_more::<D>();
    what_holds_of_an_applier_holds_with_one_thing_more();
}

/// A node that holds its ledger holds its headline: what was sent to it, what it holds, what it shows, and its state.
pub fn each_node_holds_its_headline<A: Application + Drop + Copy>()
    ensures headline { LedgerGivesHeadline A.says A.first A.after }
    ensures from { (first : ℕ) (base : List ℕ) → LedgerGivesHeadlineFrom A.says A.begins A.after first base }
{
    what_keeps_the_ledger_keeps_the_headline::<A>();
}

/// Each step leaves why the node failed as it was, or is the one that failed it, and says why.
pub fn each_step_says_why_it_failed<D: Driver + Drop + Copy>()
    ensures why { StepsSayWhy D.says }
{}

/// When the pending stage answers Idle, nothing is ready, and the head of each lane that it holds is an envelope that waits for its quorum set.
pub fn what_is_idle_is_settled<D: Driver + Drop + Copy>()
    ensures settled { IdleIsSettled D.says }
{}

/// The length of each queue is what was put into it minus what was taken. Its room is its capacity minus that
/// length. A link's lives are its accepted opens. For a node that failed this holds at the moment before. Each
/// link's room is what it was then, plus one if its reader took an item.
pub fn queues_hold_what_was_put_and_not_taken<D: Driver + Drop + Copy>()
    ensures room { TheoremGivesRoom D.says }
{}

/// Whatever the pending stage replies fits a link: a request for a quorum set, a sane one, or the answer that there is none.
pub fn whatever_is_replied_fits()
    ensures fits { RepliesFit }
{
    what_fits_a_link();
    what_is_replied_was_asked_for();
    the_last_sets_are_stored();
}

/// Each step puts all that its stage hands out into the outboxes of its links, in order. A drain of a link
/// gives what its outbox gives next, or Idle if that is nothing.
pub fn what_is_handed_out_is_put<D: Driver + Drop + Copy>()
    ensures puts { StepsPutAll D.says }
    ensures drains { DrainsGiveNext D.says }
{}

/// The same events give the same replies. Two runs with the same application, configuration and events, in which no
/// step ran out of memory, have the same replies and leave nodes that show the same. Two things aren't promised: where
/// in memory values lie, and the order of the applier's buffer.
pub fn what_two_runs_reply_is_the_same<D: Driver + Drop + Copy>()
    ensures same { SameEventsSameReplies D.says }
    ensures from { (first : ℕ) (base : List ℕ) → SameEventsSameRepliesFrom D.says first base }
{
    newer_is_an_order();
    an_input_is_a_function::<D>();
    the_rules_are_a_function();
    what_holds_of_a_ledger_holds_with_one_thing_more::<D>();
    a_beginning_keeps_the_window();
    what_holds_of_an_applier_holds_with_one_thing_more();
    what_is_applied_is_a_function();
}
