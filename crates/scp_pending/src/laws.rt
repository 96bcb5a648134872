//! What follows from the rules, for every list of takes. Each law is the contract of a function that does nothing.
ghost use Rattle.scp_pending.specs.Fetching.{RepliesAreAskedFor, TheLastAreStored};
ghost use Rattle.scp_pending.specs.Independence.{LanesAreLed, PassesInPlace, WhatMayPassPasses};
ghost use Rattle.scp_pending.specs.Linked.{NothingIsOfAStranger, WhoItIsStays};
ghost use Rattle.scp_pending.specs.Living.{OpenAtEachPlace, OpenByPlace};
ghost use Rattle.scp_pending.specs.Messages.{ParkedStandFor};
ghost use Rattle.scp_pending.specs.Pends.{HereFromNothing, HerePasses, RestIsSettled};
ghost use Rattle.scp_pending.specs.Placing.{CommandsKeepPlace};
ghost use Rattle.scp_pending.specs.Sanity.{SanityIsTold, SpellingIsTold};
ghost use Rattle.scp_pending.specs.Laws.{AllAccounts, AllExits, AllHaveCauses, CommandsPass, FewAreParked, WaitersWait, WaitersInOrder, WantedWhileWaited};

use scp_wire::a_beginning_keeps_the_shape;

/// The tests that the rules make of a quorum set pass exactly the sane ones, and exactly those that have an encoding.
pub fn the_tests_of_a_set_tell()
    ensures sane { SanityIsTold }
    ensures spelt { SpellingIsTold }
{}

/// All that was given, and all that is ready, has its cause in what was taken.
pub fn each_fate_has_its_cause()
    ensures causes { AllHaveCauses }
{}

/// At most 64 messages of a connection are parked.
pub fn few_are_parked()
    ensures few { FewAreParked }
{}

/// The connections in a hash's list are those on which an envelope waits for it.
pub fn who_waits_is_listed()
    ensures listed { WaitersWait }
{}

/// If the items of each link have the shape that its reader gives them: the connections in a hash's list are those of the
/// messages that were taken and still wait for it. Each is there once, in the order of their first such message.
pub fn who_waits_stands_in_order()
    ensures order { WaitersInOrder }
{}

/// A hash is wanted exactly while something that is parked waits for it.
pub fn a_hash_is_wanted_while_something_waits()
    ensures wanted { WantedWhileWaited }
{}

/// If the items of each link have the shape that its reader gives them: in each lane of a connection, what was given and
/// then what is held is what came, in order. It is whole up to the first end, or a front if that end is parked-full. Each
/// delivered message is the one of its number.
pub fn no_message_is_lost_or_overtaken()
    ensures accounts { AllAccounts }
{}

/// If the items of each link have that shape: while a connection is open, each message that left it had its own fate:
/// delivered, or lost by its set. If it was closed from outside, what was parked was dropped, with the first of each lane
/// still waiting, and then came the end, with the cause of the close. If one message too many came, it and the 64 parked ones
/// were dropped, with ascending numbers and the first of each lane still waiting; then came the end as parked-full.
pub fn each_connection_ends_by_its_cause()
    ensures exits { AllExits }
{}

/// Each local command other than Tick is given once, in order, and nothing else is given as a command.
pub fn each_command_passes_once()
    ensures commands { CommandsPass }
{}

/// If the items of each link have that shape: a connection is open in what is parked, so that its items are live, exactly if
/// three things hold. It was opened in what was taken, not closed there, and not cut off in what was given or is on its way.
/// This holds at each place of what was taken, by what came before it and what had left by then.
pub fn what_is_live_is_so_by_its_place()
    ensures live { OpenByPlace }
    ensures places { OpenAtEachPlace }
{
    a_beginning_keeps_the_shape();
}

/// The parked messages came live, each with its connection, its number and its content. For each connection they have the
/// numbers of what is parked of it, in order.
pub fn what_is_parked_came()
    ensures parked { ParkedStandFor }
{}

/// What holds of all that a stage took, gave and is, for the node and peers that it was made for, holds with one more call.
pub fn what_holds_of_a_stage_holds_with_one_call_more()
    ensures nothing { HereFromNothing }
    ensures more { HerePasses }
{}

/// Each local command is given in its place: after exactly what left because of what came before the command, each with its
/// cause in that.
pub fn each_command_keeps_its_place()
    ensures place { CommandsKeepPlace }
{}

/// A stage's identity never changes: its node, its peers, its quorum set.
pub fn who_it_is_stays()
    ensures config { WhoItIsStays }
{}

/// Only connections from a peer to the node are ever open. What is parked of a connection belongs to it, and all that was given
/// or is ready belongs to such a connection.
pub fn nothing_is_of_a_stranger()
    ensures links { NothingIsOfAStranger }
{}

/// Besides the local quorum set, exactly the last 256 sets are stored that came live, wanted, sane and unknown, in order. Each
/// is sane, and is found by its own hash.
pub fn the_last_sets_are_stored()
    ensures sets { TheLastAreStored }
{}

/// What is replied was asked for. A request goes over the link of a live envelope that names a set which isn't stored, if that
/// link wasn't asked yet. A stored set, or the answer that there is none, goes over the link of a live request for it.
pub fn what_is_replied_was_asked_for()
    ensures replies { RepliesAreAskedFor }
{}

/// A stage with nothing ready is settled: the head of each lane is an envelope that waits for its quorum set.
pub fn what_has_nothing_ready_is_settled()
    ensures settled { RestIsSettled }
{}

/// A lane that waits delays no other, even if its quorum set is never found. Take a live message that is no envelope, or whose
/// set is stored, and that finds nothing of its own slot parked on its connection. It is given by that same step, with its set,
/// whatever is parked in other lanes; so it comes right after what left because of what came before it. If something is parked in
/// a lane, the lane's head is an envelope whose own quorum set isn't stored.
pub fn no_lane_delays_another()
    ensures passes { WhatMayPassPasses }
    ensures place { PassesInPlace }
    ensures led { LanesAreLed }
{}
