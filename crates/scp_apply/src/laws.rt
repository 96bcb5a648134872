//! Laws of the definitions, each the contract of a function that does nothing.
ghost use Rattle.scp_apply.specs.Applies.{ApplierKeepsUp, AppliesPass};
ghost use Rattle.scp_apply.specs.Laws.{ApplyingIsAFunction, NextCanBeTaken};

use scp_ledger::a_beginning_keeps_the_window;

/// An applier whose applied and buffered decisions are exactly those that a ledger of the same first slot made can take the next
/// one that the ledger makes.
pub fn the_next_decision_can_be_taken()
    ensures { NextCanBeTaken }
{}

/// `Applies` ties all that an applier took to what it is. It holds of a new applier, and with one thing more. Such an applier can take
/// whatever keeps the window, in its order.
pub fn what_holds_of_an_applier_holds_with_one_thing_more()
    ensures passes { AppliesPass }
    ensures keeps_up { ApplierKeepsUp }
{
    a_beginning_keeps_the_window();
}

/// What an applier answers and shows after a take is a function of what it showed before and of what it
/// takes. So two that take the same things give the same answers.
pub fn what_is_applied_is_a_function()
    ensures { ApplyingIsAFunction }
{}
