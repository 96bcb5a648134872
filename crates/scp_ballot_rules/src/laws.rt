//! Laws of the ballot protocol. Each is the contract of a function that does nothing.
ghost use Rattle.scp_ballot_rules.specs.Laws.{StepIsAFunction, SettlingIsAFunction, ComposingIsAFunction, TimingIsAFunction, InputIsAFunction, StepIsLicensed, RestOwesNothing};
ghost use Rattle.scp_ballot_rules.specs.Values.{StepSaysNoMore, ComposingSaysNoMore, TimingSaysNoMore, InputSaysNoMore};

/// Over one board, one state leads to exactly one state: by the first rule that changes it, by up to 64 rules, and after each input.
pub fn the_rules_are_a_function()
    ensures step { StepIsAFunction }
    ensures settling { SettlingIsAFunction }
    ensures composing { ComposingIsAFunction }
    ensures timing { TimingIsAFunction }
    ensures input { InputIsAFunction }
{}

/// From a ready state whose own statement is on the board, a rule makes a ready state, whose own statement may follow that one.
pub fn a_step_is_licensed()
    ensures { StepIsLicensed }
{}

/// If no rule changes a ready state whose own statement is on the board, nothing is owed.
pub fn rest_owes_nothing()
    ensures { RestOwesNothing }
{}

/// A rule says only values that are on the board or in the state; an input says only these and its composite. So whatever a
/// test says of these values, it says of all that comes of them.
pub fn the_rules_say_what_stands()
    ensures step { StepSaysNoMore }
    ensures composing { ComposingSaysNoMore }
    ensures timing { TimingSaysNoMore }
    ensures input { InputSaysNoMore }
{}
