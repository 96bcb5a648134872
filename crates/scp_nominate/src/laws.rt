//! Laws of nomination. Each is the contract of a function that does nothing.
ghost use Rattle.scp_nominate.specs.Laws.{StepsAreAFunction, ComingIsAFunction, HearingIsAFunction};

/// By one rule, the steps lead from one board, whose local set is in range, and one state to exactly one board and one state.
pub fn the_steps_are_a_function()
    ensures { StepsAreAFunction }
{}

/// So each input leaves exactly one board and the same lists, by what a nominator goes by.
pub fn an_input_is_a_function<D>()
    ensures coming { ComingIsAFunction (D) }
    ensures hearing { HearingIsAFunction (D) }
{}
