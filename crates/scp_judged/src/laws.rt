//! Laws of the definitions. Each is the contract of a function that does nothing.
ghost use Rattle.scp_judged.specs.Named.{NamedGrows};
ghost use Rattle.scp_judged.specs.Verdicts.{VerdictsAreOne};

/// With one set more, what is named is what the list with that set names.
pub fn what_is_named_grows()
    ensures { NamedGrows }
{}

/// Messages have one list of verdicts at most, and one list of what counts.
pub fn messages_have_one_list_of_verdicts()
    ensures { VerdictsAreOne }
{}
