//! The rule of an outbox in its place: it is as the turns so far have left it.
use crate::turn::{Part, Turn};
use crossbeam_queue::RuledArrayQueue;
use crossbeam_queue::protocol::{Join, Lesson, Outcome, Protocol, Split};
use scp_outbox::Outbox;
use std::marker::{Brand, PhantomData};

/// The rule.
pub struct OneOrder;

impl Protocol<Outbox, Part> for OneOrder {
    ghost use Rattle.scp_shared_outbox.specs.inside.Rule.{beginner, Kept};

    ghost holds = { Kept };

    ghost first = { beginner };
}

/// The place of an outbox. Whoever has a turn takes the outbox out of it, and puts it back.
pub type Place = RuledArrayQueue<Outbox, Part, OneOrder>;

/// A pass of a place.
pub type Pass = crossbeam_queue::Pass<Outbox, Part>;

/// The outbox is taken out: whoever takes it then knows the turns so far.
pub struct TakesOut;

impl Outcome<Outbox, Part> for TakesOut {
    ghost use Rattle.scp_shared_outbox.specs.inside.Rule.{IsInHand};

    ghost then = { λ v x w. IsInHand v x w };
}

/// The outbox is put back as it was.
pub struct Leaves;

impl Outcome<Outbox, Part> for Leaves {
    ghost use Rattle.std.specs.Prelude.{◌≡◌};
    ghost use Rattle.scp_shared_outbox.specs.inside.Rule.{emptied};

    ghost then = { λ v x w. w ≡ emptied v };
}

/// A turn, only for the proof. The call that ends the turn picks it.
pub trait Said {
    ghost use Rattle.scp_shared_outbox.specs.declared.turn.Turn.{Turn};

    ghost turn: { Turn };
}

impl Said for Brand {
    ghost use Rattle.scp_outbox.specs.declared.mark.Mark.TheVariants.{Stop};
    ghost use Rattle.scp_shared_outbox.specs.declared.turn.Turn.TheVariants.{Marks};

    ghost turn = { Marks Stop };
}

/// The outbox is put back after this turn.
pub struct Tells<J>(PhantomData<J>);

impl<J: Said> Outcome<Outbox, Part> for Tells<J> {
    ghost use Rattle.std.specs.Prelude.{◌≡◌};
    ghost use Rattle.scp_shared_outbox.specs.inside.Rule.{after};

    ghost then = { λ v x w. w ≡ after J.turn v };
}

/// A producer's pass is made.
pub struct Makes;

impl Split<Part> for Makes {
    ghost use Rattle.std.specs.Prelude.{◌+◌};
    ghost use Rattle.scp_shared_outbox.specs.inside.Rule.{producer};

    ghost left = { λ v. record v { made = v.made + 1 } };

    ghost right = { λ v. producer v.made };
}

/// The pass of the end that leaves marks is made.
pub struct MakesMarker;

impl Split<Part> for MakesMarker {
    ghost use Rattle.std.specs.Prelude.{[], false};
    ghost use Rattle.scp_shared_outbox.specs.inside.Rule.{marker};

    ghost left = { λ v. record v { marks = false; marked = [] } };

    ghost right = { λ v. marker v.marked };
}

/// A producer's pass is taken in.
pub struct Hears;

impl Join<Part> for Hears {
    ghost use Rattle.std.specs.Prelude.{true};
    ghost use Rattle.scp_shared_outbox.specs.inside.Rule.{nobody};

    ghost both = { λ v w. record v { puts = true; number = w.number; put = w.put } };

    ghost spent = { nobody };
}

/// The pass of the end that leaves marks is taken in.
pub struct HearsMarks;

impl Join<Part> for HearsMarks {
    ghost use Rattle.std.specs.Prelude.{true};
    ghost use Rattle.scp_shared_outbox.specs.inside.Rule.{nobody};

    ghost both = { λ v w. record v { marks = true; marked = w.marked } };

    ghost spent = { nobody };
}

/// What the producer put whose pass was taken in is what it put in the turns so far.
pub struct ToldPuts;

impl Lesson<Outbox, Part> for ToldPuts {
    ghost use Rattle.std.specs.Prelude.{◌≡◌};
    ghost use Rattle.scp_shared_outbox.specs.Turns.{put_by};

    ghost fact = { λ v items. put_by v.number v.turns ≡ v.put };
}

/// What was marked and given is what the turns so far say. No producer put anything, except those that were made.
pub struct ToldRest;

impl Lesson<Outbox, Part> for ToldRest {
    ghost use Rattle.scp_shared_outbox.specs.inside.Rule.{KnowsRest};

    ghost fact = { λ v items. KnowsRest v };
}
