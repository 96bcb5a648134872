//! The rule of a channel with several producers and one consumer.
use crate::item::{Item, View};
use crossbeam_channel::protocol::{Join, Lesson, Outcome, Protocol, Split};
use std::marker::{Brand, PhantomData};

/// What a producer may send, as a law of all that it sent.
pub trait Law<T> {
    ghost use Rattle.std.specs.Prelude.{[], ◌++◌, List};

    ghost fits: { List T → Type 0 };

    ghost at_first: { fits [] };

    ghost before: { (xs ys : List T) → fits (xs ++ ys) → fits xs };
}

/// The law that allows everything.
pub struct Any;

impl<T> Law<T> for Any {
    ghost fits = { λ _. Unit {0} };

    ghost at_first = { tt };

    ghost before = { λ _ _ _. tt };
}

/// The rule of a channel under this law.
pub struct InOrder<L>(PhantomData<L>);

impl<T, L: Law<T>> Protocol<Item<T>, View<T>> for InOrder<L> {
    ghost use Rattle.std.specs.Prelude.{[]};
    ghost use Rattle.scp_ends.specs.Order.{receiver, Ordered};

    ghost holds = { Ordered L.fits };

    ghost first = { receiver 0 0 [] };
}

/// The capacity of a channel, for the proof alone. The call that makes the channel picks it.
pub trait Room {
    ghost use Rattle.std.specs.Prelude.{ℕ};

    ghost room: { ℕ };
}

impl Room for Brand {
    ghost room = { 0 };
}

/// The channel is made: the consumer's pass learns its capacity.
pub struct Sizes<J>(PhantomData<J>);

impl<T, J: Room> Split<View<T>> for Sizes<J> {
    ghost use Rattle.scp_ends.specs.inside.Passes.{spent};

    ghost left = { λ v. record v { room = J.room } };

    ghost right = { λ v. spent };
}

/// A producer's pass is made.
pub struct Makes;

impl<T> Split<View<T>> for Makes {
    ghost use Rattle.std.specs.Prelude.{[], ◌+◌, false};
    ghost use Rattle.scp_ends.specs.inside.Passes.{sender};

    ghost left = { λ v. record v { made = v.made + 1; knows = false } };

    ghost right = { λ v. sender v.room v.made [] };
}

/// A producer's pass is taken back: the receiver's pass learns what was sent.
pub struct Takes;

impl<T> Join<View<T>> for Takes {
    ghost use Rattle.std.specs.Prelude.{true};
    ghost use Rattle.scp_ends.specs.inside.Passes.{spent};

    ghost both = { λ v w. record v { knows = true; number = w.number; put = w.put } };

    ghost spent = { spent };
}

/// A producer sends an item.
pub struct Sends;

impl<T> Outcome<Item<T>, View<T>> for Sends {
    ghost use Rattle.std.specs.Prelude.{◌≡◌, [], ◌∷◌, ◌++◌};

    ghost then = { λ v x w. w ≡ record v { put = v.put ++ x ∷ [] } };
}

impl<T> Lesson<Item<T>, View<T>> for Sends {
    ghost fact = { λ v items. Unit {0} };
}

/// The consumer receives an item.
pub struct Receives<L>(PhantomData<L>);

impl<T, L: Law<T>> Outcome<Item<T>, View<T>> for Receives<L> {
    ghost use Rattle.std.specs.Prelude.{◌≡◌, ◌<◌, ℕ, [], ◌∷◌, ◌++◌};
    ghost use Rattle.scp_ends.specs.Order.{number_of, of, values};

    ghost then = { λ v x w. (w ≡ record v { got = v.got ++ x ∷ [] }) × (number_of x < v.made) × ((p : ℕ) → L.fits (values (of p (v.got ++ x ∷ [])))) × (v.made ≡ 1 → L.fits (values (v.got ++ x ∷ []))) };
}

impl<T, L: Law<T>> Lesson<Item<T>, View<T>> for Receives<L> {
    ghost fact = { λ v items. Unit {0} };
}

/// The producer whose pass was taken back is one of the producers, and there are no others. What it sent is what was received of it, followed
/// by what the channel holds of it. The channel holds no more items than its capacity.
pub struct Told;

impl<T> Lesson<Item<T>, View<T>> for Told {
    ghost use Rattle.std.specs.Prelude.{◌≡◌, ◌<◌, ◌≤◌, ℕ, [], ◌++◌, length};
    ghost use Rattle.scp_ends.specs.Order.{of};

    ghost fact = { λ v items. (v.put ≡ of v.number (v.got ++ items)) × ((p : ℕ) → v.made ≤ p → of p (v.got ++ items) ≡ []) × (length items ≤ v.room) × (v.number < v.made) };
}
