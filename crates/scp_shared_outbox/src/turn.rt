//! The turns at an outbox, and what a pass knows about them.
use scp_outbox::below::wire::Message;
use scp_outbox::{Mark, Out};
use std::collections::LinkedList;

/// One turn at an outbox. No value of it is ever made.
pub enum Turn {
    /// The producer with this number put a message.
    Puts(u8, Message),
    /// A mark was left.
    Marks(Mark),
    /// This was given.
    Gives(Out),
}

/// What a pass knows. No value of it is ever made.
pub struct Part {
    /// It is a producer's.
    pub puts: bool,
    /// The producer's number.
    pub number: u8,
    /// What that producer put.
    pub put: LinkedList<Message>,
    /// It belongs to the end that leaves marks.
    pub marks: bool,
    /// The marks that were left.
    pub marked: LinkedList<Mark>,
    /// It belongs to the end that is given what waits.
    pub takes: bool,
    /// What was given.
    pub gave: LinkedList<Out>,
    /// How many producers there are.
    pub made: u8,
    /// It has the outbox in hand.
    pub holds: bool,
    /// The turns before, the latest first, if it has the outbox in hand.
    pub turns: LinkedList<Turn>,
}
