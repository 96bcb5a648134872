//! What an outbox gives, and when.
use crate::short::{Short, message};
use scp_outbox::below::envelope::Pledges;
use scp_outbox::below::types::{Fault, Hash};
use scp_outbox::below::wire::{BoxedEnvelope, FittingMessage, Message};
use scp_outbox::{Mark, Out, Outbox, Outboxes};
use std::alloc::Global;
use std::process::Abort;
use std::test::*;

/// What is given, in short. A mark; the first byte of a hash that is asked for; or the first slot and the count of a batch. Of a statement,
/// its slot with its count of votes or its ballot's counter.
#[derive(Clone, Copy, Debug, PartialEq, Eq)]
enum Given {
    Mark(Mark),
    Asks(u8),
    Records(u64, usize),
    Nominates(u64, usize),
    Prepares(u64, u32),
    Other,
    Nothing,
}

/// What is done, or what is seen then.
#[derive(Clone, Copy, Debug)]
enum Step {
    Puts(Short),
    Marks(Mark),
    /// A mark is refused.
    IsFull,
    Gives(Given),
    /// This many statements were lost.
    Lost(u64),
}

fn statement(envelope: &BoxedEnvelope) -> Given {
    let statement = &envelope.get().statement;
    match &statement.pledges {
        Pledges::Nominate(nominate) => {
            Given::Nominates(statement.slot.0, nominate.votes.as_slice().len())
        }
        Pledges::Prepare(prepare) => Given::Prepares(statement.slot.0, prepare.ballot.counter),
        _ => Given::Other,
    }
}

fn in_short(out: &Out) -> Given {
    match out {
        Out::Mark(mark) => Given::Mark(*mark),
        Out::Message(Message::GetSet(hash)) => Given::Asks(hash.0[0]),
        Out::Message(Message::Records { first, values }) => {
            Given::Records(first.0, values.as_slice().len())
        }
        Out::Message(Message::Envelope(envelope)) => statement(envelope),
        Out::Message(_) => Given::Other,
        Out::Nothing => Given::Nothing,
    }
}

/// Puts a message. Returns whether it fits.
fn put(outbox: &mut Outbox, message: Message) -> bool {
    match FittingMessage::new(message) {
        Ok(fitting) => {
            outbox.put(fitting);
            true
        }
        Err(_) => false,
    }
}

/// Does the step. Returns whether it goes as the step says.
fn does(outbox: &mut Outbox, alloc: Global, step: Step) -> Result<bool, Fault> {
    match step {
        Step::Puts(short) => Ok(put(outbox, message(alloc, short)?)),
        Step::Marks(mark) => Ok(outbox.mark(mark).is_ok()),
        Step::IsFull => Ok(outbox.mark(Mark::Closed) == Err(Fault::Full)),
        Step::Gives(given) => Ok(in_short(&outbox.next()) == given),
        Step::Lost(count) => Ok(outbox.overwritten() == count),
    }
}

/// The first step of a new outbox that doesn't go as the step says.
fn first_wrong(alloc: Global, live: bool, steps: &[Step]) -> Result<Option<usize>, Fault> {
    let mut outbox = Outbox::new(alloc, live)?;
    for (place, next) in steps.iter().enumerate() {
        if !does(&mut outbox, alloc, *next)? {
            return Ok(Some(place));
        }
    }
    Ok(None)
}

/// Marks come first, then requests and answers in order, then statements.
const IN_TURN: [Step; 14] = [
    Step::Puts(Short::Votes(1, 1, 1)),
    Step::Puts(Short::AsksSet(5)),
    Step::Puts(Short::Batch(4, 2, 1)),
    Step::Puts(Short::AsksSet(6)),
    Step::Marks(Mark::Opened),
    Step::Marks(Mark::Stop),
    Step::Gives(Given::Mark(Mark::Opened)),
    Step::Gives(Given::Mark(Mark::Stop)),
    Step::Gives(Given::Asks(5)),
    Step::Gives(Given::Records(4, 2)),
    Step::Gives(Given::Asks(6)),
    Step::Gives(Given::Nominates(1, 1)),
    Step::Gives(Given::Nothing),
    Step::Lost(0),
];

/// A link that isn't live is given no message.
const NOT_LIVE: [Step; 10] = [
    Step::Puts(Short::AsksSet(5)),
    Step::Puts(Short::AsksSet(6)),
    Step::Puts(Short::Votes(1, 1, 1)),
    Step::Gives(Given::Nothing),
    Step::Marks(Mark::Opened),
    Step::Gives(Given::Mark(Mark::Opened)),
    Step::Gives(Given::Asks(5)),
    Step::Marks(Mark::Closed),
    Step::Gives(Given::Mark(Mark::Closed)),
    Step::Gives(Given::Nothing),
];

/// A statement takes the place of one with its slot and kind, if it is newer.
const KEEPS_ITS_PLACE: [Step; 11] = [
    Step::Puts(Short::Votes(1, 1, 1)),
    Step::Puts(Short::Prepares(1, 4)),
    Step::Puts(Short::Votes(2, 1, 1)),
    Step::Puts(Short::Votes(1, 3, 1)),
    Step::Puts(Short::Votes(1, 2, 1)),
    Step::Puts(Short::Prepares(1, 3)),
    Step::Lost(1),
    Step::Gives(Given::Nominates(1, 3)),
    Step::Gives(Given::Prepares(1, 4)),
    Step::Gives(Given::Nominates(2, 1)),
    Step::Gives(Given::Nothing),
];

#[test]
fn an_outbox_gives_in_turn(rt: HostRuntime) -> Result<(), Fail> {
    for (live, steps) in [
        (true, IN_TURN.as_slice()),
        (false, &NOT_LIVE),
        (true, &KEEPS_ITS_PLACE),
    ] {
        let wrong = first_wrong(rt.alloc(), live, steps)?;
        assert!(rt; wrong.is_none(), "{wrong:?} of {steps:?}");
    }
    Ok(())
}

#[test]
fn of_65_the_first_is_lost_and_of_17_marks_the_last_is_refused(
    rt: HostRuntime,
) -> Result<(), Fail> {
    let mut asks = [Step::Gives(Given::Nothing); 131];
    let mut slots = [Step::Gives(Given::Nothing); 131];
    for number in 0..65u8 {
        asks[usize::from(number)] = Step::Puts(Short::AsksSet(number));
        slots[usize::from(number)] = Step::Puts(Short::Prepares(u64::from(number), 1));
    }
    asks[65] = Step::Lost(0);
    slots[65] = Step::Lost(1);
    for number in 1..65u8 {
        asks[usize::from(number) + 65] = Step::Gives(Given::Asks(number));
        slots[usize::from(number) + 65] = Step::Gives(Given::Prepares(u64::from(number), 1));
    }
    let mut marks = [Step::Gives(Given::Nothing); 34];
    for place in 0..16 {
        marks[place] = Step::Marks(Mark::Stop);
        marks[place + 17] = Step::Gives(Given::Mark(Mark::Stop));
    }
    marks[16] = Step::IsFull;
    for steps in [asks.as_slice(), &slots, &marks] {
        let wrong = first_wrong(rt.alloc(), true, steps)?;
        assert!(rt; wrong.is_none(), "{wrong:?} of {steps:?}");
    }
    Ok(())
}

/// Asks the link for the set whose hash is 32 times this byte.
fn ask(outboxes: &mut Outboxes, link: u8, byte: u8) {
    outboxes.put(link, FittingMessage::of(Message::GetSet(Hash([byte; 32]))));
}

/// The first byte of the hash that is asked for next at the link.
fn next(outboxes: &mut Outboxes, link: u8) -> Option<u8> {
    match outboxes.next(link) {
        Some(Message::GetSet(hash)) => Some(hash.0[0]),
        _ => None,
    }
}

#[test]
fn each_link_has_its_own_messages(rt: HostRuntime) -> Result<(), Fail> {
    let mut outboxes = Outboxes::new(rt.alloc(), 2)?;
    assert_eq!(rt; outboxes.len(), 2);
    for (link, byte) in [(1, 5), (0, 6), (1, 7), (2, 8)] {
        ask(&mut outboxes, link, byte);
    }
    for (link, byte) in [
        (0, Some(6)),
        (0, None),
        (1, Some(5)),
        (1, Some(7)),
        (1, None),
        (2, None),
    ] {
        assert_eq!(rt; next(&mut outboxes, link), byte);
    }
    assert_eq!(rt; outboxes.overwritten(1), 0);
    assert_eq!(rt; outboxes.overwritten(2), 0);
    Ok(())
}
