//! Inputs to a nominator, each with what it must give: values that may be valid, of which the product's driver has none.
ghost use Rattle.std.specs.Prelude.{◌≡◌, OnOk};
ghost use Rattle.scp_nominate.specs.Nomination.{nomination, IsSound};

use crate::byte_driver::ByteDriver;
use crate::short::{Said, ShortSet, Values, envelope, set, value};
use scp_nominate::below::driver::Driver;
use scp_nominate::below::envelope::{Envelope, Pledges};
use scp_nominate::below::types::{Fault, Hash, NodeId, Slot, Value};
use scp_nominate::below::vote::{StatementKind, kind_of_pledges};
use scp_nominate::{Nominated, Nominator};
use std::alloc::Global;
use std::process::Abort;
use std::test::*;

/// What a nominator is given: another node's votes and accepted values, or a proposal.
#[derive(Clone, Copy)]
enum Input {
    Hears(u8, Values, Values),
    Proposes(&'static [u8]),
}

/// An input, and the votes and accepted values of the statement that it must give, if any.
type Row = (Input, Option<(Values, Values)>);

/// Whether these are the values.
fn are(values: &[Value], want: Values) -> bool {
    let mut all = values.len() == want.len();
    for (value, bytes) in values.iter().zip(want) {
        if value.as_slice() != *bytes {
            all = false;
        }
    }
    all
}

/// Whether the node says these votes and accepted values on slot 7, names this set, and signs nothing.
fn says(envelope: &Envelope, number: u8, set_hash: Hash, want: (Values, Values)) -> bool {
    let statement = &envelope.statement;
    match &statement.pledges {
        Pledges::Nominate(own) => {
            statement.node == NodeId([number; 32])
                && statement.slot == Slot(7)
                && envelope.signature.as_slice().is_empty()
                && own.set_hash == set_hash
                && are(own.votes.as_slice(), want.0)
                && are(own.accepted.as_slice(), want.1)
        }
        _ => false,
    }
}

/// Whether no composite was given, and the node's statement is the wanted one.
fn is_wanted(
    given: &Nominated,
    number: u8,
    set_hash: Hash,
    want: Option<(Values, Values)>,
) -> bool {
    let is_said = match (&given.statement, want) {
        (Some(envelope), Some(want)) => says(envelope.get(), number, set_hash, want),
        (None, None) => true,
        _ => false,
    };
    is_said && given.composite.is_none()
}

/// Both of nodes 1 and 2.
const BOTH: ShortSet = (2, &[1, 2]);

/// One input to this node's nominator. Refused if it hears itself.
fn put<D: Driver + Drop>(
    alloc: Global,
    nominator: &mut Nominator<D>,
    me: NodeId,
    input: Input,
) -> Result<Nominated, Fault>
    requires sound { IsSound D.says.level D.says.place nominator.old }
    requires me { (nomination nominator.old).board.me ≡ me }
    ensures sound { IsSound D.says.level D.says.place nominator.new }
    ensures me { OnOk result ((nomination nominator.new).board.me ≡ me) }
{
    match input {
        Input::Hears(number, votes, accepted) => {
            let heard = envelope(alloc, number, Said::Nominate(votes, accepted))?;
            let statement = &heard.get().statement;
            if kind_of_pledges(&statement.pledges) != StatementKind::Nomination
                || statement.node == me
            {
                return Err(Fault::BadConfig);
            }
            nominator.take(heard, set(alloc, BOTH)?)
        }
        Input::Proposes(bytes) => nominator.propose(value(alloc, bytes)?),
    }
}

/// Whether a nominator of this node on slot 7, whose set is both of nodes 1 and 2, gives what each row wants, in order.
fn gives<D: Driver + Drop>(
    alloc: Global,
    driver: D,
    number: u8,
    rows: &[Row],
) -> Result<bool, Fault> {
    let local = set(alloc, BOTH)?;
    let set_hash = local.hash();
    let me = NodeId([number; 32]);
    let mut nominator = Nominator::new(alloc, me, Slot(7), local, driver)?;
    let mut all = true;
    for row in rows {
        let given = put(alloc, &mut nominator, me, row.0)?;
        if !is_wanted(&given, number, set_hash, row.1) {
            all = false;
        }
    }
    Ok(all)
}

/// What is extracted from a value that may be valid is voted for, and accepted once it is named itself.
const TAKEN: [Row; 2] = [
    (Input::Hears(1, &[&[], &[8, 9]], &[]), Some((&[&[8]], &[]))),
    (
        Input::Hears(1, &[&[], &[8], &[8, 9]], &[]),
        Some((&[&[8]], &[&[8]])),
    ),
];

/// A value that may be valid is voted for if this node proposed it, and not accepted.
const NOT_ACCEPTED: [Row; 2] = [
    (Input::Proposes(&[8, 9]), Some((&[&[8, 9]], &[]))),
    (Input::Hears(2, &[&[8, 9]], &[&[8, 9]]), None),
];

#[test]
fn values_that_may_be_valid(rt: HostRuntime) -> Result<(), Fail> {
    assert!(rt; gives(rt.alloc(), ByteDriver, 2, &TAKEN)?);
    assert!(rt; gives(rt.alloc(), ByteDriver, 1, &NOT_ACCEPTED)?);
    Ok(())
}
