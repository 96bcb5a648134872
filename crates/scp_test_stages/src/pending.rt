//! Messages that are held, and connections that wait.
use crate::parts::{ME, THREE, TWO, carried, hash, says, set, stage};
use Event::*;
use scp_apply::below::envelope::{Nominate, Pledges, ValueList};
use scp_apply::below::pending::Pending;
use scp_apply::below::types::{ConnId, Fault, NodeId};
use scp_apply::below::wire::{Cause, Command, Inbound, Message, SideMessage};
use std::alloc::Global;
use std::process::Abort;
use std::test::*;

/// An item to take, on a life of a link. Quorum sets go by their numbers.
#[derive(Clone, Copy)]
enum Event {
    Opened(ConnId),
    Closed(ConnId),
    /// A nomination of node 2 with this number, for this slot, that names the set. If it comes several times, the numbers go on.
    Names(ConnId, u64, u64, u8),
    GetSet(ConnId, u8),
    Set(ConnId, u8),
    Tick,
}

/// What events led to: how many things the stage gave (messages for links, and ready things), and the most messages of node 2's first
/// connection that it held right after an event.
#[derive(Clone, Copy, PartialEq, Eq)]
struct Seen {
    given: usize,
    most: usize,
}

/// Events, each this many times, and what they lead to. At the end, how many messages of node 2's
/// first connection are held, and which connections wait for set 2.
#[derive(Clone, Copy)]
struct Case<'a> {
    events: &'a [(u64, Event)],
    seen: Seen,
    held: usize,
    waiting: &'a [ConnId],
}

/// The first connections of nodes 2 and 3, and the second of node 2.
const FIRST: ConnId = ConnId {
    from: TWO,
    to: ME,
    life: 1,
};

const OTHER: ConnId = ConnId {
    from: THREE,
    to: ME,
    life: 1,
};

const AGAIN: ConnId = ConnId {
    from: TWO,
    to: ME,
    life: 2,
};

/// A connection of a node that is no peer.
const STRANGER: ConnId = ConnId {
    from: NodeId([5; 32]),
    to: ME,
    life: 1,
};

fn nomination(alloc: Global, slot: u64, number: u8) -> Result<Message, Fault> {
    let nominate = Nominate {
        set_hash: hash(alloc, number)?,
        votes: ValueList::new(Vec::new(alloc)),
        accepted: ValueList::new(Vec::new(alloc)),
    };
    says(alloc, TWO, slot, Pledges::Nominate(nominate))
}

/// The item of an event that came this often before.
fn item(alloc: Global, event: &Event, before: u64) -> Result<Inbound, Fault> {
    match event {
        Opened(conn) => Ok(Inbound::Opened(*conn)),
        Closed(conn) => Ok(Inbound::Closed {
            conn: *conn,
            cause: Cause::Link,
        }),
        Names(conn, first, slot, number) => {
            let message = nomination(alloc, *slot, *number)?;
            carried(*conn, first.saturating_add(before), message)
        }
        GetSet(conn, number) => Ok(Inbound::Side {
            conn: *conn,
            message: SideMessage::GetSet(hash(alloc, *number)?),
        }),
        Set(conn, number) => Ok(Inbound::Side {
            conn: *conn,
            message: SideMessage::Set(set(alloc, *number)?),
        }),
        Tick => Ok(Inbound::Local(Command::Tick)),
    }
}

/// Takes all that is ready, and counts it.
fn drain(pending: &mut Pending) -> usize {
    for count in 0..99 {
        if pending.next_ready().is_none() {
            return count;
        }
    }
    99
}

/// The event happens once more, and all that is ready is taken. A stage that ran out of memory gives and takes nothing any more:
/// `BadConfig` if it does.
fn step(
    alloc: Global,
    pending: &mut Pending,
    event: &Event,
    before: u64,
    seen: &mut Seen,
) -> Result<(), Fault> {
    if pending.next_ready().is_some() {
        return Err(Fault::BadConfig);
    }
    let item = item(alloc, event, before)?;
    let sent = match pending.take(item) {
        Ok(sent) => usize::from(sent.is_some()),
        Err(fault) => {
            let gives = pending.next_ready().is_some();
            let again = pending.take(Inbound::Local(Command::Tick));
            let is_failed = matches!(again, Err(Fault::Failed)) && !gives;
            return Err(if is_failed { fault } else { Fault::BadConfig });
        }
    };
    seen.most = seen.most.max(pending.parked(&FIRST));
    seen.given = seen
        .given
        .saturating_add(sent)
        .saturating_add(drain(pending));
    Ok(())
}

/// The events happen, once both links are open.
fn play(alloc: Global, pending: &mut Pending, events: &[(u64, Event)]) -> Result<Seen, Fault> {
    let mut seen = Seen { given: 0, most: 0 };
    step(alloc, pending, &Opened(FIRST), 0, &mut seen)?;
    step(alloc, pending, &Opened(OTHER), 0, &mut seen)?;
    for (times, event) in events {
        for before in 0..*times {
            step(alloc, pending, event, before, &mut seen)?;
        }
    }
    Ok(seen)
}

/// Whether the case comes out as written.
fn is_so(alloc: Global, case: &Case<'_>) -> Result<bool, Fault> {
    let wanted = hash(alloc, 2)?;
    let mut pending = stage(alloc)?;
    let seen = play(alloc, &mut pending, case.events)?;
    Ok(
        seen == case.seen
            && pending.parked(&FIRST) == case.held
            && pending.waiting(&wanted) == case.waiting,
    )
}

/// Three envelopes of two connections wait for one set.
const THREE_WAIT: Case<'static> = Case {
    events: &[
        (1, Names(FIRST, 0, 1, 2)),
        (1, Names(OTHER, 0, 2, 2)),
        (1, Names(FIRST, 1, 1, 2)),
    ],
    seen: Seen { given: 2, most: 2 },
    held: 2,
    waiting: &[FIRST, OTHER],
};

/// The first connection ends. Its envelopes and its end are given, but nothing that comes on it later.
const ONE_ENDS: Case<'static> = Case {
    events: &[
        (1, Names(FIRST, 0, 1, 2)),
        (1, Names(OTHER, 0, 2, 2)),
        (1, Names(FIRST, 1, 1, 2)),
        (1, Closed(FIRST)),
        (1, Names(FIRST, 2, 1, 1)),
    ],
    seen: Seen { given: 5, most: 2 },
    held: 0,
    waiting: &[OTHER],
};

/// The same, and then the set comes.
const THE_SET_COMES: Case<'static> = Case {
    events: &[
        (1, Names(FIRST, 0, 1, 2)),
        (1, Names(OTHER, 0, 2, 2)),
        (1, Names(FIRST, 1, 1, 2)),
        (1, Closed(FIRST)),
        (1, Set(OTHER, 2)),
    ],
    seen: Seen { given: 6, most: 2 },
    held: 0,
    waiting: &[],
};

/// The same, and then the set is abandoned.
const IT_IS_GIVEN_UP: Case<'static> = Case {
    events: &[
        (1, Names(FIRST, 0, 1, 2)),
        (1, Names(OTHER, 0, 2, 2)),
        (1, Names(FIRST, 1, 1, 2)),
        (1, Closed(FIRST)),
        (12, Tick),
    ],
    seen: Seen { given: 6, most: 2 },
    held: 0,
    waiting: &[],
};

/// A node that waits again, on its next connection, comes last.
const WAITS_AGAIN: Case<'static> = Case {
    events: &[
        (1, Names(FIRST, 0, 1, 2)),
        (1, Names(OTHER, 0, 1, 2)),
        (1, Closed(FIRST)),
        (1, Opened(AGAIN)),
        (1, Names(AGAIN, 0, 1, 2)),
    ],
    seen: Seen { given: 5, most: 1 },
    held: 0,
    waiting: &[OTHER, AGAIN],
};

/// 64 of a connection are held.
const SIXTY_FOUR: Case<'static> = Case {
    events: &[(64, Names(FIRST, 0, 1, 2))],
    seen: Seen { given: 1, most: 64 },
    held: 64,
    waiting: &[FIRST],
};

/// The 65th is held too, until all of them are given, and the end.
const SIXTY_FIVE: Case<'static> = Case {
    events: &[(65, Names(FIRST, 0, 1, 2))],
    seen: Seen {
        given: 67,
        most: 65,
    },
    held: 0,
    waiting: &[],
};

/// Nothing is given for connections that aren't open: a second one of an open link, and a stranger's.
const NOT_OPEN: Case<'static> = Case {
    events: &[
        (1, Opened(AGAIN)),
        (1, Names(AGAIN, 0, 1, 1)),
        (1, GetSet(AGAIN, 1)),
        (1, Closed(AGAIN)),
        (1, Opened(STRANGER)),
        (1, Names(STRANGER, 0, 1, 1)),
        (1, GetSet(STRANGER, 1)),
        (1, Closed(STRANGER)),
    ],
    seen: Seen { given: 0, most: 0 },
    held: 0,
    waiting: &[],
};

#[test]
fn held_messages_and_waiting_connections(rt: HostRuntime) -> Result<(), Fail> {
    for case in [
        THREE_WAIT,
        ONE_ENDS,
        THE_SET_COMES,
        IT_IS_GIVEN_UP,
        WAITS_AGAIN,
        SIXTY_FOUR,
        SIXTY_FIVE,
        NOT_OPEN,
    ] {
        assert!(rt;
            is_so(rt.alloc(), &case)?,
            "of {} events",
            case.events.len()
        );
    }
    Ok(())
}
