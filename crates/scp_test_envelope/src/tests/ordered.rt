//! Which of two statements is newer.
use super::*;
use std::test::*;

/// Whether the new statement is newer than this one.
fn is_newer(alloc: Global, old: &Statement, new: Said) -> Result<bool, Fault> {
    let new = stated(alloc, new)?;
    Ok(newer(old, &new))
}

// One of each kind, with the same ballot if it has one.
const PREPARE: Said = Said::Prepare((2, 5), Some((2, 5)), None, 1, 2);

const CONFIRM: Said = Said::Confirm((1, 5), 1, 1, 1);

const EXTERNALIZE: Said = Said::Externalize((1, 5), 1);

const NOMINATE: Said = Said::Nominate(b"a", b"b");

/// A statement, and which other ones are newer than it.
type Newer = (Said, &'static [(Said, bool)]);

const NEWER: [Newer; 18] = [
    // a later kind
    (
        PREPARE,
        &[
            (PREPARE, false),
            (CONFIRM, true),
            (EXTERNALIZE, true),
            (NOMINATE, false),
        ],
    ),
    (
        CONFIRM,
        &[
            (PREPARE, false),
            (CONFIRM, false),
            (EXTERNALIZE, true),
            (NOMINATE, false),
        ],
    ),
    (
        EXTERNALIZE,
        &[
            (PREPARE, false),
            (CONFIRM, false),
            (EXTERNALIZE, false),
            (NOMINATE, false),
        ],
    ),
    (
        NOMINATE,
        &[
            (PREPARE, false),
            (CONFIRM, false),
            (EXTERNALIZE, false),
            (NOMINATE, false),
        ],
    ),
    // the lowest commit does not count
    (
        Said::Prepare((2, 5), Some((2, 5)), None, 1, 2),
        &[
            (Said::Prepare((2, 5), Some((2, 5)), None, 0, 2), false),
            (Said::Prepare((2, 5), Some((2, 5)), None, 1, 2), false),
            (Said::Prepare((2, 5), Some((2, 5)), None, 2, 2), false),
        ],
    ),
    (
        Said::Confirm((2, 5), 2, 1, 2),
        &[
            (Said::Confirm((2, 5), 2, 0, 2), false),
            (Said::Confirm((2, 5), 2, 1, 2), false),
            (Said::Confirm((2, 5), 2, 2, 2), false),
        ],
    ),
    // no EXTERNALIZE than another
    (
        Said::Externalize((1, 5), 1),
        &[
            (Said::Externalize((1, 5), 1), false),
            (Said::Externalize((1, 5), 2), false),
            (Said::Externalize((2, 5), 1), false),
            (Said::Externalize((2, 5), 2), false),
            (Said::Externalize((1, 6), 1), false),
        ],
    ),
    // a NOMINATE that contains the old one and more
    (
        Said::Nominate(b"a", b""),
        &[
            (Said::Nominate(b"a", b""), false),
            (Said::Nominate(b"ab", b""), true),
            (Said::Nominate(b"a", b"a"), true),
            (Said::Nominate(b"ab", b"a"), true),
            (Said::Nominate(b"aa", b""), false),
        ],
    ),
    (
        Said::Nominate(b"b", b""),
        &[(Said::Nominate(b"abc", b""), true)],
    ),
    (
        Said::Nominate(b"ab", b""),
        &[
            (Said::Nominate(b"bc", b"a"), false),
            (Said::Nominate(b"a", b"a"), false),
            (Said::Nominate(b"ba", b""), false),
        ],
    ),
    (
        Said::Nominate(b"a", b"a"),
        &[(Said::Nominate(b"ab", b""), false)],
    ),
    (
        Said::Nominate(b"", b""),
        &[(Said::Nominate(b"", b"a"), true)],
    ),
    // nH counts last, also where it is over the prepared counter, or over a CONFIRM's own, which isn't sane
    (
        Said::Prepare((1, 5), None, None, 0, 0),
        &[(Said::Prepare((1, 5), None, None, 0, 1), true)],
    ),
    (
        Said::Prepare((1, 5), None, None, 0, 1),
        &[
            (Said::Prepare((1, 5), None, None, 0, 0), false),
            (Said::Prepare((1, 5), None, None, 0, 1), false),
            (Said::Prepare((1, 5), None, None, 0, u32::MAX), true),
            (Said::Prepare((1, 5), None, Some((1, 5)), 0, 0), true),
        ],
    ),
    (
        Said::Prepare((1, 5), Some((1, 6)), None, 0, 0),
        &[(Said::Prepare((1, 5), Some((1, 6)), None, 0, u32::MAX), true)],
    ),
    (
        Said::Prepare((1, 5), Some((1, 6)), None, 0, u32::MAX),
        &[
            (Said::Prepare((1, 5), Some((1, 6)), None, 0, 0), false),
            (
                Said::Prepare((1, 5), Some((1, 6)), Some((0, 0)), 0, 0),
                true,
            ),
        ],
    ),
    (
        Said::Confirm((1, 5), 0, 0, 1),
        &[(Said::Confirm((1, 5), 0, 0, u32::MAX), true)],
    ),
    (
        Said::Confirm((1, 5), 0, 0, u32::MAX),
        &[
            (Said::Confirm((1, 5), 0, 0, 1), false),
            (Said::Confirm((1, 5), 0, 0, u32::MAX), false),
            (Said::Confirm((1, 5), 1, 0, 0), true),
        ],
    ),
];

#[test]
fn newer_says_more(rt: HostRuntime) -> Result<(), Fail> {
    for (old, others) in NEWER {
        let statement = stated(rt.alloc(), old)?;
        for (new, want) in others {
            assert_eq!(rt;
                is_newer(rt.alloc(), &statement, *new)?,
                *want,
                "{old:?} {new:?}"
            );
        }
    }
    Ok(())
}

/// A CONFIRM is newer than a PREPARE, unless it is of another slot or another node.
#[test]
fn other_nodes_and_slots_are_not_compared(rt: HostRuntime) -> Result<(), Fail> {
    let old = stated(rt.alloc(), Said::Prepare((1, 5), None, None, 0, 0))?;
    let mut new = stated(rt.alloc(), Said::Confirm((1, 5), 1, 1, 1))?;
    assert!(rt; newer(&old, &new));
    new.slot = Slot(2);
    assert!(rt; !newer(&old, &new));
    new.slot = Slot(1);
    new.node = NodeId([2; 32]);
    assert!(rt; !newer(&old, &new));
    Ok(())
}
