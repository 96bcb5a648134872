//! Drivers, by the trait alone.
use crate::byte_driver::ByteDriver;
use crate::short::value;
use scp_nominate::below::driver::{Driver, KvDriver, Level, place_of};
use scp_nominate::below::types::{Fault, Slot};
use std::alloc::Global;
use std::process::Abort;
use std::test::Fail;

/// One operation: put a 1.
const PUT_A: [u8; 24] = [
    0, 0, 0, 1, 0, 0, 0, 0, 0, 0, 0, 1, 97, 0, 0, 0, 0, 0, 0, 1, 49, 0, 0, 0,
];

/// One operation: put b 2.
const PUT_B: [u8; 24] = [
    0, 0, 0, 1, 0, 0, 0, 0, 0, 0, 0, 1, 98, 0, 0, 0, 0, 0, 0, 1, 50, 0, 0, 0,
];

/// The largest slot and the largest round.
const MOST: u64 = 18_446_744_073_709_551_615;

#[test]
fn leaders_in_turn(rt: HostRuntime) {
    for (slot, round, count, place) in [
        (MOST, 1, 3, 2),
        (MOST, MOST, 3, 1),
        (MOST, MOST, 1, 0),
        (0, 1, 3, 2),
        (0, 1, 1, 0),
        (1, 1, 3, 0),
        (1, 3, 3, 2),
    ] {
        assert_eq!(rt; place_of(Slot(slot), round, count), place);
        assert_eq!(rt; KvDriver.leader(Slot(slot), round, count), place);
    }
}

/// Any driver's answers, through the trait alone: how far the value is checked, whether something is extracted from it, whether it is the
/// composite of two values, and the place of a leader.
fn asked<D: Driver>(
    driver: &D,
    alloc: Global,
    bytes: &[u8],
    two: [&[u8]; 2],
) -> Result<(Level, bool, bool, usize), Fault> {
    let asked = value(alloc, bytes)?;
    let taken = driver.extract(alloc, Slot(1), &asked)?.is_some();
    let values = [value(alloc, two[0])?, value(alloc, two[1])?];
    let composite = driver.combine(alloc, Slot(1), values.as_slice())?;
    Ok((
        driver.validate(Slot(1), &asked),
        taken,
        composite == asked,
        driver.leader(Slot(1), 2, 3),
    ))
}

#[test]
fn two_drivers_answer_by_the_same_trait(rt: HostRuntime) -> Result<(), Fail> {
    for (bytes, answers) in [
        (PUT_A.as_slice(), (Level::FullyValidated, false, false, 1)),
        (&PUT_B, (Level::FullyValidated, false, true, 1)),
        (&[0], (Level::Invalid, false, false, 1)),
    ] {
        assert!(rt; asked(&KvDriver, rt.alloc(), bytes, [&PUT_A, &PUT_B])? == answers);
    }
    for (bytes, answers) in [
        ([7].as_slice(), (Level::FullyValidated, true, true, 1)),
        (&[8, 9], (Level::MaybeValid, true, false, 1)),
        (&[], (Level::Invalid, false, false, 1)),
    ] {
        assert!(rt; asked(&ByteDriver, rt.alloc(), bytes, [&[7], &[8, 9]])? == answers);
    }
    Ok(())
}
