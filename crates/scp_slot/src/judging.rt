//! The verdict on an envelope.
ghost use Rattle.std.specs.Prelude.{◌≡◌, ◌⊎◌, ◌↔◌, IsTrue, IsSomeAnd};
ghost use Rattle.std.specs.Option.{ForSome};
ghost use Rattle.scp_slot.specs.Judged.{IsInvalid, HasInvalid};

use scp_nominate::below::driver::{Driver, Level};
use scp_nominate::below::envelope::{Pledges, Prepare};
use scp_nominate::below::types::{Ballot, Slot, Value};

/// Whether the driver calls the value invalid.
fn is_invalid<D: Driver>(driver: &D, slot: Slot, value: &Value) -> bool
    ensures { IsTrue result ↔ IsInvalid (D.says.level driver.now slot.0) value.now }
{
    driver.validate(slot, value) == Level::Invalid
}

/// Whether there is a ballot, and its value is invalid.
fn has_invalid_value<D: Driver>(driver: &D, slot: Slot, ballot: &Option<Ballot>) -> bool
    ensures { IsTrue result ↔ IsSomeAnd ballot.now (λ b. IsInvalid (D.says.level driver.now slot.0) b.value) }
{
    match ballot {
        Some(ballot) => is_invalid(driver, slot, ballot.value.get()),
        None => false,
    }
}

/// Whether a PREPARE has an invalid value.
fn is_bad_prepare<D: Driver>(driver: &D, slot: Slot, prepare: &Prepare) -> bool
    ensures { IsTrue result ↔ HasInvalid (D.says.level driver.now slot.0) (Pledges.Prepare prepare.now) }
{
    is_invalid(driver, slot, prepare.ballot.value.get())
        || has_invalid_value(driver, slot, &prepare.prepared)
        || has_invalid_value(driver, slot, &prepare.prepared_prime)
}

/// Whether the pledges are a ballot statement's, with an invalid value.
pub(crate) fn has_invalid<D: Driver>(driver: &D, slot: Slot, pledges: &Pledges) -> bool
    ensures { IsTrue result ↔ HasInvalid (D.says.level driver.now slot.0) pledges.now }
{
    match pledges {
        Pledges::Prepare(prepare) => is_bad_prepare(driver, slot, prepare),
        Pledges::Confirm(confirm) => is_invalid(driver, slot, confirm.ballot.value.get()),
        Pledges::Externalize(externalize) => is_invalid(
            driver,
            slot,
            externalize.commit.value.get(),
        ),
        Pledges::Nominate(_) => false,
    }
}
