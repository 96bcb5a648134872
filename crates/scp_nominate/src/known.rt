//! The fully validated values that statements on the board name.
ghost use Rattle.std.specs.Prelude.{◌≡◌, ◌⊎◌, ℕ, List, Contains, OnOk, IsOkUnless};
ghost use Rattle.scp_driver.specs.Driver.{IsFull};
ghost use Rattle.scp_nominate.specs.Values.{Has};
ghost use Rattle.scp_nominate.specs.inside.Steps.{Learns};

use crate::leaders::add;
use crate::values::ValueSet;
use scp_driver::{Driver, Level};
use scp_vote::below::types::{Fault, Slot, Value};

/// Adds the value if it is fully validated.
#[tactic(auto, using(crate::proofs::Knowing::learns_none, crate::proofs::Knowing::learns_one))]
fn know_one<D: Driver>(
    driver: &D,
    slot: Slot,
    value: &Value,
    known: &mut ValueSet,
) -> Result<(), Fault>
    ensures learns { OnOk result (Learns (IsFull (D.says.level driver.now) slot.0) (λ v. value.now ≡ v) known.old known.new) }
    ensures only_memory { IsOkUnless result Fault.NoMemory }
{
    if driver.validate(slot, value) != Level::FullyValidated {
        return Ok(());
    }
    add(known, value)?;
    Ok(())
}

/// Adds the values that are fully validated.
pub(crate) fn know<D: Driver>(
    driver: &D,
    slot: Slot,
    values: &[Value],
    known: &mut ValueSet,
) -> Result<(), Fault>
    ensures learns { OnOk result (Learns (IsFull (D.says.level driver.now) slot.0) (λ v. Contains values.now v) known.old known.new) }
    ensures only_memory { IsOkUnless result Fault.NoMemory }
{
    for value in values {
        know_one(driver, slot, value, known)?;
    }
    Ok(())
}
