//! Which decisions an applier can take, and one that runs out of memory.
ghost use Rattle.std.specs.Prelude.{◌≡◌, IfOk};

use crate::parts::{TWO, conn, value};
use scp_apply::Applier;
use scp_apply::below::driver::KvDriver;
use scp_apply::below::ledger::{Decision, Onward, Origin, SharedDecision};
use scp_apply::below::types::{Fault, Seq, Slot};
use std::alloc::Global;
use std::process::Abort;
use std::test::*;

/// The decision of a slot.
fn decision(alloc: Global, slot: u64) -> Result<SharedDecision, Fault>
    ensures { IfOk result (λ d. d.slot.0 ≡ slot) }
{
    let decision = Decision {
        slot: Slot(slot),
        value: value(alloc)?,
        origin: Origin::Named {
            conn: conn(TWO, 1),
            seq: Seq(0),
        },
    };
    SharedDecision::new(alloc, decision)
}

/// Takes the decision, if it can be taken. False if not.
fn decide(alloc: Global, applier: &mut Applier<KvDriver>, slot: u64) -> Result<bool, Fault> {
    let decision = decision(alloc, slot)?;
    if !applier.can_take(Slot(slot)) {
        return Ok(false);
    }
    Ok(applier.take(Onward::Decided(decision))?.is_none())
}

/// Whether the right slots after `before` can be taken, before and after one is applied and another waits.
fn has_window(alloc: Global, before: u32) -> Result<bool, Fault> {
    let mut applier = Applier::<KvDriver>::new(alloc, before);
    let at = before as u64;
    let first = !applier.can_take(Slot(at))
        && applier.can_take(Slot(at + 1))
        && applier.can_take(Slot(at + 16))
        && !applier.can_take(Slot(at + 17));
    let taken = decide(alloc, &mut applier, at + 16)? && decide(alloc, &mut applier, at + 1)?;
    Ok(
        first
            && taken
            && !applier.can_take(Slot(at + 1))
            && !applier.can_take(Slot(at + 16))
            && applier.can_take(Slot(at + 17))
            && !applier.can_take(Slot(at + 18))
            && applier.value_at(Slot(at)).is_none()
            && applier.value_at(Slot(at + 1)).is_some()
            && applier.value_at(Slot(at + 16)).is_none(),
    )
}

#[test]
fn sixteen_slots_can_be_taken(rt: HostRuntime) -> Result<(), Fail> {
    assert!(rt; has_window(rt.alloc(), 0)? && has_window(rt.alloc(), u32::MAX)?);
    Ok(())
}

/// Whether exactly the slots up to this one are applied, in order.
fn has_applied(applier: &Applier<KvDriver>, last: u64) -> bool {
    for (place, decision) in applier.applied().iter().enumerate() {
        if decision.slot.0 != place as u64 + 1 {
            return false;
        }
    }
    applier.applied().len() as u64 == last
}

/// Whether two slots are applied; or the applier runs out of memory, has failed, and keeps what it applied before.
fn applies_or_fails(alloc: Global) -> Result<bool, Fault> {
    let second = decision(alloc, 2)?;
    let mut applier = Applier::<KvDriver>::new(alloc, 0);
    if !decide(alloc, &mut applier, 1)? || !applier.can_take(Slot(2)) {
        return Ok(false);
    }
    let taken = applier.take(Onward::Decided(second));
    Ok(match taken {
        Ok(answer) => answer.is_none() && has_applied(&applier, 2),
        Err(fault) => {
            fault == Fault::NoMemory
                && has_applied(&applier, 1)
                && applier.state().is_none()
                && applier.value_at(Slot(1)).is_some()
        }
    })
}

#[test]
fn an_applier_without_memory_fails(rt: HostRuntime) -> Result<(), Fail> {
    assert!(rt; applies_or_fails(rt.alloc())?);
    Ok(())
}
