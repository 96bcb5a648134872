//! The status of the nodes of a run at its end.
ghost use Rattle.std.specs.Prelude.{◌≡◌, ◌<◌, ◌≤◌, IfOk, IfSome, OnOk, string_bytes};
ghost use Rattle.scp_sim_findings.specs.Needs.{IsStandOf};
ghost use Rattle.scp_sim_findings.specs.Told.{TellsStand};

use crate::running::Told;
use scp_notices::below::script_check::ReadFault;
use scp_sim::below::sim_options::Plan;
use scp_trace::{Depth, trace};
use std::alloc::{AllocError, Global};

/// The status of a script's nodes at its `report` lines, with what they wait for, as `scp stand` shows it. `None` for a text that isn't a
/// script.
pub fn stand_of(alloc: Global, script: &[u8]) -> Result<Option<String>, AllocError>
    ensures { IfOk result (λ found. IfSome found (λ text. IsStandOf script.now (string_bytes text))) }
{
    match trace(alloc, Depth::Stands, script) {
        Ok(told) => Ok(Some(told.text)),
        Err(ReadFault::NoMemory) => Err(AllocError),
        Err(_) => Ok(None),
    }
}

/// Adds the status of the nodes of the report's script, with what they wait for, if not all slots of the plan were closed. Adds nothing if
/// the report's script isn't a script.
pub fn add_stand(alloc: Global, told: &mut Told, plan: &Plan) -> Result<(), AllocError>
    ensures closed { OnOk result (plan.now.slots ≤ told.old.closed → told.new ≡ told.old) }
    ensures stand { OnOk result (told.old.closed < plan.now.slots → TellsStand told.old told.new) }
{
    if told.closed >= plan.slots {
        return Ok(());
    }
    match stand_of(alloc, told.script.as_slice())? {
        Some(text) => told.text.push_str(text.as_str()),
        None => Ok(()),
    }
}
