//! Whether the quorum sets of a plan let nodes decide differently.
ghost use Rattle.std.specs.Prelude.{[], All, IfOk, string_bytes};
ghost use Rattle.scp_script_hints.specs.scp_script.specs.Nodes.{NamesNodes};
ghost use Rattle.scp_script_hints.specs.scp_script.specs.Script.{AreAdmitted};
ghost use Rattle.scp_script_hints.specs.Told.{TellsApart, members_in};
ghost use Rattle.scp_sim_findings.specs.Apart.{TellsPlanApart};

use crate::running::ToldFault;
use scp_script_hints::apart_text;
use scp_script_hints::below::script::Command;
use scp_sim::below::sim_options::Plan;
use scp_sim::{SimFault, first_script};
use std::alloc::Global;

/// The line of two quorums of a script's nodes that have no node in common, or nothing.
fn apart_in(alloc: Global, commands: &[Command]) -> Result<String, ToldFault>
    requires names { All NamesNodes commands.now }
    requires admitted { AreAdmitted [] commands.now }
    ensures { IfOk result (λ text. TellsApart (members_in commands.now) (string_bytes text)) }
{
    match apart_text(alloc, commands) {
        Ok(text) => Ok(text),
        Err(_) => Err(ToldFault::NoMemory),
    }
}

/// The line `disjoint 1,2 | 3,4` of two quorums of a plan's nodes that have no node in common, or nothing if each two have one. Refused as
/// a simulation of the plan is if the plan's lines that give quorum sets are bad.
pub fn plan_apart(alloc: Global, plan: &Plan) -> Result<String, ToldFault>
    ensures { IfOk result (λ text. TellsPlanApart plan.now (string_bytes text)) }
{
    match first_script(alloc, plan) {
        Ok(script) => apart_in(alloc, script.commands.as_slice()),
        Err(SimFault::NoMemory) => Err(ToldFault::NoMemory),
        Err(fault) => Err(ToldFault::Sim(fault)),
    }
}
