//! The first lines of a plan's script.
ghost use Rattle.std.specs.Prelude.{◌≡◌, ◌<◌, [], All, IfOk, string_bytes};
ghost use Rattle.scp_line.specs.scp_script.specs.Nodes.{NamesNodes};
ghost use Rattle.scp_line.specs.scp_script.specs.Script.{AreAdmitted};
ghost use Rattle.scp_script_check.specs.Lines.{IsSaid};
ghost use Rattle.scp_sim.specs.Simulated.{first_lines};

use crate::world::SimFault;
use scp_script_check::{ReadFault, Script, read};
use scp_sim_options::Plan;
use std::alloc::{AllocError, Global};

/// The first lines of the script: how many nodes there are, and their quorum sets. The last line has a line end, too, so that another
/// line can follow.
pub fn beginning(alloc: Global, plan: &Plan) -> Result<String, AllocError>
    ensures { IfOk result (λ text. string_bytes text ≡ first_lines plan.now) }
{
    let mut text = String::new(alloc);
    writeln!(text, "nodes {} {}", plan.nodes, plan.need)?;
    text.push_str(plan.sets.as_str())?;
    if !text.as_bytes().ends_with(b"\n") {
        text.push_str("\n")?;
    }
    Ok(text)
}

/// The numbers of a plan are below 256, since they have eight bits in memory.
pub fn see_numbers(plan: &Plan)
    ensures nodes { plan.now.nodes < 256 }
    ensures need { plan.now.need < 256 }
{
    let _nodes = plan.nodes;
    let _need = plan.need;
}

/// The script that consists of these first lines.
pub fn read_first(alloc: Global, text: &str) -> Result<Script, SimFault>
    ensures said { IfOk result (λ script. IsSaid text.now script.commands.items script.lines.items) }
    ensures names { IfOk result (λ script. All NamesNodes script.commands.items) }
    ensures admitted { IfOk result (λ script. AreAdmitted [] script.commands.items) }
{
    match read(alloc, text.as_bytes()) {
        Ok(script) => Ok(script),
        Err(ReadFault::NoMemory) => Err(SimFault::NoMemory),
        Err(fault) => Err(SimFault::Sets(fault)),
    }
}

/// The first lines of the script of a plan, read. Refused by `Sets` if the plan's lines that give quorum sets are bad.
pub fn first_script(alloc: Global, plan: &Plan) -> Result<Script, SimFault>
    ensures said { IfOk result (λ script. IsSaid (first_lines plan.now) script.commands.items script.lines.items) }
    ensures names { IfOk result (λ script. All NamesNodes script.commands.items) }
    ensures admitted { IfOk result (λ script. AreAdmitted [] script.commands.items) }
{
    let text = beginning(alloc, plan)?;
    read_first(alloc, text.as_str())
}
