//! How a script is played once more.
ghost use Rattle.scp_script_hints.specs.scp_script.specs.Nodes.{NamesNodes};
ghost use Rattle.std.specs.Prelude.{◌≡◌, ◌≤◌, length, All, IfOk, IsTrue, string_bytes};
ghost use Rattle.scp_script_hints.specs.scp_types.specs.declared.limits.TheConstants.{NODE_LIMIT};
ghost use Rattle.scp_notices.specs.scp_report.specs.Node.{reports_of as records_of};
ghost use Rattle.scp_notices.specs.scp_report.specs.Reports.{settled_text};
ghost use Rattle.scp_sim_findings.specs.Replayed.{IsReplayed, ComesTo};

use crate::outcome::{Finding, Judging, is_found};
use scp_notices::below::line::played_reports;
use scp_notices::below::script_check::ReadFault;
use scp_notices::{Ran, RunFault, run};
use std::alloc::{AllocError, Global};

/// Why a script couldn't be played once more.
#[derive(Clone, Copy, Debug, PartialEq, Eq)]
pub enum ReplayFault {
    /// The script couldn't be played.
    Run(RunFault),
    /// Its reports differ.
    Differs,
}

impl From<AllocError> for ReplayFault {
    ghost from_gives = { λ _ _. Unit {0} };

    fn from(_e: AllocError) -> ReplayFault {
        ReplayFault::Run(RunFault::Unread(ReadFault::NoMemory))
    }
}

/// The reports of a run.
fn reports_of(alloc: Global, ran: &Ran) -> Result<String, AllocError>
    requires names { All NamesNodes ran.now.script.commands.items }
    requires few { length ran.now.network.nodes ≤ NODE_LIMIT }
    ensures { IfOk result (λ text. string_bytes text ≡ settled_text (records_of ran.now.network.nodes) ran.now.script.commands.items) }
{
    let commands = ran.script.commands.as_slice();
    let text = played_reports(alloc, ran.network.nodes(), commands)?;
    Ok(text)
}

/// Plays a simulated script, whose nodes gave these reports in the simulation. Refused by `Differs` if they now give others.
pub fn replayed(alloc: Global, script: &[u8], reports: &str) -> Result<Ran, ReplayFault>
    ensures { IfOk result (λ ran. IsReplayed script.now reports.now ran.script ran.network ran.notices.items) }
{
    let ran = match run(alloc, script) {
        Ok(ran) => ran,
        Err(fault) => return Err(ReplayFault::Run(fault)),
    };
    let text = reports_of(alloc, &ran)?;
    if text.as_str() == reports {
        Ok(ran)
    } else {
        Err(ReplayFault::Differs)
    }
}

/// Whether playing a script leads to this finding. A script that can't be played to its end has no finding.
pub fn comes_to(
    alloc: Global,
    script: &[u8],
    finding: Finding,
    judging: &Judging,
) -> Result<bool, AllocError>
    ensures { IfOk result (λ comes. IsTrue comes → ComesTo script.now finding judging.now.marks judging.now.slots) }
{
    match run(alloc, script) {
        Ok(ran) => Ok(is_found(
            finding,
            judging,
            ran.network.nodes(),
            ran.notices.as_slice(),
        )),
        Err(RunFault::Unread(ReadFault::NoMemory)) => Err(AllocError),
        Err(_) => Ok(false),
    }
}
