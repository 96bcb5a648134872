//! What the commands show of scripts.
ghost use Rattle.std.specs.Prelude.{◌≡◌, ◌++◌, ℕ, List, [], All, IfOk, IfErr, IsOkUnless, codes, string_bytes};
ghost use Rattle.scp_script_hints.specs.scp_script.specs.Script.{AreAdmitted};
ghost use Rattle.scp_script_hints.specs.scp_script.specs.Nodes.{NamesNodes};
ghost use Rattle.scp_notices.specs.scp_script_check.specs.declared.warning.Warning.{Warning};
ghost use Rattle.scp_notices.specs.scp_script_check.specs.Texts.{warnings_text};
ghost use Rattle.scp_notices.specs.scp_script_check.specs.Warnings.{AreWarnings};
ghost use Rattle.scp_script_hints.specs.declared.hint.Hint.{Hint};
ghost use Rattle.scp_script_hints.specs.Hints.{AreHints};
ghost use Rattle.scp_script_hints.specs.Texts.{hints_text};
ghost use Rattle.scp_notices.specs.scp_script_check.specs.Lines.{IsNotRead};
ghost use Rattle.scp_draw.specs.Drawn.{IsDrawFault};
ghost use Rattle.scp_command.specs.Given.{IsGiven};
ghost use Rattle.scp_command.specs.Answers.{IsCheckAnswer, IsTraceAnswer, IsDrawAnswer, IsQuorumsAnswer};
ghost use Rattle.scp_command.specs.Causes.{IsNoScript, IsNotTraced, Fails};

use crate::answer::Answer;
use crate::given::{Given, commands_of, given_by, of_play, of_unread};
use scp_convert::below::prompt::{Failure, Task};
use scp_draw::{Depth, DrawFault, draw, trace};
use scp_notices::below::script_check::{Script, text_of_warnings, warnings};
use scp_script_hints::{hints, quorums_text, text_of_hints};
use scp_script_short::below::device::ReadFault;
use scp_script_short::below::types::Fault;
use std::alloc::Global;

/// The warnings and the hints of a script, one line each, and `ok`.
fn told(alloc: Global, script: &Script) -> Result<String, Fault>
    requires names { All NamesNodes script.now.commands.items }
    requires admitted { AreAdmitted [] script.now.commands.items }
    ensures told { IfOk result (λ out. (warnings : List Warning) × (hints : List Hint) × AreWarnings script.now.commands.items script.now.lines.items warnings × AreHints script.now.commands.items script.now.lines.items hints × (string_bytes out ≡ warnings_text warnings ++ hints_text hints ++ codes "ok\n")) }
    ensures only_memory { IsOkUnless result Fault.NoMemory }
{
    let warnings = warnings(alloc, script)?;
    let mut text = text_of_warnings(alloc, warnings.as_slice())?;
    let hints = hints(alloc, script.commands.as_slice(), script.lines.as_slice())?;
    let hinted = text_of_hints(alloc, hints.as_slice())?;
    text.push_str(hinted.as_str())?;
    text.push_str("ok\n")?;
    Ok(text)
}

/// What is wrong with a script: its warnings and hints, and `ok`.
pub fn checked(alloc: Global, text: &[u8]) -> Result<Answer, Failure>
    ensures answer { IfOk result (IsCheckAnswer text.now) }
    ensures cause { IfErr result (IsNoScript text.now) }
{
    let given = given_by(alloc, text)?;
    let script = commands_of(alloc, &given)?;
    match told(alloc, &script) {
        Ok(told) => Ok(Answer::of_text(alloc, told)),
        Err(_) => Err(Failure::NoMemory),
    }
}

/// Why a script isn't read.
fn of_read(given: &Given, fault: ReadFault) -> Failure
    ensures { (input : List ℕ) → IsGiven input given.now → IsNotRead given.now.text.items fault → IsNoScript input result }
{
    of_unread(&given.expanded, fault)
}

/// What happens in the run of a script, at this depth. Its lines are counted in the expanded script.
pub fn traced(alloc: Global, depth: Depth, text: &[u8]) -> Result<Answer, Failure>
    ensures answer { IfOk result (IsTraceAnswer depth text.now) }
    ensures cause { IfErr result (IsNotTraced depth text.now) }
{
    let given = given_by(alloc, text)?;
    match trace(alloc, depth, given.text.as_slice()) {
        Ok(told) => match told.fault {
            Some(fault) => Err(of_play(None, fault)),
            None => Ok(Answer::of_text(alloc, told.text)),
        },
        Err(fault) => Err(of_read(&given, fault)),
    }
}

/// Why nothing is drawn.
fn of_draw(given: &Given, fault: DrawFault) -> Failure
    ensures { (input : List ℕ) → IsGiven input given.now → IsDrawFault given.now.text.items fault → Fails Task.Draw input result }
{
    match fault {
        DrawFault::Unread(fault) => of_read(given, fault),
        DrawFault::Stopped(fault) => of_play(None, fault),
    }
}

/// The page of a script's run. Its lines are counted in the expanded script.
pub fn drawn(alloc: Global, text: &[u8]) -> Result<Answer, Failure>
    ensures answer { IfOk result (IsDrawAnswer text.now) }
    ensures cause { IfErr result (Fails Task.Draw text.now) }
{
    let given = given_by(alloc, text)?;
    match draw(alloc, given.text.as_slice()) {
        Ok(page) => Ok(Answer::of_bytes(alloc, page)),
        Err(fault) => Err(of_draw(&given, fault)),
    }
}

/// What the quorum sets of a script come to.
pub fn quorums(alloc: Global, text: &[u8]) -> Result<Answer, Failure>
    ensures answer { IfOk result (IsQuorumsAnswer text.now) }
    ensures cause { IfErr result (IsNoScript text.now) }
{
    let given = given_by(alloc, text)?;
    let script = commands_of(alloc, &given)?;
    match quorums_text(alloc, script.commands.as_slice()) {
        Ok(told) => Ok(Answer::of_text(alloc, told)),
        Err(_) => Err(Failure::NoMemory),
    }
}
