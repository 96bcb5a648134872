//! What is wrong with a script, as lines.
ghost use Rattle.std.specs.Prelude.{◌≡◌, ◌++◌, [], All, IfOk, IfErr, IsOkUnless, List, codes, string_bytes};
ghost use Rattle.scp_script.specs.Script.{AreAdmitted};
ghost use Rattle.scp_script.specs.Nodes.{NamesNodes};
ghost use Rattle.scp_script_check.specs.declared.warning.Warning.{Warning};
ghost use Rattle.scp_script_check.specs.Lines.{IsNotRead};
ghost use Rattle.scp_script_check.specs.Texts.{IsLinted, warnings_text};
ghost use Rattle.scp_script_check.specs.Warnings.{AreWarnings};

use crate::reading::{Script, read};
use crate::text::text_of_warnings;
use crate::warned::warnings;
use scp_nominate::below::types::Fault;
use scp_script::below::device::ReadFault;
use std::alloc::Global;

/// The lines of a script's warnings, and `ok`.
fn told(alloc: Global, script: &Script) -> Result<String, Fault>
    requires names { All NamesNodes script.now.commands.items }
    requires admitted { AreAdmitted [] script.now.commands.items }
    ensures told { IfOk result (λ out. (warnings : List Warning) × AreWarnings script.now.commands.items script.now.lines.items warnings × (string_bytes out ≡ warnings_text warnings ++ codes "ok\n")) }
    ensures only_memory { IsOkUnless result Fault.NoMemory }
{
    let warnings = warnings(alloc, script)?;
    let mut text = text_of_warnings(alloc, warnings.as_slice())?;
    text.push_str("ok\n")?;
    Ok(text)
}

/// The warnings of a script, a line for each, and `ok`; or an error with its first bad line.
#[tactic(auto, using(crate::proofs::Wanting::said_wants))]
pub fn lint(alloc: Global, text: &[u8]) -> Result<String, ReadFault>
    // No line is bad: these are the lines of its warnings, and `ok`.
    ensures linted { IfOk result (λ out. IsLinted text.now (string_bytes out)) }
    // Otherwise the first bad line is reported, or memory ran out. Then that line's number alone is reported if that takes no memory.
    ensures cause { IfErr result (IsNotRead text.now) }
{
    let script = read(alloc, text)?;
    match told(alloc, &script) {
        Ok(text) => Ok(text),
        Err(_) => Err(ReadFault::NoMemory),
    }
}
