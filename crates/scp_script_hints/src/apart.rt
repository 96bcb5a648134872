//! Two quorums without a common node.
ghost use Rattle.std.specs.Prelude.{◌≡◌, [], All, IfOk, IsOkUnless, option_to_list};
ghost use Rattle.scp_script.specs.Script.{AreAdmitted};
ghost use Rattle.scp_script.specs.Nodes.{NamesNodes};
ghost use Rattle.scp_script_hints.specs.Told.{members_in};
ghost use Rattle.scp_script_hints.specs.Hints.{AreApart};
ghost use Rattle.scp_script_hints.specs.inside.Apart.{apart_hints};

use crate::hint::Hint;
use crate::told::members_of;
use scp_quorum_search::{Member, disjoint_quorums};
use scp_script::Command;
use scp_script::below::types::{Fault, NodeId};
use std::alloc::{AllocError, Global};
use std::collections::BTreeSet;

/// The hint with two quorums that were found.
fn hint_of(found: Option<(BTreeSet<NodeId>, BTreeSet<NodeId>)>) -> Option<Hint>
    ensures { option_to_list result ≡ apart_hints found }
{
    match found {
        Some((one, other)) => Some(Hint::Disjoint { one, other }),
        None => None,
    }
}

/// Two quorums of the members without a common node, if there are any.
fn apart_in(alloc: Global, members: &[Member]) -> Result<Option<Hint>, AllocError>
    ensures { IfOk result (λ found. AreApart members.now (option_to_list found)) }
{
    let found = disjoint_quorums(alloc, members)?;
    Ok(hint_of(found))
}

/// Two quorums of a script's nodes without a common node, if there are any. The only error is `NoMemory`.
pub fn apart(alloc: Global, commands: &[Command]) -> Result<Option<Hint>, Fault>
    requires names { All NamesNodes commands.now }
    requires admitted { AreAdmitted [] commands.now }
    ensures found { IfOk result (λ found. AreApart (members_in commands.now) (option_to_list found)) }
    ensures only_memory { IsOkUnless result Fault.NoMemory }
{
    let members = members_of(alloc, commands)?;
    let found = apart_in(alloc, members.as_slice())?;
    Ok(found)
}
