//! Quorum sets in a document.
ghost use Rattle.std.specs.Prelude.{◌≡◌, [], ◌∷◌, ◌++◌, ◌≤◌, map, option_map, IfOk, IfErr, OnOk, string_bytes};
ghost use Rattle.serde_json.specs.View.{view};
ghost use Rattle.scp_quorum_search.specs.scp_xdr.specs.Tree.{in_a_row};
ghost use Rattle.scp_quorum_search.specs.scp_quorum.specs.Sane.{levels};
ghost use Rattle.scp_quorum_files.specs.Documents.{entries_in};
ghost use Rattle.scp_quorum_files.specs.Networks.{threshold_said, SaysSet, members_in};
ghost use Rattle.scp_quorum_files.specs.inside.Reading.{SayEntries, NoneSays};
ghost use Rattle.scp_quorum_files.specs.declared.sets.SetFault.TheVariants as SetFault;
ghost use Rattle.scp_quorum_search.specs.scp_quorum.specs.QuorumTree.{QuorumTree};

use crate::form::Form;
use crate::keys::{at, threshold_key, values_at};
use crate::names::id_of;
use scp_quorum_search::below::quorum::QuorumSet;
use scp_quorum_search::below::types::NodeId;
use serde_json::Value;
use std::alloc::{AllocError, AllocFailed, Global};

/// The most levels of inner sets: as many as a quorum set that nodes exchange may have.
const LEVELS: u32 = 4;

/// Why a quorum set isn't read.
#[derive(Clone, Copy, Debug, Drop)]
pub enum SetFault {
    /// Memory ran out.
    NoMemory,
    /// A threshold or an entry isn't what is expected, or there are more than four levels of inner sets.
    Wrong,
}

impl From<AllocError> for SetFault {
    ghost use Rattle.std.specs.Prelude.{◌≡◌};
    ghost use Rattle.scp_quorum_files.specs.declared.sets.SetFault.TheVariants.{NoMemory};

    ghost from_gives = { λ _ e. e ≡ NoMemory };

    fn from(_e: AllocError) -> SetFault {
        SetFault::NoMemory
    }
}

impl<T: Drop> From<AllocFailed<T>> for SetFault {
    ghost use Rattle.std.specs.Prelude.{◌≡◌};
    ghost use Rattle.scp_quorum_files.specs.declared.sets.SetFault.TheVariants.{NoMemory};

    ghost from_gives = { λ _ e. e ≡ NoMemory };

    fn from(_e: AllocFailed<T>) -> SetFault {
        SetFault::NoMemory
    }
}

/// The threshold that a value gives.
fn threshold_said(said: Option<&Value>) -> Option<u32>
    ensures { result ≡ threshold_said (option_map (λ v. view v.now) said.entry) }
{
    let number = said?.as_u64()?;
    Some(number.min(4_294_967_295) as u32)
}

/// The two arrays of entries that a set has, one after the other.
fn entries_in(form: Form, set: &Value) -> Option<(&[Value], &[Value])>
    ensures { option_map (λ two. map view two.0.now ++ map view two.1.now) result ≡ entries_in form (members_in (view set.now)) }
{
    match form {
        Form::Core => Some((values_at(set, "v")?, &[])),
        Form::Beat => Some((
            values_at(set, "validators")?,
            values_at(set, "innerQuorumSets")?,
        )),
    }
}

/// Adds the node or the inner set that an entry gives. Below it there may be one level less.
#[cycle(reading)]
fn read_entry(
    alloc: Global,
    form: Form,
    names: &[String],
    left: u32,
    entry: &Value,
    validators: &mut Vec<NodeId>,
    inner_sets: &mut Vec<QuorumSet>,
) -> Result<(), SetFault>
    requires few { left ≤ 4 }
    ensures said { OnOk result (SayEntries form (map string_bytes names.now) (view entry.now ∷ []) validators.old.items validators.new.items inner_sets.old.items inner_sets.new.items) }
    ensures shallow { OnOk result (levels (in_a_row inner_sets.old.items) ≤ left → levels (in_a_row inner_sets.new.items) ≤ left) }
    ensures wrong { IfErr result (λ fault. fault ≡ SetFault.Wrong → NoneSays form (map string_bytes names.now) left (view entry.now ∷ [])) }
{
    if let Some(name) = entry.as_str() {
        return match id_of(names, name) {
            Some(node) => Ok(validators.push(node)?),
            None => Err(SetFault::Wrong),
        };
    }
    if !entry.is_object() {
        return Err(SetFault::Wrong);
    }
    if left == 0 {
        return Err(SetFault::Wrong);
    }
    let inner = read_set(alloc, form, names, left - 1, entry)?;
    inner_sets.push(inner)?;
    Ok(())
}

/// Adds the nodes and the inner sets that these entries give.
#[cycle(reading)]
fn read_entries(
    alloc: Global,
    form: Form,
    names: &[String],
    left: u32,
    entries: &[Value],
    validators: &mut Vec<NodeId>,
    inner_sets: &mut Vec<QuorumSet>,
) -> Result<(), SetFault>
    requires few { left ≤ 4 }
    ensures said { OnOk result (SayEntries form (map string_bytes names.now) (map view entries.now) validators.old.items validators.new.items inner_sets.old.items inner_sets.new.items) }
    ensures shallow { OnOk result (levels (in_a_row inner_sets.old.items) ≤ left → levels (in_a_row inner_sets.new.items) ≤ left) }
    ensures wrong { IfErr result (λ fault. fault ≡ SetFault.Wrong → NoneSays form (map string_bytes names.now) left (map view entries.now)) }
{
    for entry in entries {
        read_entry(alloc, form, names, left, entry, validators, inner_sets)?;
    }
    Ok(())
}

/// The quorum set that an object gives, with at most `left` levels of inner sets.
#[cycle(reading)]
fn read_set(
    alloc: Global,
    form: Form,
    names: &[String],
    left: u32,
    value: &Value,
) -> Result<QuorumSet, SetFault>
    requires few { left ≤ 4 }
    ensures said { IfOk result (λ set. SaysSet form (map string_bytes names.now) (members_in (view value.now)) set) }
    ensures shallow { IfOk result (λ set. levels set.inner ≤ left) }
    ensures wrong { IfErr result (λ fault. fault ≡ SetFault.Wrong → (set : QuorumTree) → SaysSet form (map string_bytes names.now) (members_in (view value.now)) set → levels set.inner ≤ left → ⊥) }
{
    let Some(threshold) = threshold_said(at(value, threshold_key(form))) else {
        return Err(SetFault::Wrong);
    };
    let Some((front, back)) = entries_in(form, value) else {
        return Err(SetFault::Wrong);
    };
    let mut validators = Vec::new(alloc);
    let mut inner_sets = Vec::new(alloc);
    read_entries(
        alloc,
        form,
        names,
        left,
        front,
        &mut validators,
        &mut inner_sets,
    )?;
    read_entries(
        alloc,
        form,
        names,
        left,
        back,
        &mut validators,
        &mut inner_sets,
    )?;
    match QuorumSet::new(threshold, validators, inner_sets) {
        Ok(set) => Ok(set),
        // This can't happen: there are at most 4 levels.
        Err(_) => Err(SetFault::Wrong),
    }
}

/// The quorum set that an object gives.
pub fn read_whole_set(
    alloc: Global,
    form: Form,
    names: &[String],
    value: &Value,
) -> Result<QuorumSet, SetFault>
    ensures said { IfOk result (λ set. SaysSet form (map string_bytes names.now) (members_in (view value.now)) set) }
    ensures shallow { IfOk result (λ set. levels set.inner ≤ 4) }
    ensures wrong { IfErr result (λ fault. fault ≡ SetFault.Wrong → (set : QuorumTree) → SaysSet form (map string_bytes names.now) (members_in (view value.now)) set → levels set.inner ≤ 4 → ⊥) }
{
    read_set(alloc, form, names, LEVELS, value)
}
