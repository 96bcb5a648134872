//! The quorum set of a configuration.
ghost use Rattle.std.specs.Prelude.{◌≡◌, ◌≤◌, Some, List, length, map, IfOk, IfErr, OnOk};
ghost use Rattle.toml.specs.Data.{Data};
ghost use Rattle.toml.specs.View.{view, table_view};
ghost use Rattle.scp_quorum.specs.scp_xdr.specs.Tree.{in_a_row};
ghost use Rattle.scp_quorum.specs.Sane.{IsSane, IsInRange, all_nodes, levels};
ghost use Rattle.scp_live_config.specs.Names.{HasOnly, node_said};
ghost use Rattle.scp_live_config.specs.Sets.{SaysSet, SayInner, threshold_in, validators_in, sets_in};
ghost use Rattle.scp_live_config.specs.Config.{SaysNames};
ghost use Rattle.scp_live_config.specs.Wrong.{IsWrong, IsWrongSet, SaysQuorumSet, AreApart};
ghost use Rattle.scp_live_config.specs.declared.wrong.Section.TheVariants as section;
ghost use Rattle.scp_live_config.specs.declared.sets.SetFault.TheVariants as SetFault;
ghost use Rattle.scp_live_config.specs.inside.Faults.{Tells, TellsSet, TellsInside, TellsPlace, are_distinct, is_among};

use crate::fault::ConfigFault;
use crate::names::name_said;
use crate::settings::Named;
use crate::table::{find, number_to, stray, table_at, values_at};
use crate::wrong::{Section, SetWrong, Wrong};
use scp_quorum::below::types::NodeId;
use scp_quorum::{QuorumSet, SaneSet};
use std::alloc::{AllocError, AllocFailed, Global};
use toml::{Table, Value};

/// The most levels of inner sets.
const LEVELS: u32 = 4;

/// The most nodes in the whole quorum set.
const MOST_NODES: usize = 1_000;

/// Why a quorum set can't be read: what is wrong in the inner set at the end of a path, or that memory ran out.
#[derive(Debug, Drop)]
pub enum SetFault {
    NoMemory,
    In { inner: Vec<usize>, wrong: SetWrong },
}

impl From<AllocError> for SetFault {
    ghost use Rattle.std.specs.Prelude.{◌≡◌};
    ghost use Rattle.scp_live_config.specs.declared.sets.SetFault.TheVariants.{NoMemory};

    ghost from_gives = { λ _ e. e ≡ NoMemory };

    fn from(_e: AllocError) -> SetFault {
        SetFault::NoMemory
    }
}

impl<T: Drop> From<AllocFailed<T>> for SetFault {
    ghost use Rattle.std.specs.Prelude.{◌≡◌};
    ghost use Rattle.scp_live_config.specs.declared.sets.SetFault.TheVariants.{NoMemory};

    ghost from_gives = { λ _ e. e ≡ NoMemory };

    fn from(_e: AllocFailed<T>) -> SetFault {
        SetFault::NoMemory
    }
}

/// Why nodes can't be read: the index of a value that names none, or that memory ran out.
#[derive(Clone, Copy, Debug, PartialEq, Eq)]
pub enum NodesFault {
    NoMemory,
    At(usize),
}

impl From<AllocError> for NodesFault {
    ghost use Rattle.std.specs.Prelude.{◌≡◌};
    ghost use Rattle.scp_live_config.specs.declared.sets.NodesFault.TheVariants.{NoMemory};

    ghost from_gives = { λ _ e. e ≡ NoMemory };

    fn from(_e: AllocError) -> NodesFault {
        NodesFault::NoMemory
    }
}

impl<T: Drop> From<AllocFailed<T>> for NodesFault {
    ghost use Rattle.std.specs.Prelude.{◌≡◌};
    ghost use Rattle.scp_live_config.specs.declared.sets.NodesFault.TheVariants.{NoMemory};

    ghost from_gives = { λ _ e. e ≡ NoMemory };

    fn from(_e: AllocFailed<T>) -> NodesFault {
        NodesFault::NoMemory
    }
}

/// Refuses keys that a quorum set may not have.
fn refuse_others(alloc: Global, names: &[Named], left: u32, table: &Table) -> Result<(), SetFault>
    ensures none { OnOk result (HasOnly section.Set (table_view table.now)) }
    ensures wrong { IfErr result (TellsSet names.now left (table_view table.now)) }
{
    match stray(Section::Set, table) {
        None => Ok(()),
        Some(key) => Err(SetFault::In {
            inner: Vec::new(alloc),
            wrong: SetWrong::Stray(String::from_str(alloc, key.as_str())?),
        }),
    }
}

/// The threshold of a set with this many entries.
fn read_threshold(entries: usize, table: &Table) -> Option<u32>
    ensures { result ≡ threshold_in entries (table_view table.now) }
{
    let most = entries.min(4_294_967_295) as u32;
    match find(table, "THRESHOLD") {
        Some(value) => number_to(most, value),
        None => None,
    }
}

/// The nodes that these values name, or the index of the first value that names none.
fn read_nodes(alloc: Global, names: &[Named], values: &[Value]) -> Result<Vec<NodeId>, NodesFault>
    ensures said { IfOk result (λ nodes. map (node_said names.now) (map view values.now) ≡ map Some nodes.items) }
    ensures wrong { IfErr result (TellsPlace names.now (map view values.now)) }
{
    let mut nodes = Vec::new(alloc);
    for (place, value) in values.iter().enumerate() {
        match name_said(names, value) {
            Some(named) => nodes.push(named.id())?,
            None => return Err(NodesFault::At(place)),
        }
    }
    Ok(nodes)
}

/// The nodes that `VALIDATORS` names.
fn read_validators(
    alloc: Global,
    names: &[Named],
    left: u32,
    table: &Table,
) -> Result<Vec<NodeId>, SetFault>
    ensures said { IfOk result (λ nodes. (values : List Data) × (validators_in (table_view table.now) ≡ Some values) × (map (node_said names.now) values ≡ map Some nodes.items)) }
    ensures wrong { IfErr result (TellsSet names.now left (table_view table.now)) }
{
    let Some(values) = values_at(table, "VALIDATORS") else {
        return Err(SetFault::In {
            inner: Vec::new(alloc),
            wrong: SetWrong::Validators,
        });
    };
    match read_nodes(alloc, names, values) {
        Ok(nodes) => Ok(nodes),
        Err(NodesFault::NoMemory) => Err(SetFault::NoMemory),
        Err(NodesFault::At(place)) => Err(SetFault::In {
            inner: Vec::new(alloc),
            wrong: SetWrong::Validator(place),
        }),
    }
}

/// The same fault, reported for the table in which this one is the inner set at this index.
fn inside(place: usize, fault: SetFault) -> SetFault
    ensures { TellsInside place fault result }
{
    match fault {
        SetFault::NoMemory => SetFault::NoMemory,
        SetFault::In { inner, wrong } => {
            let mut inner = inner;
            match inner.insert(0, place) {
                Ok(()) => SetFault::In { inner, wrong },
                Err(_) => SetFault::NoMemory,
            }
        }
    }
}

/// The inner sets. Below each of them there may be one level less.
#[cycle(reading)]
fn read_inner(
    alloc: Global,
    names: &[Named],
    left: u32,
    table: &Table,
) -> Result<Vec<QuorumSet>, SetFault>
    requires few { left ≤ 4 }
    ensures said { IfOk result (λ sets. (values : List Data) × (sets_in (table_view table.now) ≡ Some values) × SayInner names.now values (in_a_row sets.items)) }
    ensures shallow { IfOk result (λ sets. levels (in_a_row sets.items) ≤ left) }
    ensures wrong { IfErr result (TellsSet names.now left (table_view table.now)) }
{
    let Some(values) = values_at(table, "INNER_SETS") else {
        return Err(SetFault::In {
            inner: Vec::new(alloc),
            wrong: SetWrong::InnerSets,
        });
    };
    let mut sets = Vec::new(alloc);
    for (place, value) in values.iter().enumerate() {
        if left == 0 {
            return Err(SetFault::In {
                inner: Vec::new(alloc),
                wrong: SetWrong::TooDeep,
            });
        }
        let Some(inner) = value.as_table() else {
            return Err(SetFault::In {
                inner: Vec::new(alloc),
                wrong: SetWrong::InnerSets,
            });
        };
        match read_set(alloc, names, left - 1, inner) {
            Ok(set) => sets.push(set)?,
            Err(fault) => return Err(inside(place, fault)),
        }
    }
    Ok(sets)
}

/// The quorum set that a table gives, with at most `left` levels of inner sets.
#[cycle(reading)]
fn read_set(alloc: Global, names: &[Named], left: u32, table: &Table) -> Result<QuorumSet, SetFault>
    requires few { left ≤ 4 }
    ensures said { IfOk result (λ set. SaysSet names.now (table_view table.now) set) }
    ensures shallow { IfOk result (λ set. levels set.inner ≤ left) }
    ensures wrong { IfErr result (TellsSet names.now left (table_view table.now)) }
{
    refuse_others(alloc, names, left, table)?;
    let validators = read_validators(alloc, names, left, table)?;
    let inner_sets = read_inner(alloc, names, left, table)?;
    let threshold = match read_threshold(validators.len() + inner_sets.len(), table) {
        Some(threshold) => threshold,
        None => {
            return Err(SetFault::In {
                inner: Vec::new(alloc),
                wrong: SetWrong::Threshold,
            });
        }
    };
    match QuorumSet::new(threshold, validators, inner_sets) {
        Ok(set) => Ok(set),
        // This can't happen: there are at most 4 levels.
        Err(_) => Err(SetFault::In {
            inner: Vec::new(alloc),
            wrong: SetWrong::TooDeep,
        }),
    }
}

/// Whether the node is among these.
fn has(nodes: &[NodeId], node: &NodeId) -> bool
    ensures { result ≡ is_among node.now nodes.now }
{
    nodes.iter().any(|other| *node == *other)
}

/// Whether no node is in the list twice.
fn are_apart(nodes: &[NodeId]) -> bool
    ensures { result ≡ are_distinct nodes.now }
{
    match nodes.split_first() {
        None => true,
        Some((first, rest)) => !has(rest, first) && are_apart(rest),
    }
}

/// The quorum set as a sane one, if its XDR is short. All other conditions of a sane set already hold.
fn short_one(set: QuorumSet) -> Result<SaneSet, ConfigFault>
    requires in_range { IsInRange set }
    requires shallow { levels set.inner ≤ 4 }
    requires few { length (all_nodes set) ≤ 1000 }
    requires apart { AreApart set }
    ensures same { IfOk result (λ sane. sane ≡ set) }
    ensures sane { IfOk result (λ _. IsSane set) }
    ensures wrong { IfErr result (Tells (IsWrongSet set)) }
{
    if !set.is_sane() {
        return Err(ConfigFault::Wrong(Wrong::LongSet));
    }
    match set.into_sane() {
        Ok(sane) => Ok(sane),
        Err(_) => Err(ConfigFault::NoMemory),
    }
}

/// The quorum set as a sane one. Each threshold is in its range, and there are at most 4 levels of inner sets.
fn make_sane(set: QuorumSet) -> Result<SaneSet, ConfigFault>
    requires in_range { IsInRange set }
    requires shallow { levels set.inner ≤ 4 }
    ensures same { IfOk result (λ sane. sane ≡ set) }
    ensures sane { IfOk result (λ _. IsSane set) }
    ensures wrong { IfErr result (Tells (IsWrongSet set)) }
{
    let Ok(nodes) = set.nodes() else {
        return Err(ConfigFault::NoMemory);
    };
    if nodes.len() > MOST_NODES {
        return Err(ConfigFault::Wrong(Wrong::ManyNodes));
    }
    if are_apart(&nodes) {
        short_one(set)
    } else {
        Err(ConfigFault::Wrong(Wrong::NodeTwice))
    }
}

/// The quorum set that the document gives, sane or not.
fn read_whole_set(alloc: Global, names: &[Named], doc: &Table) -> Result<QuorumSet, ConfigFault>
    requires names { SaysNames (table_view doc.now) names.now }
    ensures read { IfOk result (λ set. SaysQuorumSet names.now (table_view doc.now) set) }
    ensures shallow { IfOk result (λ set. levels set.inner ≤ 4) }
    ensures wrong { IfErr result (Tells (IsWrong (table_view doc.now))) }
{
    let Some(table) = table_at(doc, "QUORUM_SET") else {
        return Err(ConfigFault::Wrong(Wrong::Set));
    };
    match read_set(alloc, names, LEVELS, table) {
        Ok(set) => Ok(set),
        Err(SetFault::NoMemory) => Err(ConfigFault::NoMemory),
        Err(SetFault::In { inner, wrong }) => {
            Err(ConfigFault::Wrong(Wrong::InSet { inner, wrong }))
        }
    }
}

/// The quorum set that the document gives, which is sane.
pub fn read_quorum_set(alloc: Global, names: &[Named], doc: &Table) -> Result<SaneSet, ConfigFault>
    requires names { SaysNames (table_view doc.now) names.now }
    ensures read { IfOk result (λ set. SaysQuorumSet names.now (table_view doc.now) set) }
    ensures sane { IfOk result (λ set. IsSane set) }
    ensures wrong { IfErr result (Tells (IsWrong (table_view doc.now))) }
{
    let set = read_whole_set(alloc, names, doc)?;
    match make_sane(set) {
        Ok(sane) => Ok(sane),
        Err(fault) => Err(fault),
    }
}
