//! The names of a configuration.
ghost use Rattle.std.specs.Prelude.{◌≡◌, Some, IfOk, IfErr, not, nat_eq, option_map};
ghost use Rattle.std.specs.List.{find, list_all, list_any};
ghost use Rattle.std.specs.Cmp.Lexicographic.{pointwise};
ghost use Rattle.toml.specs.View.{view, table_view};
ghost use Rattle.scp_live_config.specs.Names.{AreNames, is_digit, is_name_byte, is_name, id_said, identity_said, named, name_said};
ghost use Rattle.scp_live_config.specs.Config.{SaysNames};
ghost use Rattle.scp_live_config.specs.Wrong.{IsWrong};
ghost use Rattle.scp_live_config.specs.declared.fault.ConfigFault.TheVariants as ConfigFault;
ghost use Rattle.scp_live_config.specs.inside.Faults.{Tells, IsWrongAmong, IsWrongPair, IsSameId};

use crate::fault::ConfigFault;
use crate::settings::Named;
use crate::table::{counted_to, table_at};
use crate::wrong::Wrong;
use hex::FromHex;
use scp_quorum::below::types::NodeId;
use std::alloc::Global;
use toml::{Table, Value};

/// The most bytes of a name.
const LONGEST: usize = 32;

fn is_digit(byte: u8) -> bool
    ensures { result ≡ is_digit byte }
{
    byte >= b'0' && byte <= b'9'
}

fn is_name_byte(byte: u8) -> bool
    ensures { result ≡ is_name_byte byte }
{
    (byte >= b'a' && byte <= b'z') || is_digit(byte) || byte == b'_' || byte == b'-'
}

fn are_name_bytes(bytes: &[u8]) -> bool
    ensures { result ≡ list_all is_name_byte bytes.now }
{
    bytes.iter().all(|byte| is_name_byte(*byte))
}

fn has_more_than_digits(bytes: &[u8]) -> bool
    ensures { result ≡ list_any (λ b. not (is_digit b)) bytes.now }
{
    bytes.iter().any(|byte| !is_digit(*byte))
}

/// Whether the text is a name: 1 to 32 of `a-z 0-9 _ -`, and not only digits.
fn is_name(name: &str) -> bool
    ensures { result ≡ is_name name.now }
{
    let bytes = name.as_bytes();
    bytes.len() <= LONGEST && are_name_bytes(bytes) && has_more_than_digits(bytes)
}

/// The id that a value gives: 64 hexadecimal digits, or a number from 1 to 255.
fn id_of(value: &Value) -> Option<NodeId>
    ensures { result ≡ id_said (view value.now) }
{
    match value {
        Value::String(text) => match <[u8; 32] as FromHex>::from_hex(text.as_str()) {
            Ok(bytes) => Some(NodeId(bytes)),
            Err(_) => None,
        },
        Value::Integer(number) => match counted_to(255, *number) {
            Some(number) => Some(NodeId([number as u8; 32])),
            None => None,
        },
        _ => None,
    }
}

/// The name and id that a key of `NODES` and its value give.
fn read_identity(alloc: Global, name: &str, value: &Value) -> Result<Named, ConfigFault>
    ensures read { IfOk result (λ identity. identity_said (name.now, view value.now) ≡ Some identity) }
    ensures wrong { IfErr result (Tells (IsWrongPair name.now (view value.now))) }
{
    let copied = String::from_str(alloc, name)?;
    if !is_name(name) {
        return Err(ConfigFault::Wrong(Wrong::Name(copied)));
    }
    match id_of(value) {
        Some(id) => Ok(Named::new(copied, id)),
        None => Err(ConfigFault::Wrong(Wrong::Id(copied))),
    }
}

/// The first of these names that has the same id.
fn with_id<'a>(names: &'a [Named], identity: &Named) -> Option<&'a Named>
    ensures { option_map (λ other. other.now) result ≡ find (λ other. pointwise nat_eq other.id.0 identity.now.id.0) names.now }
{
    names.iter().find(|other| other.id() == identity.id())
}

/// The fault that a name has the id of another one.
fn same_id(alloc: Global, identity: &Named, other: &Named) -> Result<Wrong, ConfigFault>
    ensures told { IfOk result (IsSameId identity.now.name other.now.name) }
    ensures only_memory { IfErr result (λ e. e ≡ ConfigFault.NoMemory) }
{
    let name = String::from_str(alloc, identity.name())?;
    let other = String::from_str(alloc, other.name())?;
    Ok(Wrong::SameId { name, other })
}

/// The names and ids that the table `NODES` gives.
fn read_nodes(alloc: Global, nodes: &Table) -> Result<Vec<Named>, ConfigFault>
    ensures read { IfOk result (λ names. AreNames (table_view nodes.now) names.items) }
    ensures wrong { IfErr result (Tells (IsWrongAmong (table_view nodes.now))) }
{
    let mut names = Vec::new(alloc);
    for (name, value) in nodes {
        let identity = match read_identity(alloc, name.as_str(), value) {
            Ok(identity) => identity,
            Err(fault) => return Err(fault),
        };
        if let Some(other) = with_id(&names, &identity) {
            let wrong = same_id(alloc, &identity, other)?;
            return Err(ConfigFault::Wrong(wrong));
        }
        names.push(identity)?;
    }
    Ok(names)
}

/// The names and ids that a document gives.
pub fn read_names(alloc: Global, doc: &Table) -> Result<Vec<Named>, ConfigFault>
    ensures read { IfOk result (λ names. SaysNames (table_view doc.now) names.items) }
    ensures wrong { IfErr result (Tells (IsWrong (table_view doc.now))) }
{
    let Some(nodes) = table_at(doc, "NODES") else {
        return Err(ConfigFault::Wrong(Wrong::Nodes));
    };
    match read_nodes(alloc, nodes) {
        Ok(names) => Ok(names),
        Err(fault) => Err(fault),
    }
}

/// The name and id of the node with this name, if there is one.
pub fn named<'a>(names: &'a [Named], name: &str) -> Option<&'a Named>
    ensures { option_map (λ identity. identity.now) result ≡ named names.now name.now }
{
    names.iter().find(|identity| identity.name() == name)
}

/// The name and id of the node that a value names, if there is one.
pub fn name_said<'a>(names: &'a [Named], value: &Value) -> Option<&'a Named>
    ensures { option_map (λ identity. identity.now) result ≡ name_said names.now (view value.now) }
{
    match value {
        Value::String(name) => named(names, name.as_str()),
        _ => None,
    }
}
