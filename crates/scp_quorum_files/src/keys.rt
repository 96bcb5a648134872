//! The keys of documents, and what is at them.
ghost use Rattle.std.specs.Prelude.{◌≡◌, ◌++◌, map, option_map, option_and_then, OnOk, string_bytes};
ghost use Rattle.serde_json.specs.Find.{get_member, as_str};
ghost use Rattle.serde_json.specs.View.{view, members_view};
ghost use Rattle.scp_quorum_files.specs.Documents.{belongs, strays_of, values_said, values_at, threshold_key, name_key, set_key};
ghost use Rattle.scp_quorum_files.specs.Networks.{holds, members_in};
ghost use Rattle.scp_quorum_files.specs.declared.form.Form.TheVariants as forms;
ghost use Rattle.scp_quorum_files.specs.declared.form.Part.TheVariants as parts;

use crate::form::{Form, Part};
use serde_json::{Map, Value};
use std::alloc::{AllocError, Global};

/// Whether the part of stellar-core's document may have this key.
fn belongs_to_core(part: Part, key: &str) -> bool
    ensures { result ≡ belongs forms.Core part key.now }
{
    match part {
        Part::Whole => key == "node" || key == "qset" || key == "transitive",
        Part::Transitive => is_of_transitive(key),
        Part::Node => is_of_core_node(key),
        Part::Set => key == "t" || key == "v" || key == "hash",
        Part::Organisation => false,
    }
}

/// Whether the part of stellarbeat's document may have this key.
fn belongs_to_beat(part: Part, key: &str) -> bool
    ensures { result ≡ belongs forms.Beat part key.now }
{
    match part {
        Part::Whole => is_of_beat(key),
        Part::Transitive => false,
        Part::Node => is_of_beat_node(key),
        Part::Set => {
            key == "threshold"
                || key == "validators"
                || key == "innerQuorumSets"
                || key == "hashKey"
        }
        Part::Organisation => {
            key == "id" || key == "name" || key == "validators" || key == "homeDomain"
        }
    }
}

/// Whether the part may have this key.
fn belongs(form: Form, part: Part, key: &str) -> bool
    ensures { result ≡ belongs form part key.now }
{
    match form {
        Form::Core => belongs_to_core(part, key),
        Form::Beat => belongs_to_beat(part, key),
    }
}

/// Whether stellar-core has this key at `transitive`.
fn is_of_transitive(key: &str) -> bool
    ensures { result ≡ belongs forms.Core parts.Transitive key.now }
{
    key == "nodes"
        || key == "node_count"
        || key == "critical"
        || key == "intersection"
        || key == "last_check_ledger"
        || key == "last_good_ledger"
        || key == "potential_split"
}

/// Whether a node of stellar-core has this key.
fn is_of_core_node(key: &str) -> bool
    ensures { result ≡ belongs forms.Core parts.Node key.now }
{
    key == "node"
        || key == "qset"
        || key == "distance"
        || key == "heard"
        || key == "status"
        || key == "value"
        || key == "value_id"
}

/// Whether stellarbeat's document has this key.
fn is_of_beat(key: &str) -> bool
    ensures { result ≡ belongs forms.Beat parts.Whole key.now }
{
    key == "nodes"
        || key == "organizations"
        || key == "time"
        || key == "id"
        || key == "name"
        || key == "latestLedger"
}

/// Whether a node of stellarbeat has this key.
fn is_of_beat_node(key: &str) -> bool
    ensures { result ≡ belongs forms.Beat parts.Node key.now }
{
    key == "publicKey"
        || key == "quorumSet"
        || key == "name"
        || key == "organizationId"
        || key == "quorumSetHashKey"
        || key == "homeDomain"
        || key == "isValidator"
        || key == "validating"
        || key == "active"
        || key == "ip"
        || key == "port"
        || key == "host"
}

/// Adds the keys of an object that the part may not have.
pub fn add_strays(
    alloc: Global,
    strays: &mut Vec<String>,
    form: Form,
    part: Part,
    object: &Map<String, Value>,
) -> Result<(), AllocError>
    ensures { OnOk result (map string_bytes strays.new.items ≡ map string_bytes strays.old.items ++ strays_of form part (members_view object.now.entries)) }
{
    for (key, _) in object {
        if !belongs(form, part, key.as_str()) {
            strays.push(String::from_str(alloc, key.as_str())?)?;
        }
    }
    Ok(())
}

/// Whether a set has its entries at this key.
pub fn holds(form: Form, key: &str) -> bool
    ensures { result ≡ holds form key.now }
{
    match form {
        Form::Core => key == "v",
        Form::Beat => key == "validators" || key == "innerQuorumSets",
    }
}

/// The key of a set's threshold.
pub fn threshold_key(form: Form) -> &'static str
    ensures { result.now ≡ threshold_key form }
{
    match form {
        Form::Core => "t",
        Form::Beat => "threshold",
    }
}

/// The key of a node's name.
pub fn name_key(form: Form) -> &'static str
    ensures { result.now ≡ name_key form }
{
    match form {
        Form::Core => "node",
        Form::Beat => "publicKey",
    }
}

/// The key of a node's quorum set.
pub fn set_key(form: Form) -> &'static str
    ensures { result.now ≡ set_key form }
{
    match form {
        Form::Core => "qset",
        Form::Beat => "quorumSet",
    }
}

/// The value at a key of a value that is an object.
pub fn at<'a>(value: &'a Value, key: &str) -> Option<&'a Value>
    ensures { option_map (λ said. view said.now) result ≡ get_member key.now (members_in (view value.now)) }
{
    value.get(key)
}

/// The text at a key of a value that is an object.
pub fn text_at<'a>(value: &'a Value, key: &str) -> Option<&'a str>
    ensures { option_map (λ text. text.now) result ≡ option_and_then as_str (get_member key.now (members_in (view value.now))) }
{
    match at(value, key) {
        Some(said) => said.as_str(),
        None => None,
    }
}

/// The values of an array that may be missing or null.
pub fn values_said(said: Option<&Value>) -> Option<&[Value]>
    ensures { option_map (λ values. map view values.now) result ≡ values_said (option_map (λ v. view v.now) said.entry) }
{
    match said {
        None => Some(&[]),
        Some(Value::Null) => Some(&[]),
        Some(Value::Array(values)) => Some(values.as_slice()),
        Some(_) => None,
    }
}

/// The values of the array at a key of a value that is an object. None of them if there is none, or null.
pub fn values_at<'a>(value: &'a Value, key: &str) -> Option<&'a [Value]>
    ensures { option_map (λ values. map view values.now) result ≡ values_at key.now (members_in (view value.now)) }
{
    values_said(at(value, key))
}
