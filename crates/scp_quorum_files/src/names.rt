//! The names of a network's nodes, and the ids that they have by their places.
ghost use Rattle.std.specs.Prelude.{◌≡◌, [], ◌∷◌, ◌++◌, cond, map, flat_map, IfOk, OnOk, string_bytes};
ghost use Rattle.std.specs.Str.{bytes_eq};
ghost use Rattle.std.specs.List.{list_any, position};
ghost use Rattle.serde_json.specs.View.{view, members_view, items_view};
ghost use Rattle.scp_quorum_files.specs.Networks.{id_at, id_of, each_once, names_in, items_names, members_names, strays_in, items_strays, members_strays};

use crate::form::{Form, Part};
use crate::keys::{add_strays, holds};
use scp_quorum_search::below::types::NodeId;
use serde_json::{Map, Value};
use std::alloc::{AllocError, Global};

/// The id of the node whose name is at this place.
#[tactic(auto, unfolding(crate::specs::Networks::long_word))]
pub fn id_at(place: usize) -> NodeId
    ensures { result ≡ id_at place }
{
    let [a, b, c, d, e, f, g, h] = (place as u64).to_be_bytes();
    NodeId([
        0, 0, 0, 0, 0, 0, 0, 0, 0, 0, 0, 0, 0, 0, 0, 0, 0, 0, 0, 0, 0, 0, 0, 0, a, b, c, d, e, f,
        g, h,
    ])
}

/// The id of the node with this name, if it is one of the names.
pub fn id_of(names: &[String], name: &str) -> Option<NodeId>
    ensures { result ≡ id_of (map string_bytes names.now) name.now }
{
    for (place, other) in names.iter().enumerate() {
        if name == other.as_str() {
            return Some(id_at(place));
        }
    }
    None
}

/// Whether a text is one of these.
pub fn is_one_of(texts: &[String], text: &str) -> bool
    ensures { result ≡ list_any (bytes_eq text.now) (map string_bytes texts.now) }
{
    for other in texts {
        if text == other.as_str() {
            return true;
        }
    }
    false
}

/// Adds the names that an entry of a set has.
#[cycle(naming)]
pub fn add_names(
    alloc: Global,
    names: &mut Vec<String>,
    form: Form,
    value: &Value,
) -> Result<(), AllocError>
    ensures { OnOk result (map string_bytes names.new.items ≡ map string_bytes names.old.items ++ names_in form (view value.now)) }
{
    match value {
        Value::String(text) => Ok(names.push(String::from_str(alloc, text.as_str())?)?),
        Value::Array(values) => add_names_of_each(alloc, names, form, values.as_slice()),
        Value::Object(object) => add_names_of_set(alloc, names, form, object),
        _ => Ok(()),
    }
}

/// Adds the names that these entries have.
#[cycle(naming)]
fn add_names_of_each(
    alloc: Global,
    names: &mut Vec<String>,
    form: Form,
    values: &[Value],
) -> Result<(), AllocError>
    ensures { OnOk result (map string_bytes names.new.items ≡ map string_bytes names.old.items ++ items_names form (items_view values.now)) }
{
    for value in values {
        add_names(alloc, names, form, value)?;
    }
    Ok(())
}

/// Adds the names that the entries of a set have.
#[cycle(naming)]
fn add_names_of_set(
    alloc: Global,
    names: &mut Vec<String>,
    form: Form,
    object: &Map<String, Value>,
) -> Result<(), AllocError>
    ensures { OnOk result (map string_bytes names.new.items ≡ map string_bytes names.old.items ++ members_names form (members_view object.now.entries)) }
{
    for (key, value) in object {
        if holds(form, key.as_str()) {
            add_names(alloc, names, form, value)?;
        }
    }
    Ok(())
}

/// Adds the keys of a set, and of its inner sets, that a set may not have.
#[cycle(straying)]
pub fn add_set_strays(
    alloc: Global,
    strays: &mut Vec<String>,
    form: Form,
    value: &Value,
) -> Result<(), AllocError>
    ensures { OnOk result (map string_bytes strays.new.items ≡ map string_bytes strays.old.items ++ strays_in form (view value.now)) }
{
    match value {
        Value::Array(values) => add_strays_of_each(alloc, strays, form, values.as_slice()),
        Value::Object(object) => {
            add_strays(alloc, strays, form, Part::Set, object)?;
            add_strays_inside(alloc, strays, form, object)
        }
        _ => Ok(()),
    }
}

/// Adds such keys of these entries.
#[cycle(straying)]
fn add_strays_of_each(
    alloc: Global,
    strays: &mut Vec<String>,
    form: Form,
    values: &[Value],
) -> Result<(), AllocError>
    ensures { OnOk result (map string_bytes strays.new.items ≡ map string_bytes strays.old.items ++ items_strays form (items_view values.now)) }
{
    for value in values {
        add_set_strays(alloc, strays, form, value)?;
    }
    Ok(())
}

/// Adds such keys of the inner sets of a set.
#[cycle(straying)]
fn add_strays_inside(
    alloc: Global,
    strays: &mut Vec<String>,
    form: Form,
    object: &Map<String, Value>,
) -> Result<(), AllocError>
    ensures { OnOk result (map string_bytes strays.new.items ≡ map string_bytes strays.old.items ++ members_strays form (members_view object.now.entries)) }
{
    for (key, value) in object {
        if holds(form, key.as_str()) {
            add_set_strays(alloc, strays, form, value)?;
        }
    }
    Ok(())
}

/// Adds a text, unless it is there.
fn add_once(alloc: Global, once: &mut Vec<String>, text: &str) -> Result<(), AllocError>
    ensures { OnOk result (map string_bytes once.new.items ≡ cond (list_any (bytes_eq text.now) (map string_bytes once.old.items)) (map string_bytes once.old.items) (map string_bytes once.old.items ++ text.now ∷ [])) }
{
    if is_one_of(once, text) {
        return Ok(());
    }
    let text = String::from_str(alloc, text)?;
    once.push(text)?;
    Ok(())
}

/// Each of the texts once, where it comes first.
pub fn each_once(alloc: Global, texts: &[String]) -> Result<Vec<String>, AllocError>
    ensures { IfOk result (λ once. map string_bytes once.items ≡ each_once (map string_bytes texts.now)) }
{
    let mut once = Vec::new(alloc);
    for text in texts {
        add_once(alloc, &mut once, text.as_str())?;
    }
    Ok(once)
}
