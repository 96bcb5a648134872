//! Networks in the JSON that others publish.
ghost use Rattle.std.specs.Prelude.{◌≡◌, ℕ, [], ◌∷◌, ◌++◌, List, Some, None, codes, map, filter, flat_map, option_map, option_and_then, option_to_list, IfOk, IfErr, OnOk, IsSomeAnd, string_bytes};
ghost use Rattle.std.specs.List.{AllZip};
ghost use Rattle.serde_json.specs.Find.{as_object, get_member};
ghost use Rattle.serde_json.specs.Read.{read as read_text};
ghost use Rattle.serde_json.specs.View.{view};
ghost use Rattle.scp_quorum_search.specs.scp_types.specs.declared.names.NodeId.{NodeId};
ghost use Rattle.scp_quorum_search.specs.declared.member.Member.{Member};
ghost use Rattle.scp_quorum_files.specs.declared.form.Form.TheVariants as forms;
ghost use Rattle.scp_quorum_files.specs.declared.network.Organisation.{Organisation};
ghost use Rattle.scp_quorum_files.specs.declared.sets.SetFault.TheVariants as SetFault;
ghost use Rattle.scp_quorum_files.specs.Documents.{form_of, nodes_in, organisations_in, values_at, text_in, strays_of};
ghost use Rattle.scp_quorum_files.specs.Networks.{node_name, node_set, has_set, names_in, each_once, id_of, members_in, organisation_name, top_strays, transitive_strays, node_strays, organisation_strays, SaysMember, SaysOrganisation, IsNetworkOf};
ghost use Rattle.scp_quorum_files.specs.Faults.{IsFileFault};
ghost use Rattle.scp_quorum_files.specs.inside.Failing.{AreAllNames, AreNumbered, NamesFail, AddsMember, MemberFails, MembersFail, OrganisationsFail, DocumentFails};

use crate::fault::FileFault;
use crate::form::{Form, Part};
use crate::keys::{add_strays, at, name_key, set_key, text_at, values_at};
use crate::names::{add_names, add_set_strays, each_once, id_at, id_of, is_one_of};
use crate::network::{Named, Network, Organisation};
use crate::sets::{SetFault, read_whole_set};
use scp_quorum_search::Member;
use scp_quorum_search::below::types::NodeId;
use serde_json::{Category, Value};
use std::alloc::{AllocError, Global};

/// In which form a document is.
fn form_of(doc: &Value) -> Form
    ensures { result ≡ form_of (view doc.now) }
{
    if !doc.is_object() {
        return Form::Beat;
    }
    match at(doc, "nodes") {
        None => Form::Core,
        Some(_) => Form::Beat,
    }
}

/// The nodes of a document of stellar-core: at `transitive`, or else the document itself.
fn core_nodes(doc: &Value) -> Option<&[Value]>
    ensures { option_map (λ nodes. map view nodes.now) result ≡ nodes_in forms.Core (view doc.now) }
{
    if !doc.is_object() {
        return None;
    }
    match at(doc, "transitive") {
        None => Some(std::slice::from_ref(doc)),
        Some(Value::Null) => Some(std::slice::from_ref(doc)),
        Some(inner) => inner_nodes(inner),
    }
}

/// The nodes at `transitive`.
fn inner_nodes(inner: &Value) -> Option<&[Value]>
    ensures { option_map (λ nodes. map view nodes.now) result ≡ option_and_then (values_at (codes "nodes")) (as_object (view inner.now)) }
{
    match inner {
        Value::Object(_) => values_at(inner, "nodes"),
        _ => None,
    }
}

/// The nodes of a document of stellarbeat: an array of them, or an object with such an array.
fn beat_nodes(doc: &Value) -> Option<&[Value]>
    ensures { option_map (λ nodes. map view nodes.now) result ≡ nodes_in forms.Beat (view doc.now) }
{
    match doc {
        Value::Array(nodes) => Some(nodes.as_slice()),
        Value::Object(_) => values_at(doc, "nodes"),
        _ => None,
    }
}

/// The nodes of a document.
fn nodes_in(form: Form, doc: &Value) -> Option<&[Value]>
    ensures { option_map (λ nodes. map view nodes.now) result ≡ nodes_in form (view doc.now) }
{
    match form {
        Form::Core => core_nodes(doc),
        Form::Beat => beat_nodes(doc),
    }
}

/// The organisations of a document of stellarbeat.
fn beat_organisations(doc: &Value) -> Option<&[Value]>
    ensures { option_map (λ values. map view values.now) result ≡ organisations_in forms.Beat (view doc.now) }
{
    match doc {
        Value::Object(_) => values_at(doc, "organizations"),
        _ => Some(&[]),
    }
}

/// The organisations of a document.
fn organisations_in(form: Form, doc: &Value) -> Option<&[Value]>
    ensures { option_map (λ values. map view values.now) result ≡ organisations_in form (view doc.now) }
{
    match form {
        Form::Core => Some(&[]),
        Form::Beat => beat_organisations(doc),
    }
}

/// The quorum set of a node, if it has one.
fn set_of(form: Form, node: &Value) -> Option<&Value>
    ensures { option_to_list (option_map (λ v. view v.now) result) ≡ node_set form (view node.now) }
{
    match at(node, set_key(form)) {
        None => None,
        Some(Value::Null) => None,
        Some(set) => Some(set),
    }
}

/// The names of the nodes, each another one.
fn own_names(alloc: Global, form: Form, nodes: &[Value]) -> Result<Vec<String>, FileFault>
    ensures said { IfOk result (λ own. map (node_name form) (map view nodes.now) ≡ map Some (map string_bytes own.items)) }
    ensures once { IfOk result (λ own. each_once (map string_bytes own.items) ≡ map string_bytes own.items) }
    ensures wrong { IfErr result (NamesFail form (map view nodes.now)) }
{
    let mut own = Vec::new(alloc);
    for (place, node) in nodes.iter().enumerate() {
        let Some(name) = text_at(node, name_key(form)) else {
            return Err(FileFault::Node(place));
        };
        if is_one_of(&own, name) {
            return Err(FileFault::Twice(place));
        }
        own.push(String::from_str(alloc, name)?)?;
    }
    Ok(own)
}

/// Adds the names that the quorum sets of these nodes have.
fn add_named(
    alloc: Global,
    names: &mut Vec<String>,
    form: Form,
    nodes: &[Value],
) -> Result<(), AllocError>
    ensures { OnOk result (map string_bytes names.new.items ≡ map string_bytes names.old.items ++ flat_map (λ d. flat_map (names_in form) (node_set form d)) (map view nodes.now)) }
{
    for node in nodes {
        if let Some(set) = set_of(form, node) {
            add_names(alloc, names, form, set)?;
        }
    }
    Ok(())
}

/// All names: those of the nodes, and those that their quorum sets name besides.
fn all_names(alloc: Global, form: Form, nodes: &[Value]) -> Result<Vec<String>, FileFault>
    ensures all { IfOk result (λ names. AreAllNames form (map view nodes.now) (map string_bytes names.items)) }
    ensures wrong { IfErr result (NamesFail form (map view nodes.now)) }
{
    let mut own = own_names(alloc, form, nodes)?;
    add_named(alloc, &mut own, form, nodes)?;
    let names = each_once(alloc, &own)?;
    Ok(names)
}

/// The member that a node with this quorum set is.
fn read_member(
    alloc: Global,
    form: Form,
    names: &[String],
    node: &Value,
    set: &Value,
) -> Result<Member, SetFault>
    requires { node_set form (view node.now) ≡ view set.now ∷ [] }
    ensures said { IfOk result (SaysMember form (map string_bytes names.now) (view node.now)) }
    ensures wrong { IfErr result (λ fault. fault ≡ SetFault.Wrong → (m : Member) → SaysMember form (map string_bytes names.now) (view node.now) m → ⊥) }
{
    let Some(name) = text_at(node, name_key(form)) else {
        return Err(SetFault::Wrong);
    };
    let Some(id) = id_of(names, name) else {
        return Err(SetFault::Wrong);
    };
    if !set.is_object() {
        return Err(SetFault::Wrong);
    }
    let set = read_whole_set(alloc, form, names, set)?;
    Ok(Member { node: id, set })
}

/// Adds the member that a node at this place is, if it has a quorum set.
fn read_node(
    alloc: Global,
    form: Form,
    names: &[String],
    place: usize,
    node: &Value,
    members: &mut Vec<Member>,
) -> Result<(), FileFault>
    ensures said { OnOk result (AddsMember form (map string_bytes names.now) (view node.now) members.old.items members.new.items) }
    ensures wrong { IfErr result (MemberFails form (map string_bytes names.now) (view node.now)) }
{
    let Some(set) = set_of(form, node) else {
        return Ok(());
    };
    match read_member(alloc, form, names, node, set) {
        Ok(member) => Ok(members.push(member)?),
        Err(SetFault::NoMemory) => Err(FileFault::NoMemory),
        Err(SetFault::Wrong) => Err(FileFault::Node(place)),
    }
}

/// The members: the nodes that have a quorum set.
fn read_members(
    alloc: Global,
    form: Form,
    names: &[String],
    nodes: &[Value],
) -> Result<Vec<Member>, FileFault>
    ensures said { IfOk result (λ members. AllZip (SaysMember form (map string_bytes names.now)) (filter (has_set form) (map view nodes.now)) members.items) }
    ensures wrong { IfErr result (MembersFail form (map string_bytes names.now) (map view nodes.now)) }
{
    let mut members = Vec::new(alloc);
    for (place, node) in nodes.iter().enumerate() {
        read_node(alloc, form, names, place, node, &mut members)?;
    }
    Ok(members)
}

/// The name of an organisation, or its id where it has none.
fn organisation_name(value: &Value) -> Option<&str>
    ensures { option_map (λ name. name.now) result ≡ organisation_name (members_in (view value.now)) }
{
    match text_at(value, "name") {
        Some(name) => Some(name),
        None => text_at(value, "id"),
    }
}

/// Adds the node that a value names. A value that isn't a text names none.
fn read_named(names: &[String], value: &Value, nodes: &mut Vec<NodeId>) -> Result<(), SetFault>
    ensures said { OnOk result ((texts : List (List ℕ)) → map (id_of (map string_bytes names.now)) texts ≡ map Some nodes.old.items → map (id_of (map string_bytes names.now)) (texts ++ text_in (view value.now)) ≡ map Some nodes.new.items) }
    ensures wrong { IfErr result (λ fault. fault ≡ SetFault.Wrong → (text : List ℕ) × (text_in (view value.now) ≡ text ∷ []) × (id_of (map string_bytes names.now) text ≡ None)) }
{
    let Some(name) = value.as_str() else {
        return Ok(());
    };
    match id_of(names, name) {
        Some(node) => Ok(nodes.push(node)?),
        None => Err(SetFault::Wrong),
    }
}

/// The nodes that these values name. Values that aren't texts name none.
fn read_nodes(alloc: Global, names: &[String], values: &[Value]) -> Result<Vec<NodeId>, SetFault>
    ensures said { IfOk result (λ nodes. map (id_of (map string_bytes names.now)) (flat_map text_in (map view values.now)) ≡ map Some nodes.items) }
    ensures wrong { IfErr result (λ fault. fault ≡ SetFault.Wrong → (nodes : List NodeId) → map (id_of (map string_bytes names.now)) (flat_map text_in (map view values.now)) ≡ map Some nodes → ⊥) }
{
    let mut nodes = Vec::new(alloc);
    for value in values {
        read_named(names, value, &mut nodes)?;
    }
    Ok(nodes)
}

/// An organisation.
fn read_organisation(
    alloc: Global,
    names: &[String],
    value: &Value,
) -> Result<Organisation, SetFault>
    ensures said { IfOk result (SaysOrganisation (map string_bytes names.now) (view value.now)) }
    ensures wrong { IfErr result (λ fault. fault ≡ SetFault.Wrong → (organisation : Organisation) → SaysOrganisation (map string_bytes names.now) (view value.now) organisation → ⊥) }
{
    let Some(name) = organisation_name(value) else {
        return Err(SetFault::Wrong);
    };
    let Some(values) = values_at(value, "validators") else {
        return Err(SetFault::Wrong);
    };
    let nodes = read_nodes(alloc, names, values)?;
    let name = String::from_str(alloc, name)?;
    Ok(Organisation { name, nodes })
}

/// The organisations that these values are.
fn read_organisations(
    alloc: Global,
    names: &[String],
    values: &[Value],
) -> Result<Vec<Organisation>, FileFault>
    ensures said { IfOk result (λ found. AllZip (SaysOrganisation (map string_bytes names.now)) (map view values.now) found.items) }
    ensures wrong { IfErr result (OrganisationsFail (map string_bytes names.now) (map view values.now)) }
{
    let mut found = Vec::new(alloc);
    for (place, value) in values.iter().enumerate() {
        match read_organisation(alloc, names, value) {
            Ok(organisation) => found.push(organisation)?,
            Err(SetFault::NoMemory) => return Err(FileFault::NoMemory),
            Err(SetFault::Wrong) => return Err(FileFault::Organisation(place)),
        }
    }
    Ok(found)
}

/// Adds the keys of a value that the part may not have, if the value is an object.
fn add_strays_of(
    alloc: Global,
    strays: &mut Vec<String>,
    form: Form,
    part: Part,
    value: &Value,
) -> Result<(), AllocError>
    ensures { OnOk result (map string_bytes strays.new.items ≡ map string_bytes strays.old.items ++ strays_of form part (members_in (view value.now))) }
{
    match value {
        Value::Object(object) => add_strays(alloc, strays, form, part, object),
        _ => Ok(()),
    }
}

/// Adds the keys of stellar-core's document at `transitive` that aren't known.
fn add_transitive_strays(
    alloc: Global,
    strays: &mut Vec<String>,
    doc: &Value,
) -> Result<(), AllocError>
    ensures { OnOk result (map string_bytes strays.new.items ≡ map string_bytes strays.old.items ++ transitive_strays forms.Core (get_member (codes "transitive") (members_in (view doc.now)))) }
{
    match at(doc, "transitive") {
        Some(inner) => add_strays_of(alloc, strays, Form::Core, Part::Transitive, inner),
        None => Ok(()),
    }
}

/// Adds the keys at the top of the document that aren't known.
fn add_top_strays(
    alloc: Global,
    strays: &mut Vec<String>,
    form: Form,
    doc: &Value,
) -> Result<(), AllocError>
    ensures { OnOk result (map string_bytes strays.new.items ≡ map string_bytes strays.old.items ++ top_strays form (view doc.now)) }
{
    add_strays_of(alloc, strays, form, Part::Whole, doc)?;
    match form {
        Form::Core => add_transitive_strays(alloc, strays, doc),
        Form::Beat => Ok(()),
    }
}

/// Adds the keys of these nodes, and of their quorum sets, that aren't known.
fn add_node_strays(
    alloc: Global,
    strays: &mut Vec<String>,
    form: Form,
    nodes: &[Value],
) -> Result<(), AllocError>
    ensures { OnOk result (map string_bytes strays.new.items ≡ map string_bytes strays.old.items ++ flat_map (node_strays form) (map view nodes.now)) }
{
    for node in nodes {
        add_strays_of(alloc, strays, form, Part::Node, node)?;
        if let Some(set) = set_of(form, node) {
            add_set_strays(alloc, strays, form, set)?;
        }
    }
    Ok(())
}

/// Adds the keys of these organisations that aren't known.
fn add_organisation_strays(
    alloc: Global,
    strays: &mut Vec<String>,
    form: Form,
    values: &[Value],
) -> Result<(), AllocError>
    ensures { OnOk result (map string_bytes strays.new.items ≡ map string_bytes strays.old.items ++ flat_map (organisation_strays form) (map view values.now)) }
{
    for value in values {
        add_strays_of(alloc, strays, form, Part::Organisation, value)?;
    }
    Ok(())
}

/// All keys that aren't known, each as often as it comes.
fn strays_in(
    alloc: Global,
    form: Form,
    doc: &Value,
    nodes: &[Value],
    organisations: &[Value],
) -> Result<Vec<String>, AllocError>
    ensures { IfOk result (λ strays. map string_bytes strays.items ≡ (top_strays form (view doc.now) ++ flat_map (node_strays form) (map view nodes.now)) ++ flat_map (organisation_strays form) (map view organisations.now)) }
{
    let mut strays = Vec::new(alloc);
    add_top_strays(alloc, &mut strays, form, doc)?;
    add_node_strays(alloc, &mut strays, form, nodes)?;
    add_organisation_strays(alloc, &mut strays, form, organisations)?;
    Ok(strays)
}

/// The nodes with these names, each with the id of its place.
fn numbered(alloc: Global, names: &[String]) -> Result<Vec<Named>, AllocError>
    ensures { IfOk result (λ nodes. AreNumbered (map string_bytes names.now) nodes.items) }
{
    let mut nodes = Vec::with_capacity(alloc, names.len())?;
    for (place, name) in names.iter().enumerate() {
        let name = String::from_str(alloc, name.as_str())?;
        nodes.push(Named {
            name,
            id: id_at(place),
        })?;
    }
    Ok(nodes)
}

/// The network that a document says.
fn read_document(alloc: Global, doc: &Value) -> Result<Network, FileFault>
    ensures read { IfOk result (IsNetworkOf (view doc.now)) }
    ensures wrong { IfErr result (DocumentFails (view doc.now)) }
{
    let form = form_of(doc);
    let Some(nodes) = nodes_in(form, doc) else {
        return Err(FileFault::Nodes);
    };
    let Some(values) = organisations_in(form, doc) else {
        return Err(FileFault::Organisation(0));
    };
    let names = all_names(alloc, form, nodes)?;
    let members = read_members(alloc, form, &names, nodes)?;
    let organisations = read_organisations(alloc, &names, values)?;
    let strays = strays_in(alloc, form, doc, nodes, values)?;
    let nodes = numbered(alloc, &names)?;
    Ok(Network {
        nodes,
        members,
        strays,
        organisations,
    })
}

/// The document of a text.
fn read_value(alloc: Global, text: &str) -> Result<Value, FileFault>
    ensures read { IfOk result (λ doc. read_text text.now ≡ Some (view doc)) }
    ensures refused { IfErr result (IsFileFault text.now) }
{
    match Value::from_str(alloc, text) {
        Ok(doc) => Ok(doc),
        Err(error) => match error.classify() {
            Category::Memory => Err(FileFault::NoMemory),
            _ => Err(FileFault::Text),
        },
    }
}

/// The network that a text says: JSON as stellar-core prints it for `quorum`, or as stellarbeat publishes nodes.
pub fn read_json(alloc: Global, text: &str) -> Result<Network, FileFault>
    ensures read { IfOk result (λ network. IsSomeAnd (read_text text.now) (λ doc. IsNetworkOf doc network)) }
    ensures refused { IfErr result (IsFileFault text.now) }
{
    let doc = read_value(alloc, text)?;
    match read_document(alloc, &doc) {
        Ok(network) => Ok(network),
        Err(fault) => Err(fault),
    }
}
