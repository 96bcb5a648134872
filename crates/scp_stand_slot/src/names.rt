//! The names of nodes, and of quorum sets: the text of a script's set, if it is short.
ghost use Rattle.std.specs.Prelude.{◌≡◌, ◌≤◌, ◌++◌, ◌∷◌, [], List, All, IfOk, IfSome, OnOk, IsOkUnless, map, flat_map, option_map, option_to_list, string_bytes, Some};
ghost use Rattle.std.specs.List.{find};
ghost use Rattle.scp_slot.specs.scp_types.specs.declared.limits.TheConstants.{NODE_LIMIT};
ghost use Rattle.scp_slot.specs.scp_xdr.specs.Kind.{Fits};
ghost use Rattle.scp_slot.specs.scp_quorum.specs.QuorumKind.{set_kind, set_value};
ghost use Rattle.scp_slot.specs.scp_quorum.specs.QuorumTree.{QuorumTree};
ghost use Rattle.scp_script.specs.scp_wire.specs.Connections.{same_node};
ghost use Rattle.scp_script.specs.Script.{node_count, AreAdmitted};
ghost use Rattle.scp_script.specs.Nodes.{NamesNodes, numbers, set_at};
ghost use Rattle.scp_stand_slot.specs.NodeNames.{Naming};
ghost use Rattle.scp_stand_slot.specs.Names.{node_name, text_at, name_by, name_of, set_in_bytes, set_sent, sets_of, AreNamesOf, AreNames};

use scp_script::below::wire::{Message, decode};
use scp_script::{Command, set_of_node};
use scp_slot::below::quorum::QuorumSet;
use scp_slot::below::types::{Fault, Hash, NodeId};
use scp_text::{Term, text_of_set};
use std::alloc::Global;
use std::collections::BTreeMap;
use std::marker::Model;

/// The digits of a hash have this many characters. A name is shorter.
const HASH_DIGITS: usize = 64;

/// The id of a node, and a name that it has.
#[derive(Drop)]
pub struct NodeName {
    id: NodeId,
    name: String,
}

impl Model for NodeName {
    ghost use Rattle.std.specs.Prelude.{string_bytes};
    ghost use Rattle.scp_stand_slot.specs.NodeNames.{Naming};

    ghost Value = { Naming };

    ghost view = { λ n. record { id = n.id; name = string_bytes n.name } };
}

impl NodeName {
    /// The node with this id, and this name of it. Takes ownership of the name.
    pub fn new(id: NodeId, name: String) -> NodeName
        ensures { result ≡ record { id = id; name = string_bytes name } }
    {
        NodeName { id, name }
    }

    /// The id.
    fn id(&self) -> NodeId
        ensures { result ≡ self.now.id }
    {
        self.id
    }

    /// The name.
    fn name(&self) -> &str
        ensures { result.now ≡ self.now.name }
    {
        self.name.as_str()
    }
}

/// The first name that a node has among these.
fn naming_of<'a>(nodes: &'a [NodeName], node: &NodeId) -> Option<&'a NodeName>
    ensures { option_map (λ naming. naming.now) result ≡ find (λ naming. same_node naming.id node.now) nodes.now }
{
    nodes.iter().find(|naming| naming.id() == *node)
}

/// The names of nodes, and the texts of a script's sets, by their hashes.
#[derive(Drop)]
pub struct Names {
    nodes: Vec<NodeName>,
    sets: BTreeMap<Hash, String>,
}

impl Names {
    /// These names of nodes. Quorum sets have none.
    pub fn of_nodes(alloc: Global, nodes: Vec<NodeName>) -> Names
        ensures { AreNamesOf [] nodes.items result }
    {
        Names {
            nodes,
            sets: BTreeMap::new(alloc),
        }
    }

    /// The names of a script: those of its nodes' sets, and of the sets that its commands send. Its nodes are shown by their numbers.
    pub fn of(alloc: Global, commands: &[Command], count: u8) -> Result<Names, Fault>
        requires names { All NamesNodes commands.now }
        requires admitted { AreAdmitted [] commands.now }
        requires count { count ≡ node_count commands.now }
        requires few { count ≤ NODE_LIMIT }
        ensures names { IfOk result (AreNames commands.now) }
        ensures only_memory { IsOkUnless result Fault.NoMemory }
    {
        let mut sets = sets_of_nodes(alloc, commands, count)?;
        add_all_sent(alloc, &mut sets, commands)?;
        Names::of_sets(alloc, sets.as_slice())
    }

    /// The names of these sets.
    fn of_sets(alloc: Global, sets: &[QuorumSet]) -> Result<Names, Fault>
        requires fits { All (λ set. Fits set_kind (set_value set)) sets.now }
        ensures names { IfOk result (AreNamesOf sets.now []) }
        ensures only_memory { IsOkUnless result Fault.NoMemory }
    {
        let mut names = Names::of_nodes(alloc, Vec::new(alloc));
        for set in sets {
            names.add(alloc, set)?;
        }
        Ok(names)
    }

    /// Adds a set.
    fn add(&mut self, alloc: Global, set: &QuorumSet) -> Result<(), Fault>
        requires fits { Fits set_kind (set_value set.now) }
        ensures added { OnOk result ((sets : List QuorumTree) (nodes : List Naming) → AreNamesOf sets nodes self.old → AreNamesOf (sets ++ set.now ∷ []) nodes self.new) }
        ensures only_memory { IsOkUnless result Fault.NoMemory }
    {
        let hash = set.hash()?;
        let text = text_of_set(alloc, set)?;
        self.sets.insert(hash, text)?;
        Ok(())
    }

    /// The text of the set with this hash, if it is known.
    fn text(&self, hash: &Hash) -> Option<&str>
        ensures { option_map (λ text. text.now) result ≡ text_at self.now hash.now }
    {
        match self.sets.get(hash) {
            Some(text) => Some(text.as_str()),
            None => None,
        }
    }

    /// Adds the name of a node, or the text of its id if it has none.
    pub fn write_node(&self, out: &mut String, node: &NodeId) -> Result<(), Fault>
        ensures added { OnOk result (string_bytes out.new ≡ string_bytes out.old ++ node_name self.now node.now) }
        ensures only_memory { IsOkUnless result Fault.NoMemory }
    {
        match naming_of(self.nodes.as_slice(), node) {
            Some(naming) => {
                out.push_str(naming.name())?;
                Ok(())
            }
            None => node.write(out),
        }
    }

    /// Adds the name of a hash: `hash(SET)` if the set is known and this is shorter than the digits, and otherwise the digits.
    pub fn write_hash(&self, out: &mut String, hash: &Hash) -> Result<(), Fault>
        ensures added { OnOk result (string_bytes out.new ≡ string_bytes out.old ++ name_of self.now hash.now) }
        ensures only_memory { IsOkUnless result Fault.NoMemory }
    {
        match self.text(hash) {
            Some(text) => write_name(out, text, hash),
            None => hash.write(out),
        }
    }
}

/// Adds a hash as its set's text if that is short, and otherwise its digits.
fn write_name(out: &mut String, text: &str, hash: &Hash) -> Result<(), Fault>
    ensures added { OnOk result (string_bytes out.new ≡ string_bytes out.old ++ name_by (Some text.now) hash.now) }
    ensures only_memory { IsOkUnless result Fault.NoMemory }
{
    if text.len() >= HASH_DIGITS - 6 {
        return hash.write(out);
    }
    out.push_str("hash(")?;
    out.push_str(text)?;
    out.push_str(")")?;
    Ok(())
}

/// The sets of this many nodes.
fn sets_of_nodes(alloc: Global, commands: &[Command], count: u8) -> Result<Vec<QuorumSet>, Fault>
    requires names { All NamesNodes commands.now }
    requires admitted { AreAdmitted [] commands.now }
    requires few { count ≤ NODE_LIMIT }
    ensures sets { IfOk result (λ sets. sets.items ≡ map (λ number. set_at number commands.now) (numbers count)) }
    ensures fits { IfOk result (λ sets. All (λ set. Fits set_kind (set_value set)) sets.items) }
    ensures only_memory { IsOkUnless result Fault.NoMemory }
{
    let mut sets = Vec::new(alloc);
    for index in 0..count {
        sets.push(set_of_node(alloc, commands, index + 1)?)?;
    }
    Ok(sets)
}

/// The quorum set that these bytes carry, if they encode a message that is one.
fn set_in(alloc: Global, bytes: &[u8]) -> Result<Option<QuorumSet>, Fault>
    ensures set { IfOk result (λ set. option_to_list set ≡ set_in_bytes bytes.now) }
    ensures fits { IfOk result (λ set. IfSome set (λ set. Fits set_kind (set_value set))) }
    ensures only_memory { IsOkUnless result Fault.NoMemory }
{
    match decode(alloc, bytes) {
        Ok(Message::Set(set)) => Ok(Some(set)),
        Err(Fault::NoMemory) => Err(Fault::NoMemory),
        _ => Ok(None),
    }
}

/// The quorum set that the command sends, if it sends one.
fn sent(alloc: Global, command: &Command) -> Result<Option<QuorumSet>, Fault>
    ensures set { IfOk result (λ set. option_to_list set ≡ set_sent command.now) }
    ensures fits { IfOk result (λ set. IfSome set (λ set. Fits set_kind (set_value set))) }
    ensures only_memory { IsOkUnless result Fault.NoMemory }
{
    match command {
        Command::Send { bytes, .. } => set_in(alloc, bytes.as_slice()),
        _ => Ok(None),
    }
}

/// Adds the quorum set that the command sends, if it sends one.
fn add_sent(alloc: Global, sets: &mut Vec<QuorumSet>, command: &Command) -> Result<(), Fault>
    ensures sets { OnOk result (sets.new.items ≡ sets.old.items ++ set_sent command.now) }
    ensures fits { OnOk result (All (λ set. Fits set_kind (set_value set)) sets.old.items → All (λ set. Fits set_kind (set_value set)) sets.new.items) }
    ensures only_memory { IsOkUnless result Fault.NoMemory }
{
    let Some(set) = sent(alloc, command)? else {
        return Ok(());
    };
    sets.push(set)?;
    Ok(())
}

/// Adds the quorum sets that commands send.
fn add_all_sent(alloc: Global, sets: &mut Vec<QuorumSet>, commands: &[Command]) -> Result<(), Fault>
    ensures sets { OnOk result (sets.new.items ≡ sets.old.items ++ flat_map set_sent commands.now) }
    ensures fits { OnOk result (All (λ set. Fits set_kind (set_value set)) sets.old.items → All (λ set. Fits set_kind (set_value set)) sets.new.items) }
    ensures only_memory { IsOkUnless result Fault.NoMemory }
{
    for command in commands {
        add_sent(alloc, sets, command)?;
    }
    Ok(())
}
