//! What the lines of a script did so far.
ghost use Rattle.std.specs.Prelude.{◌≡◌, ◌∷◌, ◌++◌, ◌||◌, [], ℕ, nat_eq, List, OnOk};
ghost use Rattle.std.specs.Ordering.{nat_cmp};
ghost use Rattle.std.specs.BTreeSet as sorted;
ghost use Rattle.scp_script.specs.declared.command.Command.{Command};
ghost use Rattle.scp_script.specs.Script.{is_link};
ghost use Rattle.scp_script_hints.specs.Hints.{sends_on, may_decide};
ghost use Rattle.scp_script_hints.specs.inside.Behind.{has_sent, KnowsBefore};

use scp_script::Command;
use std::alloc::{AllocError, Global};
use std::collections::BTreeSet;

/// A link that lines sent on.
#[derive(Clone, Copy, PartialEq, Eq)]
pub struct SentLink {
    pub from: u8,
    pub to: u8,
}

/// What the lines so far did.
#[derive(Drop)]
pub struct Before {
    /// The links that they sent on.
    pub sent: Vec<SentLink>,
    /// The nodes that may have decided something by them.
    pub deciding: BTreeSet<u8>,
}

/// No line did anything so far.
pub fn nothing(alloc: Global) -> Before
    ensures { KnowsBefore result [] }
{
    Before {
        sent: Vec::new(alloc),
        deciding: BTreeSet::new(alloc),
    }
}

/// Whether the link is among these.
fn has_link(links: &[SentLink], from: u8, to: u8) -> bool
    ensures { result ≡ has_sent links.now from to }
{
    for link in links {
        if from == link.from && to == link.to {
            return true;
        }
    }
    false
}

/// Notes a link that is sent on.
#[tactic(auto, using(crate::proofs::Sending::sent_more, crate::proofs::Sending::sent_again))]
fn note_link(sent: &mut Vec<SentLink>, from: u8, to: u8) -> Result<(), AllocError>
    ensures { OnOk result ((f t : ℕ) → has_sent sent.new.items f t ≡ (has_sent sent.old.items f t || is_link f t from to)) }
{
    if has_link(sent.as_slice(), from, to) {
        return Ok(());
    }
    sent.push(SentLink { from, to })?;
    Ok(())
}

/// Notes the link of a `send`.
fn note_sent(sent: &mut Vec<SentLink>, command: &Command) -> Result<(), AllocError>
    ensures { OnOk result ((f t : ℕ) → has_sent sent.new.items f t ≡ (has_sent sent.old.items f t || sends_on f t command.now)) }
{
    match command {
        Command::Send { from, to, .. } => note_link(sent, *from, *to),
        _ => Ok(()),
    }
}

/// Notes a node that may decide something.
fn note_node(deciding: &mut BTreeSet<u8>, node: u8) -> Result<(), AllocError>
    ensures { OnOk result ((n : ℕ) → sorted.contains nat_cmp deciding.new n ≡ (sorted.contains nat_cmp deciding.old n || nat_eq node n)) }
{
    deciding.insert(node)?;
    Ok(())
}

/// Notes the node that may decide something by a command.
fn note_deciding(deciding: &mut BTreeSet<u8>, command: &Command) -> Result<(), AllocError>
    ensures { OnOk result ((n : ℕ) → sorted.contains nat_cmp deciding.new n ≡ (sorted.contains nat_cmp deciding.old n || may_decide n command.now)) }
{
    match command {
        Command::Open { to, .. } => note_node(deciding, *to),
        Command::Propose { node, .. } => note_node(deciding, *node),
        _ => Ok(()),
    }
}

impl Before {
    /// Notes a command.
    pub fn note(&mut self, command: &Command) -> Result<(), AllocError>
        ensures { OnOk result ((done : List Command) → KnowsBefore self.old done → KnowsBefore self.new (done ++ command.now ∷ [])) }
    {
        note_sent(&mut self.sent, command)?;
        note_deciding(&mut self.deciding, command)?;
        Ok(())
    }

    /// Whether a line sent on the link.
    pub fn sent_on(&self, from: u8, to: u8) -> bool
        ensures { result ≡ has_sent self.now.sent.items from to }
    {
        has_link(self.sent.as_slice(), from, to)
    }

    /// Whether the node may have decided something.
    pub fn may_decide(&self, node: u8) -> bool
        ensures { result ≡ sorted.contains nat_cmp self.now.deciding node }
    {
        self.deciding.contains(&node)
    }
}
