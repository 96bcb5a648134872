//! The nodes, and the links on which the caller alone sends.
ghost use Rattle.std.specs.Prelude.{◌≡◌, ◌⊎◌, ◌↔◌, IfOk, OnOk, IfErr, Err, None};
ghost use Rattle.scp_core.specs.scp_types.specs.declared.fault.Fault.{Fault};
ghost use Rattle.scp_turn.specs.Watch.{notes};
ghost use Rattle.scp_turn.specs.Heard.{Noted, Anything};
ghost use Rattle.scp_turn.specs.Network.{Drives, Offered, Settled, none_driven};
ghost use Rattle.scp_turn.specs.Linked.{IsNetwork};

use crate::linked::{SIDE, is_network};
use crate::stepping::hear;
use crate::{Event, KvDriver, NoWatch, Node, Reply, Watch, rounds};
use scp_core::below::types::{Fault, NETWORK_LIMIT};
use std::alloc::Global;
use std::marker::Model;

/// The number of links that are told apart: a list for each node that can be there, of as many.
pub const PLACES: usize = SIDE * SIDE;

/// Nodes that send to each other. They are numbered from 1 on, and the peers of each are the others, in the order of their numbers.
#[derive(Drop)]
pub struct Network {
    nodes: Vec<Node>,
    driven: Vec<bool>,
}

impl Model for Network {
    ghost use Rattle.scp_turn.specs.Network.{NetworkView};

    ghost Value = { NetworkView };

    ghost use Rattle.std.specs.Prelude.{◌≡◌, ◌≤◌, length};
    ghost use Rattle.scp_core.specs.scp_types.specs.declared.limits.TheConstants.{NETWORK_LIMIT};
    ghost use Rattle.scp_turn.specs.declared.network.TheConstants.{PLACES};
    ghost use Rattle.std.specs.Coded.{codes};
    ghost use Rattle.scp_core.specs.scp_xdr.specs.inside.TreeModel.{coded_row};
    ghost use Rattle.scp_core.specs.scp_quorum.specs.inside.QuorumTree.{coded_level};
    ghost use Rattle.scp_core.specs.scp_driver.specs.contracts.kv_driver.KvDriver as driver;
    ghost use Rattle.scp_core.specs.scp_ledger.specs.inside.Coding.{machine_code};

    ghost coded = { Prim.hlevel (codes, machine_code driver.the_row.coded, coded_row coded_level) };

    ghost view = { λ a. record { nodes = a.nodes.items; driven = a.driven.items } };

    ghost invariant = { λ a. (length a.nodes.items ≤ NETWORK_LIMIT) × (length a.driven.items ≡ PLACES) };
}

impl Network {
    /// A network of these nodes; the caller drives none of its links. Refused by `BadConfig` if there are more than 101, or if the peers of
    /// one aren't the others, in the order of their numbers; else by `NoMemory`.
    pub fn new(alloc: Global, nodes: Vec<Node>) -> Result<Network, Fault>
        ensures nodes { IfOk result (λ network. network.nodes ≡ nodes.items) }
        ensures driven { IfOk result (λ network. network.driven ≡ none_driven) }
        ensures linked { OnOk result (IsNetwork nodes.items) }
        ensures refused { result ≡ Err Fault.BadConfig ↔ ¬ (IsNetwork nodes.items) }
        ensures only { IfErr result (λ f. (f ≡ Fault.BadConfig) ⊎ (f ≡ Fault.NoMemory)) }
    {
        if !is_network(nodes.as_slice()) {
            return Err(Fault::BadConfig);
        }
        let mut driven = Vec::with_capacity(alloc, PLACES)?;
        for _ in 0..PLACES {
            driven.push(false)?;
        }
        Ok(Network { nodes, driven })
    }

    /// The nodes, node 1 first.
    pub fn nodes(&self) -> &[Node]
        ensures { result.now ≡ self.now.nodes }
    {
        self.nodes.as_slice()
    }

    /// From now on only the caller sends on the link from one node to another. If one of them can't be there, nothing changes.
    pub fn drive(&mut self, from: u8, to: u8)
        ensures { Drives self.old from to self.new }
    {
        let here = 1..=NETWORK_LIMIT;
        if here.contains(&from) && here.contains(&to) {
            let place = usize::from(from - 1) * SIDE + usize::from(to - 1);
            if place < self.driven.len() {
                self.driven[place] = true;
            }
        }
    }

    /// Offers an event to the node of this number, shows it to the watch, and returns the node's reply.
    /// `None` if the node isn't there; then the watch is shown nothing.
    pub fn offer_with<W: Watch<KvDriver>>(
        &mut self,
        watch: &mut W,
        number: u8,
        event: Event,
    ) -> Option<Reply>
        ensures offered { Offered (Noted (notes W.notes_before W.notes_after) watch.old watch.new) self.old number event result self.new }
        ensures untold { result ≡ None → watch.new ≡ watch.old }
    {
        if number == 0 || usize::from(number) > self.nodes.len() {
            return None;
        }
        let index = usize::from(number - 1);
        Some(hear(&mut self.nodes, watch, index, event))
    }

    /// Offers an event to the node of this number, and returns its reply; `None` if it isn't there.
    pub fn offer(&mut self, number: u8, event: Event) -> Option<Reply>
        ensures { Offered Anything self.old number event result self.new }
    {
        self.offer_with(&mut NoWatch, number, event)
    }

    /// Brings the nodes to rest: rounds, until one moves nothing and sends nothing, or 100,000; the watch is shown each step. Returns whether
    /// they came to rest. Refused by the number of the first node that failed.
    pub fn settle_with<W: Watch<KvDriver>>(&mut self, watch: &mut W) -> Result<bool, u8>
        ensures settled { Settled (Noted (notes W.notes_before W.notes_after) watch.old watch.new) self.old.driven self.old.nodes result self.new.nodes }
        ensures same { self.new.driven ≡ self.old.driven }
    {
        rounds::settle(&mut self.nodes, watch, self.driven.as_slice())
    }

    /// Brings the nodes to rest: rounds, until one moves nothing and sends nothing, or 100,000. Returns whether they came to rest. Refused by
    /// the number of the first node that failed.
    pub fn settle(&mut self) -> Result<bool, u8>
        ensures settled { Settled Anything self.old.driven self.old.nodes result self.new.nodes }
        ensures same { self.new.driven ≡ self.old.driven }
    {
        self.settle_with(&mut NoWatch)
    }
}
