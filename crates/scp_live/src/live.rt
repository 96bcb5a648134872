//! A live node.
ghost use Rattle.std.specs.Prelude.{◌≡◌, ◌⊎◌, ◌↔◌, ◌+◌, [], false, true, map, IfOk, IfErr, OnOk, IsErrOf, IsOkUnless, Err, string_bytes};
ghost use Rattle.scp_again.specs.scp_types.specs.declared.fault.Fault.{Fault};
ghost use Rattle.scp_again.specs.scp_xdr.specs.Words.{IsReadingFault};
ghost use Rattle.scp_again.specs.scp_driver.specs.Driver.{IsBase};
ghost use Rattle.scp_again.specs.scp_driver.specs.Kv.{kv_says};
ghost use Rattle.scp_again.specs.scp_kv.specs.Saved.{bytes_of, state_of};
ghost use Rattle.scp_again.specs.scp_core.specs.Config.{IsConfigOfMany};
ghost use Rattle.scp_again.specs.scp_core.specs.Node.{accepts_at};
ghost use Rattle.scp_again.specs.scp_core.specs.Kv.{LedgerTheorem};
ghost use Rattle.scp_again.specs.scp_core.specs.Theorem.{LedgerTheoremFrom};
ghost use Rattle.scp_turn.specs.Turn.{links_of};
ghost use Rattle.scp_turn.specs.Kv.{Goes, Watched};
ghost use Rattle.scp_turn.specs.Watch.{notes};
ghost use Rattle.scp_turn.specs.Episode.{IsOfHost, finds_full};
ghost use Rattle.scp_live.specs.Live.{IsTold, AreTimersOf};
ghost use Rattle.scp_live.specs.Idle.{idle_at};

use crate::acting;
use crate::idle::{count_on, counts};
use scp_again::below::node::{Config, Event, KvDriver, Node, Timer, timers};
use scp_again::below::types::{Fault, Hash, LINK_LIMIT};
use scp_live_config::Named;
use scp_turn::Watch;
use std::alloc::Global;
use std::marker::Model;

/// A node, the names of its peers, all names that its configuration gives nodes, and the timers that its host was last asked to run.
pub struct Live {
    pub(crate) alloc: Global,
    pub(crate) node: Node,
    pub(crate) names: Vec<String>,
    pub(crate) nodes: Vec<Named>,
    pub(crate) timers: Vec<Timer>,
    /// How many entries of the journal changed nothing, for each peer.
    pub(crate) idle: Vec<usize>,
}

// (written out, so that whoever drops one has one call to prove, and not each part of a node)
impl Drop for Live {
    fn drop(self) {
        let Live {
            alloc: _,
            node: _,
            names: _,
            nodes: _,
            timers: _,
            idle: _,
        } = self;
    }
}

impl Model for Live {
    ghost use Rattle.std.specs.Prelude.{map, string_bytes};
    ghost use Rattle.std.specs.Coded.{codes};
    ghost use Rattle.scp_again.specs.scp_xdr.specs.inside.TreeModel.{coded_row};
    ghost use Rattle.scp_again.specs.scp_quorum.specs.inside.QuorumTree.{coded_level};
    ghost use Rattle.scp_again.specs.scp_driver.specs.contracts.kv_driver.KvDriver as driver;
    ghost use Rattle.scp_again.specs.scp_ledger.specs.inside.Coding.{machine_code};
    ghost use Rattle.std.specs.Prelude.{◌≡◌};
    ghost use Rattle.scp_live.specs.Live.{LiveView};
    ghost use Rattle.scp_live.specs.Idle.{idle_counts};

    ghost Value = { LiveView };

    ghost coded = { Prim.hlevel (codes, machine_code driver.the_row.coded, coded_row coded_level) };

    ghost view = { λ a. record { node = a.node; names = map string_bytes a.names.items; nodes = a.nodes.items; timers = a.timers.items } };

    ghost invariant = { λ a. a.idle.items ≡ idle_counts a.node };
}

impl Live {
    /// A node that has received no event, the names of its peers, in their order, and the names of all nodes. Refused by `BadConfig` when
    /// `Node::of_many` is, otherwise by `NoMemory`.
    pub fn new(
        alloc: Global,
        config: Config,
        names: Vec<String>,
        nodes: Vec<Named>,
    ) -> Result<Live, Fault>
        // What holds of a node and a list of exchanges holds here of the empty list.
        ensures theorem { IfOk result (λ live. LedgerTheorem [] live.node) }
        ensures config { IfOk result (λ live. live.node.config ≡ config) }
        ensures names { IfOk result (λ live. live.names ≡ map string_bytes names.items) }
        ensures nodes { IfOk result (λ live. live.nodes ≡ nodes.items) }
        ensures timers { IfOk result (λ live. AreTimersOf live.node live.timers) }
        ensures runs { IfOk result (λ live. live.node.failed ≡ false) }
        ensures refused { result ≡ Err Fault.BadConfig ↔ ¬ (IsConfigOfMany config) }
        ensures only { IfErr result (λ f. (f ≡ Fault.BadConfig) ⊎ (f ≡ Fault.NoMemory)) }
    {
        let node = Node::of_many(alloc, config, KvDriver)?;
        Live::of(alloc, node, names, nodes)
    }

    /// The same node, but it begins with the slot after `before`, and with the state that these bytes say (`Node::begin`). With 0 and no bytes
    /// it is the one that `new` makes. Refused as `Node::begin` is.
    pub fn begin(
        alloc: Global,
        config: Config,
        names: Vec<String>,
        nodes: Vec<Named>,
        before: u32,
        base: Vec<u8>,
    ) -> Result<Live, Fault>
        ensures theorem { IfOk result (λ live. LedgerTheoremFrom kv_says (before + 1) base.items [] live.node) }
        ensures config { IfOk result (λ live. live.node.config ≡ config) }
        ensures names { IfOk result (λ live. live.names ≡ map string_bytes names.items) }
        ensures nodes { IfOk result (λ live. live.nodes ≡ nodes.items) }
        ensures timers { IfOk result (λ live. AreTimersOf live.node live.timers) }
        ensures runs { IfOk result (λ live. live.node.failed ≡ false) }
        ensures refused { result ≡ Err Fault.BadConfig ↔ ¬ (IsConfigOfMany config) }
        ensures no_state { IfErr result (λ f. IsReadingFault f → ¬ (IsBase state_of bytes_of base.items)) }
        ensures only { IfErr result (λ f. (f ≡ Fault.BadConfig) ⊎ ((f ≡ Fault.NoMemory) ⊎ IsReadingFault f)) }
    {
        let node = Node::begin(alloc, config, KvDriver, before, base)?;
        Live::of(alloc, node, names, nodes)
    }

    /// This node, with these names, and with the timers that its host is to run.
    fn of(alloc: Global, node: Node, names: Vec<String>, nodes: Vec<Named>) -> Result<Live, Fault>
        requires { node.failed ≡ false }
        ensures node { IfOk result (λ live. live.node ≡ node) }
        ensures names { IfOk result (λ live. live.names ≡ map string_bytes names.items) }
        ensures nodes { IfOk result (λ live. live.nodes ≡ nodes.items) }
        ensures timers { IfOk result (λ live. AreTimersOf live.node live.timers) }
        ensures only_memory { IsOkUnless result Fault.NoMemory }
    {
        let timers = timers(alloc, node.ledger())?;
        let idle = counts(alloc, node.journal(), node.peers())?;
        Ok(Live {
            alloc,
            node,
            names,
            nodes,
            timers,
            idle,
        })
    }

    /// Plays the event and all that follows from it; the watch is shown each step. Adds the lines that report it to the text, and
    /// returns the SHA-256 of the lines of what was sent. Refused by `Failed` if the node had failed before, by `JournalFull` if a step
    /// found the journal full, and by `NoMemory` if a step was out of memory, or if there is no memory for what was sent or for the
    /// lines. After a refusal, the lines may not report all that the node did.
    pub fn act_with<W: Watch<KvDriver>>(
        &mut self,
        event: Event,
        text: &mut String,
        watch: &mut W,
    ) -> Result<Hash, Fault>
        requires { IsOfHost event }
        // The node went through an episode of the event, and its lines are written. Even if the call is refused, the watch was shown
        // each step, and the ledger theorem still holds. It is refused by `JournalFull` exactly if a step found the journal full.
        ensures told { Goes self.old.node self.new.node (λ a heard b. IfOk result (λ hash. IsTold event self.old.names self.old.timers self.new.timers a heard b (string_bytes text.old) (string_bytes text.new) hash.0) × Watched (notes W.notes_before W.notes_after) 1 watch.old a heard b watch.new × (IsErrOf result Fault.JournalFull ↔ (finds_full heard ≡ true))) }
        // The host was asked to run exactly the timers that should run.
        ensures timers { OnOk result (AreTimersOf self.new.node self.new.timers) }
        ensures names { self.new.names ≡ self.old.names }
        ensures nodes { self.new.nodes ≡ self.old.nodes }
        // A call during which the node failed is never reported as played.
        ensures runs { OnOk result (self.new.node.failed ≡ false) }
        ensures failed { IsErrOf result Fault.Failed ↔ (self.old.node.failed ≡ true) }
        ensures only { IfErr result (λ f. (f ≡ Fault.NoMemory) ⊎ ((f ≡ Fault.JournalFull) ⊎ (f ≡ Fault.Failed))) }
    {
        let before = self.node.journal().len();
        let result = acting::act_with(
            self.alloc,
            &mut self.node,
            self.names.as_slice(),
            &mut self.timers,
            event,
            text,
            watch,
        );
        count_on(
            self.idle.as_mut_slice(),
            self.node.peers(),
            self.node.journal(),
            before,
        );
        result
    }

    /// The node.
    pub fn node(&self) -> &Node
        ensures { result.now ≡ self.now.node }
    {
        &self.node
    }

    /// The names of its peers, in the order of the links.
    pub fn names(&self) -> &[String]
        ensures { map string_bytes result.now ≡ self.now.names }
    {
        self.names.as_slice()
    }

    /// All names that its configuration gives nodes, each with the id that it is for.
    pub fn nodes(&self) -> &[Named]
        ensures { result.now ≡ self.now.nodes }
    {
        self.nodes.as_slice()
    }

    /// The number of links.
    pub fn links(&self) -> u8
        ensures { result ≡ links_of self.now.node }
    {
        self.node.peers().len().min(LINK_LIMIT as usize) as u8
    }

    /// How many entries of the journal are of the peer of this link, and changed nothing.
    pub fn idle(&self, link: u8) -> usize
        ensures { result ≡ idle_at self.now.node link }
    {
        match self.idle.get(link as usize) {
            Some(count) => *count,
            None => 0,
        }
    }

    /// Whether a link is open and has room for what its peer sends.
    pub fn is_open(&self, link: u8) -> bool
        ensures { result ≡ accepts_at self.now.node link }
    {
        self.node.accepts(link)
    }
}
