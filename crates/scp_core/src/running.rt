//! Running a list of events on a new node.
ghost use Rattle.std.specs.Prelude.{◌≡◌, ◌↔◌, ◌⊎◌, [], IfOk, IfErr, OnOk, IsOkUnless, zip, length, Err};
ghost use Rattle.scp_core.specs.Ledger.{HoldsLedger};
ghost use Rattle.scp_core.specs.Headline.{HoldsHeadline};
ghost use Rattle.scp_core.specs.Node.{Step};
ghost use Rattle.scp_core.specs.Theorem.{LedgerTheorem};
ghost use Rattle.scp_core.specs.Config.{IsConfig};
ghost use Rattle.scp_core.specs.inside.Starting.{Answers};

use crate::config::Config;
use crate::event::{Event, Reply};
use crate::laws::{each_node_holds_its_headline, each_node_holds_its_ledger};
use crate::node::Node;
use crate::outcome::Run;
use scp_theorem::below::driver::Application;
use scp_theorem::below::types::Fault;
use std::alloc::Global;

/// Runs the events in order on a new node of the application; each event is copied. Refused by `BadConfig` as `Node::new` is, else by
/// `NoMemory` for the node, the copies and the replies. A refusal within a step is that step's reply.
pub fn run<A: Application + Drop + Copy>(
    alloc: Global,
    config: Config,
    application: A,
    events: &[Event],
) -> Result<Run<A>, Fault>
    // What holds of every list of events, of their replies and of the node.
    ensures theorem { IfOk result (λ run. LedgerTheorem A.says (zip events.now run.replies.items) run.node) }
    // So the node holds its ledger, for these events and replies.
    ensures ledger { IfOk result (λ run. HoldsLedger A.says (zip events.now run.replies.items) run.node) }
    // And the node holds its headline, which says what matters most of that, and what its state is.
    ensures headline { IfOk result (λ run. HoldsHeadline (Step A.says) A.first A.after (zip events.now run.replies.items) run.node) }
    ensures count { IfOk result (λ run. length run.replies.items ≡ length events.now) }
    ensures config { IfOk result (λ run. run.node.config ≡ config) }
    ensures refused { result ≡ Err Fault.BadConfig ↔ ¬ (IsConfig config) }
    ensures only { IfErr result (λ f. (f ≡ Fault.BadConfig) ⊎ (f ≡ Fault.NoMemory)) }
{
    let node = Node::new(alloc, config, application)?;
    let mut run = Run {
        replies: Vec::new(alloc),
        node,
    };
    if answer_all(&mut run.node, &mut run.replies, events).is_err() {
        return Err(Fault::NoMemory);
    }
    each_node_holds_its_ledger::<A>();
    each_node_holds_its_headline::<A>();
    Ok(run)
}

/// Plays each event, and adds its reply.
fn answer_all<A: Application + Drop + Copy>(
    node: &mut Node<A>,
    replies: &mut Vec<Reply>,
    events: &[Event],
) -> Result<(), Fault>
    requires theorem { LedgerTheorem A.says [] node.old }
    requires none { replies.old.items ≡ [] }
    ensures theorem { OnOk result (LedgerTheorem A.says (zip events.now replies.new.items) node.new) }
    ensures count { OnOk result (length replies.new.items ≡ length events.now) }
    ensures config { node.new.config ≡ node.old.config }
    ensures only_memory { IsOkUnless result Fault.NoMemory }
{
    replies.reserve(events.len())?;
    for event in events {
        answer(node, replies, event)?;
    }
    Ok(())
}

/// Plays a copy of the event, and adds its reply.
fn answer<A: Application + Drop + Copy>(
    node: &mut Node<A>,
    replies: &mut Vec<Reply>,
    event: &Event,
) -> Result<(), Fault>
    ensures theorem { OnOk result (Answers A.says event.now node.old replies.old.items node.new replies.new.items) }
    ensures config { node.new.config ≡ node.old.config }
    ensures only_memory { IsOkUnless result Fault.NoMemory }
{
    let event = event.copy()?;
    let reply = node.step(event);
    replies.push(reply)?;
    Ok(())
}
