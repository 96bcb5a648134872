//! Whoever is shown the steps of nodes.

use scp_core::below::driver::Application;
use scp_core::{Event, Node, Reply};

/// Whoever is shown each step of a node: before it the event, and after it the reply, each with the node as it is then. A watch can't refuse
/// a step. One that runs out of memory remembers that, and says so at the end.
pub trait Watch<A: Application + Drop + Copy> {
    ghost use Rattle.std.specs.Prelude.{ℕ};
    ghost use Rattle.scp_core.specs.declared.event.Event.{Event};
    ghost use Rattle.scp_core.specs.declared.event.Reply.{Reply};
    ghost use Rattle.scp_core.specs.Node.{NodeView};

    /// What it notes before a step, of the node's number, the event and the node.
    ghost notes_before: { Self → ℕ → Event → NodeView A → Self → Type 0 };

    /// What it notes after a step, of the node's number, the reply and the node.
    ghost notes_after: { Self → ℕ → Reply → NodeView A → Self → Type 0 };

    /// The node of this number is about to do this.
    fn before(&mut self, number: u8, event: &Event, node: &Node<A>)
        ensures { notes_before self.old number event.now node.now self.new };

    /// The node of this number did what was shown last, and gave this reply.
    fn after(&mut self, number: u8, reply: &Reply, node: &Node<A>)
        ensures { notes_after self.old number reply.now node.now self.new };
}

/// A watch that notes nothing.
#[derive(Drop)]
pub struct NoWatch;

impl<A: Application + Drop + Copy> Watch<A> for NoWatch {
    ghost use Rattle.std.specs.Prelude.{◌≡◌};

    ghost notes_before = { λ old _ _ _ new. new ≡ old };

    ghost notes_after = { λ old _ _ _ new. new ≡ old };

    fn before(&mut self, _number: u8, _event: &Event, _node: &Node<A>) {}

    fn after(&mut self, _number: u8, _reply: &Reply, _node: &Node<A>) {}
}
