//! Whether the nodes that a line names can be nodes of a script.
ghost use Rattle.std.specs.Prelude.{◌≡◌, ◌≢◌, ◌≤◌, true};
ghost use Rattle.scp_line.specs.scp_script.specs.Nodes.{NamesNodes};
ghost use Rattle.scp_line.specs.scp_script.specs.Script.{begins};

use scp_again::below::types::NODE_LIMIT;
use scp_line::below::script::Command;

/// Whether a node can have this number.
fn is_small(node: u8) -> bool
    ensures { result ≡ true → (1 ≤ node) × (node ≤ NODE_LIMIT) }
{
    1 <= node && usize::from(node) <= NODE_LIMIT
}

/// Whether a link can go from the one node to the other.
fn are_apart(from: u8, to: u8) -> bool
    ensures { result ≡ true → (1 ≤ from) × (from ≤ NODE_LIMIT) × (1 ≤ to) × (to ≤ NODE_LIMIT) × (from ≢ to) }
{
    is_small(from) && is_small(to) && from != to
}

/// Whether a line names only nodes that a script can have. False for a line that says how many nodes there are, or gives capacities or a
/// quorum set.
pub fn is_named(command: &Command) -> bool
    ensures names { result ≡ true → NamesNodes command.now }
    ensures begun { result ≡ true → begins command.now ≡ true }
{
    match command {
        Command::Open { from, to }
        | Command::Close { from, to }
        | Command::Send { from, to, .. }
        | Command::Ask { from, to, .. } => are_apart(*from, *to),
        Command::Propose { node, .. }
        | Command::Round { node, .. }
        | Command::Timer { node, .. }
        | Command::Wait { node, .. } => is_small(*node),
        Command::Tick(node) | Command::Report(node) => is_small(*node),
        Command::Settle => true,
        Command::Caps(_) | Command::Nodes { .. } | Command::Set { .. } => false,
    }
}
