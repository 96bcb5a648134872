//! Playing a script and noting all its facts.
ghost use Rattle.std.specs.Prelude.{◌≡◌, ◌≢◌, [], All, IfOk, IsOkUnless, true, false, length};
ghost use Rattle.scp_trace.specs.scp_script.specs.Script.{AreAdmitted};
ghost use Rattle.scp_trace.specs.scp_script.specs.Nodes.{NamesNodes};
ghost use Rattle.scp_trace.specs.scp_line.specs.Nodes.{HaveRoom};
ghost use Rattle.scp_draw.specs.Lines.{IsToldTo};
ghost use Rattle.scp_draw.specs.inside.Leaving.{IsLeft};

use scp_trace::below::facts::{FactWatch, Telling, a_step_is_told_as_it_happened};
use scp_trace::below::script::Command;
use scp_trace::below::turn::{Event, KvDriver, Network, Node, Reply, Watch};
use scp_trace::below::types::Fault;
use scp_trace::{LineWatch, Stopped, new_network, play_lines};
use std::alloc::Global;

/// A watch that notes what happens at nodes, in the order of the steps, and which line is done.
#[derive(Drop)]
struct LineFacts {
    facts: FactWatch,
}

impl Watch<KvDriver> for LineFacts {
    ghost use Rattle.scp_trace.specs.scp_facts.specs.Watching.{Awaits, TellsStep};

    ghost notes_before = { λ old number event node new. Awaits old.facts number event node new.facts };

    ghost notes_after = { λ old number reply node new. TellsStep old.facts number reply node new.facts };

    fn before(&mut self, number: u8, event: &Event, node: &Node) {
        self.facts.before(number, event, node);
    }

    fn after(&mut self, number: u8, reply: &Reply, node: &Node) {
        self.facts.after(number, reply, node);
    }
}

impl LineWatch for LineFacts {
    ghost use Rattle.std.specs.Prelude.{◌≡◌};
    ghost use Rattle.scp_trace.specs.scp_facts.specs.Watching.{BeginsLine};

    ghost notes_begin = { λ old line _ _ new. BeginsLine old.facts line new.facts };

    ghost notes_end = { λ old _ _ _ _ new. new ≡ old };

    fn begin_line(&mut self, line: usize, _command: &Command, _nodes: &[Node]) {
        self.facts.begin_line(line);
    }

    fn end_line(&mut self, _line: usize, _command: &Command, _calm: bool, _nodes: &[Node]) {}
}

/// The nodes of a script, what was noted of them, and, if a line stopped the script, which line and why.
#[derive(Drop)]
pub struct ToldRun {
    pub network: Network,
    pub tellings: Vec<Telling>,
    pub stopped: Option<Stopped>,
}

/// Whether the fault is out of memory.
fn is_want(fault: Fault) -> bool
    ensures want { result ≡ true → fault ≡ Fault.NoMemory }
    ensures other { result ≡ false → fault ≢ Fault.NoMemory }
{
    match fault {
        Fault::NoMemory => true,
        _ => false,
    }
}

/// What a watch noted, if it never ran out of memory.
fn left(network: Network, watch: LineFacts, stopped: Option<Stopped>) -> Result<ToldRun, Fault>
    ensures left { IfOk result (IsLeft network watch stopped) }
    ensures only_memory { IsOkUnless result Fault.NoMemory }
{
    let LineFacts { facts } = watch;
    if facts.lacks_memory() {
        return Err(Fault::NoMemory);
    }
    let tellings = facts.into_tellings();
    Ok(ToldRun {
        network,
        tellings,
        stopped,
    })
}

/// Plays a script one line after the other, as `scp_line::play` does, and notes what its lines do. `lines` has the number of each command's
/// line. If a line isn't done, it returns what was noted of the lines before it, of that line's steps so far, and why it wasn't done.
/// Bytes are copied once where they come and once where they go. A parked message and a quorum set that comes again are copied once more;
/// nothing else is copied but a proposal. The only refusal is `NoMemory`.
pub fn play_told(alloc: Global, commands: &[Command], lines: &[usize]) -> Result<ToldRun, Fault>
    requires names { All NamesNodes commands.now }
    requires admitted { AreAdmitted [] commands.now }
    requires room { HaveRoom commands.now }
    requires count { length lines.now ≡ length commands.now }
    // The nodes played exactly its lines, and what was noted is what happened, line by line; or a line wasn't done.
    ensures told { IfOk result (λ run. IsToldTo run.stopped commands.now lines.now run.network run.tellings.items) }
    ensures only_memory { IsOkUnless result Fault.NoMemory }
{
    a_step_is_told_as_it_happened();
    let mut network = new_network(alloc, commands)?;
    let mut watch = LineFacts {
        facts: FactWatch::new(alloc),
    };
    match play_lines(&mut network, &mut watch, commands, lines) {
        Ok(()) => left(network, watch, None),
        Err(stopped) => {
            if is_want(stopped.fault.fault) {
                return Err(Fault::NoMemory);
            }
            left(network, watch, Some(stopped))
        }
    }
}
