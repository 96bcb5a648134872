//! The watch that shows the lines of a script as soon as they are done.
ghost use Rattle.std.specs.Prelude.{◌≡◌, ◌<◌, ◌≤◌, ◌+◌, ◌-◌, ◌++◌, [], false, length, slice_get, string_bytes, take, OnOk, IsOkUnless};
ghost use Rattle.scp_line.specs.scp_script.specs.Nodes.{NamesNodes};
ghost use Rattle.scp_line.specs.Player.{ArePlaying};
ghost use Rattle.scp_trace_text.specs.scp_facts.specs.declared.watch.Awaited.TheVariants.{Nothing};
ghost use Rattle.scp_stand_node.specs.scp_stand_slot.specs.Adding.{Adds};
ghost use Rattle.scp_trace.specs.Traced.{facts_part};
ghost use Rattle.scp_trace.specs.inside.Tracing.{held, lacks, StandsIf, StandsBy};

use crate::depth::Depth;
use crate::lines::write_begin;
use scp_line::LineWatch;
use scp_line::below::script::Command;
use scp_line::below::turn::{Event, KvDriver, Node, Reply, Watch};
use scp_line::below::types::Fault;
use scp_stand_node::below::stand_slot::Names;
use scp_stand_node::{Lines, Seen, write_stand};
use scp_trace_text::below::facts::FactWatch;
use scp_trace_text::{Scene, write_facts};
use std::alloc::Global;

/// Shows each line of a script, at the depth that is asked for. What is noted of a line's steps is kept only until the line is done.
#[derive(Drop)]
pub(crate) struct TraceWatch<'a> {
    alloc: Global,
    depth: Depth,
    names: &'a Names,
    commands: &'a [Command],
    /// The number of commands that were done.
    done: usize,
    pub(crate) text: String,
    facts: FactWatch,
    lacks_memory: bool,
}

/// So many of these commands, from the first one on; all of them, if there are fewer.
fn first_of(commands: &[Command], count: usize) -> &[Command]
    ensures { result.now ≡ take count commands.now }
{
    match commands.get(..count) {
        Some(first) => first,
        None => commands,
    }
}

impl<'a> TraceWatch<'a> {
    /// A watch that shows these commands from the first one on, with these names of quorum sets.
    pub(crate) fn new(
        alloc: Global,
        depth: Depth,
        names: &'a Names,
        commands: &'a [Command],
    ) -> TraceWatch<'a>
        ensures { held result ≡ record { depth = depth; names = names.now; all = commands.now; done = 0; text = []; tellings = [] } }
    {
        TraceWatch {
            alloc,
            depth,
            names,
            commands,
            done: 0,
            text: String::new(alloc),
            facts: FactWatch::new(alloc),
            lacks_memory: false,
        }
    }

    /// Whether it ran out of memory for something.
    pub(crate) fn lacks_memory(&self) -> bool
        ensures { result ≡ lacks self.now }
    {
        self.lacks_memory || self.facts.lacks_memory()
    }

    /// Adds what was noted of the steps of a line, with the nodes as they are, if that is asked for.
    pub(crate) fn write_told(&mut self, line: usize, nodes: &[Node]) -> Result<(), Fault>
        ensures calm { OnOk result (self.old.facts.lacks_memory ≡ false) }
        ensures added { OnOk result (string_bytes self.new.text ≡ string_bytes self.old.text ++ facts_part self.old.depth self.old.names.now line nodes.now self.old.facts.tellings) }
        ensures fresh { self.new.facts ≡ record { tellings = []; awaited = Nothing; lacks_memory = false } }
        ensures same { self.new ≡ record self.old { text = self.new.text; facts = self.new.facts } }
        ensures only_memory { IsOkUnless result Fault.NoMemory }
    {
        let facts = std::mem::replace(&mut self.facts, FactWatch::new(self.alloc));
        if facts.lacks_memory() {
            return Err(Fault::NoMemory);
        }
        let tellings = facts.into_tellings();
        match self.depth {
            Depth::Stands => Ok(()),
            Depth::Whole => {
                let scene = Scene {
                    alloc: self.alloc,
                    names: self.names,
                    line,
                    nodes,
                };
                write_facts(&mut self.text, scene, tellings.as_slice())
            }
        }
    }

    /// Adds where the node of this number stands, if there is such a node.
    fn write_number(&mut self, number: u8, nodes: &[Node]) -> Result<(), Fault>
        requires number { 1 ≤ number }
        requires playing { ArePlaying nodes.now }
        ensures added { OnOk result (Adds (string_bytes self.old.text) (string_bytes self.new.text) (StandsIf self.old.names.now self.old.commands.now (take self.old.done self.old.commands.now) (slice_get nodes.now (number - 1)))) }
        ensures same { self.new ≡ record self.old { text = self.new.text } }
        ensures only_memory { IsOkUnless result Fault.NoMemory }
    {
        match nodes.get(usize::from(number - 1)) {
            Some(node) => write_stand(
                &mut self.text,
                Seen {
                    alloc: self.alloc,
                    names: self.names,
                    node,
                    lines: Some(Lines {
                        all: self.commands,
                        played: first_of(self.commands, self.done),
                    }),
                },
            ),
            None => Ok(()),
        }
    }

    /// Adds where the node of a `report` line stands.
    fn write_reported(&mut self, command: &Command, nodes: &[Node]) -> Result<(), Fault>
        requires names { NamesNodes command.now }
        requires playing { ArePlaying nodes.now }
        ensures added { OnOk result (Adds (string_bytes self.old.text) (string_bytes self.new.text) (StandsBy self.old.names.now self.old.commands.now (take self.old.done self.old.commands.now) nodes.now command.now)) }
        ensures same { self.new ≡ record self.old { text = self.new.text } }
        ensures only_memory { IsOkUnless result Fault.NoMemory }
    {
        match command {
            Command::Report(number) => self.write_number(*number, nodes),
            _ => Ok(()),
        }
    }

    /// Counts one more line that was done.
    fn count_line(&mut self)
        ensures counted { self.old.done < length self.old.commands.now → self.new.done ≡ self.old.done + 1 }
        ensures same { self.new ≡ record self.old { done = self.new.done } }
    {
        if self.done < self.commands.len() {
            self.done += 1;
        }
    }

    /// Adds what is shown after a line.
    fn write_behind(&mut self, line: usize, command: &Command, nodes: &[Node]) -> Result<(), Fault>
        requires names { NamesNodes command.now }
        requires playing { ArePlaying nodes.now }
        ensures calm { OnOk result (self.old.facts.lacks_memory ≡ false) }
        ensures added { OnOk result (Adds (string_bytes self.old.text ++ facts_part self.old.depth self.old.names.now line nodes.now self.old.facts.tellings) (string_bytes self.new.text) (StandsBy self.old.names.now self.old.commands.now (take self.old.done self.old.commands.now) nodes.now command.now)) }
        ensures fresh { self.new.facts ≡ record { tellings = []; awaited = Nothing; lacks_memory = false } }
        ensures same { self.new ≡ record self.old { text = self.new.text; facts = self.new.facts } }
    {
        self.write_told(line, nodes)?;
        self.write_reported(command, nodes)
    }
}

impl<'a> Watch<KvDriver> for TraceWatch<'a> {
    ghost use Rattle.scp_trace.specs.inside.Tracing.{StepBegins, StepEnds};

    ghost notes_before = { StepBegins };

    ghost notes_after = { StepEnds };

    fn before(&mut self, number: u8, event: &Event, node: &Node) {
        match self.depth {
            Depth::Stands => {}
            Depth::Whole => self.facts.before(number, event, node),
        }
    }

    fn after(&mut self, number: u8, reply: &Reply, node: &Node) {
        match self.depth {
            Depth::Stands => {}
            Depth::Whole => self.facts.after(number, reply, node),
        }
    }
}

impl<'a> LineWatch for TraceWatch<'a> {
    ghost use Rattle.scp_trace.specs.inside.Tracing.{LineBegins, LineEnds};

    ghost notes_begin = { LineBegins };

    ghost notes_end = { LineEnds };

    fn begin_line(&mut self, line: usize, command: &Command, _nodes: &[Node]) {
        if write_begin(&mut self.text, self.depth, self.names, line, command).is_err() {
            self.lacks_memory = true;
        }
    }

    fn end_line(&mut self, line: usize, command: &Command, _calm: bool, nodes: &[Node]) {
        match self.write_behind(line, command, nodes) {
            Ok(()) => self.count_line(),
            Err(_) => self.lacks_memory = true,
        }
    }
}
