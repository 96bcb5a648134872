//! A watch that writes what happens at a node.
ghost use Rattle.std.specs.Prelude.{◌≡◌, ◌≢◌, ◌⊎◌, ◌<◌, true, false, OnOk, IfErr, IfSome, IfNone};
ghost use Rattle.std.specs.Bool.{OnFalse};
ghost use Rattle.scp_trace_text.specs.Watching.{untold, WritesStep};

use crate::lines::lines_of;
use scp_facts::FactWatch;
use scp_facts::below::turn::{Event, KvDriver, Node, Reply, Watch};
use scp_stand_slot::Names;
use scp_stand_slot::below::device::{ReportOut, write_text};
use scp_words::below::types::Fault;
use std::alloc::Global;
use std::marker::Model;

/// Writes what happens at a node, step by step: the lines of each step's facts, right after the step.
#[derive(Drop)]
pub struct TracingWatch<T: ReportOut + Drop> {
    alloc: Global,
    names: Names,
    facts: FactWatch,
    trace: T,
    has_failed: bool,
    lacks_memory: bool,
}

impl<T: ReportOut + Drop> Model for TracingWatch<T> {
    ghost use Rattle.std.specs.Prelude.{◌≡◌, ◌<◌, true, false};
    ghost use Rattle.std.specs.Coded.{codes};
    ghost use Rattle.scp_stand_slot.specs.contracts.names.Names as slot_names;
    ghost use Rattle.scp_facts.specs.contracts.watch.FactWatch as fact_watch;
    ghost use Rattle.scp_trace_text.specs.Watching.{TraceView};

    ghost Value = { TraceView };

    ghost coded = { Prim.hlevel (codes, slot_names.the_row.coded, fact_watch.the_row.coded) };

    ghost view = { λ w. record { names = w.names; facts = w.facts; written = T.written w.trace; failures = T.failures w.trace; has_failed = w.has_failed; lacks_memory = w.lacks_memory } };

    ghost invariant = { λ w. w.has_failed ≡ true → w.lacks_memory ≡ false → 0 < T.failures w.trace };
}

/// Whether memory ran out.
fn is_memory(fault: Fault) -> bool
    ensures { OnFalse result (fault ≢ Fault.NoMemory) }
{
    match fault {
        Fault::NoMemory => true,
        _ => false,
    }
}

impl<T: ReportOut + Drop> TracingWatch<T> {
    /// A watch that was given no facts yet. In its lines nodes and quorum sets have these names.
    pub fn new(alloc: Global, names: Names, trace: T) -> TracingWatch<T>
        ensures { result ≡ untold names (T.written trace) (T.failures trace) }
    {
        TracingWatch {
            alloc,
            names,
            facts: FactWatch::new(alloc),
            trace,
            has_failed: false,
            lacks_memory: false,
        }
    }

    /// Why the watch failed, if it did: memory ran out, or the writer failed. From then on nothing more is written.
    pub fn fault(&self) -> Option<Fault>
        ensures none { IfNone result (self.now.has_failed ≡ false) }
        ensures why { IfSome result (λ fault. (fault ≡ Fault.NoMemory) ⊎ ((fault ≡ Fault.Device) × (0 < self.now.failures))) }
    {
        if !self.has_failed {
            return None;
        }
        if self.lacks_memory {
            return Some(Fault::NoMemory);
        }
        Some(Fault::Device)
    }

    /// The writer.
    pub fn into_trace(self) -> T
        ensures written { T.written result ≡ self.written }
        ensures failures { T.failures result ≡ self.failures }
    {
        self.trace
    }

    /// From now on the watch has failed, by this fault.
    fn fail(&mut self, fault: Fault)
        requires why { (fault ≡ Fault.NoMemory) ⊎ (0 < self.old.failures) }
        ensures failed { self.new.has_failed ≡ true }
    {
        self.lacks_memory = is_memory(fault);
        self.has_failed = true;
    }

    /// Writes the lines of the facts that it was given, and forgets them. Refused by `NoMemory`, or by `Device` if the writer failed.
    fn write(&mut self, node: &Node) -> Result<(), Fault>
        requires calm { self.old.has_failed ≡ false }
        ensures wrote { OnOk result (WritesStep self.old self.old.facts node.now self.new) }
        ensures failed { IfErr result (λ fault. (fault ≡ Fault.NoMemory) ⊎ (0 < self.new.failures)) }
    {
        let told = std::mem::replace(&mut self.facts, FactWatch::new(self.alloc));
        if told.lacks_memory() {
            return Err(Fault::NoMemory);
        }
        let tellings = told.into_tellings();
        let text = match lines_of(self.alloc, &self.names, node, tellings.as_slice()) {
            Ok(text) => text,
            Err(fault) => return Err(fault),
        };
        write_text(&mut self.trace, text.as_str())
    }
}

impl<T: ReportOut + Drop> Watch<KvDriver> for TracingWatch<T> {
    ghost use Rattle.scp_trace_text.specs.Watching.{AwaitsStep, TracesStep};

    ghost notes_before = { AwaitsStep };

    ghost notes_after = { TracesStep };

    fn before(&mut self, number: u8, event: &Event, node: &Node) {
        if !self.has_failed {
            self.facts.before(number, event, node);
        }
    }

    fn after(&mut self, number: u8, reply: &Reply, node: &Node) {
        if self.has_failed {
            return;
        }
        self.facts.after(number, reply, node);
        match self.write(node) {
            Ok(()) => {}
            Err(fault) => self.fail(fault),
        }
    }
}
