ghost use Rattle.std.specs.Prelude.{◌↔◌, IsTrue};
ghost use Rattle.scp_slot.specs.Takes.{IsOfSlot};

use crate::quorum::{node, set_of};
use scp_slot::below::driver::{Driver, KvDriver};
use scp_slot::below::envelope::SharedEnvelope;
use scp_slot::below::quorum::SaneSet;
use scp_slot::below::types::{Fault, Slot, Value};
use scp_slot::{Emitted, SlotInput, SlotMachine, SlotOutput};
use std::alloc::{AllocError, Global};
use std::collections::VecDeque;
use std::marker::Model;
use std::sync::Arc;

/// At most so many envelopes are brought to the nodes in one slot; each has decided long before.
const MOST: u32 = 100_000;

/// What came of the slots.
#[derive(Clone, Copy)]
struct Consensus {
    /// How often a node decided.
    decided: u64,
    /// The envelopes that were brought to all other nodes.
    envelopes: u64,
}

/// Whether the input is one of the slot.
fn is_of_slot(slot: Slot, input: &SlotInput) -> bool
    ensures { IsTrue result ↔ IsOfSlot slot.0 input.now }
{
    match input {
        SlotInput::Envelope(envelope, _) => envelope.get().statement.slot == slot,
        _ => true,
    }
}

/// A node at the table: its machine of the slot. Contracts see whether it decided.
#[derive(Drop)]
struct Member<D: Driver + Drop> {
    machine: SlotMachine<D>,
}

impl<D: Driver + Drop> Model for Member<D> {
    ghost use Rattle.std.specs.Prelude.{Bool};
    ghost use Rattle.scp_slot.specs.Slot.{slot_view, IsSound};

    ghost Value = { Bool };

    ghost view = { λ a. (slot_view a.machine).decided };

    ghost invariant = { λ a. IsSound D.says.level D.says.place a.machine };
}

impl<D: Driver + Drop> Member<D> {
    /// One that has heard nothing of the slot.
    fn new(
        alloc: Global,
        number: u32,
        slot: Slot,
        set: &Arc<SaneSet>,
        driver: D,
    ) -> Result<Member<D>, Fault> {
        let set = set.clone()?;
        let machine = SlotMachine::new(alloc, node(number), slot, set, driver)?;
        Ok(Member { machine })
    }

    /// Takes an input of its slot.
    fn enter(&mut self, input: SlotInput) -> Result<SlotOutput, Fault> {
        if !is_of_slot(self.machine.slot(), &input) {
            return Err(Fault::Failed);
        }
        self.machine.input(input)
    }
}

/// An envelope, and the place of the node that said it.
#[derive(Drop)]
struct Said {
    from: usize,
    envelope: SharedEnvelope,
}

/// Nodes that share a quorum set, what they said of a slot and isn't heard yet, and how many of them decided.
#[derive(Drop)]
struct Meeting {
    set: Arc<SaneSet>,
    members: Vec<Member<KvDriver>>,
    said: VecDeque<Said>,
    decided: usize,
}

/// So many nodes that have heard nothing of the slot.
fn members(
    alloc: Global,
    nodes: u32,
    slot: Slot,
    set: &Arc<SaneSet>,
) -> Result<Vec<Member<KvDriver>>, Fault> {
    let mut members = Vec::with_capacity(alloc, nodes as usize)?;
    for number in 1..=nodes {
        members.push(Member::new(alloc, number, slot, set, KvDriver)?)?;
    }
    Ok(members)
}

impl Meeting {
    fn new(alloc: Global, nodes: u32, slot: Slot, set: &Arc<SaneSet>) -> Result<Meeting, Fault> {
        Ok(Meeting {
            set: set.clone()?,
            members: members(alloc, nodes, slot, set)?,
            said: VecDeque::new(alloc),
            decided: 0,
        })
    }

    /// Keeps what a node says.
    fn say(&mut self, from: usize, envelope: Option<SharedEnvelope>) -> Result<(), Fault> {
        if let Some(envelope) = envelope {
            self.said.push_back(Said { from, envelope })?;
        }
        Ok(())
    }

    /// Keeps what came of an input of the node at this place.
    fn keep(&mut self, from: usize, output: SlotOutput) -> Result<(), Fault> {
        let SlotOutput {
            emitted,
            decided,
            ..
        } = output;
        if decided.is_some() {
            self.decided = self.decided.wrapping_add(1);
        }
        let Emitted { nomination, ballot } = emitted;
        self.say(from, nomination)?;
        self.say(from, ballot)
    }

    /// An input of the node at this place.
    fn enter(&mut self, place: usize, input: SlotInput) -> Result<(), Fault> {
        let output = match self.members.get_mut(place) {
            Some(member) => member.enter(input)?,
            None => return Err(Fault::Failed),
        };
        self.keep(place, output)
    }

    /// The envelope as an input.
    fn heard(&self, said: &Said) -> Result<SlotInput, Fault> {
        let set = self.set.clone()?;
        let envelope = said.envelope.share()?;
        Ok(SlotInput::Envelope(envelope, set))
    }

    /// Brings an envelope to all other nodes, in their order.
    fn hear(&mut self, said: &Said) -> Result<(), Fault> {
        for place in 0..self.members.len() {
            if place != said.from {
                let input = self.heard(said)?;
                self.enter(place, input)?;
            }
        }
        Ok(())
    }

    /// Brings what was said to all other nodes, until each has decided. Answers how many envelopes were brought.
    fn exchange(&mut self) -> Result<u64, Fault> {
        let mut envelopes: u64 = 0;
        for _ in 0..MOST {
            if self.decided >= self.members.len() {
                break;
            }
            let Some(said) = self.said.pop_front() else {
                break;
            };
            envelopes = envelopes.wrapping_add(1);
            self.hear(&said)?;
        }
        Ok(envelopes)
    }
}

/// The slot's own value: an operation list (this project's profile) that puts "1" at a key of 4 bytes, which is the slot's own.
fn value(alloc: Global, slot: u32) -> Result<Value, AllocError> {
    let [e, f, g, h] = slot.to_be_bytes();
    let bytes = [
        0, 0, 0, 1, 0, 0, 0, 0, 0, 0, 0, 4, e, f, g, h, 0, 0, 0, 1, b'1', 0, 0, 0,
    ];
    Ok(Value::new(Vec::from_slice(alloc, &bytes)?))
}

/// The place of the slot's first leader: nodes lead in turn, and of slot 1 it is the first.
fn leader(nodes: u32, slot: u32) -> usize {
    match slot.wrapping_sub(1).checked_rem(nodes) {
        Some(place) => place as usize,
        None => 0,
    }
}

impl Consensus {
    /// So many nodes decide a slot: its leader proposes, and what is said goes to all others.
    fn decide(
        &mut self,
        alloc: Global,
        nodes: u32,
        slot: u32,
        set: &Arc<SaneSet>,
    ) -> Result<(), Fault> {
        let mut meeting = Meeting::new(alloc, nodes, Slot(u64::from(slot)), set)?;
        let proposal = SlotInput::Propose(value(alloc, slot)?);
        meeting.enter(leader(nodes, slot), proposal)?;
        let envelopes = meeting.exchange()?;
        self.decided = self.decided.wrapping_add(meeting.decided as u64);
        self.envelopes = self.envelopes.wrapping_add(envelopes);
        Ok(())
    }
}

/// So many nodes, which share a set of two thirds of them and one more, decide so many slots, one after the other.
pub fn decide_slots(alloc: Global, nodes: u32, slots: u32) -> Result<String, Fault> {
    let threshold = nodes - nodes.saturating_sub(1) / 3;
    let set = set_of(alloc, threshold, 1, nodes, 0)?;
    let mut consensus = Consensus {
        decided: 0,
        envelopes: 0,
    };
    for slot in 1..=slots {
        consensus.decide(alloc, nodes, slot, &set)?;
    }
    let Consensus { decided, envelopes } = consensus;
    Ok(format!(in alloc; "decided {decided} envelopes {envelopes}")?)
}
