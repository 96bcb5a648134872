//! The answers to a host that asks about the state of a node.
ghost use Rattle.std.specs.Prelude.{◌≡◌, ◌++◌, false, OnOk, map, flat_map, string_bytes};
ghost use Rattle.std.specs.FinMap as map_of;
ghost use Rattle.scp_again.specs.scp_core.specs.Node.{accepts_at, lives_at};
ghost use Rattle.scp_turn.specs.Turn.{links_of};
ghost use Rattle.scp_live_lines.specs.Names.{name_at};
ghost use Rattle.scp_live_lines.specs.State.{key_line, idle_line, link_line};
ghost use Rattle.scp_report.specs.Report.{view_of};
ghost use Rattle.scp_live.specs.Idle.{idle_at};
ghost use Rattle.scp_live.specs.Questions.{link_lines, idle_lines, state_of, applied_from, report_lines, report_of};

use crate::live::Live;
use crate::telling::{behind, name_of, tell_applied, tell_fates};
use scp_again::below::kv::KvState;
use scp_again::below::types::{NodeId, Slot};
use scp_live_lines::{
    write_applied_count, write_idle, write_journal, write_key, write_link, write_lowest,
    write_running, write_warning,
};
use scp_report::{Report, report_of as record_of};
use std::alloc::AllocError;

/// Adds the lines of the keys with their values.
fn tell_keys(text: &mut String, state: &KvState) -> Result<(), AllocError>
    ensures { OnOk result (string_bytes text.new ≡ string_bytes text.old ++ flat_map key_line (map_of.entries state.now)) }
{
    for (key, value) in state.lines() {
        write_key(text, key.as_slice(), value.as_slice())?;
    }
    Ok(())
}

/// Adds the lines that the record of a node has in a report.
fn tell_record(
    text: &mut String,
    names: &[String],
    peers: &[NodeId],
    record: &Report<'_>,
) -> Result<(), AllocError>
    ensures { OnOk result (string_bytes text.new ≡ string_bytes text.old ++ report_lines (map string_bytes names.now) peers.now (view_of record.now)) }
{
    tell_fates(text, names, peers, record.journal)?;
    tell_applied(text, record.applied)?;
    match record.state {
        Some(state) => tell_keys(text, state),
        None => Ok(()),
    }
}

impl Live {
    /// Adds the line of a link.
    fn tell_link(&self, text: &mut String, link: u8) -> Result<(), AllocError>
        ensures { OnOk result (string_bytes text.new ≡ string_bytes text.old ++ link_line (name_at self.now.names link) (accepts_at self.now.node link) (lives_at self.now.node link)) }
    {
        let name = name_of(self.names.as_slice(), link);
        write_link(text, name, self.node.accepts(link), self.node.lives(link))
    }

    /// Adds the lines of the links.
    fn tell_links(&self, text: &mut String) -> Result<(), AllocError>
        ensures { OnOk result (string_bytes text.new ≡ string_bytes text.old ++ link_lines self.now (links_of self.now.node)) }
    {
        for link in 0..self.links() {
            self.tell_link(text, link)?;
        }
        Ok(())
    }

    /// Adds the line of how many entries the peer of a link sent that changed nothing.
    fn tell_idle(&self, text: &mut String, link: u8) -> Result<(), AllocError>
        ensures { OnOk result (string_bytes text.new ≡ string_bytes text.old ++ idle_line (name_at self.now.names link) (idle_at self.now.node link)) }
    {
        let name = name_of(self.names.as_slice(), link);
        write_idle(text, name, self.idle(link))
    }

    /// Adds these lines, peer by peer.
    fn tell_each_idle(&self, text: &mut String) -> Result<(), AllocError>
        ensures { OnOk result (string_bytes text.new ≡ string_bytes text.old ++ idle_lines self.now (links_of self.now.node)) }
    {
        for link in 0..self.links() {
            self.tell_idle(text, link)?;
        }
        Ok(())
    }

    /// Adds the state of the node. It has the lowest undecided slot, the number of applied slots, the length of the journal, the links,
    /// how much each peer sent that changed nothing, and the timers that run. The journal isn't looked through. From nine tenths of the
    /// journal's limit on there is a warning. For a node that failed, the slot means nothing.
    pub fn state(&self, text: &mut String) -> Result<(), AllocError>
        ensures { self.now.node.failed ≡ false → OnOk result (string_bytes text.new ≡ string_bytes text.old ++ state_of self.now) }
    {
        let entries = self.node.journal().len();
        write_lowest(text, self.node.ledger().lowest())?;
        write_applied_count(text, self.node.applied().len())?;
        write_journal(text, entries)?;
        write_warning(text, entries)?;
        self.tell_links(text)?;
        self.tell_each_idle(text)?;
        write_running(text, self.timers.as_slice())
    }

    /// Adds a line for each slot from this one on that the node applied.
    pub fn applied(&self, slot: Slot, text: &mut String) -> Result<(), AllocError>
        ensures { OnOk result (string_bytes text.new ≡ string_bytes text.old ++ applied_from self.now.node slot.0) }
    {
        let first = self.node.first().0;
        let from = usize::try_from(slot.0.saturating_sub(first)).unwrap_or(usize::MAX);
        tell_applied(text, behind(self.node.applied(), from))
    }

    /// Adds what became of each message that came, each applied slot, and the keys with their values: the lines of the node's record. A node
    /// that failed has no keys. It takes time in proportion to what it adds and to the connections that the node's links had. It fails only
    /// if it is out of memory.
    pub fn report(&self, text: &mut String) -> Result<(), AllocError>
        ensures { OnOk result (string_bytes text.new ≡ string_bytes text.old ++ report_of self.now) }
    {
        let record = record_of(self.alloc, 1, &self.node)?;
        tell_record(text, self.names.as_slice(), self.node.peers(), &record)
    }
}
