//! The record of a node whose stages ran in threads, made from what these left.
ghost use Rattle.std.specs.Prelude.{◌≡◌, ◌≤◌, ◌-◌, [], All, IfOk, IsOkUnless, fold, get_or, length, map};
ghost use Rattle.std.specs.BTreeSet.{insert_key};
ghost use Rattle.scp_turn.specs.scp_types.specs.declared.limits.TheConstants.{NODE_LIMIT};
ghost use Rattle.scp_turn.specs.scp_types.specs.Order.{conn_cmp};
ghost use Rattle.scp_turn.specs.scp_pending.specs.Messages.{is_on, messages_on};
ghost use Rattle.scp_report.specs.scp_script.specs.Script.{AreAdmitted, node_count};
ghost use Rattle.scp_report.specs.scp_script.specs.Nodes.{NamesNodes, set_at};
ghost use Rattle.scp_report.specs.Report.{view_of};
ghost use Rattle.scp_line.specs.Left.{conns_waiting, count_on, parked_counts, links_left, report_left as record_left, reports_left as records_left, sets_in};

use scp_report::below::script::{Command, count_of_nodes, id_from, peers_of_node, set_of_node};
use scp_report::{LinkReport, Parked, Report};
use scp_threaded_script::NodeReport;
use scp_turn::below::quorum::QuorumSet;
use scp_turn::below::types::{ConnId, Fault, NodeId};
use scp_turn::below::wire::Carried;
use std::alloc::{AllocError, Global};
use std::collections::BTreeSet;

/// The connections of the messages, ascending.
fn conns_of(alloc: Global, messages: &[Carried]) -> Result<BTreeSet<ConnId>, AllocError>
    ensures { IfOk result (λ conns. conns.keys ≡ conns_waiting messages.now) }
{
    let mut conns = BTreeSet::new(alloc);
    for message in messages {
        conns.insert(message.conn)?;
    }
    Ok(conns)
}

/// How many of the messages are of the connection.
fn count_of(messages: &[Carried], conn: &ConnId) -> Parked
    ensures { result ≡ count_on messages.now conn.now }
{
    let count = messages
        .iter()
        .filter(
            |message| -> bool
                ensures { result ≡ is_on conn.entry.now message.now.now }
            { message.conn == *conn },
        )
        .count();
    Parked {
        conn: *conn,
        count,
        first: None,
    }
}

/// How many messages of each connection wait, ascending by connection. A node holds at most 64 messages for each of its links.
fn counts_of(alloc: Global, messages: &[Carried]) -> Result<Vec<Parked>, AllocError>
    ensures { IfOk result (λ counts. counts.items ≡ parked_counts messages.now) }
{
    let conns = conns_of(alloc, messages)?;
    let mut counts = Vec::new(alloc);
    for conn in &conns {
        counts.push(count_of(messages, conn))?;
    }
    Ok(counts)
}

/// The number at this place; 0 if there is none.
fn number_at(numbers: &[u64], place: usize) -> u64
    ensures { result ≡ get_or numbers.now place 0 }
{
    match numbers.get(place) {
        Some(number) => *number,
        None => 0,
    }
}

/// The links to these peers, in their order, from how many own statements were lost on each.
fn links_of(alloc: Global, peers: &[NodeId], lost: &[u64]) -> Result<Vec<LinkReport>, AllocError>
    ensures { IfOk result (λ links. links.items ≡ links_left lost.now 0 peers.now) }
{
    let mut links = Vec::new(alloc);
    let mut link = 0;
    for peer in peers {
        links.push(LinkReport {
            peer: *peer,
            overwritten: number_at(lost, link),
            waiting: 0,
        })?;
        link += 1;
    }
    Ok(links)
}

/// The quorum sets of the nodes of a script, that of node 1 first. The only refusal is `NoMemory`.
pub fn sets_of(alloc: Global, commands: &[Command]) -> Result<Vec<QuorumSet>, Fault>
    requires names { All NamesNodes commands.now }
    requires admitted { AreAdmitted [] commands.now }
    ensures sets { IfOk result (λ sets. sets.items ≡ sets_in commands.now) }
    ensures only_memory { IsOkUnless result Fault.NoMemory }
{
    let count = count_of_nodes(commands);
    let mut sets = Vec::new(alloc);
    for index in 0..count {
        sets.push(set_of_node(alloc, commands, index + 1)?)?;
    }
    Ok(sets)
}

/// The quorum set of the node of this number, from those of all nodes.
fn set_of(sets: &[QuorumSet], number: u8) -> &QuorumSet
    requires { (1 ≤ number) × (number ≤ length sets.now) }
    ensures { result.now ≡ get_or sets.now (number - 1) result.now }
{
    &sets[usize::from(number - 1)]
}

/// How many own statements of the node of this number were lost on each link, from the rows of all nodes; nothing if it has no row.
fn lost_of(losses: &[Vec<u64>], number: u8) -> &[u64]
    requires { 1 ≤ number }
    ensures { result.now ≡ get_or (map (λ row. row.items) losses.now) (number - 1) [] }
{
    match losses.get(usize::from(number - 1)) {
        Some(row) => row.as_slice(),
        None => &[],
    }
}

/// The record of the node of this number in a script, from its own quorum set, from what its threads left, and from how many own statements
/// were lost on each of its links.
fn report_left<'a>(
    alloc: Global,
    commands: &[Command],
    number: u8,
    set: &'a QuorumSet,
    left: &'a NodeReport,
    lost: &[u64],
) -> Result<Report<'a>, AllocError>
    requires names { All NamesNodes commands.now }
    requires set { set.now ≡ set_at number commands.now }
    ensures { IfOk result (λ report. view_of report ≡ record_left commands.now number left.now lost.now) }
{
    let peers = peers_of_node(alloc, count_of_nodes(commands), number)?;
    let links = links_of(alloc, peers.as_slice(), lost)?;
    let parked = counts_of(alloc, left.parked.as_slice())?;
    Ok(Report {
        node: number,
        me: id_from(number),
        set,
        links,
        journal: left.journal.as_slice(),
        parked,
        decisions: left.applied.as_slice(),
        applied: left.applied.as_slice(),
        state: Some(&left.state),
        messages: left.parked.as_slice(),
        commands: left.commands.as_slice(),
        came: left.came.as_slice(),
    })
}

/// The records of the nodes of a script, from their quorum sets, as `sets_of` gives them, from what their threads left, and from how many own
/// statements of each were lost on each of its links. A node without a row in `losses` lost none. It fails only if it is out of memory.
pub fn reports_left<'a>(
    alloc: Global,
    commands: &[Command],
    sets: &'a [QuorumSet],
    nodes: &'a [NodeReport],
    losses: &[Vec<u64>],
) -> Result<Vec<Report<'a>>, AllocError>
    requires names { All NamesNodes commands.now }
    requires sets { sets.now ≡ sets_in commands.now }
    requires count { length nodes.now ≡ node_count commands.now }
    requires few { length nodes.now ≤ NODE_LIMIT }
    ensures { IfOk result (λ reports. map view_of reports.items ≡ records_left commands.now nodes.now (map (λ row. row.items) losses.now)) }
{
    let mut reports = Vec::new(alloc);
    let mut number: u8 = 0;
    for node in nodes {
        number += 1;
        let set = set_of(sets, number);
        let lost = lost_of(losses, number);
        reports.push(report_left(alloc, commands, number, set, node, lost)?)?;
    }
    Ok(reports)
}
