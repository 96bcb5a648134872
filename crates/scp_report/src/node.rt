//! The record of a node that takes one step after another, in a script or live.
ghost use Rattle.std.specs.Prelude.{◌≡◌, ◌≤◌, IfOk, length, map, take};
ghost use Rattle.scp_core.specs.scp_types.specs.declared.limits.TheConstants.{LINK_LIMIT, NODE_LIMIT};
ghost use Rattle.scp_report.specs.Report.{view_of};
ghost use Rattle.scp_report.specs.Node.{links_behind, report_of as record_of, reports_of as records_of};

use crate::report::{LinkReport, Report};
use crate::waiting::{first_peers, parked_at};
use scp_core::Node;
use std::alloc::{AllocError, Global};

/// The links of a node, in their order: at most a hundred.
fn links_of(alloc: Global, node: &Node) -> Result<Vec<LinkReport>, AllocError>
    ensures { IfOk result (λ links. links.items ≡ links_behind node.now.outboxes 0 (take LINK_LIMIT node.now.config.peers)) }
{
    let peers = first_peers(node.peers());
    let mut links = Vec::new(alloc);
    let mut link = 0;
    for peer in peers {
        links.push(LinkReport {
            peer: *peer,
            overwritten: node.overwritten(link),
            waiting: node.waiting(link),
        })?;
        link += 1;
    }
    Ok(links)
}

/// The record of the node of this number. It takes time in proportion to the connections that its links had. It fails only if it is out of
/// memory.
pub fn report_of<'a>(alloc: Global, number: u8, node: &'a Node) -> Result<Report<'a>, AllocError>
    ensures { IfOk result (λ report. view_of report ≡ record_of number node.now) }
{
    let links = links_of(alloc, node)?;
    let parked = parked_at(alloc, node)?;
    Ok(Report {
        node: number,
        me: node.me(),
        set: node.set(),
        links,
        journal: node.journal(),
        parked,
        decisions: node.decisions(),
        applied: node.applied(),
        state: node.state(),
        messages: &[],
        commands: &[],
        came: &[],
    })
}

/// The records of these nodes, the first of which has number 1. It fails only if it is out of memory.
pub fn reports_of<'a>(alloc: Global, nodes: &'a [Node]) -> Result<Vec<Report<'a>>, AllocError>
    requires few { length nodes.now ≤ NODE_LIMIT }
    ensures { IfOk result (λ reports. map view_of reports.items ≡ records_of nodes.now) }
{
    let mut reports = Vec::new(alloc);
    let mut number: u8 = 0;
    for node in nodes {
        number += 1;
        reports.push(report_of(alloc, number, node)?)?;
    }
    Ok(reports)
}
