//! The lines of all facts of a line.
ghost use Rattle.std.specs.Prelude.{◌≡◌, ◌++◌, ◌-◌, Bool, IfOk, OnOk, IsOkUnless, Some, None, map, option_map, option_to_list, slice_get, string_bytes, if◌then◌else◌, []};
ghost use Rattle.scp_trace_text.specs.Facts.{told_line, is_shown as is_shown_by, shown_of, shown as shown_by, sent_in as sent_by, link_in as link_by, are_same, goes_with as goes_with_by, others as others_by, goes_with_last as goes_with_last_by, told_lines, facts_text};

use crate::facts::{Place, write_fact};
use scp_facts::below::turn::Node;
use scp_facts::{Fact, Telling, Told};
use scp_stand_slot::Names;
use scp_words::below::types::Fault;
use std::alloc::Global;

/// Whether a fact is shown. A message or command that only came in isn't.
fn is_shown(fact: &Fact) -> bool
    ensures { result ≡ is_shown_by fact.now }
{
    match fact {
        Fact::Came(..) | Fact::Given(_) => false,
        _ => true,
    }
}

/// Adds the fact, if it is shown.
fn add_shown<'a>(facts: &mut Vec<&'a Told>, telling: &'a Telling) -> Result<(), Fault>
    ensures added { OnOk result (map (λ told. told.now) facts.new.items ≡ map (λ told. told.now) facts.old.items ++ shown_of telling.entry.now) }
    ensures only_memory { IsOkUnless result Fault.NoMemory }
{
    match telling {
        Telling::Of(told) if is_shown(&told.fact) => {
            facts.push(told)?;
            Ok(())
        }
        _ => Ok(()),
    }
}

/// The facts that are shown, in order.
fn shown<'a>(alloc: Global, tellings: &'a [Telling]) -> Result<Vec<&'a Told>, Fault>
    ensures facts { IfOk result (λ facts. map (λ told. told.now) facts.items ≡ shown_by tellings.entry.now) }
    ensures only_memory { IsOkUnless result Fault.NoMemory }
{
    let mut facts = Vec::new(alloc);
    for telling in tellings {
        add_shown(&mut facts, telling)?;
    }
    Ok(facts)
}

/// The bytes that were sent, if the fact is that something was sent.
fn sent_in<'a>(fact: &'a Fact) -> Option<&'a [u8]>
    ensures { option_map (λ bytes. bytes.now) result ≡ sent_by fact.entry.now }
{
    match fact {
        Fact::Sent(_, bytes) => Some(bytes.as_slice()),
        _ => None,
    }
}

/// The link on which they were sent.
fn link_in(fact: &Fact) -> Option<u8>
    ensures { option_to_list result ≡ link_by fact.now }
{
    match fact {
        Fact::Sent(link, _) => Some(*link),
        _ => None,
    }
}

/// Whether the two facts are that the same bytes were sent.
fn sent_the_same(a: &Fact, b: &Fact) -> bool
    ensures { result ≡ are_same (sent_by a.now) (sent_by b.now) }
{
    match (sent_in(a), sent_in(b)) {
        (Some(a), Some(b)) => a == b,
        _ => false,
    }
}

/// Whether the same node sent the same bytes.
fn goes_with(a: &Told, b: &Told) -> bool
    ensures { result ≡ goes_with_by a.now b.now }
{
    a.node == b.node && sent_the_same(&a.fact, &b.fact)
}

/// Whether the fact belongs to the one before it, if there is one.
fn goes_with_last(last: Option<&Told>, told: &Told) -> bool
    ensures { result ≡ goes_with_last_by (option_map (λ told. told.now) last.entry) told.now }
{
    match last {
        Some(last) => goes_with(last, told),
        None => false,
    }
}

/// Adds the link on which something was sent, if the fact is that.
fn add_link(links: &mut Vec<u8>, fact: &Fact) -> Result<(), Fault>
    ensures added { OnOk result (links.new.items ≡ links.old.items ++ link_by fact.now) }
    ensures only_memory { IsOkUnless result Fault.NoMemory }
{
    if let Some(link) = link_in(fact) {
        links.push(link)?;
    }
    Ok(())
}

/// The links on which the same node sent the same bytes right after this.
fn others(alloc: Global, told: &Told, more: &[&Told]) -> Result<Vec<u8>, Fault>
    ensures links { IfOk result (λ links. links.items ≡ others_by told.now (map (λ told. told.now) more.now)) }
    ensures only_memory { IsOkUnless result Fault.NoMemory }
{
    let mut links = Vec::new(alloc);
    for next in more {
        if !goes_with(told, *next) {
            return Ok(links);
        }
        add_link(&mut links, &next.fact)?;
    }
    Ok(links)
}

/// The place of facts: this line, and these nodes.
#[derive(Clone, Copy)]
pub struct Scene<'a> {
    pub alloc: Global,
    pub names: &'a Names,
    pub line: usize,
    pub nodes: &'a [Node],
}

/// Adds the lines of a fact of a node, if there is such a node.
fn write_of_node(
    out: &mut String,
    scene: Scene<'_>,
    others: &[u8],
    told: &Told,
) -> Result<(), Fault>
    ensures added { OnOk result (string_bytes out.new ≡ string_bytes out.old ++ told_line scene.entry.names.now scene.entry.line (slice_get scene.entry.nodes.now (told.now.node - 1)) others.now told.now) }
    ensures only_memory { IsOkUnless result Fault.NoMemory }
{
    let number = told.node;
    match scene.nodes.get(usize::from(number.saturating_sub(1))) {
        Some(node) => write_fact(
            out,
            Place {
                names: scene.names,
                line: scene.line,
                node,
            },
            others,
            &told.fact,
        ),
        None => Ok(()),
    }
}

/// Adds the lines of a fact of a node, if there is such a node. Of what was sent, it shows only the receiver that this fact names.
pub fn write_told(out: &mut String, scene: Scene<'_>, told: &Told) -> Result<(), Fault>
    ensures added { OnOk result (string_bytes out.new ≡ string_bytes out.old ++ told_line scene.entry.names.now scene.entry.line (slice_get scene.entry.nodes.now (told.now.node - 1)) [] told.now) }
    ensures only_memory { IsOkUnless result Fault.NoMemory }
{
    write_of_node(out, scene, &[], told)
}

/// Adds the lines of a fact that doesn't belong to the one before it and comes before these.
fn write_first(out: &mut String, scene: Scene<'_>, told: &Told, more: &[&Told]) -> Result<(), Fault>
    ensures added { OnOk result (string_bytes out.new ≡ string_bytes out.old ++ told_line scene.entry.names.now scene.entry.line (slice_get scene.entry.nodes.now (told.now.node - 1)) (others_by told.now (map (λ told. told.now) more.now)) told.now) }
    ensures only_memory { IsOkUnless result Fault.NoMemory }
{
    let links = others(scene.alloc, told, more)?;
    write_of_node(out, scene, links.as_slice(), told)
}

/// Adds the lines of a fact after one and before these, unless it belongs to the one before it.
fn write_one(
    out: &mut String,
    scene: Scene<'_>,
    last: Option<&Told>,
    told: &Told,
    more: &[&Told],
) -> Result<(), Fault>
    ensures added { OnOk result (string_bytes out.new ≡ string_bytes out.old ++ (if goes_with_last_by (option_map (λ told. told.now) last.entry) told.now then [] else told_line scene.entry.names.now scene.entry.line (slice_get scene.entry.nodes.now (told.now.node - 1)) (others_by told.now (map (λ told. told.now) more.now)) told.now)) }
    ensures only_memory { IsOkUnless result Fault.NoMemory }
{
    if goes_with_last(last, told) {
        return Ok(());
    }
    write_first(out, scene, told, more)
}

/// Adds the lines of facts that are shown.
fn write_shown(out: &mut String, scene: Scene<'_>, facts: &[&Told]) -> Result<(), Fault>
    ensures added { OnOk result (string_bytes out.new ≡ string_bytes out.old ++ told_lines scene.entry.names.now scene.entry.line scene.entry.nodes.now None (map (λ told. told.now) facts.now)) }
    ensures only_memory { IsOkUnless result Fault.NoMemory }
{
    let mut last = None;
    for (index, told) in facts.iter().enumerate() {
        write_one(out, scene, last, *told, &facts[index + 1..])?;
        last = Some(*told);
    }
    Ok(())
}

/// Adds the lines of all facts of a line's steps.
pub fn write_facts(out: &mut String, scene: Scene<'_>, tellings: &[Telling]) -> Result<(), Fault>
    ensures added { OnOk result (string_bytes out.new ≡ string_bytes out.old ++ facts_text scene.entry.names.now scene.entry.line scene.entry.nodes.now tellings.now) }
    ensures only_memory { IsOkUnless result Fault.NoMemory }
{
    let facts = shown(scene.alloc, tellings)?;
    write_shown(out, scene, facts.as_slice())
}
