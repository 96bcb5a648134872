//! What went over the links of a node, as JSON.
ghost use Rattle.std.specs.Prelude.{◌≡◌, ◌++◌, IfOk, OnOk, flat_map, map};
ghost use Rattle.serde_json.specs.Data.{array, string};
ghost use Rattle.serde_json.specs.View.{view, items_of};
ghost use Rattle.scp_account.specs.Links.{came as came_in, sent as sent_in, link_json, links_json};
ghost use Rattle.scp_account.specs.inside.Happened.{happened};

use crate::digits::{digits_of, id_value};
use scp_facts::Happening;
use scp_line::LinkReport;
use serde_json::{Value, json};
use std::alloc::{AllocError, Global};

/// A word as JSON.
pub fn word(alloc: Global, word: &str) -> Result<Value, AllocError>
    ensures { IfOk result (λ v. view v ≡ string word.now) }
{
    Ok(Value::from(String::from_str(alloc, word)?))
}

/// Adds what came on the link, if this is what happened.
fn add_came(
    alloc: Global,
    values: &mut Vec<Value>,
    link: usize,
    happening: &Happening,
) -> Result<(), AllocError>
    ensures { OnOk result (map view values.new.items ≡ map view values.old.items ++ came_in link happening.now) }
{
    match happening {
        Happening::Opened(at) if usize::from(*at) == link => values.push(word(alloc, "open")?)?,
        Happening::Came(at, bytes) if usize::from(*at) == link => {
            values.push(digits_of(alloc, bytes.as_slice())?)?
        }
        Happening::Closed(at) if usize::from(*at) == link => values.push(word(alloc, "close")?)?,
        _ => {}
    }
    Ok(())
}

/// What came on a link, in order.
fn came(alloc: Global, link: usize, happenings: &[&Happening]) -> Result<Value, AllocError>
    ensures { IfOk result (λ v. view v ≡ array (items_of (flat_map (came_in link) (happened happenings.now)))) }
{
    let mut values = Vec::new(alloc);
    for happening in happenings {
        add_came(alloc, &mut values, link, *happening)?;
    }
    Ok(Value::from(values))
}

/// Adds what was sent on the link, if this is what happened.
fn add_sent(
    alloc: Global,
    values: &mut Vec<Value>,
    link: usize,
    happening: &Happening,
) -> Result<(), AllocError>
    ensures { OnOk result (map view values.new.items ≡ map view values.old.items ++ sent_in link happening.now) }
{
    if let Happening::Sent(at, bytes) = happening
        && usize::from(*at) == link
    {
        values.push(digits_of(alloc, bytes.as_slice())?)?;
    }
    Ok(())
}

/// What was sent on a link, in order.
fn sent(alloc: Global, link: usize, happenings: &[&Happening]) -> Result<Value, AllocError>
    ensures { IfOk result (λ v. view v ≡ array (items_of (flat_map (sent_in link) (happened happenings.now)))) }
{
    let mut values = Vec::new(alloc);
    for happening in happenings {
        add_sent(alloc, &mut values, link, *happening)?;
    }
    Ok(Value::from(values))
}

/// A link, with what went over it.
fn link_value(
    alloc: Global,
    link: usize,
    report: &LinkReport,
    happenings: &[&Happening],
) -> Result<Value, AllocError>
    ensures { IfOk result (λ v. view v ≡ link_json (happened happenings.now) link report.now) }
{
    let overwritten = report.overwritten;
    let waiting = report.waiting;
    json!(in alloc; {
        "came": came(alloc, link, happenings)?,
        "overwritten": overwritten,
        "peer": id_value(alloc, &report.peer)?,
        "sent": sent(alloc, link, happenings)?,
        "waiting": waiting
    })
}

/// The links of a node, in order.
pub fn link_values(
    alloc: Global,
    links: &[LinkReport],
    happenings: &[&Happening],
) -> Result<Value, AllocError>
    ensures { IfOk result (λ v. view v ≡ array (items_of (links_json (happened happenings.now) 0 links.now))) }
{
    let mut values = Vec::new(alloc);
    let mut link = 0;
    for report in links {
        values.push(link_value(alloc, link, report, happenings)?)?;
        link += 1;
    }
    Ok(Value::from(values))
}
