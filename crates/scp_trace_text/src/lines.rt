//! The lines of the facts of a step.
ghost use Rattle.std.specs.Prelude.{◌≡◌, ◌++◌, IfOk, OnOk, IsOkUnless, flat_map, string_bytes};
ghost use Rattle.scp_trace_text.specs.Tracing.{tells_full, live_text};
ghost use Rattle.scp_trace_text.specs.Watching.{telling_text};

use crate::facts::{Place, write_fact, write_front};
use scp_facts::below::turn::Node;
use scp_facts::{Fact, Telling};
use scp_stand_slot::Names;
use scp_words::below::types::Fault;
use std::alloc::Global;

/// Whether a fact says that a queue was full.
fn is_full(fact: &Fact) -> bool
    ensures { result ≡ tells_full fact.now }
{
    matches!(fact, Fact::Full)
}

/// Adds the lines of a fact at a node.
fn write_live(out: &mut String, names: &Names, node: &Node, fact: &Fact) -> Result<(), Fault>
    ensures added { OnOk result (string_bytes out.new ≡ string_bytes out.old ++ live_text names.now node.now fact.now) }
    ensures only_memory { IsOkUnless result Fault.NoMemory }
{
    if is_full(fact) {
        return write_front(out, names, node.me(), " full\n");
    }
    let place = Place {
        names,
        line: 0,
        node,
    };
    write_fact(out, place, &[], fact)
}

/// Adds the lines of a reported fact at a node.
fn write_telling(
    out: &mut String,
    names: &Names,
    node: &Node,
    telling: &Telling,
) -> Result<(), Fault>
    ensures added { OnOk result (string_bytes out.new ≡ string_bytes out.old ++ telling_text names.now node.now telling.now) }
    ensures only_memory { IsOkUnless result Fault.NoMemory }
{
    match telling {
        Telling::Line(_) => Ok(()),
        Telling::Of(told) => write_live(out, names, node, &told.fact),
    }
}

/// The lines of all reported facts at a node.
pub fn lines_of(
    alloc: Global,
    names: &Names,
    node: &Node,
    tellings: &[Telling],
) -> Result<String, Fault>
    ensures lines { IfOk result (λ text. string_bytes text ≡ flat_map (telling_text names.now node.now) tellings.now) }
    ensures only_memory { IsOkUnless result Fault.NoMemory }
{
    let mut text = String::new(alloc);
    for telling in tellings {
        write_telling(&mut text, names, node, telling)?;
    }
    Ok(text)
}
