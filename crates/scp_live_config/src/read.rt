//! How a configuration is read.
ghost use Rattle.std.specs.Prelude.{◌≡◌, Some, ◌+◌, ◌==◌, count_by, IfOk, IfErr, OnOk, IsSomeAnd};
ghost use Rattle.toml.specs.Errors.{IsWithin};
ghost use Rattle.toml.specs.View.{table_view};
ghost use Rattle.toml.specs.Parse.{parse_document};
ghost use Rattle.scp_live_config.specs.Names.{HasOnly};
ghost use Rattle.scp_live_config.specs.Config.{IsConfigOf};
ghost use Rattle.scp_live_config.specs.Wrong.{IsWrong, IsFaultOf};
ghost use Rattle.scp_live_config.specs.declared.wrong.Section.TheVariants as section;
ghost use Rattle.scp_live_config.specs.inside.Faults.{Tells, IsTextFault};

use crate::fault::ConfigFault;
use crate::names::read_names;
use crate::peers::{read_node, read_peers};
use crate::queues::read_capacities;
use crate::sets::read_quorum_set;
use crate::settings::Settings;
use crate::table::stray;
use crate::wrong::{Section, Wrong};
use std::alloc::Global;
use toml::Table;

/// Refuses keys that a document may not have.
fn refuse_others(alloc: Global, doc: &Table) -> Result<(), ConfigFault>
    ensures none { OnOk result (HasOnly section.Whole (table_view doc.now)) }
    ensures wrong { IfErr result (Tells (IsWrong (table_view doc.now))) }
{
    match stray(Section::Whole, doc) {
        None => Ok(()),
        Some(key) => {
            let key = String::from_str(alloc, key.as_str())?;
            Err(ConfigFault::Wrong(Wrong::Stray(key)))
        }
    }
}

/// The settings that a document gives.
fn read_table(alloc: Global, doc: &Table) -> Result<Settings, ConfigFault>
    ensures read { IfOk result (λ settings. IsConfigOf (table_view doc.now) settings) }
    ensures wrong { IfErr result (Tells (IsWrong (table_view doc.now))) }
{
    refuse_others(alloc, doc)?;
    let names = read_names(alloc, doc)?;
    let node = read_node(alloc, &names, doc)?;
    let peers = read_peers(alloc, &names, &node, doc)?;
    let set = read_quorum_set(alloc, &names, doc)?;
    let capacities = read_capacities(alloc, doc)?;
    Ok(Settings {
        names,
        node,
        peers,
        set,
        capacities,
    })
}

/// The line number after these bytes, counted from 1.
fn line_behind(before: &[u8]) -> usize
    ensures { result ≡ 1 + count_by (λ b. b == 10) before.now }
{
    let mut line = 1;
    for byte in before {
        if *byte == b'\n' {
            line += 1;
        }
    }
    line
}

/// Why a text isn't TOML, or that memory ran out.
fn text_fault(alloc: Global, text: &str, error: &toml::de::Error) -> ConfigFault
    requires within { IsWithin text.now error.now }
    ensures { IsTextFault text.now error.now result }
{
    let Some(span) = error.span() else {
        return ConfigFault::NoMemory;
    };
    match String::from_str(alloc, error.message()) {
        Ok(words) => ConfigFault::Text {
            line: line_behind(&text.as_bytes()[..span.start]),
            words,
        },
        Err(_) => ConfigFault::NoMemory,
    }
}

/// The document of a text.
fn read_text(alloc: Global, text: &str) -> Result<Table, ConfigFault>
    ensures read { IfOk result (λ doc. parse_document text.now ≡ Some (table_view doc)) }
    ensures refused { IfErr result (IsFaultOf text.now) }
{
    match toml::table_from_str(alloc, text) {
        Ok(doc) => Ok(doc),
        Err(error) => Err(text_fault(alloc, text, &error)),
    }
}

/// The settings that the document of a text gives.
fn read_document(alloc: Global, text: &str, doc: &Table) -> Result<Settings, ConfigFault>
    requires parsed { parse_document text.now ≡ Some (table_view doc.now) }
    ensures read { IfOk result (λ settings. IsSomeAnd (parse_document text.now) (λ said. IsConfigOf said settings)) }
    ensures refused { IfErr result (IsFaultOf text.now) }
{
    match read_table(alloc, doc) {
        Ok(settings) => Ok(settings),
        Err(fault) => Err(fault),
    }
}

/// The settings that a text gives. The reported fault is the first in this order: keys that a document may not have, then `NODES`,
/// `NODE`, `PEERS`, `QUORUM_SET` and `CAPACITIES`.
pub fn read_config(alloc: Global, text: &str) -> Result<Settings, ConfigFault>
    ensures read { IfOk result (λ settings. IsSomeAnd (parse_document text.now) (λ doc. IsConfigOf doc settings)) }
    ensures refused { IfErr result (IsFaultOf text.now) }
{
    let doc = read_text(alloc, text)?;
    read_document(alloc, text, &doc)
}
