//! The text of a fault.
ghost use Rattle.std.specs.Prelude.{◌≡◌, ◌++◌, OnOk, codes, flat_map, string_bytes};
ghost use Rattle.std.specs.Fmt.{decimal};
ghost use Rattle.scp_live_config.specs.Wrong.{queue_key};
ghost use Rattle.scp_live_config.specs.Texts.{shown_byte, shown, inner_path, set_path, key_in_set, wrong_key, expected_in_set, expected_words, other_name, expected, fault_text};

use crate::fault::ConfigFault;
use crate::queues::key_of;
use crate::wrong::{SetWrong, Wrong};
use std::alloc::AllocError;

/// A byte as it is shown.
fn shown_byte(byte: u8) -> u8
    ensures { result ≡ shown_byte byte }
{
    if byte >= 32 && byte <= 126 {
        byte
    } else {
        b'?'
    }
}

/// Adds bytes as they are shown.
fn write_bytes(out: &mut String, bytes: &[u8]) -> Result<(), AllocError>
    ensures { OnOk result (string_bytes out.new ≡ string_bytes out.old ++ shown bytes.now) }
{
    for byte in bytes {
        out.push(char::from(shown_byte(*byte)))?;
    }
    Ok(())
}

/// Adds a text of the document as it is shown, so that it stays on one line.
fn write_shown(out: &mut String, text: &str) -> Result<(), AllocError>
    ensures { OnOk result (string_bytes out.new ≡ string_bytes out.old ++ shown text.now) }
{
    write_bytes(out, text.as_bytes())
}

/// Adds the path step to the inner set at this index.
fn write_place(out: &mut String, place: usize) -> Result<(), AllocError>
    ensures { OnOk result (string_bytes out.new ≡ string_bytes out.old ++ inner_path place) }
{
    write!(out, ".INNER_SETS[{place}]")
}

/// Adds the path steps to inner sets.
fn write_places(out: &mut String, inner: &[usize]) -> Result<(), AllocError>
    ensures { OnOk result (string_bytes out.new ≡ string_bytes out.old ++ flat_map inner_path inner.now) }
{
    for place in inner {
        write_place(out, *place)?;
    }
    Ok(())
}

/// Adds the path from `QUORUM_SET` to an inner set.
fn write_path(out: &mut String, inner: &[usize]) -> Result<(), AllocError>
    ensures { OnOk result (string_bytes out.new ≡ string_bytes out.old ++ set_path inner.now) }
{
    out.push_str("QUORUM_SET")?;
    write_places(out, inner)
}

/// Adds the part of the path that names the wrong key in the table of a set.
fn write_key_in_set(out: &mut String, wrong: &SetWrong) -> Result<(), AllocError>
    ensures { OnOk result (string_bytes out.new ≡ string_bytes out.old ++ key_in_set wrong.now) }
{
    match wrong {
        SetWrong::Stray(key) => {
            out.push_str(".")?;
            write_shown(out, key.as_str())
        }
        SetWrong::Threshold => out.push_str(".THRESHOLD"),
        SetWrong::Validators => out.push_str(".VALIDATORS"),
        SetWrong::Validator(place) => write!(out, ".VALIDATORS[{place}]"),
        SetWrong::InnerSets | SetWrong::TooDeep => out.push_str(".INNER_SETS"),
    }
}

/// Adds a key after the prefix of its table.
fn write_below(out: &mut String, table: &str, key: &str) -> Result<(), AllocError>
    ensures { OnOk result (string_bytes out.new ≡ string_bytes out.old ++ (table.now ++ shown key.now)) }
{
    out.push_str(table)?;
    write_shown(out, key)
}

/// Adds the key of a capacity.
fn write_queue(out: &mut String, key: &str) -> Result<(), AllocError>
    ensures { OnOk result (string_bytes out.new ≡ string_bytes out.old ++ (codes "CAPACITIES." ++ key.now)) }
{
    write!(out, "CAPACITIES.{key}")
}

/// Adds the path of a peer.
fn write_peer(out: &mut String, place: usize) -> Result<(), AllocError>
    ensures { OnOk result (string_bytes out.new ≡ string_bytes out.old ++ (codes "PEERS[" ++ decimal place ++ codes "]")) }
{
    write!(out, "PEERS[{place}]")
}

/// Adds the key of what is wrong.
fn write_key(out: &mut String, wrong: &Wrong) -> Result<(), AllocError>
    ensures { OnOk result (string_bytes out.new ≡ string_bytes out.old ++ wrong_key wrong.now) }
{
    match wrong {
        Wrong::Stray(key) => write_shown(out, key.as_str()),
        Wrong::Nodes => out.push_str("NODES"),
        Wrong::Name(name) => write_below(out, "NODES.", name.as_str()),
        Wrong::Id(name) => write_below(out, "NODES.", name.as_str()),
        Wrong::SameId { name, .. } => write_below(out, "NODES.", name.as_str()),
        Wrong::Node => out.push_str("NODE"),
        Wrong::Peers => out.push_str("PEERS"),
        Wrong::Peer(place) => write_peer(out, *place),
        Wrong::PeerTwice(place) => write_peer(out, *place),
        Wrong::PeerIsNode(place) => write_peer(out, *place),
        Wrong::InSet { inner, wrong } => {
            write_path(out, inner)?;
            write_key_in_set(out, wrong)
        }
        Wrong::Set | Wrong::NodeTwice | Wrong::ManyNodes | Wrong::LongSet => {
            out.push_str("QUORUM_SET")
        }
        Wrong::Capacities => out.push_str("CAPACITIES"),
        Wrong::StrayCapacity(key) => write_below(out, "CAPACITIES.", key.as_str()),
        Wrong::Capacity(queue) => write_queue(out, key_of(*queue)),
    }
}

/// What is expected in the table of a set.
fn expected_in_set(wrong: &SetWrong) -> &'static str
    ensures { result.now ≡ expected_in_set wrong.now }
{
    match wrong {
        SetWrong::Stray(_) => "no such key",
        SetWrong::Threshold => "a number, 1 to the count of its entries",
        SetWrong::Validators => "an array of names",
        SetWrong::Validator(_) => "a name that stands in NODES",
        SetWrong::InnerSets => "an array of tables",
        SetWrong::TooDeep => "at most 4 levels of inner sets",
    }
}

/// What is expected, without the name of another node.
fn expected_words(wrong: &Wrong) -> &'static str
    ensures { result.now ≡ expected_words wrong.now }
{
    match wrong {
        Wrong::Stray(_) | Wrong::StrayCapacity(_) => "no such key",
        Wrong::Nodes => "a table of names and ids",
        Wrong::Name(_) => "a name of 1 to 32 of a-z 0-9 _ -, no number",
        Wrong::Id(_) => "64 hexadecimal digits, or a number, 1 to 255",
        Wrong::SameId { .. } => "another id than NODES.",
        Wrong::Node | Wrong::Peer(_) => "a name that stands in NODES",
        Wrong::Peers => "an array of at most 100 names",
        Wrong::PeerTwice(_) => "a name only once",
        Wrong::PeerIsNode(_) => "another node than NODE",
        Wrong::Set | Wrong::Capacities => "a table",
        Wrong::InSet { wrong, .. } => expected_in_set(wrong),
        Wrong::NodeTwice => "a node only once in the whole",
        Wrong::ManyNodes => "at most 1000 nodes",
        Wrong::LongSet => "at most 65532 bytes as XDR",
        Wrong::Capacity(_) => "a number, 1 to 1024",
    }
}

/// The name of the other node with the same id. It is empty for any other fault.
fn other_name(wrong: &Wrong) -> &str
    ensures { result.now ≡ other_name wrong.now }
{
    match wrong {
        Wrong::SameId { other, .. } => other.as_str(),
        _ => "",
    }
}

/// Adds what is expected.
fn write_expected(out: &mut String, wrong: &Wrong) -> Result<(), AllocError>
    ensures { OnOk result (string_bytes out.new ≡ string_bytes out.old ++ expected wrong.now) }
{
    write_below(out, expected_words(wrong), other_name(wrong))
}

/// Adds why a text isn't TOML.
fn write_text_fault(out: &mut String, line: usize, words: &str) -> Result<(), AllocError>
    ensures { OnOk result (string_bytes out.new ≡ string_bytes out.old ++ (codes "line " ++ decimal line ++ codes ": " ++ shown words.now)) }
{
    write!(out, "line {line}: ")?;
    write_shown(out, words)
}

/// Adds what is wrong: its key, and what is expected there.
fn write_wrong(out: &mut String, wrong: &Wrong) -> Result<(), AllocError>
    ensures { OnOk result (string_bytes out.new ≡ string_bytes out.old ++ (wrong_key wrong.now ++ codes ": expected " ++ expected wrong.now)) }
{
    write_key(out, wrong)?;
    out.push_str(": expected ")?;
    write_expected(out, wrong)
}

/// Adds the text of a fault: one line without its line end. It is `KEY: expected WORDS`, `line N: WORDS` for a text that isn't TOML, or
/// `no memory`.
pub fn write_fault(out: &mut String, fault: &ConfigFault) -> Result<(), AllocError>
    ensures { OnOk result (string_bytes out.new ≡ string_bytes out.old ++ fault_text fault.now) }
{
    match fault {
        ConfigFault::NoMemory => out.push_str("no memory"),
        ConfigFault::Text { line, words } => write_text_fault(out, *line, words.as_str()),
        ConfigFault::Wrong(wrong) => write_wrong(out, wrong),
    }
}
