//! The lines of a node's state.
ghost use Rattle.std.specs.Prelude.{◌≡◌, ◌++◌, OnOk, string_bytes};
ghost use Rattle.scp_live_lines.specs.State.{lowest_line, applied_count_line, journal_line, warning_lines, is_nearly_full, link_line, idle_line, key_line};

use scp_core::below::ledger::JOURNAL_LIMIT;
use scp_words::write_hex;
use std::alloc::AllocError;

/// From how many entries on a journal is reported with a warning: nine tenths of the most that it may have.
const WARNED: usize = 900_000;

/// From how many entries on a journal takes nothing more of a peer. The rest is for what the node holds already, and for the ends of its
/// connections: at most 64 messages of each of a hundred connections, and what one message brings.
const NEARLY_FULL: usize = 990_000;

/// Adds the line of the lowest undecided slot: `lowest SLOT`.
pub fn write_lowest(text: &mut String, slot: u64) -> Result<(), AllocError>
    ensures { OnOk result (string_bytes text.new ≡ string_bytes text.old ++ lowest_line slot) }
{
    writeln!(text, "lowest {slot}")
}

/// Adds the line of how many slots are applied: `applied-count COUNT`.
pub fn write_applied_count(text: &mut String, count: usize) -> Result<(), AllocError>
    ensures { OnOk result (string_bytes text.new ≡ string_bytes text.old ++ applied_count_line count) }
{
    writeln!(text, "applied-count {count}")
}

/// Adds the line of how many entries the journal has, and how many it may have: `journal COUNT of 1000000`.
pub fn write_journal(text: &mut String, count: usize) -> Result<(), AllocError>
    ensures { OnOk result (string_bytes text.new ≡ string_bytes text.old ++ journal_line count) }
{
    let limit = JOURNAL_LIMIT;
    writeln!(text, "journal {count} of {limit}")
}

/// Adds the same line after `warning`, if the journal has at least nine tenths of the entries that it may have. Otherwise adds nothing.
pub fn write_warning(text: &mut String, count: usize) -> Result<(), AllocError>
    ensures { OnOk result (string_bytes text.new ≡ string_bytes text.old ++ warning_lines count) }
{
    if count < WARNED {
        return Ok(());
    }
    text.push_str("warning ")?;
    write_journal(text, count)
}

/// Whether a journal with so many entries takes nothing more of a peer.
pub fn is_nearly_full(count: usize) -> bool
    ensures { result ≡ is_nearly_full count }
{
    NEARLY_FULL <= count
}

/// Adds the line of a link: `link NAME open LIFE`, or `link NAME closed LIFE`.
pub fn write_link(text: &mut String, name: &str, is_open: bool, life: u32) -> Result<(), AllocError>
    ensures { OnOk result (string_bytes text.new ≡ string_bytes text.old ++ link_line name.now is_open life) }
{
    let word = if is_open { "open" } else { "closed" };
    writeln!(text, "link {name} {word} {life}")
}

/// Adds the line of how many entries of the journal a peer sent that changed nothing: `idle NAME COUNT`.
pub fn write_idle(text: &mut String, name: &str, count: usize) -> Result<(), AllocError>
    ensures { OnOk result (string_bytes text.new ≡ string_bytes text.old ++ idle_line name.now count) }
{
    writeln!(text, "idle {name} {count}")
}

/// Adds the line of a key of the state and its value, both in hexadecimal digits: `key HEX HEX`.
pub fn write_key(text: &mut String, key: &[u8], value: &[u8]) -> Result<(), AllocError>
    ensures { OnOk result (string_bytes text.new ≡ string_bytes text.old ++ key_line (key.now, value.now)) }
{
    text.push_str("key ")?;
    write_hex(text, key)?;
    text.push_str(" ")?;
    write_hex(text, value)?;
    text.push_str("\n")?;
    Ok(())
}
