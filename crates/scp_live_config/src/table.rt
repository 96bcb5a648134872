//! What tables have at their keys.
ghost use Rattle.std.specs.Prelude.{◌≡◌, ℕ, map, option_map, option_and_then, IfSome, IfNone, string_bytes};
ghost use Rattle.toml.specs.Data.{get_member, as_table};
ghost use Rattle.toml.specs.View.{view, table_view};
ghost use Rattle.scp_live_config.specs.Names.{belongs, HasOnly, counted_to, number_to, values_at};
ghost use Rattle.scp_live_config.specs.Config.{table_at};
ghost use Rattle.scp_live_config.specs.Wrong.{IsStray};

use crate::wrong::Section;
use toml::{Table, Value};

/// The value at a key, if there is one.
pub fn find<'a>(table: &'a Table, key: &str) -> Option<&'a Value>
    ensures { option_map (λ said. view said.now) result ≡ get_member key.now (table_view table.now) }
{
    table.get(key)
}

/// The table at a key, if there is one.
pub fn table_at<'a>(table: &'a Table, key: &str) -> Option<&'a Table>
    ensures { option_map (λ inner. table_view inner.now) result ≡ table_at key.now (table_view table.now) }
{
    match find(table, key) {
        Some(value) => value.as_table(),
        None => None,
    }
}

/// The number, if it is from 1 to `most`.
pub fn counted_to(most: u32, number: i64) -> Option<u32>
    ensures { result ≡ counted_to most number }
{
    if number < 1 || number > i64::from(most) {
        return None;
    }
    Some(number as u32)
}

/// The number that a value gives, if it is from 1 to `most`.
pub fn number_to(most: u32, value: &Value) -> Option<u32>
    ensures { result ≡ number_to most (view value.now) }
{
    match value.as_integer() {
        Some(number) => counted_to(most, number),
        None => None,
    }
}

/// The values of the array at a key. A missing key means no values; any other value than an array gives nothing.
pub fn values_at<'a>(table: &'a Table, key: &str) -> Option<&'a [Value]>
    ensures { option_map (λ values. map view values.now) result ≡ values_at key.now (table_view table.now) }
{
    match find(table, key) {
        None => Some(&[]),
        Some(Value::Array(values)) => Some(values.as_slice()),
        Some(_) => None,
    }
}

/// Whether the section may have this key.
fn belongs(section: Section, key: &str) -> bool
    ensures { result ≡ belongs section key.now }
{
    match section {
        Section::Whole => {
            key == "NODE"
                || key == "PEERS"
                || key == "NODES"
                || key == "QUORUM_SET"
                || key == "CAPACITIES"
        }
        Section::Set => key == "THRESHOLD" || key == "VALIDATORS" || key == "INNER_SETS",
        Section::Queues => key == "LINK" || key == "INBOX" || key == "READY" || key == "DECIDED",
    }
}

/// A key of the table that the section may not have, if there is one.
pub fn stray<'a>(section: Section, table: &'a Table) -> Option<&'a String>
    ensures some { IfSome result (λ key. IsStray section (table_view table.now) (string_bytes key.now)) }
    ensures none { IfNone result (HasOnly section (table_view table.now)) }
{
    for (key, _) in table {
        if !belongs(section, key.as_str()) {
            return Some(key);
        }
    }
    None
}
