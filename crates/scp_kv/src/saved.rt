//! The bytes of a state.
ghost use Rattle.std.specs.Prelude.{◌≡◌, ◌≢◌, ◌<◌, ◌≤◌, ◌++◌, ◌⊎◌, map, true, false, Ok, IfOk, IfErr, OnOk, IsErrOf};
ghost use Rattle.std.specs.Ordering.{nat_cmp};
ghost use Rattle.std.specs.Cmp.Lexicographic.{slice_cmp};
ghost use Rattle.std.specs.FinMap as finite;
ghost use Rattle.std.specs.FinMap.Entries.{below_all};
ghost use Rattle.scp_xdr.specs.Kind.{Fits, Spells, spelling, word};
ghost use Rattle.scp_xdr.specs.Words.{Gives, IsReadingFault};
ghost use Rattle.scp_kv.specs.Map.{KvMap};
ghost use Rattle.scp_kv.specs.Saved.{entry_kind, state_kind, ascending, state_in};
ghost use Rattle.scp_kv.specs.inside.Entry.{entry_value};

use crate::ops::{ENTRY_LIMIT, KEY_LIMIT, Op, read_bytes};
use crate::state::KvState;
use scp_xdr::below::types::{Fault, Value};
use scp_xdr::{
    Reader, Writer, Xdr, array_fits, decode, pass_array, read_array, spend_array, spend_opaque,
    write_array,
};
use std::alloc::Global;

/// The most entries of a state's bytes: as many as XDR can count.
const STATE_LIMIT: u32 = u32::MAX;

/// A key and its value.
#[derive(Drop)]
struct Entry {
    key: Value,
    value: Value,
}

/// The entries of a state. Their XDR is an array: their count, and each of them.
#[derive(Drop)]
struct EntryList(Vec<Entry>);

impl Xdr for Entry {
    ghost kind = { entry_kind };

    ghost value = { entry_value };

    fn read(alloc: Global, reader: &mut Reader<'_>) -> Result<Entry, Fault> {
        let key = read_bytes(alloc, KEY_LIMIT, reader)?;
        let value = read_bytes(alloc, ENTRY_LIMIT, reader)?;
        Ok(Entry { key, value })
    }

    fn pass(reader: &mut Reader<'_>) -> Result<(), Fault> {
        reader.opaque(KEY_LIMIT)?;
        reader.opaque(ENTRY_LIMIT)?;
        Ok(())
    }

    fn fits(&self) -> bool {
        self.key.as_slice().len() <= KEY_LIMIT as usize
            && self.value.as_slice().len() <= ENTRY_LIMIT as usize
    }

    fn spend(&self, room: usize) -> Option<usize> {
        let left = spend_opaque(self.key.as_slice(), room)?;
        spend_opaque(self.value.as_slice(), left)
    }

    fn write(&self, writer: &mut Writer) -> Result<(), Fault> {
        writer.opaque(KEY_LIMIT, self.key.as_slice())?;
        writer.opaque(ENTRY_LIMIT, self.value.as_slice())?;
        Ok(())
    }
}

impl Xdr for EntryList {
    ghost kind = { state_kind };

    ghost value = { λ list. map entry_value list.0.items };

    fn read(alloc: Global, reader: &mut Reader<'_>) -> Result<EntryList, Fault> {
        Ok(EntryList(read_array(alloc, STATE_LIMIT, reader)?))
    }

    fn pass(reader: &mut Reader<'_>) -> Result<(), Fault> {
        pass_array::<Entry>(STATE_LIMIT, reader)
    }

    fn fits(&self) -> bool {
        array_fits(STATE_LIMIT, self.0.as_slice())
    }

    fn spend(&self, room: usize) -> Option<usize> {
        spend_array(self.0.as_slice(), room)
    }

    fn write(&self, writer: &mut Writer) -> Result<(), Fault> {
        write_array(writer, STATE_LIMIT, self.0.as_slice())
    }
}

impl KvState {
    /// The state whose bytes these are. Refused by their first fault, `Fault::Malformed` or `Fault::TooLong`; bytes whose keys don't
    /// strictly ascend are malformed as a whole, at 0. Else refused by `Fault::NoMemory`. The time grows with the bytes, and for each key
    /// with the logarithm of the number of keys.
    pub fn decode(alloc: Global, bytes: &[u8]) -> Result<KvState, Fault>
        ensures exact { Gives (λ state. state) result (state_in bytes.now) }
        ensures found { IfOk result (λ state. Spells state_kind bytes.now (finite.entries state)) }
        ensures faults { IfErr result (λ f. f ≢ Fault.NoMemory → IsReadingFault f) }
    {
        let EntryList(entries) = decode(alloc, bytes)?;
        in_order(alloc, entries)
    }

    /// The bytes of the state: the XDR of its entries, in the order of their keys. `Fault::TooLong` only where a key has over 64 bytes, a
    /// value over 256, or the count over 32 bits; no operation list makes such a key or value. The only other refusal is `Fault::NoMemory`.
    pub fn encode(&self, alloc: Global) -> Result<Vec<u8>, Fault>
        ensures spells { IfOk result (λ bytes. Spells state_kind bytes.items (finite.entries self.now)) }
        ensures too_long { IsErrOf result Fault.TooLong → ¬ (Fits state_kind (finite.entries self.now)) }
        ensures only { IfErr result (λ f. (f ≡ Fault.NoMemory) ⊎ (f ≡ Fault.TooLong)) }
    {
        let mut writer = Writer::new(alloc);
        let entries = self.lines();
        write_count(&mut writer, entries.len())?;
        for (key, value) in entries {
            write_entry(&mut writer, key, value)?;
        }
        Ok(writer.into_vec())
    }
}

/// The state of entries whose keys strictly ascend. Other entries are malformed as a whole.
fn in_order(alloc: Global, mut entries: Vec<Entry>) -> Result<KvState, Fault>
    ensures { Gives (λ state. state) result (ascending (map entry_value entries.items)) }
{
    let mut state = KvState::new(alloc);
    while let Some(entry) = entries.pop() {
        put_below(&mut state, entry)?;
    }
    Ok(state)
}

/// Puts an entry whose key is below all others. A key that isn't is malformed, at 0.
fn put_below(state: &mut KvState, entry: Entry) -> Result<(), Fault>
    ensures put { OnOk result (state.new ≡ finite.insert state.old entry.key entry.value) }
    ensures below { OnOk result (below_all (slice_cmp nat_cmp) entry.key (finite.entries state.old) ≡ true) }
    ensures refused { IfErr result (λ f. f ≢ Fault.NoMemory → (f ≡ Fault.Malformed 0) × (below_all (slice_cmp nat_cmp) entry.key (finite.entries state.old) ≡ false)) }
{
    if !is_below(state, &entry.key) {
        return Err(Fault::Malformed(0));
    }
    let Entry { key, value } = entry;
    state.apply(Op::Put(key, value))
}

/// Whether the key is below all others.
fn is_below(state: &KvState, key: &Value) -> bool
    ensures { result ≡ below_all (slice_cmp nat_cmp) key.now (finite.entries state.now) }
{
    match state.lines().next() {
        Some((least, _)) => key < least,
        None => true,
    }
}

/// Writes how many entries follow. A refusal leaves the writer as it was.
fn write_count(writer: &mut Writer, count: usize) -> Result<(), Fault>
    ensures written { OnOk result (writer.new ≡ writer.old ++ word count) }
    ensures few { OnOk result (count ≤ STATE_LIMIT) }
    ensures too_long { IsErrOf result Fault.TooLong → STATE_LIMIT < count }
    ensures only { IfErr result (λ f. (f ≡ Fault.NoMemory) ⊎ (f ≡ Fault.TooLong)) }
{
    writer.count(STATE_LIMIT, count)
}

/// Writes a key and its value. A refusal may leave a part of them.
fn write_entry(writer: &mut Writer, key: &Value, value: &Value) -> Result<(), Fault>
    ensures written { OnOk result (writer.new ≡ writer.old ++ spelling entry_kind (key.now, value.now)) }
    ensures fits { OnOk result (Fits entry_kind (key.now, value.now)) }
    ensures too_long { IsErrOf result Fault.TooLong → ¬ (Fits entry_kind (key.now, value.now)) }
    ensures only { IfErr result (λ f. (f ≡ Fault.NoMemory) ⊎ (f ≡ Fault.TooLong)) }
{
    writer.opaque(KEY_LIMIT, key.as_slice())?;
    writer.opaque(ENTRY_LIMIT, value.as_slice())
}
