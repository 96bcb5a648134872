//! The quorum sets that are there.
ghost use Rattle.std.specs.Prelude.{ℕ, ◌≡◌, [], nat_eq, map, find as sets_find, option_map, None, IfOk, IfSome, OnOk, OnErr, IsOkUnless};
ghost use Rattle.std.specs.List.{AllByRecursion};
ghost use Rattle.std.specs.Cmp.Lexicographic.{pointwise};
ghost use Rattle.indexmap.specs.IndexMap.{get};
ghost use Rattle.scp_quorum.specs.QuorumKind.{set_hash};
ghost use Rattle.scp_fetch.specs.Store.{has_hash, lookup, stored};
ghost use Rattle.scp_fetch.specs.inside.Ring.{IsRing, IsUnderItsHash, set_at, turned, placed, next_first};

use indexmap::IndexMap;
use scp_quorum::SaneSet;
use scp_quorum::below::types::{Fault, Hash};
use std::alloc::Global;
use std::marker::Model;
use std::sync::Arc;

/// The most sets besides the local one (this project's profile).
pub const OTHER_SETS_LIMIT: usize = 256;

/// The local quorum set and others, each under its own hash. The others are in a ring, and `first` is the place of the one
/// that was stored first. (Taking the first out of an ordered map would move all others.)
#[derive(Drop)]
pub struct SetStore {
    local: Arc<SaneSet>,
    others: IndexMap<[u8; 32], Arc<SaneSet>>,
    first: usize,
}

impl Model for SetStore {
    ghost use Rattle.std.specs.Prelude.{map, nat_eq};
    ghost use Rattle.std.specs.List.{AllByRecursion};
    ghost use Rattle.std.specs.Coded.{codes};
    ghost use Rattle.scp_quorum.specs.scp_xdr.specs.inside.TreeModel.{coded_tree};
    ghost use Rattle.scp_quorum.specs.inside.QuorumTree.{coded_level};
    ghost use Rattle.scp_fetch.specs.Store.{StoreView};
    ghost use Rattle.scp_fetch.specs.inside.Ring.{turned, set_at, IsUnderItsHash, IsRing};

    ghost Value = { StoreView };

    ghost coded = { Prim.hlevel (codes, coded_tree coded_level) };

    ghost view = { λ a. record { local = a.local.value; others = map set_at (turned a.first a.others.entries) } };

    ghost invariant = { λ a. IsRing a.first a.others.entries × AllByRecursion IsUnderItsHash a.others.entries };
}

impl SetStore {
    /// A store with only the local set. Takes no memory.
    pub fn new(alloc: Global, local: Arc<SaneSet>) -> SetStore
        ensures local { result.local ≡ local.value }
        ensures others { result.others ≡ [] }
    {
        SetStore {
            local,
            others: IndexMap::new(alloc),
            first: 0,
        }
    }

    /// The set with this hash, if it is there. One look-up in a hash table, whose cost doesn't grow with the number of sets.
    pub fn get(&self, hash: &Hash) -> Option<&Arc<SaneSet>>
        ensures found { option_map (λ set. set.now.value) result ≡ lookup hash.now self.now }
        ensures its_hash { IfSome result (λ set. set_hash set.now.value ≡ hash.now.0) }
    {
        if *hash == self.local.hash() {
            return Some(&self.local);
        }
        find(&self.others, hash)
    }

    /// Stores a set under its own hash. If a set with that hash is there, nothing changes; if there are 256 others, the
    /// one that was stored first is removed. The only refusal is `Fault::NoMemory`, and it leaves all as it was. Costs a
    /// look-up, and moves one set.
    pub fn insert(&mut self, set: Arc<SaneSet>) -> Result<(), Fault>
        ensures stored { OnOk result (self.new ≡ stored set.value self.old) }
        ensures unchanged { OnErr result (self.new ≡ self.old) }
        ensures only_memory { IsOkUnless result Fault.NoMemory }
    {
        let _distinct = self.others.len();
        let hash = set.hash();
        if hash == self.local.hash() || self.others.contains_key(&hash.0) {
            return Ok(());
        }
        self.first = place(&mut self.others, self.first, hash.0, set)?;
        Ok(())
    }
}

/// The set with this hash among the others.
fn find<'s>(others: &'s IndexMap<[u8; 32], Arc<SaneSet>>, hash: &Hash) -> Option<&'s Arc<SaneSet>>
    requires { AllByRecursion IsUnderItsHash others.now.entries }
    ensures found { (first : ℕ) → option_map (λ set. set.now.value) result ≡ sets_find (has_hash hash.now) (map set_at (turned first others.now.entries)) }
    ensures its_hash { IfSome result (λ set. set_hash set.now.value ≡ hash.now.0) }
{
    let _distinct = others.len();
    others.get(&hash.0)
}

/// Puts a set under a new key: last while there is room, and else in the place of the one that was stored first.
/// Returns the place of the one that is then the first.
fn place(
    others: &mut IndexMap<[u8; 32], Arc<SaneSet>>,
    first: usize,
    key: [u8; 32],
    set: Arc<SaneSet>,
) -> Result<usize, Fault>
    requires new { get (pointwise nat_eq) others.old key ≡ None }
    requires ring { IsRing first others.old.entries }
    ensures placed { OnOk result (others.new.entries ≡ placed first (key, set) others.old.entries) }
    ensures next { IfOk result (λ next. next ≡ next_first first others.old.entries) }
    ensures unchanged { OnErr result (others.new.entries ≡ others.old.entries) }
    ensures only_memory { IsOkUnless result Fault.NoMemory }
{
    others.insert(key, set)?;
    if others.len() <= OTHER_SETS_LIMIT {
        return Ok(first);
    }
    others.swap_remove_index(first);
    Ok(if first + 1 == OTHER_SETS_LIMIT {
        0
    } else {
        first + 1
    })
}
