//! The quorum sets that a stream named so far.
ghost use Rattle.std.specs.Prelude.{◌≡◌, ◌⊎◌, ℕ, None, IfOk, IfErr, IsErrOf, OnOk, OnErr, ◌↔◌};
ghost use Rattle.std.specs.Option.{option_map};
ghost use Rattle.scp_ledger.specs.scp_types.specs.declared.names.Hash.{Hash};
ghost use Rattle.scp_ledger.specs.scp_xdr.specs.Kind.{Fits};
ghost use Rattle.scp_ledger.specs.scp_quorum.specs.QuorumKind.{set_kind, set_value};

use crate::insane::InsaneSet;
use scp_ledger::below::quorum::{QuorumSet, SaneSet};
use scp_ledger::below::types::{Fault, Hash};
use std::alloc::Global;
use std::collections::BTreeMap;
use std::sync::Arc;

/// A quorum set that was named.
#[derive(Drop)]
pub enum Known {
    Sane(Arc<SaneSet>),
    Insane(InsaneSet),
}

/// The quorum sets that a stream named so far, each under its hash; of two sets of one hash the earlier one. A look-up costs the logarithm
/// of their number.
#[derive(Drop)]
pub struct Sets {
    alloc: Global,
    known: BTreeMap<Hash, Known>,
}

impl Sets {
    ghost use Rattle.scp_judged.specs.Named.{set_in, set_known, NamesToo};

    /// No set was named. Takes no memory.
    pub fn new(alloc: Global) -> Sets
        ensures { (h : Hash) → set_in result h ≡ None }
    {
        Sets {
            alloc,
            known: BTreeMap::new(alloc),
        }
    }

    /// The set with this hash.
    pub fn get(&self, hash: &Hash) -> Option<&Known>
        ensures { option_map (λ known. set_known known.now) result ≡ set_in self.now hash.now }
    {
        self.known.get(hash)
    }

    /// One set more. `Fault::TooLong` exactly where it breaks a limit of its kind, so that it has no hash; the only other refusal is
    /// `Fault::NoMemory`. A refusal leaves all as it was.
    pub fn add(&mut self, set: QuorumSet) -> Result<(), Fault>
        ensures named { OnOk result (NamesToo (set_in self.old) (set_in self.new) set) }
        ensures unchanged { OnErr result ((h : Hash) → set_in self.new h ≡ set_in self.old h) }
        ensures too_long { IsErrOf result Fault.TooLong ↔ ¬ (Fits set_kind (set_value set)) }
        ensures only { IfErr result (λ f. (f ≡ Fault.NoMemory) ⊎ (f ≡ Fault.TooLong)) }
    {
        let hash = set.hash()?;
        if self.known.contains_key(&hash) {
            return Ok(());
        }
        let known = known_of(self.alloc, set)?;
        self.known.insert(hash, known)?;
        Ok(())
    }
}

ghost use Rattle.scp_judged.specs.Named.{set_known as tree_of};

/// The set, by whether it is sane. The only refusal is `Fault::NoMemory`.
fn known_of(alloc: Global, set: QuorumSet) -> Result<Known, Fault>
    ensures same { IfOk result (λ known. tree_of known ≡ set) }
    ensures only_memory { IfErr result (λ f. f ≡ Fault.NoMemory) }
{
    match set.into_sane() {
        Ok(sane) => Ok(Known::Sane(Arc::new(alloc, sane)?)),
        Err((Fault::Insane, set)) => Ok(Known::Insane(InsaneSet { set })),
        Err(_) => Err(Fault::NoMemory),
    }
}
