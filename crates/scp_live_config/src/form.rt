//! The one form of a configuration as bytes, and its digest.
ghost use Rattle.std.specs.Prelude.{◌≡◌, ◌++◌, flat_map, OnOk, IfOk};
ghost use Rattle.sha2.specs.Sha256.{sha256};
ghost use Rattle.scp_quorum.specs.scp_xdr.specs.Kind.{long_word};
ghost use Rattle.scp_quorum.specs.QuorumKind.{set_spelling};
ghost use Rattle.scp_live_config.specs.Form.{identity_form, identities_form, capacities_form, form};

use crate::settings::{Named, Settings};
use scp_quorum::SaneSet;
use scp_quorum::below::types::{Capacities, Hash};
use sha2::{Digest, Sha256};
use std::alloc::{AllocError, Global};

/// Adds a number.
#[tactic(auto, unfolding(crate::specs::Form::long_word))]
fn write_number(out: &mut Vec<u8>, number: u64) -> Result<(), AllocError>
    ensures { OnOk result (out.new.items ≡ out.old.items ++ long_word number) }
{
    out.extend_from_slice(&number.to_be_bytes())?;
    Ok(())
}

/// Adds a name and its id.
fn write_identity(out: &mut Vec<u8>, identity: &Named) -> Result<(), AllocError>
    ensures { OnOk result (out.new.items ≡ out.old.items ++ identity_form identity.now) }
{
    let name = identity.name().as_bytes();
    write_number(out, name.len() as u64)?;
    out.extend_from_slice(name)?;
    out.extend_from_slice(&identity.id().0)?;
    Ok(())
}

/// Adds each of these names and ids.
fn write_each(out: &mut Vec<u8>, identities: &[Named]) -> Result<(), AllocError>
    ensures { OnOk result (out.new.items ≡ out.old.items ++ flat_map identity_form identities.now) }
{
    for identity in identities {
        write_identity(out, identity)?;
    }
    Ok(())
}

/// Adds the number of names and ids, and each of them.
fn write_identities(out: &mut Vec<u8>, identities: &[Named]) -> Result<(), AllocError>
    ensures { OnOk result (out.new.items ≡ out.old.items ++ identities_form identities.now) }
{
    write_number(out, identities.len() as u64)?;
    write_each(out, identities)
}

/// Adds the capacities.
fn write_capacities(out: &mut Vec<u8>, capacities: &Capacities) -> Result<(), AllocError>
    ensures { OnOk result (out.new.items ≡ out.old.items ++ capacities_form capacities.now) }
{
    write_number(out, u64::from(capacities.link))?;
    write_number(out, u64::from(capacities.inbox))?;
    write_number(out, u64::from(capacities.ready))?;
    write_number(out, u64::from(capacities.decided))
}

/// Adds the XDR of the quorum set.
fn write_set(out: &mut Vec<u8>, set: &SaneSet) -> Result<(), AllocError>
    ensures { OnOk result (out.new.items ≡ out.old.items ++ set_spelling set.now) }
{
    match set.set().encode() {
        Ok(bytes) => out.extend_from_slice(&bytes),
        Err(_) => Err(AllocError),
    }
}

impl Settings {
    /// The one form of the configuration as bytes.
    fn form(&self, alloc: Global) -> Result<Vec<u8>, AllocError>
        ensures { IfOk result (λ bytes. bytes.items ≡ form self.now) }
    {
        let mut bytes = Vec::new(alloc);
        write_identity(&mut bytes, &self.node)?;
        write_identities(&mut bytes, &self.names)?;
        write_identities(&mut bytes, &self.peers)?;
        write_capacities(&mut bytes, &self.capacities)?;
        write_set(&mut bytes, &self.set)?;
        Ok(bytes)
    }

    /// The SHA-256 (FIPS 180-4) of the one form of the configuration. A log records whose it is by this digest. Takes memory for the
    /// form.
    pub fn digest(&self, alloc: Global) -> Result<Hash, AllocError>
        ensures { IfOk result (λ digest. digest.0 ≡ sha256 (form self.now)) }
    {
        let bytes = self.form(alloc)?;
        let mut hasher = Sha256::new();
        hasher.update(&bytes);
        Ok(Hash(hasher.finalize()))
    }
}
