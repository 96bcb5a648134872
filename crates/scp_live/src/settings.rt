//! The settings that a text gives, the node with these settings, and the first line of its log.
ghost use Rattle.std.specs.Prelude.{◌≡◌, ◌⊎◌, ◌+◌, IfOk, IfErr, IsOkUnless};
ghost use Rattle.scp_again.specs.scp_xdr.specs.Words.{IsReadingFault};
ghost use Rattle.scp_again.specs.scp_driver.specs.Driver.{IsBase};
ghost use Rattle.scp_again.specs.scp_kv.specs.Saved.{bytes_of, state_of};
ghost use Rattle.scp_again.specs.scp_core.specs.Config.{IsConfigOfMany};
ghost use Rattle.scp_live_log.specs.Log.{IsLine};
ghost use Rattle.scp_live.specs.Beginning.{Configures, config_in, header_of, IsNew, IsNewFrom};
ghost use Rattle.scp_live.specs.Failing.{IsConfigFault};
ghost use Rattle.scp_live.specs.Living.{IsLive};

use crate::live::Live;
use scp_again::below::node::{Config, Peers};
use scp_again::below::types::{Fault, Hash};
use scp_live_config::{ConfigFault, Named, Settings, read_config};
use std::alloc::{AllocError, Global};
use std::str;

/// The settings that a configuration's text gives. Refused by its fault if it is no configuration, or by `NoMemory`.
pub fn settings_of(alloc: Global, config: &[u8]) -> Result<Settings, ConfigFault>
    ensures read { IfOk result (Configures config.now) }
    ensures refused { IfErr result (IsConfigFault config.now) }
{
    match str::from_utf8(config) {
        Ok(text) => match read_config(alloc, text) {
            Ok(settings) => Ok(settings),
            Err(fault) => Err(fault),
        },
        Err(_) => Err(ConfigFault::Text {
            line: 1,
            words: String::from_str(alloc, "expected a text in UTF-8")?,
        }),
    }
}

/// The configuration of the node itself.
fn config_of(alloc: Global, settings: &Settings) -> Result<Config, Fault>
    ensures is { IfOk result (λ config. config ≡ config_in settings.now) }
    ensures only_memory { IsOkUnless result Fault.NoMemory }
{
    Ok(Config {
        me: settings.node.id(),
        set: settings.set.set().copy()?,
        peers: Peers::new(settings.peer_ids(alloc)?),
        capacities: settings.capacities,
    })
}

/// Copies of these names, each with its id.
fn copied(alloc: Global, names: &[Named]) -> Result<Vec<Named>, AllocError>
    ensures { IfOk result (λ copies. copies.items ≡ names.now) }
{
    let mut copies = Vec::with_capacity(alloc, names.len())?;
    for name in names {
        copies.push(name.copy(alloc)?)?;
    }
    Ok(copies)
}

/// A node with these settings that has received no event. Refused by `BadConfig` if no node can have them, otherwise by `NoMemory`.
pub fn begun(alloc: Global, settings: &Settings) -> Result<Live, Fault>
    ensures new { IfOk result (IsNew settings.now) }
    ensures live { IfOk result (λ live. IsLive live.node) }
    ensures only { IfErr result (λ f. (f ≡ Fault.NoMemory) ⊎ ((f ≡ Fault.BadConfig) × ¬ (IsConfigOfMany (config_in settings.now)))) }
{
    let config = config_of(alloc, settings)?;
    let nodes = copied(alloc, settings.names.as_slice())?;
    Live::new(alloc, config, settings.link_names(alloc)?, nodes)
}

/// A node with these settings, which begins with the slot after `before`, and with the state that these bytes say, and has received no event.
/// Refused by `BadConfig` if no node can have the settings, by `Malformed` or `TooLong` if the bytes say no state, otherwise by `NoMemory`.
pub fn begun_from(
    alloc: Global,
    settings: &Settings,
    before: u32,
    base: Vec<u8>,
) -> Result<Live, Fault>
    ensures new { IfOk result (IsNewFrom settings.now (before + 1) base.items) }
    ensures live { IfOk result (λ live. IsLive live.node) }
    ensures only { IfErr result (λ f. (f ≡ Fault.NoMemory) ⊎ (((f ≡ Fault.BadConfig) × ¬ (IsConfigOfMany (config_in settings.now))) ⊎ (IsReadingFault f × ¬ (IsBase state_of bytes_of base.items)))) }
{
    let config = config_of(alloc, settings)?;
    let nodes = copied(alloc, settings.names.as_slice())?;
    Live::begin(
        alloc,
        config,
        settings.link_names(alloc)?,
        nodes,
        before,
        base,
    )
}

/// The first line of the log of a configuration with this digest.
pub fn header(alloc: Global, digest: &Hash) -> Result<Vec<u8>, AllocError>
    ensures is { IfOk result (λ line. line.items ≡ header_of digest.now.0) }
    ensures line { IfOk result (λ line. ¬ (IsLine line.items)) }
{
    let mut line = Vec::from_slice(alloc, b"scp_node 1 ")?;
    let digits = hex::encode(alloc, &digest.0)?;
    line.extend_from_slice(digits.as_bytes())?;
    line.push(b'\n')?;
    Ok(line)
}
