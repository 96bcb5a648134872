//! The address of a node.
ghost use Rattle.std.specs.Prelude.{◌≡◌, ◌++◌, IfOk, OnOk, string_bytes};
ghost use Rattle.scp_strkey.specs.Address.{checked, address};

use crate::base32::write_base32;
use crate::crc::crc_of;
use scp_types::NodeId;
use std::alloc::{AllocError, Global};

/// The version of a node's address: its first letter is G.
const VERSION: u8 = 0x30;

/// The version, the id, and their check sum, its low byte first.
fn checked_bytes(alloc: Global, node: &NodeId) -> Result<Vec<u8>, AllocError>
    ensures { IfOk result (λ bytes. bytes.items ≡ checked node.now.0) }
{
    let mut bytes = Vec::new(alloc);
    bytes.push(VERSION)?;
    bytes.extend_from_slice(&node.0)?;
    let sum = crc_of(&bytes);
    bytes.push((sum % 256) as u8)?;
    bytes.push((sum / 256) as u8)?;
    Ok(bytes)
}

/// Adds the address of a node. Takes the memory of its 56 letters, and of 35 bytes.
pub fn write_address(text: &mut String, node: &NodeId) -> Result<(), AllocError>
    ensures { OnOk result (string_bytes text.new ≡ string_bytes text.old ++ address node.now.0) }
{
    let bytes = checked_bytes(*text.allocator(), node)?;
    write_base32(text, &bytes)
}
