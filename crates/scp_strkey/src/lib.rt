//! Addresses of nodes, as Stellar's tools write them: the Base32 of a version byte, the node's id and their check sum.
//!
//! What it promises:
//! - bytes, five by five, are written as their Base32 (RFC 4648, section 6);
//! - the check sum is the remainder of the division by x^16 + x^12 + x^5 + 1, from 0, highest bit first;
//! - an address is the Base32 of the byte 0x30, the id's 32 bytes, and their check sum, its low byte first.
#![tactic(auto)]

mod address;
mod base32;
pub mod below;
mod crc;

pub use address::write_address;
pub use base32::write_base32;
pub use crc::crc_of;
