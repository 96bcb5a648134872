//! What goes out.

use scp_core::Bytes;

/// Bytes that go out over a link: they encode a link message.
#[derive(Drop)]
pub struct Sending {
    pub link: u8,
    pub bytes: Bytes,
}
