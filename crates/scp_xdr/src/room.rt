//! How many bytes an encoding takes, found without memory. Each call takes them off the room, and answers `None` where the room is too small.
ghost use Rattle.std.specs.Prelude.{◌+◌, length};
ghost use Rattle.scp_xdr.specs.Length.{padded_len};
ghost use Rattle.scp_xdr.specs.Words.{Leaves};

use crate::padding::padding_len;

/// Takes the 4 bytes of a number, a discriminant, a count or a flag off the room.
#[inline]
pub fn spend_u32(room: usize) -> Option<usize>
    ensures { Leaves room result 4 }
{
    room.checked_sub(4)
}

/// Takes the 8 bytes of a long number off the room.
#[inline]
pub fn spend_u64(room: usize) -> Option<usize>
    ensures { Leaves room result 8 }
{
    room.checked_sub(8)
}

/// Takes the bytes and their padding off the room.
#[tactic(auto, unfolding(crate::specs::Length::padded_len))]
pub fn spend_fixed(bytes: &[u8], room: usize) -> Option<usize>
    ensures { Leaves room result (padded_len (length bytes.now)) }
{
    let left = room.checked_sub(bytes.len())?;
    left.checked_sub(padding_len(bytes.len()))
}

/// Takes a length, that many bytes and their padding off the room.
pub fn spend_opaque(bytes: &[u8], room: usize) -> Option<usize>
    ensures { Leaves room result (4 + padded_len (length bytes.now)) }
{
    let left = spend_u32(room)?;
    spend_fixed(bytes, left)
}
