//! Equality of bytes, eight at a time: the library's comparison of slices was the most expensive part of a vote.
ghost use Rattle.std.specs.Prelude.{◌≡◌, ◌≢◌, ◌+◌, ◌<◌, ◌≤◌, ℕ, length, nat_eq, slice_index};
ghost use Rattle.std.specs.Bool.{MatchBool};
ghost use Rattle.std.specs.Slice.Scan.{little_endian};
ghost use Rattle.std.specs.Cmp.Lexicographic.{pointwise};

/// Whether both are the same bytes. The last word read may overlap the one before it.
pub(crate) fn same_bytes(a: &[u8], b: &[u8]) -> bool
    ensures { result ≡ pointwise nat_eq a.now b.now }
{
    if a.len() != b.len() {
        return false;
    }
    if a.len() < 8 {
        return a == b;
    }
    let last = a.len() - 8;
    let mut at = 0;
    while at < last {
        if !same_word(a, b, at) {
            return false;
        }
        at += 8;
    }
    same_word(a, b, last)
}

/// Whether both are the same 32 bytes.
pub(crate) fn same_32(a: &[u8; 32], b: &[u8; 32]) -> bool
    ensures { result ≡ pointwise nat_eq a.now b.now }
{
    same_word(a, b, 0) & same_word(a, b, 8) & same_word(a, b, 16) & same_word(a, b, 24)
}

/// Whether the eight bytes at this place are the same.
fn same_word(a: &[u8], b: &[u8], at: usize) -> bool
    requires { (at + 8 ≤ length a.now) × (at + 8 ≤ length b.now) }
    ensures { MatchBool result ((k : ℕ) → k < 8 → slice_index a.now (at + k) ≡ slice_index b.now (at + k)) (a.now ≢ b.now) }
{
    word(a, at) == word(b, at)
}

/// The eight bytes at this place as a number, the least significant byte first: one load.
fn word(bytes: &[u8], at: usize) -> u64
    requires { at + 8 ≤ length bytes.now }
    ensures { result ≡ little_endian bytes.now at }
{
    u64::from_le_bytes([
        bytes[at],
        bytes[at + 1],
        bytes[at + 2],
        bytes[at + 3],
        bytes[at + 4],
        bytes[at + 5],
        bytes[at + 6],
        bytes[at + 7],
    ])
}
