//! A line of the input.
ghost use Rattle.std.specs.Prelude.{◌≡◌, ◌≤◌, ◌<◌, ◌+◌, ◌↔◌, ◌++◌, IsTrue, length, OnOk, OnErr};
ghost use Rattle.scp_live_log.specs.Log.{IsLine};
ghost use Rattle.scp_batches.specs.Lines.{front_of};

use std::alloc::AllocError;
use std::marker::Model;

/// The most bytes of a line, without its line end (this project's profile). It covers the longest message in digits, and the words
/// around it.
pub const LINE_LIMIT: usize = 262_144;

/// A line of the input, without its line end. If the line is longer than the limit, this is its first bytes: one more than the limit.
#[derive(Drop)]
pub struct Line {
    front: Vec<u8>,
}

impl Model for Line {
    ghost use Rattle.std.specs.Prelude.{ℕ, List};
    ghost use Rattle.scp_live_log.specs.Log.{IsLine};

    ghost Value = { List ℕ };

    ghost view = { λ l. l.front.items };

    ghost invariant = { λ l. IsLine l.front.items };
}

impl Line {
    /// The line with this front.
    pub(crate) fn new(front: Vec<u8>) -> Line
        requires { IsLine front.items }
        ensures { result ≡ front.items }
    {
        Line { front }
    }

    /// Whether the line is longer than the limit.
    pub fn is_too_long(&self) -> bool
        ensures { IsTrue result ↔ LINE_LIMIT < length self.now }
    {
        self.front.len() > LINE_LIMIT
    }

    /// The bytes of the line. Of a line that is too long, only the first bytes, one more than the limit.
    pub fn bytes(&self) -> &[u8]
        ensures bytes { result.now ≡ self.now }
        ensures line { IsLine result.now }
    {
        self.front.as_slice()
    }

    /// The bytes of the line. Of a line that is too long, only the first bytes, one more than the limit.
    pub fn into_bytes(self) -> Vec<u8>
        ensures bytes { result.items ≡ self }
        ensures line { IsLine result.items }
    {
        self.front
    }
}

/// Adds bytes to the front of a line, until it has one byte more than the limit.
pub(crate) fn add(front: &mut Vec<u8>, bytes: &[u8]) -> Result<(), AllocError>
    requires { length front.old.items ≤ LINE_LIMIT + 1 }
    ensures ok { OnOk result (front.new.items ≡ front_of (front.old.items ++ bytes.now)) }
    ensures err { OnErr result (front.new.items ≡ front.old.items) }
{
    let room = LINE_LIMIT + 1 - front.len();
    let count = room.min(bytes.len());
    front.extend_from_slice(&bytes[..count])?;
    Ok(())
}
