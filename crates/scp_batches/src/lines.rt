//! The lines of an input, read in batches.
ghost use Rattle.std.specs.Prelude.{◌≡◌, ◌≢◌, ◌≤◌, ◌<◌, ◌+◌, ◌⊎◌, ◌++◌, ◌∷◌, [], Some, length, take, drop, OnOk, IfOk, IfErr, IfSome, IfNone, IsErrOf};
ghost use Rattle.scp_live_log.specs.Log.{IsLine};
ghost use Rattle.scp_live_log.specs.scp_device.specs.Device.{HasEnded, Fails};
ghost use Rattle.scp_batches.specs.Lines.{front_of, Gives, GivesMore, IsRead};
ghost use Rattle.scp_batches.specs.inside.Held.{IsHeld, EndsAt};

use crate::line::{Line, add};
use scp_live_log::below::device::ScriptIn;
use scp_live_log::below::types::Fault;
use std::alloc::{AllocError, Global};
use std::marker::Model;
use std::mem;

/// The most bytes of one read.
const READ_LIMIT: usize = 65_536;

/// Where the first line ends, if it ends.
fn line_end(bytes: &[u8]) -> Option<usize>
    ensures found { IfSome result (λ n. EndsAt n bytes.now) }
    ensures none { IfNone result (IsLine bytes.now) }
{
    bytes.iter().position(|byte| *byte == b'\n')
}

/// The line that ends after these bytes. Its earlier bytes are held.
fn end_line(alloc: Global, held: &mut Vec<u8>, bytes: &[u8]) -> Result<Line, AllocError>
    requires held { IsHeld held.old.items }
    requires line { IsLine bytes.now }
    ensures line { IfOk result (λ line. line ≡ front_of (held.old.items ++ bytes.now)) }
    ensures new { OnOk result (held.new.items ≡ []) }
    ensures held { IsHeld held.new.items }
{
    add(held, bytes)?;
    let front = mem::replace(held, Vec::new(alloc));
    Ok(Line::new(front))
}

/// The lines that end within these bytes.
fn feed(alloc: Global, held: &mut Vec<u8>, bytes: &[u8]) -> Result<Vec<Line>, AllocError>
    requires { IsHeld held.old.items }
    ensures gives { IfOk result (λ lines. GivesMore held.old.items bytes.now lines.items held.new.items) }
    ensures held { IsHeld held.new.items }
{
    let mut lines = Vec::new(alloc);
    let mut rest = bytes;
    while let Some(end) = line_end(rest) {
        let (front, behind) = rest.split_at(end);
        let line = end_line(alloc, held, front)?;
        lines.push(line)?;
        rest = &behind[1..];
    }
    add(held, rest)?;
    Ok(lines)
}

/// What was read of an input so far: the bytes of the line that hasn't ended are held.
#[derive(Drop)]
pub struct Lines {
    alloc: Global,
    held: Vec<u8>,
}

impl Model for Lines {
    ghost use Rattle.std.specs.Prelude.{ℕ, List};
    ghost use Rattle.scp_batches.specs.inside.Held.{IsHeld};

    ghost Value = { List ℕ };

    ghost view = { λ l. l.held.items };

    ghost invariant = { λ l. IsHeld l.held.items };
}

impl Lines {
    /// Nothing was read yet.
    pub fn new(alloc: Global) -> Lines
        ensures { Gives [] [] result }
    {
        Lines {
            alloc,
            held: Vec::new(alloc),
        }
    }

    /// Reads once. Returns the lines that end within the bytes that were read, which may be none, or `None` at the end of the input.
    /// Refused by `Fault::Device` if the reader failed, or by `Fault::NoMemory`. After a refusal, it isn't known which lines come next.
    pub fn next<R: ScriptIn>(&mut self, reader: &mut R) -> Result<Option<Vec<Line>>, Fault>
        ensures read { IfOk result (λ next. IfSome next (λ lines. IsRead (R.left reader.old) self.old lines.items self.new (R.left reader.new))) }
        ensures ended { IfOk result (λ next. IfNone next (HasEnded (R.left reader.old) × (self.new ≡ self.old))) }
        ensures device { IsErrOf result Fault.Device → Fails (R.failures reader.old) (R.failures reader.new) }
        ensures cause { IfErr result (λ fault. (fault ≡ Fault.Device) ⊎ (fault ≡ Fault.NoMemory)) }
        ensures kept { OnOk result (R.failures reader.new ≡ R.failures reader.old) }
        // A failed read is always reported as `Fault::Device`.
        ensures hidden { IfErr result (λ fault. fault ≢ Fault.Device → R.failures reader.new ≡ R.failures reader.old) }
        // Memory runs out only where something was read.
        ensures memory { IsErrOf result Fault.NoMemory → R.left reader.old ≢ Some [] }
    {
        let mut buffer = [0u8; READ_LIMIT];
        let count = reader.read(&mut buffer)?;
        if count == 0 {
            return Ok(None);
        }
        let lines = feed(self.alloc, &mut self.held, &buffer[..count])?;
        Ok(Some(lines))
    }
}
