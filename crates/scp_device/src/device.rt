//! Where a script is read from and where a text is written, with readers and writers in memory.
ghost use Rattle.std.specs.Prelude.{◌≡◌, ◌≢◌, ◌⊎◌, ◌≤◌, ◌<◌, ◌+◌, ℕ, List, [], Option, Some, None, take, drop, length, OnOk, OnErr, IfOk, IfErr, IfSome, IsErrOf, Ok};
ghost use Rattle.scp_device.specs.Device.{Loses, HasEnded, Gains, GainsPart, Stays, Fails, IsReadFault};

use scp_types::{Fault, SCRIPT_LIMIT};
use std::alloc::Global;
use std::io;

/// Where a script comes from.
pub trait ScriptIn {
    /// What is left to be read, where that is known.
    ghost left: { Self → Option (List ℕ) };
    /// How often it has failed.
    ghost failures: { Self → ℕ };

    /// Reads bytes into the front of the buffer, and answers how many: at least one, or 0 at the end. The one refusal is
    /// `Fault::Device`.
    fn read(&mut self, buffer: &mut [u8]) -> Result<usize, Fault>
        requires { 0 < length buffer.old }
        ensures count { IfOk result (λ n. n ≤ length buffer.old) }
        ensures bytes { IfOk result (λ n. Loses (left self.old) (take n buffer.new) (left self.new)) }
        ensures end { result ≡ Ok 0 → HasEnded (left self.old) }
        ensures stays { OnErr result (Stays (left self.old) (left self.new)) }
        ensures cause { IfErr result (λ fault. fault ≡ Fault.Device) }
        ensures raised { OnErr result (Fails (failures self.old) (failures self.new)) }
        ensures kept { OnOk result (failures self.new ≡ failures self.old) };
}

/// Where a text is written.
pub trait ReportOut {
    /// What was written so far, where that is known.
    ghost written: { Self → Option (List ℕ) };
    /// How often it has failed.
    ghost failures: { Self → ℕ };

    /// Writes some of the bytes, from the first on, and answers how many: at least one. The one refusal is `Fault::Device`.
    fn write(&mut self, bytes: &[u8]) -> Result<usize, Fault>
        requires { 0 < length bytes.now }
        ensures some { IfOk result (λ n. 0 < n) }
        ensures count { IfOk result (λ n. n ≤ length bytes.now) }
        ensures bytes { IfOk result (λ n. Gains (written self.old) (take n bytes.now) (written self.new)) }
        ensures stays { OnErr result (Stays (written self.old) (written self.new)) }
        ensures cause { IfErr result (λ fault. fault ≡ Fault.Device) }
        ensures raised { OnErr result (Fails (failures self.old) (failures self.new)) }
        ensures kept { OnOk result (failures self.new ≡ failures self.old) };
}

/// A script in memory.
#[derive(Drop)]
pub struct MemoryIn<'a> {
    left: &'a [u8],
}

impl<'a> MemoryIn<'a> {
    /// A script of this text.
    pub fn new(text: &'a [u8]) -> Self
        ensures { result.left.now ≡ text.entry.now }
    {
        MemoryIn { left: text }
    }
}

impl ScriptIn for MemoryIn<'_> {
    ghost left = { λ s. Some s.left.now };

    ghost failures = { λ _. 0 };

    fn read(&mut self, buffer: &mut [u8]) -> Result<usize, Fault> {
        let count = self.left.len().min(buffer.len());
        let (front, rest) = self.left.split_at(count);
        buffer[..count].copy_from_slice(front);
        self.left = rest;
        Ok(count)
    }
}

/// A text in memory. Want of memory is its failure.
#[derive(Drop)]
pub struct MemoryOut {
    text: Vec<u8>,
    failures: u64,
}

impl MemoryOut {
    /// A writer that adds to this text.
    pub fn new(text: Vec<u8>) -> Self
        ensures text { result.text ≡ text }
        ensures failures { result.failures ≡ 0 }
    {
        MemoryOut { text, failures: 0 }
    }

    /// The text, with all that was written to it.
    pub fn text(&self) -> &[u8]
        ensures { result.now ≡ self.now.text.items }
    {
        self.text.as_slice()
    }
}

impl ReportOut for MemoryOut {
    ghost written = { λ s. Some s.text.items };

    ghost failures = { λ s. s.failures };

    fn write(&mut self, bytes: &[u8]) -> Result<usize, Fault> {
        if self.text.extend_from_slice(bytes).is_err() {
            self.failures = self.failures.saturating_add(1);
            return Err(Fault::Device);
        }
        Ok(bytes.len())
    }
}

/// The process's input and output.
#[derive(Drop)]
pub struct Process<R> {
    handle: R,
    failures: u64,
}

impl<R> Process<R> {
    /// The input or output of this handle, which hasn't failed yet.
    pub fn new(handle: R) -> Self
        ensures handle { result.handle ≡ handle }
        ensures failures { result.failures ≡ 0 }
    {
        Process {
            handle,
            failures: 0,
        }
    }

    fn fail(&mut self) -> Fault
        ensures fault { result ≡ Fault.Device }
        ensures handle { self.new.handle ≡ self.old.handle }
        ensures raised { Fails self.old.failures self.new.failures }
    {
        self.failures = self.failures.saturating_add(1);
        Fault::Device
    }
}

impl<R: io::Read + Drop> ScriptIn for Process<R> {
    ghost left = { λ s. R.remaining s.handle };

    ghost failures = { λ s. s.failures };

    #[tactic(auto, using(crate::proofs::DeviceLemmas::loses_consumed, crate::proofs::DeviceLemmas::has_ended, crate::proofs::DeviceLemmas::stays_kept))]
    fn read(&mut self, buffer: &mut [u8]) -> Result<usize, Fault> {
        match self.handle.read(buffer) {
            Ok(count) => Ok(count),
            Err(_) => Err(self.fail()),
        }
    }
}

impl<R: io::Write + Drop> ReportOut for Process<R> {
    ghost written = { λ s. R.contents s.handle };

    ghost failures = { λ s. s.failures };

    #[tactic(auto, using(crate::proofs::DeviceLemmas::gains_appended, crate::proofs::DeviceLemmas::stays_unwritten, crate::proofs::DeviceLemmas::stays_kept))]
    fn write(&mut self, bytes: &[u8]) -> Result<usize, Fault> {
        match self.handle.write(bytes) {
            Ok(count) if count > 0 => Ok(count),
            _ => Err(self.fail()),
        }
    }
}

/// Reads all there is, at most 1,048,576 bytes: a byte more is `Fault::TooLong`. Else refused by `Fault::Device`, where the reader
/// failed, or by `Fault::NoMemory`, before anything is read: the memory for the longest script is taken first.
pub fn read_script<R: ScriptIn>(alloc: Global, reader: &mut R) -> Result<Vec<u8>, Fault>
    ensures whole { IfOk result (λ text. IfSome (R.left reader.old) (λ all. text.items ≡ all)) }
    ensures limit { IfOk result (λ text. length text.items ≤ SCRIPT_LIMIT) }
    ensures too_long { IsErrOf result Fault.TooLong → IfSome (R.left reader.old) (λ all. SCRIPT_LIMIT < length all) }
    ensures device { IsErrOf result Fault.Device → Fails (R.failures reader.old) (R.failures reader.new) }
    ensures cause { IfErr result IsReadFault }
    // Want of memory is told only where nothing was read.
    ensures memory_first { IsErrOf result Fault.NoMemory → reader.new ≡ reader.old }
    ensures kept { OnOk result (R.failures reader.new ≡ R.failures reader.old) }
    // A read that failed is never told as anything else.
    ensures hidden { IfErr result (λ fault. fault ≢ Fault.Device → R.failures reader.new ≡ R.failures reader.old) }
{
    let mut text = Vec::with_capacity(alloc, SCRIPT_LIMIT)?;
    let mut buffer = [0u8; 4096];
    loop {
        let count = reader.read(&mut buffer)?;
        if count == 0 {
            return Ok(text);
        }
        if count > SCRIPT_LIMIT - text.len() {
            return Err(Fault::TooLong);
        }
        text.extend_from_slice(&buffer[..count])?;
    }
}

/// Writes the whole text. The one refusal is `Fault::Device`, where the writer failed; what was written then is a part of the
/// text, from its first byte on. A writer that failed isn't asked again.
pub fn write_text<W: ReportOut>(writer: &mut W, text: &str) -> Result<(), Fault>
    ensures whole { OnOk result (Gains (W.written writer.old) text.now (W.written writer.new)) }
    ensures cause { IfErr result (λ fault. fault ≡ Fault.Device) }
    ensures raised { OnErr result (Fails (W.failures writer.old) (W.failures writer.new)) }
    ensures kept { OnOk result (W.failures writer.new ≡ W.failures writer.old) }
    ensures part { OnErr result (GainsPart (W.written writer.old) text.now (W.written writer.new)) }
{
    let mut rest = text.as_bytes();
    while !rest.is_empty() {
        let count = writer.write(rest)?;
        rest = &rest[count..];
    }
    Ok(())
}

/// A reader or a writer, for tests, that does a given number of calls and fails at each later one.
#[derive(Drop)]
pub struct FailsAt<D> {
    device: D,
    calls_left: u64,
    failures: u64,
}

impl<D> FailsAt<D> {
    /// It does this many calls, and fails at each later one.
    pub fn new(device: D, calls: u64) -> Self
        ensures device { result.device ≡ device }
        ensures calls { result.calls_left ≡ calls }
        ensures failures { result.failures ≡ 0 }
    {
        FailsAt {
            device,
            calls_left: calls,
            failures: 0,
        }
    }

    /// The device, and how often it failed.
    pub fn into_parts(self) -> (D, u64)
        ensures { result ≡ (self.device, self.failures) }
    {
        (self.device, self.failures)
    }

    fn count(&mut self) -> Result<(), Fault>
        ensures ok { OnOk result (self.new.failures ≡ self.old.failures) }
        ensures same { self.new.device ≡ self.old.device }
        ensures counted { OnOk result (self.old.calls_left ≡ self.new.calls_left + 1) }
        ensures spent { OnErr result ((self.old.calls_left ≡ 0) × (self.new.calls_left ≡ 0)) }
        ensures raised { OnErr result (Fails self.old.failures self.new.failures) }
        ensures cause { IfErr result (λ fault. fault ≡ Fault.Device) }
    {
        if self.calls_left == 0 {
            self.failures = self.failures.saturating_add(1);
            return Err(Fault::Device);
        }
        self.calls_left -= 1;
        Ok(())
    }
}

impl ScriptIn for FailsAt<MemoryIn<'_>> {
    ghost left = { λ s. Some s.device.left.now };

    ghost failures = { λ s. s.failures };

    /// Reads as the memory below does, and fails from the call on that it was told: by `Device`, with nothing read.
    fn read(&mut self, buffer: &mut [u8]) -> Result<usize, Fault>
        requires { 0 < length buffer.old }
        ensures count { IfOk result (λ n. n ≤ length buffer.old) }
        ensures bytes { IfOk result (λ n. Loses (Some self.old.device.left.now) (take n buffer.new) (Some self.new.device.left.now)) }
        ensures end { result ≡ Ok 0 → HasEnded (Some self.old.device.left.now) }
        ensures stays { OnErr result (Stays (Some self.old.device.left.now) (Some self.new.device.left.now)) }
        ensures cause { IfErr result (λ fault. fault ≡ Fault.Device) }
        ensures raised { OnErr result (Fails self.old.failures self.new.failures) }
        ensures kept { OnOk result (self.new.failures ≡ self.old.failures) }
        ensures counted { OnOk result (self.old.calls_left ≡ self.new.calls_left + 1) }
        ensures spent { OnErr result ((self.old.calls_left ≡ 0) × (self.new.calls_left ≡ 0)) }
    {
        self.count()?;
        self.device.read(buffer)
    }
}

impl ReportOut for FailsAt<MemoryOut> {
    ghost written = { λ s. Some s.device.text.items };

    ghost failures = { λ s. s.failures + s.device.failures };

    /// Writes as the memory below does, and fails from the call on that it was told: by `Device`, with nothing written.
    fn write(&mut self, bytes: &[u8]) -> Result<usize, Fault>
        requires { 0 < length bytes.now }
        ensures some { IfOk result (λ n. 0 < n) }
        ensures count { IfOk result (λ n. n ≤ length bytes.now) }
        ensures bytes { IfOk result (λ n. Gains (Some self.old.device.text.items) (take n bytes.now) (Some self.new.device.text.items)) }
        ensures stays { OnErr result (Stays (Some self.old.device.text.items) (Some self.new.device.text.items)) }
        ensures cause { IfErr result (λ fault. fault ≡ Fault.Device) }
        ensures raised { OnErr result (Fails (self.old.failures + self.old.device.failures) (self.new.failures + self.new.device.failures)) }
        ensures kept { OnOk result (self.new.failures + self.new.device.failures ≡ self.old.failures + self.old.device.failures) }
        ensures counted { OnOk result (self.old.calls_left ≡ self.new.calls_left + 1) }
        ensures spent { OnErr result (self.old.calls_left ≡ 0 → self.new.calls_left ≡ 0) }
        // It fails at no earlier call than it was told, unless the device failed.
        ensures early { OnErr result (((self.old.calls_left ≡ 0) × (self.new.device ≡ self.old.device)) ⊎ Fails self.old.device.failures self.new.device.failures) }
    {
        self.count()?;
        self.device.write(bytes)
    }
}
