//! Long inputs, and texts of bytes.
ghost use Rattle.std.specs.Prelude.{◌≡◌, ◌≢◌, ◌≤◌, ◌<◌, length, OnOk, OnErr, IfOk, IfErr, IfSome, IsErrOf};
ghost use Rattle.scp_device.specs.Device.{Gains, GainsPart, Fails, IsReadFault};

use scp_device::below::types::Fault;
use scp_device::{ReportOut, ScriptIn};
use std::alloc::Global;

/// The most bytes of a script or of messages that `bowls` reads: 16 MiB (this project's profile). In the fixed form a script has less.
pub const LONG_LIMIT: usize = 16_777_216;

/// Reads all there is, at most 16 MiB. Refused by `Fault::TooLong` if there is more, by `Fault::Device` if the reader failed, and by
/// `Fault::NoMemory`.
pub fn read_within<R: ScriptIn>(alloc: Global, reader: &mut R) -> Result<Vec<u8>, Fault>
    ensures whole { IfOk result (λ text. IfSome (R.left reader.old) (λ all. text.items ≡ all)) }
    ensures limit { IfOk result (λ text. length text.items ≤ LONG_LIMIT) }
    ensures too_long { IsErrOf result Fault.TooLong → IfSome (R.left reader.old) (λ all. LONG_LIMIT < length all) }
    ensures device { IsErrOf result Fault.Device → Fails (R.failures reader.old) (R.failures reader.new) }
    ensures cause { IfErr result IsReadFault }
    // A read that failed is reported only as `Device`.
    ensures hidden { IfErr result (λ fault. fault ≢ Fault.Device → R.failures reader.new ≡ R.failures reader.old) }
{
    let mut text = Vec::new(alloc);
    let mut buffer = [0u8; 4096];
    loop {
        let count = reader.read(&mut buffer)?;
        if count == 0 {
            return Ok(text);
        }
        if count > LONG_LIMIT - text.len() {
            return Err(Fault::TooLong);
        }
        text.extend_from_slice(&buffer[..count])?;
    }
}

/// Writes all of the bytes. The only refusal is `Fault::Device`, if the writer failed. Then a first part of the bytes was written, and the
/// writer isn't called again.
pub fn write_bytes<W: ReportOut>(writer: &mut W, bytes: &[u8]) -> Result<(), Fault>
    ensures whole { OnOk result (Gains (W.written writer.old) bytes.now (W.written writer.new)) }
    ensures cause { IfErr result (λ fault. fault ≡ Fault.Device) }
    ensures raised { OnErr result (Fails (W.failures writer.old) (W.failures writer.new)) }
    ensures kept { OnOk result (W.failures writer.new ≡ W.failures writer.old) }
    ensures part { OnErr result (GainsPart (W.written writer.old) bytes.now (W.written writer.new)) }
{
    let mut rest = bytes;
    while !rest.is_empty() {
        let count = writer.write(rest)?;
        rest = &rest[count..];
    }
    Ok(())
}
