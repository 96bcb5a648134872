//! Readers and writers that say why they failed.
ghost use Rattle.std.specs.Prelude.{◌≡◌, ◌↔◌, ◌<◌, true, ℕ, List, Option, None, OnOk, OnErr};
ghost use Rattle.scp_device.specs.Device.{Fails};

use scp_device::below::types::Fault;
use scp_device::{ReportOut, ScriptIn};
use std::io::{self, ErrorKind};

/// A reader or a writer that says why it failed.
pub trait Cause {
    /// The reason of its last failure, in words.
    ghost cause: { Self → List ℕ };

    /// The reason of its last failure, in words.
    fn cause(&self) -> &'static str
        ensures { result.now ≡ cause self.now };
}

/// The words for this kind of failure.
fn words_of(kind: ErrorKind) -> &'static str {
    match kind {
        ErrorKind::NotFound => "there is no such file",
        ErrorKind::AlreadyExists => "it is there already",
        ErrorKind::PermissionDenied => "permission is denied",
        ErrorKind::IsADirectory => "it is a directory",
        ErrorKind::NotADirectory => "a part of its path is no directory",
        ErrorKind::BrokenPipe => "the pipe is closed",
        ErrorKind::StorageFull | ErrorKind::QuotaExceeded => "the disk is full",
        ErrorKind::WriteZero => "it takes no more",
        ErrorKind::InvalidFilename | ErrorKind::InvalidInput => "no file can have this name",
        ErrorKind::OutOfMemory => "memory ran out",
        _ => "a read or a write failed",
    }
}

/// The process's input or output, or an open file.
#[derive(Drop)]
pub struct Stream<R> {
    handle: R,
    failures: u64,
    why: &'static str,
}

impl<R> Stream<R> {
    /// The stream of this handle, which hasn't failed yet.
    pub fn new(handle: R) -> Self
        ensures handle { result.handle ≡ handle }
        ensures failures { result.failures ≡ 0 }
    {
        Stream {
            handle,
            failures: 0,
            why: "nothing failed",
        }
    }

    /// Whether a call has failed.
    pub fn has_failed(&self) -> bool
        ensures { (result ≡ true) ↔ (0 < self.now.failures) }
    {
        self.failures > 0
    }

    fn fail(&mut self, kind: ErrorKind) -> Fault
        ensures fault { result ≡ Fault.Device }
        ensures handle { self.new.handle ≡ self.old.handle }
        ensures raised { Fails self.old.failures self.new.failures }
    {
        self.failures = self.failures.saturating_add(1);
        self.why = words_of(kind);
        Fault::Device
    }
}

impl<R> Cause for Stream<R> {
    ghost cause = { λ s. s.why.now };

    fn cause(&self) -> &'static str {
        self.why
    }
}

impl<R: io::Read + Drop> ScriptIn for Stream<R> {
    ghost left = { λ s. R.remaining s.handle };

    ghost failures = { λ s. s.failures };

    #[tactic(auto, using(crate::proofs::StreamLemmas::loses_consumed, crate::proofs::StreamLemmas::has_ended, crate::proofs::StreamLemmas::stays_kept))]
    fn read(&mut self, buffer: &mut [u8]) -> Result<usize, Fault> {
        match self.handle.read(buffer) {
            Ok(count) => Ok(count),
            Err(error) => Err(self.fail(error.kind())),
        }
    }
}

impl<R: io::Write + Drop> ReportOut for Stream<R> {
    ghost written = { λ s. R.contents s.handle };

    ghost failures = { λ s. s.failures };

    #[tactic(auto, using(crate::proofs::StreamLemmas::gains_appended, crate::proofs::StreamLemmas::stays_unwritten, crate::proofs::StreamLemmas::stays_kept))]
    fn write(&mut self, bytes: &[u8]) -> Result<usize, Fault> {
        match self.handle.write(bytes) {
            Ok(count) if count > 0 => Ok(count),
            Ok(_) => Err(self.fail(ErrorKind::WriteZero)),
            Err(error) => Err(self.fail(error.kind())),
        }
    }
}

/// A file that couldn't be opened. It is a reader that fails at each call.
#[derive(Drop)]
pub struct Unopened {
    why: &'static str,
    failures: u64,
}

impl Unopened {
    /// The file whose opening failed for this reason.
    pub fn new(kind: ErrorKind) -> Self
        ensures { result.failures ≡ 0 }
    {
        Unopened {
            why: words_of(kind),
            failures: 0,
        }
    }
}

impl Cause for Unopened {
    ghost cause = { λ s. s.why.now };

    fn cause(&self) -> &'static str {
        self.why
    }
}

impl ScriptIn for Unopened {
    ghost left = { λ _. None };

    ghost failures = { λ s. s.failures };

    fn read(&mut self, _buffer: &mut [u8]) -> Result<usize, Fault> {
        self.failures = self.failures.saturating_add(1);
        Err(Fault::Device)
    }
}
