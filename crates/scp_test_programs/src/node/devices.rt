//! A node over devices in memory that refuse calls.
ghost use Rattle.std.specs.Prelude.{◌≡◌, false, None};
ghost use Rattle.scp_live_process.specs.scp_live_log.specs.Disk.{HasCause};

use scp_live_process::below::device::{FailsAt, MemoryIn, MemoryOut, ScriptIn};
use scp_live_process::below::live_log::{EventLog, MemoryLog, Wanted};
use scp_live_process::below::types::Fault;
use scp_live_process::run_node;
use std::alloc::Global;

/// The length of a log's first line.
const FIRST: usize = 76;

/// Room for each text here, so that a writer in memory asks for none.
const ROOM: usize = 8_192;

/// A reader that gives at most so many bytes at a time.
#[derive(Drop)]
struct Slowly<R> {
    reader: R,
    most: usize,
}

impl<R: ScriptIn> ScriptIn for Slowly<R> {
    ghost left = { λ _. None };

    ghost failures = { λ s. R.failures s.reader };

    fn read(&mut self, buffer: &mut [u8]) -> Result<usize, Fault> {
        let most = self.most.max(1).min(buffer.len());
        self.reader.read(&mut buffer[..most])
    }
}

/// A log that does so many calls and refuses each later one. What it keeps outlives it.
#[derive(Drop)]
struct Refuses<'a> {
    log: &'a mut MemoryLog,
    calls_left: u64,
    failures: u64,
}

impl Refuses<'_> {
    fn count(&mut self) -> Result<(), Fault>
        ensures { HasCause self.old.failures self.new.failures result }
    {
        if self.calls_left == 0 {
            self.failures = self.failures.saturating_add(1);
            return Err(Fault::Device);
        }
        self.calls_left -= 1;
        Ok(())
    }
}

impl EventLog for Refuses<'_> {
    ghost holds = { λ _ _. ⊥ };

    ghost may_leave = { λ _ _. ⊥ };

    ghost moment = { λ _. 0 };

    ghost left_since = { λ _ _ _. ⊥ };

    ghost faults = { λ l. l.failures };

    ghost moved = { λ _. false };

    ghost counts_now = { λ _ _ _ _ left. left };

    ghost only_now = { λ _ _ left. left };

    fn was_moved(&self) -> bool {
        false
    }

    fn tell_torn(&self, _bytes: usize, _entries: usize) {}

    fn read(&mut self, alloc: Global) -> Result<Vec<u8>, Fault> {
        self.count()?;
        self.log.read(alloc)
    }

    /// A refused call adds half of the bytes.
    fn append(&mut self, bytes: &[u8]) -> Result<(), Fault> {
        match self.count() {
            Ok(()) => self.log.append(bytes),
            Err(fault) => {
                let _torn = self.log.append(&bytes[..bytes.len() / 2]);
                Err(fault)
            }
        }
    }

    fn cut(&mut self, length: usize) -> Result<(), Fault> {
        self.count()?;
        self.log.cut(length)
    }

    fn sync(&mut self) -> Result<(), Fault> {
        self.count()?;
        self.log.sync()
    }

    fn replace(&mut self, bytes: &[u8]) -> Result<(), Fault> {
        self.count()?;
        self.log.replace(bytes)
    }
}

/// What a node reads, writes or keeps by.
#[derive(Clone, Copy, PartialEq, Eq, Debug)]
pub enum Device {
    Reader,
    Writer,
    Log,
}

/// What a node is given: its log, an input of which a read gives at most so many bytes, and a device that refuses each call behind so many.
#[derive(Clone, Copy)]
pub struct Given<'a> {
    pub config: &'a [u8],
    pub log: &'a [u8],
    pub input: &'a [u8],
    pub most: usize,
    pub refused: Option<(Device, u64)>,
}

/// A new alice, of whose calls none is refused.
pub const ALICE: Given<'static> = Given {
    config: b"NODE = \"alice\"\nPEERS = [\"bob\"]\n[NODES]\nalice = 1\nbob = 2\n[QUORUM_SET]\nTHRESHOLD = 2\nVALIDATORS = [\"alice\", \"bob\"]\n",
    log: b"",
    input: b"",
    most: 1,
    refused: None,
};

/// How many calls a device does.
fn calls_of(given: &Given<'_>, device: Device) -> u64 {
    match given.refused {
        Some((refused, calls)) if refused == device => calls,
        _ => u64::MAX,
    }
}

/// Which log is wanted: a new one, where there is no whole first line.
fn wanted_of(given: &Given<'_>) -> Wanted {
    if given.log.len() < FIRST {
        return Wanted::New;
    }
    Wanted::AtLeast(0)
}

/// What came of a run: its status, what was written, and the log.
#[derive(Drop)]
pub struct Ran {
    pub status: u8,
    pub written: MemoryOut,
    pub log: MemoryLog,
}

/// Runs a node.
pub fn played(alloc: Global, given: &Given<'_>) -> Result<Ran, Fault> {
    let mut log = MemoryLog::new(alloc, given.log.to_vec(alloc)?);
    let text = Vec::with_capacity(alloc, ROOM)?;
    let mut writer = FailsAt::new(MemoryOut::new(text), calls_of(given, Device::Writer));
    let mut reader = Slowly {
        reader: FailsAt::new(MemoryIn::new(given.input), calls_of(given, Device::Reader)),
        most: given.most,
    };
    let refuses = Refuses {
        log: &mut log,
        calls_left: calls_of(given, Device::Log),
        failures: 0,
    };
    let wanted = wanted_of(given);
    let status = run_node(
        alloc,
        given.config,
        refuses,
        wanted,
        &mut reader,
        &mut writer,
    );
    let (written, _failures) = writer.into_parts();
    Ok(Ran {
        status,
        written,
        log,
    })
}

/// Runs a node that has memory. Want of it is the one refusal.
pub fn run(alloc: Global, given: &Given<'_>) -> Result<Ran, Fault> {
    let ran = played(alloc, given)?;
    let text = ran.written.text();
    // (a writer may be refused in the middle of that line)
    if text.ends_with(b"fault 1\n") || text.ends_with(b"fault 1") || text.ends_with(b"fault ") {
        return Err(Fault::NoMemory);
    }
    Ok(ran)
}

/// A new alice runs on this input.
pub fn whole(alloc: Global, input: &[u8], most: usize) -> Result<Ran, Fault> {
    run(
        alloc,
        &Given {
            input,
            most,
            ..ALICE
        },
    )
}
