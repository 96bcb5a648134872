//! A log in a file.
ghost use Rattle.std.specs.Prelude.{◌≡◌, false};
ghost use Rattle.scp_device.specs.Device.{Fails};
ghost use Rattle.scp_live_log.specs.Disk.{HasCause};

use crate::disk::EventLog;
use scp_device::below::types::Fault;
use std::alloc::Global;
use std::fs::File;
use std::io::{ErrorKind, Read, Seek, SeekFrom, Write};
use std::os::unix::fs::MetadataExt;
use std::rt::Files;
use std::{fs, io};

/// A log in a file that is open for reading and appending. No clause says anything about its bytes. What fails is reported to people, too.
/// At each sync the path is still the one of this file, and the file is as long as what was read and written of it; else it was moved.
#[derive(Drop)]
pub struct FileLog<'a, R> {
    system: &'a R,
    path: String,
    file: File,
    length: u64,
    moved: bool,
    failures: u64,
}

impl<'a, R: Files<File = File> + Eprint> FileLog<'a, R> {
    /// The log in the open file with this path. It hasn't failed yet.
    pub fn new(system: &'a R, path: String, file: File) -> FileLog<'a, R>
        ensures failures { result.failures ≡ 0 }
        ensures moved { result.moved ≡ false }
    {
        FileLog {
            system,
            path,
            file,
            length: 0,
            moved: false,
            failures: 0,
        }
    }

    /// How many times a call has failed.
    pub fn failures(&self) -> u64
        ensures { result ≡ self.now.failures }
    {
        self.failures
    }

    fn fail(&mut self) -> Fault
        ensures fault { result ≡ Fault.Device }
        ensures raised { Fails self.old.failures self.new.failures }
    {
        self.failures = self.failures.saturating_add(1);
        Fault::Device
    }

    /// What a call came to. Its failure is reported to people in the system's words.
    fn done<T>(&mut self, came: io::Result<T>) -> Result<T, Fault>
        ensures { HasCause self.old.failures self.new.failures result }
    {
        match came {
            Ok(value) => Ok(value),
            Err(error) if error.kind() == ErrorKind::OutOfMemory => Err(Fault::NoMemory),
            Err(error) => {
                let _ = eprintln!(self.system; "{}: {error}", self.path);
                Err(self.fail())
            }
        }
    }

    /// Reads all bytes from the first one on.
    fn read_all(&mut self, alloc: Global) -> io::Result<Vec<u8>>
        ensures { self.new.failures ≡ self.old.failures }
    {
        let mut bytes = Vec::new(alloc);
        self.file.seek(SeekFrom::Start(0))?;
        self.file.read_to_end(&mut bytes)?;
        self.length = bytes.len() as u64;
        Ok(bytes)
    }

    fn add(&mut self, bytes: &[u8]) -> io::Result<()>
        ensures { self.new.failures ≡ self.old.failures }
    {
        self.file.write_all(bytes)?;
        self.length = self.length.saturating_add(bytes.len() as u64);
        Ok(())
    }

    fn set_length(&mut self, length: u64) -> io::Result<()>
        ensures { self.new.failures ≡ self.old.failures }
    {
        self.file.set_len(length)?;
        self.length = length;
        Ok(())
    }

    /// Whether the path is that of this file, and the file is as long as what was read and written of it.
    fn is_there(&self) -> io::Result<bool> {
        let found = match fs::metadata(self.system, self.path.as_str()) {
            Ok(found) => found,
            Err(error) if error.kind() == ErrorKind::NotFound => return Ok(false),
            Err(error) => return Err(error),
        };
        let own = self.file.metadata()?;
        Ok(found.dev() == own.dev() && found.ino() == own.ino() && own.len() == self.length)
    }

    /// Syncs the file, and then looks whether it is still there.
    fn sync_there(&self) -> io::Result<bool> {
        self.file.sync_data()?;
        self.is_there()
    }
}

impl<R: Files<File = File> + Eprint> EventLog for FileLog<'_, R> {
    ghost holds = { λ _ _. ⊥ };

    ghost may_leave = { λ _ _. ⊥ };

    ghost moment = { λ _. 0 };

    ghost left_since = { λ _ _ _. ⊥ };

    ghost faults = { λ f. f.failures };

    ghost moved = { λ f. f.moved };

    ghost counts_now = { λ _ _ _ _ left. left };

    ghost only_now = { λ _ _ left. left };

    fn was_moved(&self) -> bool {
        self.moved
    }

    fn tell_torn(&self, bytes: usize, entries: usize) {
        if bytes > 0 {
            let _ = eprintln!(self.system;
                "{}: its end is torn: {bytes} bytes were cut off behind {entries} events",
                self.path
            );
        }
    }

    fn read(&mut self, alloc: Global) -> Result<Vec<u8>, Fault> {
        let came = self.read_all(alloc);
        self.done(came)
    }

    fn append(&mut self, bytes: &[u8]) -> Result<(), Fault> {
        let came = self.add(bytes);
        self.done(came)
    }

    fn cut(&mut self, length: usize) -> Result<(), Fault> {
        let came = self.set_length(length as u64);
        self.done(came)
    }

    fn sync(&mut self) -> Result<(), Fault> {
        let came = self.sync_there();
        if self.done(came)? {
            return Ok(());
        }
        self.moved = true;
        let _ = eprintln!(self.system;
            "{}: it was moved, cut or written by somebody else",
            self.path
        );
        Err(self.fail())
    }

    // (a file that has no folder of its own can't be replaced in one step)
    fn replace(&mut self, _bytes: &[u8]) -> Result<(), Fault> {
        Err(self.fail())
    }
}
