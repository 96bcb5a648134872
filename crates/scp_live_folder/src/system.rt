//! A folder on the system's disk.
ghost use Rattle.std.specs.Prelude.{◌≡◌};
ghost use Rattle.scp_live_log.specs.scp_device.specs.Device.{Fails};
ghost use Rattle.scp_live_log.specs.Disk.{HasCause};

use crate::folder::Folder;
use scp_live_log::below::types::Fault;
use std::alloc::Global;
use std::fs::{File, OpenOptions};
use std::io::{ErrorKind, Read, Seek, SeekFrom, Write};
use std::os::unix::fs::MetadataExt;
use std::rt::Files;
use std::{fs, io};

/// The files of a folder. Nobody else uses them while `lock` is open and has its name.
#[derive(Drop)]
struct Opened<'a, R> {
    system: &'a R,
    alloc: Global,
    path: String,
    lock: File,
    folder: File,
    now: File,
    next: Option<File>,
    /// How long `now` is, by what was read and written of it, and `next`, where it is open.
    length: u64,
    next_length: u64,
    /// Whether bytes of `now`, bytes of `next`, or names were changed since the last sync.
    now_changed: bool,
    next_changed: bool,
    names_changed: bool,
}

/// The path of a file of the folder.
fn path_in(alloc: Global, folder: &str, name: &str) -> io::Result<String> {
    Ok(format!(in alloc; "{folder}/{name}")?)
}

/// Opens a file to be read, and written at its end. It is made if it isn't there.
fn open_or_make<R: Files<File = File>>(system: &R, path: &str) -> io::Result<File> {
    OpenOptions::new()
        .read(true)
        .append(true)
        .create(true)
        .open(system, path)
}

impl<R: Files<File = File> + Eprint> Opened<'_, R> {
    /// The path of this file.
    fn path_of(&self, name: &str) -> io::Result<String> {
        path_in(self.alloc, self.path.as_str(), name)
    }

    /// The path of the log of this ended epoch.
    fn past(&self, epoch: u64) -> io::Result<String> {
        Ok(format!(in self.alloc; "{}/past-{epoch:06}", self.path)?)
    }

    fn read(&mut self, alloc: Global) -> io::Result<Vec<u8>> {
        let mut bytes = Vec::new(alloc);
        self.now.seek(SeekFrom::Start(0))?;
        self.now.read_to_end(&mut bytes)?;
        self.length = bytes.len() as u64;
        Ok(bytes)
    }

    fn append(&mut self, bytes: &[u8]) -> io::Result<()> {
        self.now_changed = true;
        self.now.write_all(bytes)?;
        self.length = self.length.saturating_add(bytes.len() as u64);
        Ok(())
    }

    fn cut(&mut self, length: usize) -> io::Result<()> {
        self.now_changed = true;
        self.now.set_len(length as u64)?;
        self.length = length as u64;
        Ok(())
    }

    fn write_next(&mut self, bytes: &[u8]) -> io::Result<()> {
        let path = self.path_of("next")?;
        let mut file = open_or_make(self.system, path.as_str())?;
        self.next_changed = true;
        self.names_changed = true;
        file.set_len(0)?;
        file.write_all(bytes)?;
        self.next_length = bytes.len() as u64;
        self.next = Some(file);
        Ok(())
    }

    fn remove_next(&mut self) -> io::Result<()> {
        let path = self.path_of("next")?;
        self.next = None;
        self.names_changed = true;
        match fs::remove_file(self.system, path.as_str()) {
            Err(error) if error.kind() == ErrorKind::NotFound => Ok(()),
            came => came,
        }
    }

    fn link(&mut self, epoch: u64) -> io::Result<()> {
        let now = self.path_of("now")?;
        let past = self.past(epoch)?;
        self.names_changed = true;
        fs::hard_link(self.system, now.as_str(), past.as_str())
    }

    /// Whether this open file is the one at a path.
    fn is_at(&self, file: &File, path: &str) -> io::Result<bool> {
        match fs::symlink_metadata(self.system, path) {
            Ok(found) => {
                let own = file.metadata()?;
                Ok(found.dev() == own.dev() && found.ino() == own.ino())
            }
            Err(error) if error.kind() == ErrorKind::NotFound => Ok(false),
            Err(error) => Err(error),
        }
    }

    /// Whether the file at this path is `now`.
    fn is_now(&self, path: &str) -> io::Result<bool> {
        self.is_at(&self.now, path)
    }

    /// Whether `lock` and `now` have their names still, and `now` is as long as what was read and written of it.
    fn is_there(&self) -> io::Result<bool> {
        let lock = self.path_of("lock")?;
        let now = self.path_of("now")?;
        if !self.is_at(&self.lock, lock.as_str())? || !self.is_now(now.as_str())? {
            return Ok(false);
        }
        Ok(self.now.metadata()?.len() == self.length)
    }

    fn unlink(&mut self, epoch: u64) -> io::Result<()> {
        let past = self.past(epoch)?;
        if !self.is_now(past.as_str())? {
            return Ok(());
        }
        self.names_changed = true;
        fs::remove_file(self.system, past.as_str())
    }

    fn rename(&mut self) -> io::Result<()> {
        let next = self.path_of("next")?;
        let now = self.path_of("now")?;
        let Some(file) = self.next.take() else {
            return Err(io::Error::from(ErrorKind::NotFound));
        };
        // (what stays of `now` under another name is never synced behind this)
        if self.now_changed {
            self.now.sync_data()?;
        }
        self.names_changed = true;
        fs::rename(self.system, next.as_str(), now.as_str())?;
        self.now = file;
        self.length = self.next_length;
        self.now_changed = self.next_changed;
        self.next_changed = false;
        Ok(())
    }

    fn sync_files(&mut self) -> io::Result<()> {
        if self.now_changed {
            self.now.sync_data()?;
            self.now_changed = false;
        }
        match &self.next {
            Some(file) if self.next_changed => file.sync_data()?,
            _ => {}
        }
        self.next_changed = false;
        Ok(())
    }

    fn sync_all(&mut self) -> io::Result<()> {
        self.sync_files()?;
        if self.names_changed {
            self.folder.sync_all()?;
            self.names_changed = false;
        }
        Ok(())
    }

    /// Syncs all that was changed, and then looks whether it is still there.
    fn sync(&mut self) -> io::Result<bool> {
        self.sync_all()?;
        self.is_there()
    }
}

/// A folder on the system's disk, with `lock`, `now`, `next` and `past-000001` and so on. No clause says anything about its bytes. What
/// fails is reported to people, too. At each sync `lock` and `now` are still those files, and `now` is as long as what was read and written
/// of it; else it was moved.
#[derive(Drop)]
pub struct SystemFolder<'a, R> {
    opened: Opened<'a, R>,
    moved: bool,
    failures: u64,
}

impl<'a, R: Files<File = File> + Eprint> SystemFolder<'a, R> {
    /// Opens the folder at this path, and locks it: the lock is a file of its own, since a lock on `now` would stay with the file that a
    /// rename puts another in the place of. If another process has locked it, the error is `WouldBlock`; if `now` is no plain file, it is
    /// `InvalidInput`.
    pub fn open(system: &'a R, alloc: Global, path: &str) -> io::Result<SystemFolder<'a, R>> {
        let lock = open_or_make(system, path_in(alloc, path, "lock")?.as_str())?;
        lock.try_lock()?;
        let now = open_or_make(system, path_in(alloc, path, "now")?.as_str())?;
        let found = now.metadata()?;
        if !found.is_file() {
            return Err(io::Error::from(ErrorKind::InvalidInput));
        }
        let folder = fs::open(system, path)?;
        folder.sync_all()?;
        let opened = Opened {
            system,
            alloc,
            path: String::from_str(alloc, path)?,
            lock,
            folder,
            now,
            next: None,
            length: found.len(),
            next_length: 0,
            now_changed: false,
            next_changed: false,
            names_changed: false,
        };
        Ok(SystemFolder {
            opened,
            moved: false,
            failures: 0,
        })
    }

    /// How many times a call has failed.
    pub fn failures(&self) -> u64
        ensures { result ≡ self.now.failures }
    {
        self.failures
    }

    fn fail(&mut self) -> Fault
        ensures fault { result ≡ Fault.Device }
        ensures raised { Fails self.old.failures self.new.failures }
    {
        self.failures = self.failures.saturating_add(1);
        Fault::Device
    }

    /// What a call came to. Its failure is reported to people in the system's words.
    fn done<T>(&mut self, came: io::Result<T>) -> Result<T, Fault>
        ensures { HasCause self.old.failures self.new.failures result }
    {
        match came {
            Ok(value) => Ok(value),
            Err(error) if error.kind() == ErrorKind::OutOfMemory => Err(Fault::NoMemory),
            Err(error) => {
                let _ = eprintln!(self.opened.system; "{}: {error}", self.opened.path);
                Err(self.fail())
            }
        }
    }
}

impl<R: Files<File = File> + Eprint> Folder for SystemFolder<'_, R> {
    ghost holds = { λ _ _. ⊥ };

    ghost may_leave = { λ _ _. ⊥ };

    ghost moment = { λ _. 0 };

    ghost left_since = { λ _ _ _. ⊥ };

    ghost faults = { λ f. f.failures };

    ghost moved = { λ f. f.moved };

    ghost counts_now = { λ _ _ _ _ left. left };

    ghost only_now = { λ _ _ left. left };

    fn was_moved(&self) -> bool {
        self.moved
    }

    fn tell_torn(&self, bytes: usize, entries: usize) {
        if bytes > 0 {
            let _ = eprintln!(self.opened.system;
                "{}/now: its end is torn: {bytes} bytes were cut off behind {entries} events",
                self.opened.path
            );
        }
    }

    fn read(&mut self, alloc: Global) -> Result<Vec<u8>, Fault> {
        let came = self.opened.read(alloc);
        self.done(came)
    }

    fn append(&mut self, bytes: &[u8]) -> Result<(), Fault> {
        let came = self.opened.append(bytes);
        self.done(came)
    }

    fn cut(&mut self, length: usize) -> Result<(), Fault> {
        let came = self.opened.cut(length);
        self.done(came)
    }

    fn write_next(&mut self, bytes: &[u8]) -> Result<(), Fault> {
        let came = self.opened.write_next(bytes);
        self.done(came)
    }

    fn remove_next(&mut self) -> Result<(), Fault> {
        let came = self.opened.remove_next();
        self.done(came)
    }

    fn link(&mut self, epoch: u64) -> Result<(), Fault> {
        let came = self.opened.link(epoch);
        self.done(came)
    }

    fn unlink(&mut self, epoch: u64) -> Result<(), Fault> {
        let came = self.opened.unlink(epoch);
        self.done(came)
    }

    fn rename(&mut self) -> Result<(), Fault> {
        let came = self.opened.rename();
        self.done(came)
    }

    fn sync(&mut self) -> Result<(), Fault> {
        let came = self.opened.sync();
        if self.done(came)? {
            return Ok(());
        }
        self.moved = true;
        let _ = eprintln!(self.opened.system;
            "{}/now: it was moved, cut or written by somebody else",
            self.opened.path
        );
        Err(self.fail())
    }
}
