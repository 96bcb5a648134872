//! What a folder holds, in memory.
ghost use Rattle.std.specs.Prelude.{◌≡◌, ◌++◌, map, IfOk, OnOk};
ghost use Rattle.scp_live_folder.specs.Folder.{with_now, with_next, linked, unlinked, renamed, without};

use std::alloc::{AllocError, Global};
use std::marker::Model;

/// The log of an ended epoch.
#[derive(Drop)]
pub struct Ended {
    pub epoch: u64,
    pub log: Vec<u8>,
}

impl Model for Ended {
    ghost use Rattle.std.specs.Prelude.{ℕ, List};

    ghost Value = { ℕ × List ℕ };

    ghost view = { λ e. (e.epoch, e.log.items) };
}

/// What a folder holds: `now`, which is a log, `next`, the numbers of further names of `now`, and the logs of ended epochs, the last one first.
#[derive(Drop)]
pub struct Content {
    pub log: Vec<u8>,
    pub next: Vec<u8>,
    pub second: Vec<u64>,
    pub past: Vec<Ended>,
}

impl Model for Content {
    ghost use Rattle.scp_live_folder.specs.Folder.{FolderView};

    ghost Value = { FolderView };

    ghost view = { λ c. record { now = c.log.items; next = c.next.items; second = c.second.items; past = c.past.items } };
}

/// Adds copies of these logs.
fn add_all(alloc: Global, past: &mut Vec<Ended>, more: &[Ended]) -> Result<(), AllocError>
    ensures { OnOk result (past.new.items ≡ past.old.items ++ more.now) }
{
    for ended in more {
        let log = ended.log.to_vec(alloc)?;
        past.push(Ended {
            epoch: ended.epoch,
            log,
        })?;
    }
    Ok(())
}

/// A log under each of these numbers.
fn named(alloc: Global, epochs: &[u64], log: &[u8]) -> Result<Vec<Ended>, AllocError>
    ensures { IfOk result (λ past. past.items ≡ map (λ epoch. (epoch, log.now)) epochs.now) }
{
    let mut past = Vec::new(alloc);
    for epoch in epochs {
        let copy = Vec::from_slice(alloc, log)?;
        past.push(Ended {
            epoch: *epoch,
            log: copy,
        })?;
    }
    Ok(past)
}

/// The numbers without this one.
fn without(alloc: Global, numbers: &[u64], number: u64) -> Result<Vec<u64>, AllocError>
    ensures { IfOk result (λ left. left.items ≡ without number numbers.now) }
{
    let mut left = Vec::new(alloc);
    for other in numbers {
        if *other != number {
            left.push(*other)?;
        }
    }
    Ok(left)
}

impl Content {
    /// A folder with this log in `now`, and nothing else.
    pub fn new(alloc: Global, log: &[u8]) -> Result<Content, AllocError> {
        Ok(Content {
            log: Vec::from_slice(alloc, log)?,
            next: Vec::new(alloc),
            second: Vec::new(alloc),
            past: Vec::new(alloc),
        })
    }

    /// The same, with these bytes in `now` and these numbers.
    fn with(&self, alloc: Global, bytes: &[u8], numbers: &[u64]) -> Result<Content, AllocError>
        ensures { IfOk result (λ c. c ≡ record { now = bytes.now; next = self.now.next; second = numbers.now; past = self.now.past }) }
    {
        let mut past = Vec::new(alloc);
        add_all(alloc, &mut past, &self.past)?;
        Ok(Content {
            log: Vec::from_slice(alloc, bytes)?,
            next: self.next.to_vec(alloc)?,
            second: Vec::from_slice(alloc, numbers)?,
            past,
        })
    }

    /// The same.
    pub fn copy(&self, alloc: Global) -> Result<Content, AllocError>
        ensures { IfOk result (λ c. c ≡ self.now) }
    {
        self.with(alloc, &self.log, &self.second)
    }

    /// The same, with these bytes in `now`.
    pub fn with_now(&self, alloc: Global, bytes: &[u8]) -> Result<Content, AllocError>
        ensures { IfOk result (λ c. c ≡ with_now bytes.now self.now) }
    {
        self.with(alloc, bytes, &self.second)
    }

    /// The same, with these bytes in `next`.
    pub fn with_next(&self, alloc: Global, bytes: &[u8]) -> Result<Content, AllocError>
        ensures { IfOk result (λ c. c ≡ with_next bytes.now self.now) }
    {
        let mut content = self.copy(alloc)?;
        content.next = Vec::from_slice(alloc, bytes)?;
        Ok(content)
    }

    /// The same, where `now` has the name of this ended epoch too.
    pub fn linked(&self, alloc: Global, epoch: u64) -> Result<Content, AllocError>
        ensures { IfOk result (λ c. c ≡ linked epoch self.now) }
    {
        let mut numbers = Vec::from_slice(alloc, &[epoch])?;
        numbers.extend_from_slice(&self.second)?;
        self.with(alloc, &self.log, &numbers)
    }

    /// The same, where `now` doesn't have the name of this ended epoch.
    pub fn unlinked(&self, alloc: Global, epoch: u64) -> Result<Content, AllocError>
        ensures { IfOk result (λ c. c ≡ unlinked epoch self.now) }
    {
        let numbers = without(alloc, &self.second, epoch)?;
        self.with(alloc, &self.log, &numbers)
    }

    /// What was `next` is `now`.
    pub fn renamed(&self, alloc: Global) -> Result<Content, AllocError>
        ensures { IfOk result (λ c. c ≡ renamed self.now) }
    {
        let mut past = named(alloc, &self.second, &self.log)?;
        add_all(alloc, &mut past, &self.past)?;
        Ok(Content {
            log: self.next.to_vec(alloc)?,
            next: Vec::new(alloc),
            second: Vec::new(alloc),
            past,
        })
    }

    /// Whether it holds the same.
    pub fn is_same(&self, other: &Content) -> bool {
        self.log == other.log
            && self.next == other.next
            && self.second == other.second
            && are_same(&self.past, &other.past)
    }
}

/// Whether these are the same logs.
fn are_same(past: &[Ended], other: &[Ended]) -> bool {
    past.len() == other.len()
        && past.iter().zip(other).all(|(one, other)| one.epoch == other.epoch
            && one.log == other.log)
}
