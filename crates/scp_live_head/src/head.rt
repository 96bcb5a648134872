//! The first lines of the log of an epoch, and their bytes.
ghost use Rattle.std.specs.Prelude.{◌≡◌, ◌++◌, ◌∷◌, [], map, IfOk, OnOk};
ghost use Rattle.std.specs.Fmt.{decimal};
ghost use Rattle.scp_live_head.specs.Head.{digits_or_dash, ended, first_line, base_line, said_line, said_lines, sum_line, above, head_bytes};

use crate::words::{add_digits, add_number};
use scp_live_log::below::types::Hash;
use sha2::{Digest, Sha256};
use std::alloc::{AllocError, Global};
use std::marker::Model;

/// What the first line of the log of an epoch says.
#[derive(Drop)]
pub struct FirstLine {
    digest: Hash,
    epoch: u64,
    first: u64,
    before: Hash,
}

impl Model for FirstLine {
    ghost use Rattle.scp_live_head.specs.Head.{FirstView};

    ghost Value = { FirstView };

    ghost view = { λ f. record { digest = f.digest.0; epoch = f.epoch; first = f.first; before = f.before.0 } };
}

impl FirstLine {
    /// A line with the digest of the configuration, the number of the epoch, its first slot, and the digest of the last entry of the log
    /// before.
    pub fn new(digest: Hash, epoch: u64, first: u64, before: Hash) -> FirstLine
        ensures { result ≡ record { digest = digest.0; epoch = epoch; first = first; before = before.0 } }
    {
        FirstLine {
            digest,
            epoch,
            first,
            before,
        }
    }

    /// The digest of the configuration.
    pub fn digest(&self) -> Hash
        ensures { result.0 ≡ self.now.digest }
    {
        self.digest
    }

    /// The number of the epoch.
    pub fn epoch(&self) -> u64
        ensures { result ≡ self.now.epoch }
    {
        self.epoch
    }

    /// The first slot of the epoch.
    pub fn first(&self) -> u64
        ensures { result ≡ self.now.first }
    {
        self.first
    }

    /// The digest of the last entry of the log before.
    pub fn before(&self) -> Hash
        ensures { result.0 ≡ self.now.before }
    {
        self.before
    }

    /// Adds the line, with its end.
    fn add(&self, alloc: Global, bytes: &mut Vec<u8>) -> Result<(), AllocError>
        ensures { OnOk result (bytes.new.items ≡ bytes.old.items ++ ended (first_line self.now)) }
    {
        bytes.extend_from_slice(b"scp_node 2 ")?;
        add_digits(alloc, bytes, &self.digest.0)?;
        add_numbers(alloc, bytes, self.epoch, self.first)?;
        add_digits(alloc, bytes, &self.before.0)?;
        bytes.push(b'\n')?;
        Ok(())
    }

    /// The line, with its end.
    pub(crate) fn bytes(&self, alloc: Global) -> Result<Vec<u8>, AllocError>
        ensures { IfOk result (λ bytes. bytes.items ≡ ended (first_line self.now)) }
    {
        let mut bytes = Vec::new(alloc);
        self.add(alloc, &mut bytes)?;
        Ok(bytes)
    }
}

/// What the first lines of the log of an epoch say: the first of them, the state before its first slot, and own statements.
#[derive(Drop)]
pub struct Head {
    line: FirstLine,
    base: Vec<u8>,
    said: Vec<Vec<u8>>,
}

impl Model for Head {
    ghost use Rattle.std.specs.Prelude.{map};
    ghost use Rattle.scp_live_head.specs.Head.{HeadView};

    ghost Value = { HeadView };

    ghost view = { λ h. record { line = h.line; base = h.base.items; said = map (λ statement. statement.items) h.said.items } };
}

impl Head {
    /// The first lines that say this. Takes ownership of the bytes.
    pub fn new(line: FirstLine, base: Vec<u8>, said: Vec<Vec<u8>>) -> Head
        ensures { result ≡ record { line = line; base = base.items; said = map (λ statement. statement.items) said.items } }
    {
        Head { line, base, said }
    }

    /// The first line.
    pub fn line(&self) -> &FirstLine
        ensures { result.now ≡ self.now.line }
    {
        &self.line
    }

    /// The state before the first slot, as the application writes it.
    pub fn base(&self) -> &[u8]
        ensures { result.now ≡ self.now.base }
    {
        self.base.as_slice()
    }

    /// Own statements, to be said again.
    pub fn said(&self) -> &[Vec<u8>]
        ensures { map (λ statement. statement.items) result.now ≡ self.now.said }
    {
        self.said.as_slice()
    }

    /// The bytes of the lines.
    pub fn bytes(&self, alloc: Global) -> Result<Vec<u8>, AllocError>
        ensures { IfOk result (λ bytes. bytes.items ≡ head_bytes self.now) }
    {
        let mut bytes = self.line.bytes(alloc)?;
        add_base(alloc, &mut bytes, &self.base)?;
        add_statements(alloc, &mut bytes, &self.said)?;
        let sum = sum_bytes(alloc, &bytes)?;
        bytes.extend_from_slice(&sum)?;
        Ok(bytes)
    }
}

/// Adds two numbers between spaces.
fn add_numbers(alloc: Global, bytes: &mut Vec<u8>, one: u64, other: u64) -> Result<(), AllocError>
    ensures { OnOk result (bytes.new.items ≡ bytes.old.items ++ 32 ∷ (decimal one ++ 32 ∷ (decimal other ++ 32 ∷ []))) }
{
    bytes.push(b' ')?;
    add_number(alloc, bytes, one)?;
    bytes.push(b' ')?;
    add_number(alloc, bytes, other)?;
    bytes.push(b' ')?;
    Ok(())
}

/// Adds bytes as hexadecimal digits, or a dash for none.
fn add_digits_or_dash(alloc: Global, bytes: &mut Vec<u8>, base: &[u8]) -> Result<(), AllocError>
    ensures { OnOk result (bytes.new.items ≡ bytes.old.items ++ digits_or_dash base.now) }
{
    if base.is_empty() {
        bytes.push(b'-')?;
        return Ok(());
    }
    add_digits(alloc, bytes, base)
}

/// Adds the line of the state, with its end.
pub(crate) fn add_base(alloc: Global, bytes: &mut Vec<u8>, base: &[u8]) -> Result<(), AllocError>
    ensures { OnOk result (bytes.new.items ≡ bytes.old.items ++ ended (base_line base.now)) }
{
    bytes.extend_from_slice(b"base ")?;
    add_digits_or_dash(alloc, bytes, base)?;
    bytes.push(b'\n')?;
    Ok(())
}

/// Adds the line of a statement, with its end.
pub(crate) fn add_said(
    alloc: Global,
    bytes: &mut Vec<u8>,
    statement: &[u8],
) -> Result<(), AllocError>
    ensures { OnOk result (bytes.new.items ≡ bytes.old.items ++ ended (said_line statement.now)) }
{
    bytes.extend_from_slice(b"said ")?;
    add_digits(alloc, bytes, statement)?;
    bytes.push(b'\n')?;
    Ok(())
}

/// Adds the lines of statements.
fn add_statements(alloc: Global, bytes: &mut Vec<u8>, said: &[Vec<u8>]) -> Result<(), AllocError>
    ensures { OnOk result (bytes.new.items ≡ bytes.old.items ++ said_lines (map (λ statement. statement.items) said.now)) }
{
    for statement in said {
        add_said(alloc, bytes, statement)?;
    }
    Ok(())
}

/// The line that has the SHA-256 of the lines above it, with its end.
pub(crate) fn sum_bytes(alloc: Global, lines: &[u8]) -> Result<Vec<u8>, AllocError>
    ensures { IfOk result (λ bytes. bytes.items ≡ ended (sum_line lines.now)) }
{
    let sum = Hash(Sha256::digest(lines));
    let mut bytes = Vec::from_slice(alloc, b"= ")?;
    add_digits(alloc, &mut bytes, &sum.0)?;
    bytes.push(b'\n')?;
    Ok(bytes)
}
