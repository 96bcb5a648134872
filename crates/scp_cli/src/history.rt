//! Reports on history archives.

use crate::files::{failed, unopened_file};
use scp_command::below::prompt::{Cause, HistoryAsked, Stream};
use scp_history_command::below::ledgers::{Archives, Span};
use scp_history_command::{HistoryOrder, failure_of, write_history};
use scp_live_head::below::device::ScriptIn;
use std::{fs, io};

/// Reads the archive of this input, or returns the exit status of the failure that was reported.
fn read_input<R: ScriptIn + Cause>(
    rt: &HostRuntime,
    archives: &mut Archives,
    name: &str,
    input: &mut R,
) -> Result<(), u8> {
    match archives.read(rt.alloc(), input) {
        Ok(()) => Ok(()),
        Err(fault) => Err(failed(rt, name, input.cause(), &failure_of(fault))),
    }
}

/// Reads the archive of the standard input.
fn read_standard(rt: &HostRuntime, archives: &mut Archives) -> Result<(), u8> {
    read_input(rt, archives, "<stdin>", &mut Stream::new(rt.reader()))
}

/// Reads the archive at this path. `-` is the standard input.
fn read_path(rt: &HostRuntime, archives: &mut Archives, path: &str) -> Result<(), u8> {
    if path == "-" {
        return read_standard(rt, archives);
    }
    match fs::open(rt, path) {
        Ok(file) => read_input(rt, archives, path, &mut Stream::new(file)),
        Err(error) => Err(unopened_file(rt, path, error.kind())),
    }
}

/// Reads the archives at these paths, one after another.
fn read_paths(rt: &HostRuntime, archives: &mut Archives, paths: &[&str]) -> Result<(), u8> {
    for path in paths {
        read_path(rt, archives, *path)?;
    }
    Ok(())
}

/// Reads the archives that are asked for.
fn read_all(rt: &HostRuntime, asked: &HistoryAsked<'_>) -> Result<Archives, u8> {
    let mut archives = Archives::new(rt.alloc());
    match &asked.files {
        None => read_standard(rt, &mut archives)?,
        Some(paths) => read_paths(rt, &mut archives, paths.as_slice())?,
    }
    Ok(archives)
}

/// Writes the report on the archives that are asked for, and returns the exit status.
pub fn with_history(rt: &HostRuntime, asked: &HistoryAsked<'_>) -> u8 {
    let archives = match read_all(rt, asked) {
        Ok(archives) => archives,
        Err(status) => return status,
    };
    let order = HistoryOrder {
        span: Span {
            first: asked.first,
            last: asked.last,
        },
        by_number: asked.numbers,
        json: asked.json,
    };
    let mut output = Stream::new(io::writer(rt));
    let mut errors = Stream::new(rt.stderr());
    write_history(rt.alloc(), order, &archives, &mut output, &mut errors)
}
