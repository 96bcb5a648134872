//! Files that are read, and what is reported of them to people and hosts.

use scp_command::below::prompt::{
    Cause, Failure, LONG_LIMIT, Stream, Unopened, read_within, status, write_failure,
};
use scp_command::below::types::SCRIPT_LIMIT;
use scp_live_head::below::device::{ScriptIn, read_script, write_text};
use scp_live_head::below::types::Fault;
use std::io::ErrorKind;
use std::{fs, io};

/// Reports to people why a file failed, and returns the exit status.
pub fn failed(rt: &HostRuntime, path: &str, why: &str, failure: &Failure) -> u8 {
    let mut errors = Stream::new(rt.stderr());
    let _ = write_failure(rt.alloc(), &mut errors, path, &[], why, failure);
    status(failure)
}

/// Reports to people why the text of a file is refused, and returns the exit status.
pub fn refused(rt: &HostRuntime, path: &str, text: &[u8], failure: &Failure) -> u8 {
    let mut errors = Stream::new(rt.stderr());
    let _ = write_failure(rt.alloc(), &mut errors, path, text, "", failure);
    status(failure)
}

/// The text of this input, or the exit status of the failure that was reported.
fn text_of<R: ScriptIn + Cause>(
    rt: &HostRuntime,
    path: &str,
    input: &mut R,
) -> Result<Vec<u8>, u8> {
    let failure = match read_script(rt.alloc(), input) {
        Ok(text) => return Ok(text),
        Err(Fault::Device) => Failure::Unread,
        Err(Fault::TooLong) => Failure::TooLong(SCRIPT_LIMIT),
        Err(_) => Failure::NoMemory,
    };
    Err(failed(rt, path, input.cause(), &failure))
}

/// The text of this input, which may be long, or the exit status of the failure that was reported.
pub fn long_text_of<R: ScriptIn + Cause>(
    rt: &HostRuntime,
    path: &str,
    input: &mut R,
) -> Result<Vec<u8>, u8> {
    let failure = match read_within(rt.alloc(), input) {
        Ok(text) => return Ok(text),
        Err(Fault::Device) => Failure::Unread,
        Err(Fault::TooLong) => Failure::TooLong(LONG_LIMIT),
        Err(_) => Failure::NoMemory,
    };
    Err(failed(rt, path, input.cause(), &failure))
}

/// The text of the file at this path, which may be long, or the exit status of the failure that was reported.
pub fn long_text_of_file(rt: &HostRuntime, path: &str) -> Result<Vec<u8>, u8> {
    match fs::open(rt, path) {
        Ok(file) => long_text_of(rt, path, &mut Stream::new(file)),
        Err(error) => long_text_of(rt, path, &mut Unopened::new(error.kind())),
    }
}

/// The text of the file at this path, or the exit status of the failure that was reported.
pub fn text_of_file(rt: &HostRuntime, path: &str) -> Result<Vec<u8>, u8> {
    match fs::open(rt, path) {
        Ok(file) => text_of(rt, path, &mut Stream::new(file)),
        Err(error) => text_of(rt, path, &mut Unopened::new(error.kind())),
    }
}

/// Writes a text to the standard output, and returns 0, or 3 if that failed.
pub fn told(rt: &HostRuntime, text: &str) -> u8 {
    match write_text(&mut Stream::new(io::writer(rt)), text) {
        Ok(()) => 0,
        Err(_) => 3,
    }
}

/// Reports to people why a stream with this name failed, if it did.
pub fn tell_cause<R>(rt: &HostRuntime, name: &str, stream: &Stream<R>) {
    if stream.has_failed() {
        let _ = failed(rt, name, stream.cause(), &Failure::Unread);
    }
}

/// Writes a text to the standard error, and returns this status.
pub fn wrong(rt: &HostRuntime, text: &str, status: u8) -> u8 {
    let _ = write_text(&mut Stream::new(rt.stderr()), text);
    status
}

/// The failure of a file that can't be opened.
pub fn failure_of(kind: ErrorKind) -> Failure {
    match kind {
        ErrorKind::OutOfMemory => Failure::NoMemory,
        _ => Failure::Unread,
    }
}

/// Reports to people why a file can't be opened, and returns the exit status.
pub fn unopened_file(rt: &HostRuntime, path: &str, kind: ErrorKind) -> u8 {
    failed(rt, path, Unopened::new(kind).cause(), &failure_of(kind))
}
