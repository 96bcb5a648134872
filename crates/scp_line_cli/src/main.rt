//! The program: plays or checks a script from standard input, or shows a message, and returns an exit status.
//!
//! What it promises:
//! - Each thing that words can ask for is a call of its own (`serving.rt`), which returns 0 only if it was done. A script was played in one
//!   of the two modes and its reports were written, a script was checked, or a message was shown. Each is done as `scp_line` promises it.
//! - `serve` returns 2 only with `usage` and with nothing read, and 1 or 3 only for a fault.
//! - A fault is reported once, by its own line and its status, and a node that failed by its number.
//!
//! Not claimed: which words ask for what, and the statuses of the whole program, which its calls show.
#![tactic(auto)]

mod asked;
mod serving;

use crate::serving::serve;
use scp_line::{Process, write_text};
use std::alloc::{AllocError, Global};
use std::io::ErrorKind;
use std::process::ExitCode;
use std::sync::Wait;
use std::thread::Threads;
use std::{env, io};

/// Does what the words of the command line ask for, and returns the exit status.
fn answer<T: Threads + Wait + Sync>(
    rt: &HostRuntime,
    threads: &T,
    words: &[String],
) -> Result<u8, AllocError> {
    let alloc = rt.alloc();
    let words: Vec<&str> = words.iter().map(|word| word.as_str()).collect(alloc)?;
    let mut reader = Process::new(rt.reader());
    let mut writer = Process::new(io::writer(rt));
    Ok(serve(threads, alloc, words.as_slice(), &mut reader, &mut writer))
}

/// Reports that it is out of memory.
fn short_of_memory(rt: &HostRuntime) -> ExitCode {
    let mut writer = Process::new(io::writer(rt));
    let _ = write_text(&mut writer, "fault 1\n");
    ExitCode::from(3)
}

/// The words of the command line. If one isn't UTF-8 there are none, and so they ask for nothing.
fn words_of(rt: &HostRuntime, alloc: Global) -> Result<Vec<String>, AllocError> {
    match env::args(rt) {
        Ok(words) => words.collect(alloc),
        Err(error) if error.kind() == ErrorKind::OutOfMemory => Err(AllocError),
        Err(_) => Ok(Vec::new(alloc)),
    }
}

fn main(rt: HostRuntime) -> ExitCode {
    let Ok(words) = words_of(&rt, rt.alloc()) else {
        return short_of_memory(&rt);
    };
    match answer(&rt, &rt, words.as_slice()) {
        Ok(status) => ExitCode::from(status),
        Err(_) => short_of_memory(&rt),
    }
}
