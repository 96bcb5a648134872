//! Runs one workload of the parts of a node at a size that the caller gives, and prints what was done, in counts: reading messages,
//! quorums, votes, and slots' machines that decide. What whole nodes do is measured by scripts (scripts/workload).
//!
//! What is promised: each call is safe and returns. No clause says what is counted. Words that ask for no workload end in status 2, no
//! memory and an output that fails in status 3.
#![tactic(auto)]

mod asked;
mod consensus;
mod decode;
mod quorum;
mod votes;
mod workload;

use crate::asked::{Asked, read_words};
use crate::workload::run_all;
use scp_slot::below::types::Fault;
use std::alloc::AllocError;
use std::env;
use std::io::ErrorKind;
use std::process::ExitCode;

/// What is printed where no workload is asked for.
const USAGE: &str =
    "usage: scp_bench [decode|quorum-shared|quorum-own|quorum-chain|quorum-missing|votes-one|votes-each|consensus-4|consensus-8|consensus-16 [SIZE]]";

/// The words of the command line; none where one isn't UTF-8.
fn words_of(rt: &HostRuntime) -> Result<Option<Vec<String>>, AllocError> {
    match env::args(rt) {
        Ok(words) => Ok(Some(words.collect(rt.alloc())?)),
        Err(error) if error.kind() == ErrorKind::OutOfMemory => Err(AllocError),
        Err(_) => Ok(None),
    }
}

/// Prints which words there are, and answers the exit status.
fn tell_usage(rt: &HostRuntime) -> u8 {
    let _ = println!(rt; "{USAGE}");
    2
}

/// Does what the words ask for, and answers the exit status.
fn serve(rt: &HostRuntime, words: &[String]) -> Result<u8, Fault> {
    let alloc = rt.alloc();
    let words: Vec<&str> = words.iter().map(|word| word.as_str()).collect(alloc)?;
    match read_words(alloc, words.as_slice())? {
        Asked::All => run_all(rt)?,
        Asked::One(workload, size) => workload.run(rt, size)?,
        Asked::Usage => return Ok(tell_usage(rt)),
    }
    Ok(0)
}

/// Does what the words of the command line ask for, and answers the exit status. Words that aren't UTF-8 ask for nothing.
fn answer(rt: &HostRuntime) -> Result<u8, Fault> {
    match words_of(rt)? {
        Some(words) => serve(rt, words.as_slice()),
        None => Ok(tell_usage(rt)),
    }
}

fn main(rt: HostRuntime) -> ExitCode {
    match answer(&rt) {
        Ok(status) => ExitCode::from(status),
        Err(fault) => {
            let _ = println!(&rt; "fault {}", fault.number());
            ExitCode::from(3)
        }
    }
}
