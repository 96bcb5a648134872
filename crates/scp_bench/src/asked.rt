use crate::workload::Workload;
use clap::error::ErrorKind;
use clap::{Arg, ArgAction, Command, Error};
use scp_slot::below::types::Fault;
use std::alloc::{AllocError, Global};

/// What the words of a command line ask for.
pub enum Asked<'a> {
    /// Every workload, small.
    All,
    /// One workload of a size.
    One(Workload<'a>, u32),
    /// None of these.
    Usage,
}

/// The words that may be given: a workload, and its size.
fn command<'a>(alloc: Global) -> Result<Command<'a>, AllocError> {
    let workload = Arg::new(alloc, "workload").action(ArgAction::Set);
    let command = Command::new(alloc, "scp_bench").arg(workload)?;
    // (made behind the `?`: what is alive there has to be dropped, and the proof would go through all its parts)
    command.arg(Arg::new(alloc, "size").action(ArgAction::Set))
}

/// A workload by its name, of a size in digits.
fn one<'a>(name: &'a str, size: Option<&str>) -> Asked<'a> {
    let Some(workload) = Workload::named(name) else {
        return Asked::Usage;
    };
    let Some(digits) = size else {
        return Asked::One(workload, workload.small());
    };
    match digits.parse::<u32>() {
        Ok(size) => Asked::One(workload, size),
        Err(_) => Asked::Usage,
    }
}

fn parsed<'a>(alloc: Global, words: &'a [&'a str]) -> Result<Asked<'a>, Error> {
    let matches = command(alloc)?.try_get_matches_from(words)?;
    let asked = match matches.get_str("workload") {
        Some(name) => one(name, matches.get_str("size")),
        None => Asked::All,
    };
    Ok(asked)
}

/// Reads the words of a command line, the program's own name first.
pub fn read_words<'a>(alloc: Global, words: &'a [&'a str]) -> Result<Asked<'a>, Fault> {
    match parsed(alloc, words) {
        Ok(asked) => Ok(asked),
        Err(error) if error.kind() == ErrorKind::OutOfMemory => Err(Fault::NoMemory),
        Err(_) => Ok(Asked::Usage),
    }
}
