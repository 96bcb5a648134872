//! What the words of a command line ask for.
ghost use Rattle.std.specs.Prelude.{◌≡◌, IsOkUnless, IfErr};

use clap::error::ErrorKind;
use clap::{Arg, ArgAction, Command, Error};
use scp_line::below::types::Fault;
use std::alloc::{AllocError, Global};

/// How a script is played.
#[derive(Clone, Copy, PartialEq, Eq)]
pub enum Mode {
    /// One step after another.
    Serial,
    /// Each stage of each node in a thread of its own.
    Threads,
}

/// What the words of a command line ask for.
#[derive(Clone, Copy, PartialEq, Eq)]
pub enum Asked<'a> {
    Run(Mode),
    Check,
    Decode(&'a str),
    /// The words ask for none of these.
    Usage,
}

static MODES: [&str; 2] = ["serial", "threads"];

fn commands<'a>(alloc: Global) -> Result<Command<'a>, AllocError> {
    let mode = Arg::new(alloc, "mode")
        .long("mode")
        .value_parser(MODES.as_slice())
        .default_value("serial");
    let hex = Arg::new(alloc, "hex").required(true).action(ArgAction::Set);
    let run = Command::new(alloc, "run").arg(mode)?;
    let check = Command::new(alloc, "check");
    let decode = Command::new(alloc, "decode").arg(hex)?;
    Command::new(alloc, "scp_line")
        .subcommand_required(true)
        .subcommand(run)?
        .subcommand(check)?
        .subcommand(decode)
}

/// The mode of this word. Any word but `threads` was refused before, or is the default.
fn mode_of(word: Option<&str>) -> Mode {
    match word {
        Some("threads") => Mode::Threads,
        _ => Mode::Serial,
    }
}

fn parsed<'a>(alloc: Global, words: &'a [&'a str]) -> Result<Asked<'a>, Error> {
    let matches = commands(alloc)?.try_get_matches_from(words)?;
    let asked = match matches.subcommand() {
        Some(("run", inner)) => Asked::Run(mode_of(inner.get_str("mode"))),
        Some(("check", _)) => Asked::Check,
        Some(("decode", inner)) => match inner.get_str("hex") {
            Some(hex) => Asked::Decode(hex),
            None => Asked::Usage,
        },
        _ => Asked::Usage,
    };
    Ok(asked)
}

/// Reads the words of a command line, the program's own name first.
pub fn read_words<'a>(alloc: Global, words: &'a [&'a str]) -> Result<Asked<'a>, Fault>
    ensures { IsOkUnless result Fault.NoMemory }
{
    match parsed(alloc, words) {
        Ok(asked) => Ok(asked),
        Err(error) if error.kind() == ErrorKind::OutOfMemory => Err(Fault::NoMemory),
        Err(_) => Ok(Asked::Usage),
    }
}
