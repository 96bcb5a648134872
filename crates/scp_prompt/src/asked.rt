//! What the words of a command line ask for.

use crate::commands::parsed;
use crate::completions::{Shell, completions};
use crate::manual::manual;
use clap::error::ErrorKind;
use clap::{ArgMatches, Error};
use scp_sim_options::{BadOption, SimAsked, Unplanned, sim_by};
use std::alloc::{AllocError, Global};

/// How a script is played.
#[derive(Clone, Copy)]
pub enum Mode {
    /// One step after another.
    Serial,
    /// Each stage of each node in a thread of its own.
    Threads,
}

/// How reports are written.
#[derive(Clone, Copy)]
pub enum Shape {
    /// In the fixed form, with values, keys and messages in hex digits.
    Settled,
    /// With values, keys and messages as people write them.
    Text,
    /// As one JSON document.
    Json,
}

/// How the bytes of a message are written.
#[derive(Clone, Copy)]
pub enum Coding {
    /// In hex digits.
    Hex,
    /// In base64.
    Base64,
}

/// What bytes are, alone.
#[derive(Clone, Copy)]
pub enum Kind {
    /// A message of a link.
    Message,
    /// An envelope: a statement and its signature.
    Envelope,
    /// A statement.
    Statement,
    /// A quorum set.
    Set,
    /// A value.
    Value,
}

/// Which way something is written.
#[derive(Clone, Copy)]
pub enum Way {
    /// Its bytes are given, and its text is written.
    Decode,
    /// Its text is given, and its bytes are written.
    Encode,
}

/// What is made of each line of an input.
#[derive(Clone, Copy)]
pub struct Conversion {
    pub way: Way,
    pub kind: Kind,
    pub coding: Coding,
    /// A JSON object is written for the line.
    pub json: bool,
}

/// What is done with a script.
#[derive(Clone, Copy)]
pub enum Task {
    /// A script is played, and its reports are written.
    Run(Mode, Shape),
    /// A script is played, and the account of its nodes is written.
    Account(Mode),
    /// What is wrong with a script is shown.
    Check,
    /// Where the nodes of a script stand is shown.
    Stand,
    /// All that happens while a script is played is shown.
    Trace,
    /// All that happens while a script is played is drawn.
    Draw,
    /// A script of one slot is played by that slot's machine.
    Slot,
    /// What a script's quorum sets come to is shown.
    Quorums,
    /// A script is written with hex digits in place of text.
    Hex,
    /// A script is written with text in place of hex digits.
    Text,
}

/// Where a script comes from.
#[derive(Clone, Copy)]
pub enum Source<'a> {
    /// The standard input.
    Input,
    /// The file of this path.
    File(&'a str),
}

/// What is asked of a script.
#[derive(Clone, Copy)]
pub struct Asked<'a> {
    pub task: Task,
    /// A failure is reported on the standard output, in the fixed form.
    pub plain: bool,
    /// Whether the notices of a run are left out.
    pub quiet: bool,
    pub source: Source<'a>,
}

/// What is asked of messages, or of parts of them.
#[derive(Drop)]
pub struct ConversionAsked<'a> {
    pub conversion: Conversion,
    /// The words with their bytes, or the words of one text. Without any, they come from the standard input, line by line.
    pub words: Option<Vec<&'a str>>,
}

/// The log that a node starts with.
#[derive(Clone, Copy)]
pub struct LogAsked<'a> {
    /// The path of its file.
    pub path: &'a str,
    /// The file is made. It holds no event yet.
    pub is_new: bool,
    /// How many events it has at least.
    pub least: u64,
}

/// What is done with a node.
#[derive(Clone, Copy)]
pub enum NodeTask<'a> {
    /// What is wrong with its configuration is shown, or the configuration's digest.
    Check,
    /// It runs until the standard input ends.
    Run {
        /// Its log. Without a log it keeps nothing.
        log: Option<LogAsked<'a>>,
        /// The path of the file into which all that happens is written, if there is one.
        trace: Option<&'a str>,
    },
    /// The account of the node is written, as its log says.
    Account {
        /// The path of its log.
        log: &'a str,
    },
}

/// What is asked of a node.
#[derive(Clone, Copy)]
pub struct NodeAsked<'a> {
    /// The path of its configuration.
    pub config: &'a str,
    pub task: NodeTask<'a>,
}

/// What is asked of history archives.
#[derive(Drop)]
pub struct HistoryAsked<'a> {
    /// The paths of the archives. Without any, one comes from the standard input.
    pub files: Option<Vec<&'a str>>,
    /// The first ledger that is shown.
    pub first: u32,
    /// The last ledger that is shown.
    pub last: u32,
    /// Whether a node whose id is a number below 256 is shown by that number.
    pub numbers: bool,
    /// Whether each line is a JSON object.
    pub json: bool,
}

/// What is asked of the quorums of a network.
#[derive(Drop)]
pub struct QuorumsAsked<'a> {
    /// A script or a published document, or the configurations of nodes. Without any it is the standard input.
    pub files: Option<Vec<&'a str>>,
    /// The names of nodes that lie.
    pub without: Vec<&'a str>,
    /// Whether each file is a configuration, whatever its name.
    pub are_configs: bool,
}

/// What the words of a command line ask for.
#[derive(Drop)]
pub enum Wanted<'a> {
    /// A task on a script.
    Script(Asked<'a>),
    /// What the quorum sets of a network come to.
    Quorums(QuorumsAsked<'a>),
    /// A conversion of messages, or of parts of them.
    Conversion(ConversionAsked<'a>),
    /// A node.
    Node(NodeAsked<'a>),
    /// A report on history archives.
    History(HistoryAsked<'a>),
    /// A simulation.
    Sim(SimAsked<'a>),
}

/// The answer to words that ask for no task.
#[derive(Drop)]
pub enum Unasked {
    /// The help, the version, or another text of the program's own words, which was asked for.
    Told(String),
    /// What is wrong with the words.
    Wrong(String),
    /// It is out of memory.
    NoMemory,
}

/// The file of a command. `-` and no file are the standard input.
fn file_of<'a>(matches: &ArgMatches<'a>) -> Source<'a> {
    match matches.get_str("FILE") {
        None | Some("-") => Source::Input,
        Some(path) => Source::File(path),
    }
}

/// The words behind a command. `-` and no word are the standard input.
fn words_of<'a>(
    alloc: Global,
    matches: &ArgMatches<'a>,
    id: &str,
) -> Result<Option<Vec<&'a str>>, AllocError> {
    match matches.get_strs(id) {
        None | Some([]) | Some(["-"]) => Ok(None),
        Some(words) => Ok(Some(Vec::from_slice(alloc, words)?)),
    }
}

fn mode_of(matches: &ArgMatches<'_>) -> Mode {
    match matches.get_str("mode") {
        Some("threads") => Mode::Threads,
        _ => Mode::Serial,
    }
}

fn shape_of(matches: &ArgMatches<'_>) -> Shape {
    if matches.get_flag("json") {
        return Shape::Json;
    }
    if matches.get_flag("text") {
        return Shape::Text;
    }
    Shape::Settled
}

/// What is made of a script that is played.
fn run_of(matches: &ArgMatches<'_>) -> Task {
    let mode = mode_of(matches);
    if matches.get_flag("account") {
        return Task::Account(mode);
    }
    Task::Run(mode, shape_of(matches))
}

fn coding_of(matches: &ArgMatches<'_>) -> Coding {
    if matches.get_flag("base64") {
        return Coding::Base64;
    }
    Coding::Hex
}

fn kind_of(matches: &ArgMatches<'_>) -> Kind {
    match matches.get_str("as") {
        Some("envelope") => Kind::Envelope,
        Some("statement") => Kind::Statement,
        Some("set") => Kind::Set,
        Some("value") => Kind::Value,
        _ => Kind::Message,
    }
}

fn shell_of(matches: &ArgMatches<'_>) -> Shell {
    match matches.get_str("SHELL") {
        Some("zsh") => Shell::Zsh,
        Some("fish") => Shell::Fish,
        _ => Shell::Bash,
    }
}

/// A task whose input is a file.
fn with_file<'a>(task: Task, matches: &ArgMatches<'a>) -> Asked<'a> {
    Asked {
        task,
        plain: matches.get_flag("plain"),
        quiet: matches.get_flag("quiet"),
        source: file_of(matches),
    }
}

/// The task that a command on scripts asks for, from its name.
fn task_by(name: &str, matches: &ArgMatches<'_>) -> Option<Task> {
    match name {
        "run" => Some(run_of(matches)),
        "check" => Some(Task::Check),
        "stand" => Some(Task::Stand),
        "trace" => Some(Task::Trace),
        "draw" => Some(Task::Draw),
        "slot" => Some(Task::Slot),
        "hex" => Some(Task::Hex),
        "text" => Some(Task::Text),
        _ => None,
    }
}

/// A conversion, one way, of what the words of this name say.
fn conversion_of<'a>(
    alloc: Global,
    way: Way,
    matches: &ArgMatches<'a>,
    id: &str,
) -> Result<ConversionAsked<'a>, AllocError> {
    let words = words_of(alloc, matches, id)?;
    let conversion = Conversion {
        way,
        kind: kind_of(matches),
        coding: coding_of(matches),
        json: matches.get_flag("json"),
    };
    Ok(ConversionAsked { conversion, words })
}

/// The names that an option has, with commas between them.
fn names_of<'a>(
    alloc: Global,
    matches: &ArgMatches<'a>,
    id: &str,
) -> Result<Vec<&'a str>, AllocError> {
    match matches.get_str(id) {
        None => Ok(Vec::new(alloc)),
        Some(names) => names.split(',').collect(alloc),
    }
}

/// What is asked of the quorums of a network.
fn quorums_asked<'a>(
    alloc: Global,
    matches: &ArgMatches<'a>,
) -> Result<QuorumsAsked<'a>, AllocError> {
    let files = words_of(alloc, matches, "FILE")?;
    let without = names_of(alloc, matches, "without")?;
    Ok(QuorumsAsked {
        files,
        without,
        are_configs: false,
    })
}

/// What is asked of several configurations, if there are several.
fn configs_asked<'a>(
    alloc: Global,
    matches: &ArgMatches<'a>,
) -> Result<Option<QuorumsAsked<'a>>, AllocError> {
    let Some(("check", inner)) = matches.subcommand() else {
        return Ok(None);
    };
    let Some(files) = inner.get_strs("CONFIG") else {
        return Ok(None);
    };
    if files.len() < 2 {
        return Ok(None);
    }
    Ok(Some(QuorumsAsked {
        files: Some(Vec::from_slice(alloc, files)?),
        without: Vec::new(alloc),
        are_configs: true,
    }))
}

/// The log that a node starts with, if there is one.
fn log_of<'a>(matches: &ArgMatches<'a>) -> Option<LogAsked<'a>> {
    let path = matches.get_str("log")?;
    let least = match matches.get_one::<u64>("at-least") {
        Some(least) => least,
        None => 0,
    };
    Some(LogAsked {
        path,
        is_new: matches.get_flag("new"),
        least,
    })
}

/// Whether words say of a node's log which one it is, and there is none.
fn lacks_log(matches: &ArgMatches<'_>) -> bool {
    match matches.subcommand() {
        Some(("run", inner)) => {
            let has_words = inner.get_flag("new") || inner.get_str("at-least").is_some();
            has_words && inner.get_str("log").is_none()
        }
        _ => false,
    }
}

/// What a command of a node asks for.
fn node_by<'a>(matches: &ArgMatches<'a>) -> Option<NodeAsked<'a>> {
    let (name, inner) = matches.subcommand()?;
    let config = inner.get_str("CONFIG")?;
    let task = match name {
        "check" => NodeTask::Check,
        "run" => NodeTask::Run {
            log: log_of(inner),
            trace: inner.get_str("trace"),
        },
        "account" => NodeTask::Account {
            log: inner.get_str("log")?,
        },
        _ => return None,
    };
    Some(NodeAsked { config, task })
}

/// What a command on a node or on scripts asks for, from its name and its words.
fn plain_by<'a>(name: &str, matches: &ArgMatches<'a>) -> Option<Wanted<'a>> {
    if name == "node" {
        return match node_by(matches) {
            Some(asked) => Some(Wanted::Node(asked)),
            None => None,
        };
    }
    match task_by(name, matches) {
        Some(task) => Some(Wanted::Script(with_file(task, matches))),
        None => None,
    }
}

/// What a command asks for, from its name and its words.
fn wanted_by<'a>(
    alloc: Global,
    name: &str,
    matches: &ArgMatches<'a>,
) -> Result<Option<Wanted<'a>>, AllocError> {
    let converted = match name {
        "decode" => conversion_of(alloc, Way::Decode, matches, "HEX")?,
        "encode" => conversion_of(alloc, Way::Encode, matches, "TEXT")?,
        "quorums" => return Ok(Some(Wanted::Quorums(quorums_asked(alloc, matches)?))),
        "node" => {
            if let Some(asked) = configs_asked(alloc, matches)? {
                return Ok(Some(Wanted::Quorums(asked)));
            }
            return Ok(plain_by(name, matches));
        }
        _ => return Ok(plain_by(name, matches)),
    };
    Ok(Some(Wanted::Conversion(converted)))
}

/// What is shown in place of a task, from the parser of the words.
fn unasked_by(alloc: Global, error: &Error) -> Unasked {
    if error.kind() == ErrorKind::OutOfMemory {
        return Unasked::NoMemory;
    }
    match error.to_string(alloc) {
        Err(_) => Unasked::NoMemory,
        Ok(text) => {
            if error.use_stderr() {
                Unasked::Wrong(text)
            } else {
                Unasked::Told(text)
            }
        }
    }
}

/// What is shown of an option whose word isn't valid.
fn bad_option(alloc: Global, bad: &BadOption<'_>) -> Unasked {
    let mut text = String::new(alloc);
    let (option, word, expected) = (bad.option, bad.word, bad.expected);
    match writeln!(
        text,
        "error: --{option} '{word}': expected {expected}; see bowls sim --help"
    ) {
        Ok(()) => Unasked::Wrong(text),
        Err(_) => Unasked::NoMemory,
    }
}

/// A number in decimal digits, without a sign.
fn number_of(word: &str) -> Option<u32> {
    if !word.bytes().all(|byte| byte.is_ascii_digit()) {
        return None;
    }
    match word.parse::<u32>() {
        Ok(number) => Some(number),
        Err(_) => None,
    }
}

/// A range of ledgers, as `64..127`. Without the option it is all of them.
fn ledgers_of(word: Option<&str>) -> Option<(u32, u32)> {
    let Some(word) = word else {
        return Some((0, u32::MAX));
    };
    let (first, last) = word.split_once("..")?;
    let (first, last) = (number_of(first)?, number_of(last)?);
    if first <= last {
        Some((first, last))
    } else {
        None
    }
}

/// What is shown where `--ledgers` isn't a range.
fn bad_ledgers(alloc: Global) -> Unasked {
    match "error: --ledgers: expected a range of numbers, as 64..127; see bowls history --help\n".to_string(
        alloc,
    ) {
        Ok(text) => Unasked::Wrong(text),
        Err(_) => Unasked::NoMemory,
    }
}

/// What the command on history archives asks for.
fn history<'a>(alloc: Global, matches: &ArgMatches<'a>) -> Result<Wanted<'a>, Unasked> {
    let Some((first, last)) = ledgers_of(matches.get_str("ledgers")) else {
        return Err(bad_ledgers(alloc));
    };
    let numbers = matches.get_flag("numbers");
    let json = matches.get_flag("json");
    match words_of(alloc, matches, "FILE") {
        Ok(files) => Ok(Wanted::History(HistoryAsked {
            files,
            first,
            last,
            numbers,
            json,
        })),
        Err(_) => Err(Unasked::NoMemory),
    }
}

/// What the command of a simulation asks for.
fn simulation<'a>(alloc: Global, matches: &ArgMatches<'a>) -> Result<Wanted<'a>, Unasked> {
    match sim_by(alloc, matches) {
        Ok(asked) => Ok(Wanted::Sim(asked)),
        Err(Unplanned::Bad(bad)) => Err(bad_option(alloc, &bad)),
        Err(Unplanned::NoMemory) => Err(Unasked::NoMemory),
    }
}

/// A text of the program's own words, or that it is out of memory.
fn told(text: Result<String, AllocError>) -> Unasked {
    match text {
        Ok(text) => Unasked::Told(text),
        Err(_) => Unasked::NoMemory,
    }
}

/// What the matches of a command line ask for.
fn asked_by<'a>(
    alloc: Global,
    version: &'a str,
    matches: &ArgMatches<'a>,
) -> Result<Wanted<'a>, Unasked> {
    match matches.subcommand() {
        Some(("sim", inner)) => simulation(alloc, inner),
        Some(("history", inner)) => history(alloc, inner),
        Some(("completions", inner)) => Err(told(completions(alloc, shell_of(inner)))),
        Some(("man", _)) => Err(told(manual(alloc, version))),
        Some(("node", inner)) if lacks_log(inner) => Err(no_log(alloc)),
        Some((name, inner)) => match wanted_by(alloc, name, inner) {
            Ok(Some(wanted)) => Ok(wanted),
            Ok(None) => Err(no_command(alloc)),
            Err(_) => Err(Unasked::NoMemory),
        },
        None => Err(no_command(alloc)),
    }
}

/// What is shown for words that are wrong in this way.
fn wrong(alloc: Global, text: &str) -> Unasked {
    match text.to_string(alloc) {
        Ok(text) => Unasked::Wrong(text),
        Err(_) => Unasked::NoMemory,
    }
}

/// What is shown for words that name no command.
fn no_command(alloc: Global) -> Unasked {
    wrong(alloc, "error: there is no command; see bowls --help\n")
}

/// What is shown for words that say of a log which one it is, and name none.
fn no_log(alloc: Global) -> Unasked {
    let text = "error: --new and --at-least go with --log; see bowls node run --help\n";
    wrong(alloc, text)
}

/// Reads the words of a command line, the program's own name first.
pub fn read_words<'a>(
    alloc: Global,
    version: &'a str,
    words: &'a [&'a str],
) -> Result<Wanted<'a>, Unasked> {
    match parsed(alloc, version, words) {
        Ok(matches) => asked_by(alloc, version, &matches),
        Err(error) => Err(unasked_by(alloc, &error)),
    }
}
