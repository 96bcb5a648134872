//! The options of a simulation, and what they say.

use crate::plan::{Crash, Partition, Plan, Proposers, Span, mark};
use crate::table::{Entry, Word};
use crate::words::{crash_of, node_of, number_of, partition_of, span_of, thousandths_of};
use clap::ArgMatches;
use clap::builder::ValueParser;
use scp_types::NODE_LIMIT;
use std::alloc::{AllocError, AllocFailed, Global};

/// The command of a simulation.
pub static SIM: Entry = Entry {
    name: "sim",
    about: "Simulates nodes in virtual time by a seed, and tells what they came to",
    words: &[
        // who the nodes are, and what they are to do
        Word {
            name: "nodes",
            value: &["N"],
            help: "So many nodes, 1 to 8",
            default: &["4"],
            ..Word::OPTION
        },
        Word {
            name: "need",
            value: &["K"],
            help: "Quorum sets of K of all nodes",
            ..Word::OPTION
        },
        Word {
            name: "sets",
            value: &["FILE"],
            help: "Lines 'set I SET' that give nodes other quorum sets",
            ..Word::OPTION
        },
        Word {
            name: "slots",
            value: &["N"],
            help: "So many slots are to be closed",
            default: &["5"],
            ..Word::OPTION
        },
        Word {
            name: "until",
            value: &["MS"],
            help: "Ends a run at this time, though not all slots are closed",
            ..Word::OPTION
        },
        Word {
            name: "seed",
            value: &["N"],
            help: "What is left to chance",
            default: &["1"],
            ..Word::OPTION
        },
        Word {
            name: "seeds",
            value: &["A..B"],
            help: "One run for each of these seeds, and a table of them",
            not_with: &["seed"],
            ..Word::OPTION
        },
        Word {
            name: "propose",
            value: &["WHO"],
            help: "Who proposes values: all nodes, each slot's first leader, or each by chance",
            parser: ValueParser::Names(&["all", "leader", "random"]),
            default: &["all"],
            ..Word::OPTION
        },
        // what becomes of messages
        Word {
            name: "delay",
            value: &["A..B"],
            help: "How long a message travels",
            default: &["10..200"],
            ..Word::OPTION
        },
        Word {
            name: "drop",
            value: &["P%"],
            help: "Of a hundred messages so many are lost, as 5% or 5.5%",
            default: &["0%"],
            ..Word::OPTION
        },
        Word {
            name: "duplicate",
            value: &["P%"],
            help: "Of a hundred messages so many come twice",
            default: &["0%"],
            ..Word::OPTION
        },
        Word {
            name: "reorder",
            help: "A message may overtake another",
            ..Word::FLAG
        },
        // which nodes are faulty
        Word {
            name: "partition",
            value: &["1,2|3,4@A..B"],
            help: "Nodes of different sides aren't linked from time A to time B",
            ..Word::MANY
        },
        Word {
            name: "crash",
            value: &["I@A..B"],
            help: "Node I stops at time A, and comes back at time B",
            ..Word::MANY
        },
        Word {
            name: "silent",
            value: &["I,J"],
            help: "Of these nodes nothing is heard",
            ..Word::MANY
        },
        Word {
            name: "equivocate",
            value: &["I,J"],
            help: "These nodes say different things to different nodes",
            ..Word::MANY
        },
        Word {
            name: "flood",
            value: &["I,J"],
            help: "These nodes say what is old, and what can't be judged",
            ..Word::MANY
        },
        // what becomes of the script
        Word {
            name: "script",
            value: &["FILE"],
            help: "Writes the script of the run, which must not be there yet",
            not_with: &["seeds"],
            ..Word::OPTION
        },
        Word {
            name: "shrink",
            help: "Leaves out lines of the script as long as it comes to the same; the whole one is written to FILE.whole",
            not_with: &["seeds"],
            ..Word::FLAG
        },
    ],
    end: "Example:
  bowls sim --nodes 7 --need 5 --seed 3 --drop 10% --script lost.scp

Faults:
  A message that is lost doesn't come. Without --reorder those of a link come in the order in which they were sent.
  Nodes of two sides of a partition aren't linked, nor is a node that stops; links are made anew behind that, and what was said last is said again.
  A silent node hears. One that equivocates says one thing to the first half of the nodes, another to the second; one that floods says what is old,
  and names quorum sets that nobody has. These two aren't judged.

Times are in milliseconds. The same words give the same bytes.",
};

/// What is asked of a simulation.
#[derive(Drop)]
pub struct SimAsked<'a> {
    /// What is simulated. The lines of quorum sets come from a file.
    pub plan: Plan,
    /// The seeds, from the first to the last.
    pub seeds: Span,
    /// The path of the lines that give quorum sets, if there are any.
    pub sets: Option<&'a str>,
    /// The path of the file into which the script is written, if there is one.
    pub script: Option<&'a str>,
    /// Whether the script is shrunk: it comes to the same with fewer lines.
    pub shrink: bool,
}

/// The first option whose word isn't valid, that word, and what was expected there.
#[derive(Clone, Copy)]
pub struct BadOption<'a> {
    pub option: &'static str,
    pub word: &'a str,
    pub expected: &'static str,
}

/// Why the options ask for no simulation.
#[derive(Clone, Copy)]
pub enum Unplanned<'a> {
    Bad(BadOption<'a>),
    NoMemory,
}

impl<'a> From<AllocError> for Unplanned<'a> {
    ghost from_gives = { λ _ _. Unit {0} };

    fn from(_e: AllocError) -> Unplanned<'a> {
        Unplanned::NoMemory
    }
}

impl<'a, T: Drop> From<AllocFailed<T>> for Unplanned<'a> {
    ghost from_gives = { λ _ _. Unit {0} };

    fn from(_e: AllocFailed<T>) -> Unplanned<'a> {
        Unplanned::NoMemory
    }
}

fn bad<'a>(option: &'static str, word: &'a str, expected: &'static str) -> Unplanned<'a> {
    Unplanned::Bad(BadOption {
        option,
        word,
        expected,
    })
}

/// The word of an option, or an empty word.
fn word<'a>(matches: &ArgMatches<'a>, option: &str) -> &'a str {
    matches.get_str(option).unwrap_or("")
}

/// Marks the nodes that a word names, as `1,2`. Returns whether it names nodes, each of them at most `count`.
fn mark_each(marks: &mut [bool; NODE_LIMIT], word: &str, count: u8) -> bool {
    for part in word.split(',') {
        match node_of(part) {
            Some(node) if node <= count => mark(marks, node),
            _ => return false,
        }
    }
    true
}

/// The nodes that an option names, each marked.
fn marks<'a>(
    matches: &ArgMatches<'a>,
    option: &'static str,
    count: u8,
) -> Result<[bool; NODE_LIMIT], Unplanned<'a>> {
    let mut marks = [false; NODE_LIMIT];
    let Some(words) = matches.get_strs(option) else {
        return Ok(marks);
    };
    for word in words {
        if !mark_each(&mut marks, *word, count) {
            return Err(bad(option, *word, "numbers of nodes, as 1,2"));
        }
    }
    Ok(marks)
}

/// The number of nodes that a quorum set needs, out of `count`: the number that is given, else all but a third.
fn need<'a>(matches: &ArgMatches<'a>, count: u8) -> Result<u8, Unplanned<'a>> {
    match matches.get_str("need") {
        None => Ok(count.saturating_sub(count.saturating_sub(1) / 3)),
        Some(word) => match node_of(word) {
            Some(need) if need <= count => Ok(need),
            _ => Err(bad("need", word, "a number, 1 to that of the nodes")),
        },
    }
}

/// The time at which a run ends at the latest: that which is given, else the last there is.
fn until<'a>(matches: &ArgMatches<'a>) -> Result<u64, Unplanned<'a>> {
    match matches.get_str("until") {
        None => Ok(u64::MAX),
        Some(word) => number_of(word).ok_or(bad("until", word, "a number of milliseconds")),
    }
}

/// Who proposes values.
fn proposers(matches: &ArgMatches<'_>) -> Proposers {
    match word(matches, "propose") {
        "leader" => Proposers::Leader,
        "random" => Proposers::Random,
        _ => Proposers::All,
    }
}

/// The seeds of the runs.
fn seeds<'a>(matches: &ArgMatches<'a>) -> Result<Span, Unplanned<'a>> {
    if let Some(word) = matches.get_str("seeds") {
        return span_of(word).ok_or(bad("seeds", word, "two numbers, as 1..100"));
    }
    let word = word(matches, "seed");
    match number_of(word) {
        Some(seed) => Ok(Span {
            from: seed,
            to: seed,
        }),
        None => Err(bad("seed", word, "a number, below 2^64")),
    }
}

/// The partitions that the options give.
fn partitions<'a>(
    alloc: Global,
    matches: &ArgMatches<'a>,
) -> Result<Vec<Partition>, Unplanned<'a>> {
    let mut partitions = Vec::new(alloc);
    let Some(words) = matches.get_strs("partition") else {
        return Ok(partitions);
    };
    for word in words {
        match partition_of(word) {
            Some(partition) => partitions.push(partition)?,
            None => return Err(bad(
                "partition",
                *word,
                "sides of nodes and a time, as 1,2|3,4@100..900",
            )),
        }
    }
    Ok(partitions)
}

/// The stops that the options give; `count` is the number of nodes.
fn crashes<'a>(
    alloc: Global,
    matches: &ArgMatches<'a>,
    count: u8,
) -> Result<Vec<Crash>, Unplanned<'a>> {
    let mut crashes = Vec::new(alloc);
    let Some(words) = matches.get_strs("crash") else {
        return Ok(crashes);
    };
    for word in words {
        match crash_of(word) {
            Some(crash) if crash.node <= count => crashes.push(crash)?,
            _ => return Err(bad("crash", *word, "a node and a time, as 3@500..900")),
        }
    }
    Ok(crashes)
}

/// How many nodes there are.
fn nodes<'a>(matches: &ArgMatches<'a>) -> Result<u8, Unplanned<'a>> {
    let word = word(matches, "nodes");
    node_of(word).ok_or(bad("nodes", word, "a number, 1 to 8"))
}

/// How many slots are to be closed.
fn slots<'a>(matches: &ArgMatches<'a>) -> Result<u64, Unplanned<'a>> {
    let word = word(matches, "slots");
    number_of(word).ok_or(bad("slots", word, "a number, below 2^64"))
}

/// How long a message travels.
fn delay<'a>(matches: &ArgMatches<'a>) -> Result<Span, Unplanned<'a>> {
    let word = word(matches, "delay");
    span_of(word).ok_or(bad("delay", word, "two numbers of milliseconds, as 10..200"))
}

/// How many messages of a thousand, by an option that gives a percentage.
fn thousandths<'a>(matches: &ArgMatches<'a>, option: &'static str) -> Result<u16, Unplanned<'a>> {
    let word = word(matches, option);
    thousandths_of(word).ok_or(bad(option, word, "0% to 100%, as 5% or 5.5%"))
}

/// What is simulated.
fn plan_of<'a>(alloc: Global, matches: &ArgMatches<'a>) -> Result<Plan, Unplanned<'a>> {
    let nodes = nodes(matches)?;
    let need = need(matches, nodes)?;
    let slots = slots(matches)?;
    let until = until(matches)?;
    let delay = delay(matches)?;
    let drop = thousandths(matches, "drop")?;
    let duplicate = thousandths(matches, "duplicate")?;
    let silent = marks(matches, "silent", nodes)?;
    let equivocating = marks(matches, "equivocate", nodes)?;
    let flooding = marks(matches, "flood", nodes)?;
    let partitions = partitions(alloc, matches)?;
    let crashes = crashes(alloc, matches, nodes)?;
    Ok(Plan {
        nodes,
        need,
        sets: String::new(alloc),
        slots,
        until,
        delay,
        drop,
        duplicate,
        reorder: matches.get_flag("reorder"),
        partitions,
        crashes,
        silent,
        equivocating,
        flooding,
        propose: proposers(matches),
    })
}

/// What the options ask of a simulation.
pub fn sim_by<'a>(alloc: Global, matches: &ArgMatches<'a>) -> Result<SimAsked<'a>, Unplanned<'a>> {
    let plan = plan_of(alloc, matches)?;
    Ok(SimAsked {
        plan,
        seeds: seeds(matches)?,
        sets: matches.get_str("sets"),
        script: matches.get_str("script"),
        shrink: matches.get_flag("shrink"),
    })
}
