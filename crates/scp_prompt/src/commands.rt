//! The commands, their options and their help.

use clap::builder::ValueParser;
use clap::{Arg, ArgMatches, Command, Error};
use scp_sim_options::{Entry, Place, SIM, Word};
use std::alloc::{AllocError, Global};

static ABOUT: &str =
    "Plays and checks scripts of nodes that agree by the Stellar Consensus Protocol, and runs a node";

static AFTER: &str = "Examples:
  bowls run examples/four_nodes.scp
  bowls help run

Files:
  FILE is a script, in hexadecimal digits, as text, or in both, line by line;
  where it is left out or is -, the standard input is read.
  What goes wrong is told on the standard error as FILE:LINE:WORD: what stands there, what was expected.
  Of a command that failed nothing stands on the standard output.
  What a node reads and writes is told by bowls node --help.

Statuses:
  0  done
  1  a script, a message, a configuration or a log was refused, or an archive is cut
  2  the words ask for nothing
  3  a node failed, memory ran out, or a file, the input or the output failed
  4  a script was played, and there are notices of it on the standard error; or archives show more than values";

static AFTER_NODE: &str = "Example:
  bowls node check examples/network/alice.toml

Lines:
  A line of the standard input is an event or a question; what comes of it is written to the standard output, 'ok' last.
  A line that is neither is answered by 'bad', and nothing else comes of it.
  Where the standard input ends, so does the node, with status 0.
  With --log nothing is written of an event before the file has it, and the node goes on where the file ends.
  The first start is that with --new. A host that counted events says --at-least: a log that was cut is refused then.
  What goes wrong is told on the standard output by a line that begins with 'fault', with status 1 or 3 (bowls --help);
  where and why is told on the standard error.";

const FILE: Word = Word {
    name: "FILE",
    help: "A script; the standard input where it is left out or is -",
    ..Word::IN_TURN
};

const PLAIN: Word = Word {
    name: "plain",
    help: "All on the standard output, in the settled words",
    ..Word::FLAG
};

const AS: Word = Word {
    name: "as",
    help: "What the bytes are, alone",
    parser: ValueParser::Names(&["message", "envelope", "statement", "set", "value"]),
    default: &["message"],
    ..Word::OPTION
};

const BASE64: Word = Word {
    name: "base64",
    help: "The bytes in base64",
    ..Word::FLAG
};

const JSON_LINES: Word = Word {
    name: "json",
    help: "One JSON object for each line",
    ..Word::FLAG
};

const CONFIG: Word = Word {
    name: "CONFIG",
    help: "Who the node is, who its peers are, and its quorum set, in TOML",
    required: true,
    ..Word::IN_TURN
};

const LOG: Word = Word {
    name: "log",
    value: &["FILE"],
    help: "Keeps each event in this file, and goes on where it ends",
    ..Word::OPTION
};

const NEW: Word = Word {
    name: "new",
    help: "Makes the file of the log; it is refused if it holds an event",
    ..Word::FLAG
};

const AT_LEAST: Word = Word {
    name: "at-least",
    value: &["N"],
    help: "Refuses a log with fewer events",
    parser: ValueParser::Unsigned(0, u64::MAX),
    not_with: &["new"],
    ..Word::OPTION
};

/// The commands on scripts, archives and messages, and those on the program's own words.
static SCRIPTS: [Entry; 14] = [
    Entry {
        name: "run",
        about: "Plays a script and prints its reports",
        words: &[
            FILE,
            Word {
                name: "mode",
                help: "One step after another, or the stages of each node in threads",
                parser: ValueParser::Names(&["serial", "threads"]),
                default: &["serial"],
                ..Word::OPTION
            },
            Word {
                name: "text",
                help: "Reports with values, keys and messages as people write them",
                ..Word::FLAG
            },
            Word {
                name: "json",
                help: "Reports as one JSON document",
                not_with: &["text"],
                ..Word::FLAG
            },
            Word {
                name: "account",
                help: "In place of reports all that happened at each node, as one JSON document",
                not_with: &["text", "json"],
                ..Word::FLAG
            },
            Word {
                name: "quiet",
                help: "No notices; the status stays",
                ..Word::FLAG
            },
        ],
        end: "Example:\n  bowls run examples/four_nodes.scp",
    },
    Entry {
        name: "check",
        about: "Tells what is wrong with a script",
        words: &[FILE, PLAIN],
        end: "Example:\n  bowls check examples/four_nodes.scp",
    },
    Entry {
        name: "stand",
        about: "Plays a script and tells where its nodes stand, and what is missing",
        words: &[FILE, PLAIN],
        end: "Example:\n  bowls stand examples/waits_for_a_set.scp",
    },
    Entry {
        name: "trace",
        about: "Plays a script and tells all that happens, line by line",
        words: &[FILE, PLAIN],
        end: "Example:\n  bowls trace examples/first_record.scp",
    },
    Entry {
        name: "draw",
        about: "Plays a script and draws what happens, as one page of HTML",
        words: &[FILE],
        end: "Example:\n  bowls draw examples/four_nodes.scp > four_nodes.html",
    },
    Entry {
        name: "slot",
        about: "Plays a script of one slot's machine",
        words: &[FILE, PLAIN],
        end: "Example:\n  bowls slot examples/slots/alone.slot",
    },
    Entry {
        name: "quorums",
        about: "Tells whether quorums intersect, whose loss halts a node, and how many may be lost",
        words: &[
            Word {
                name: "FILE",
                help: "A script, a published document of quorum sets (JSON), or configurations of nodes (*.toml)",
                ..Word::REST
            },
            Word {
                name: "without",
                value: &["NAMES"],
                help: "What if these nodes lie: their names, with commas between them",
                ..Word::OPTION
            },
        ],
        end: "Examples:\n  bowls quorums examples/four_nodes.scp\n  bowls quorums --without alice,bob *.toml",
    },
    Entry {
        name: "history",
        about: "Tells what history archives show of how a network closed its ledgers",
        words: &[
            Word {
                name: "FILE",
                help: "The scp files of one archive, unpacked and joined; the standard input where there is none, or where it is -",
                ..Word::REST
            },
            Word {
                name: "ledgers",
                value: &["A..B"],
                help: "These ledgers alone",
                ..Word::OPTION
            },
            Word {
                name: "numbers",
                help: "A node whose id is a number below 256 by that number",
                ..Word::FLAG
            },
            JSON_LINES,
        ],
        end: "Example:\n  bowls history --numbers examples/history/confirmed.xdr",
    },
    Entry {
        name: "hex",
        about: "Writes a script with digits in place of text",
        words: &[FILE],
        end: "Example:\n  bowls hex examples/first_record.text",
    },
    Entry {
        name: "text",
        about: "Writes a script with text in place of digits",
        words: &[FILE],
        end: "Example:\n  bowls text examples/first_record.scp",
    },
    Entry {
        name: "decode",
        about: "Writes messages, or parts of them, as text",
        words: &[
            Word {
                name: "HEX",
                help: "Their bytes, each a word; where there is none, the lines of the standard input",
                ..Word::REST
            },
            AS,
            BASE64,
            JSON_LINES,
        ],
        end: "Examples:\n  bowls decode 000000050000000000000007\n  bowls decode --as envelope --base64 < envelopes",
    },
    Entry {
        name: "encode",
        about: "Writes messages, or parts of them, as bytes",
        words: &[
            Word {
                name: "TEXT",
                help: "The words of one; where there is none, the lines of the standard input",
                ..Word::REST
            },
            AS,
            BASE64,
            JSON_LINES,
        ],
        end: "Examples:\n  bowls encode getrecord 7\n  bowls encode --as set '2of(1,2,2of(3,4))'",
    },
    Entry {
        name: "completions",
        about: "Writes what a shell reads to complete the words of bowls",
        words: &[Word {
            name: "SHELL",
            help: "Which shell",
            parser: ValueParser::Names(&["bash", "zsh", "fish"]),
            required: true,
            ..Word::IN_TURN
        }],
        end: "Example:\n  source <(bowls completions bash)",
    },
    Entry {
        name: "man",
        about: "Writes this help as a page of the manual",
        words: &[],
        end: "Example:\n  bowls man > bowls.1; man ./bowls.1",
    },
];

/// The commands of a node.
static NODE: [Entry; 3] = [
    Entry {
        name: "run",
        about: "Runs a node: events in, messages and decisions out, line by line",
        words: &[
            CONFIG,
            LOG,
            NEW,
            AT_LEAST,
            Word {
                name: "trace",
                value: &["FILE"],
                help: "Writes all that happens at the end of this file, step by step",
                ..Word::OPTION
            },
        ],
        end: "Examples:\n  bowls node run examples/network/alice.toml --log node.log --new\n  bowls node run examples/network/alice.toml --log node.log --at-least 5",
    },
    Entry {
        name: "account",
        about: "Writes all that happened at a node by its log, as one JSON document",
        words: &[
            CONFIG,
            Word {
                help: "The log that the node keeps; it is read and left as it is",
                required: true,
                ..LOG
            },
        ],
        end: "Example:\n  bowls node account examples/network/alice.toml --log node.log",
    },
    Entry {
        name: "check",
        about: "Tells what is wrong with a configuration, or its digest; of several whether they agree, and what their quorums are",
        words: &[Word {
            name: "CONFIG",
            help: "The configuration of a node, in TOML",
            required: true,
            ..Word::REST
        }],
        end: "Examples:\n  bowls node check examples/network/alice.toml\n  bowls node check *.toml",
    },
];

/// A command that the program knows, with the name of the one before it.
#[derive(Clone, Copy)]
pub(crate) struct Known {
    pub parent: &'static str,
    pub entry: Entry,
}

fn add_known(
    known: &mut Vec<Known>,
    parent: &'static str,
    entries: &[Entry],
) -> Result<(), AllocError> {
    for entry in entries {
        known.push(Known {
            parent,
            entry: *entry,
        })?;
    }
    Ok(())
}

/// All commands that the program knows, but for `node` and `help`, which only lead to others.
pub(crate) fn known_commands(alloc: Global) -> Result<Vec<Known>, AllocError> {
    let mut known = Vec::new(alloc);
    add_known(&mut known, "", SCRIPTS.as_slice())?;
    add_known(&mut known, "", &[SIM])?;
    add_known(&mut known, "node", NODE.as_slice())?;
    Ok(known)
}

/// A word, as the parser of the words knows it.
fn arg_of<'a>(alloc: Global, word: &Word) -> Result<Arg<'a>, AllocError> {
    let arg = Arg::new(alloc, word.name)
        .help(word.help)
        .action(word.action)
        .value_parser(word.parser)
        .value_names(word.value)
        .default_values(word.default)
        .required(word.required);
    let arg = match word.place {
        Place::Anywhere => arg.long(word.name),
        Place::InTurn => arg,
        Place::Rest if word.required => arg.num_args(1..),
        Place::Rest => arg.num_args(0..),
    };
    arg.conflicts_with_all(word.not_with)
}

/// The words of a command.
fn args_of<'a>(alloc: Global, words: &[Word]) -> Result<Vec<Arg<'a>>, AllocError> {
    let mut args = Vec::new(alloc);
    for word in words {
        args.push(arg_of(alloc, word)?)?;
    }
    Ok(args)
}

/// A command. Its words are made first, so that few values are alive where memory may run out.
fn command_of<'a>(alloc: Global, entry: &Entry) -> Result<Command<'a>, AllocError> {
    let args = args_of(alloc, entry.words)?;
    Command::new(alloc, entry.name)
        .about(entry.about)
        .after_help(entry.end)
        .args(args)
}

fn commands_of<'a>(alloc: Global, entries: &[Entry]) -> Result<Vec<Command<'a>>, AllocError> {
    let mut commands = Vec::new(alloc);
    for entry in entries {
        commands.push(command_of(alloc, entry)?)?;
    }
    Ok(commands)
}

/// The command of a node.
fn node<'a>(alloc: Global) -> Result<Command<'a>, AllocError> {
    let commands = commands_of(alloc, NODE.as_slice())?;
    Command::new(alloc, "node")
        .about("Runs one node as a process, checks its configuration, or writes its account")
        .after_help(AFTER_NODE)
        .subcommand_required(true)
        .arg_required_else_help(true)
        .subcommands(commands)
}

/// All commands.
fn all<'a>(alloc: Global) -> Result<Vec<Command<'a>>, AllocError> {
    let mut commands = commands_of(alloc, SCRIPTS.as_slice())?;
    commands.push(command_of(alloc, &SIM)?)?;
    commands.push(node(alloc)?)?;
    Ok(commands)
}

/// All commands with all their words.
fn command_line<'a>(alloc: Global, version: &'a str) -> Result<Command<'a>, AllocError> {
    let commands = all(alloc)?;
    Command::new(alloc, "bowls")
        .bin_name("bowls")?
        .version(version)
        .about(ABOUT)
        .after_help(AFTER)
        .subcommand_required(true)
        .arg_required_else_help(true)
        .subcommands(commands)
}

/// The words of a command line, as the parser reads them.
pub(crate) fn parsed<'a>(
    alloc: Global,
    version: &'a str,
    words: &'a [&'a str],
) -> Result<ArgMatches<'a>, Error> {
    command_line(alloc, version)?.try_get_matches_from(words)
}
