//! Bad words of texts: where they stand, and what was expected there. All that read texts tell them so.
ghost use Rattle.std.specs.Prelude.{◌≡◌};
ghost use Rattle.scp_device.specs.Expected.{words_of, number_of};

use scp_types::Fault;
use std::alloc::{AllocError, AllocFailed};
use std::fmt::{self, Display};
use thiserror::Error;

/// What was expected at a bad word.
#[derive(Clone, Copy, Debug, PartialEq, Eq)]
pub enum Expected {
    // ---- of the bytes of a line
    Ascii,
    NoMark,
    NoReturn,
    NoTab,
    OneSpace,
    // ---- of words of any text
    ASlot,
    ANumber,
    Digits,
    ASet,
    ASaneSet,
    NoMore,
    // ---- of the lines of a script
    AVerb,
    NodesFirst,
    NodesOnce,
    CapsFirst,
    SetsFirst,
    ACapacity,
    /// Of nodes.
    ACount,
    /// At most so many.
    AThreshold(u32),
    /// Of so many nodes.
    ANode(u32),
    /// Of so many nodes.
    AnotherNode(u32),
    AClosedLink,
    FewerLives,
    AnOpenLink,
    // ---- of shorthand
    /// From 1 to 65,535.
    HowMany,
    // ---- of messages, values and quorum sets as text
    AMessage,
    AValue,
    Values,
    AHash,
    /// By its number or its id.
    AnyNode,
    ABallot,
    ACounter,
    Votes,
    Accepted,
    Prepared,
    Prime,
    Commit,
    ASignature,
    WithinLimits,
    // ---- of the bytes of a message
    BytesInDigits,
    BytesInBase64,
    AMessageWithin,
    /// The bytes are none from this one on, counted from 0.
    AMessageFrom(usize),
    // ---- of scripts of one slot
    AnEnvelope,
    EnvelopeBytes,
    OfTheSlot,
    TheNamedSet,
    AShortValue,
    ANodeNumber,
    SlotFirst,
    SlotOnce,
    ASlotLine,
    ASlotVerb,
    ALine,
    // ---- of the lines of a host
    AHostVerb,
    /// By the name of its link.
    APeer,
}

impl Expected {
    /// What was expected, in words, up to the number that some end with.
    pub fn words(self) -> &'static str
        ensures { result.now ≡ words_of self }
    {
        match self {
            Expected::Ascii => "ASCII",
            Expected::NoMark => "no byte order mark",
            Expected::NoReturn => { "no carriage return: a line ends with a line feed alone" }
            Expected::NoTab => "one space, no tab",
            Expected::OneSpace => {
                "one space between words, none before the first and none behind the last"
            }
            Expected::ASlot => "a slot, below 2^64",
            Expected::ANumber => "a number, below 2^64",
            Expected::Digits => "hexadecimal digits, or - for none",
            Expected::ASet => "a quorum set, as 2of(1,2,2of(3,4))",
            Expected::ASaneSet => "a sane quorum set",
            Expected::NoMore => "the end of the line",
            Expected::AVerb => {
                "caps, nodes, set, open, close, send, propose, round, timer, tick, ask, settle, wait or report"
            }
            Expected::NodesFirst => "nodes first",
            Expected::NodesOnce => "nodes only once",
            Expected::CapsFirst => "caps before nodes",
            Expected::SetsFirst => "set before the lines that act",
            Expected::ACapacity => "a capacity, 1 to 1024",
            Expected::ACount => "how many nodes, 1 to 8",
            Expected::AThreshold(_) => "a threshold, 1 to ",
            Expected::ANode(_) => "a node, 1 to ",
            Expected::AnotherNode(_) => "another node, 1 to ",
            Expected::AClosedLink => "a link that isn't open",
            Expected::FewerLives => "a link that was opened less than 65535 times",
            Expected::AnOpenLink => "an open link",
            Expected::HowMany => "how many, 1 to 65535",
            Expected::AMessage => "a message, as record SLOT VALUE",
            Expected::AValue => "a value: ops(..), hex(..) or -, of at most 4096 bytes",
            Expected::Values => "values(VALUE,..)",
            Expected::AHash => "a hash: 64 digits or hash(SET)",
            Expected::AnyNode => "a node: 1 to 255, or 64 digits",
            Expected::ABallot => "ballot(N,VALUE)",
            Expected::ACounter => "a counter, below 2^32",
            Expected::Votes => "votes(VALUE,..)",
            Expected::Accepted => "accepted(VALUE,..)",
            Expected::Prepared => "prepared(N,VALUE), or - for none",
            Expected::Prime => "prime(N,VALUE), or - for none",
            Expected::Commit => "commit(N,VALUE)",
            Expected::ASignature => "sig(HEX), or the end of the line",
            Expected::WithinLimits => "a message or a quorum set within its limits",
            Expected::BytesInDigits => "the bytes of a message, in hexadecimal digits",
            Expected::BytesInBase64 => "the bytes of a message, in base64",
            Expected::AMessageWithin => "a message within its limits",
            Expected::AMessageFrom(_) => "a message; it is malformed at its byte ",
            Expected::AnEnvelope => {
                "an envelope: nominate, prepare, confirm or externalize, or hexadecimal digits"
            }
            Expected::EnvelopeBytes => "an envelope",
            Expected::OfTheSlot => "an envelope of the script's slot",
            Expected::TheNamedSet => "the quorum set that the envelope names",
            Expected::AShortValue => "a value of at most 4096 bytes",
            Expected::ANodeNumber => "a node, 1 to 255",
            Expected::SlotFirst => "slot ME SLOT SET in the first line",
            Expected::SlotOnce => "slot only once, and first",
            Expected::ASlotLine => "slot ME SLOT SET",
            Expected::ASlotVerb => "propose, round, timer or envelope",
            Expected::ALine => "a line of a script",
            Expected::AHostVerb => {
                "open, close, recv, propose, round, timer, tick, ask, again, state, report, stand or applied"
            }
            Expected::APeer => "a peer",
        }
    }

    /// The number that the words end with, of those that do.
    pub fn number(self) -> Option<u64>
        ensures { result ≡ number_of self }
    {
        match self {
            Expected::AThreshold(most) | Expected::ANode(most) | Expected::AnotherNode(most) => {
                Some(u64::from(most))
            }
            Expected::AMessageFrom(place) => Some(place as u64),
            _ => None,
        }
    }
}

impl Display for Expected {
    fn fmt<W: fmt::Write>(&self, f: &mut fmt::Formatter<W>) -> fmt::Result {
        f.write_str(self.words())?;
        match self.number() {
            Some(number) => write!(f, "{number}"),
            None => Ok(()),
        }
    }
}

/// A bad word of a line, from 1 on, and what was expected there.
#[derive(Clone, Copy, Debug, PartialEq, Eq)]
pub struct BadWord {
    pub word: usize,
    pub expected: Expected,
}

impl Display for BadWord {
    fn fmt<W: fmt::Write>(&self, f: &mut fmt::Formatter<W>) -> fmt::Result {
        let word = self.word;
        let expected = self.expected;
        write!(f, "{word}: {expected}")
    }
}

/// A bad line of a text, from 1 on, and its first bad word.
#[derive(Clone, Copy, Debug, PartialEq, Eq)]
pub struct BadLine {
    pub line: usize,
    pub bad: BadWord,
}

impl Display for BadLine {
    fn fmt<W: fmt::Write>(&self, f: &mut fmt::Formatter<W>) -> fmt::Result {
        let line = self.line;
        let bad = self.bad;
        write!(f, "line {line} at {bad}")
    }
}

/// Why the words of a line, or a text of one line, aren't read.
#[derive(Clone, Copy, Debug, PartialEq, Eq, Error)]
pub enum WordFault {
    /// There is no memory.
    #[error("no memory")]
    NoMemory,
    /// A word says something else than what belongs there.
    #[error("{0}")]
    Bad(BadWord),
}

impl From<AllocError> for WordFault {
    ghost use Rattle.scp_device.specs.declared.bad.WordFault.TheVariants.{NoMemory};

    ghost from_gives = { λ _ e. e ≡ NoMemory };

    fn from(_e: AllocError) -> WordFault {
        WordFault::NoMemory
    }
}

impl<T: Drop> From<AllocFailed<T>> for WordFault {
    ghost use Rattle.scp_device.specs.declared.bad.WordFault.TheVariants.{NoMemory};

    ghost from_gives = { λ _ e. e ≡ NoMemory };

    fn from(_e: AllocFailed<T>) -> WordFault {
        WordFault::NoMemory
    }
}

impl From<BadWord> for WordFault {
    ghost use Rattle.scp_device.specs.declared.bad.WordFault.TheVariants.{Bad};

    ghost from_gives = { λ bad e. e ≡ Bad bad };

    fn from(bad: BadWord) -> WordFault {
        WordFault::Bad(bad)
    }
}

/// For calls whose one refusal is want of memory.
impl From<Fault> for WordFault {
    ghost use Rattle.scp_device.specs.declared.bad.WordFault.TheVariants.{NoMemory};

    ghost from_gives = { λ _ e. e ≡ NoMemory };

    fn from(_fault: Fault) -> WordFault {
        WordFault::NoMemory
    }
}

/// Why a text isn't read.
#[derive(Clone, Copy, Debug, PartialEq, Eq, Error)]
pub enum ReadFault {
    /// There is no memory.
    #[error("no memory")]
    NoMemory,
    /// A line is bad, by this word.
    #[error("{0}")]
    Bad(BadLine),
    /// This line, from 1 on, is the first bad one, and its word isn't told: there is no memory for that.
    #[error("line {0}")]
    BadAt(usize),
}

impl From<AllocError> for ReadFault {
    ghost use Rattle.scp_device.specs.declared.bad.ReadFault.TheVariants.{NoMemory};

    ghost from_gives = { λ _ e. e ≡ NoMemory };

    fn from(_e: AllocError) -> ReadFault {
        ReadFault::NoMemory
    }
}

impl<T: Drop> From<AllocFailed<T>> for ReadFault {
    ghost use Rattle.scp_device.specs.declared.bad.ReadFault.TheVariants.{NoMemory};

    ghost from_gives = { λ _ e. e ≡ NoMemory };

    fn from(_e: AllocFailed<T>) -> ReadFault {
        ReadFault::NoMemory
    }
}

/// For calls whose one refusal is want of memory.
impl From<Fault> for ReadFault {
    ghost use Rattle.scp_device.specs.declared.bad.ReadFault.TheVariants.{NoMemory};

    ghost from_gives = { λ _ e. e ≡ NoMemory };

    fn from(_fault: Fault) -> ReadFault {
        ReadFault::NoMemory
    }
}
