//! The lines of a report.

use crate::lists::NodeList;
use crate::sides::SideList;
use scp_audit::below::archive::Unread;
use scp_audit::below::judged::Verdict;
use scp_strkey::below::types::{Hash, NodeId, SharedValue};

/// Which ballot statement.
#[derive(Clone, Copy, Debug, PartialEq, Eq)]
pub enum StatementWord {
    Externalize,
    Confirm,
    Prepare,
}

/// A message of an archive: the archive's number and the message's number in its entry, both from 1.
#[derive(Clone, Copy, Debug, PartialEq, Eq)]
pub struct Place {
    pub file: usize,
    pub message: usize,
}

/// How many nodes say a value last by which statement, for how many of the first it is certified, and how many are backed.
#[derive(Clone, Copy, Debug, PartialEq, Eq)]
pub struct Counts {
    pub externalize: usize,
    pub confirm: usize,
    pub prepare: usize,
    pub certified: usize,
    pub backed: usize,
}

/// The first and the last ledger, how many between them are missing, how many there are, and how many of them are certified for all.
#[derive(Clone, Copy, Debug, PartialEq, Eq)]
pub struct Sums {
    pub first: u32,
    pub last: u32,
    pub missing: u32,
    pub ledgers: usize,
    pub certified: usize,
}

/// A line of a report.
#[derive(Drop)]
pub enum Line {
    /// A record isn't read.
    Unread {
        file: usize,
        number: usize,
        why: Unread,
    },
    /// An archive ends within this record.
    Cut {
        file: usize,
        number: usize,
    },
    /// Who says a value last.
    Value {
        ledger: u32,
        value: SharedValue,
        counts: Counts,
    },
    /// Those who externalize the value of the line before, and for whom it isn't certified.
    Uncertified {
        ledger: u32,
        nodes: NodeList,
    },
    /// Those who externalize the value of the lines before, and aren't backed.
    Unbacked {
        ledger: u32,
        nodes: NodeList,
    },
    /// Several values are certified.
    Split {
        ledger: u32,
        sides: SideList,
    },
    /// The last ballot statement of a node has another value than the one that is certified.
    Against {
        ledger: u32,
        node: NodeId,
        statement: StatementWord,
        value: SharedValue,
    },
    /// A message doesn't count. The hash is that of the set that it names.
    Message {
        ledger: u32,
        place: Place,
        verdict: Verdict,
        hash: Hash,
        node: NodeId,
    },
    /// Nodes of sets that count, of which nothing is heard.
    Silent {
        ledger: u32,
        nodes: NodeList,
    },
    /// Two messages of a node contradict each other.
    Contradicts {
        ledger: u32,
        node: NodeId,
        first: Place,
        last: Place,
    },
    /// At the end.
    End(Sums),
}
