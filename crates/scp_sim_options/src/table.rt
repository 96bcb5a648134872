//! The words of a command line, as tables.

use clap::ArgAction;
use clap::builder::ValueParser;

/// The place of a word on the command line.
#[derive(Clone, Copy)]
pub enum Place {
    /// Anywhere, after `--`: it is an option.
    Anywhere,
    /// In its turn.
    InTurn,
    /// In its turn, with all words that follow it, if there are any.
    Rest,
}

/// A word that a command takes. Each is one of the kinds below, with fields of its own.
#[derive(Clone, Copy)]
pub struct Word {
    /// Its name, by which it is read.
    pub name: &'static str,
    /// What help says of it.
    pub help: &'static str,
    pub place: Place,
    /// What a use of it does.
    pub action: ArgAction,
    /// What its value may be.
    pub parser: ValueParser<'static>,
    /// What help calls its value, if it isn't called by the word's name.
    pub value: &'static [&'static str],
    /// Its value if it isn't used, if it has one then.
    pub default: &'static [&'static str],
    /// The options with which it can't be used.
    pub not_with: &'static [&'static str],
    pub required: bool,
}

impl Word {
    /// An option that is there or isn't.
    pub const FLAG: Word = Word {
        name: "",
        help: "",
        place: Place::Anywhere,
        action: ArgAction::SetTrue,
        parser: ValueParser::Bool,
        value: &[],
        default: &[],
        not_with: &[],
        required: false,
    };

    /// An option with a value.
    pub const OPTION: Word = Word {
        action: ArgAction::Set,
        parser: ValueParser::String,
        ..Word::FLAG
    };

    /// An option with a value, which may be used any number of times.
    pub const MANY: Word = Word {
        action: ArgAction::Append,
        ..Word::OPTION
    };

    /// A word that is known by its place.
    pub const IN_TURN: Word = Word {
        place: Place::InTurn,
        ..Word::OPTION
    };

    /// All words from a place on.
    pub const REST: Word = Word {
        place: Place::Rest,
        ..Word::MANY
    };
}

/// A command: its name, what it does, the words that it takes, and the end of its help, which begins with an example.
#[derive(Clone, Copy)]
pub struct Entry {
    pub name: &'static str,
    pub about: &'static str,
    pub words: &'static [Word],
    pub end: &'static str,
}
