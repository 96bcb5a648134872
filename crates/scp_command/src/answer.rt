//! What a command makes of its input.
ghost use Rattle.std.specs.Prelude.{string_bytes};
ghost use Rattle.scp_command.specs.Answers.{IsJust};

use std::alloc::Global;

/// What a command makes of its input.
#[derive(Drop)]
pub struct Answer {
    /// The bytes for the output.
    pub text: Vec<u8>,
    /// The notices of a run, one line each.
    pub notices: String,
}

impl Answer {
    /// An answer made of a text, without notices.
    pub(crate) fn of_text(alloc: Global, text: String) -> Answer
        ensures { IsJust (string_bytes text) result }
    {
        Answer {
            text: text.into_bytes(),
            notices: String::new(alloc),
        }
    }

    /// An answer made of bytes, without notices.
    pub(crate) fn of_bytes(alloc: Global, text: Vec<u8>) -> Answer
        ensures { IsJust text.items result }
    {
        Answer {
            text,
            notices: String::new(alloc),
        }
    }
}
