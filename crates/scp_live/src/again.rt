//! What a node sends once more to a peer, in lines.
ghost use Rattle.std.specs.Prelude.{◌≡◌, ◌⊎◌, ◌∷◌, [], false, IfErr, OnOk, string_bytes};
ghost use Rattle.scp_again.specs.scp_types.specs.declared.fault.Fault.{Fault};
ghost use Rattle.scp_live_lines.specs.Names.{name_at};
ghost use Rattle.scp_again.specs.Again.{again_of};
ghost use Rattle.scp_live.specs.Again.{SaysAgain};

use crate::live::Live;
use crate::telling::name_of;
use scp_again::below::types::Fault;
use scp_again::below::wire::{Message, encode};
use scp_again::messages_again;
use scp_live_lines::write_again;
use std::alloc::Global;

/// Adds the line of a message.
fn say(alloc: Global, text: &mut String, name: &str, message: &Message) -> Result<(), Fault>
    ensures said { OnOk result (SaysAgain name.now (message.now ∷ []) (string_bytes text.old) (string_bytes text.new)) }
    ensures only { IfErr result (λ f. (f ≡ Fault.NoMemory) ⊎ (f ≡ Fault.TooLong)) }
{
    let bytes = encode(alloc, message)?;
    write_again(text, name, bytes.as_slice())?;
    Ok(())
}

/// Adds the lines of these messages, in order.
fn say_all(alloc: Global, text: &mut String, name: &str, messages: &[Message]) -> Result<(), Fault>
    ensures said { OnOk result (SaysAgain name.now messages.now (string_bytes text.old) (string_bytes text.new)) }
    ensures only { IfErr result (λ f. (f ≡ Fault.NoMemory) ⊎ (f ≡ Fault.TooLong)) }
{
    for message in messages {
        say(alloc, text, name, message)?;
    }
    Ok(())
}

impl Live {
    /// Adds the lines of what is sent once more to the peer of a link, whose connection may have lost it (`messages_again`). The node
    /// doesn't change. Refused by `TooLong` if one of the messages doesn't fit a link, and by `NoMemory`.
    pub fn again(&self, link: u8, text: &mut String) -> Result<(), Fault>
        ensures said { self.now.node.failed ≡ false → OnOk result (SaysAgain (name_at self.now.names link) (again_of self.now.node.ledger link) (string_bytes text.old) (string_bytes text.new)) }
        ensures only { IfErr result (λ f. (f ≡ Fault.NoMemory) ⊎ (f ≡ Fault.TooLong)) }
    {
        let messages = messages_again(self.alloc, self.node.ledger(), link)?;
        let name = name_of(self.names.as_slice(), link);
        say_all(self.alloc, text, name, messages.as_slice())
    }
}
