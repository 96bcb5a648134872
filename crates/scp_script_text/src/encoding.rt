//! The bytes of the message that a text says.
ghost use Rattle.std.specs.Prelude.{IfOk, IfErr, string_bytes};
ghost use Rattle.scp_text.specs.Messages.{words_of, IsRefusedMessage};
ghost use Rattle.scp_script_text.specs.Decoding.{IsEncoded};

use crate::bytes::{Spelling, spelled};
use scp_text::below::wire::encode;
use scp_text::{WordFault, message_of};
use std::alloc::Global;

/// The bytes, encoded in a word, of the message that a text says, such as `record 1 ops(put(a,1))`. It takes time in proportion to the
/// text.
pub fn encode_text(alloc: Global, spelling: Spelling, text: &[u8]) -> Result<String, WordFault>
    // The text says a message, and the word encodes that message's bytes.
    ensures encoded { IfOk result (λ word. IsEncoded spelling text.now (string_bytes word)) }
    // Otherwise the text's first bad word is reported, or that the message breaks a limit. Or memory ran out.
    ensures refused { IfErr result (IsRefusedMessage (words_of text.now)) }
{
    let message = message_of(alloc, text)?;
    let bytes = encode(alloc, &message)?;
    Ok(spelled(alloc, spelling, bytes.as_slice())?)
}
