//! Why a line is bad: the word, and what was expected there.
ghost use Rattle.std.specs.Prelude.{◌≡◌};
ghost use Rattle.scp_script.specs.Reasons.{byte_fault};
ghost use Rattle.scp_live_lines.specs.Results.{IfRefusal};
ghost use Rattle.scp_live_lines.specs.inside.Forms.{refusal_by};

use scp_script::{BadWord, WordFault, odd_bytes};
use std::alloc::Global;

/// Why a line is bad, once its words show that it is. If some of its bytes may be in no line, it is bad because of these.
pub fn judged(alloc: Global, line: &[u8], found: BadWord) -> WordFault
    ensures { IfRefusal result (λ refusal. refusal ≡ refusal_by (byte_fault line.now) found) }
{
    match odd_bytes(alloc, line) {
        Ok(Some(odd)) => WordFault::Bad(odd),
        Ok(None) => WordFault::Bad(found),
        Err(_) => WordFault::NoMemory,
    }
}
