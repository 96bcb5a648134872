//! Laws of scripts that were rewritten, and of messages that were decoded.
ghost use Rattle.scp_script_text.specs.Scripts.{ScriptsComeBack, NoneIsRefused, SlotScriptsComeBack};
ghost use Rattle.scp_script_text.specs.Laws.{ComesBack, IsNeverRefused};

use scp_text::below::xdr::what_is_written_is_read_back;
use scp_text::what_is_written_says_it;

/// Take a script of nodes whose hex digits are lower-case and encode something. Made text, and then hex digits again, it is the same
/// script.
pub fn scripts_come_back()
    ensures { ScriptsComeBack }
{
    what_is_written_says_it();
    what_is_written_is_read_back();
}

/// No line of such a script's text is refused when it is made hex digits again.
pub fn none_is_refused()
    ensures { NoneIsRefused }
{
    what_is_written_says_it();
    what_is_written_is_read_back();
}

/// If each line of a slot's script is the same in hex digits, its text in hex digits is that script again, to the byte.
pub fn slot_scripts_come_back()
    ensures { SlotScriptsComeBack }
{}

/// A text that was decoded is encoded as the bytes that it was decoded from, whichever spelling either word has.
pub fn decoding_comes_back()
    ensures { ComesBack }
{}

/// No word of a decoded text is refused when the text is read as a message.
pub fn no_text_is_refused()
    ensures { IsNeverRefused }
{}
