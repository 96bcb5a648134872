//! What the lines of a script of one slot carry.
ghost use Rattle.std.specs.Prelude.{◌≡◌, map, option_map};
ghost use Rattle.std.specs.List.{find};
ghost use Rattle.scp_script_text.specs.Scripts.{lines_of, counts as does_count, is_slot_script as is_script_of_slot};
ghost use Rattle.scp_script_text.specs.SlotLines.{kind_of as kind_of_words, kind_by};

/// What a line of a slot's script carries.
#[derive(Clone, Copy, PartialEq, Eq)]
pub enum SlotLine {
    /// `slot ME SLOT SET`: a quorum set.
    Machine,
    /// `propose VALUE`: a value.
    Proposal,
    /// `envelope ENVELOPE SET`: an envelope and a quorum set. The envelope is one word in hex digits or several words as text.
    Hears,
    /// Nothing.
    Other,
}

/// What a line carries, by its first word and by how many words there are between it and the last.
fn kind_with(verb: &[u8], more: usize) -> SlotLine
    ensures { result ≡ kind_by verb.now more }
{
    if verb == b"propose".as_slice() && more == 0 {
        return SlotLine::Proposal;
    }
    if verb == b"slot".as_slice() && more == 2 {
        return SlotLine::Machine;
    }
    if verb == b"envelope".as_slice() && more > 0 {
        return SlotLine::Hears;
    }
    SlotLine::Other
}

/// What a line carries, by all its words but the last.
pub fn kind_of(front: &[&[u8]]) -> SlotLine
    ensures { result ≡ kind_of_words (map (λ word. word.now) front.now) }
{
    match front {
        [] => SlotLine::Other,
        [verb, more @ ..] => kind_with(*verb, more.len()),
    }
}

/// Whether a line is neither empty nor a comment.
fn counts(line: &[u8]) -> bool
    ensures { result ≡ does_count line.now }
{
    match line {
        [] => false,
        [byte, ..] => *byte != b'#',
    }
}

/// The first line that is neither empty nor a comment.
fn first_line(script: &[u8]) -> Option<&[u8]>
    ensures { option_map (λ line. line.now) result ≡ find does_count (lines_of script.entry.now) }
{
    script
        .split(|byte| *byte == b'\n')
        .find(|line| counts(*line))
}

/// Whether a script is one of a slot: its first line that is neither empty nor a comment begins with `slot` and a space. It takes no
/// memory.
pub fn is_slot_script(script: &[u8]) -> bool
    ensures { result ≡ is_script_of_slot script.now }
{
    match first_line(script) {
        Some(line) => line.starts_with(b"slot "),
        None => false,
    }
}
