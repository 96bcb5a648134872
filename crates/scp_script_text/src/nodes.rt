//! What the lines of a script of nodes carry.
ghost use Rattle.std.specs.Prelude.{◌≡◌, ◌≤◌, Some, None, map};
ghost use Rattle.scp_script_text.specs.Scripts.{carries as does_carry};
ghost use Rattle.scp_script_text.specs.Lines.{carried_by, carried_in as carried_of, words_before as count_before};

/// What a line of a script carries after its first words.
#[derive(Clone, Copy, PartialEq, Eq)]
pub enum Carried {
    /// A message, after `send I J`.
    Message,
    /// A value, after `propose I SLOT`.
    Value,
    /// A quorum set, after `set I`.
    Set,
}

/// What a line carries, by its first word.
fn carried_with(verb: &[u8]) -> Option<Carried>
    ensures { result ≡ carried_by verb.now }
{
    if verb == b"send".as_slice() {
        return Some(Carried::Message);
    }
    if verb == b"propose".as_slice() {
        return Some(Carried::Value);
    }
    if verb == b"set".as_slice() {
        return Some(Carried::Set);
    }
    None
}

/// What a line carries, by its words.
pub fn carried_in(words: &[&[u8]]) -> Option<Carried>
    ensures { result ≡ carried_of (map (λ word. word.now) words.now) }
{
    match words {
        [] => None,
        [verb, ..] => carried_with(*verb),
    }
}

/// Whether a line carries a message, a value or a quorum set, judged by its first word. It takes no memory.
pub fn carries(line: &[u8]) -> bool
    ensures { result ≡ does_carry line.now }
{
    match line.split(|byte| *byte == b' ').next() {
        Some(verb) => carried_with(verb).is_some(),
        None => false,
    }
}

/// How many words come before what a line carries.
pub fn words_before(carried: Carried) -> usize
    ensures count { result ≡ count_before carried }
    ensures few { result ≤ 3 }
{
    match carried {
        Carried::Message | Carried::Value => 3,
        Carried::Set => 2,
    }
}
