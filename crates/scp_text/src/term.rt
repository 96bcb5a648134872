//! What stands for itself in the notation, and lists of it.
ghost use Rattle.std.specs.Prelude.{◌≡◌, ◌++◌, ℕ, List, Option, IfOk, OnOk, IsOkUnless, true, map, option_map, string_bytes};
ghost use Rattle.scp_text.specs.Pieces.{listed, all_of};

use scp_kv::below::types::Fault;
use std::alloc::Global;

/// What is written as one text without a space.
pub trait Term: Drop {
    /// Its text.
    ghost writes: { Self → List ℕ };
    /// What a text says.
    ghost reads: { List ℕ → Option Self };

    /// What the text says, if anything.
    fn read(alloc: Global, text: &[u8]) -> Result<Option<Self>, Fault>
        ensures found { IfOk result (λ found. found ≡ reads text.now) }
        ensures only_memory { IsOkUnless result Fault.NoMemory };

    /// Adds its text.
    fn write(&self, out: &mut String) -> Result<(), Fault>
        ensures added { OnOk result (string_bytes out.new ≡ string_bytes out.old ++ writes self.now) }
        ensures only_memory { IsOkUnless result Fault.NoMemory };
}

/// What each of the texts says, if each says something.
pub fn read_all<T: Term>(alloc: Global, texts: &[&[u8]]) -> Result<Option<Vec<T>>, Fault>
    ensures found { IfOk result (λ found. option_map (λ terms. terms.items) found ≡ all_of T.reads (map (λ text. text.now) texts.now)) }
    ensures only_memory { IsOkUnless result Fault.NoMemory }
{
    let mut terms = Vec::new(alloc);
    for text in texts {
        match T::read(alloc, *text)? {
            Some(term) => terms.push(term)?,
            None => return Ok(None),
        }
    }
    Ok(Some(terms))
}

/// Adds the texts, with commas between them.
pub fn write_all<T: Term>(out: &mut String, terms: &[T]) -> Result<(), Fault>
    ensures added { OnOk result (string_bytes out.new ≡ string_bytes out.old ++ listed 44 true (map T.writes terms.now)) }
    ensures only_memory { IsOkUnless result Fault.NoMemory }
{
    let mut first = true;
    for term in terms {
        if !first {
            out.push_str(",")?;
        }
        term.write(out)?;
        first = false;
    }
    Ok(())
}
