//! The words after the first one, read as what they must be.
ghost use Rattle.std.specs.Prelude.{◌≡◌, ◌∷◌, [], ℕ, List, IfOk, IfErr, Some, map, string_bytes};
ghost use Rattle.std.specs.Fmt.{decimal};
ghost use Rattle.scp_script.specs.Words.{hex_bytes};
ghost use Rattle.scp_live_lines.specs.Says.{HasLink, IsSlot, name_of};
ghost use Rattle.scp_live_lines.specs.Bad.{IsWrongBehind};
ghost use Rattle.scp_live_lines.specs.Results.{IfBad};
ghost use Rattle.scp_live_lines.specs.inside.Forms.{SaysPeerAndBytes, SaysSlotAndValue};

use crate::words::{bytes, peer, slot, value};
use scp_core::below::types::{Slot, Value};
use scp_core::below::wire::Bytes;
use scp_script::{BadWord, Expected, WordFault};
use std::alloc::Global;

/// No word.
pub fn nothing(rest: &[&str]) -> Result<(), BadWord>
    ensures read { IfOk result (λ none. map (λ word. word.now) rest.now ≡ []) }
    ensures bad { IfErr result (λ refusal. (names : List (List ℕ)) → IsWrongBehind names [] (map (λ word. word.now) rest.now) 2 refusal) }
{
    match rest {
        [] => Ok(()),
        _ => Err(BadWord {
            word: 2,
            expected: Expected::NoMore,
        }),
    }
}

/// A peer and nothing else.
pub fn one_peer(names: &[String], rest: &[&str]) -> Result<u8, BadWord>
    ensures read { IfOk result (λ link. HasLink (map string_bytes names.now) link × (map (λ word. word.now) rest.now ≡ name_of (map string_bytes names.now) link ∷ [])) }
    ensures bad { IfErr result (IsWrongBehind (map string_bytes names.now) (Expected.APeer ∷ []) (map (λ word. word.now) rest.now) 2) }
{
    match rest {
        [] => Err(BadWord {
            word: 2,
            expected: Expected::APeer,
        }),
        [name] => peer(names, *name),
        [name, ..] => {
            peer(names, *name)?;
            Err(BadWord {
                word: 3,
                expected: Expected::NoMore,
            })
        }
    }
}

/// A slot and nothing else.
pub fn one_slot(rest: &[&str]) -> Result<Slot, BadWord>
    ensures read { IfOk result (λ slot. IsSlot slot × (map (λ word. word.now) rest.now ≡ decimal slot.0 ∷ [])) }
    ensures bad { IfErr result (λ refusal. (names : List (List ℕ)) → IsWrongBehind names (Expected.ASlot ∷ []) (map (λ word. word.now) rest.now) 2 refusal) }
{
    match rest {
        [] => Err(BadWord {
            word: 2,
            expected: Expected::ASlot,
        }),
        [number] => slot(*number, 2),
        [number, ..] => {
            slot(*number, 2)?;
            Err(BadWord {
                word: 3,
                expected: Expected::NoMore,
            })
        }
    }
}

/// A peer and a slot.
pub fn peer_and_slot(names: &[String], rest: &[&str]) -> Result<(u8, Slot), BadWord>
    ensures read { IfOk result (λ said. HasLink (map string_bytes names.now) said.0 × IsSlot said.1 × (map (λ word. word.now) rest.now ≡ name_of (map string_bytes names.now) said.0 ∷ decimal said.1.0 ∷ [])) }
    ensures bad { IfErr result (IsWrongBehind (map string_bytes names.now) (Expected.APeer ∷ Expected.ASlot ∷ []) (map (λ word. word.now) rest.now) 2) }
{
    match rest {
        [] => Err(BadWord {
            word: 2,
            expected: Expected::APeer,
        }),
        [name] => {
            peer(names, *name)?;
            Err(BadWord {
                word: 3,
                expected: Expected::ASlot,
            })
        }
        [name, number] => {
            let link = peer(names, *name)?;
            let slot = slot(*number, 3)?;
            Ok((link, slot))
        }
        [name, number, ..] => {
            peer(names, *name)?;
            slot(*number, 3)?;
            Err(BadWord {
                word: 4,
                expected: Expected::NoMore,
            })
        }
    }
}

/// A peer and bytes in hexadecimal digits.
pub fn peer_and_bytes(
    alloc: Global,
    names: &[String],
    rest: &[&str],
) -> Result<(u8, Bytes), WordFault>
    ensures read { IfOk result (λ said. SaysPeerAndBytes (map string_bytes names.now) (map (λ word. word.now) rest.now) said.0 said.1) }
    ensures bad { IfBad result (IsWrongBehind (map string_bytes names.now) (Expected.APeer ∷ Expected.Digits ∷ []) (map (λ word. word.now) rest.now) 2) }
{
    match rest {
        [] => Err(WordFault::Bad(BadWord {
            word: 2,
            expected: Expected::APeer,
        })),
        [name] => {
            peer(names, *name)?;
            Err(WordFault::Bad(BadWord {
                word: 3,
                expected: Expected::Digits,
            }))
        }
        [name, digits] => {
            let link = peer(names, *name)?;
            let bytes = bytes(alloc, *digits)?;
            Ok((link, bytes))
        }
        [name, digits, ..] => {
            peer(names, *name)?;
            bytes(alloc, *digits)?;
            Err(WordFault::Bad(BadWord {
                word: 4,
                expected: Expected::NoMore,
            }))
        }
    }
}

/// A slot and a value in hexadecimal digits.
pub fn slot_and_value(alloc: Global, rest: &[&str]) -> Result<(Slot, Value), WordFault>
    ensures read { IfOk result (λ said. SaysSlotAndValue (map (λ word. word.now) rest.now) said.0 said.1) }
    ensures bad { IfBad result (λ refusal. (names : List (List ℕ)) → IsWrongBehind names (Expected.ASlot ∷ Expected.Digits ∷ []) (map (λ word. word.now) rest.now) 2 refusal) }
{
    match rest {
        [] => Err(WordFault::Bad(BadWord {
            word: 2,
            expected: Expected::ASlot,
        })),
        [number] => {
            slot(*number, 2)?;
            Err(WordFault::Bad(BadWord {
                word: 3,
                expected: Expected::Digits,
            }))
        }
        [number, digits] => {
            let slot = slot(*number, 2)?;
            let value = value(alloc, *digits)?;
            Ok((slot, value))
        }
        [number, digits, ..] => {
            slot(*number, 2)?;
            bytes(alloc, *digits)?;
            Err(WordFault::Bad(BadWord {
                word: 4,
                expected: Expected::NoMore,
            }))
        }
    }
}
