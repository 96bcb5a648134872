//! Messages as text.
ghost use Rattle.std.specs.Prelude.{slice_get, codes, ◌≡◌, ◌<◌, ◌≢◌, ◌⊎◌, ◌↔◌, ◌++◌, ◌∷◌, [], true, false, Ok, IfOk, IfErr, OnOk, IsErrOf, IsOkUnless, map, option_map, string_bytes};
ghost use Rattle.std.specs.List.{slice_split};
ghost use Rattle.std.specs.Option.{unwrap_or};
ghost use Rattle.scp_wire.specs.Message.{message_value, SpellsMessage, FitsMessage};
ghost use Rattle.hex.specs.Hex.{IsBytes};
ghost use Rattle.scp_text.specs.Pieces.{items_in, listed};
ghost use Rattle.scp_text.specs.Messages.{IsNear, envelope_by, words_with, nominate_words, prepare_words, confirm_words, externalize_words, pledges_words, IsRefusedMessage, at, or_refused, ended, ballot_from, record_in, records_in, get_record_in, get_set_in, the_set_in, no_set_in, signature_at, signature_words, ballot_text, optional_text, values_text, ballot_in, optional_in, values_in, signature_in, words_of, message_text, nominate_in, prepare_in, confirm_in, externalize_in, envelope_in, message_by, message_in, Answers};

use crate::pieces::{digits, inside, items, write_digits};
use crate::term::{Term, read_all, write_all};
use scp_device::{BadWord, Expected, WordFault};
use scp_kv::below::types::{Ballot, Fault, Hash, SharedValue, Slot, Value};
use scp_wire::below::envelope::{
    Confirm, Envelope, Externalize, Nominate, Pledges, Prepare, Signature, Statement, ValueList,
};
use scp_wire::{BoxedEnvelope, Message, encode};
use std::alloc::{AllocError, Global};

/// What was found, or that the word at the place, from 1 on, is refused.
fn or_refused<T: Drop>(found: Option<T>, word: usize, expected: Expected) -> Result<T, WordFault>
    ensures { Answers result (or_refused found word expected) }
{
    match found {
        Some(term) => Ok(term),
        None => Err(WordFault::Bad(BadWord { word, expected })),
    }
}

/// What the word at a place, from 0 on, says.
#[tactic(auto, unfolding(crate::specs::Messages::at))]
fn term_at<T: Term>(
    alloc: Global,
    words: &[&[u8]],
    place: usize,
    expected: Expected,
) -> Result<T, WordFault>
    requires { place < 64 }
    ensures { Answers result (at T.reads expected (map (λ word. word.now) words.now) place) }
{
    let found = match words.get(place) {
        Some(word) => T::read(alloc, *word)?,
        None => None,
    };
    or_refused(found, place + 1, expected)
}

/// What stands between the brackets of a ballot.
fn ballot_from(alloc: Global, inner: &[u8]) -> Result<Option<Ballot>, Fault>
    ensures found { IfOk result (λ found. found ≡ ballot_from (items_in inner.now)) }
    ensures only_memory { IsOkUnless result Fault.NoMemory }
{
    let parts = items(alloc, inner)?;
    let [first, second] = parts.as_slice() else {
        return Ok(None);
    };
    let Some(counter) = u32::read(alloc, *first)? else {
        return Ok(None);
    };
    let Some(value) = Value::read(alloc, *second)? else {
        return Ok(None);
    };
    let value = SharedValue::new(alloc, value)?;
    Ok(Some(Ballot { counter, value }))
}

/// What `NAME(N,VALUE)` says; the name comes with its opening bracket.
#[tactic(auto, unfolding(crate::specs::Messages::ballot_in))]
fn read_ballot(alloc: Global, name: &[u8], text: &[u8]) -> Result<Option<Ballot>, Fault>
    ensures found { IfOk result (λ found. found ≡ ballot_in name.now text.now) }
    ensures only_memory { IsOkUnless result Fault.NoMemory }
{
    match inside(name, text) {
        Some(inner) => ballot_from(alloc, inner),
        None => Ok(None),
    }
}

/// The same, or a dash for none.
#[tactic(auto, unfolding(crate::specs::Messages::optional_in))]
fn read_optional(alloc: Global, name: &[u8], text: &[u8]) -> Result<Option<Option<Ballot>>, Fault>
    ensures found { IfOk result (λ found. found ≡ optional_in name.now text.now) }
    ensures only_memory { IsOkUnless result Fault.NoMemory }
{
    if text == b"-".as_slice() {
        return Ok(Some(None));
    }
    match read_ballot(alloc, name, text)? {
        Some(ballot) => Ok(Some(Some(ballot))),
        None => Ok(None),
    }
}

/// What `NAME(VALUE,..)` says; the name comes with its opening bracket.
#[tactic(auto, unfolding(crate::specs::Messages::values_in))]
fn read_values(alloc: Global, name: &[u8], text: &[u8]) -> Result<Option<ValueList>, Fault>
    ensures found { IfOk result (λ found. found ≡ values_in name.now text.now) }
    ensures only_memory { IsOkUnless result Fault.NoMemory }
{
    let Some(inner) = inside(name, text) else {
        return Ok(None);
    };
    let parts = items(alloc, inner)?;
    match read_all(alloc, parts.as_slice())? {
        Some(values) => Ok(Some(ValueList::new(values))),
        None => Ok(None),
    }
}

/// What `sig(HEX)` says.
#[tactic(auto, unfolding(crate::specs::Messages::signature_in))]
fn read_signature(alloc: Global, text: &[u8]) -> Result<Option<Signature>, Fault>
    ensures found { IfOk result (λ found. found ≡ signature_in text.now) }
    ensures only_memory { IsOkUnless result Fault.NoMemory }
{
    let Some(inner) = inside(b"sig(", text) else {
        return Ok(None);
    };
    match digits(alloc, inner)? {
        Some(bytes) => Ok(Some(Signature::new(bytes))),
        None => Ok(None),
    }
}

/// The ballot at a place.
#[tactic(auto, unfolding(crate::specs::Messages::at))]
fn ballot_at(
    alloc: Global,
    name: &[u8],
    words: &[&[u8]],
    place: usize,
    expected: Expected,
) -> Result<Ballot, WordFault>
    requires { place < 64 }
    ensures { Answers result (at (ballot_in name.now) expected (map (λ word. word.now) words.now) place) }
{
    let found = match words.get(place) {
        Some(word) => read_ballot(alloc, name, *word)?,
        None => None,
    };
    or_refused(found, place + 1, expected)
}

/// The ballot at a place, or none.
#[tactic(auto, unfolding(crate::specs::Messages::at))]
fn optional_at(
    alloc: Global,
    name: &[u8],
    words: &[&[u8]],
    place: usize,
    expected: Expected,
) -> Result<Option<Ballot>, WordFault>
    requires { place < 64 }
    ensures { Answers result (at (optional_in name.now) expected (map (λ word. word.now) words.now) place) }
{
    let found = match words.get(place) {
        Some(word) => read_optional(alloc, name, *word)?,
        None => None,
    };
    or_refused(found, place + 1, expected)
}

/// The values at a place.
#[tactic(auto, unfolding(crate::specs::Messages::at))]
fn values_at(
    alloc: Global,
    name: &[u8],
    words: &[&[u8]],
    place: usize,
    expected: Expected,
) -> Result<ValueList, WordFault>
    requires { place < 64 }
    ensures { Answers result (at (values_in name.now) expected (map (λ word. word.now) words.now) place) }
{
    let found = match words.get(place) {
        Some(word) => read_values(alloc, name, *word)?,
        None => None,
    };
    or_refused(found, place + 1, expected)
}

/// That no word stands at the place.
#[tactic(auto, unfolding(crate::specs::Messages::ended))]
fn end_at(words: &[&[u8]], place: usize) -> Result<bool, WordFault>
    requires { place < 64 }
    ensures { Answers result (ended (map (λ word. word.now) words.now) place) }
{
    match words.get(place) {
        None => Ok(true),
        Some(_) => Err(WordFault::Bad(BadWord {
            word: place + 1,
            expected: Expected::NoMore,
        })),
    }
}

/// The signature at a place, where the words end, or none.
#[tactic(auto, unfolding(crate::specs::Messages::signature_at))]
fn read_signature_at(alloc: Global, words: &[&[u8]], place: usize) -> Result<Signature, WordFault>
    requires { place < 32 }
    ensures { Answers result (signature_at (map (λ word. word.now) words.now) place) }
{
    match words.get(place) {
        None => Ok(Signature::new(Vec::new(alloc))),
        Some(word) => {
            let found = read_signature(alloc, *word)?;
            let signature = or_refused(found, place + 1, Expected::ASignature)?;
            end_at(words, place + 1)?;
            Ok(signature)
        }
    }
}

#[tactic(auto, unfolding(crate::specs::Messages::nominate_in))]
fn nominate(alloc: Global, words: &[&[u8]]) -> Result<Pledges, WordFault>
    ensures { Answers result (nominate_in (map (λ word. word.now) words.now)) }
{
    let set_hash = term_at(alloc, words, 3, Expected::AHash)?;
    let votes = values_at(alloc, b"votes(", words, 4, Expected::Votes)?;
    let accepted = values_at(alloc, b"accepted(", words, 5, Expected::Accepted)?;
    Ok(Pledges::Nominate(Nominate {
        set_hash,
        votes,
        accepted,
    }))
}

#[tactic(auto, unfolding(crate::specs::Messages::prepare_in))]
fn prepare(alloc: Global, words: &[&[u8]]) -> Result<Pledges, WordFault>
    ensures { Answers result (prepare_in (map (λ word. word.now) words.now)) }
{
    let set_hash = term_at(alloc, words, 3, Expected::AHash)?;
    let ballot = ballot_at(alloc, b"ballot(", words, 4, Expected::ABallot)?;
    let prepared = optional_at(alloc, b"prepared(", words, 5, Expected::Prepared)?;
    let prepared_prime = optional_at(alloc, b"prime(", words, 6, Expected::Prime)?;
    let n_commit = term_at(alloc, words, 7, Expected::ACounter)?;
    let n_high = term_at(alloc, words, 8, Expected::ACounter)?;
    Ok(Pledges::Prepare(Prepare {
        set_hash,
        ballot,
        prepared,
        prepared_prime,
        n_commit,
        n_high,
    }))
}

#[tactic(auto, unfolding(crate::specs::Messages::confirm_in))]
fn confirm(alloc: Global, words: &[&[u8]]) -> Result<Pledges, WordFault>
    ensures { Answers result (confirm_in (map (λ word. word.now) words.now)) }
{
    let set_hash = term_at(alloc, words, 3, Expected::AHash)?;
    let ballot = ballot_at(alloc, b"ballot(", words, 4, Expected::ABallot)?;
    let n_prepared = term_at(alloc, words, 5, Expected::ACounter)?;
    let n_commit = term_at(alloc, words, 6, Expected::ACounter)?;
    let n_high = term_at(alloc, words, 7, Expected::ACounter)?;
    Ok(Pledges::Confirm(Confirm {
        ballot,
        n_prepared,
        n_commit,
        n_high,
        set_hash,
    }))
}

#[tactic(auto, unfolding(crate::specs::Messages::externalize_in))]
fn externalize(alloc: Global, words: &[&[u8]]) -> Result<Pledges, WordFault>
    ensures { Answers result (externalize_in (map (λ word. word.now) words.now)) }
{
    let set_hash = term_at(alloc, words, 3, Expected::AHash)?;
    let commit = ballot_at(alloc, b"commit(", words, 4, Expected::Commit)?;
    let n_high = term_at(alloc, words, 5, Expected::ACounter)?;
    Ok(Pledges::Externalize(Externalize {
        commit,
        n_high,
        set_hash,
    }))
}

/// An envelope of these pledges, which may have been refused; its signature stands at the place.
#[tactic(auto, unfolding(crate::specs::Messages::envelope_in))]
fn nominating(alloc: Global, words: &[&[u8]]) -> Result<Message, WordFault>
    ensures { Answers result (envelope_in nominate_in 6 (map (λ word. word.now) words.now)) }
{
    let node = term_at(alloc, words, 1, Expected::AnyNode)?;
    let slot = term_at(alloc, words, 2, Expected::ASlot)?;
    let pledges = nominate(alloc, words)?;
    let signature = read_signature_at(alloc, words, 6)?;
    signed(
        alloc,
        Statement {
            node,
            slot,
            pledges,
        },
        signature,
    )
}

#[tactic(auto, unfolding(crate::specs::Messages::envelope_in))]
fn preparing(alloc: Global, words: &[&[u8]]) -> Result<Message, WordFault>
    ensures { Answers result (envelope_in prepare_in 9 (map (λ word. word.now) words.now)) }
{
    let node = term_at(alloc, words, 1, Expected::AnyNode)?;
    let slot = term_at(alloc, words, 2, Expected::ASlot)?;
    let pledges = prepare(alloc, words)?;
    let signature = read_signature_at(alloc, words, 9)?;
    signed(
        alloc,
        Statement {
            node,
            slot,
            pledges,
        },
        signature,
    )
}

#[tactic(auto, unfolding(crate::specs::Messages::envelope_in))]
fn confirming(alloc: Global, words: &[&[u8]]) -> Result<Message, WordFault>
    ensures { Answers result (envelope_in confirm_in 8 (map (λ word. word.now) words.now)) }
{
    let node = term_at(alloc, words, 1, Expected::AnyNode)?;
    let slot = term_at(alloc, words, 2, Expected::ASlot)?;
    let pledges = confirm(alloc, words)?;
    let signature = read_signature_at(alloc, words, 8)?;
    signed(
        alloc,
        Statement {
            node,
            slot,
            pledges,
        },
        signature,
    )
}

#[tactic(auto, unfolding(crate::specs::Messages::envelope_in))]
fn externalizing(alloc: Global, words: &[&[u8]]) -> Result<Message, WordFault>
    ensures { Answers result (envelope_in externalize_in 6 (map (λ word. word.now) words.now)) }
{
    let node = term_at(alloc, words, 1, Expected::AnyNode)?;
    let slot = term_at(alloc, words, 2, Expected::ASlot)?;
    let pledges = externalize(alloc, words)?;
    let signature = read_signature_at(alloc, words, 6)?;
    signed(
        alloc,
        Statement {
            node,
            slot,
            pledges,
        },
        signature,
    )
}

/// The message of a statement and its signature.
fn signed(alloc: Global, statement: Statement, signature: Signature) -> Result<Message, WordFault>
    ensures same { IfOk result (λ m. m ≡ Message.Envelope (record { value = record { statement = statement; signature = signature } })) }
    ensures only_memory { IsOkUnless result WordFault.NoMemory }
{
    let envelope = Envelope {
        statement,
        signature,
    };
    Ok(Message::Envelope(BoxedEnvelope::new(alloc, envelope)?))
}

#[tactic(auto, unfolding(crate::specs::Messages::record_in))]
fn record(alloc: Global, words: &[&[u8]]) -> Result<Message, WordFault>
    ensures { Answers result (record_in (map (λ word. word.now) words.now)) }
{
    let slot: Slot = term_at(alloc, words, 1, Expected::ASlot)?;
    let value = term_at(alloc, words, 2, Expected::AValue)?;
    end_at(words, 3)?;
    Ok(Message::Record(slot, value))
}

#[tactic(auto, unfolding(crate::specs::Messages::records_in))]
fn records(alloc: Global, words: &[&[u8]]) -> Result<Message, WordFault>
    ensures { Answers result (records_in (map (λ word. word.now) words.now)) }
{
    let first: Slot = term_at(alloc, words, 1, Expected::ASlot)?;
    let values = values_at(alloc, b"values(", words, 2, Expected::Values)?;
    end_at(words, 3)?;
    Ok(Message::Records { first, values })
}

#[tactic(auto, unfolding(crate::specs::Messages::get_record_in))]
fn get_record(alloc: Global, words: &[&[u8]]) -> Result<Message, WordFault>
    ensures { Answers result (get_record_in (map (λ word. word.now) words.now)) }
{
    let slot = term_at(alloc, words, 1, Expected::ASlot)?;
    end_at(words, 2)?;
    Ok(Message::GetRecord(slot))
}

#[tactic(auto, unfolding(crate::specs::Messages::get_set_in))]
fn get_set(alloc: Global, words: &[&[u8]]) -> Result<Message, WordFault>
    ensures { Answers result (get_set_in (map (λ word. word.now) words.now)) }
{
    let hash = term_at(alloc, words, 1, Expected::AHash)?;
    end_at(words, 2)?;
    Ok(Message::GetSet(hash))
}

#[tactic(auto, unfolding(crate::specs::Messages::the_set_in))]
fn the_set(alloc: Global, words: &[&[u8]]) -> Result<Message, WordFault>
    ensures { Answers result (the_set_in (map (λ word. word.now) words.now)) }
{
    let set = term_at(alloc, words, 1, Expected::ASet)?;
    end_at(words, 2)?;
    Ok(Message::Set(set))
}

#[tactic(auto, unfolding(crate::specs::Messages::no_set_in))]
fn no_set(alloc: Global, words: &[&[u8]]) -> Result<Message, WordFault>
    ensures { Answers result (no_set_in (map (λ word. word.now) words.now)) }
{
    let hash = term_at(alloc, words, 1, Expected::AHash)?;
    end_at(words, 2)?;
    Ok(Message::NoSet(hash))
}

/// The first word, or nothing.
fn verb_of<'a>(words: &[&'a [u8]]) -> &'a [u8]
    ensures { result.now ≡ unwrap_or (slice_get (map (λ word. word.now) words.entry.now) 0) [] }
{
    match words.get(0) {
        Some(word) => *word,
        None => b"".as_slice(),
    }
}

/// The envelope that the words say, by the first of them.
fn read_envelope(alloc: Global, verb: &[u8], words: &[&[u8]]) -> Result<Message, WordFault>
    ensures { Answers result (envelope_by verb.now (map (λ word. word.now) words.now)) }
{
    if verb == b"nominate".as_slice() {
        return nominating(alloc, words);
    }
    if verb == b"prepare".as_slice() {
        return preparing(alloc, words);
    }
    if verb == b"confirm".as_slice() {
        return confirming(alloc, words);
    }
    if verb == b"externalize".as_slice() {
        return externalizing(alloc, words);
    }
    Err(WordFault::Bad(BadWord {
        word: 1,
        expected: Expected::AMessage,
    }))
}

/// The message that the words say, by the first of them.
fn read_by(alloc: Global, verb: &[u8], words: &[&[u8]]) -> Result<Message, WordFault>
    ensures { Answers result (message_by verb.now (map (λ word. word.now) words.now)) }
{
    if verb == b"record".as_slice() {
        return record(alloc, words);
    }
    if verb == b"records".as_slice() {
        return records(alloc, words);
    }
    if verb == b"getrecord".as_slice() {
        return get_record(alloc, words);
    }
    if verb == b"getset".as_slice() {
        return get_set(alloc, words);
    }
    if verb == b"set".as_slice() {
        return the_set(alloc, words);
    }
    if verb == b"noset".as_slice() {
        return no_set(alloc, words);
    }
    read_envelope(alloc, verb, words)
}

/// The message that the words say, within its limits or not.
#[tactic(auto, unfolding(crate::specs::Messages::message_in))]
fn read_message(alloc: Global, words: &[&[u8]]) -> Result<Message, WordFault>
    ensures { Answers result (message_in (map (λ word. word.now) words.now)) }
{
    read_by(alloc, verb_of(words), words)
}

/// Adds a space and a term.
fn write_term<T: Term>(out: &mut String, term: &T) -> Result<(), Fault>
    ensures added { OnOk result (string_bytes out.new ≡ string_bytes out.old ++ 32 ∷ T.writes term.now) }
    ensures only_memory { IsOkUnless result Fault.NoMemory }
{
    out.push_str(" ")?;
    term.write(out)
}

/// Adds `NAME(N,VALUE)`; the name comes with its opening bracket.
fn write_ballot(out: &mut String, name: &str, ballot: &Ballot) -> Result<(), Fault>
    ensures added { OnOk result (string_bytes out.new ≡ string_bytes out.old ++ ballot_text name.now ballot.now) }
    ensures only_memory { IsOkUnless result Fault.NoMemory }
{
    out.push_str(name)?;
    ballot.counter.write(out)?;
    out.push_str(",")?;
    ballot.value.get().write(out)?;
    out.push_str(")")?;
    Ok(())
}

/// Adds a space and the same, or a dash for none.
fn write_optional(out: &mut String, name: &str, ballot: &Option<Ballot>) -> Result<(), Fault>
    ensures added { OnOk result (string_bytes out.new ≡ string_bytes out.old ++ 32 ∷ optional_text name.now ballot.now) }
    ensures only_memory { IsOkUnless result Fault.NoMemory }
{
    out.push_str(" ")?;
    match ballot {
        Some(ballot) => write_ballot(out, name, ballot)?,
        None => out.push_str("-")?,
    }
    Ok(())
}

/// Adds `NAME(VALUE,..)`; the name comes with its opening bracket.
fn write_values(out: &mut String, name: &str, values: &ValueList) -> Result<(), Fault>
    ensures added { OnOk result (string_bytes out.new ≡ string_bytes out.old ++ values_text name.now values.now) }
    ensures only_memory { IsOkUnless result Fault.NoMemory }
{
    out.push_str(name)?;
    write_all(out, values.as_slice())?;
    out.push_str(")")?;
    Ok(())
}

/// Adds a space and `sig(HEX)`, or nothing for a signature of no bytes.
fn write_signature(out: &mut String, signature: &[u8]) -> Result<(), Fault>
    ensures added { OnOk result (string_bytes out.new ≡ string_bytes out.old ++ listed 32 false (signature_words signature.now)) }
    ensures only_memory { IsOkUnless result Fault.NoMemory }
{
    match signature {
        [] => {}
        [_, ..] => {
            out.push_str(" sig(")?;
            write_digits(out, signature)?;
            out.push_str(")")?;
        }
    }
    Ok(())
}

/// Adds the first words of an envelope.
fn write_front(
    out: &mut String,
    name: &str,
    statement: &Statement,
    set_hash: &Hash,
) -> Result<(), Fault>
    ensures added { OnOk result (string_bytes out.new ≡ string_bytes out.old ++ listed 32 true (words_with name.now statement.now.node statement.now.slot set_hash.now [])) }
    ensures only_memory { IsOkUnless result Fault.NoMemory }
{
    out.push_str(name)?;
    write_term(out, &statement.node)?;
    write_term(out, &statement.slot)?;
    write_term(out, set_hash)
}

fn write_prepare(out: &mut String, p: &Prepare) -> Result<(), Fault>
    ensures added { OnOk result (string_bytes out.new ≡ string_bytes out.old ++ listed 32 false (prepare_words p.now)) }
    ensures only_memory { IsOkUnless result Fault.NoMemory }
{
    write_ballot(out, " ballot(", &p.ballot)?;
    write_optional(out, "prepared(", &p.prepared)?;
    write_optional(out, "prime(", &p.prepared_prime)?;
    write_term(out, &p.n_commit)?;
    write_term(out, &p.n_high)
}

fn write_confirm(out: &mut String, p: &Confirm) -> Result<(), Fault>
    ensures added { OnOk result (string_bytes out.new ≡ string_bytes out.old ++ listed 32 false (confirm_words p.now)) }
    ensures only_memory { IsOkUnless result Fault.NoMemory }
{
    write_ballot(out, " ballot(", &p.ballot)?;
    write_term(out, &p.n_prepared)?;
    write_term(out, &p.n_commit)?;
    write_term(out, &p.n_high)
}

fn write_externalize(out: &mut String, p: &Externalize) -> Result<(), Fault>
    ensures added { OnOk result (string_bytes out.new ≡ string_bytes out.old ++ listed 32 false (externalize_words p.now)) }
    ensures only_memory { IsOkUnless result Fault.NoMemory }
{
    write_ballot(out, " commit(", &p.commit)?;
    write_term(out, &p.n_high)
}

fn write_nominate(out: &mut String, p: &Nominate) -> Result<(), Fault>
    ensures added { OnOk result (string_bytes out.new ≡ string_bytes out.old ++ listed 32 false (nominate_words p.now)) }
    ensures only_memory { IsOkUnless result Fault.NoMemory }
{
    write_values(out, " votes(", &p.votes)?;
    write_values(out, " accepted(", &p.accepted)
}

/// Adds a statement of this kind.
fn write_nominating(out: &mut String, statement: &Statement, p: &Nominate) -> Result<(), Fault>
    ensures added { OnOk result (string_bytes out.new ≡ string_bytes out.old ++ listed 32 true (words_with (codes "nominate") statement.now.node statement.now.slot p.now.set_hash (nominate_words p.now))) }
    ensures only_memory { IsOkUnless result Fault.NoMemory }
{
    write_front(out, "nominate", statement, &p.set_hash)?;
    write_nominate(out, p)
}

/// Adds a statement of this kind.
fn write_preparing(out: &mut String, statement: &Statement, p: &Prepare) -> Result<(), Fault>
    ensures added { OnOk result (string_bytes out.new ≡ string_bytes out.old ++ listed 32 true (words_with (codes "prepare") statement.now.node statement.now.slot p.now.set_hash (prepare_words p.now))) }
    ensures only_memory { IsOkUnless result Fault.NoMemory }
{
    write_front(out, "prepare", statement, &p.set_hash)?;
    write_prepare(out, p)
}

/// Adds a statement of this kind.
fn write_confirming(out: &mut String, statement: &Statement, p: &Confirm) -> Result<(), Fault>
    ensures added { OnOk result (string_bytes out.new ≡ string_bytes out.old ++ listed 32 true (words_with (codes "confirm") statement.now.node statement.now.slot p.now.set_hash (confirm_words p.now))) }
    ensures only_memory { IsOkUnless result Fault.NoMemory }
{
    write_front(out, "confirm", statement, &p.set_hash)?;
    write_confirm(out, p)
}

/// Adds a statement of this kind.
fn write_externalizing(
    out: &mut String,
    statement: &Statement,
    p: &Externalize,
) -> Result<(), Fault>
    ensures added { OnOk result (string_bytes out.new ≡ string_bytes out.old ++ listed 32 true (words_with (codes "externalize") statement.now.node statement.now.slot p.now.set_hash (externalize_words p.now))) }
    ensures only_memory { IsOkUnless result Fault.NoMemory }
{
    write_front(out, "externalize", statement, &p.set_hash)?;
    write_externalize(out, p)
}

/// Adds a statement.
fn write_statement(out: &mut String, statement: &Statement) -> Result<(), Fault>
    ensures added { OnOk result (string_bytes out.new ≡ string_bytes out.old ++ listed 32 true (pledges_words statement.now.node statement.now.slot statement.now.pledges)) }
    ensures only_memory { IsOkUnless result Fault.NoMemory }
{
    match &statement.pledges {
        Pledges::Nominate(p) => write_nominating(out, statement, p),
        Pledges::Prepare(p) => write_preparing(out, statement, p),
        Pledges::Confirm(p) => write_confirming(out, statement, p),
        Pledges::Externalize(p) => write_externalizing(out, statement, p),
    }
}

/// Adds an envelope.
fn write_envelope(out: &mut String, envelope: &Envelope) -> Result<(), Fault>
    ensures added { OnOk result (string_bytes out.new ≡ string_bytes out.old ++ listed 32 true (pledges_words envelope.now.statement.node envelope.now.statement.slot envelope.now.statement.pledges ++ signature_words envelope.now.signature)) }
    ensures only_memory { IsOkUnless result Fault.NoMemory }
{
    write_statement(out, &envelope.statement)?;
    write_signature(out, envelope.signature.as_slice())
}

/// Adds the text of a message.
#[tactic(auto, unfolding(crate::specs::Messages::message_text))]
fn write_message(out: &mut String, message: &Message) -> Result<(), Fault>
    ensures added { OnOk result (string_bytes out.new ≡ string_bytes out.old ++ message_text message.now) }
    ensures only_memory { IsOkUnless result Fault.NoMemory }
{
    match message {
        Message::Envelope(envelope) => write_envelope(out, envelope.get()),
        Message::GetSet(hash) => {
            out.push_str("getset")?;
            write_term(out, hash)
        }
        Message::Set(set) => {
            out.push_str("set")?;
            write_term(out, set)
        }
        Message::NoSet(hash) => {
            out.push_str("noset")?;
            write_term(out, hash)
        }
        Message::GetRecord(slot) => {
            out.push_str("getrecord")?;
            write_term(out, slot)
        }
        Message::Record(slot, value) => {
            out.push_str("record")?;
            write_term(out, slot)?;
            write_term(out, value)
        }
        Message::Records { first, values } => {
            out.push_str("records")?;
            write_term(out, first)?;
            write_values(out, " values(", values)
        }
    }
}

/// The words of a text.
pub fn words<'a>(alloc: Global, text: &'a [u8]) -> Result<Vec<&'a [u8]>, AllocError>
    ensures { IfOk result (λ words. map (λ word. word.now) words.items ≡ words_of text.entry.now) }
{
    text.split(|byte| *byte == b' ').collect(alloc)
}

/// The message that the text says: words parted by one space. Refused where a word is none of its place, with the word's
/// place from 1 on and what was expected there; at word 1 where the message is over its limits; or for want of memory.
pub fn message_of(alloc: Global, text: &[u8]) -> Result<Message, WordFault>
    // What is read is what the words say.
    ensures found { IfOk result (λ m. message_in (words_of text.now) ≡ Ok m) }
    // It is within the limits.
    ensures within { IfOk result (λ m. FitsMessage (message_value m)) }
    // A refusal tells the first word that says something else, or that the message is over its limits.
    ensures refused { IfErr result (IsRefusedMessage (words_of text.now)) }
{
    let words = words(alloc, text)?;
    message_of_words(alloc, words.as_slice())
}

/// The message that the words say, as `message_of` reads it.
#[tactic(auto, using(crate::proofs::Near::near_refusal))]
pub fn message_of_words(alloc: Global, words: &[&[u8]]) -> Result<Message, WordFault>
    // What is read is what the words say.
    ensures found { IfOk result (λ m. message_in (map (λ word. word.now) words.now) ≡ Ok m) }
    // It is within the limits.
    ensures within { IfOk result (λ m. FitsMessage (message_value m)) }
    // A refusal tells the first word that says something else, or that the message is over its limits.
    ensures refused { IfErr result (IsRefusedMessage (map (λ word. word.now) words.now)) }
    // That is one of the first 16 words.
    ensures near { IfErr result IsNear }
{
    let message = read_message(alloc, words)?;
    match encode(alloc, &message) {
        Ok(_) => Ok(message),
        Err(Fault::TooLong) => Err(WordFault::Bad(BadWord {
            word: 1,
            expected: Expected::WithinLimits,
        })),
        Err(_) => Err(WordFault::NoMemory),
    }
}

/// That each of the bytes is below 256. Does nothing.
pub fn see_bytes(bytes: &[u8])
    ensures { IsBytes bytes.now }
{}

/// That the text of a message that bytes spell is read as it. Does nothing.
fn see_text(bytes: &[u8], message: &Message)
    requires { SpellsMessage bytes.now (message_value message.now) }
    ensures { message_in (words_of (message_text message.now)) ≡ Ok message.now }
{
    see_bytes(bytes);
}

/// The text of a message, the shortest of its forms, which `message_of` reads as this message. `TooLong` where it is
/// over its limits.
pub fn text_of(alloc: Global, message: &Message) -> Result<String, Fault>
    // The text is the message's words with a space between them.
    ensures text { IfOk result (λ text. string_bytes text ≡ message_text message.now) }
    // Its words say just this message.
    ensures read_back { IfOk result (λ text. message_in (words_of (string_bytes text)) ≡ Ok message.now) }
    // It is too long just where it breaks a limit.
    ensures too_long { IsErrOf result Fault.TooLong ↔ ¬ (FitsMessage (message_value message.now)) }
    // There are two reasons to refuse.
    ensures only { IfErr result (λ f. (f ≡ Fault.NoMemory) ⊎ (f ≡ Fault.TooLong)) }
{
    let bytes = encode(alloc, message)?;
    see_text(bytes.as_slice(), message);
    let mut text = String::new(alloc);
    write_message(&mut text, message)?;
    Ok(text)
}
