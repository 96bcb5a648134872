//! Why a line isn't converted, and what was expected in it.
ghost use Rattle.std.specs.Prelude.{◌≡◌, ◌++◌, ℕ, List, OnOk, OnErr, codes};
ghost use Rattle.scp_script_text.specs.scp_device.specs.Device.{Gains, Fails};
ghost use Rattle.scp_script_text.specs.scp_device.specs.Expected.{number_text};
ghost use Rattle.scp_convert.specs.Refusals.{refused_word, one_of, coding_words, expected_words, expected_number, IsRefusedLine};

use itoa::Buffer;
use scp_prompt::{Coding, Conversion, Kind, Place, write_place};
use scp_script_text::below::device::{BadWord, ReportOut};
use scp_script_text::below::types::Fault;
use std::alloc::Global;

/// Why a line isn't converted.
#[derive(Clone, Copy)]
pub enum Refusal {
    /// A word of the text isn't what belongs there.
    Word(BadWord),
    /// The word says no bytes.
    NoBytes,
    /// The bytes break a limit.
    TooLong,
    /// The bytes are none of their kind from this one on, counted from 0.
    Malformed(usize),
    /// The text is of a message that carries no envelope.
    NoEnvelope,
    /// The text has a signature, at this word.
    Signed(usize),
}

impl Refusal {
    /// The word that is refused, from 1 on.
    pub fn word(self) -> usize
        ensures { result ≡ refused_word self }
    {
        match self {
            Refusal::Word(bad) => bad.word,
            Refusal::Signed(word) => word,
            _ => 1,
        }
    }
}

/// What was expected of a word that says no bytes.
fn bytes_expected(kind: Kind, coding: Coding) -> &'static str
    ensures { result.now ≡ codes "the bytes of " ++ one_of kind ++ coding_words coding }
{
    match (kind, coding) {
        (Kind::Message, Coding::Hex) => "the bytes of a message, in hexadecimal digits",
        (Kind::Message, Coding::Base64) => "the bytes of a message, in base64",
        (Kind::Envelope, Coding::Hex) => "the bytes of an envelope, in hexadecimal digits",
        (Kind::Envelope, Coding::Base64) => "the bytes of an envelope, in base64",
        (Kind::Statement, Coding::Hex) => "the bytes of a statement, in hexadecimal digits",
        (Kind::Statement, Coding::Base64) => "the bytes of a statement, in base64",
        (Kind::Set, Coding::Hex) => "the bytes of a quorum set, in hexadecimal digits",
        (Kind::Set, Coding::Base64) => "the bytes of a quorum set, in base64",
        (Kind::Value, Coding::Hex) => "the bytes of a value, in hexadecimal digits",
        (Kind::Value, Coding::Base64) => "the bytes of a value, in base64",
    }
}

/// What was expected of bytes that break a limit.
fn limits_expected(kind: Kind) -> &'static str
    ensures { result.now ≡ one_of kind ++ codes " within its limits" }
{
    match kind {
        Kind::Message => "a message within its limits",
        Kind::Envelope => "an envelope within its limits",
        Kind::Statement => "a statement within its limits",
        Kind::Set => "a quorum set within its limits",
        Kind::Value => "a value within its limits",
    }
}

/// What was expected of malformed bytes, up to the place.
fn form_expected(kind: Kind) -> &'static str
    ensures { result.now ≡ one_of kind ++ codes "; it is malformed at its byte " }
{
    match kind {
        Kind::Message => "a message; it is malformed at its byte ",
        Kind::Envelope => "an envelope; it is malformed at its byte ",
        Kind::Statement => "a statement; it is malformed at its byte ",
        Kind::Set => "a quorum set; it is malformed at its byte ",
        Kind::Value => "a value; it is malformed at its byte ",
    }
}

/// What was expected of a text that says no envelope.
fn verb_expected(kind: Kind) -> &'static str
    ensures { result.now ≡ one_of kind ++ codes ": nominate, prepare, confirm or externalize" }
{
    match kind {
        Kind::Message => "a message: nominate, prepare, confirm or externalize",
        Kind::Envelope => "an envelope: nominate, prepare, confirm or externalize",
        Kind::Statement => "a statement: nominate, prepare, confirm or externalize",
        Kind::Set => "a quorum set: nominate, prepare, confirm or externalize",
        Kind::Value => "a value: nominate, prepare, confirm or externalize",
    }
}

/// What was expected at the word that is refused, up to the number that some end with.
fn words_of(kind: Kind, coding: Coding, refusal: Refusal) -> &'static str
    ensures { result.now ≡ expected_words kind coding refusal }
{
    match refusal {
        Refusal::Word(bad) => bad.expected.words(),
        Refusal::NoBytes => bytes_expected(kind, coding),
        Refusal::TooLong => limits_expected(kind),
        Refusal::Malformed(_) => form_expected(kind),
        Refusal::NoEnvelope => verb_expected(kind),
        Refusal::Signed(_) => "the end of the line: a statement has no signature",
    }
}

/// The number that it ends with, if it does.
fn number_of(refusal: Refusal) -> Option<u64>
    ensures { result ≡ expected_number refusal }
{
    match refusal {
        Refusal::Word(bad) => bad.expected.number(),
        Refusal::Malformed(place) => Some(place as u64),
        _ => None,
    }
}

/// A number in decimal digits, or nothing if there is none.
fn digits_of<'a>(buffer: &'a mut Buffer, number: Option<u64>) -> &'a str
    ensures { result.now ≡ number_text number }
{
    match number {
        Some(number) => buffer.format(number),
        None => "",
    }
}

/// Writes the line that reports a refused line of the input with this name and these bytes. The only refusal is `Fault::Device`, if the
/// writer failed.
pub fn write_refused<W: ReportOut>(
    alloc: Global,
    writer: &mut W,
    conversion: Conversion,
    name: &str,
    input: &[u8],
    line: usize,
    refusal: Refusal,
) -> Result<(), Fault>
    ensures whole { OnOk result ((told : List ℕ) × IsRefusedLine conversion.kind conversion.coding name.now input.now line refusal told × Gains (W.written writer.old) told (W.written writer.new)) }
    ensures raised { OnErr result (Fails (W.failures writer.old) (W.failures writer.new)) }
    ensures kept { OnOk result (W.failures writer.new ≡ W.failures writer.old) }
{
    let place = Place {
        name,
        line,
        word: refusal.word(),
    };
    let mut buffer = Buffer::new();
    let end = digits_of(&mut buffer, number_of(refusal));
    let words = words_of(conversion.kind, conversion.coding, refusal);
    write_place(alloc, writer, input, &place, words, end)
}
