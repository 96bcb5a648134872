//! Lines of an input that are converted, one by one.
ghost use Rattle.std.specs.Prelude.{◌≡◌, ◌≢◌, ◌≤◌, ◌⊎◌, ◌++◌, ◌∷◌, ℕ, List, [], false, length, map, IfOk, OnOk, OnErr, codes, string_bytes};
ghost use Rattle.scp_script_short.specs.scp_device.specs.Device.{Gains, Fails as HasFailed, IsAll};
ghost use Rattle.scp_convert.specs.scp_prompt.specs.Failing.{status_of as failure_status};
ghost use Rattle.scp_command.specs.Converting.{lines_of, is_skipped as skips, AreConverted, AreReported, output_of, reported_of, conversion_status};
ghost use Rattle.scp_command.specs.inside.Converting.{AddsLine};
ghost use Rattle.scp_command.specs.Serving.{IsTold, IsUnread, AreTold};

use crate::serving::{read_long, tell};
use scp_convert::below::prompt::{Cause, Conversion, Failure, LONG_LIMIT, write_bytes};
use scp_convert::{Outcome, Refusal, converted, write_refused};
use scp_script_short::below::device::{ReportOut, ScriptIn};
use scp_script_short::below::types::Fault;
use std::alloc::{AllocError, Global};

/// A refused line of an input, from 1 on.
#[derive(Clone, Copy)]
pub struct RefusedLine {
    pub line: usize,
    pub refusal: Refusal,
}

/// A conversion, and how it is to be done.
#[derive(Clone, Copy)]
pub struct ConversionOrder<'a> {
    pub conversion: Conversion,
    /// If a line is refused, nothing is written, and no other refused line is reported.
    pub whole: bool,
    /// The input's name.
    pub name: &'a str,
}

/// What the lines of an input come to.
#[derive(Drop)]
struct Made {
    text: String,
    refused: Vec<RefusedLine>,
}

/// Whether a line is empty or a comment.
fn is_skipped(line: &[u8]) -> bool
    ensures { result ≡ skips line.now }
{
    match line {
        [] => true,
        [byte, ..] => *byte == b'#',
    }
}

/// The lines of an input.
fn lines<'a>(alloc: Global, text: &'a [u8]) -> Result<Vec<&'a [u8]>, AllocError>
    ensures { IfOk result (λ lines. map (λ line. line.now) lines.items ≡ lines_of text.entry.now) }
{
    text.split(|byte| *byte == b'\n').collect(alloc)
}

/// Adds a text, and a line feed.
fn add_text(out: &mut String, text: &str) -> Result<(), AllocError>
    ensures { OnOk result (string_bytes out.new ≡ string_bytes out.old ++ (text.now ++ codes "\n")) }
{
    out.push_str(text)?;
    out.push_str("\n")
}

/// Adds a refused line.
fn add_refused(
    refused: &mut Vec<RefusedLine>,
    line: usize,
    refusal: Refusal,
) -> Result<(), AllocError>
    ensures { OnOk result (refused.new.items ≡ refused.old.items ++ record { line = line; refusal = refusal } ∷ []) }
{
    refused.push(RefusedLine { line, refusal })?;
    Ok(())
}

/// Adds what a line that isn't skipped comes to.
fn add_converted(
    alloc: Global,
    conversion: Conversion,
    out: &mut String,
    refused: &mut Vec<RefusedLine>,
    place: usize,
    line: &[u8],
) -> Result<(), AllocError>
    requires { skips line.now ≡ false }
    ensures { OnOk result (AddsLine conversion place line.now (string_bytes out.old) refused.old.items (string_bytes out.new) refused.new.items) }
{
    match converted(alloc, conversion, place, line)? {
        Outcome::Text(text) => add_text(out, text.as_str()),
        Outcome::Refused(refusal) => add_refused(refused, place, refusal),
    }
}

/// Adds what a line comes to.
#[tactic(auto, using(crate::proofs::Lines::nothing_added))]
fn add_line(
    alloc: Global,
    conversion: Conversion,
    out: &mut String,
    refused: &mut Vec<RefusedLine>,
    place: usize,
    line: &[u8],
) -> Result<(), AllocError>
    ensures { OnOk result (AddsLine conversion place line.now (string_bytes out.old) refused.old.items (string_bytes out.new) refused.new.items) }
{
    if is_skipped(line) {
        return Ok(());
    }
    add_converted(alloc, conversion, out, refused, place, line)
}

/// What lines come to.
fn convert_lines(alloc: Global, conversion: Conversion, lines: &[&[u8]]) -> Result<Made, AllocError>
    ensures { IfOk result (λ made. AreConverted conversion 1 (map (λ line. line.now) lines.now) (string_bytes made.text) made.refused.items) }
{
    let mut text = String::new(alloc);
    let mut refused = Vec::new(alloc);
    for (index, line) in lines.iter().enumerate() {
        match add_line(alloc, conversion, &mut text, &mut refused, index + 1, *line) {
            Ok(()) => (),
            Err(error) => return Err(error),
        }
    }
    Ok(Made { text, refused })
}

/// What the lines of an input come to.
fn convert_text(alloc: Global, conversion: Conversion, text: &[u8]) -> Result<Made, AllocError>
    ensures { IfOk result (λ made. AreConverted conversion 1 (lines_of text.now) (string_bytes made.text) made.refused.items) }
{
    let lines = match lines(alloc, text) {
        Ok(lines) => lines,
        Err(error) => return Err(error),
    };
    convert_lines(alloc, conversion, lines.as_slice())
}

/// What is written of what lines come to.
fn output<'a>(whole: bool, text: &'a str, refused: &[RefusedLine]) -> &'a str
    ensures { result.now ≡ output_of whole text.entry.now refused.now }
{
    match refused {
        [_, ..] if whole => "",
        _ => text,
    }
}

/// The refused lines that are reported.
fn reported(whole: bool, refused: &[RefusedLine]) -> &[RefusedLine]
    ensures { result.now ≡ reported_of whole refused.entry.now }
{
    match refused {
        [_, ..] if whole => &refused[..1],
        _ => refused,
    }
}

/// The exit status of these refused lines.
fn status_of(refused: &[RefusedLine]) -> u8
    ensures { result ≡ conversion_status refused.now }
{
    match refused {
        [] => 0,
        [_, ..] => 1,
    }
}

/// Writes the lines that report refused lines. The only refusal is `Fault::Device`, if the writer failed.
fn write_all_refused<E: ReportOut>(
    alloc: Global,
    conversion: Conversion,
    name: &str,
    input: &[u8],
    refused: &[RefusedLine],
    errors: &mut E,
) -> Result<(), Fault>
    ensures whole { OnOk result ((told : List ℕ) × AreReported conversion name.now input.now refused.now told × Gains (E.written errors.old) told (E.written errors.new)) }
    ensures raised { OnErr result (HasFailed (E.failures errors.old) (E.failures errors.new)) }
    ensures kept { OnOk result (E.failures errors.new ≡ E.failures errors.old) }
{
    for bad in refused {
        match write_refused(
            alloc,
            errors,
            conversion,
            name,
            input,
            bad.line,
            bad.refusal,
        ) {
            Ok(()) => (),
            Err(fault) => return Err(fault),
        }
    }
    Ok(())
}

/// Reports refused lines, if the stream of errors takes it.
#[tactic(auto, using(crate::proofs::Lines::all_told))]
fn tell_refused<E: ReportOut>(
    alloc: Global,
    conversion: Conversion,
    name: &str,
    input: &[u8],
    refused: &[RefusedLine],
    errors: &mut E,
)
    ensures { AreTold E.written E.failures errors.old conversion name.now input.now refused.now errors.new }
{
    let _ = write_all_refused(alloc, conversion, name, input, refused, errors);
}

/// Writes what lines come to, and reports the refused ones. Returns the status.
fn finish<O: ReportOut + Cause, E: ReportOut>(
    alloc: Global,
    order: ConversionOrder<'_>,
    input: &[u8],
    made: &Made,
    output_to: &mut O,
    errors: &mut E,
) -> u8
    ensures written { result ≢ 3 → (result ≡ conversion_status made.now.refused.items) × Gains (O.written output_to.old) (output_of order.entry.whole (string_bytes made.now.text) made.now.refused.items) (O.written output_to.new) × AreTold E.written E.failures errors.old order.entry.conversion order.entry.name.now input.now (reported_of order.entry.whole made.now.refused.items) errors.new }
    ensures failed { result ≡ 3 → HasFailed (O.failures output_to.old) (O.failures output_to.new) × IsTold E.written E.failures errors.old (codes "<stdout>") [] (O.cause output_to.new) Failure.Unwritten errors.new }
{
    let refused = made.refused.as_slice();
    let text = output(order.whole, made.text.as_str(), refused);
    match write_bytes(output_to, text.as_bytes()) {
        Ok(()) => {
            let told = reported(order.whole, refused);
            tell_refused(alloc, order.conversion, order.name, input, told, errors);
            status_of(refused)
        }
        Err(_) => tell(
            alloc,
            "<stdout>",
            &[],
            output_to.cause(),
            &Failure::Unwritten,
            errors,
        ),
    }
}

/// Converts each line of an input, one by one, and writes what they come to. A line that isn't converted is reported on the stream of errors,
/// and the next one is converted. Returns the exit status: 0 for done, 1 if a line is refused or the input is too long, 3 for memory or a
/// stream.
pub fn convert<R: ScriptIn + Cause, O: ReportOut + Cause, E: ReportOut>(
    alloc: Global,
    order: ConversionOrder<'_>,
    input: &mut R,
    output: &mut O,
    errors: &mut E,
) -> u8
    ensures few { result ≤ 3 }
    ensures no_usage { result ≢ 2 }
    // The whole input was read. Exactly what its lines come to was written, and each refused line was reported, unless the stream of errors
    // failed: the status says whether there is one. Or the input couldn't be read, or it is out of memory: that is reported, and nothing was
    // written. Or the output failed, which is reported.
    ensures ends { ((text out : List ℕ) × (refused : List RefusedLine) × IsAll (R.left input.old) text × (length text ≤ LONG_LIMIT) × AreConverted order.entry.conversion 1 (lines_of text) out refused × (result ≡ conversion_status refused) × Gains (O.written output.old) (output_of order.entry.whole out refused) (O.written output.new) × AreTold E.written E.failures errors.old order.entry.conversion order.entry.name.now text (reported_of order.entry.whole refused) errors.new)
        ⊎ (((failure : Failure) × (result ≡ failure_status failure) × IsUnread LONG_LIMIT (R.left input.old) (HasFailed (R.failures input.old) (R.failures input.new)) failure × IsTold E.written E.failures errors.old order.entry.name.now [] (R.cause input.new) failure errors.new × (output.new ≡ output.old))
        ⊎ (((text : List ℕ) × (result ≡ 3) × IsAll (R.left input.old) text × IsTold E.written E.failures errors.old order.entry.name.now text [] Failure.NoMemory errors.new × (output.new ≡ output.old))
        ⊎ ((result ≡ 3) × HasFailed (O.failures output.old) (O.failures output.new) × IsTold E.written E.failures errors.old (codes "<stdout>") [] (O.cause output.new) Failure.Unwritten errors.new))) }
{
    match read_long(alloc, input) {
        Err(failure) => tell(alloc, order.name, &[], input.cause(), &failure, errors),
        Ok(text) => match convert_text(alloc, order.conversion, text.as_slice()) {
            Ok(made) => finish(alloc, order, text.as_slice(), &made, output, errors),
            Err(_) => tell(
                alloc,
                order.name,
                text.as_slice(),
                "",
                &Failure::NoMemory,
                errors,
            ),
        },
    }
}
