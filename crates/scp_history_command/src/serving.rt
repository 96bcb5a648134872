//! What the command does with archives that were read.
ghost use Rattle.std.specs.Prelude.{◌≡◌, ◌≢◌, ◌≤◌, ◌⊎◌, ◌++◌, ℕ, List, [], IfOk, OnOk, IsOkUnless, codes, string_bytes};
ghost use Rattle.scp_ledgers.specs.scp_device.specs.Device.{Gains, Fails as HasFailed};
ghost use Rattle.scp_history_command.specs.Serving.{unread_of, written, IsTold, IsReported};

use crate::order::HistoryOrder;
use scp_history_json::write_objects;
use scp_ledgers::below::device::ReportOut;
use scp_ledgers::below::history::{Line, status_of};
use scp_ledgers::below::types::Fault;
use scp_ledgers::{Archives, write_report};
use scp_prompt::{Cause, Failure, LONG_LIMIT, write_bytes, write_failure};
use std::alloc::{AllocError, Global};

/// The failure of an archive that couldn't be read.
pub fn failure_of(fault: Fault) -> Failure
    ensures { result ≡ unread_of fault }
{
    match fault {
        Fault::Device => Failure::Unread,
        Fault::TooLong => Failure::TooLong(LONG_LIMIT),
        _ => Failure::NoMemory,
    }
}

/// A report, and its status.
#[derive(Drop)]
struct Told {
    text: String,
    status: u8,
}

/// Adds the text of a report: as lines, or as an object for each.
fn write_lines(text: &mut String, order: HistoryOrder, lines: &[Line]) -> Result<(), AllocError>
    ensures { OnOk result (string_bytes text.new ≡ string_bytes text.old ++ written order lines.now) }
{
    if order.json {
        return write_objects(text, order.by_number, lines);
    }
    write_report(text, order.by_number, lines)
}

/// The report on archives.
fn reported(alloc: Global, order: HistoryOrder, archives: &Archives) -> Result<Told, Fault>
    ensures told { IfOk result (λ told. IsReported order archives.now.list.items (string_bytes told.text) told.status) }
    ensures only_memory { IsOkUnless result Fault.NoMemory }
{
    let lines = archives.report(alloc, order.span)?;
    let lines = lines.as_slice();
    let mut text = String::new(alloc);
    write_lines(&mut text, order, lines)?;
    let status = status_of(lines);
    Ok(Told { text, status })
}

/// Reports a failure, if the stream of errors takes it, and returns 3.
#[tactic(auto, using(crate::proofs::Told::told_by))]
fn tell<E: ReportOut>(alloc: Global, name: &str, why: &str, failure: &Failure, errors: &mut E) -> u8
    ensures status { result ≡ 3 }
    ensures told { IsTold E.written E.failures errors.old name.now why.now failure.now errors.new }
{
    let _ = write_failure(alloc, errors, name, &[], why, failure);
    3
}

/// Writes the text of a report.
fn finish<O: ReportOut + Cause, E: ReportOut>(
    alloc: Global,
    told: &Told,
    output: &mut O,
    errors: &mut E,
) -> u8
    requires { told.now.status ≢ 3 }
    ensures written { result ≢ 3 → (result ≡ told.now.status) × Gains (O.written output.old) (string_bytes told.now.text) (O.written output.new) × (errors.new ≡ errors.old) }
    ensures failed { result ≡ 3 → HasFailed (O.failures output.old) (O.failures output.new) × IsTold E.written E.failures errors.old (codes "<stdout>") (O.cause output.new) Failure.Unwritten errors.new }
{
    match write_bytes(output, told.text.as_bytes()) {
        Ok(()) => told.status,
        Err(_) => tell(
            alloc,
            "<stdout>",
            output.cause(),
            &Failure::Unwritten,
            errors,
        ),
    }
}

/// Writes the report on the archives, and returns its status: 1 where an archive is cut, else 4 where there is a line but values and the last one,
/// else 0. Where that fails, the line of the failure is written to the stream of errors, and 3 is returned.
pub fn write_history<O: ReportOut + Cause, E: ReportOut>(
    alloc: Global,
    order: HistoryOrder,
    archives: &Archives,
    output: &mut O,
    errors: &mut E,
) -> u8
    ensures few { result ≤ 4 }
    // The whole report was written, and the status is its own.
    ensures done { result ≢ 3 → (text : List ℕ) × IsReported order archives.now.list.items text result × Gains (O.written output.old) text (O.written output.new) × (errors.new ≡ errors.old) }
    // Memory ran out, and nothing was written to the output; or the output failed. Exactly the failure's line was written to the stream of errors, unless
    // that stream failed.
    ensures failed { result ≡ 3 →
        (IsTold E.written E.failures errors.old (codes "history") [] Failure.NoMemory errors.new × (output.new ≡ output.old))
        ⊎ (HasFailed (O.failures output.old) (O.failures output.new) × IsTold E.written E.failures errors.old (codes "<stdout>") (O.cause output.new) Failure.Unwritten errors.new) }
{
    match reported(alloc, order, archives) {
        Ok(told) => finish(alloc, &told, output, errors),
        Err(_) => tell(alloc, "history", "", &Failure::NoMemory, errors),
    }
}
