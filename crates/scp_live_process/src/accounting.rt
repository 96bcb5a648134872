//! The account of a node, made from its log.
ghost use Rattle.std.specs.Prelude.{◌≡◌, IfOk, OnOk, string_bytes};
ghost use Rattle.scp_stand_node.specs.scp_turn.specs.Kv.{Goes};
ghost use Rattle.scp_batches.specs.scp_live_log.specs.Log.{IsLine};
ghost use Rattle.scp_live_process.specs.Accounts.{IsAccountOf, AccountsFor, IsAccounted};
ghost use Rattle.scp_live.specs.Living.{IsLive};

use scp_account::{KeepingWatch, Mode, account, reports_of, what_is_kept_is_what_happened};
use scp_batches::below::live_log::{EventLog, Kept, LogFault, Wanted};
use scp_live::below::live_config::Settings;
use scp_live::{Live, begun, fail, header, refuse, replay, settings_of};
use scp_stand_node::below::device::{ReportOut, write_text};
use scp_stand_node::below::turn::{
    KvDriver, each_node_holds_its_headline, each_node_holds_its_ledger,
};
use scp_stand_node::below::types::Fault;
use std::alloc::Global;
use std::slice;

/// Plays what the log says, and returns the account of it.
fn account_of<L: EventLog>(
    alloc: Global,
    live: &mut Live,
    kept: &mut Kept<L>,
    header: &[u8],
) -> Result<String, LogFault>
    requires live { IsLive live.old.node }
    requires line { ¬ (IsLine header.now) }
    ensures account { Goes live.old.node live.new.node (λ _ heard _. IfOk result (λ text. IsAccountOf L.holds header.now kept.old live.old heard live.new (string_bytes text))) }
{
    what_is_kept_is_what_happened();
    let found = kept.recover(alloc, header, Wanted::AtLeast(0))?;
    let entries = found.entries;
    let mut watch = KeepingWatch::new(alloc);
    replay(alloc, live, entries.as_slice(), &mut watch)?;
    if watch.lacks_memory() {
        return Err(LogFault::Failed(Fault::NoMemory));
    }
    let happened = watch.into_kept();
    let reports = reports_of(alloc, slice::from_ref(live.node()))?;
    let records = reports.as_slice();
    let text = account(alloc, Mode::Serial, records, happened.as_slice())?;
    Ok(text)
}

/// Writes the account of a node with this configuration.
fn account_settings<L: EventLog + Drop, W: ReportOut>(
    alloc: Global,
    settings: &Settings,
    log: L,
    writer: &mut W,
) -> Result<(), LogFault>
    ensures accounted { OnOk result (AccountsFor L.holds settings.now (W.written writer.old) (W.written writer.new) log) }
{
    each_node_holds_its_ledger::<KvDriver>();
    each_node_holds_its_headline::<KvDriver>();
    let mut live = begun(alloc, settings)?;
    let line = header(alloc, &settings.digest(alloc)?)?;
    let mut kept = Kept::new(log);
    let text = account_of(alloc, &mut live, &mut kept, line.as_slice())?;
    write_text(writer, text.as_str())?;
    Ok(())
}

/// Writes the account of a node with this configuration and this log, as one JSON document. Plays each entry of the log again. Returns
/// the status: 0; 1 if the text isn't a configuration, or the log is another configuration's or damaged; 3 if the log or the writer
/// failed, or memory ran out. An error is written as one line.
pub fn account_node<L: EventLog + Drop, W: ReportOut>(
    alloc: Global,
    config: &[u8],
    log: L,
    writer: &mut W,
) -> u8
    ensures accounted { result ≡ 0 → IsAccounted L.holds config.now (W.written writer.old) (W.written writer.new) log }
{
    match settings_of(alloc, config) {
        Ok(settings) => match account_settings(alloc, &settings, log, writer) {
            Ok(()) => 0,
            Err(fault) => fail(fault, writer),
        },
        Err(fault) => refuse(alloc, &fault, writer),
    }
}
