//! Checks a configuration and shows its digest.
ghost use Rattle.std.specs.Prelude.{◌≡◌, IfOk, string_bytes};
ghost use Rattle.scp_report.specs.scp_device.specs.Device.{Gains};
ghost use Rattle.scp_live_config.specs.declared.settings.Settings.{Settings};
ghost use Rattle.scp_live.specs.Beginning.{Configures, digest_of, checked_line};

use crate::failing::{fail, refuse};
use crate::settings::settings_of;
use scp_again::below::types::Fault;
use scp_live_config::Settings;
use scp_live_log::LogFault;
use scp_report::below::device::{ReportOut, write_text};
use std::alloc::{AllocError, Global};

/// The line that is written for a valid configuration.
fn checked(alloc: Global, settings: &Settings) -> Result<String, AllocError>
    ensures { IfOk result (λ text. string_bytes text ≡ checked_line (digest_of settings.now)) }
{
    let digest = settings.digest(alloc)?;
    let digits = hex::encode(alloc, &digest.0)?;
    let mut text = String::new(alloc);
    writeln!(text, "ok {digits}")?;
    Ok(text)
}

/// Checks a configuration. Writes `ok DIGEST`, or the configuration's fault, as one line. Returns the status: 0; 1 if the text isn't a
/// configuration; 3 if memory ran out or the writer failed.
pub fn check_config<W: ReportOut>(alloc: Global, config: &[u8], writer: &mut W) -> u8
    ensures { result ≡ 0 → (settings : Settings) × Configures config.now settings × Gains (W.written writer.old) (checked_line (digest_of settings)) (W.written writer.new) }
{
    match settings_of(alloc, config) {
        Ok(settings) => match checked(alloc, &settings) {
            Ok(text) => match write_text(writer, text.as_str()) {
                Ok(()) => 0,
                Err(_) => 3,
            },
            Err(_) => fail(LogFault::Failed(Fault::NoMemory), writer),
        },
        Err(fault) => refuse(alloc, &fault, writer),
    }
}
