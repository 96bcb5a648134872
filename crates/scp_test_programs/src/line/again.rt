//! Calls that were refused are made again.
//!
//! The first answer of each call is the right one, or out of memory; the second is right, or the test ends out of memory. So any
//! allocation may be refused, alone or with all later ones, and no assertion fails.

use super::{REPORT, SCRIPT, VERDICTS, VERDICTS_REPORT};
use scp_live_process::below::line::{
    FailsAt, MemoryIn, MemoryOut, PlayFault, ReportOut, ScriptIn, check, play, show, write_text,
};
use scp_live_process::below::types::Fault;
use std::alloc::Global;
use std::process::Abort;
use std::test::Fail;

/// Room for each text here, so that a writer in memory asks for none.
const ROOM: usize = 2_048;

/// A record in digits, and its line.
const WORD: &str = "0000000600000000000000010000000361626300";

const SHOWN: &[u8] = b"6 record 1 616263\n";

const FINE: &[u8] = b"ok\n";

/// A call that reads or writes.
#[derive(Clone, Copy)]
enum Call {
    Play,
    Check,
    Show,
}

/// Each call with a script and with what it writes then.
const CALLS: [(Call, &[u8], &[u8]); 4] = [
    (Call::Play, SCRIPT, REPORT),
    (Call::Play, VERDICTS, VERDICTS_REPORT),
    (Call::Check, VERDICTS, FINE),
    (Call::Show, SCRIPT, SHOWN),
];

/// The answer of a play, a check or a show. Out of memory has one form here, also if a node failed for it.
fn plain(answer: Result<(), PlayFault>) -> Result<(), Fault> {
    match answer {
        Ok(()) => Ok(()),
        Err(refused) if refused.node == 0 => Err(refused.fault),
        Err(refused) if refused.fault == Fault::Failed && refused.node <= 2 => {
            Err(Fault::NoMemory)
        }
        Err(_) => Err(Fault::Failed),
    }
}

/// Makes the call over these devices.
fn make<R: ScriptIn, W: ReportOut>(
    alloc: Global,
    call: Call,
    reader: &mut R,
    writer: &mut W,
) -> Result<(), Fault> {
    plain(match call {
        Call::Play => play(alloc, reader, writer),
        Call::Check => check(alloc, reader, writer),
        Call::Show => show(alloc, WORD, writer),
    })
}

/// A writer in memory that has room, and two bytes in it.
fn begun(alloc: Global) -> Result<MemoryOut, Fault> {
    let mut text = Vec::with_capacity(alloc, ROOM)?;
    text.extend_from_slice(b"# ")?;
    Ok(MemoryOut::new(text))
}

/// Whether exactly this text is behind the two bytes.
fn has(writer: &MemoryOut, text: &[u8]) -> bool {
    let written = writer.text();
    written.len() == text.len().saturating_add(2)
        && written.starts_with(b"# ")
        && written.ends_with(text)
}

/// Whether the call writes this text, and nothing if it is refused.
fn writes(alloc: Global, call: Call, script: &[u8], text: &[u8]) -> Result<bool, Fault> {
    let mut reader = MemoryIn::new(script);
    let mut writer = begun(alloc)?;
    match make(alloc, call, &mut reader, &mut writer) {
        Ok(()) => Ok(has(&writer, text)),
        Err(fault) if has(&writer, &[]) => Err(fault),
        Err(_) => Ok(false),
    }
}

/// Whether the call fails over a writer that fails, after one write that it tried; and whether it then writes all in one write.
fn writes_at_once(alloc: Global, call: Call, script: &[u8], text: &[u8]) -> Result<bool, Fault> {
    let mut writer = FailsAt::new(begun(alloc)?, 0);
    for _ in 0..2 {
        match make(alloc, call, &mut MemoryIn::new(script), &mut writer) {
            Err(Fault::Device) => {}
            Err(fault) => return Err(fault),
            Ok(()) => return Ok(false),
        }
    }
    let (device, failures) = writer.into_parts();
    if failures != 2 || !has(&device, &[]) {
        return Ok(false);
    }
    let mut writer = FailsAt::new(device, 1);
    make(alloc, call, &mut MemoryIn::new(script), &mut writer)?;
    let (device, failures) = writer.into_parts();
    Ok(failures == 0 && has(&device, text))
}

#[test]
fn refused_calls_are_made_again(rt: HostRuntime) -> Result<(), Fail> {
    for (call, script, text) in CALLS {
        match writes(rt.alloc(), call, script, text) {
            Ok(is_right) => assert!(rt; is_right),
            Err(fault) => assert_eq!(rt; fault, Fault::NoMemory),
        }
        assert!(rt; writes(rt.alloc(), call, script, text)?);
        assert!(rt; writes_at_once(rt.alloc(), call, script, text)?);
    }
    Ok(())
}

/// Adds the text. A writer in memory fails if it runs out of memory.
fn add(writer: &mut MemoryOut, text: &str) -> Result<(), Fault> {
    match write_text(writer, text) {
        Err(Fault::Device) => Err(Fault::NoMemory),
        answer => answer,
    }
}

#[test]
fn a_refused_text_leaves_what_stood(rt: HostRuntime) -> Result<(), Fail> {
    let mut writer = MemoryOut::new(Vec::from_slice(rt.alloc(), b"node 1\n")?);
    let first = add(&mut writer, "end\n");
    if first.is_err() {
        assert_eq!(rt; first, Err(Fault::NoMemory));
        assert!(rt; writer.text() == b"node 1\n".as_slice());
        add(&mut writer, "end\n")?;
    }
    assert!(rt; writer.text() == b"node 1\nend\n".as_slice());
    Ok(())
}
