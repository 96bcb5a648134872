//! Each call of a device refused in turn.

use super::devices::{ALICE, Device, Given, Ran, played, run, whole};
use scp_live_process::below::types::Fault;
use std::alloc::Global;
use std::process::Abort;
use std::str;
use std::test::Fail;

/// A record of slot 1, which is asked for; a proposal for slot 2; a line that is none; a question. Six lines are events.
const INPUT: &[u8] =
    b"open bob\nask bob 1\nrecv bob 00000006000000000000000100000018000000010000000000000001610000000000000131000000\npropose 2 000000010000000000000001620000000000000132000000\nround 2\nnonsense\nclose bob\nstate\n";

/// The ends of the answers to the events of the input, each with how many events are answered there.
const ANSWERED: [(&str, u64); 6] = [
    ("\nok 1\n", 1),
    ("\nok 2\n", 2),
    ("\nok 3\n", 3),
    ("\nok 4\n", 4),
    ("\nok 5\n", 5),
    ("\nok 7\n", 6),
];

/// No two lines of the input end in one read of so many bytes.
const MOST: usize = 5;

/// Each device, how often it is called, and what is written last where it fails.
const DEVICES: [(Device, u64, &[u8]); 3] = [
    // once for each part of the input, and once at its end
    (Device::Reader, 42, b"fault 14\n"),
    // once before anything is read, and once for each line
    (Device::Writer, 9, b""),
    // a new log is read, cut, synced, and gets its first line; then each of the events is appended and synced
    (Device::Log, 17, b"fault 14\n"),
];

/// Whether a node says that it is ready with at least as many events as were answered.
fn has_all(text: &str, answers: &str) -> Option<bool> {
    let (count, _state) = text.strip_prefix("ready ")?.split_once("\n")?;
    let count = count.parse::<u64>().ok()?;
    for (end, answered) in ANSWERED {
        if answers.find(end).is_some() && count < answered {
            return Some(false);
        }
    }
    Some(true)
}

/// Whether a node starts with what this log holds, which are all events that were answered, and goes on.
fn goes_on(alloc: Global, log: &[u8], answers: &str) -> Result<bool, Fault> {
    let given = Given {
        log,
        input: b"open bob\nstate\n",
        ..ALICE
    };
    let ran = run(alloc, &given)?;
    let text = str::from_utf8(ran.written.text()).unwrap_or("");
    Ok(
        ran.status == 0
            && has_all(text, answers) == Some(true)
            && text.find("refused").is_none()
            && text.ends_with("\nok 2\n"),
    )
}

/// A run in which a device refuses each call behind so many.
fn refused(alloc: Global, device: Device, calls: u64) -> Result<Ran, Fault> {
    let given = Given {
        input: INPUT,
        most: MOST,
        refused: Some((device, calls)),
        ..ALICE
    };
    run(alloc, &given)
}

/// Whether a run that was stopped ended with this last line, and else as it has to: with fronts of what the whole run wrote and kept.
fn is_stopped(alloc: Global, ran: &Ran, whole: &Ran, last: &[u8]) -> Result<bool, Fault> {
    let front = ran.written.text().strip_suffix(last).unwrap_or(b"?");
    let answers = str::from_utf8(front).unwrap_or("");
    Ok(
        ran.status == 3
            && whole.written.text().starts_with(front)
            && whole.log.bytes().starts_with(ran.log.bytes())
            && goes_on(alloc, ran.log.bytes(), answers)?,
    )
}

#[test]
fn each_refused_call_ends_the_node_and_its_log_brings_it_back(rt: HostRuntime) -> Result<(), Fail> {
    let alloc = rt.alloc();
    let whole = whole(alloc, INPUT, MOST)?;
    for (device, all, last) in DEVICES {
        for calls in 0..all {
            let ran = refused(alloc, device, calls)?;
            assert!(rt;
                is_stopped(alloc, &ran, &whole, last)?,
                "{device:?} after {calls}"
            );
        }
        let ran = refused(alloc, device, all)?;
        assert_eq!(rt; ran.status, 0, "{device:?}");
        assert!(rt; ran.written.text() == whole.written.text(), "{device:?}");
    }
    Ok(())
}

/// Any allocation may be refused here.
#[test]
fn a_node_without_memory_says_so_and_its_log_brings_it_back(rt: HostRuntime) -> Result<(), Fail> {
    let alloc = rt.alloc();
    let given = Given {
        input: INPUT,
        most: MOST,
        ..ALICE
    };
    let ran = played(alloc, &given)?;
    let text = str::from_utf8(ran.written.text())?;
    let lacks = text.ends_with("fault 1\n");
    assert_eq!(rt; ran.status, if lacks { 3 } else { 0 });
    assert!(rt; lacks || text.ends_with("\nok 8\n"));
    assert!(rt; goes_on(alloc, ran.log.bytes(), text)?);
    Ok(())
}
