//! Playing and checking scripts.
mod again;
mod devices;
mod reports;
mod threads;

use scp_live_process::below::line::{line_of_fault, status};
use scp_live_process::below::types::{Fault, Stage};
use std::process::Abort;
use std::test::Fail;

const SCRIPT: &[u8] =
    b"nodes 2 2\nopen 2 1\nask 1 2 1\nsend 2 1 00000006000000000000000100000018000000010000000000000001610000000000000131000000\nsettle\nreport 1\n";

const REPORT: &[u8] =
    b"node 1\nconn 2 1\n0 taken decided\napplied 1 000000010000000000000001610000000000000131000000 record 2 1 0\nstate 61=31\nend\n";

/// A message of each verdict but one: two records of slot 1, which is asked for, one too far, an envelope of slot 1, a request, an envelope of node 1
/// itself, one that nominates nothing, one whose value is no operation list, and twice the same good one.
const VERDICTS: &[u8] =
    b"nodes 2 2\nopen 2 1\nask 1 2 1\nsend 2 1 0000000600000000000000010000000400000000\nsend 2 1 0000000600000000000000010000000400000000\nsend 2 1 0000000600000000000000120000000400000000\nsend 2 1 0000000100000000020202020202020202020202020202020202020202020202020202020202020200000000000000010000000002e6012681b33ba8e6d2ee7efd069cab8ce9bea8c9f49ed0f5869d2cd7846f3f0000000100000004000000000000000000000000000000000000000000000000\nsend 2 1 000000050000000000000001\nsend 2 1 0000000100000000010101010101010101010101010101010101010101010101010101010101010100000000000000020000000002e6012681b33ba8e6d2ee7efd069cab8ce9bea8c9f49ed0f5869d2cd7846f3f0000000100000004000000000000000000000000000000000000000000000000\nsend 2 1 0000000100000000020202020202020202020202020202020202020202020202020202020202020200000000000000020000000302e6012681b33ba8e6d2ee7efd069cab8ce9bea8c9f49ed0f5869d2cd7846f3f000000000000000000000000\nsend 2 1 0000000100000000020202020202020202020202020202020202020202020202020202020202020200000000000000020000000002e6012681b33ba8e6d2ee7efd069cab8ce9bea8c9f49ed0f5869d2cd7846f3f00000001000000000000000000000000000000000000000000000000\nsend 2 1 0000000100000000020202020202020202020202020202020202020202020202020202020202020200000000000000020000000002e6012681b33ba8e6d2ee7efd069cab8ce9bea8c9f49ed0f5869d2cd7846f3f0000000100000004000000000000000000000000000000000000000000000000\nsend 2 1 0000000100000000020202020202020202020202020202020202020202020202020202020202020200000000000000020000000002e6012681b33ba8e6d2ee7efd069cab8ce9bea8c9f49ed0f5869d2cd7846f3f0000000100000004000000000000000000000000000000000000000000000000\nsettle\nreport 1\n";

const VERDICTS_REPORT: &[u8] =
    b"node 1\nconn 2 1\n0 taken decided\n1 taken already\n2 taken far-slot\n3 taken old-slot\n4 taken forwarded\n5 taken own\n6 taken bad-statement\n7 taken bad-value\n8 taken fresh\n9 taken stale\napplied 1 00000000 record 2 1 0\nend\n";

/// The lines of a node that failed, and of its stages.
const LINES: [(u8, Fault, &str); 5] = [
    (2, Fault::Failed, "fault 10 node 2\n"),
    (3, Fault::Refused(Stage::Reader), "fault 13 node 3 reader\n"),
    (3, Fault::Refused(Stage::Pend), "fault 13 node 3 pend\n"),
    (3, Fault::Refused(Stage::Slot), "fault 13 node 3 slot\n"),
    (3, Fault::Refused(Stage::Apply), "fault 13 node 3 apply\n"),
];

#[test]
fn a_node_that_failed_is_reported(rt: HostRuntime) -> Result<(), Fail> {
    for (node, fault, text) in LINES {
        let line = line_of_fault(rt.alloc(), node, fault)?;
        assert_eq!(rt; line.as_str(), text);
    }
    assert_eq!(rt; status(Fault::Failed), 3);
    assert_eq!(rt; status(Fault::NoMemory), 3);
    Ok(())
}
