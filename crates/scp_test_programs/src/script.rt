//! What a script is read as. Scripts that are refused, and at which line, are in examples/scripts.calls.
use scp_live_process::below::script::{Command, capacities_of, count_of_nodes, parse};
use scp_live_process::below::types::Capacities;
use std::process::Abort;
use std::test::Fail;

/// Three nodes, 2 of which make a quorum; node 2 has a set of its own, 1 of node 1.
const SCRIPT: &[u8] =
    b"# three nodes\ncaps 9 9 9 9\ncaps 1 2 3 1024\nnodes 3 2\nset 2 000000010000000100000000010101010101010101010101010101010101010101010101010101010101010100000000\n\nopen 1 3\nsend 1 3 0aFF\nsend 1 3 -\nclose 1 3\nopen 1 3\ntick 3\npropose 3 1 00\nround 3 1\ntimer 3 1\nask 1 2 18446744073709551615\nsettle\nreport 3";

/// Whether there are sixteen commands, with these at both ends.
fn are_the_commands(commands: &[Command]) -> bool {
    match commands {
        [
            Command::Caps(_),
            Command::Caps(_),
            Command::Nodes { count, quorum },
            ..,
            Command::Report(node),
        ] => (*count, *quorum, *node, commands.len()) == (3, 2, 3, 16),
        _ => false,
    }
}

/// The last line with capacities counts.
#[test]
fn a_script_is_a_list_of_commands(rt: HostRuntime) -> Result<(), Fail> {
    let want = Capacities {
        link: 1,
        inbox: 2,
        ready: 3,
        decided: 1024,
    };
    let script = parse(rt.alloc(), SCRIPT)?;
    assert!(rt; are_the_commands(script.as_slice()));
    assert!(rt; capacities_of(script.as_slice()) == want);
    assert_eq!(rt; count_of_nodes(script.as_slice()), 3);
    Ok(())
}
