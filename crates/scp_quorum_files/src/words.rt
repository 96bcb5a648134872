//! The words of faults.
ghost use Rattle.std.specs.Prelude.{◌≡◌, ◌++◌, ◌+◌, OnOk, codes, string_bytes};
ghost use Rattle.std.specs.Fmt.{decimal};
ghost use Rattle.scp_quorum_files.specs.Faults.{file_words};
ghost use Rattle.scp_quorum_files.specs.Configs.{configs_words};

use crate::configs::ConfigsFault;
use crate::fault::FileFault;
use scp_live_config::write_fault;
use std::alloc::AllocError;

/// Adds a word, the number after this place, and what is expected there.
fn write_at(out: &mut String, word: &str, place: usize, expected: &str) -> Result<(), AllocError>
    ensures { OnOk result (string_bytes out.new ≡ string_bytes out.old ++ (word.now ++ decimal (place + 1) ++ expected.now)) }
{
    let number = place as u128 + 1;
    write!(out, "{word}{number}{expected}")
}

/// Adds the words of a fault: one line without its line end.
pub fn write_file_fault(out: &mut String, fault: &FileFault) -> Result<(), AllocError>
    ensures { OnOk result (string_bytes out.new ≡ string_bytes out.old ++ file_words fault.now) }
{
    match fault {
        FileFault::NoMemory => out.push_str("no memory"),
        FileFault::Text => out.push_str("expected JSON"),
        FileFault::Nodes => out.push_str("expected a list of nodes"),
        FileFault::Node(place) => write_at(
            out,
            "node ",
            *place,
            ": expected a name, and a quorum set or none",
        ),
        FileFault::Twice(place) => write_at(
            out,
            "node ",
            *place,
            ": expected another name than an earlier one",
        ),
        FileFault::Organisation(place) => write_at(
            out,
            "organisation ",
            *place,
            ": expected a name and a list of nodes",
        ),
    }
}

/// Adds the words of a fault of the configuration at its place: one line without its line end.
pub fn write_configs_fault(out: &mut String, fault: &ConfigsFault) -> Result<(), AllocError>
    ensures { OnOk result (string_bytes out.new ≡ string_bytes out.old ++ configs_words fault.now) }
{
    match fault {
        ConfigsFault::NoMemory => out.push_str("no memory"),
        ConfigsFault::Config { fault, .. } => write_fault(out, fault),
        ConfigsFault::Twice(_) => out.push_str(
            "NODE: expected another node than an earlier file's",
        ),
        ConfigsFault::Names(_) => out.push_str(
            "NODES: expected the names and ids of earlier files",
        ),
    }
}
