//! Where a configuration is wrong, and of which configuration a log is, for people.

use scp_live_process::below::live::settings_of;
use scp_live_process::below::live_config::{ConfigFault, SetWrong, Settings, Wrong, write_fault};
use std::alloc::{AllocError, Global};
use std::os::unix::fs::FileExt;
use std::{fs, io, str};
use strsim::levenshtein;

/// The keys that a document may have.
static WHOLE: [&str; 5] = ["NODE", "PEERS", "NODES", "QUORUM_SET", "CAPACITIES"];

/// Those of a quorum set.
static SET: [&str; 3] = ["THRESHOLD", "VALIDATORS", "INNER_SETS"];

/// Those of the capacities.
static QUEUES: [&str; 4] = ["LINK", "INBOX", "READY", "DECIDED"];

/// A key that was meant is at most so many edits away.
const EDITS: usize = 3;

/// The bytes of a log's first line before the digest, and those before the end of the digest.
const FRONT: usize = 11;

const NAMED: usize = 75;

/// A key that may not be there, and the keys that may.
fn stray(wrong: &Wrong) -> Option<(&str, &'static [&'static str])> {
    match wrong {
        Wrong::Stray(key) => Some((key.as_str(), WHOLE.as_slice())),
        Wrong::StrayCapacity(key) => Some((key.as_str(), QUEUES.as_slice())),
        Wrong::InSet {
            wrong: SetWrong::Stray(key),
            ..
        } => Some((key.as_str(), SET.as_slice())),
        _ => None,
    }
}

/// The nearest of these keys, if one is near.
fn nearest(
    alloc: Global,
    key: &str,
    keys: &[&'static str],
) -> Result<Option<&'static str>, AllocError> {
    let mut found = None;
    let mut least = EDITS + 1;
    for other in keys {
        let edits = levenshtein(alloc, key, *other)?;
        if edits < least {
            least = edits;
            found = Some(*other);
        }
    }
    Ok(found)
}

/// Whether a bare key may have this byte.
fn is_of_key(byte: u8) -> bool {
    byte.is_ascii_alphanumeric() || byte == b'_' || byte == b'-'
}

/// Whether a line begins with this key, whatever is around it.
fn begins_with(line: &[u8], key: &[u8]) -> bool {
    match line
        .split(|byte| !is_of_key(*byte))
        .find(|word| !word.is_empty())
    {
        Some(word) => word == key,
        None => false,
    }
}

/// Whether this key is in a line.
fn has(line: &[u8], key: &[u8]) -> bool {
    line.split(|byte| !is_of_key(*byte)).any(|word| word == key)
}

/// The first line that begins with this key, or else that has it, counted from 1.
fn line_of(text: &[u8], key: &[u8]) -> Option<usize> {
    let place = match text
        .split(|byte| *byte == b'\n')
        .position(|line| begins_with(line, key))
    {
        Some(place) => place,
        None => text
            .split(|byte| *byte == b'\n')
            .position(|line| has(line, key))?,
    };
    Some(place + 1)
}

/// The last key of a path, without an index.
fn last_key(path: &str) -> &str {
    let key = match path.rsplit_once(".") {
        Some((_, key)) => key,
        None => path,
    };
    match key.split_once("[") {
        Some((key, _)) => key,
        None => key,
    }
}

/// The line at which a configuration is wrong, if it is known, and the words for that.
fn place_of(alloc: Global, text: &[u8], wrong: &str) -> Result<String, AllocError> {
    let mut place = String::new(alloc);
    if let Some((path, _)) = wrong.split_once(":") {
        if let Some(line) = line_of(text, last_key(path).as_bytes()) {
            write!(place, ":{line}")?;
        }
    }
    Ok(place)
}

/// The words for a value that isn't what is expected: its line, its key, what is expected there, and the nearest key.
fn words_of(
    alloc: Global,
    text: &[u8],
    fault: &ConfigFault,
    wrong: &Wrong,
) -> Result<String, AllocError> {
    let mut said = String::new(alloc);
    write_fault(&mut said, fault)?;
    let mut words = place_of(alloc, text, said.as_str())?;
    write!(words, ": {said}")?;
    if let Some((key, keys)) = stray(wrong) {
        if let Some(other) = nearest(alloc, key, keys)? {
            write!(words, "; perhaps {other}")?;
        }
    }
    Ok(words)
}

/// Reports to people where a configuration is wrong.
fn tell_fault(rt: &HostRuntime, path: &str, text: &[u8], fault: &ConfigFault) {
    match fault {
        ConfigFault::NoMemory => {}
        ConfigFault::Text { line, words } => {
            let _ = eprintln!(rt; "{path}:{line}: {words}");
        }
        ConfigFault::Wrong(wrong) => {
            if let Ok(words) = words_of(rt.alloc(), text, fault, wrong) {
                let _ = eprintln!(rt; "{path}{words}");
            }
        }
    }
}

/// The settings of a configuration. Reports to people where it is wrong.
pub fn settings_told(rt: &HostRuntime, path: &str, text: &[u8]) -> Option<Settings> {
    match settings_of(rt.alloc(), text) {
        Ok(settings) => Some(settings),
        Err(fault) => {
            tell_fault(rt, path, text, &fault);
            None
        }
    }
}

/// The first bytes of a file, at most so many as there is room for.
fn first_bytes<'a>(rt: &HostRuntime, path: &str, room: &'a mut [u8]) -> io::Result<&'a [u8]> {
    let count = fs::open(rt, path)?.read_at(room, 0)?;
    Ok(&room[..count.min(room.len())])
}

/// The digest that a first line names, if it is the one of a log.
fn named_in(first: &[u8]) -> Option<&str> {
    if first.len() < NAMED || !first.starts_with(b"scp_node ") {
        return None;
    }
    str::from_utf8(&first[FRONT..NAMED]).ok()
}

/// Reports to people of which configuration the log at this path is, if it is of another one.
pub fn tell_digests(
    rt: &HostRuntime,
    settings: &Settings,
    config: &str,
    path: &str,
) -> Result<(), AllocError> {
    let digest = settings.digest(rt.alloc())?;
    let own = hex::encode(rt.alloc(), &digest.0)?;
    let mut line = String::new(rt.alloc());
    write!(line, "scp_node 1 {own}")?;
    let mut room = [0u8; NAMED];
    let Ok(first) = first_bytes(rt, path, &mut room) else {
        return Ok(());
    };
    // (the first line may be torn)
    if line.as_bytes().starts_with(first) {
        return Ok(());
    }
    let _ = match named_in(first) {
        Some(named) => {
            eprintln!(rt; "{path}: it is of the digest {named}; {config} has the digest {own}")
        }
        None => eprintln!(rt; "{path}: it is no log of a node; {config} has the digest {own}"),
    };
    Ok(())
}
