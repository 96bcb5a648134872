//! The quorums of networks: of scripts, of documents that others publish, and of the configurations of nodes.
//!
//! What it writes of a script is what `serve` of `scp_command` promises, and of others what `read_json`, `read_configs`, `network_text`
//! and `beside_text` of `scp_quorum_files` promise.

use crate::files::{long_text_of_file, told, wrong};
use scp_quorum_files::{
    ConfigsFault, FileFault, NamingFault, Network, beside_text, network_text, nodes_named,
    read_configs, read_json, write_configs_fault, write_file_fault,
};
use std::alloc::AllocError;

/// Whether a file is the configuration of a node, by its name.
fn is_config(path: &str) -> bool {
    path.ends_with(".toml")
}

/// Whether a text begins as JSON does: with an object or an array.
pub fn is_json(text: &[u8]) -> bool {
    match text.iter().find(|byte| !byte.is_ascii_whitespace()) {
        Some(byte) => *byte == b'{' || *byte == b'[',
        None => false,
    }
}

/// Writes why a file gives no network, and returns 1.
fn refused(rt: &HostRuntime, path: &str, words: &str) -> Result<u8, AllocError> {
    let text = format!(in rt.alloc(); "{path}: {words}\n")?;
    Ok(wrong(rt, text.as_str(), 1))
}

/// Writes why a document gives no network, and returns the exit status.
fn refused_document(rt: &HostRuntime, path: &str, fault: &FileFault) -> Result<u8, AllocError> {
    let mut words = String::new(rt.alloc());
    write_file_fault(&mut words, fault)?;
    refused(rt, path, words.as_str())
}

/// The path of the configuration that a fault is of.
fn path_of<'a>(paths: &[&'a str], fault: &ConfigsFault) -> &'a str {
    let place = match fault {
        ConfigsFault::NoMemory => 0,
        ConfigsFault::Config { place, .. } => *place,
        ConfigsFault::Twice(place) => *place,
        ConfigsFault::Names(place) => *place,
    };
    match paths.get(place) {
        Some(path) => *path,
        None => "",
    }
}

/// Writes why configurations give no network, and returns the exit status.
fn refused_configs(
    rt: &HostRuntime,
    paths: &[&str],
    fault: &ConfigsFault,
) -> Result<u8, AllocError> {
    let mut words = String::new(rt.alloc());
    write_configs_fault(&mut words, fault)?;
    refused(rt, path_of(paths, fault), words.as_str())
}

/// Writes the report on a network, beside the nodes with these names if there are any, and returns the exit status.
fn reported(rt: &HostRuntime, network: &Network, without: &[&str]) -> Result<u8, AllocError> {
    if without.is_empty() {
        let text = network_text(rt.alloc(), network)?;
        return Ok(told(rt, text.as_str()));
    }
    match nodes_named(rt.alloc(), &network.nodes, without) {
        Ok(liars) => {
            let text = beside_text(rt.alloc(), network, &liars)?;
            Ok(told(rt, text.as_str()))
        }
        Err(NamingFault::NoMemory) => Err(AllocError),
        Err(NamingFault::NoNode(place)) => {
            let name = match without.get(place) {
                Some(name) => *name,
                None => "",
            };
            refused(rt, name, "expected the name of a node")
        }
    }
}

/// Writes the report on the network that a document says, and returns the exit status.
pub fn document(
    rt: &HostRuntime,
    path: &str,
    text: &[u8],
    without: &[&str],
) -> Result<u8, AllocError> {
    let Ok(text) = str::from_utf8(text) else {
        return refused(rt, path, "expected UTF-8");
    };
    match read_json(rt.alloc(), text) {
        Ok(network) => reported(rt, &network, without),
        Err(FileFault::NoMemory) => Err(AllocError),
        Err(fault) => refused_document(rt, path, &fault),
    }
}

/// The texts of these files, or the exit status of the failure that was reported.
fn texts_of(rt: &HostRuntime, paths: &[&str]) -> Result<Result<Vec<Vec<u8>>, u8>, AllocError> {
    let mut texts = Vec::new(rt.alloc());
    for path in paths {
        match long_text_of_file(rt, *path) {
            Ok(text) => texts.push(text)?,
            Err(status) => return Ok(Err(status)),
        }
    }
    Ok(Ok(texts))
}

/// Writes the report on the network of these configurations, and returns the exit status.
pub fn configurations(
    rt: &HostRuntime,
    paths: &[&str],
    without: &[&str],
) -> Result<u8, AllocError> {
    let texts = match texts_of(rt, paths)? {
        Ok(texts) => texts,
        Err(status) => return Ok(status),
    };
    let mut read: Vec<&str> = Vec::new(rt.alloc());
    for text in &texts {
        match str::from_utf8(text) {
            Ok(text) => read.push(text)?,
            Err(_) => return refused(rt, "a configuration", "expected UTF-8"),
        }
    }
    match read_configs(rt.alloc(), &read) {
        Ok(network) => reported(rt, &network, without),
        Err(ConfigsFault::NoMemory) => Err(AllocError),
        Err(fault) => refused_configs(rt, paths, &fault),
    }
}

/// Whether these are the configurations of nodes.
pub fn are_configs(paths: &[&str]) -> bool {
    paths.iter().all(|path| is_config(*path))
}
