//! Where a script, a picture or a trace comes from: the program's version, the seed and the command, in a comment line.

use crate::version::VERSION;
use std::alloc::{AllocError, Global};

/// Whether a byte is shown as it is. Any other byte could end a line, a quoted word or a comment.
fn is_shown(byte: u8) -> bool {
    b' ' <= byte && byte <= b'~' && byte != b'\'' && byte != b'>'
}

/// Whether a shell takes the byte as it is, outside quotes.
fn is_plain(byte: u8) -> bool {
    match byte {
        b'-' | b'_' | b'.' | b'/' | b'=' | b'%' | b',' | b'@' | b':' | b'+' => true,
        _ => byte.is_ascii_alphanumeric(),
    }
}

/// Adds the bytes of a word. A byte that can't be shown becomes `?`.
fn write_bytes_of(text: &mut String, word: &str) -> Result<(), AllocError> {
    for byte in word.bytes() {
        let shown = if is_shown(byte) { byte } else { b'?' };
        text.push(char::from(shown))?;
    }
    Ok(())
}

/// Adds a word as a shell takes it, behind a space.
fn write_word(text: &mut String, word: &str) -> Result<(), AllocError> {
    if word.bytes().all(|byte| is_plain(byte)) && !word.is_empty() {
        text.push_str(" ")?;
        return write_bytes_of(text, word);
    }
    text.push_str(" '")?;
    write_bytes_of(text, word)?;
    text.push_str("'")
}

/// Adds the words of a command, without those that say where a script is written.
fn write_words(text: &mut String, words: &[&str]) -> Result<(), AllocError> {
    let mut is_path = false;
    for word in words {
        if is_path {
            is_path = false;
        } else if *word == "--script" {
            is_path = true;
        } else if !word.starts_with("--script=") {
            write_word(text, *word)?;
        }
    }
    Ok(())
}

/// The command of these words, which begin with the program's own name.
fn command_of(alloc: Global, words: &[&str]) -> Result<String, AllocError> {
    let mut text = "bowls".to_string(alloc)?;
    if let Some((_, others)) = words.split_first() {
        write_words(&mut text, others)?;
    }
    Ok(text)
}

/// The last line of a script that a simulation with this seed wrote.
pub fn script_origin(alloc: Global, words: &[&str], seed: u64) -> Result<String, AllocError> {
    let command = command_of(alloc, words)?;
    let command = command.as_str();
    let mut text = String::new(alloc);
    writeln!(text, "# bowls {VERSION}, seed {seed}: {command}")?;
    Ok(text)
}

/// The last line of a page.
pub fn page_origin(alloc: Global, words: &[&str]) -> Result<String, AllocError> {
    let command = command_of(alloc, words)?;
    let command = command.as_str();
    let mut text = String::new(alloc);
    writeln!(text, "<!-- bowls {VERSION}: {command} -->")?;
    Ok(text)
}

/// The last line of a trace.
pub fn trace_origin(alloc: Global, words: &[&str]) -> Result<String, AllocError> {
    let command = command_of(alloc, words)?;
    let command = command.as_str();
    let mut text = String::new(alloc);
    writeln!(text, "# bowls {VERSION}: {command}")?;
    Ok(text)
}
