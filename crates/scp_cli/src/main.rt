//! The program that people run. It plays, checks and rewrites scripts, runs a node, and returns an exit status.
//!
//! What it promises: it is safe and returns. What it writes is what `serve`, `convert` and `serve_plain` of `scp_command` promise, and
//! behind a page or a trace where it comes from. Of history archives it is what `write_history` of `scp_history_command` promises, of published
//! quorum sets what `scp_quorum_files` promises. For a node it is what `check_config` of `scp_live` promises, and `run_node`, `run_traced` and
//! `account_node` of `scp_live_process`.
//! Tests show which words ask for what, and the statuses of the whole program. Not claimed: that a log's lock keeps other processes out.
#![tactic(auto)]

mod files;
mod history;
mod mistakes;
mod networks;
mod origin;
mod sim;
mod version;

use crate::files::{
    failed, failure_of, long_text_of, long_text_of_file, tell_cause, text_of_file, told,
    unopened_file, wrong,
};
use crate::history::with_history;
use crate::mistakes::{settings_told, tell_digests};
use crate::networks::{are_configs, configurations, document, is_json};
use crate::origin::{page_origin, trace_origin};
use crate::sim::with_sim;
use crate::version::VERSION;
use scp_command::below::prompt::{
    Asked, Cause, Conversion, ConversionAsked, Failure, LogAsked, NodeAsked, NodeTask,
    QuorumsAsked, Source, Stream, Task, Unasked, Unopened, Wanted, Way, read_words, write_settled,
};
use scp_command::{ConversionOrder, Order, convert, serve, serve_plain};
use scp_live_head::below::device::ScriptIn;
use scp_live_head::below::live_log::{EventLog, FileLog, MemoryLog, Wanted as LogWanted};
use scp_live_process::below::live::{NoLog, check_config};
use scp_live_process::{account_node, run_node, run_traced};
use std::alloc::{AllocError, Global};
use std::fs::{File, OpenOptions};
use std::io::{ErrorKind, Write};
use std::os::unix::fs::FileExt;
use std::process::ExitCode;
use std::sync::Wait;
use std::thread::Threads;
use std::{env, fs, io};

/// Does the task, with this input.
fn done<T: Threads + Wait + Sync, R: ScriptIn + Cause>(
    rt: &HostRuntime,
    threads: &T,
    asked: &Asked<'_>,
    name: &str,
    input: &mut R,
) -> u8 {
    let alloc = rt.alloc();
    let mut output = Stream::new(io::writer(rt));
    let mut errors = Stream::new(rt.stderr());
    if asked.plain {
        return serve_plain(alloc, asked.task, input, &mut output);
    }
    let order = Order {
        task: asked.task,
        quiet: asked.quiet,
        name,
    };
    serve(threads, alloc, order, input, &mut output, &mut errors)
}

/// The words, with this text between them.
fn joined(alloc: Global, words: &[&str], between: &str) -> Result<String, AllocError> {
    let mut text = String::new(alloc);
    for (index, word) in words.iter().enumerate() {
        if index > 0 {
            text.push_str(between)?;
        }
        text.push_str(*word)?;
    }
    Ok(text)
}

/// The text between the words of a conversion. Each word of bytes is a line; the words of a text are in one line.
fn between(way: Way) -> &'static str {
    match way {
        Way::Decode => "\n",
        Way::Encode => " ",
    }
}

/// Converts each line of an input. If the input is the words themselves, either all of it is converted, or nothing is written.
fn convert_all<R: ScriptIn + Cause>(
    rt: &HostRuntime,
    conversion: Conversion,
    name: &str,
    whole: bool,
    input: &mut R,
) -> u8 {
    let mut output = Stream::new(io::writer(rt));
    let mut errors = Stream::new(rt.stderr());
    let order = ConversionOrder {
        conversion,
        whole,
        name,
    };
    convert(rt.alloc(), order, input, &mut output, &mut errors)
}

/// Converts the words, or the lines of the standard input.
fn with_conversion(rt: &HostRuntime, asked: &ConversionAsked<'_>) -> Result<u8, AllocError> {
    let conversion = asked.conversion;
    let Some(words) = &asked.words else {
        let mut input = Stream::new(rt.reader());
        return Ok(convert_all(rt, conversion, "<stdin>", false, &mut input));
    };
    let text = joined(rt.alloc(), words.as_slice(), between(conversion.way))?;
    let mut input = Stream::new(text.as_bytes());
    Ok(convert_all(rt, conversion, "<words>", true, &mut input))
}

/// Does the task, with the file at this path.
fn with_file<T: Threads + Wait + Sync>(
    rt: &HostRuntime,
    threads: &T,
    asked: &Asked<'_>,
    path: &str,
) -> u8 {
    match fs::open(rt, path) {
        Ok(file) => done(rt, threads, asked, path, &mut Stream::new(file)),
        Err(error) => done(rt, threads, asked, path, &mut Unopened::new(error.kind())),
    }
}

/// Does the task, with the input from its source.
fn answer<T: Threads + Wait + Sync>(rt: &HostRuntime, threads: &T, asked: &Asked<'_>) -> u8 {
    match asked.source {
        Source::Input => done(rt, threads, asked, "<stdin>", &mut Stream::new(rt.reader())),
        Source::File(path) => with_file(rt, threads, asked, path),
    }
}

/// Does the task, with the input from its source. Behind a page or a trace that was written it writes, as a comment, where that comes from.
fn answer_with_origin<T: Threads + Wait + Sync>(
    rt: &HostRuntime,
    threads: &T,
    asked: &Asked<'_>,
    words: &[&str],
) -> Result<u8, AllocError> {
    let status = answer(rt, threads, asked);
    if status != 0 || asked.plain {
        return Ok(status);
    }
    let origin = match asked.task {
        Task::Draw => page_origin(rt.alloc(), words)?,
        Task::Trace => trace_origin(rt.alloc(), words)?,
        _ => return Ok(status),
    };
    Ok(told(rt, origin.as_str()))
}

/// Writes the folder of a file to the disk, so that a crash can't lose the file's name.
fn sync_folder(rt: &HostRuntime, path: &str) -> io::Result<()> {
    let whole = fs::canonicalize(rt, path)?;
    match whole.parent() {
        Some(folder) => fs::open(rt, folder)?.sync_all(),
        None => Ok(()),
    }
}

/// Opens the file of a log, or makes it if it is a new one, and locks it. If another process has locked it, the error is `WouldBlock`.
/// `None` if it isn't a plain file, but a pipe or a device, for instance: then it isn't read.
fn open_log(rt: &HostRuntime, log: &LogAsked<'_>) -> io::Result<Option<File>> {
    let file = OpenOptions::new()
        .read(true)
        .append(true)
        .create(log.is_new)
        .open(rt, log.path)?;
    if !file.metadata()?.is_file() {
        return Ok(None);
    }
    file.try_lock()?;
    // (if it has any content, its folder was written before)
    if file.metadata()?.len() == 0 {
        sync_folder(rt, log.path)?;
    }
    Ok(Some(file))
}

/// Whether the last of so many bytes of a file ends a line.
fn ends_line(file: &File, length: u64) -> io::Result<bool> {
    let mut last = [0u8; 1];
    file.read_exact_at(&mut last, length.saturating_sub(1))?;
    Ok(last[0] == b'\n')
}

/// Opens the file of a trace, or makes it. Behind what is there already a line says that another trace begins.
fn open_trace(rt: &HostRuntime, path: &str) -> io::Result<File> {
    let mut file = OpenOptions::new()
        .read(true)
        .append(true)
        .create(true)
        .open(rt, path)?;
    let length = file.metadata()?.len();
    if length > 0 {
        // (a process that was killed may have left a part of a line)
        if !ends_line(&file, length)? {
            file.write_all(b"\n")?;
        }
        file.write_all(b"# the node starts again, and its steps from the first on\n")?;
    }
    Ok(file)
}

/// Reports to a host, and to people, why there is no log or no trace, and returns the exit status.
fn without_file(rt: &HostRuntime, path: &str, why: &str, failure: &Failure) -> u8 {
    let _ = write_settled(&mut Stream::new(io::writer(rt)), failure);
    failed(rt, path, why, failure)
}

/// Reports to a host, and to people, why a file can't be opened, and returns the exit status.
fn unopened(rt: &HostRuntime, path: &str, kind: ErrorKind) -> u8 {
    let _ = write_settled(&mut Stream::new(io::writer(rt)), &failure_of(kind));
    unopened_file(rt, path, kind)
}

/// Reports to a host, and to people, why a log can't be opened, and returns the exit status.
fn unopened_log(rt: &HostRuntime, log: &LogAsked<'_>, kind: ErrorKind) -> u8 {
    match kind {
        ErrorKind::WouldBlock => {
            let _ = told(rt, "fault 14 log is in use\n");
            failed(rt, log.path, "another process has it", &Failure::Unread)
        }
        ErrorKind::NotFound if !log.is_new => {
            let _ = told(rt, "fault 14 log isn't there: --new makes one\n");
            unopened_file(rt, log.path, kind)
        }
        _ => unopened(rt, log.path, kind),
    }
}

/// Runs a node with this configuration and this log, and with a trace if there is one.
fn run_with<L: EventLog + Drop>(
    rt: &HostRuntime,
    config: &[u8],
    log: L,
    wanted: LogWanted,
    trace: Option<File>,
) -> u8 {
    let alloc = rt.alloc();
    let mut input = Stream::new(rt.reader());
    let mut output = Stream::new(io::writer(rt));
    let status = match trace {
        None => run_node(alloc, config, log, wanted, &mut input, &mut output),
        Some(file) => {
            let trace = Stream::new(file);
            let (status, trace) = run_traced(
                alloc,
                config,
                log,
                wanted,
                &mut input,
                &mut output,
                trace,
            );
            tell_cause(rt, "the trace", &trace);
            status
        }
    };
    tell_cause(rt, "<stdin>", &input);
    tell_cause(rt, "<stdout>", &output);
    status
}

/// Which log is wanted. One that was begun has at least so many events.
fn wanted_by(log: &LogAsked<'_>) -> LogWanted {
    if log.is_new {
        return LogWanted::New;
    }
    LogWanted::AtLeast(log.least as usize)
}

/// Runs a node with this configuration and this log, and with the trace at this path if there is one. The log is locked before anything
/// is written to the trace.
fn run_traced_at<L: EventLog + Drop>(
    rt: &HostRuntime,
    config: &[u8],
    log: L,
    wanted: LogWanted,
    trace: Option<&str>,
) -> u8 {
    match trace {
        None => run_with(rt, config, log, wanted, None),
        Some(path) => match open_trace(rt, path) {
            Ok(file) => run_with(rt, config, log, wanted, Some(file)),
            Err(error) => unopened(rt, path, error.kind()),
        },
    }
}

/// Runs a node with this configuration and the log at this path.
fn run_logged(
    rt: &HostRuntime,
    config: &[u8],
    log: &LogAsked<'_>,
    trace: Option<&str>,
) -> Result<u8, AllocError> {
    let path = log.path.to_string(rt.alloc())?;
    Ok(match open_log(rt, log) {
        Ok(Some(file)) => {
            let file = FileLog::new(rt, path, file);
            run_traced_at(rt, config, file, wanted_by(log), trace)
        }
        Ok(None) => without_file(rt, log.path, "it is no plain file", &Failure::Unread),
        Err(error) => unopened_log(rt, log, error.kind()),
    })
}

/// Runs a node with this configuration, and with this log and the trace at this path if there are any.
fn run_asked(
    rt: &HostRuntime,
    config: &[u8],
    log: &Option<LogAsked<'_>>,
    trace: Option<&str>,
) -> Result<u8, AllocError> {
    match log {
        None => Ok(run_traced_at(rt, config, NoLog, LogWanted::New, trace)),
        Some(log) => run_logged(rt, config, log, trace),
    }
}

/// Writes the account of a node with this configuration, from the log at this path. The log is read and left as it is; the log of a running
/// node is read as far as it goes.
fn account_with(rt: &HostRuntime, config: &[u8], path: &str) -> u8 {
    match fs::read(rt, path) {
        Ok(bytes) => {
            let log = MemoryLog::new(rt.alloc(), bytes);
            account_node(rt.alloc(), config, log, &mut Stream::new(io::writer(rt)))
        }
        Err(error) => unopened(rt, path, error.kind()),
    }
}

/// Does a task of a node with this configuration.
fn done_with_node(rt: &HostRuntime, task: &NodeTask<'_>, config: &[u8]) -> Result<u8, AllocError> {
    match task {
        NodeTask::Check => {
            let mut output = Stream::new(io::writer(rt));
            Ok(check_config(rt.alloc(), config, &mut output))
        }
        NodeTask::Run { log, trace } => run_asked(rt, config, log, *trace),
        NodeTask::Account { log } => Ok(account_with(rt, config, *log)),
    }
}

/// The path of the log that a task has.
fn path_of<'a>(task: &NodeTask<'a>) -> Option<&'a str> {
    match task {
        NodeTask::Run { log: Some(log), .. } => Some(log.path),
        NodeTask::Account { log } => Some(*log),
        _ => None,
    }
}

/// Does what is asked of a node. Where its configuration is wrong, or its log is of another one, people are told, too.
fn with_node(rt: &HostRuntime, asked: &NodeAsked<'_>) -> Result<u8, AllocError> {
    let config = match text_of_file(rt, asked.config) {
        Ok(config) => config,
        Err(status) => return Ok(status),
    };
    let config = config.as_slice();
    let settings = settings_told(rt, asked.config, config);
    let status = done_with_node(rt, &asked.task, config)?;
    if let (1, Some(settings), Some(path)) = (status, &settings, path_of(&asked.task)) {
        tell_digests(rt, settings, asked.config, path)?;
    }
    Ok(status)
}

/// The report on the quorums of this text: of a script, or of a published document.
fn quorums_of<T: Threads + Wait + Sync>(
    rt: &HostRuntime,
    threads: &T,
    path: &str,
    text: &[u8],
    without: &[&str],
) -> Result<u8, AllocError> {
    if is_json(text) {
        return document(rt, path, text, without);
    }
    if !without.is_empty() {
        let words = "error: --without is for published documents and configurations\n";
        return Ok(wrong(rt, words, 2));
    }
    let asked = Asked {
        task: Task::Quorums,
        plain: false,
        quiet: false,
        source: Source::Input,
    };
    Ok(done(rt, threads, &asked, path, &mut Stream::new(text)))
}

/// Reports on the quorums of a script, a published document or configurations.
fn with_quorums<T: Threads + Wait + Sync>(
    rt: &HostRuntime,
    threads: &T,
    asked: &QuorumsAsked<'_>,
) -> Result<u8, AllocError> {
    let without = asked.without.as_slice();
    let Some(files) = &asked.files else {
        return match long_text_of(rt, "<stdin>", &mut Stream::new(rt.reader())) {
            Ok(text) => quorums_of(rt, threads, "<stdin>", text.as_slice(), without),
            Err(status) => Ok(status),
        };
    };
    let files = files.as_slice();
    if asked.are_configs || are_configs(files) {
        return configurations(rt, files, without);
    }
    let [path] = files else {
        let words = "error: of several files each is a configuration, *.toml\n";
        return Ok(wrong(rt, words, 2));
    };
    match long_text_of_file(rt, *path) {
        Ok(text) => quorums_of(rt, threads, *path, text.as_slice(), without),
        Err(status) => Ok(status),
    }
}

/// Does what the words of the command line ask for, and returns the exit status.
fn served<T: Threads + Wait + Sync>(
    rt: &HostRuntime,
    threads: &T,
    words: &[String],
) -> Result<u8, AllocError> {
    let alloc = rt.alloc();
    let words: Vec<&str> = words.iter().map(|word| word.as_str()).collect(alloc)?;
    match read_words(alloc, VERSION, words.as_slice()) {
        Ok(Wanted::Script(asked)) => answer_with_origin(rt, threads, &asked, words.as_slice()),
        Ok(Wanted::Conversion(asked)) => with_conversion(rt, &asked),
        Ok(Wanted::Quorums(asked)) => with_quorums(rt, threads, &asked),
        Ok(Wanted::Node(asked)) => with_node(rt, &asked),
        Ok(Wanted::History(asked)) => Ok(with_history(rt, &asked)),
        Ok(Wanted::Sim(asked)) => with_sim(rt, asked, words.as_slice()),
        Err(Unasked::Told(text)) => Ok(told(rt, text.as_str())),
        Err(Unasked::Wrong(text)) => Ok(wrong(rt, text.as_str(), 2)),
        Err(Unasked::NoMemory) => Err(AllocError),
    }
}

fn main(rt: HostRuntime) -> ExitCode {
    let status = match env::args(&rt) {
        Ok(words) => match words.collect(rt.alloc()) {
            Ok(words) => {
                let words: Vec<String> = words;
                served(&rt, &rt, words.as_slice())
            }
            Err(_) => Err(AllocError),
        },
        Err(error) if error.kind() == ErrorKind::OutOfMemory => Err(AllocError),
        Err(_) => Ok(wrong(&rt, "bowls: a word of the command line isn't UTF-8\n", 2)),
    };
    match status {
        Ok(status) => ExitCode::from(status),
        Err(_) => ExitCode::from(wrong(&rt, "bowls: memory ran out\n", 3)),
    }
}
