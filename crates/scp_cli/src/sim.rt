//! Runs the simulation that is asked for.

use crate::files::{failed, refused, text_of_file, told, unopened_file, wrong};
use crate::origin::script_origin;
use scp_command::below::prompt::{Failure, LONG_LIMIT, SimAsked, Stream, write_bytes};
use scp_live_head::below::types::Fault;
use scp_sim_findings::{
    BadSets, Far, Pace, Table, Told, ToldFault, add_stand, bad_sets, judging_of, plan_apart,
    sets_of, shorten, tell_run, write_row,
};
use std::alloc::AllocError;
use std::fs;
use std::fs::{File, OpenOptions};
use std::io::ErrorKind;
use std::time::Instant;

/// Reports to people why the lines of a file give no quorum sets, and returns the exit status. The file has this text.
fn without_sets(rt: &HostRuntime, asked: &SimAsked<'_>, text: &[u8], bad: BadSets) -> u8 {
    let path = asked.sets.unwrap_or("--sets");
    let failure = match bad {
        BadSets::NoMemory => Failure::NoMemory,
        BadSets::Word(bad) => Failure::Word(bad),
        BadSets::Line(line) => Failure::Line(line),
    };
    refused(rt, path, text, &failure)
}

/// Reports to people why nothing is shown of a run, and returns the exit status. The file of quorum sets has this text.
fn unsimulated(rt: &HostRuntime, asked: &SimAsked<'_>, text: &[u8], fault: ToldFault) -> u8 {
    match (bad_sets(fault), fault) {
        (Some(bad), _) => without_sets(rt, asked, text, bad),
        (None, ToldFault::NoMemory) => failed(rt, "sim", "", &Failure::NoMemory),
        (None, ToldFault::Sim(_)) => wrong(rt, "bowls: a node failed, so the run has no end\n", 3),
        (None, ToldFault::Replay(_)) => wrong(rt, "bowls: the script came to something else\n", 3),
    }
}

/// Writes a script, and where it comes from.
fn write_script(file: File, script: &[u8], origin: &str) -> Result<(), Fault> {
    let mut out = Stream::new(file);
    write_bytes(&mut out, script)?;
    write_bytes(&mut out, origin.as_bytes())
}

/// Writes a script into a file that doesn't exist yet, with where it comes from, and returns the exit status. A script that is too long to be
/// read isn't written.
fn keep(rt: &HostRuntime, path: &str, script: &[u8], origin: &str) -> u8 {
    if script.len() > LONG_LIMIT.saturating_sub(origin.len()) {
        return failed(rt, path, "", &Failure::TooLong(LONG_LIMIT));
    }
    match OpenOptions::new()
        .write(true)
        .create_new(true)
        .open(rt, path)
    {
        Ok(file) => match write_script(file, script, origin) {
            Ok(()) => 0,
            Err(_) => failed(rt, path, "it can't be written", &Failure::Unwritten),
        },
        Err(error) => unopened_file(rt, path, error.kind()),
    }
}

/// The path of the whole script, beside the smaller one.
fn whole_path(rt: &HostRuntime, path: &str) -> Result<String, AllocError> {
    let mut whole = String::new(rt.alloc());
    write!(whole, "{path}.whole")?;
    Ok(whole)
}

/// Writes the script of a run into its file, or the smaller one and the whole one beside it.
fn keep_all(rt: &HostRuntime, path: &str, run: &Told, origin: &str) -> Result<u8, AllocError> {
    let Some(smaller) = &run.shrunk else {
        return Ok(keep(rt, path, run.script.as_slice(), origin));
    };
    let status = keep(rt, path, smaller.as_slice(), origin);
    if status != 0 {
        return Ok(status);
    }
    let whole = whole_path(rt, path)?;
    Ok(keep(rt, whole.as_str(), run.script.as_slice(), origin))
}

/// Shows one run, and then keeps its script if it is asked to.
fn tell(
    rt: &HostRuntime,
    asked: &SimAsked<'_>,
    run: &Told,
    words: &[&str],
) -> Result<u8, AllocError> {
    let status = told(rt, run.text.as_str());
    if status != 0 {
        return Ok(status);
    }
    let status = match asked.script {
        Some(path) => {
            let origin = script_origin(rt.alloc(), words, asked.seeds.from)?;
            keep_all(rt, path, run, origin.as_str())?
        }
        None => 0,
    };
    Ok(match (status, run.finding) {
        (0, Some(_)) => 4,
        (status, _) => status,
    })
}

/// One run.
fn one(rt: &HostRuntime, asked: &SimAsked<'_>, words: &[&str]) -> Result<u8, AllocError> {
    let mut pacing = Pacing::new(rt, asked);
    let mut run = match tell_run(rt.alloc(), &asked.plan, asked.seeds.from, &mut pacing) {
        Ok(run) => run,
        Err(fault) => return Ok(unsimulated(rt, asked, &[], fault)),
    };
    add_stand(rt.alloc(), &mut run, &asked.plan)?;
    if asked.shrink && run.finding.is_some() {
        // (it plays the script some times for each line)
        let _ = wrong(rt, "the script is shrunk, which may take long\n", 0);
        shorten(rt.alloc(), &mut run, &judging_of(&asked.plan))?;
    }
    tell(rt, asked, &run, words)
}

/// Shows people, once a second, how far a run is, and at once that nodes disagree.
#[derive(Drop)]
struct Pacing<'a> {
    rt: &'a HostRuntime,
    began: Option<Instant>,
    /// The second for which something was shown last.
    last: u64,
    seed: u64,
    slots: u64,
    /// Whether it was shown that nodes of this run disagree.
    has_split: bool,
}

impl<'a> Pacing<'a> {
    fn new(rt: &'a HostRuntime, asked: &SimAsked<'_>) -> Pacing<'a> {
        Pacing {
            rt,
            began: match Instant::now(rt) {
                Ok(began) => Some(began),
                Err(_) => None,
            },
            last: 0,
            seed: asked.seeds.from,
            slots: asked.plan.slots,
            has_split: false,
        }
    }

    /// A run with this seed begins.
    fn begin(&mut self, seed: u64) {
        self.seed = seed;
        self.has_split = false;
    }

    /// How many seconds went by, if it is a second for which nothing was shown yet.
    fn second(&mut self) -> Option<u64> {
        let Some(began) = &self.began else {
            return None;
        };
        let Ok(time) = began.elapsed(self.rt) else {
            return None;
        };
        let seconds = time.as_secs();
        if seconds == self.last || seconds == 0 {
            return None;
        }
        self.last = seconds;
        Some(seconds)
    }

    /// Shows how far the run is.
    fn show(&self, far: &Far) -> Result<(), AllocError> {
        let mut text = String::new(self.rt.alloc());
        let (seed, slots) = (self.seed, self.slots);
        let (time, closed, sent) = (far.time, far.closed, far.sent);
        writeln!(
            text,
            "seed {seed} at {time} ms: closed {closed} of {slots}, messages {sent}"
        )?;
        let _ = wrong(self.rt, text.as_str(), 0);
        Ok(())
    }

    /// Shows for which slot nodes disagree.
    fn show_split(&self, far: &Far, slot: u64) -> Result<(), AllocError> {
        let mut text = String::new(self.rt.alloc());
        let (seed, time) = (self.seed, far.time);
        writeln!(
            text,
            "seed {seed} at {time} ms: nodes disagree on slot {slot}"
        )?;
        let _ = wrong(self.rt, text.as_str(), 0);
        Ok(())
    }
}

impl<'a> Pace for Pacing<'a> {
    fn at(&mut self, far: &Far) {
        if let (Some(slot), false) = (far.split, self.has_split) {
            self.has_split = true;
            let _ = self.show_split(far, slot);
        }
        if self.second().is_some() {
            let _ = self.show(far);
        }
    }
}

/// Shows people how many runs are done, and what they came to so far.
fn show_runs(rt: &HostRuntime, table: &Table, all: u64, seconds: u64) -> Result<(), AllocError> {
    let mut text = String::new(rt.alloc());
    let (runs, rate) = (table.runs, table.runs / seconds.max(1));
    write!(text, "{runs} of {all} runs, {rate} a second: ")?;
    table.write_findings(&mut text)?;
    let _ = wrong(rt, text.as_str(), 0);
    Ok(())
}

/// Shows the line of a run in which something is found.
fn tell_row(
    rt: &HostRuntime,
    asked: &SimAsked<'_>,
    seed: u64,
    run: &Told,
) -> Result<u8, AllocError> {
    let mut row = String::new(rt.alloc());
    write_row(&mut row, &asked.plan, seed, run)?;
    if row.is_empty() {
        return Ok(0);
    }
    Ok(told(rt, row.as_str()))
}

/// One run for each seed, and the table of the runs.
fn many(rt: &HostRuntime, asked: &SimAsked<'_>) -> Result<u8, AllocError> {
    let all = asked
        .seeds
        .to
        .saturating_sub(asked.seeds.from)
        .saturating_add(1);
    let mut pacing = Pacing::new(rt, asked);
    let mut table = Table::new();
    for seed in asked.seeds.from..=asked.seeds.to {
        pacing.begin(seed);
        let run = match tell_run(rt.alloc(), &asked.plan, seed, &mut pacing) {
            Ok(run) => run,
            Err(fault) => return Ok(unsimulated(rt, asked, &[], fault)),
        };
        let status = tell_row(rt, asked, seed, &run)?;
        if status != 0 {
            return Ok(status);
        }
        table.add(&run);
        if let Some(seconds) = pacing.second() {
            show_runs(rt, &table, all, seconds)?;
        }
    }
    let mut text = String::new(rt.alloc());
    table.write(&mut text)?;
    let status = told(rt, text.as_str());
    if status == 0 && table.whole < table.runs {
        return Ok(4);
    }
    Ok(status)
}

/// Puts the quorum sets of a file into the plan, and returns its text. If that can't be done, returns the exit status of the failure that was
/// reported.
fn with_sets(rt: &HostRuntime, asked: &mut SimAsked<'_>) -> Result<Vec<u8>, u8> {
    let Some(path) = asked.sets else {
        return Ok(Vec::new(rt.alloc()));
    };
    let text = text_of_file(rt, path)?;
    match sets_of(rt.alloc(), text.as_slice()) {
        Ok(sets) => {
            asked.plan.sets = sets;
            Ok(text)
        }
        Err(bad) => Err(without_sets(rt, asked, text.as_slice(), bad)),
    }
}

/// Does the runs that are asked for, and returns the exit status.
fn runs(rt: &HostRuntime, asked: &SimAsked<'_>, words: &[&str]) -> Result<u8, AllocError> {
    if asked.seeds.from == asked.seeds.to {
        return one(rt, asked, words);
    }
    many(rt, asked)
}

/// Shows two quorums without a common node, if there are any, and then does the runs. Such quorums are a finding, whatever the runs find.
fn behind(
    rt: &HostRuntime,
    asked: &SimAsked<'_>,
    line: &str,
    words: &[&str],
) -> Result<u8, AllocError> {
    if line.is_empty() {
        return runs(rt, asked, words);
    }
    let status = told(rt, line);
    if status != 0 {
        return Ok(status);
    }
    match runs(rt, asked, words)? {
        0 => Ok(4),
        status => Ok(status),
    }
}

/// Whether something is already where the script is to be written, or where the whole one is beside a smaller one.
fn is_taken(rt: &HostRuntime, asked: &SimAsked<'_>, path: &str) -> Result<bool, AllocError> {
    if fs::canonicalize(rt, path).is_ok() {
        return Ok(true);
    }
    if !asked.shrink {
        return Ok(false);
    }
    let whole = whole_path(rt, path)?;
    Ok(fs::canonicalize(rt, whole.as_str()).is_ok())
}

/// Does what is asked of a simulation by these words, and returns the exit status. A path that is taken is told before anything is run.
pub fn with_sim(
    rt: &HostRuntime,
    mut asked: SimAsked<'_>,
    words: &[&str],
) -> Result<u8, AllocError> {
    if let Some(path) = asked.script {
        if is_taken(rt, &asked, path)? {
            return Ok(unopened_file(rt, path, ErrorKind::AlreadyExists));
        }
    }
    let text = match with_sets(rt, &mut asked) {
        Ok(text) => text,
        Err(status) => return Ok(status),
    };
    match plan_apart(rt.alloc(), &asked.plan) {
        Ok(line) => behind(rt, &asked, line.as_str(), words),
        Err(fault) => Ok(unsimulated(rt, &asked, text.as_slice(), fault)),
    }
}
