//! Sums over many runs.
ghost use Rattle.std.specs.Prelude.{◌≡◌, ◌++◌, OnOk, string_bytes};
ghost use Rattle.scp_sim_findings.specs.Sums.{with_finding, with_run, no_runs, word_of, row_of, findings_line, table_text};

use crate::outcome::Finding;
use crate::running::Told;
use scp_sim::below::sim_options::Plan;
use std::alloc::AllocError;

/// The word for a finding.
fn word_of(finding: Finding) -> &'static str
    ensures { result.now ≡ word_of finding }
{
    match finding {
        Finding::Split => "split",
        Finding::Stuck => "stuck",
        Finding::Cut => "cut",
    }
}

/// Adds the line of a run with a finding: `seed N FINDING closed K of SLOTS`. Adds nothing for a run without one.
pub fn write_row(text: &mut String, plan: &Plan, seed: u64, told: &Told) -> Result<(), AllocError>
    ensures { OnOk result (string_bytes text.new ≡ string_bytes text.old ++ row_of told.now.finding seed told.now.closed plan.now.slots) }
{
    match told.finding {
        Some(finding) => {
            let (word, closed, slots) = (word_of(finding), told.closed, plan.slots);
            writeln!(text, "seed {seed} {word} closed {closed} of {slots}")
        }
        None => Ok(()),
    }
}

/// Sums over runs.
#[derive(Clone, Copy, PartialEq, Eq)]
pub struct Table {
    pub runs: u64,
    pub whole: u64,
    pub split: u64,
    pub stuck: u64,
    pub cut: u64,
    pub closed: u64,
    pub time: u64,
    pub sent: u64,
    pub lost: u64,
    pub rounds: u64,
    pub ballots: u64,
    pub asked: u64,
}

impl Table {
    /// The sums over no runs.
    pub fn new() -> Table
        ensures { result ≡ no_runs }
    {
        Table {
            runs: 0,
            whole: 0,
            split: 0,
            stuck: 0,
            cut: 0,
            closed: 0,
            time: 0,
            sent: 0,
            lost: 0,
            rounds: 0,
            ballots: 0,
            asked: 0,
        }
    }

    /// Counts one more run of this finding, or of none.
    fn count(&mut self, finding: Option<Finding>)
        ensures { self.new ≡ with_finding finding self.old }
    {
        match finding {
            None => self.whole = self.whole.saturating_add(1),
            Some(Finding::Split) => self.split = self.split.saturating_add(1),
            Some(Finding::Stuck) => self.stuck = self.stuck.saturating_add(1),
            Some(Finding::Cut) => self.cut = self.cut.saturating_add(1),
        }
    }

    /// Adds one more run. A sum that would need more than 64 bits stays at the greatest number.
    pub fn add(&mut self, told: &Told)
        ensures { self.new ≡ with_run self.old told.now }
    {
        self.count(told.finding);
        self.runs = self.runs.saturating_add(1);
        self.closed = self.closed.saturating_add(told.closed);
        self.time = self.time.saturating_add(told.time);
        self.sent = self.sent.saturating_add(told.counts.sent);
        self.lost = self.lost.saturating_add(told.counts.lost);
        self.rounds = self.rounds.saturating_add(told.counts.rounds);
        self.ballots = self.ballots.saturating_add(told.counts.ballots);
        self.asked = self.asked.saturating_add(told.counts.asked);
    }

    /// Adds the line of how many runs have no finding, and how many have each finding as their worst.
    pub fn write_findings(&self, text: &mut String) -> Result<(), AllocError>
        ensures { OnOk result (string_bytes text.new ≡ string_bytes text.old ++ findings_line self.now) }
    {
        writeln!(
            text,
            "whole {} split {} stuck {} cut {}",
            self.whole, self.split, self.stuck, self.cut
        )
    }

    /// Adds the lines of the sums.
    pub fn write(&self, text: &mut String) -> Result<(), AllocError>
        ensures { OnOk result (string_bytes text.new ≡ string_bytes text.old ++ table_text self.now) }
    {
        writeln!(text, "runs {}", self.runs)?;
        self.write_findings(text)?;
        writeln!(text, "slots {} in {} ms", self.closed, self.time)?;
        writeln!(text, "messages {} lost {}", self.sent, self.lost)?;
        writeln!(
            text,
            "timers rounds {} ballots {}",
            self.rounds, self.ballots
        )?;
        writeln!(text, "asked {}", self.asked)?;
        Ok(())
    }
}
