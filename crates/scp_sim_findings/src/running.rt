//! One run: simulated, played once more, and reported.
ghost use Rattle.std.specs.Prelude.{◌≡◌, ◌++◌, IfOk, IfErr, OnOk, length, string_bytes};
ghost use Rattle.scp_notices.specs.scp_script_text.specs.Scripts.{IsScriptOf};
ghost use Rattle.scp_sim_findings.specs.Sets.{HaveNoDigits, bad_sets_of};
ghost use Rattle.scp_sim_findings.specs.Told.{is_judged_at, marks_of, slots_for, counted_text, cut_text, IsTold, IsToldOf};

use crate::outcome::{Finding, Judging, closed, finding_of, write_outcome};
use crate::replaying::{ReplayFault, replayed};
use scp_notices::below::node::Node;
use scp_notices::below::script_check::{BadLine, ReadFault};
use scp_notices::below::script_text::{Form, Kind, rewrite};
use scp_sim::below::sim_options::Plan;
use scp_sim::{Counts, Pace, SimFault, Simulated, simulate};
use std::alloc::{AllocError, Global};
use std::str;

/// The report of a run.
#[derive(Drop)]
pub struct Told {
    /// The script of all that happened, as text.
    pub script: Vec<u8>,
    /// Some of its lines, which come to the same finding, if it was shrunk.
    pub shrunk: Option<Vec<u8>>,
    /// The text of the report.
    pub text: String,
    /// The worst finding.
    pub finding: Option<Finding>,
    /// How many slots all judged nodes applied.
    pub closed: u64,
    /// The simulated time in milliseconds, and what the simulation counted.
    pub time: u64,
    pub counts: Counts,
}

/// Why a run has no report.
#[derive(Clone, Copy, Debug, PartialEq, Eq)]
pub enum ToldFault {
    NoMemory,
    /// It couldn't be simulated to its end.
    Sim(SimFault),
    /// Its script couldn't be played, or gave other reports.
    Replay(ReplayFault),
}

/// Why lines give no quorum sets.
#[derive(Clone, Copy, PartialEq, Eq)]
pub enum BadSets {
    NoMemory,
    /// This word of a line is bad.
    Word(BadLine),
    /// This line, counted from 1, is bad.
    Line(usize),
}

impl From<AllocError> for ToldFault {
    ghost from_gives = { λ _ _. Unit {0} };

    fn from(_e: AllocError) -> ToldFault {
        ToldFault::NoMemory
    }
}

/// The lines that give quorum sets, with digits in place of text. Refused with the first bad word, or with the number of a bad line, counted
/// from 1.
pub fn sets_of(alloc: Global, text: &[u8]) -> Result<String, BadSets>
    ensures sets { IfOk result (λ sets. IsScriptOf Kind.Nodes Form.Hex text.now (string_bytes sets)) }
    ensures refused { IfErr result (HaveNoDigits text.now) }
{
    let digits = match rewrite(alloc, Kind::Nodes, Form::Hex, text) {
        Ok(digits) => digits,
        Err(ReadFault::NoMemory) => return Err(BadSets::NoMemory),
        Err(ReadFault::Bad(bad)) => return Err(BadSets::Word(bad)),
        Err(ReadFault::BadAt(line)) => return Err(BadSets::Line(line)),
    };
    let Ok(digits) = str::from_utf8(digits.as_slice()) else {
        return Err(BadSets::Line(1));
    };
    match String::from_str(alloc, digits) {
        Ok(sets) => Ok(sets),
        Err(_) => Err(BadSets::NoMemory),
    }
}

/// What is bad among the lines that give quorum sets, if that is why nothing is reported.
pub fn bad_sets(fault: ToldFault) -> Option<BadSets>
    ensures { result ≡ bad_sets_of fault }
{
    // (in the script, one line comes before them, which says how many nodes there are)
    match fault {
        ToldFault::Sim(SimFault::Sets(ReadFault::Bad(bad))) => Some(BadSets::Word(BadLine {
            line: bad.line.saturating_sub(1),
            bad: bad.bad,
        })),
        ToldFault::Sim(SimFault::Sets(ReadFault::BadAt(line))) => {
            Some(BadSets::Line(line.saturating_sub(1)))
        }
        _ => None,
    }
}

/// Whether the node at this index is judged.
fn is_judged_at(plan: &Plan, place: usize) -> bool
    ensures { result ≡ is_judged_at plan.now place }
{
    let equivocates = matches!(plan.equivocating.get(place), Some(true));
    let floods = matches!(plan.flooding.get(place), Some(true));
    !(equivocates || floods)
}

/// Which nodes are judged, and how many slots they were to apply.
pub fn judging_of(plan: &Plan) -> Judging
    ensures marks { result.marks ≡ marks_of plan.now }
    ensures slots { result.slots ≡ plan.now.slots }
{
    Judging {
        marks: [
            is_judged_at(plan, 0),
            is_judged_at(plan, 1),
            is_judged_at(plan, 2),
            is_judged_at(plan, 3),
            is_judged_at(plan, 4),
            is_judged_at(plan, 5),
            is_judged_at(plan, 6),
            is_judged_at(plan, 7),
        ],
        slots: plan.slots,
    }
}

/// Which nodes are judged, and how many slots they were to apply. A run that the plan ended has as many slots as they all applied.
fn judging_for(plan: &Plan, is_cut: bool, nodes: &[Node]) -> Judging
    ensures marks { result.marks ≡ marks_of plan.now }
    ensures slots { result.slots ≡ slots_for plan.now is_cut nodes.now }
{
    let judging = judging_of(plan);
    if is_cut {
        let slots = closed(judging.slots, &judging.marks, nodes);
        return Judging {
            marks: judging.marks,
            slots,
        };
    }
    judging
}

/// The lines of what the simulation counted.
fn counted(alloc: Global, seed: u64, run: &Simulated, script: &[u8]) -> Result<String, AllocError>
    ensures { IfOk result (λ text. string_bytes text ≡ counted_text seed run.now.time run.now.counts (length script.now)) }
{
    let counts = run.counts;
    let mut text = String::new(alloc);
    writeln!(text, "seed {seed}")?;
    writeln!(text, "time {} ms", run.time)?;
    writeln!(
        text,
        "messages {} lost {} doubled {}",
        counts.sent, counts.lost, counts.doubled
    )?;
    writeln!(
        text,
        "timers rounds {} ballots {}",
        counts.rounds, counts.ballots
    )?;
    writeln!(text, "asked {}", counts.asked)?;
    writeln!(text, "script {} bytes", script.len())?;
    Ok(text)
}

/// Adds the line of a run that the plan ended.
fn write_cut(text: &mut String, is_cut: bool, slots: u64) -> Result<(), AllocError>
    ensures { OnOk result (string_bytes text.new ≡ string_bytes text.old ++ cut_text is_cut slots) }
{
    if !is_cut {
        return Ok(());
    }
    writeln!(text, "ended before {slots} slots were closed")
}

/// The lines of what the simulation counted, and of its end if the plan ended it.
fn first_lines(
    alloc: Global,
    plan: &Plan,
    seed: u64,
    run: &Simulated,
    script: &[u8],
) -> Result<String, AllocError>
    ensures { IfOk result (λ text. string_bytes text ≡ counted_text seed run.now.time run.now.counts (length script.now) ++ cut_text run.now.is_cut plan.now.slots) }
{
    let mut text = counted(alloc, seed, run, script)?;
    write_cut(&mut text, run.is_cut, plan.slots)?;
    Ok(text)
}

/// The script as text.
fn as_text(alloc: Global, digits: &[u8]) -> Result<Vec<u8>, ToldFault>
    ensures { IfOk result (λ text. IsScriptOf Kind.Nodes Form.Text digits.now text.items) }
{
    match rewrite(alloc, Kind::Nodes, Form::Text, digits) {
        Ok(text) => Ok(text),
        Err(ReadFault::NoMemory) => Err(ToldFault::NoMemory),
        Err(_) => Err(ToldFault::Replay(ReplayFault::Differs)),
    }
}

/// Plays the script of a simulation once more, and reports the outcome.
fn tell(alloc: Global, plan: &Plan, seed: u64, run: &Simulated) -> Result<Told, ToldFault>
    ensures { IfOk result (IsTold plan.now seed run.now) }
{
    let script = as_text(alloc, run.script.as_bytes())?;
    let ran = match replayed(alloc, script.as_slice(), run.reports.as_str()) {
        Ok(ran) => ran,
        Err(fault) => return Err(ToldFault::Replay(fault)),
    };
    let (nodes, notices) = (ran.network.nodes(), ran.notices.as_slice());
    let judging = judging_for(plan, run.is_cut, nodes);
    let mut text = first_lines(alloc, plan, seed, run, script.as_slice())?;
    write_outcome(alloc, &mut text, &judging, nodes, notices)?;
    let finding = finding_of(&judging, nodes, notices);
    let closed = closed(judging.slots, &judging.marks, nodes);
    Ok(Told {
        script,
        shrunk: None,
        text,
        finding,
        closed,
        time: run.time,
        counts: run.counts,
    })
}

/// Simulates a plan with a seed, plays its script once more, and reports the outcome. `pace` is told how far the simulation is.
#[tactic(auto, using(crate::proofs::Telling::told_of))]
pub fn tell_run<P: Pace>(
    alloc: Global,
    plan: &Plan,
    seed: u64,
    pace: &mut P,
) -> Result<Told, ToldFault>
    ensures { IfOk result (IsToldOf plan.now seed) }
{
    match simulate(alloc, plan, seed, pace) {
        Ok(run) => tell(alloc, plan, seed, &run),
        Err(SimFault::NoMemory) => Err(ToldFault::NoMemory),
        Err(fault) => Err(ToldFault::Sim(fault)),
    }
}
