//! Shortens a script so that it comes to the same finding with fewer lines.
ghost use Rattle.std.specs.Prelude.{◌≡◌, ◌++◌, Some, IfOk, IfSome, IsTrue, OnOk, codes, filter, length, map, string_bytes};
ghost use Rattle.std.specs.Fmt.{decimal};
ghost use Rattle.scp_script_hints.specs.scp_script.specs.Words.{lines_of};
ghost use Rattle.scp_sim_findings.specs.Needs.{AreAlike, AreNeedsOf};
ghost use Rattle.scp_sim_findings.specs.Replayed.{ComesTo};
ghost use Rattle.scp_sim_findings.specs.Shrunk.{IsPartOf, IsSmaller, is_kept, text_of};
ghost use Rattle.scp_sim_findings.specs.Told.{Shortens};
ghost use Rattle.scp_sim_findings.specs.inside.Reaching.{Reaches};

use crate::lines::{lines_in, text_of};
use crate::needs::needs_of;
use crate::outcome::{Finding, Judging};
use crate::replaying::comes_to;
use crate::running::Told;
use std::alloc::{AllocError, Global};

/// What a smaller script is to come to.
#[derive(Drop)]
pub struct Aim {
    pub finding: Finding,
    pub judging: Judging,
    /// What slots need, if nodes are stuck.
    pub needs: Vec<u8>,
}

/// Whether a line is never left out: it says who the nodes are, how they are linked or which of them are reported, or it is a comment.
fn is_kept(line: &[u8]) -> bool
    ensures { result ≡ is_kept line.now }
{
    line.starts_with(b"#")
        || line.starts_with(b"caps ")
        || line.starts_with(b"nodes ")
        || line.starts_with(b"set ")
        || line.starts_with(b"open ")
        || line.starts_with(b"close ")
        || line.starts_with(b"report ")
}

/// Adds those of the lines that are never left out.
fn add_kept<'a>(some: &mut Vec<&'a [u8]>, lines: &[&'a [u8]]) -> Result<(), AllocError>
    ensures { OnOk result (some.new.items ≡ some.old.items ++ filter (λ line. is_kept line.now) lines.now) }
{
    for line in lines {
        if is_kept(line) {
            some.push(*line)?;
        }
    }
    Ok(())
}

/// The lines without `count` of them from an index on, but for those that are never left out.
fn without<'a>(
    alloc: Global,
    lines: &[&'a [u8]],
    start: usize,
    count: usize,
) -> Result<Vec<&'a [u8]>, AllocError>
    ensures { IfOk result (λ some. IsSmaller (map (λ line. line.now) some.items) (map (λ line. line.now) lines.now)) }
{
    let (front, rest) = lines.split_at(start.min(lines.len()));
    let (out, back) = rest.split_at(count.min(rest.len()));
    let mut some = Vec::from_slice(alloc, front)?;
    add_kept(&mut some, out)?;
    some.extend_from_slice(back)?;
    Ok(some)
}

/// Whether the slots of a script's nodes need what is aimed at.
fn same_needs(alloc: Global, script: &[u8], aim: &Aim) -> Result<bool, AllocError>
    ensures { IfOk result (λ same. IsTrue same → AreNeedsOf aim.now.finding script.now aim.now.needs.items) }
{
    let found = needs_of(alloc, script, aim.finding)?;
    match found {
        Some(needs) => Ok(needs.as_slice() == aim.needs.as_slice()),
        None => Ok(false),
    }
}

/// Whether playing a script leads to what is aimed at.
fn reaches(alloc: Global, script: &[u8], aim: &Aim) -> Result<bool, AllocError>
    ensures { IfOk result (λ reached. IsTrue reached → Reaches aim.now script.now) }
{
    if comes_to(alloc, script, aim.finding, &aim.judging)? {
        return same_needs(alloc, script, aim);
    }
    Ok(false)
}

/// The lines without some of them from an index on, if these can be left out and what is left reaches what is aimed at.
fn smaller<'a>(
    alloc: Global,
    lines: &[&'a [u8]],
    start: usize,
    count: usize,
    aim: &Aim,
) -> Result<Option<Vec<&'a [u8]>>, AllocError>
    ensures part { IfOk result (λ found. IfSome found (λ some. IsSmaller (map (λ line. line.now) some.items) (map (λ line. line.now) lines.now))) }
    ensures reaches { IfOk result (λ found. IfSome found (λ some. Reaches aim.now (text_of (map (λ line. line.now) some.items)))) }
{
    let some = without(alloc, lines, start, count)?;
    if some.len() == lines.len() {
        return Ok(None);
    }
    let text = text_of(alloc, some.as_slice())?;
    if reaches(alloc, text.as_slice(), aim)? {
        Ok(Some(some))
    } else {
        Ok(None)
    }
}

/// The lines without some of them from an index on, if what is left reaches what is aimed at, and otherwise all of them. Also returns the
/// next index.
fn step<'a>(
    alloc: Global,
    lines: Vec<&'a [u8]>,
    start: usize,
    count: usize,
    aim: &Aim,
) -> Result<(Vec<&'a [u8]>, usize), AllocError>
    requires reaches { Reaches aim.now (text_of (map (λ line. line.now) lines.items)) }
    ensures part { IfOk result (λ left. IsSmaller (map (λ line. line.now) left.0.items) (map (λ line. line.now) lines.entry.items)) }
    ensures reaches { IfOk result (λ left. Reaches aim.now (text_of (map (λ line. line.now) left.0.items))) }
{
    if count == 0 || start >= lines.len() {
        return Ok((lines, start));
    }
    match smaller(alloc, lines.as_slice(), start, count, aim)? {
        Some(some) => Ok((some, start)),
        None => Ok((lines, start.saturating_add(count))),
    }
}

/// Leaves out lines at each index in turn, if what is left reaches what is aimed at.
fn pass<'a>(
    alloc: Global,
    lines: Vec<&'a [u8]>,
    count: usize,
    aim: &Aim,
) -> Result<Vec<&'a [u8]>, AllocError>
    requires reaches { Reaches aim.now (text_of (map (λ line. line.now) lines.items)) }
    ensures part { IfOk result (λ some. IsSmaller (map (λ line. line.now) some.items) (map (λ line. line.now) lines.entry.items)) }
    ensures reaches { IfOk result (λ some. Reaches aim.now (text_of (map (λ line. line.now) some.items))) }
{
    let most = lines.len();
    let mut left = lines;
    let mut start = 0;
    for _ in 0..most {
        let (next, place) = step(alloc, left, start, count, aim)?;
        left = next;
        start = place;
    }
    Ok(left)
}

/// Leaves out fewer lines at once in each pass, down to single lines, which are tried some times.
fn passes<'a>(alloc: Global, lines: Vec<&'a [u8]>, aim: &Aim) -> Result<Vec<&'a [u8]>, AllocError>
    requires reaches { Reaches aim.now (text_of (map (λ line. line.now) lines.items)) }
    ensures part { IfOk result (λ some. IsSmaller (map (λ line. line.now) some.items) (map (λ line. line.now) lines.entry.items)) }
    ensures reaches { IfOk result (λ some. Reaches aim.now (text_of (map (λ line. line.now) some.items))) }
{
    let mut count = lines.len() / 2;
    let mut left = lines;
    for _ in 0..64 {
        left = pass(alloc, left, count, aim)?;
        count /= 2;
    }
    for _ in 0..4 {
        left = pass(alloc, left, 1, aim)?;
    }
    Ok(left)
}

/// What a smaller script of these lines is to come to: this finding, and if nodes are stuck, what their slots need. `None` if the whole
/// script doesn't come to it.
fn aim_of(
    alloc: Global,
    script: &[u8],
    finding: Finding,
    judging: &Judging,
) -> Result<Option<Aim>, AllocError>
    ensures finding { IfOk result (λ found. IfSome found (λ aim. aim.finding ≡ finding)) }
    ensures judging { IfOk result (λ found. IfSome found (λ aim. aim.judging ≡ judging.now)) }
    ensures reaches { IfOk result (λ found. IfSome found (λ aim. Reaches aim script.now)) }
{
    if !comes_to(alloc, script, finding, judging)? {
        return Ok(None);
    }
    let found = needs_of(alloc, script, finding)?;
    match found {
        Some(needs) => Ok(Some(Aim {
            finding,
            judging: *judging,
            needs,
        })),
        None => Ok(None),
    }
}

/// Some of these lines, in their order, as a text that reaches what is aimed at.
fn shrunk_to(alloc: Global, lines: Vec<&[u8]>, aim: &Aim) -> Result<Vec<u8>, AllocError>
    requires reaches { Reaches aim.now (text_of (map (λ line. line.now) lines.items)) }
    ensures part { IfOk result (λ text. IsPartOf (map (λ line. line.now) lines.entry.items) text.items) }
    ensures reaches { IfOk result (λ text. Reaches aim.now text.items) }
{
    let left = passes(alloc, lines, aim)?;
    let text = text_of(alloc, left.as_slice())?;
    Ok(text)
}

/// Some of the script's lines, in their order, which come to the same finding. If nodes are stuck, they are so for the same needs. All lines
/// stay that say who the nodes are, how they are linked and which of them are reported. `None` if the whole script doesn't come to it. Plays
/// the script some times for each of its lines.
pub fn shrunk(
    alloc: Global,
    script: &[u8],
    finding: Finding,
    judging: &Judging,
) -> Result<Option<Vec<u8>>, AllocError>
    ensures part { IfOk result (λ found. IfSome found (λ text. IsPartOf (lines_of script.now) text.items)) }
    ensures comes { IfOk result (λ found. IfSome found (λ text. ComesTo text.items finding judging.now.marks judging.now.slots)) }
    ensures alike { IfOk result (λ found. IfSome found (λ text. AreAlike finding (text_of (lines_of script.now)) text.items)) }
{
    let lines = lines_in(alloc, script)?;
    let text = text_of(alloc, lines.as_slice())?;
    let found = aim_of(alloc, text.as_slice(), finding, judging)?;
    match found {
        Some(aim) => {
            let smaller = shrunk_to(alloc, lines, &aim)?;
            Ok(Some(smaller))
        }
        None => Ok(None),
    }
}

/// Puts a smaller script beside the report's script, and adds a line with its length.
fn put_beside(told: &mut Told, script: Vec<u8>) -> Result<(), AllocError>
    ensures shrunk { OnOk result (told.new.shrunk ≡ Some script) }
    ensures text { OnOk result (string_bytes told.new.text ≡ string_bytes told.old.text ++ (codes "shrunk to " ++ decimal (length script.items) ++ codes " bytes\n")) }
    ensures rest { OnOk result (told.new ≡ record told.old { shrunk = told.new.shrunk; text = told.new.text }) }
{
    writeln!(told.text, "shrunk to {} bytes", script.len())?;
    told.shrunk = Some(script);
    Ok(())
}

/// Puts a smaller script beside the report's script, if that comes to this finding again, and adds a line with its length.
fn shorten_to(
    alloc: Global,
    told: &mut Told,
    finding: Finding,
    judging: &Judging,
) -> Result<(), AllocError>
    ensures { OnOk result (Shortens (Some finding) judging.now.marks judging.now.slots told.old told.new) }
{
    let found = shrunk(alloc, told.script.as_slice(), finding, judging)?;
    match found {
        Some(script) => put_beside(told, script),
        None => Ok(()),
    }
}

/// Puts a smaller script beside the report's script, if there is a finding that it comes to again, and adds a line with its length. All
/// else in the report is that of the whole run.
pub fn shorten(alloc: Global, told: &mut Told, judging: &Judging) -> Result<(), AllocError>
    ensures { OnOk result (Shortens told.old.finding judging.now.marks judging.now.slots told.old told.new) }
{
    match told.finding {
        Some(finding) => shorten_to(alloc, told, finding, judging),
        None => Ok(()),
    }
}
