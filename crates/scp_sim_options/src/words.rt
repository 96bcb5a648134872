//! The words that say numbers, times and nodes.

use crate::plan::{Crash, Partition, Span};
use scp_types::NODE_LIMIT;

/// A number in decimal digits, without a sign.
pub(crate) fn number_of(word: &str) -> Option<u64> {
    if !word.bytes().all(|byte| byte.is_ascii_digit()) {
        return None;
    }
    match word.parse::<u64>() {
        Ok(number) => Some(number),
        Err(_) => None,
    }
}

/// A node: a number from 1 to 8.
pub(crate) fn node_of(word: &str) -> Option<u8> {
    let number = number_of(word)?;
    if 1 <= number && number <= NODE_LIMIT as u64 {
        Some(number as u8)
    } else {
        None
    }
}

/// A number of hundredths and of thousandths besides, as so many thousandths, if these are at most 1,000.
fn in_thousandths(hundredths: u64, more: u64) -> Option<u16> {
    if hundredths > 100 || more > 9 {
        return None;
    }
    let all = hundredths * 10 + more;
    if all <= 1_000 { Some(all as u16) } else { None }
}

/// A percentage, as `5%` or `5.5%`, in thousandths.
pub(crate) fn thousandths_of(word: &str) -> Option<u16> {
    let number = word.strip_suffix("%")?;
    match number.split_once(".") {
        None => in_thousandths(number_of(number)?, 0),
        Some((whole, part)) if part.len() == 1 => {
            in_thousandths(number_of(whole)?, number_of(part)?)
        }
        Some(_) => None,
    }
}

/// A range, as `10..200`.
pub(crate) fn span_of(word: &str) -> Option<Span> {
    let (from, to) = word.split_once("..")?;
    let (from, to) = (number_of(from)?, number_of(to)?);
    if from <= to {
        Some(Span { from, to })
    } else {
        None
    }
}

/// A node that stops for a while, as `3@500..900`.
pub(crate) fn crash_of(word: &str) -> Option<Crash> {
    let (node, span) = word.split_once("@")?;
    let (node, span) = (node_of(node)?, span_of(span)?);
    Some(Crash { node, span })
}

/// Puts nodes, as `1,2,3`, on this side. Returns whether the word names nodes, none of which was on a side before.
fn put_side(sides: &mut [u8; NODE_LIMIT], side: u8, word: &str) -> bool {
    for part in word.split(',') {
        let Some(node) = node_of(part) else {
            return false;
        };
        match sides.get_mut(usize::from(node).saturating_sub(1)) {
            Some(place) if *place == 0 => *place = side,
            _ => return false,
        }
    }
    true
}

/// Nodes that are kept apart for a while, as `1,2,3|4,5,6,7@100..900`.
pub(crate) fn partition_of(word: &str) -> Option<Partition> {
    let (nodes, span) = word.split_once("@")?;
    let span = span_of(span)?;
    let mut sides = [0; NODE_LIMIT];
    let mut side: u8 = 0;
    for part in nodes.split('|') {
        side = side.saturating_add(1);
        if !put_side(&mut sides, side, part) {
            return None;
        }
    }
    if side < 2 {
        return None;
    }
    Some(Partition { sides, span })
}
