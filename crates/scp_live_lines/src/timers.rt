//! The lines of timers that a host starts and stops.
ghost use Rattle.std.specs.Prelude.{◌≡◌, ◌++◌, OnOk, codes, flat_map, string_bytes};
ghost use Rattle.scp_live_lines.specs.Timers.{same_timer, runs_in, timer_line, missing_line, changes, running};

use scp_core::Timer;
use std::alloc::AllocError;

/// Whether two timers are the same.
fn is_same(timer: Timer, other: Timer) -> bool
    ensures { result ≡ same_timer timer other }
{
    match (timer, other) {
        (Timer::Round(slot, round), Timer::Round(of, number)) => slot.0 == of.0 && round == number,
        (Timer::Ballot(slot, counter), Timer::Ballot(of, number)) => slot.0 == of.0
            && counter == number,
        _ => false,
    }
}

/// Whether the timer is one of these.
fn is_in(timers: &[Timer], timer: Timer) -> bool
    ensures { result ≡ runs_in timers.now timer }
{
    for other in timers {
        if is_same(timer, *other) {
            return true;
        }
    }
    false
}

/// Adds a line of a word and a timer.
fn write_timer(text: &mut String, word: &str, timer: Timer) -> Result<(), AllocError>
    ensures { OnOk result (string_bytes text.new ≡ string_bytes text.old ++ timer_line word.now timer) }
{
    match timer {
        Timer::Round(slot, round) => {
            let number = slot.0;
            writeln!(text, "{word} round {number} {round}")
        }
        Timer::Ballot(slot, counter) => {
            let number = slot.0;
            writeln!(text, "{word} ballot {number} {counter}")
        }
    }
}

/// Adds a line for the timer, if it isn't one of these.
fn write_missing(
    text: &mut String,
    word: &str,
    timers: &[Timer],
    timer: Timer,
) -> Result<(), AllocError>
    ensures { OnOk result (string_bytes text.new ≡ string_bytes text.old ++ missing_line word.now timers.now timer) }
{
    if is_in(timers, timer) {
        return Ok(());
    }
    write_timer(text, word, timer)
}

/// Adds a line for each timer of the first list that isn't in the second one.
fn write_only(
    text: &mut String,
    word: &str,
    some: &[Timer],
    others: &[Timer],
) -> Result<(), AllocError>
    ensures { OnOk result (string_bytes text.new ≡ string_bytes text.old ++ flat_map (missing_line word.now others.now) some.now) }
{
    for timer in some {
        write_missing(text, word, others, *timer)?;
    }
    Ok(())
}

/// Adds a `stop ..` line for each timer that no longer runs, and then a `start ..` line for each that runs from now on. The time grows
/// with the product of the lengths of both lists. At most 32 timers run at once.
pub fn write_changes(text: &mut String, old: &[Timer], new: &[Timer]) -> Result<(), AllocError>
    ensures { OnOk result (string_bytes text.new ≡ string_bytes text.old ++ changes old.now new.now) }
{
    write_only(text, "stop", old, new)?;
    write_only(text, "start", new, old)
}

/// Adds a `start ..` line for each timer.
pub fn write_running(text: &mut String, timers: &[Timer]) -> Result<(), AllocError>
    ensures { OnOk result (string_bytes text.new ≡ string_bytes text.old ++ running timers.now) }
{
    for timer in timers {
        write_timer(text, "start", *timer)?;
    }
    Ok(())
}
