//! The answers to the lines of a host.
ghost use Rattle.std.specs.Prelude.{◌≡◌, ◌⊎◌, ◌↔◌, true, IfOk, IfErr, OnOk, IsErrOf};
ghost use Rattle.scp_batches.specs.scp_live_log.specs.Log.{IsLine};
ghost use Rattle.scp_stand_node.specs.scp_turn.specs.Kv.{Goes, Watched};
ghost use Rattle.scp_stand_node.specs.scp_turn.specs.Watch.{notes};
ghost use Rattle.scp_stand_node.specs.scp_turn.specs.Episode.{finds_full};
ghost use Rattle.scp_live.specs.scp_live_lines.specs.Says.{Says};
ghost use Rattle.scp_live_process.specs.Answers.{IsDone, IsAnswered, AreAnswered, next_number};
ghost use Rattle.scp_live_process.specs.Adding.{Adds};
ghost use Rattle.scp_live_process.specs.inside.Batches.{number_behind};
ghost use Rattle.scp_live.specs.Living.{IsLive};

use crate::batch::Batch;
use scp_batches::Line;
use scp_live::Live;
use scp_live::below::live_lines::{Asked, WordFault, read_line};
use scp_stand_node::below::turn::{KvDriver, Watch};
use scp_stand_node::below::types::Fault;

/// What was expected in place of a line that is too long.
const SHORTER: &str = "a line of at most 262144 bytes";

/// Does what a line asks for; the watch is shown each step.
fn done<V: Watch<KvDriver>>(
    batch: &mut Batch,
    live: &mut Live,
    asked: Asked,
    line: Vec<u8>,
    watch: &mut V,
) -> Result<(), Fault>
    requires live { IsLive live.old.node }
    requires says { Says live.old.names line.items asked }
    requires line { IsLine line.items }
    ensures done { Goes live.old.node live.new.node (λ _ heard _. Watched (notes V.notes_before V.notes_after) 1 watch.old live.old.node heard live.new.node watch.new × (OnOk result (Adds (IsDone asked line.items) live.old heard live.new batch.old batch.new) × (IsErrOf result Fault.JournalFull ↔ (finds_full heard ≡ true)))) }
    ensures live { OnOk result (IsLive live.new.node) }
    ensures only { IfErr result (λ f. (f ≡ Fault.NoMemory) ⊎ ((f ≡ Fault.JournalFull) ⊎ (f ≡ Fault.TooLong))) }
{
    match asked {
        Asked::Event(event) => batch.take(live, event, line, watch),
        question => batch.reply(live, &question),
    }
}

/// Adds the answer to the line with this number; the watch is shown each step.
pub fn answer<V: Watch<KvDriver>>(
    batch: &mut Batch,
    live: &mut Live,
    number: u64,
    line: Line,
    watch: &mut V,
) -> Result<(), Fault>
    requires live { IsLive live.old.node }
    ensures answered { Goes live.old.node live.new.node (λ _ heard _. Watched (notes V.notes_before V.notes_after) 1 watch.old live.old.node heard live.new.node watch.new × (OnOk result (Adds (IsAnswered number line) live.old heard live.new batch.old batch.new) × (IsErrOf result Fault.JournalFull ↔ (finds_full heard ≡ true)))) }
    ensures live { OnOk result (IsLive live.new.node) }
    ensures only { IfErr result (λ f. (f ≡ Fault.NoMemory) ⊎ ((f ≡ Fault.JournalFull) ⊎ (f ≡ Fault.TooLong))) }
{
    if line.is_too_long() {
        return batch.bad(number, 1, SHORTER);
    }
    match read_line(batch.alloc(), live.names(), line.bytes()) {
        Ok(asked) => {
            done(batch, live, asked, line.into_bytes(), watch)?;
            batch.ok(number)
        }
        Err(WordFault::Bad(refusal)) => batch.bad(number, refusal.word, refusal.expected.words()),
        Err(WordFault::NoMemory) => Err(Fault::NoMemory),
    }
}

/// The number of the next line. The numbers end at 2^64 - 1: all later lines have that number, too.
fn next(number: u64) -> u64
    ensures { result ≡ next_number number }
{
    number.saturating_add(1)
}

/// Adds the answers to these lines, the first of which has this number. Returns the number of the next line. The watch is shown each
/// step.
pub fn answer_all<V: Watch<KvDriver>>(
    batch: &mut Batch,
    live: &mut Live,
    number: u64,
    lines: Vec<Line>,
    watch: &mut V,
) -> Result<u64, Fault>
    requires live { IsLive live.old.node }
    ensures answered { Goes live.old.node live.new.node (λ _ heard _. Watched (notes V.notes_before V.notes_after) 1 watch.old live.old.node heard live.new.node watch.new × (OnOk result (Adds (AreAnswered number lines.items) live.old heard live.new batch.old batch.new) × (IsErrOf result Fault.JournalFull ↔ (finds_full heard ≡ true)))) }
    ensures next { IfOk result (λ next. next ≡ number_behind number lines.items) }
    ensures live { OnOk result (IsLive live.new.node) }
    ensures only { IfErr result (λ f. (f ≡ Fault.NoMemory) ⊎ ((f ≡ Fault.JournalFull) ⊎ (f ≡ Fault.TooLong))) }
{
    let mut number = number;
    for line in lines {
        match answer(batch, live, number, line, watch) {
            Ok(()) => number = next(number),
            Err(fault) => return Err(fault),
        }
    }
    Ok(number)
}
