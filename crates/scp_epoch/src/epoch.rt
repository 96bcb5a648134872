//! The node of the next epoch.
ghost use Rattle.std.specs.Prelude.{◌≡◌, ◌⊎◌, ◌↔◌, ◌+◌, List, None, true, false, IfOk, IfSome, IfErr, IsErrOf};
ghost use Rattle.scp_again.specs.scp_apply.specs.Applied.{made_of};
ghost use Rattle.scp_again.specs.scp_apply.specs.Applier.{next_of};
ghost use Rattle.scp_again.specs.scp_core.specs.Config.{IsConfigOfMany};
ghost use Rattle.scp_again.specs.scp_core.specs.History.{Exchange};
ghost use Rattle.scp_epoch.specs.Epoch.{IsBeginning, IsUnwritten, BeginsBehind, TakesUp, Differs, FindsFull};
ghost use Rattle.scp_epoch.specs.Played.{carrying_in};
ghost use Rattle.scp_epoch.specs.inside.Playing.{IsBegun};

use crate::carrying::carry;
use crate::input::Input;
use crate::same::stands_like;
use scp_again::below::node::{Application, what_holds_of_a_past_holds_with_one_step_more};
use scp_again::below::types::Fault;
use scp_turn::{Config, Node, each_node_holds_its_ledger};
use std::alloc::Global;

/// The slot before the one that a node applies next. Refused by `TooLong` if no node can begin with that one.
pub fn before_next<A: Application + Drop + Copy>(node: &Node<A>) -> Result<u32, Fault>
    ensures exact { IfOk result (λ before. before + 1 ≡ next_of node.now.applier) }
    ensures refused { IfErr result (λ f. (f ≡ Fault.TooLong) × ¬ (IsBeginning (next_of node.now.applier))) }
{
    let applied = node.applied().len() as u64;
    let Some(next) = node.first().0.checked_add(applied) else {
        return Err(Fault::TooLong);
    };
    let Some(before) = next.checked_sub(1) else {
        return Err(Fault::TooLong);
    };
    match u32::try_from(before) {
        Ok(before) => Ok(before),
        Err(_) => Err(Fault::TooLong),
    }
}

/// A node that begins behind another one, with the slot after this one.
fn begin_behind<A: Application + Drop + Copy>(
    alloc: Global,
    old: &Node<A>,
    config: Config,
    application: A,
    before: u32,
) -> Result<Node<A>, Fault>
    requires runs { old.now.failed ≡ false }
    ensures began { IfOk result (λ node. IsBegun A.says A.begins A.written application config (before + 1) (made_of (A.begins old.now.applier.base) A.after old.now.applier.applied) node) }
    ensures bad_config { IsErrOf result Fault.BadConfig → ¬ (IsConfigOfMany config) }
    ensures too_long { IsErrOf result Fault.TooLong → IsUnwritten A.begins (made_of (A.begins old.now.applier.base) A.after old.now.applier.applied) }
    ensures only { IfErr result (λ f. (f ≡ Fault.NoMemory) ⊎ ((f ≡ Fault.BadConfig) ⊎ (f ≡ Fault.TooLong))) }
{
    let Some(state) = old.state() else {
        return Err(Fault::Failed);
    };
    let base = A::write(alloc, state)?;
    Node::begin(alloc, config, application, before, base)
}

/// A node that begins so, and is given what is carried.
fn begin_with<A: Application + Drop + Copy>(
    alloc: Global,
    old: &Node<A>,
    config: Config,
    application: A,
    before: u32,
    carried: Vec<Input>,
) -> Result<Node<A>, Fault>
    requires next { before + 1 ≡ next_of old.now.applier }
    requires runs { old.now.failed ≡ false }
    ensures begins { IfOk result (λ new. (heard : List Exchange) × BeginsBehind A.says A.begins A.after application config old.now (carrying_in config carried.items) heard new) }
    ensures base { IfOk result (λ new. new.applier.base ≡ A.written (made_of (A.begins old.now.applier.base) A.after old.now.applier.applied)) }
    ensures bad_config { IsErrOf result Fault.BadConfig → ¬ (IsConfigOfMany config) }
    ensures too_long { IsErrOf result Fault.TooLong → IsUnwritten A.begins (made_of (A.begins old.now.applier.base) A.after old.now.applier.applied) }
    ensures full { IsErrOf result Fault.JournalFull → FindsFull A.says A.begins A.after application config old.now }
    ensures only { IfErr result (λ f. (f ≡ Fault.NoMemory) ⊎ ((f ≡ Fault.JournalFull) ⊎ ((f ≡ Fault.BadConfig) ⊎ (f ≡ Fault.TooLong)))) }
{
    what_holds_of_a_past_holds_with_one_step_more::<A>();
    let mut node = begin_behind(alloc, old, config, application, before)?;
    carry(alloc, &mut node, carried)?;
    Ok(node)
}

/// The node of the next epoch: it takes up the old one. It has this configuration and this application, which are meant to be those of the old
/// one. It begins with the slot that the old one applies next, and with its state. Then its links are opened, it is given what is carried, in
/// order, and its links are closed; what it sends meanwhile is dropped. `None` if it would say anything else than the old one of an open slot, since
/// a statement that went out would be taken back, or if something still waits to go out of it. The old node isn't changed.
///
/// Refused by `Failed` exactly if the old node has failed. Refused by `BadConfig` only if the configuration is none of a node. Refused by
/// `TooLong` only if no node can begin with that slot, or no bytes say that state. Refused by `JournalFull` only if what is carried fills a
/// journal. Else refused by `NoMemory`.
pub fn next<A: Application + Drop + Copy>(
    alloc: Global,
    old: &Node<A>,
    config: Config,
    application: A,
    carried: Vec<Input>,
) -> Result<Option<Node<A>>, Fault>
    // It takes up the old one.
    ensures takes_up { IfOk result (λ found. IfSome found (λ new. (heard : List Exchange) × TakesUp A.says A.begins A.after application config old.now (carrying_in config carried.items) heard new)) }
    // It begins with exactly the bytes that are written of the old one's state.
    ensures base { IfOk result (λ found. IfSome found (λ new. new.applier.base ≡ A.written (made_of (A.begins old.now.applier.base) A.after old.now.applier.applied))) }
    // There is none only if it doesn't stand like the old one.
    ensures differs { IfOk result (λ found. found ≡ None → Differs A.says A.begins A.after application config old.now (carrying_in config carried.items)) }
    ensures failed { IsErrOf result Fault.Failed ↔ (old.now.failed ≡ true) }
    ensures bad_config { IsErrOf result Fault.BadConfig → ¬ (IsConfigOfMany config) }
    ensures too_long { IsErrOf result Fault.TooLong → (¬ (IsBeginning (next_of old.now.applier))) ⊎ IsUnwritten A.begins (made_of (A.begins old.now.applier.base) A.after old.now.applier.applied) }
    ensures full { IsErrOf result Fault.JournalFull → FindsFull A.says A.begins A.after application config old.now }
    ensures only { IfErr result (λ f. (f ≡ Fault.NoMemory) ⊎ ((f ≡ Fault.Failed) ⊎ ((f ≡ Fault.JournalFull) ⊎ ((f ≡ Fault.BadConfig) ⊎ (f ≡ Fault.TooLong))))) }
{
    each_node_holds_its_ledger::<A>();
    if old.has_failed() {
        return Err(Fault::Failed);
    }
    let before = before_next(old)?;
    let new = begin_with(alloc, old, config, application, before, carried)?;
    if !stands_like(old, &new, before) {
        return Ok(None);
    }
    Ok(Some(new))
}
