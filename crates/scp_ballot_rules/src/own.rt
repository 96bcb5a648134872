//! The own statement of a state.
ghost use Rattle.std.specs.Prelude.{◌≡◌, IfOk, IsOkUnless};
ghost use Rattle.scp_ballot_rules.specs.Own.{counter_of, or_zero, prepare_of, confirm_of, externalize_of, own_of};
ghost use Rattle.scp_ballot_rules.specs.Owed.{counter_in};

use crate::state::{Phase, State};
use scp_vote::below::envelope::{Confirm, Externalize, Pledges, Prepare};
use scp_vote::below::types::{Ballot, Fault, Hash, SharedValue, Value};
use std::alloc::Global;

/// The ballot's counter; 0 if there is no ballot.
pub fn counter(ballot: &Option<Ballot>) -> u32
    ensures { result ≡ counter_of ballot.now }
{
    match ballot {
        Some(ballot) => ballot.counter,
        None => 0,
    }
}

/// The counter of a ballot statement: that of its ballot, and of an EXTERNALIZE its nH (this project's profile). Of a NOMINATE it is 0.
pub fn counter_of_pledges(pledges: &Pledges) -> u32
    ensures { result ≡ counter_in pledges.now }
{
    match pledges {
        Pledges::Prepare(prepare) => prepare.ballot.counter,
        Pledges::Confirm(confirm) => confirm.ballot.counter,
        Pledges::Externalize(externalize) => externalize.n_high,
        Pledges::Nominate(_) => 0,
    }
}

/// A copy of the ballot, if there is one, which shares its value. The only refusal is `Fault::NoMemory`.
pub fn copy_some(ballot: &Option<Ballot>) -> Result<Option<Ballot>, Fault>
    ensures same { IfOk result (λ copied. copied ≡ ballot.now) }
    ensures only_memory { IsOkUnless result Fault.NoMemory }
{
    match ballot {
        Some(ballot) => Ok(Some(ballot.copy()?)),
        None => Ok(None),
    }
}

/// Another holder of the value, if there is one.
pub(crate) fn share_value(value: &Option<SharedValue>) -> Result<Option<SharedValue>, Fault>
    ensures same { IfOk result (λ copied. copied ≡ value.now) }
    ensures only_memory { IsOkUnless result Fault.NoMemory }
{
    match value {
        Some(value) => Ok(Some(value.share()?)),
        None => Ok(None),
    }
}

/// A copy of the ballot; if there is none, one with counter 0 and no bytes.
fn copy_or_zero(alloc: Global, ballot: &Option<Ballot>) -> Result<Ballot, Fault>
    ensures same { IfOk result (λ copied. copied ≡ or_zero ballot.now) }
    ensures only_memory { IsOkUnless result Fault.NoMemory }
{
    match ballot {
        Some(ballot) => ballot.copy(),
        None => Ok(Ballot {
            counter: 0,
            value: SharedValue::new(alloc, Value::new(Vec::new(alloc)))?,
        }),
    }
}

fn prepare(alloc: Global, hash: Hash, state: &State) -> Result<Prepare, Fault>
    ensures same { IfOk result (λ p. p ≡ prepare_of hash state.now) }
    ensures only_memory { IsOkUnless result Fault.NoMemory }
{
    Ok(Prepare {
        set_hash: hash,
        ballot: copy_or_zero(alloc, &state.present)?,
        prepared: copy_some(&state.prepared)?,
        prepared_prime: copy_some(&state.prime)?,
        n_commit: counter(&state.low),
        n_high: counter(&state.high),
    })
}

fn confirm(alloc: Global, hash: Hash, state: &State) -> Result<Confirm, Fault>
    ensures same { IfOk result (λ p. p ≡ confirm_of hash state.now) }
    ensures only_memory { IsOkUnless result Fault.NoMemory }
{
    Ok(Confirm {
        ballot: copy_or_zero(alloc, &state.present)?,
        n_prepared: counter(&state.prepared),
        n_commit: counter(&state.low),
        n_high: counter(&state.high),
        set_hash: hash,
    })
}

fn externalize(alloc: Global, hash: Hash, state: &State) -> Result<Externalize, Fault>
    ensures same { IfOk result (λ p. p ≡ externalize_of hash state.now) }
    ensures only_memory { IsOkUnless result Fault.NoMemory }
{
    Ok(Externalize {
        commit: copy_or_zero(alloc, &state.low)?,
        n_high: counter(&state.high),
        set_hash: hash,
    })
}

/// What a node with this state says, with the hash of its set (the SCP draft). The only refusal is `Fault::NoMemory`.
pub fn pledges_of(alloc: Global, hash: Hash, state: &State) -> Result<Pledges, Fault>
    ensures same { IfOk result (λ p. p ≡ own_of hash state.now) }
    ensures only_memory { IsOkUnless result Fault.NoMemory }
{
    match state.phase {
        Phase::Prepare => Ok(Pledges::Prepare(prepare(alloc, hash, state)?)),
        Phase::Confirm => Ok(Pledges::Confirm(confirm(alloc, hash, state)?)),
        Phase::Externalize => Ok(Pledges::Externalize(externalize(alloc, hash, state)?)),
    }
}
