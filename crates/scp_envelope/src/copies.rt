//! Copies of statements and their parts.
ghost use Rattle.std.specs.Prelude.{◌≡◌, IfOk, IsOkUnless};

use crate::statement::{Confirm, Envelope, Externalize, Nominate, Pledges, Prepare, Statement};
use scp_xdr::below::types::{Ballot, Fault};

fn copy_optional(ballot: &Option<Ballot>) -> Result<Option<Ballot>, Fault>
    ensures same { IfOk result (λ copied. copied ≡ ballot.now) }
    ensures only_memory { IsOkUnless result Fault.NoMemory }
{
    match ballot {
        Some(ballot) => Ok(Some(ballot.copy()?)),
        None => Ok(None),
    }
}

fn copy_prepare(prepare: &Prepare) -> Result<Prepare, Fault>
    ensures same { IfOk result (λ copied. copied ≡ prepare.now) }
    ensures only_memory { IsOkUnless result Fault.NoMemory }
{
    Ok(Prepare {
        set_hash: prepare.set_hash,
        ballot: prepare.ballot.copy()?,
        prepared: copy_optional(&prepare.prepared)?,
        prepared_prime: copy_optional(&prepare.prepared_prime)?,
        n_commit: prepare.n_commit,
        n_high: prepare.n_high,
    })
}

fn copy_confirm(confirm: &Confirm) -> Result<Confirm, Fault>
    ensures same { IfOk result (λ copied. copied ≡ confirm.now) }
    ensures only_memory { IsOkUnless result Fault.NoMemory }
{
    Ok(Confirm {
        ballot: confirm.ballot.copy()?,
        n_prepared: confirm.n_prepared,
        n_commit: confirm.n_commit,
        n_high: confirm.n_high,
        set_hash: confirm.set_hash,
    })
}

fn copy_externalize(externalize: &Externalize) -> Result<Externalize, Fault>
    ensures same { IfOk result (λ copied. copied ≡ externalize.now) }
    ensures only_memory { IsOkUnless result Fault.NoMemory }
{
    Ok(Externalize {
        commit: externalize.commit.copy()?,
        n_high: externalize.n_high,
        set_hash: externalize.set_hash,
    })
}

fn copy_nominate(nominate: &Nominate) -> Result<Nominate, Fault>
    ensures same { IfOk result (λ copied. copied ≡ nominate.now) }
    ensures only_memory { IsOkUnless result Fault.NoMemory }
{
    Ok(Nominate {
        set_hash: nominate.set_hash,
        votes: nominate.votes.copy()?,
        accepted: nominate.accepted.copy()?,
    })
}

fn copy_pledges(pledges: &Pledges) -> Result<Pledges, Fault>
    ensures same { IfOk result (λ copied. copied ≡ pledges.now) }
    ensures only_memory { IsOkUnless result Fault.NoMemory }
{
    match pledges {
        Pledges::Prepare(prepare) => Ok(Pledges::Prepare(copy_prepare(prepare)?)),
        Pledges::Confirm(confirm) => Ok(Pledges::Confirm(copy_confirm(confirm)?)),
        Pledges::Externalize(externalize) => {
            Ok(Pledges::Externalize(copy_externalize(externalize)?))
        }
        Pledges::Nominate(nominate) => Ok(Pledges::Nominate(copy_nominate(nominate)?)),
    }
}

impl Statement {
    /// An equal statement. Ballots share their values; a nomination's values are copied once. The only refusal is `Fault::NoMemory`.
    pub fn copy(&self) -> Result<Statement, Fault>
        ensures same { IfOk result (λ copied. copied ≡ self.now) }
        ensures only_memory { IsOkUnless result Fault.NoMemory }
    {
        Ok(Statement {
            node: self.node,
            slot: self.slot,
            pledges: copy_pledges(&self.pledges)?,
        })
    }
}

impl Envelope {
    /// An equal envelope. Ballots share their values; a nomination's values are copied once. The only refusal is `Fault::NoMemory`.
    pub fn copy(&self) -> Result<Envelope, Fault>
        ensures same { IfOk result (λ copied. copied ≡ self.now) }
        ensures only_memory { IsOkUnless result Fault.NoMemory }
    {
        Ok(Envelope {
            statement: self.statement.copy()?,
            signature: self.signature.copy()?,
        })
    }
}
