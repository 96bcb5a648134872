//! The connections that wait for a hash.
ghost use Rattle.std.specs.Prelude.{◌≡◌, ◌∷◌, [], filter, not, IfOk, OnOk, OnErr, IsOkUnless};
ghost use Rattle.std.specs.List.{list_any};
ghost use Rattle.scp_fetch.specs.Hashes.{same_conn};
ghost use Rattle.scp_fetch.specs.Wants.{has_conn, joined};

use scp_quorum::below::types::{ConnId, Fault};
use std::alloc::Global;
use std::marker::Model;

/// Connections, each once, in the order in which they came. Contracts see the list.
#[derive(Drop)]
pub struct Waiters(Vec<ConnId>);

impl Model for Waiters {
    ghost use Rattle.std.specs.Prelude.{List};
    ghost use Rattle.scp_quorum.specs.scp_types.specs.declared.names.ConnId.{ConnId};

    ghost Value = { List ConnId };

    ghost view = { λ w. w.0.items };
}

impl Waiters {
    /// Only this connection. The only refusal is `Fault::NoMemory`.
    pub fn of(alloc: Global, conn: ConnId) -> Result<Waiters, Fault>
        ensures alone { IfOk result (λ waiters. waiters ≡ conn ∷ []) }
        ensures only_memory { IsOkUnless result Fault.NoMemory }
    {
        let mut waiters = Vec::new(alloc);
        waiters.push(conn)?;
        Ok(Waiters(waiters))
    }

    /// The connections as a slice.
    pub fn as_slice(&self) -> &[ConnId]
        ensures { result.now ≡ self.now }
    {
        self.0.as_slice()
    }

    fn has(&self, conn: &ConnId) -> bool
        ensures { result ≡ has_conn conn.now self.now }
    {
        self.0.iter().any(|other| *conn == *other)
    }

    /// Adds the connection, if it isn't there. The only refusal is `Fault::NoMemory`, and it leaves all as it was.
    pub fn join(&mut self, conn: &ConnId) -> Result<(), Fault>
        ensures joined { OnOk result (self.new ≡ joined conn.now self.old) }
        ensures unchanged { OnErr result (self.new ≡ self.old) }
        ensures only_memory { IsOkUnless result Fault.NoMemory }
    {
        if self.has(conn) {
            return Ok(());
        }
        self.0.push(*conn)?;
        Ok(())
    }

    /// Whether another connection is there.
    pub fn has_other(&self, conn: &ConnId) -> bool
        ensures { result ≡ list_any (λ other. not (same_conn conn.now other)) self.now }
    {
        self.0.iter().any(|other| *conn != *other)
    }

    /// Removes the connection, if it is there.
    pub fn leave(&mut self, conn: &ConnId)
        ensures { self.new ≡ filter (λ other. not (same_conn conn.now other)) self.old }
    {
        self.0.retain(
            |other: &ConnId| -> bool
                ensures { result ≡ not (same_conn conn.entry.now other.now) }
            { *conn != *other },
        );
    }
}
