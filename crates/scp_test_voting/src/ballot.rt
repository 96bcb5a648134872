use crate::short::{Said, envelope, set};
use scp_ballot::Balloter;
use scp_nominate::below::types::{NodeId, Slot};
use std::process::Abort;
use std::test::*;

#[test]
fn an_own_statement_is_not_taken(rt: HostRuntime) -> Result<(), Fail> {
    let alloc = rt.alloc();
    let mut balloter = Balloter::new(alloc, NodeId([1; 32]), Slot(7), set(alloc, (1, &[1]))?);
    let own = envelope(alloc, 1, Said::Externalize((1, 7), 1))?;
    let given = balloter.take(own, set(alloc, (1, &[1]))?)?;
    assert!(rt; given.statement.is_none() && given.decided.is_none() && !given.more);
    Ok(())
}
