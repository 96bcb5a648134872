//! For whom a ledger is certified.
ghost use Rattle.std.specs.Prelude.{◌≡◌, ◌≢◌, ◌↔◌, map, cond, Some, OnOk, IfOk, IfSome, IfNone, IsOkUnless, IsTrue};
ghost use Rattle.std.specs.Option.{option_map};
ghost use Rattle.std.specs.BTreeSet.{keys};
ghost use Rattle.scp_ledger.specs.scp_vote.specs.Seen.{seen};
ghost use Rattle.scp_ledger.specs.scp_vote.specs.declared.claim.StatementKind.TheVariants.{Balloting};
ghost use Rattle.scp_judged.specs.Verdicts.{heard_of, heard_by};
ghost use Rattle.std.specs.List.{AllByRecursion};
ghost use Rattle.scp_ledger.specs.Journal.{is_its};
ghost use Rattle.scp_judged.specs.Certified.{IsUncertified, IsCertifiedFor, IsAgainst, IsSaneHeard, value_of};
ghost use Rattle.scp_judged.specs.inside.Externalized.{IsNoExternalize};
ghost use Rattle.scp_judged.specs.inside.Boards.{IsBoardOf, PutsSaid};

use crate::verdict::Said;
use scp_ledger::below::envelope::{Externalize, Pledges, Statement};
use scp_ledger::below::quorum::SaneSet;
use scp_ledger::below::types::{Fault, NodeId, SharedValue, Value};
use scp_ledger::below::vote::{Board, Claim, StatementKind, kind_of_pledges};
use std::alloc::Global;
use std::collections::BTreeSet;
use std::sync::Arc;

/// What certifies a node's EXTERNALIZE.
#[derive(Drop)]
pub struct Certificate {
    /// The value.
    pub value: SharedValue,
    /// The EXTERNALIZE's nH.
    pub n: u32,
    /// The greatest quorum at the node of those that accept the commit.
    pub nodes: BTreeSet<NodeId>,
}

/// Whether it is a ballot statement of the node.
fn is_ballot_of(said: &Said, node: NodeId) -> bool
    ensures { result ≡ is_its Balloting node (heard_of said.now) }
{
    let statement = &said.envelope.get().statement;
    match kind_of_pledges(&statement.pledges) {
        StatementKind::Nomination => false,
        StatementKind::Balloting => statement.node.cmp(&node).is_eq(),
    }
}

/// The later one, if it is a ballot statement of the node.
fn later<'s>(last: Option<&'s Said>, said: &'s Said, node: NodeId) -> Option<&'s Said>
    ensures { option_map (λ one. heard_of one.now) result ≡ cond (is_its Balloting node (heard_of said.now)) (Some (heard_of said.now)) (option_map (λ one. heard_of one.now) last.entry) }
{
    if is_ballot_of(said, node) {
        return Some(said);
    }
    last
}

/// The last ballot statement of the node, of those that count. Goes over all of them.
pub fn last_ballot(counting: &[Said], node: NodeId) -> Option<&Said>
    ensures { option_map (λ said. heard_of said.now) result ≡ heard_by (map heard_of counting.now) node }
{
    let mut last = None;
    for said in counting {
        last = later(last, said, node);
    }
    last
}

/// Puts what counts on a board.
fn put(board: &mut Board, said: &Said) -> Result<(), Fault>
    ensures puts { OnOk result (PutsSaid (λ kind. seen kind board.old) (λ kind. seen kind board.new) (heard_of said.now)) }
    ensures only_memory { IsOkUnless result Fault.NoMemory }
{
    let envelope = said.envelope.share()?;
    let set = Arc::try_clone(&said.set)?;
    board.put(envelope, set)
}

/// A board of the node with all that counts.
fn board_of(
    alloc: Global,
    node: NodeId,
    local: Arc<SaneSet>,
    counting: &[Said],
) -> Result<Board, Fault>
    ensures board { IfOk result (λ board. IsBoardOf node local.value (map heard_of counting.now) (seen Balloting board)) }
    ensures only_memory { IsOkUnless result Fault.NoMemory }
{
    let mut board = Board::new(alloc, node, local);
    for said in counting {
        put(&mut board, said)?;
    }
    Ok(board)
}

/// The EXTERNALIZE that a statement is.
fn externalize_of(statement: &Statement) -> Option<&Externalize>
    ensures found { IfSome result (λ e. statement.now.pledges ≡ Pledges.Externalize e.now) }
    ensures none { IfNone result (IsNoExternalize statement.now.pledges) }
{
    match &statement.pledges {
        Pledges::Externalize(externalize) => Some(externalize),
        _ => None,
    }
}

/// What certifies the ledger for the node, by the messages that count: a quorum at the node by its own set, of which each other member's last
/// ballot statement accepts the commit that the node's EXTERNALIZE says. `None` exactly where there is no such quorum, or the node's last
/// ballot statement is no EXTERNALIZE. The only refusal is `Fault::NoMemory`. Costs a board of all that counts.
pub fn certified(
    alloc: Global,
    counting: &[Said],
    node: NodeId,
) -> Result<Option<Certificate>, Fault>
    requires sane { AllByRecursion IsSaneHeard (map heard_of counting.now) }
    ensures found { IfOk result (λ found. IfSome found (λ c. IsCertifiedFor (heard_by (map heard_of counting.now)) node c.value c.n (keys c.nodes))) }
    ensures none { IfOk result (λ found. IfNone found (IsUncertified (heard_by (map heard_of counting.now)) node)) }
    ensures only_memory { IsOkUnless result Fault.NoMemory }
{
    match last_ballot(counting, node) {
        Some(said) => certified_last(alloc, counting, node, said),
        None => Ok(None),
    }
}

/// What certifies the node's last ballot statement, if that is an EXTERNALIZE.
fn certified_last(
    alloc: Global,
    counting: &[Said],
    node: NodeId,
    said: &Said,
) -> Result<Option<Certificate>, Fault>
    requires sane { AllByRecursion IsSaneHeard (map heard_of counting.now) }
    requires last { heard_by (map heard_of counting.now) node ≡ Some (heard_of said.now) }
    ensures found { IfOk result (λ found. IfSome found (λ c. IsCertifiedFor (heard_by (map heard_of counting.now)) node c.value c.n (keys c.nodes))) }
    ensures none { IfOk result (λ found. IfNone found (IsUncertified (heard_by (map heard_of counting.now)) node)) }
    ensures only_memory { IsOkUnless result Fault.NoMemory }
{
    let envelope = said.envelope.get();
    match externalize_of(&envelope.statement) {
        Some(externalize) => certificate_of(alloc, counting, node, said, externalize),
        None => Ok(None),
    }
}

/// That the EXTERNALIZE's value is committed at its nH.
fn commit_of(externalize: &Externalize) -> Result<Claim, Fault>
    ensures commit { IfOk result (λ claim. claim ≡ Claim.Committed externalize.now.n_high externalize.now.n_high externalize.now.commit.value) }
    ensures only_memory { IsOkUnless result Fault.NoMemory }
{
    let n = externalize.n_high;
    let value = externalize.commit.value.share()?;
    Ok(Claim::Committed(n, n, value))
}

/// The certificate of the EXTERNALIZE by these nodes.
fn certificate_by(externalize: &Externalize, nodes: BTreeSet<NodeId>) -> Result<Certificate, Fault>
    ensures value { IfOk result (λ c. c.value ≡ externalize.now.commit.value) }
    ensures n { IfOk result (λ c. c.n ≡ externalize.now.n_high) }
    ensures nodes { IfOk result (λ c. c.nodes ≡ nodes) }
    ensures only_memory { IsOkUnless result Fault.NoMemory }
{
    let n = externalize.n_high;
    let value = externalize.commit.value.share()?;
    Ok(Certificate { value, n, nodes })
}

/// What certifies this EXTERNALIZE of the node.
fn certificate_of(
    alloc: Global,
    counting: &[Said],
    node: NodeId,
    said: &Said,
    externalize: &Externalize,
) -> Result<Option<Certificate>, Fault>
    requires sane { AllByRecursion IsSaneHeard (map heard_of counting.now) }
    requires last { heard_by (map heard_of counting.now) node ≡ Some (heard_of said.now) }
    requires said { said.now.envelope.statement.pledges ≡ Pledges.Externalize externalize.now }
    ensures found { IfOk result (λ found. IfSome found (λ c. IsCertifiedFor (heard_by (map heard_of counting.now)) node c.value c.n (keys c.nodes))) }
    ensures none { IfOk result (λ found. IfNone found (IsUncertified (heard_by (map heard_of counting.now)) node)) }
    ensures only_memory { IsOkUnless result Fault.NoMemory }
{
    let local = Arc::try_clone(&said.set)?;
    let board = board_of(alloc, node, local, counting)?;
    let claim = commit_of(externalize)?;
    let Some(nodes) = board.certificate(&claim)? else {
        return Ok(None);
    };
    let certificate = certificate_by(externalize, nodes)?;
    Ok(Some(certificate))
}

/// Whether the node's last ballot statement, of those that count, has another value.
pub fn is_against(counting: &[Said], value: &Value, node: NodeId) -> bool
    ensures { IsTrue result ↔ IsAgainst (heard_by (map heard_of counting.now)) value.now node }
{
    match last_ballot(counting, node) {
        Some(said) => has_other_value(&said.envelope.get().statement.pledges, value),
        None => false,
    }
}

/// Whether the pledges have no such value.
fn has_other_value(pledges: &Pledges, value: &Value) -> bool
    ensures { IsTrue result ↔ (value_of pledges.now ≢ Some value.now) }
{
    match pledges {
        Pledges::Prepare(prepare) => prepare.ballot.value.get() != value,
        Pledges::Confirm(confirm) => confirm.ballot.value.get() != value,
        Pledges::Externalize(externalize) => externalize.commit.value.get() != value,
        Pledges::Nominate(_) => true,
    }
}
