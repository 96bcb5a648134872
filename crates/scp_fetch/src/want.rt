//! A wanted hash, and the table of the wanted hashes.
ghost use Rattle.std.specs.Prelude.{◌≡◌, ◌<◌, ◌++◌, ◌∷◌, [], ℕ, Bool, true, false, map, filter, not, nat_lt, slice_index_or, slice_set, IfOk, OnOk, OnErr, IsOkUnless, IfSome, IfNone, is_some};
ghost use Rattle.scp_quorum.specs.scp_types.specs.declared.names.ConnId.{ConnId};
ghost use Rattle.std.specs.List.{AllByRecursion};
ghost use Rattle.scp_fetch.specs.Wants.{joined, is_wanted, is_asked, unasked, without, waiting_for, waits_besides, leave, left_by, gives_up, ask, unask, new_want, missed_by, count_miss, is_last, is_missed, last_missed};
ghost use Rattle.scp_fetch.specs.inside.Table.{wants_in, IsUnderHash};

use crate::fetcher::MISS_LIMIT;
use crate::waiters::Waiters;
use indexmap::IndexMap;
use scp_quorum::below::types::{ConnId, Fault, Hash, LINK_LIMIT};
use std::alloc::{AllocError, Global};

/// A wanted hash: its misses since it became so; for each link, whether it was asked since both the hash became wanted and
/// the link last opened; and the connections that wait for it.
#[derive(Drop)]
pub struct Want {
    /// The hash of a quorum set.
    pub hash: Hash,
    /// How often a node had no such set, or time went on.
    pub misses: u8,
    /// Whether each link was asked, by the link's number.
    pub asked: [bool; LINK_LIMIT as usize],
    /// The connections that wait, in the order of their first wait.
    pub waiting: Waiters,
}

/// A miss of one hash, or one miss of each that is wanted.
#[derive(Clone, Copy)]
pub enum Miss {
    One(Hash),
    All,
}

impl Miss {
    fn hits(&self, hash: Hash) -> bool
        ensures { result ≡ is_missed self.now hash }
    {
        match self {
            Miss::One(missed) => *missed == hash,
            Miss::All => true,
        }
    }

    fn ends(&self, want: &Want) -> bool
        ensures { result ≡ is_last self.now want.now }
    {
        self.hits(want.hash) && want.misses > MISS_LIMIT - 2
    }
}

pub fn has_want(wants: &IndexMap<[u8; 32], Want>, hash: &Hash) -> bool
    requires under { AllByRecursion IsUnderHash wants.now.entries }
    ensures { result ≡ is_wanted hash.now (wants_in wants.now.entries) }
{
    let _distinct = wants.len();
    wants.contains_key(&hash.0)
}

pub fn has_last(wants: &IndexMap<[u8; 32], Want>, miss: Miss, hash: &Hash) -> bool
    requires under { AllByRecursion IsUnderHash wants.now.entries }
    ensures { result ≡ gives_up miss (wants_in wants.now.entries) hash.now }
{
    let _distinct = wants.len();
    match wants.get(&hash.0) {
        Some(want) => miss.ends(want),
        None => false,
    }
}

pub fn has_asked(wants: &IndexMap<[u8; 32], Want>, hash: &Hash, link: usize) -> bool
    requires link { link < LINK_LIMIT }
    requires under { AllByRecursion IsUnderHash wants.now.entries }
    ensures { result ≡ is_asked hash.now link (wants_in wants.now.entries) }
{
    let _distinct = wants.len();
    match wants.get(&hash.0) {
        Some(want) => want.asked[link],
        None => false,
    }
}

/// The wants, in their order.
pub fn all_wants<'w>(wants: &'w IndexMap<[u8; 32], Want>) -> Result<Vec<&'w Want>, AllocError>
    ensures { IfOk result (λ found. map (λ want. want.now) found.items ≡ wants_in wants.now.entries) }
{
    wants.values().collect(*wants.allocator())
}

/// The hashes for which one more miss of each is the last.
pub fn last_hashes(wants: &IndexMap<[u8; 32], Want>) -> Result<Vec<Hash>, Fault>
    ensures hashes { IfOk result (λ hashes. hashes.items ≡ last_missed (wants_in wants.now.entries)) }
    ensures only_memory { IsOkUnless result Fault.NoMemory }
{
    let alloc = *wants.allocator();
    Ok(
        wants
            .values()
            .filter(|want| Miss::All.ends(want))
            .map(|want| want.hash)
            .collect(alloc)?,
    )
}

/// The connections that wait for the hash.
pub fn waiters<'w>(wants: &'w IndexMap<[u8; 32], Want>, hash: &Hash) -> &'w [ConnId]
    requires under { AllByRecursion IsUnderHash wants.now.entries }
    ensures { result.now ≡ waiting_for hash.now (wants_in wants.now.entries) }
{
    let _distinct = wants.len();
    match wants.get(&hash.0) {
        Some(want) => want.waiting.as_slice(),
        None => &[],
    }
}

fn first_want(alloc: Global, hash: Hash, link: usize, conn: ConnId) -> Result<Want, Fault>
    requires { link < LINK_LIMIT }
    ensures made { IfOk result (λ want. want ≡ new_want hash link conn) }
    ensures only_memory { IsOkUnless result Fault.NoMemory }
{
    let mut asked = [false; LINK_LIMIT as usize];
    asked[link] = true;
    Ok(Want {
        hash,
        misses: 0,
        asked,
        waiting: Waiters::of(alloc, conn)?,
    })
}

/// The hash becomes wanted, the link counts as asked, and the connection waits.
pub fn add_want(
    wants: &mut IndexMap<[u8; 32], Want>,
    hash: &Hash,
    link: usize,
    conn: &ConnId,
) -> Result<(), Fault>
    requires link { link < LINK_LIMIT }
    requires under { AllByRecursion IsUnderHash wants.old.entries }
    requires new { is_wanted hash.now (wants_in wants.old.entries) ≡ false }
    ensures added { OnOk result (wants_in wants.new.entries ≡ wants_in wants.old.entries ++ new_want hash.now link conn.now ∷ []) }
    ensures under { AllByRecursion IsUnderHash wants.new.entries }
    ensures unchanged { OnErr result (wants.new.entries ≡ wants.old.entries) }
    ensures only_memory { IsOkUnless result Fault.NoMemory }
{
    let _distinct = wants.len();
    let want = first_want(*wants.allocator(), *hash, link, *conn)?;
    wants.insert(hash.0, want)?;
    Ok(())
}

/// The link counts as asked, and the connection waits. Returns whether the link wasn't asked before.
fn note(want: &mut Want, link: usize, conn: &ConnId) -> Result<bool, Fault>
    requires link { link < LINK_LIMIT }
    ensures asks { IfOk result (λ asks. asks ≡ not (slice_index_or want.old.asked link false)) }
    ensures noted { OnOk result (want.new ≡ record want.old { asked = slice_set want.old.asked link true; waiting = joined conn.now want.old.waiting }) }
    ensures unchanged { OnErr result (want.new ≡ want.old) }
    ensures only_memory { IsOkUnless result Fault.NoMemory }
{
    want.waiting.join(conn)?;
    let asks = !want.asked[link];
    want.asked[link] = true;
    Ok(asks)
}

/// If the hash is wanted, the link counts as asked and the connection waits. Then returns whether the link wasn't asked before.
/// One look-up does all of it, since each message that waits needs it.
pub fn note_asked(
    wants: &mut IndexMap<[u8; 32], Want>,
    hash: &Hash,
    link: usize,
    conn: &ConnId,
) -> Result<Option<bool>, Fault>
    requires link { link < LINK_LIMIT }
    requires under { AllByRecursion IsUnderHash wants.old.entries }
    ensures wanted { IfOk result (λ noted. is_some noted ≡ is_wanted hash.now (wants_in wants.old.entries)) }
    ensures asks { IfOk result (λ noted. IfSome noted (λ asks. asks ≡ not (is_asked hash.now link (wants_in wants.old.entries)))) }
    ensures asked { IfOk result (λ noted. IfSome noted (λ _. wants_in wants.new.entries ≡ map (ask hash.now link conn.now) (wants_in wants.old.entries))) }
    ensures unasked { IfOk result (λ noted. IfNone noted (is_asked hash.now link (wants_in wants.old.entries) ≡ false)) }
    ensures unchanged_none { IfOk result (λ noted. IfNone noted (wants_in wants.new.entries ≡ wants_in wants.old.entries)) }
    ensures unchanged { OnErr result (wants_in wants.new.entries ≡ wants_in wants.old.entries) }
    ensures under { AllByRecursion IsUnderHash wants.new.entries }
    ensures only_memory { IsOkUnless result Fault.NoMemory }
{
    let _distinct = wants.len();
    match wants.get_mut(&hash.0) {
        Some(want) => Ok(Some(note(want, link, conn)?)),
        None => Ok(None),
    }
}

/// Removes the connection if another one waits too. Returns whether that is so.
fn part(want: &mut Want, conn: &ConnId) -> bool
    ensures stays { result ≡ waits_besides conn.now want.old }
    ensures left { waits_besides conn.now want.old ≡ true → want.new ≡ leave conn.now want.old }
{
    if !want.waiting.has_other(conn) {
        return false;
    }
    want.waiting.leave(conn);
    true
}

/// The connection waits for nothing anymore.
pub fn part_all(wants: &mut IndexMap<[u8; 32], Want>, conn: &ConnId)
    requires under { AllByRecursion IsUnderHash wants.old.entries }
    ensures left { wants_in wants.new.entries ≡ left_by conn.now (wants_in wants.old.entries) }
    ensures under { AllByRecursion IsUnderHash wants.new.entries }
{
    wants.retain(
        |_hash: &[u8; 32], want: &mut Want| -> bool
            ensures { (result ≡ waits_besides conn.entry.now want.old) × (waits_besides conn.entry.now want.old ≡ true → want.new ≡ leave conn.entry.now want.old) }
        { part(want, conn) },
    );
}

/// One miss of the hash that isn't its twelfth.
pub fn note_missed(wants: &mut IndexMap<[u8; 32], Want>, hash: &Hash)
    requires under { AllByRecursion IsUnderHash wants.old.entries }
    requires waits { gives_up (Miss.One hash.now) (wants_in wants.old.entries) hash.now ≡ false }
    ensures counted { wants_in wants.new.entries ≡ missed_by (Miss.One hash.now) (wants_in wants.old.entries) }
    ensures under { AllByRecursion IsUnderHash wants.new.entries }
{
    let _distinct = wants.len();
    if let Some(want) = wants.get_mut(&hash.0) {
        want.misses = want.misses.saturating_add(1);
    }
}

/// The twelfth miss of the hash: it isn't wanted anymore.
pub fn end_missed(wants: &mut IndexMap<[u8; 32], Want>, hash: &Hash)
    requires under { AllByRecursion IsUnderHash wants.old.entries }
    requires last { gives_up (Miss.One hash.now) (wants_in wants.old.entries) hash.now ≡ true }
    ensures counted { wants_in wants.new.entries ≡ missed_by (Miss.One hash.now) (wants_in wants.old.entries) }
    ensures under { AllByRecursion IsUnderHash wants.new.entries }
{
    let _distinct = wants.len();
    end_want(wants, hash);
}

/// The hash isn't wanted anymore.
pub fn end_want(wants: &mut IndexMap<[u8; 32], Want>, hash: &Hash)
    requires under { AllByRecursion IsUnderHash wants.old.entries }
    ensures ended { wants_in wants.new.entries ≡ without hash.now (wants_in wants.old.entries) }
    ensures under { AllByRecursion IsUnderHash wants.new.entries }
{
    let _distinct = wants.len();
    let _ = wants.shift_remove(&hash.0);
}

/// One more miss, unless it is the last. Returns whether it isn't.
fn count(want: &mut Want) -> bool
    ensures waits { result ≡ not (is_last Miss.All want.old) }
    ensures counted { not (is_last Miss.All want.old) ≡ true → want.new ≡ count_miss Miss.All want.old }
{
    if Miss::All.ends(want) {
        return false;
    }
    want.misses = want.misses.saturating_add(1);
    true
}

/// One miss of each want; those for which it is the twelfth end.
pub fn count_all(wants: &mut IndexMap<[u8; 32], Want>)
    requires under { AllByRecursion IsUnderHash wants.old.entries }
    ensures counted { wants_in wants.new.entries ≡ missed_by Miss.All (wants_in wants.old.entries) }
    ensures under { AllByRecursion IsUnderHash wants.new.entries }
{
    wants.retain(
        |_hash: &[u8; 32], want: &mut Want| -> bool
            ensures { (result ≡ not (is_last Miss.All want.old)) × (not (is_last Miss.All want.old) ≡ true → want.new ≡ count_miss Miss.All want.old) }
        { count(want) },
    );
}

/// The link counts as not asked for any hash.
pub fn note_unasked(wants: &mut IndexMap<[u8; 32], Want>, link: usize)
    requires link { link < LINK_LIMIT }
    requires under { AllByRecursion IsUnderHash wants.old.entries }
    ensures asked { wants_in wants.new.entries ≡ unasked link (wants_in wants.old.entries) }
    ensures under { AllByRecursion IsUnderHash wants.new.entries }
{
    wants.retain(
        |_hash: &[u8; 32], want: &mut Want| -> bool
            requires { link < LINK_LIMIT }
            ensures { (result ≡ true) × (want.new ≡ unask link want.old) }
        {
            want.asked[link] = false;
            true
        },
    );
}
