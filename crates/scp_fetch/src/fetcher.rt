//! The hashes that are wanted.
ghost use Rattle.std.specs.Prelude.{◌≡◌, ◌<◌, [], not, map, IfOk, OnOk, OnErr, IsOkUnless};
ghost use Rattle.scp_fetch.specs.Wants.{is_wanted, is_asked, wanted_by, waiting_for, left_by, unasked, missed_by, without, gives_up, last_missed, miss_of, answer_of};

use crate::answers::{Answer, Missed};
use crate::want::{
    Miss, Want, add_want, all_wants, count_all, end_missed, end_want, has_asked, has_last,
    has_want, last_hashes, note_asked, note_missed, note_unasked, part_all, waiters,
};
use indexmap::IndexMap;
use scp_quorum::below::types::{ConnId, Fault, Hash, LINK_LIMIT};
use std::alloc::{AllocError, Global};
use std::marker::Model;

/// With this many misses a hash is given up (this project's profile).
pub const MISS_LIMIT: u8 = 12;

/// The hashes that are wanted, in the order in which they became so, each with its misses, the links that were asked, and the
/// connections that wait for it. A look-up is one in a hash table. A miss of all, an opened link and the end of a connection
/// walk all wants; the end of a want moves those after it.
#[derive(Drop)]
pub struct Fetcher {
    wants: IndexMap<[u8; 32], Want>,
}

impl Model for Fetcher {
    ghost use Rattle.std.specs.Prelude.{List};
    ghost use Rattle.std.specs.List.{AllByRecursion};
    ghost use Rattle.scp_fetch.specs.declared.want.Want.{Want};
    ghost use Rattle.scp_fetch.specs.inside.Table.{wants_in, IsUnderHash};

    ghost Value = { List Want };

    ghost view = { λ a. wants_in a.wants.entries };

    ghost invariant = { λ a. AllByRecursion IsUnderHash a.wants.entries };
}

impl Fetcher {
    /// A fetcher that wants nothing. Takes no memory.
    pub fn new(alloc: Global) -> Fetcher
        ensures { result ≡ [] }
    {
        Fetcher {
            wants: IndexMap::new(alloc),
        }
    }

    /// The wants, in the order in which their hashes became wanted. The only refusal is `AllocError`.
    pub fn wants(&self) -> Result<Vec<&Want>, AllocError>
        ensures { IfOk result (λ wants. map (λ want. want.now) wants.items ≡ self.now) }
    {
        all_wants(&self.wants)
    }

    /// Whether the hash is wanted.
    pub fn is_wanted(&self, hash: &Hash) -> bool
        ensures { result ≡ is_wanted hash.now self.now }
    {
        has_want(&self.wants, hash)
    }

    /// Whether the hash is wanted and one more miss is its twelfth.
    pub fn is_at_last_miss(&self, hash: &Hash) -> bool
        ensures { result ≡ gives_up Miss.All self.now hash.now }
    {
        has_last(&self.wants, Miss::All, hash)
    }

    /// The hashes for which one more miss is the twelfth, in the order in which they became wanted. The only refusal
    /// is `Fault::NoMemory`.
    pub fn at_last_miss(&self) -> Result<Vec<Hash>, Fault>
        ensures hashes { IfOk result (λ hashes. hashes.items ≡ last_missed self.now) }
        ensures only_memory { IsOkUnless result Fault.NoMemory }
    {
        last_hashes(&self.wants)
    }

    /// The connections that wait for the hash, each once, in the order of their first wait; none if it isn't wanted. Takes no
    /// memory, and costs one look-up in a hash table.
    pub fn waiting(&self, hash: &Hash) -> &[ConnId]
        ensures { result.now ≡ waiting_for hash.now self.now }
    {
        waiters(&self.wants, hash)
    }

    /// Wants the hash for the connection, and returns whether the link is to be asked: `true` exactly where it wasn't asked
    /// since both the hash became wanted and the link last opened. From then on the link counts as asked, and the connection
    /// waits, after those that waited before. The only refusal is `Fault::NoMemory`, and it leaves all as it was.
    pub fn want(&mut self, hash: &Hash, link: u8, conn: &ConnId) -> Result<bool, Fault>
        requires link { link < LINK_LIMIT }
        ensures asks { IfOk result (λ asks. asks ≡ not (is_asked hash.now link self.old)) }
        ensures wanted { OnOk result (self.new ≡ wanted_by hash.now link conn.now self.old) }
        ensures unchanged { OnErr result (self.new ≡ self.old) }
        ensures only_memory { IsOkUnless result Fault.NoMemory }
    {
        if let Some(asks) = note_asked(&mut self.wants, hash, link as usize, conn)? {
            return Ok(asks);
        }
        add_want(&mut self.wants, hash, link as usize, conn)?;
        Ok(true)
    }

    /// Whether the hash is wanted, and the link was asked for it since both the hash became wanted and the link last
    /// opened.
    pub fn asked(&self, hash: &Hash, link: u8) -> bool
        requires link { link < LINK_LIMIT }
        ensures { result ≡ is_asked hash.now link self.now }
    {
        has_asked(&self.wants, hash, link as usize)
    }

    /// One miss of the hash: a node has no such set. The twelfth gives it up, and then it isn't wanted anymore.
    pub fn miss(&mut self, hash: &Hash) -> Missed
        ensures answer { result ≡ miss_of hash.now self.old }
        ensures counted { self.new ≡ missed_by (Miss.One hash.now) self.old }
    {
        if !self.is_wanted(hash) {
            return Missed::Unwanted;
        }
        if has_last(&self.wants, Miss::One(*hash), hash) {
            end_missed(&mut self.wants, hash);
            return Missed::GaveUp;
        }
        note_missed(&mut self.wants, hash);
        Missed::Waiting
    }

    /// One miss of each hash that is wanted: time went on. Those for which it is the twelfth aren't wanted anymore.
    pub fn miss_all(&mut self)
        ensures { self.new ≡ missed_by Miss.All self.old }
    {
        count_all(&mut self.wants);
    }

    /// A set with this hash came, so the hash isn't wanted anymore.
    pub fn answer(&mut self, hash: &Hash, is_sane: bool) -> Answer
        ensures answer { result ≡ answer_of hash.now is_sane self.old }
        ensures ended { self.new ≡ without hash.now self.old }
    {
        let wanted = self.is_wanted(hash);
        end_want(&mut self.wants, hash);
        match (wanted, is_sane) {
            (false, _) => Answer::Unwanted,
            (true, true) => Answer::Sane,
            (true, false) => Answer::Insane,
        }
    }

    /// The link opened: it counts as not asked for any hash.
    pub fn opened(&mut self, link: u8)
        requires link { link < LINK_LIMIT }
        ensures { self.new ≡ unasked link self.old }
    {
        note_unasked(&mut self.wants, link as usize);
    }

    /// The connection ended. It waits for nothing anymore, and a hash for which no other connection waits isn't wanted
    /// anymore. Walks all wants.
    pub fn closed(&mut self, conn: &ConnId)
        ensures { self.new ≡ left_by conn.now self.old }
    {
        part_all(&mut self.wants, conn);
    }
}
