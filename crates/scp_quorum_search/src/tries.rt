//! How much a search may do.
ghost use Rattle.std.specs.Prelude.{◌≡◌, ◌+◌, ◌≤◌};
ghost use Rattle.std.specs.Bool.{OnFalse};
ghost use Rattle.scp_quorum_search.specs.Meeting.{IsSpent};

/// The tries of a search: how many it may make, and how many it has made. Without a limit there are always more.
#[derive(Drop)]
pub struct Tries {
    pub limit: Option<u64>,
    pub made: u64,
}

impl Tries {
    /// No tries were made so far.
    pub fn new(limit: Option<u64>) -> Tries
        ensures limit { result.limit ≡ limit }
        ensures none { result.made ≡ 0 }
    {
        Tries { limit, made: 0 }
    }
}

/// Makes one try more. False if the tries are used up.
pub fn try_once(tries: &mut Tries) -> bool
    ensures spent { OnFalse result (IsSpent tries.new) }
    ensures one { tries.new.made ≤ tries.old.made + 1 }
    ensures limit { tries.new.limit ≡ tries.old.limit }
{
    if let Some(limit) = tries.limit {
        if tries.made >= limit {
            return false;
        }
    }
    tries.made = tries.made.saturating_add(1);
    true
}
