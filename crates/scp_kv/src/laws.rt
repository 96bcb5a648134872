//! Laws of the definitions. Each is the contract of a function that does nothing.
ghost use Rattle.std.specs.Prelude.{◌≡◌, ◌≢◌, ◌↔◌, ◌<◌, ◌++◌, ◌∷◌, [], ℕ, List, All, Ok, Some, None};
ghost use Rattle.std.specs.FinMap as map;
ghost use Rattle.scp_xdr.specs.Kind.{Values, Spells};
ghost use Rattle.scp_kv.specs.Map.{KvMap};
ghost use Rattle.scp_kv.specs.Op.{put, del, ops_kind, ops_in, IsOps};
ghost use Rattle.scp_kv.specs.Saved.{state_kind, state_in};
ghost use Rattle.scp_kv.specs.State.{after_op, after_value, fold_of};

/// `ops_in` finds a list exactly where the bytes are one, and it finds that list.
pub fn ops_in_finds_the_list()
    ensures found { (bytes : List ℕ) (ops : Values ops_kind) → All (λ b. b < 256) bytes → ops_in bytes ≡ Some ops → IsOps bytes ops }
    ensures only { (bytes : List ℕ) (ops : Values ops_kind) → IsOps bytes ops → ops_in bytes ≡ Some ops }
{}

/// After a put its key has its value, and each other key has what it had.
pub fn a_put_sets_its_key_alone()
    ensures its_key { (state : KvMap) (key value : List ℕ) → map.get (after_op state (put key value)) key ≡ Some value }
    ensures others { (state : KvMap) (key value other : List ℕ) → other ≢ key → map.get (after_op state (put key value)) other ≡ map.get state other }
{}

/// After a del its key has no value, and each other key has what it had.
pub fn a_del_takes_its_key_alone()
    ensures its_key { (state : KvMap) (key : List ℕ) → map.get (after_op state (del key)) key ≡ None }
    ensures others { (state : KvMap) (key other : List ℕ) → other ≢ key → map.get (after_op state (del key)) other ≡ map.get state other }
{}

/// Folding a list with one value more at its end is folding the list, and then applying that value.
pub fn a_value_more_is_one_step_more()
    ensures { (values : List (List ℕ)) (value : List ℕ) → fold_of (values ++ value ∷ []) ≡ after_value (fold_of values) value }
{}

/// `state_in` finds a state exactly where the bytes encode its entries, and it finds that state. So a state has one encoding, and bytes
/// are those of one state at most.
pub fn the_bytes_of_a_state_are_its_own()
    ensures found { (bytes : List ℕ) (state : KvMap) → All (λ b. b < 256) bytes → state_in bytes ≡ Ok state → Spells state_kind bytes (map.entries state) }
    ensures only { (bytes : List ℕ) (state : KvMap) → Spells state_kind bytes (map.entries state) → state_in bytes ≡ Ok state }
{}
