//! Laws of these lines.
ghost use Rattle.std.specs.Prelude.{◌≡◌, ◌++◌, ◌∷◌, ℕ, List, Some, All, flat_map, slice_get};
ghost use Rattle.scp_core.specs.scp_types.specs.declared.names.NodeId.{NodeId};
ghost use Rattle.scp_core.specs.scp_pending.specs.Peers.{AreApart};
ghost use Rattle.scp_live_lines.specs.Names.{name_at, name_of};
ghost use Rattle.scp_live_lines.specs.Sent.{send_line};
ghost use Rattle.scp_live_lines.specs.Back.{sent_in, IsSending, IsWord};
ghost use Rattle.scp_live_lines.specs.Others.{AreOthers};

/// If no two peers are the same, each is written by the name at its own index.
pub fn a_peer_is_told_by_its_name()
    ensures { (names : List (List ℕ)) → (peers : List NodeId) → (place : ℕ) → (peer : NodeId) → AreApart peers → slice_get peers place ≡ Some peer → name_of names peers peer ≡ name_at names place }
{}

/// The lines of a text are read one after another: what a text says was sent is what its parts say, in order.
pub fn lines_are_read_in_order()
    ensures { (text more : List ℕ) → sent_in (text ++ 10 ∷ more) ≡ sent_in text ++ sent_in more }
{}

/// From a text of `send` lines, a host reads back exactly which bytes were sent, to which peer, and in which order.
pub fn sent_lines_come_back()
    ensures { (sendings : List (List ℕ × List ℕ)) → All IsSending sendings → sent_in (flat_map (λ s. send_line s.0 s.1) sendings) ≡ sendings }
{}

/// If each peer's name can be one word, no other line that reports an event says of a message that it was sent.
pub fn only_send_lines_are_read()
    ensures { (names : List (List ℕ)) → (peers : List NodeId) → All IsWord names → AreOthers names peers }
{}
