//! What a node sends once more to a peer, and that by this it never goes back.
//!
//! What it promises:
//! - `messages_again` returns exactly the messages that are sent once more over a link (`again_of` in `specs/Again.antt`).
//! - Take all that is sent over a link and, at any moments, sent once more, whatever came and however the node's stages took turns. Of two
//!   statements of one slot and kind, the later one is the same or newer.
//!
//! Not claimed: that a connection which was lost carried what is sent once more.
#![tactic(auto)]

mod again;
pub mod below;
mod laws;

pub use again::messages_again;
pub use laws::what_is_sent_once_more_never_goes_back;
