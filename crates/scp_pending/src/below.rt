//! What crates above take of those that this one is built on: a module for each, by its name without `scp_`.

pub mod wire {
    pub use scp_wire::{
        BoxedEnvelope, Bytes, Carried, Cause, Command, FittingMessage, Inbound, LinkItem, Message,
        Next, SideMessage, Tail, a_beginning_keeps_the_shape, decode, what_fits_a_link,
    };
}

pub mod fetch {
    pub use scp_fetch::Want;
}
