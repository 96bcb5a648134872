//! What an outbox learns and says about the link, and what it gives.

use scp_wire::Message;

/// A change of the link, which is given before all messages.
#[derive(Clone, Copy, Debug, PartialEq, Eq)]
pub enum Mark {
    /// The link opens: messages may follow.
    Opened,
    /// The link closes: no messages follow until it opens again.
    Closed,
    /// The sender stops. Whether messages may follow stays as it was.
    Stop,
}

/// What an outbox gives next.
#[derive(Drop)]
pub enum Out {
    /// A change of the link.
    Mark(Mark),
    /// A message, which is to be sent.
    Message(Message),
    /// There is nothing to send now.
    Nothing,
}
