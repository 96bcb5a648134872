//! A message with its connection, and its number there.
ghost use Rattle.scp_wire.specs.inside.Carried.{IsCarried, IsCarried-prop};

use crate::fitting::FittingMessage;
use scp_quorum::below::types::{ConnId, Seq};

/// A message that is numbered on its connection: an envelope, a request for a record, or a record.
#[derive(Drop)]
pub struct Carried {
    /// The life of the link that it came over.
    pub conn: ConnId,
    /// Its number among the carried messages of that life, from 0.
    pub seq: Seq,
    /// The message, which breaks no limit.
    pub message: FittingMessage,
    pub ghost carried: { IsCarried message } by { IsCarried-prop message },
}
