//! How far a run is, for people who wait for it.

/// How far a run is.
#[derive(Clone, Copy, PartialEq, Eq)]
pub struct Far {
    /// The time in milliseconds.
    pub time: u64,
    /// How many slots all judged nodes applied.
    pub closed: u64,
    /// How many messages were sent.
    pub sent: u64,
    /// The first slot for which judged nodes applied different values, if there is one so far.
    pub split: Option<u64>,
}

/// Is told how far a run is, behind each point in time at which anything happens.
pub trait Pace {
    /// The run is so far.
    fn at(&mut self, far: &Far);
}
