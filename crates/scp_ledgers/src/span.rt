//! Which ledgers are shown.

/// The ledgers from the first number to the last one.
#[derive(Clone, Copy, Debug, PartialEq, Eq)]
pub struct Span {
    pub first: u32,
    pub last: u32,
}
