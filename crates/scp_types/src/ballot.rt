ghost use Rattle.std.specs.Prelude.{◌≡◌, IfOk, IsOkUnless};

use crate::fault::Fault;
use crate::shared::SharedValue;

/// A ballot of the SCP draft, ordered by its counter and then by its value's bytes.
#[derive(Drop, PartialEq, Eq, PartialOrd, Ord)]
pub struct Ballot {
    /// Counts the attempts; 0 stands for no ballot.
    pub counter: u32,
    /// What this attempt would agree on.
    pub value: SharedValue,
}

impl Ballot {
    /// Another ballot with the same counter, which shares the value: no byte is copied. The only refusal
    /// is `Fault::NoMemory`.
    pub fn copy(&self) -> Result<Ballot, Fault>
        ensures same { IfOk result (λ b. b ≡ self.now) }
        ensures only_memory { IsOkUnless result Fault.NoMemory }
    {
        Ok(Ballot {
            counter: self.counter,
            value: self.value.share()?,
        })
    }
}
