//! Which log a start wants, and why an entry doesn't fit.
ghost use Rattle.std.specs.Prelude.{◌≡◌, ◌↔◌, true};
ghost use Rattle.std.specs.Bool.{OnFalse, OnTrue};
ghost use Rattle.scp_live_log.specs.Wanted.{Fits};

/// Which log a start wants.
#[derive(Clone, Copy, Debug, PartialEq, Eq)]
pub enum Wanted {
    /// One that is begun, with at least this many entries.
    AtLeast(usize),
    /// One without entries. The file is empty, or a crash left a part of the first line, or of the entries behind it.
    New,
}

/// Why an entry of a log doesn't fit.
#[derive(Clone, Copy, Debug, PartialEq, Eq)]
pub enum Unfit {
    /// Its bytes are no entry whose digest fits the one before it, and a batch begins after it.
    Chain,
    /// Its line says no event.
    NoEvent,
    /// Something else is sent for it now.
    SendsOtherwise,
}

/// Whether a log without entries is wanted.
pub(crate) fn is_new(wanted: Wanted) -> bool
    ensures { (result ≡ true) ↔ (wanted ≡ Wanted.New) }
{
    matches!(wanted, Wanted::New)
}

/// Whether a log with so many entries is the one that is wanted.
pub(crate) fn fits(wanted: Wanted, count: usize) -> bool
    ensures yes { OnTrue result (Fits wanted count) }
    ensures no { OnFalse result (¬ (Fits wanted count)) }
{
    match wanted {
        Wanted::AtLeast(least) => least <= count,
        Wanted::New => count == 0,
    }
}
