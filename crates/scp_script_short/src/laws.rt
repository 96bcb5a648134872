//! The law of expanded scripts.
ghost use Rattle.scp_script_short.specs.Scripts.{LinesStay};

/// Whoever reads an expanded script line by line reads exactly the lines that the script's lines stand for. So `place_of` gives the right
/// place for each of them.
pub fn lines_stay()
    ensures { LinesStay }
{}
