//! The first word of a line.
ghost use Rattle.std.specs.Prelude.{◌≡◌};
ghost use Rattle.scp_live_lines.specs.Verbs.{verb_in};

/// What the first word of a line means.
#[derive(Clone, Copy, PartialEq, Eq)]
pub enum Verb {
    Open,
    Close,
    Recv,
    Propose,
    Round,
    Timer,
    Ballot,
    Tick,
    Ask,
    Again,
    State,
    Report,
    Stand,
    Applied,
}

/// What a word means as the first word of a line, if anything.
pub fn verb_of(word: &str) -> Option<Verb>
    ensures { result ≡ verb_in word.now }
{
    match word {
        "open" => Some(Verb::Open),
        "close" => Some(Verb::Close),
        "recv" => Some(Verb::Recv),
        "propose" => Some(Verb::Propose),
        "round" => Some(Verb::Round),
        "timer" => Some(Verb::Timer),
        "ballot" => Some(Verb::Ballot),
        "tick" => Some(Verb::Tick),
        "ask" => Some(Verb::Ask),
        "again" => Some(Verb::Again),
        "state" => Some(Verb::State),
        "report" => Some(Verb::Report),
        "stand" => Some(Verb::Stand),
        "applied" => Some(Verb::Applied),
        _ => None,
    }
}
