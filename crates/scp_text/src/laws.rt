//! Laws of what is written and read.
ghost use Rattle.scp_text.specs.Laws.{MessagesComeBack, ValuesComeBack, SetsComeBack};

/// What is written of a message, a value or a quorum set within its limits stands in one line, and says just that.
pub fn what_is_written_says_it()
    ensures messages { MessagesComeBack }
    ensures values { ValuesComeBack }
    ensures sets { SetsComeBack }
{}
