// The laws of verdicts: each function says one, and does nothing.
ghost use Rattle.trace_verify.specs.Laws.{VerdictsMean, AcceptanceIsExact, NumbersAreNames};

/// The verdict on each text means what it says.
pub fn verdicts_mean()
    ensures { VerdictsMean }
{}

/// A text that has all that acceptance asks is accepted.
pub fn acceptance_is_exact()
    ensures { AcceptanceIsExact }
{}

/// Two names have one number exactly where they are one name.
pub fn numbers_are_names()
    ensures { NumbersAreNames }
{}
