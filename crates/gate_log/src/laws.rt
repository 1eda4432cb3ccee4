// What is proved of the words for logs.
ghost use Rattle.gate_log.specs.Laws.{LogsAreRead, OneListAtMost};

/// The words for a log agree: what a file must hold, and what is read from it.
pub fn logs_are_lists()
    ensures read { LogsAreRead }
    ensures one { OneListAtMost }
{}
