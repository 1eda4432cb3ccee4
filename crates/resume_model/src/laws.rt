// The laws that are proved: each function says one, and does nothing.
ghost use Rattle.resume_model.specs.MomentLaws.{CallsKeepSessions, FlushesKeepSessions, MomentLawsHold, RestIsSound};
ghost use Rattle.resume_model.specs.MomentLaws.{StartsKeepSessions};
ghost use Rattle.resume_model.specs.StopLaws.{StopsBlockNobody, StopsResume};

/// A stop takes nothing back: what it leaves is sound, and the machine that opens on it goes on from the moment of the stop.
pub fn stops_resume()
    ensures { StopsResume }
{}

/// A stop blocks nobody: a process that nothing stood against may go on behind it.
pub fn stops_block_nobody()
    ensures { StopsBlockNobody }
{}

/// The laws of the machine hold at each moment of a session that opens at a sound moment.
pub fn moment_laws_hold()
    ensures { MomentLawsHold }
{}

/// What a call other than a start keeps makes a longer session.
pub fn calls_keep_sessions()
    ensures { CallsKeepSessions }
{}

/// A start keeps nothing, or makes a longer session with its plan.
pub fn starts_keep_sessions()
    ensures { StartsKeepSessions }
{}

/// What a flush keeps makes a longer session.
pub fn flushes_keep_sessions()
    ensures { FlushesKeepSessions }
{}

/// An opening on a legal history is sound where nobody is active, and where all that are active complete.
pub fn rest_is_sound()
    ensures { RestIsSound }
{}
