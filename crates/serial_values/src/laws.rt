// The law: the function says it, and does nothing.
ghost use Rattle.serial_values.specs.Laws.{SerialListsLeaveWhatLogsLeave};

/// A serial list to which the schedule of a completed history is brought leaves the values that this leaves.
pub fn serial_lists_leave_what_logs_leave()
    ensures { SerialListsLeaveWhatLogsLeave }
{}
