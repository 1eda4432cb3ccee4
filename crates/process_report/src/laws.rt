// The law of printed reports: its function says it, and does nothing.
ghost use Rattle.process_report.specs.Laws.{PrintedReportsAreAccepted};

/// `verify` accepts each report that is printed of a legal history within the limits.
pub fn printed_reports_are_accepted()
    ensures { PrintedReportsAreAccepted }
{}
