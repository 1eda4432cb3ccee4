// The laws: each function says one, and does nothing.
ghost use Rattle.audit_run.specs.Laws.{JournalsAreInOwnOrder, LogsLeaveWhatIsTold, LooserScenariosAllowJournals};

use serial_values::serial_lists_leave_what_logs_leave;
use user_guarantees::looser_tables_allow_more;
use value_conflict::first_commuting_is_exact;

/// Loosening a table makes no journal illegal.
pub fn looser_scenarios_allow_journals()
    ensures { LooserScenariosAllowJournals }
{
    looser_tables_allow_more();
}

/// The history of a journal is in own order, whatever the conflicts are.
pub fn journals_are_in_own_order()
    ensures { JournalsAreInOwnOrder }
{}

/// The values that are told of a log are those that it leaves itself, once it is completed.
pub fn logs_leave_what_is_told()
    ensures { LogsLeaveWhatIsTold }
{
    first_commuting_is_exact();
    serial_lists_leave_what_logs_leave();
}
