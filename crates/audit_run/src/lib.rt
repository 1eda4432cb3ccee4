//! The command `audit`: was what another scheduler did safe at every moment?
//!
//! `audit` reads a scenario and the log behind it (`audit_text`), sees that it is within the limits and in own order, audits it
//! (`audit_core`), and says what was found, and of a log that can be reduced also what its serial list leaves of the values
//! (`serial_values`): by `logs_leave_what_is_told` that is what the log leaves itself. `specs/Outcomes` has what is found and what is
//! printed of it, and `specs/Audit` what is due on an input, in the order of its tests. `audit_history` takes the history of file 0 in
//! place of a log, and says also whether the conflicts of the scenario would have allowed it: `named_conflicts` gives these to the
//! journal's own operations, and `specs/History` has what is due. By `looser_scenarios_allow_journals` loosening a table makes no
//! journal illegal.
#![tactic(auto)]

mod command;
mod history;
mod judging;
mod laws;
mod legality;
mod printing;
mod values;

pub use command::audit;
pub use history::audit_history;
pub use laws::{
    journals_are_in_own_order, logs_leave_what_is_told, looser_scenarios_allow_journals,
};
