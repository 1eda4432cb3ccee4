// The command `check`.
ghost use Rattle.command_input.specs.Inputs.{input};
ghost use Rattle.process_top.specs.Check.{IsCheckDue};
ghost use Rattle.process_top.specs.Said.{Says};

use command_input::{Said, processes_of};
use command_refusals::{Refusal, Status, verdicts};
use process_flow::Source;
use std::alloc::Global;

/// Checks the processes of the source's text.
pub fn check<S: Source>(alloc: Global, source: &mut S) -> Result<Said, Refusal>
    ensures { Says (IsCheckDue (input S.Source source.old) (input S.Source source.new)) result }
{
    let processes = processes_of(alloc, source)?;
    let (text, any) = verdicts(alloc, &processes)?;
    let status = if any { Status::IllFormed } else { Status::Done };
    Ok(Said { text, status })
}
