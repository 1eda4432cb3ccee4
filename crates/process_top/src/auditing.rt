// The command `audit`.
ghost use Rattle.std.specs.Prelude.{◌≡◌, true, IfOk, IfErr};
ghost use Rattle.process_flow.specs.Causes.{Rose};
ghost use Rattle.process_disk.specs.Disk.{Told};
ghost use Rattle.process_disk.specs.Images.{AllAsBefore};
ghost use Rattle.command_input.specs.Early.{comes_before_files};
ghost use Rattle.command_input.specs.FilesLeft.{AreLeft, files};
ghost use Rattle.command_input.specs.Inputs.{input};
ghost use Rattle.replay_run.specs.Replay.{found_status};
ghost use Rattle.scenario_run.specs.Completeness.{NothingFailed};
ghost use Rattle.process_top.specs.Audit.{IsAuditDue, IsAuditComplete, IsHistoryAuditDue, IsHistoryAuditComplete};
ghost use Rattle.process_top.specs.Said.{Says};

use command_input::Said;
use command_refusals::{Refusal, Status};
use process_disk::Rack;
use process_flow::Source;
use std::alloc::Global;

/// Audits the log behind the scenario in the source's text.
pub fn log<S: Source>(alloc: Global, source: &mut S) -> Result<Said, Refusal>
    ensures due { Says (IsAuditDue (input S.Source source.old) (input S.Source source.new)) result }
    ensures complete { ¬ Rose (S.faults source.old) (S.faults source.new)
        → IsAuditComplete (input S.Source source.old) (found_status result) }
{
    audit_run::audit(alloc, source)
}

/// Audits the history of file 0 under the scenario in the source's text.
pub fn history<S: Source, R: Rack>(
    alloc: Global,
    source: &mut S,
    rack: &mut R,
) -> Result<Said, Refusal>
    ensures due { Says (IsHistoryAuditDue (input S.Source source.old) (input S.Source source.new)
        (files R.Rack rack.old) (files R.Rack rack.new)) result }
    ensures complete { NothingFailed (input S.Source source.old) (input S.Source source.new) (files R.Rack rack.old)
        (files R.Rack rack.new) → IsHistoryAuditComplete (input S.Source source.old) (files R.Rack rack.old) (found_status result) }
    ensures all { Told (R.disk rack.old) → AllAsBefore (R.disk rack.old) (R.disk rack.new) }
    ensures left { AreLeft (files R.Rack rack.old) (files R.Rack rack.new) }
    ensures early { IfErr result (λ r. comes_before_files r ≡ true → rack.new ≡ rack.old) }
    ensures ill_formed { IfOk result (λ s. s.status ≡ Status.IllFormed → rack.new ≡ rack.old) }
{
    audit_run::audit_history(alloc, source, rack)
}
