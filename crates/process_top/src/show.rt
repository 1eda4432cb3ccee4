// The command `show`.
ghost use Rattle.std.specs.Prelude.{◌≡◌, false, IfOk, IfErr};
ghost use Rattle.process_disk.specs.Disk.{Told};
ghost use Rattle.process_disk.specs.Images.{AllAsBefore};
ghost use Rattle.command_input.specs.FilesLeft.{AreLeft, files};
ghost use Rattle.command_input.specs.Early.{comes_before_files};
ghost use Rattle.process_top.specs.Said.{Says};
ghost use Rattle.process_top.specs.Show.{IsShowDue};

use command_input::Said;
use command_refusals::{Refusal, Status};
use journal_input::opened;
use process_disk::Rack;
use process_report::report;
use std::alloc::Global;

/// Shows the history of file 0.
pub fn show<R: Rack>(alloc: Global, rack: &mut R) -> Result<Said, Refusal>
    ensures due { Says (IsShowDue (files R.Rack rack.old) (files R.Rack rack.new)) result }
    ensures all { Told (R.disk rack.old) → AllAsBefore (R.disk rack.old) (R.disk rack.new) }
    ensures left { AreLeft (files R.Rack rack.old) (files R.Rack rack.new) }
    ensures late { IfErr result (λ r. comes_before_files r ≡ false) }
    ensures status { IfOk result (λ s. s.status ≡ Status.Done) }
{
    let (catalog, history) = opened(alloc, rack)?;
    let text = report(alloc, &catalog, &history, &[])?;
    Ok(Said {
        text,
        status: Status::Done,
    })
}
