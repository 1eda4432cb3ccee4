// The journal of file 0.
ghost use Rattle.std.specs.Prelude.{◌≡◌, false, IfOk, IfErr};
ghost use Rattle.process_disk.specs.Disk.{Told};
ghost use Rattle.process_disk.specs.Images.{AllAsBefore};
ghost use Rattle.command_input.specs.FilesLeft.{AreLeft, files};
ghost use Rattle.command_input.specs.Early.{comes_before_files};
ghost use Rattle.journal_input.specs.Opening.{journal_refusal, IsNotOpened, IsOpened};

use command_refusals::{FileFault, Refusal};
use commute_table::Catalog;
use process_disk::Rack;
use process_journal::{Journal, JournalError};
use schedule_model::History;
use std::alloc::Global;

fn journal_refusal(error: JournalError) -> Refusal
    ensures refusal { result ≡ journal_refusal error }
    ensures late { comes_before_files result ≡ false }
{
    match error {
        JournalError::DiskFault => Refusal::DiskFault,
        JournalError::BadHeader => Refusal::File(FileFault::BadHeader(0)),
        JournalError::BadRecord(n) => Refusal::File(FileFault::BadRecord(0, n)),
        JournalError::BadHistory(n) => Refusal::File(FileFault::BadHistory(n)),
        JournalError::NoMemory => Refusal::NoMemory,
    }
}

/// The catalog and the history of which file 0 is the journal.
pub fn opened<R: Rack>(alloc: Global, rack: &mut R) -> Result<(Catalog, History), Refusal>
    ensures opened { IfOk result (λ own. IsOpened own.0 own.1 (files R.Rack rack.old) (files R.Rack rack.new)) }
    ensures refused { IfErr result (λ r. IsNotOpened r (files R.Rack rack.old) (files R.Rack rack.new)) }
    ensures all { Told (R.disk rack.old) → AllAsBefore (R.disk rack.old) (R.disk rack.new) }
    ensures left { AreLeft (files R.Rack rack.old) (files R.Rack rack.new) }
    ensures late { IfErr result (λ r. comes_before_files r ≡ false) }
{
    match Journal::open(alloc, rack) {
        Ok((_, catalog, history)) => Ok((catalog, history)),
        Err(error) => Err(journal_refusal(error)),
    }
}
