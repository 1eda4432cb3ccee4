// What is proved of the bytes of records.
ghost use Rattle.journal_records.specs.Laws.{RecordsAreReadBack};

/// Every record is read back from its bytes, but for the operation and the key of a step.
pub fn records_are_read_back()
    ensures { RecordsAreReadBack }
{}
