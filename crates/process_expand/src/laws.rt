// What holds of each expansion.
ghost use Rattle.process_expand.specs.Trees.{BlocksAreWrittenOut};

/// A block is written with what follows its choices at the end of each way.
pub fn blocks_are_written_out()
    ensures { BlocksAreWrittenOut }
{}
