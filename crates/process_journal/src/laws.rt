// What is proved of journals and of the histories that they may have.
ghost use Rattle.process_journal.specs.Laws.{OneHistoryAtMost, JournalsAreOpened, HistoriesArePlanned, RecordsMakeHistories};
ghost use Rattle.process_journal.specs.Laws.{BeginningsAreHistories};

/// A file is the journal of one catalog and one history at most.
pub fn journals_have_one_history()
    ensures { OneHistoryAtMost }
{}

/// A journal is refused for a fault of the rack or want of memory alone.
pub fn journals_are_opened()
    ensures { JournalsAreOpened }
{}

/// A history that a journal may have is what each call of one asks; what a record makes of it, where that is allowed, and each
/// beginning of it is one too.
pub fn journals_keep_histories()
    ensures planned { HistoriesArePlanned }
    ensures made { RecordsMakeHistories }
    ensures beginnings { BeginningsAreHistories }
{}
