// What is proved of files that are opened: the function says it, and does nothing.
ghost use Rattle.history_opening.specs.Laws.{SoundFilesAreOpened};

use process_journal::{journals_are_opened, journals_have_one_history};
use subsystem_store::books_are_read_back;

/// Sound files are refused for a fault of the rack or want of memory alone.
pub fn sound_files_are_opened()
    ensures { SoundFilesAreOpened }
{
    journals_are_opened();
    journals_have_one_history();
    books_are_read_back();
}
