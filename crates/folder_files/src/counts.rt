// Counts of syncs: of the nine files, and of the folder behind them.
ghost use Rattle.std.specs.Prelude.{◌<◌};
ghost use Rattle.folder_files.specs.Folder.{IsSynced};

/// Where syncs of the folder are counted.
pub const FOLDER: usize = 9;

/// Counts a sync.
pub fn count(syncs: &mut [u64; 10], place: usize)
    requires { place < 10 }
    ensures { IsSynced place syncs.old syncs.new }
{
    syncs[place] = syncs[place].saturating_add(1);
}
