//! A rack over the files of a folder.
//!
//! `FileRack` makes of a folder of `folder_files` a `Rack` of `process_disk`, which tells what the folder tells: whole reads and
//! writes, and a sync of all files that a crash may leave otherwise. It takes the folder before it writes, and counts its faults;
//! no failed call of a folder is passed over. The layers above use `FileRack` over the two folders, that of the system and one in
//! memory.
#![tactic(auto)]

mod file_rack;
mod system_rack;

pub use file_rack::FileRack;
pub use folder_files::{Access, Barred, Folder, MemoryFolder, Subject, SystemFolder};
