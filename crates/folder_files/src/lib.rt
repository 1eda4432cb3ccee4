//! The files of a folder.
//!
//! A `Folder` is nine files with the calls that a system has: transfers that may be short, a sync of one file, and a lock
//! (`specs/Folder`). Before the first look it is entered: to read alone, or by a try to take it; and before that a probe may find
//! out why it can't be used. `SystemFolder` is the current folder or one that it goes to, which tells nothing, and `MemoryFolder`
//! one in memory, which tells all and bars nobody. Of the calls of any folder are made whole reads
//! and writes, and a sync of each file that is marked. When to take a folder, what to mark and what a failure means is no work of
//! this crate.
#![tactic(auto)]

mod barred;
mod counts;
mod folder;
mod memory_folder;
mod opened;
mod system_folder;
mod transfers;

pub use barred::{Barred, Subject};
pub use folder::{Access, Folder};
pub use memory_folder::MemoryFolder;
pub use system_folder::SystemFolder;
pub use transfers::{any_marked, read_whole, sync_marked, write_whole};
