//! Racks of nine files that can stop at any moment.
//!
//! `Rack` is what the program keeps its files on. What a rack tells is a `Disk` of `specs/Disk`: what a read gives, what a
//! crash may leave, and one clock for all nine files. A call fails only where the rack's count of faults rose.
//! `MemoryRack` tells all of it and keeps its calls, so that `stopped` can give the rack that a stop within any of them
//! leaves. The layers above use `Rack`, the words of `specs/Images` with their laws in `proofs/Images`, and the records of
//! `specs/Racks`, which say what a call leaves of a rack. Nothing here knows what the bytes mean, nor of real files, which
//! `file_rack` has.
#![tactic(auto)]

mod changes;
mod files;
mod memory;
mod memory_rack;
mod rack;
mod stop;

pub use memory::MemoryRack;
pub use rack::{Rack, racks_are_honest};
