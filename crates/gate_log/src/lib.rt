//! Logs of bodies, of which a crash leaves the list before a call or the list after it.
//!
//! A log is one file of a rack: a header, records behind open gates, and a closed gate (`specs/LogFile`). `append` writes a
//! record behind the closed gate and then opens it, and `retract` closes the last gate, so that a crash at any moment leaves one
//! of two lists. What an open log promises of its file and of each image of it is `StandsFor` of `specs/Standing`.
//!
//! `stage` gathers bodies, and `append_staged` appends all of them behind one gate: a crash leaves none of them or all. Its parts
//! (`write_staged`, `open_gate`, `take_staged`) are functions too, so that several logs share two syncs: write what is staged into
//! each log, `sync`, open each gate, `sync`. What stands between the parts is said in `specs/Staging`.
//!
//! The layers above use `Log`, `Body`, `sync` and those words. Nothing here knows what a body means.
#![tactic(auto)]

mod body;
mod device;
mod errors;
mod laws;
mod log;
mod records;
mod shared_sync;
mod staged;

pub use body::Body;
pub use errors::{DiskFault, LogError};
pub use laws::logs_are_lists;
pub use log::Log;
pub use shared_sync::sync;
