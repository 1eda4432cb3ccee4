//! The engine as it is used: the calls of `engine_steps` under the same names, whether more processes fit within the limits, and
//! pieces that take effect: several together, or one by itself.
//!
//! Who does the work of a piece is a `Gate`. `queue` puts a piece whose work is done behind those that are queued at an engine
//! (`specs/Queues`, `Queueing`); it stays out until a flush. Those that are out then take effect in the order in which they were
//! queued, and the others were dropped; `flush` tells of each what became of it, as the machine says (`specs/Flushing`). One record
//! has all of them, behind one gate of the journal: a crash leaves files that are sound for the history before, or with the events
//! of all. A group has as many pieces as are out: it is full only for a step that values can bar, where an act at the same key is
//! queued, since what that one makes of the value there isn't known before the flush.
//!
//! `finish_piece` ends one piece (`specs/Finishing`): it takes effect as a group of one, in the same steps on the files, unless it is
//! refused or the values of the books bar it, which touches no file. An effect is acknowledged once each later crash keeps it.
//! `fits` tells beforehand which limit more processes would pass (`specs/Fitting`).
#![tactic(auto)]

mod finishing;
mod fitting;
mod flushing;
mod gates;
mod group;
mod queued;
mod queueing;
mod replies;

pub use engine_steps::{
    BookFault, Closed, CreateError, CreateRefused, Engine, EngineStart, EngineStartWhy, OpenError,
    OpenRefused, Parts, Phase,
};
pub use finishing::{Finish, finish_piece};
pub use fitting::{StartLimit, fits};
pub use flushing::flush;
pub use gates::{Answer, Gate};
pub use group::{Flush, Group, GroupEnd};
pub use queued::{MOST_QUEUED, Queued};
pub use queueing::queue;
pub use replies::Queue;
