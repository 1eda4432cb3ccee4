//! Reads the words after the program's name into a command. `clap` decides on the words behind a command's name, so a faulty
//! command line is exactly one that `clap` refuses. The contracts cite `specs/Commands`: the command that words ask for, or none.
//!
//! Commands are read by `read_words`, with NUMBER and COUNT, an option or the name of a command, where they take them.
//! The words that are compared here are the names of commands, and `--help`, `-h` and `--version`, which ask for help or for the
//! version where nothing stands behind them.
#![tactic(auto)]

mod arguments;
mod flags;
mod help;
mod names;
mod numbers;
mod reading;
mod refusals;
mod workers;

pub use names::CommandName;
pub use numbers::read_number_and_count;
pub use reading::{Command, read_words};
pub use refusals::WordsError;
pub use workers::read_workers;
