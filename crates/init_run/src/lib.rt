//! The command `init`: nine empty files become those of a scenario's catalog, in which nothing has happened (`specs/Init`). The
//! front door answers it beside the other commands. `create_refusal` says of files that were not made what `init` would.
#![tactic(auto)]

mod creating;
mod strict;

pub use creating::{create_refusal, init};
