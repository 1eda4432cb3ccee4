//! The operations of one catalog under the conflicts of another: each conflicts as the one of its name does there.
//!
//! `under` answers that catalog, and `first_unknown` names the first operation of some plans that the other lacks (`specs/Under`). So
//! a history that was kept under one table of conflicts is asked about another, and stays as it is.
#![tactic(auto)]

mod naming;

pub use naming::{first_unknown, under};
