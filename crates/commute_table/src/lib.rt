//! The catalog: which operations there are, on which subsystems and with which verbs, and when steps of them conflict.
//!
//! `specs/Operations` says which catalogs are valid, `specs/Bytes` which bytes stand for each and where bytes stop being any
//! catalog's, `specs/Document` what a scenario says and what is refused of one first, and `specs/Binding` what the plan of
//! a process is. The layers above read scenarios, write and read catalogs, and bind trees to them. The text of processes
//! is passed on as it stands: reading it is no work of this crate, and neither is printing a refusal.
#![tactic(auto)]

mod binding;
mod catalog;
mod document;
mod errors;
mod laws;
mod op;
mod pairs;
mod reading;
mod scenario;
mod word;

pub use binding::bind;
pub use catalog::{Catalog, MOST_OPERATIONS, catalog_bytes};
pub use errors::{BindError, CatalogError, ScenarioError};
pub use laws::no_catalog_begins_another;
pub use op::{Op, Ops, Verb};
pub use reading::read_catalog;
pub use scenario::{Scenario, read_scenario};
pub use word::{Text, Word};
