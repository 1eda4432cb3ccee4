// The document in an input, and what it is.
ghost use Rattle.std.specs.Prelude.{◌≤◌, IfOk, IfSome, length, option_map};
ghost use Rattle.toml.specs.View.{table_view};
ghost use Rattle.refusal_hints.specs.Pointing.{IsDocument, IsScenarioIn, IsTableIn, IsTomlFault};

use commute_table::{Scenario, ScenarioError, read_scenario};
use memchr::memmem;
use std::alloc::{AllocError, Global};
use toml::Table;

/// What an input is: a text of processes, or a scenario, behind which event lines may stand.
#[derive(Clone, Copy, Debug, PartialEq, Eq, Drop)]
pub enum InputForm {
    Processes,
    Scenario,
}

// The document: as far as the first line that is `%%`.
fn document(input: &[u8]) -> &[u8]
    ensures document { IsDocument input.now result.now }
    ensures within { length result.now ≤ length input.now }
{
    let n = match memmem::find(input, b"\n%%\n") {
        Some(n) => n,
        None => input.len(),
    };
    input.split_at(n).0
}

/// The scenario that stands in an input, if one does.
pub(crate) fn scenario_in(alloc: Global, input: &[u8]) -> Result<Option<Scenario>, AllocError>
    ensures { IfOk result (IsScenarioIn input.now) }
{
    match read_scenario(alloc, document(input)) {
        Ok(scenario) => Ok(Some(scenario)),
        Err(ScenarioError::NoMemory) => Err(AllocError),
        Err(ScenarioError::BadToml) => Ok(None),
        Err(ScenarioError::BadKey(_)) => Ok(None),
        Err(ScenarioError::UnknownOp(_)) => Ok(None),
        Err(ScenarioError::SameOp(_)) => Ok(None),
        Err(ScenarioError::Ops(_)) => Ok(None),
    }
}

/// The table of the document that stands in an input, if it is TOML.
pub(crate) fn table_in(alloc: Global, input: &[u8]) -> Result<Option<Table>, AllocError>
    ensures { IfOk result (λ t. IsTableIn input.now (option_map table_view t)) }
{
    match toml::table_from_slice(alloc, document(input)) {
        Ok(table) => Ok(Some(table)),
        Err(error) => {
            if error.is_memory() {
                Err(AllocError)
            } else {
                Ok(None)
            }
        }
    }
}

/// Where the document stops being TOML, if it does.
pub(crate) fn toml_fault(alloc: Global, input: &[u8]) -> Result<Option<usize>, AllocError>
    ensures fault { IfOk result (IsTomlFault input.now) }
    ensures within { IfOk result (λ n. IfSome n (λ n. n ≤ length input.now)) }
{
    let Err(error) = toml::table_from_slice(alloc, document(input)) else {
        return Ok(None);
    };
    if error.is_memory() {
        return Err(AllocError);
    }
    match error.span() {
        Some(span) => Ok(Some(span.start)),
        None => Err(AllocError),
    }
}
