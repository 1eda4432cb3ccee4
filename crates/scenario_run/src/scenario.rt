// The scenario of a source.
ghost use Rattle.std.specs.Prelude.{◌≡◌, IfOk, IfErr};
ghost use Rattle.commute_table.specs.Operations.{IsCatalog};
ghost use Rattle.command_input.specs.Inputs.{input};
ghost use Rattle.scenario_run.specs.Scenario.{IsNoScenarioRead, IsSaidOfNone, IsScenarioRead};

use command_input::{Bound, NoPlans, Said, scenario_of, text_of};
use command_refusals::{Refusal, Status};
use process_flow::Source;
use std::alloc::Global;

/// The catalog of the source's scenario, and the plans of its processes.
pub fn scenario_from<S: Source>(alloc: Global, source: &mut S) -> Result<Bound, NoPlans>
    ensures read { IfOk result
        (λ b. IsScenarioRead (input S.Source source.old) (input S.Source source.new) b.catalog b.plans.items) }
    ensures valid { IfOk result (λ b. IsCatalog b.catalog) }
    ensures refused { IfErr result (λ no. IsNoScenarioRead (input S.Source source.old) (input S.Source source.new) no) }
{
    let text = text_of(alloc, source)?;
    scenario_of(alloc, &text)
}

/// What there is to say where no processes were read.
pub fn said_of_none(none: NoPlans) -> Result<Said, Refusal>
    ensures { IsSaidOfNone (λ why. why ≡ none) result }
{
    match none {
        NoPlans::Refused(refusal) => Err(refusal),
        NoPlans::IllFormed(text) => Ok(Said {
            text,
            status: Status::IllFormed,
        }),
    }
}
