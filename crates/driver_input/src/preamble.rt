// The scenario in front of the lines of a driver.
ghost use Rattle.std.specs.Prelude.{◌≡◌, ◌≤◌, ◌<◌, [], length, IfOk, IfErr};
ghost use Rattle.command_input.specs.Inputs.{input, most_input};
ghost use Rattle.line_reader.specs.Taking.{most_ahead};
ghost use Rattle.command_refusals.specs.declared.faults.Quantity.TheVariants as quantities;
ghost use Rattle.command_refusals.specs.declared.refusal.Refusal.TheVariants as refusals;
ghost use Rattle.driver_input.specs.Preamble.{HasNoScenario, IsScenarioTaken};

use crate::parts::{MOST_INPUT, Part, take_part};
use command_refusals::{Quantity, Refusal};
use line_reader::LineReader;
use process_flow::Source;
use std::alloc::Global;

/// A scenario, and the number of the first line behind its mark.
pub struct Preamble {
    pub scenario: Vec<u8>,
    pub first: u64,
}

// What is told of a scenario that is too long.
fn too_long() -> Refusal
    ensures { result ≡ refusals.Limit quantities.Input 1048577 }
{
    Refusal::Limit(Quantity::Input, MOST_INPUT + 1)
}

// Refuses a scenario that is too long.
fn within(scenario: Vec<u8>, first: u64) -> Result<Preamble, Refusal>
    ensures same { IfOk result
        (λ p. (p.scenario.items ≡ scenario.items) × (p.first ≡ first) × (length scenario.items ≤ most_input)) }
    ensures refused { IfErr result (λ r. (r ≡ refusals.Limit quantities.Input 1048577) × (most_input < length scenario.items)) }
{
    if scenario.len() > MOST_INPUT as usize {
        return Err(too_long());
    }
    Ok(Preamble { scenario, first })
}

/// Takes the scenario of a source, and its mark. Without a mark all is the scenario.
pub fn take_scenario<S: Source>(
    alloc: Global,
    reader: &mut LineReader,
    source: &mut S,
) -> Result<Preamble, Refusal>
    requires { reader.old ≡ [] }
    ensures taken { IfOk result (λ p. IsScenarioTaken (S.left source.old) (S.left source.new) p.scenario.items reader.new p.first) }
    // No more stands ready than a source is asked for at once.
    ensures ahead { length reader.new ≤ most_ahead }
    ensures refused { IfErr result (λ r. HasNoScenario r (input S.Source source.old) (input S.Source source.new)) }
    ensures later { S.faults source.old ≤ S.faults source.new }
{
    reader.invariant_holds();
    let mut scenario = Vec::new(alloc);
    let mut number = 1;
    while scenario.len() <= MOST_INPUT as usize {
        match take_part(alloc, reader, source, &mut scenario)? {
            Part::Line => number += 1,
            Part::Mark => return within(scenario, number + 1),
            Part::End => return within(scenario, number),
            Part::Long => return Err(too_long()),
        }
    }
    Err(too_long())
}
