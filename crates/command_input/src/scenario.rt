// The scenario of a command: its catalog and the plans of its processes.
ghost use Rattle.std.specs.Prelude.{◌≡◌, ◌⊎◌, Ok, IfOk, IfErr};
ghost use Rattle.command_refusals.specs.declared.refusal.Refusal.TheVariants.{NoMemory};
ghost use Rattle.commute_table.specs.declared.errors.ScenarioError.TheVariants.{BadKey, UnknownOp};
ghost use Rattle.commute_table.specs.Binding.{IsPlanOf};
ghost use Rattle.process_text.specs.Words.{words_of};
ghost use Rattle.process_text.specs.Grammar.{IsReading};
ghost use Rattle.commute_table.specs.Operations.{IsCatalog};
ghost use Rattle.commute_table.specs.Document.{Says};
ghost use Rattle.command_input.specs.declared.scenario.NoPlans.TheVariants.{Refused};
ghost use Rattle.command_input.specs.Scenarios.{scenario_refusal, ArePlansOf, AreGoodPlans, AreNoGoodPlans, AreNoPlans, IsBound};
ghost use Rattle.command_input.specs.Scenarios.{IsNoPlanOf, IsNoScenario, IsNoText, IsNotBound};

use crate::input::text_refusal;
use command_refusals::{Quantity, Refusal, ScenarioFault, ShownWord, first_verdict};
use commute_table::{BindError, Catalog, Scenario, ScenarioError, bind, read_scenario};
use process_text::read;
use process_tree::{Named, Plan};
use std::alloc::{AllocError, Global};

/// What a scenario gives a command.
#[derive(Drop)]
pub struct Bound {
    pub catalog: Catalog,
    /// The plans of its processes, in the order of the text.
    pub plans: Vec<Plan>,
}

/// Why a scenario gives no plans.
#[derive(Drop)]
pub enum NoPlans {
    Refused(Refusal),
    /// The verdict line of the first process that is not well-formed.
    IllFormed(Vec<u8>),
}

impl From<AllocError> for NoPlans {
    ghost from_gives = { λ _ n. n ≡ Refused NoMemory };

    fn from(_: AllocError) -> Self {
        NoPlans::Refused(Refusal::NoMemory)
    }
}

impl From<Refusal> for NoPlans {
    ghost from_gives = { λ r n. n ≡ Refused r };

    fn from(refusal: Refusal) -> Self {
        NoPlans::Refused(refusal)
    }
}

// What is told of a key.
fn bad_key(alloc: Global, key: &[u8]) -> Refusal
    ensures { (result ≡ NoMemory) ⊎ (result ≡ scenario_refusal (BadKey key.now)) }
{
    match ShownWord::new(alloc, key) {
        Ok(key) => Refusal::Scenario(ScenarioFault::BadKey(key)),
        Err(_) => Refusal::NoMemory,
    }
}

// What is told of an operation that there isn't.
fn unknown_operation(alloc: Global, name: &[u8]) -> Refusal
    ensures { (result ≡ NoMemory) ⊎ (result ≡ scenario_refusal (UnknownOp name.now)) }
{
    match ShownWord::new(alloc, name) {
        Ok(name) => Refusal::Scenario(ScenarioFault::UnknownOperation(name)),
        Err(_) => Refusal::NoMemory,
    }
}

// What is told of a document that is no scenario.
fn scenario_refusal(alloc: Global, error: ScenarioError) -> Refusal
    ensures { (result ≡ NoMemory) ⊎ (result ≡ scenario_refusal error) }
{
    match error {
        ScenarioError::BadToml => Refusal::Scenario(ScenarioFault::BadToml),
        ScenarioError::BadKey(key) => bad_key(alloc, key.bytes()),
        ScenarioError::UnknownOp(name) => unknown_operation(alloc, name.bytes()),
        ScenarioError::SameOp(name) => Refusal::Scenario(ScenarioFault::SameOperation(name)),
        ScenarioError::Ops(n) => Refusal::Limit(Quantity::Operations, n),
        ScenarioError::NoMemory => Refusal::NoMemory,
    }
}

/// What a document says, before its processes are read.
pub fn document_of(alloc: Global, bytes: &[u8]) -> Result<Scenario, Refusal>
    ensures says { IfOk result (λ s. Says bytes.now (Ok s)) }
    ensures valid { IfOk result (λ s. IsCatalog s.catalog) }
    ensures refused { IfErr result (λ r. IsNoScenario bytes.now r) }
{
    match read_scenario(alloc, bytes) {
        Ok(scenario) => Ok(scenario),
        Err(error) => Err(scenario_refusal(alloc, error)),
    }
}

// The processes of a text.
fn processes_in(alloc: Global, text: &[u8]) -> Result<Vec<Named>, Refusal>
    ensures read { IfOk result (λ processes. IsReading (words_of text.now) processes.items) }
    ensures refused { IfErr result (λ r. IsNoText text.now r) }
{
    match read(alloc, text) {
        Ok(processes) => Ok(processes),
        Err(error) => Err(text_refusal(error)),
    }
}

// The plan of a process.
fn plan_of(alloc: Global, process: Named, c: &Catalog) -> Result<Plan, Refusal>
    requires { IsCatalog c.now }
    ensures plan { IfOk result (λ plan. IsPlanOf process c.now.ops plan) }
    ensures refused { IfErr result (λ r. IsNoPlanOf c.now.ops process r) }
{
    match bind(alloc, process, c) {
        Ok(plan) => Ok(plan),
        Err(BindError::UnknownOp(name)) => Err(unknown_operation(alloc, name.bytes())),
        Err(BindError::NoMemory) => Err(Refusal::NoMemory),
    }
}

// The plans of processes.
fn plans_of(alloc: Global, processes: Vec<Named>, c: &Catalog) -> Result<Vec<Plan>, Refusal>
    requires { IsCatalog c.now }
    ensures plans { IfOk result (λ plans. ArePlansOf c.now.ops processes.items plans.items) }
    ensures refused { IfErr result (λ r. AreNoPlans c.now.ops processes.items r) }
{
    let mut rest = processes.into_iter();
    let mut plans = Vec::new(alloc);
    while let Some(process) = rest.next() {
        let plan = plan_of(alloc, process, c)?;
        plans.push(plan)?;
    }
    Ok(plans)
}

/// The plans of the processes of a text, or the verdict line of the first that is not well-formed.
pub fn good_plans(alloc: Global, text: &[u8], c: &Catalog) -> Result<Vec<Plan>, NoPlans>
    requires { IsCatalog c.now }
    ensures plans { IfOk result (λ plans. AreGoodPlans c.now.ops text.now plans.items) }
    ensures refused { IfErr result (λ r. AreNoGoodPlans c.now.ops text.now r) }
{
    let processes = processes_in(alloc, text)?;
    let first = first_verdict(alloc, &processes)?;
    let plans = plans_of(alloc, processes, c)?;
    match first {
        Some(line) => Err(NoPlans::IllFormed(line)),
        None => Ok(plans),
    }
}

/// What a scenario gives a command.
pub fn scenario_of(alloc: Global, bytes: &[u8]) -> Result<Bound, NoPlans>
    ensures bound { IfOk result (λ b. IsBound bytes.now b.catalog b.plans.items) }
    ensures valid { IfOk result (λ b. IsCatalog b.catalog) }
    ensures refused { IfErr result (λ r. IsNotBound bytes.now r) }
{
    let Scenario { catalog, processes } = document_of(alloc, bytes)?;
    let plans = good_plans(alloc, processes.bytes(), &catalog)?;
    Ok(Bound { catalog, plans })
}
