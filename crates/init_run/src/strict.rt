// What is held against a scenario where `init` is to be strict.
ghost use Rattle.std.specs.Prelude.{◌≡◌, [], true, IfErr, IfOk, OnOk};
ghost use Rattle.commute_table.specs.Operations.{IsCatalog};
ghost use Rattle.command_refusals.specs.declared.refusal.Refusal.TheVariants.{NoMemory};
ghost use Rattle.init_run.specs.declared.strict.Unmade.TheVariants as unmade;
ghost use Rattle.scenario_warnings.specs.Warnings.{warnings};
ghost use Rattle.init_run.specs.Init.{IsWithoutWarning, SaysWarned};
ghost use Rattle.init_run.specs.Strict.{IsHeld, IsWarnedOf};

use command_input::{NoPlans, Said, good_plans};
use command_refusals::{Refusal, Status};
use commute_table::Catalog;
use process_tree::Plan;
use scenario_warnings::warnings;
use std::alloc::{AllocError, Global};

/// Why no files are made: what is refused, or what is said of the scenario's processes.
#[derive(Drop)]
pub enum Unmade {
    Refused(Refusal),
    Held(Said),
}

impl From<AllocError> for Unmade {
    ghost from_gives = { λ _ u. u ≡ unmade.Refused NoMemory };

    fn from(_: AllocError) -> Self {
        Unmade::Refused(Refusal::NoMemory)
    }
}

impl From<Refusal> for Unmade {
    ghost from_gives = { λ r u. u ≡ unmade.Refused r };

    fn from(refusal: Refusal) -> Self {
        Unmade::Refused(refusal)
    }
}

// The line of a scenario that is warned of so often.
fn warned_line(alloc: Global, count: usize) -> Result<Said, AllocError>
    ensures { IfOk result (SaysWarned count) }
{
    let line = format!(in alloc; "warned {count}\n")?;
    let mut text = Vec::new(alloc);
    text.extend_from_slice(line.as_bytes())?;
    Ok(Said {
        text,
        status: Status::IllFormed,
    })
}

// Nothing, where there is nothing to warn of.
fn unwarned(alloc: Global, c: &Catalog, plans: &[Plan]) -> Result<(), Unmade>
    requires { IsCatalog c.now }
    ensures none { OnOk result (warnings c.now plans.now ≡ []) }
    ensures some { IfErr result (IsWarnedOf c.now plans.now) }
{
    let found = warnings(alloc, c, plans)?;
    if found.is_empty() {
        return Ok(());
    }
    let said = warned_line(alloc, found.len())?;
    Err(Unmade::Held(said))
}

/// Nothing, where it isn't to be strict, or the text is that of processes of which there is nothing to warn.
pub fn strictly(alloc: Global, strict: bool, c: &Catalog, processes: &[u8]) -> Result<(), Unmade>
    requires { IsCatalog c.now }
    ensures quiet { OnOk result (strict ≡ true → IsWithoutWarning c.now processes.now) }
    ensures held { IfErr result (IsHeld strict c.now processes.now) }
{
    if !strict {
        return Ok(());
    }
    match good_plans(alloc, processes, c) {
        Ok(plans) => unwarned(alloc, c, &plans),
        Err(NoPlans::Refused(refusal)) => Err(Unmade::Refused(refusal)),
        Err(NoPlans::IllFormed(text)) => Err(Unmade::Held(Said {
            text,
            status: Status::IllFormed,
        })),
    }
}
