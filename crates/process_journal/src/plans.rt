// The plan of a start's text.
ghost use Rattle.std.specs.Prelude.{◌≡◌, ◌≢◌, ◌↔◌, false, ◌∷◌, [], IfOk, IsTrue, MatchOption};
ghost use Rattle.process_tree.specs.declared.plan.Plan.{Plan};
ghost use Rattle.process_tree.specs.declared.tree.Named.{Named};
ghost use Rattle.process_tree.specs.Shape.{shape_of};
ghost use Rattle.process_tree.specs.Termination.{IsWellFormed};
ghost use Rattle.process_text.specs.Words.{words_of};
ghost use Rattle.process_text.specs.Grammar.{IsReading};
ghost use Rattle.commute_table.specs.Operations.{IsCatalog};
ghost use Rattle.process_journal.specs.Plans.{IsTextOf, IsPlanOfText};

use commute_table::{BindError, Catalog, bind};
use process_text::{TextError, print, read};
use process_tree::{Named, Plan, Tree};
use std::alloc::{AllocError, Global};
use well_formed::{Verdict, check};

// The one process of these, if there is one and no other.
fn only(found: Vec<Named>) -> Option<Named>
    ensures { MatchOption result ((p : Named) → ¬ (found.items ≡ p ∷ [])) (λ p. found.items ≡ p ∷ []) }
{
    let mut found = found;
    let last = found.pop()?;
    if found.is_empty() { Some(last) } else { None }
}

fn is_memory(error: &TextError) -> bool
    ensures { result ≡ false → error.now ≢ TextError.NoMemory }
{
    matches!(error, TextError::NoMemory)
}

// The one process that a text is read as, if it is.
fn only_process(alloc: Global, text: &[u8]) -> Result<Option<Named>, AllocError>
    ensures { IfOk result
        (λ found. MatchOption found ((p : Named) → ¬ IsReading (words_of text.now) (p ∷ []))
        (λ p. IsReading (words_of text.now) (p ∷ []))) }
{
    match read(alloc, text) {
        Ok(found) => Ok(only(found)),
        Err(error) => {
            if is_memory(&error) {
                return Err(AllocError);
            }
            Ok(None)
        }
    }
}

// The process whose canonical text this is, if it is one's.
fn process_of(alloc: Global, text: &[u8]) -> Result<Option<Named>, AllocError>
    ensures { IfOk result (λ found. MatchOption found ((p : Named) → ¬ IsTextOf text.now p) (IsTextOf text.now)) }
{
    let Some(named) = only_process(alloc, text)? else {
        return Ok(None);
    };
    let canonical = print(alloc, &named.name, &named.tree)?;
    if canonical.as_slice() == text {
        Ok(Some(named))
    } else {
        Ok(None)
    }
}

fn is_well_formed(alloc: Global, tree: &Tree) -> Result<bool, AllocError>
    ensures { IfOk result (λ good. IsTrue good ↔ IsWellFormed (shape_of tree.now)) }
{
    match check(alloc, tree) {
        Verdict::Good => Ok(true),
        Verdict::Stuck { .. } | Verdict::Unreachable { .. } => Ok(false),
        Verdict::NoMemory => Err(AllocError),
    }
}

#[tactic(auto, using(crate::proofs::TextPlans::is_plan))]
/// The plan of a text under a catalog, if it has one.
pub fn plan_of(alloc: Global, text: &[u8], catalog: &Catalog) -> Result<Option<Plan>, AllocError>
    requires { IsCatalog catalog.now }
    ensures { IfOk result
        (λ found. MatchOption found ((p : Plan) → ¬ IsPlanOfText catalog.now text.now p) (IsPlanOfText catalog.now text.now)) }
{
    let Some(named) = process_of(alloc, text)? else {
        return Ok(None);
    };
    if !is_well_formed(alloc, &named.tree)? {
        return Ok(None);
    }
    match bind(alloc, named, catalog) {
        Ok(plan) => Ok(Some(plan)),
        Err(BindError::UnknownOp(_)) => Ok(None),
        Err(BindError::NoMemory) => Err(AllocError),
    }
}
