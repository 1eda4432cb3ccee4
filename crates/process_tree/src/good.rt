// Which steps are within the limits and differ in name.
ghost use Rattle.std.specs.Prelude.{◌≡◌, ◌<◌, [], length, map, IfSome};
ghost use Rattle.std.specs.List.{list_any};
ghost use Rattle.process_tree.specs.Making.{are_tries, are_refusals, has_good_options, is_amount, is_good_step, same_text};
ghost use Rattle.process_tree.specs.Making.{first_same_name, first_bad_step};

use crate::{DEFAULT_TRIES, MOST_AMOUNT, MOST_REFUSALS, MOST_TRIES, Step, StepKind};

fn is_amount(amount: i64) -> bool
    ensures { result ≡ is_amount amount }
{
    -MOST_AMOUNT <= amount && amount <= MOST_AMOUNT
}

fn are_tries(tries: u8) -> bool
    ensures { result ≡ are_tries tries }
{
    1 <= tries && tries <= MOST_TRIES
}

fn are_refusals(refusals: u8) -> bool
    ensures { result ≡ are_refusals refusals }
{
    refusals <= MOST_REFUSALS
}

fn has_good_options(step: &Step) -> bool
    ensures { result ≡ has_good_options step.now.kind step.now }
{
    match step.kind {
        StepKind::C => {
            step.tries == DEFAULT_TRIES
                && are_tries(step.undo_tries)
                && are_refusals(step.refuse)
                && are_refusals(step.undo_refuse)
        }
        StepKind::P => {
            step.tries == DEFAULT_TRIES
                && step.undo_tries == DEFAULT_TRIES
                && are_refusals(step.refuse)
                && step.undo_refuse == 0
        }
        StepKind::R => {
            are_tries(step.tries)
                && step.undo_tries == DEFAULT_TRIES
                && are_refusals(step.refuse)
                && step.undo_refuse == 0
        }
        StepKind::Cr => {
            are_tries(step.tries)
                && are_tries(step.undo_tries)
                && are_refusals(step.refuse)
                && are_refusals(step.undo_refuse)
        }
    }
}

fn is_good_step(step: &Step) -> bool
    ensures { result ≡ is_good_step step.now }
{
    is_amount(step.amount) && has_good_options(step)
}

fn is_same_text(text: &[u8], other: &[u8]) -> bool
    ensures { result ≡ same_text text.now other.now }
{
    text == other
}

fn has_name(steps: &[&Step], name: &[u8]) -> bool
    ensures { result ≡ list_any (λ s. same_text name.now s.now.name) steps.now }
{
    steps
        .iter()
        .any(|step| is_same_text(name, step.name.bytes()))
}

/// The first step that has the name of an earlier one.
pub fn first_same_name(steps: &[&Step]) -> Option<usize>
    ensures first { result ≡ first_same_name 0 [] (map (λ s. s.now) steps.now) }
    ensures within { IfSome result (λ place. place < length steps.now) }
{
    for (place, step) in steps.iter().enumerate() {
        if has_name(&steps[..place], step.name.bytes()) {
            return Some(place);
        }
    }
    None
}

/// The first step that is out of its limits.
pub fn first_bad_step(steps: &[&Step]) -> Option<usize>
    ensures first { result ≡ first_bad_step 0 (map (λ s. s.now) steps.now) }
    ensures within { IfSome result (λ place. place < length steps.now) }
{
    steps.iter().position(|step| !is_good_step(step))
}
