// What is said beside an answer.
ghost use Rattle.std.specs.Prelude.{◌≡◌, map, string_bytes, true, IfOk};
ghost use Rattle.std.specs.Option.{option_map};
ghost use Rattle.refusal_hints.specs.Remedies.{ending_hint};
ghost use Rattle.diagnostics.specs.Diagnostics.{first_is, form_of, takes_memory, warns, AreWarningsIn, AreWarningsOf, IsBeside, IsHintOf};

use command_input::{Bound, scenario_of};
use command_refusals::Refusal;
use refusal_hints::{InputForm, ending_hint, hint, placeless_hint};
use scenario_warnings::{shown, warnings};
use std::alloc::{AllocError, Global};

// Whether this is the first of the words.
fn first_is(words: &[String], word: &str) -> bool
    ensures { result ≡ first_is word.now (map string_bytes words.now) }
{
    match words {
        [first, ..] => first.as_str() == word,
        _ => false,
    }
}

// What the input of a call with these words is.
fn form_of(words: &[String]) -> InputForm
    ensures { result ≡ form_of (map string_bytes words.now) }
{
    if first_is(words, "check") || first_is(words, "expand") {
        InputForm::Processes
    } else {
        InputForm::Scenario
    }
}

// Whether a call with these words that ended at this status looks for warnings.
fn warns(words: &[String], status: u8) -> bool
    ensures { result ≡ warns (map string_bytes words.now) status }
{
    first_is(words, "init") && (status == 0 || status == 3)
}

// The hint of a refusal of this input, where it fits.
fn hint_of(
    alloc: Global,
    form: InputForm,
    input: Option<Vec<u8>>,
    refusal: &Refusal,
) -> Result<Vec<u8>, AllocError>
    ensures { IfOk result (λ text. IsHintOf form (option_map (λ i. i.items) input) refusal.now text.items) }
{
    match input {
        Some(input) => hint(alloc, form, &input, refusal),
        None => placeless_hint(alloc, refusal),
    }
}

// The bytes of what is said of a status.
fn ending(alloc: Global, status: u8) -> Result<Vec<u8>, AllocError>
    ensures { IfOk result (λ text. text.items ≡ ending_hint status) }
{
    let mut text = Vec::new(alloc);
    text.extend_from_slice(ending_hint(status).as_bytes())?;
    Ok(text)
}

// The warnings of a scenario, if it is one with processes that can be played; and else what is to be said of the status.
fn warnings_in(alloc: Global, status: u8, input: &[u8]) -> Result<Vec<u8>, AllocError>
    ensures { IfOk result (λ text. AreWarningsIn status input.now text.items) }
{
    match scenario_of(alloc, input) {
        Ok(Bound { catalog, plans }) => {
            let found = warnings(alloc, &catalog, &plans)?;
            shown(alloc, &catalog, &plans, &found)
        }
        Err(_) => ending(alloc, status),
    }
}

// The same of an input that may not fit.
fn warnings_of(alloc: Global, status: u8, input: Option<Vec<u8>>) -> Result<Vec<u8>, AllocError>
    ensures { IfOk result (λ text. AreWarningsOf status (option_map (λ i. i.items) input) text.items) }
{
    match input {
        Some(input) => warnings_in(alloc, status, &input),
        None => ending(alloc, status),
    }
}

/// Whether memory may be wanting for what there is to say.
pub(crate) fn takes_memory(words: &[String], status: u8, refused: &Option<Refusal>) -> bool
    ensures { result ≡ takes_memory (map string_bytes words.now) status refused.now }
{
    match refused {
        Some(_) => true,
        None => warns(words, status),
    }
}

/// What there is to say beside an answer, where memory may be wanting for it.
#[tactic(auto, using(crate::proofs::Beside::warned))]
pub(crate) fn beside(
    alloc: Global,
    words: &[String],
    status: u8,
    refused: Option<Refusal>,
    input: Option<Vec<u8>>,
) -> Result<Vec<u8>, AllocError>
    requires { takes_memory (map string_bytes words.now) status refused ≡ true }
    ensures { IfOk result
        (λ text. IsBeside (map string_bytes words.now) status refused (option_map (λ i. i.items) input) text.items) }
{
    match refused {
        Some(refusal) => hint_of(alloc, form_of(words), input, &refusal),
        None => warnings_of(alloc, status, input),
    }
}
