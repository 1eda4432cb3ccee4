// Saying it.
ghost use Rattle.std.specs.Prelude.{◌≡◌, map, string_bytes, true};
ghost use Rattle.std.specs.Option.{option_map};
ghost use Rattle.command_input.specs.Outputs.{output};
ghost use Rattle.diagnostics.specs.Diagnostics.{takes_memory, IsSaidBeside};

use crate::said::{beside, takes_memory};
use command_input::tell;
use command_refusals::{Refusal, Status};
use process_flow::Sink;
use refusal_hints::{ending_hint, starved_hint};
use std::alloc::Global;

// Says what is found, or that memory was wanting for it.
fn tell_found<E: Sink>(
    alloc: Global,
    errors: &mut E,
    words: &[String],
    status: u8,
    refused: Option<Refusal>,
    input: Option<Vec<u8>>,
)
    requires { takes_memory (map string_bytes words.now) status refused ≡ true }
    ensures { IsSaidBeside (map string_bytes words.now) status refused (option_map (λ i. i.items) input)
        (output E.Sink errors.old) (output E.Sink errors.new) }
{
    match beside(alloc, words, status, refused, input) {
        Ok(text) => {
            let _at = tell(errors, &text, Status::Done);
        }
        Err(_) => {
            let _at = tell(errors, starved_hint().as_bytes(), Status::Done);
        }
    }
}

/// Says what there is to say beside an answer on these words, at this status, with this refusal or none, of this input where it
/// fits. Where memory is wanting for it, it says that. A sink that fails is let be.
#[tactic(auto, using(crate::proofs::Beside::ended))]
pub fn tell_beside<E: Sink>(
    alloc: Global,
    errors: &mut E,
    words: &[String],
    status: u8,
    refused: Option<Refusal>,
    input: Option<Vec<u8>>,
)
    ensures { IsSaidBeside (map string_bytes words.now) status refused (option_map (λ i. i.items) input)
        (output E.Sink errors.old) (output E.Sink errors.new) }
{
    if takes_memory(words, status, &refused) {
        tell_found(alloc, errors, words, status, refused, input);
    } else {
        let _at = tell(errors, ending_hint(status).as_bytes(), Status::Done);
    }
}
