// The command `expand`.
ghost use Rattle.command_input.specs.Inputs.{input};
ghost use Rattle.process_top.specs.Expand.{IsExpandDue};
ghost use Rattle.process_top.specs.Said.{Says};

use command_input::{Said, text_of, text_refusal};
use command_refusals::{Refusal, Status};
use process_flow::Source;
use std::alloc::Global;

/// The plain text of the source's text, in which `then` may stand behind a choice.
pub fn expand<S: Source>(alloc: Global, source: &mut S) -> Result<Said, Refusal>
    ensures { Says (IsExpandDue (input S.Source source.old) (input S.Source source.new)) result }
{
    let text = text_of(alloc, source)?;
    match process_expand::expand(alloc, &text) {
        Ok(text) => Ok(Said {
            text,
            status: Status::Done,
        }),
        Err(error) => Err(text_refusal(error)),
    }
}
