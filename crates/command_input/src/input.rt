// The input of a command.
ghost use Rattle.std.specs.Prelude.{◌≡◌, IfOk, IfErr};
ghost use Rattle.command_input.specs.Inputs.{input, HasNoText, IsRead, IsRefused, IsWholeText, text_refusal, text_tests};

use command_refusals::{Quantity, Refusal};
use process_flow::{ReadError, Source, read_all};
use process_text::{TextError, read};
use process_tree::Named;
use std::alloc::Global;

const MOST_INPUT: u32 = 1048576;

/// The whole text of the source.
pub fn text_of<S: Source>(alloc: Global, source: &mut S) -> Result<Vec<u8>, Refusal>
    ensures text { IfOk result (λ text. IsWholeText (input S.Source source.old) (input S.Source source.new) text.items) }
    ensures refused { IfErr result (λ r. HasNoText r (input S.Source source.old) (input S.Source source.new)) }
{
    match read_all(alloc, source, MOST_INPUT) {
        Ok(text) => Ok(text),
        Err(ReadError::TooLong) => Err(Refusal::Limit(Quantity::Input, MOST_INPUT + 1)),
        Err(ReadError::ReadFault) => Err(Refusal::ReadFault),
        Err(ReadError::NoMemory) => Err(Refusal::NoMemory),
    }
}

/// What is told of a text that was not read.
pub fn text_refusal(error: TextError) -> Refusal
    ensures { result ≡ text_refusal error }
{
    match error {
        TextError::NoMemory => Refusal::NoMemory,
        error => Refusal::Text(error),
    }
}

/// The processes of the source's text.
pub fn processes_of<S: Source>(alloc: Global, source: &mut S) -> Result<Vec<Named>, Refusal>
    ensures read { IfOk result (λ processes. IsRead (input S.Source source.old) (input S.Source source.new) processes.items) }
    ensures refused { IfErr result (λ r. IsRefused text_tests r (input S.Source source.old) (input S.Source source.new)) }
{
    let text = text_of(alloc, source)?;
    match read(alloc, &text) {
        Ok(processes) => Ok(processes),
        Err(error) => Err(text_refusal(error)),
    }
}
