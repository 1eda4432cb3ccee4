// The lines of a scenario, one after another.
ghost use Rattle.std.specs.Prelude.{◌≡◌, ◌≤◌, ◌⊎◌, ◌∷◌, ◌++◌, [], List, ℕ, length, Option, IfOk, IfErr, OnOk};
ghost use Rattle.process_flow.specs.Causes.{Rose};
ghost use Rattle.command_input.specs.Inputs.{most_input};
ghost use Rattle.line_reader.specs.Taking.{IsEndOf, IsFirstOf, most_ahead};
ghost use Rattle.line_reader.specs.declared.taken.TakeError.TheVariants as errors;
ghost use Rattle.command_refusals.specs.declared.refusal.Refusal.TheVariants as refusals;
ghost use Rattle.driver_input.specs.Parts.{IsLastOf, IsPartOf, IsPartTaken};

use command_refusals::Refusal;
use line_reader::{LineReader, TakeError, Taken};
use process_flow::Source;
use process_text::is_word;
use std::alloc::{AllocError, Global};

/// The greatest size of a scenario, in bytes.
pub const MOST_INPUT: u32 = 1048576;

/// What the next line is to a scenario.
#[derive(Clone, Copy)]
pub enum Part {
    Line,
    /// It is the mark behind the scenario.
    Mark,
    /// There is no more line.
    End,
    /// It has more bytes than a scenario may have.
    Long,
}

// What is told of a line that wasn't taken.
fn take_refusal(error: TakeError) -> Refusal
    ensures fault { result ≡ refusals.ReadFault → error ≡ errors.ReadFault }
    ensures which { (result ≡ refusals.ReadFault) ⊎ (result ≡ refusals.NoMemory) }
{
    match error {
        TakeError::ReadFault => Refusal::ReadFault,
        TakeError::NoMemory => Refusal::NoMemory,
    }
}

// Adds a line with its line feed.
fn add_line(text: &mut Vec<u8>, line: &[u8]) -> Result<(), AllocError>
    ensures { OnOk result (text.new.items ≡ text.old.items ++ (line.now ++ (10 ∷ []))) }
{
    text.extend_from_slice(line)?;
    text.push(b'\n')?;
    Ok(())
}

// Adds what was taken to a scenario.
fn add(scenario: &mut Vec<u8>, taken: Taken) -> Result<Part, AllocError>
    ensures part { IfOk result
        (λ part. (bytes left : List ℕ) → IsFirstOf most_input bytes left taken
        → IsPartOf bytes left scenario.old.items scenario.new.items part) }
    ensures last { IfOk result (λ part. (after : Option (List ℕ)) → IsEndOf after taken → IsLastOf after part) }
{
    match taken {
        Taken::Line(line) => {
            if is_word(&line, b"%%") {
                return Ok(Part::Mark);
            }
            add_line(scenario, &line)?;
            Ok(Part::Line)
        }
        Taken::End(rest) => {
            if !is_word(&rest, b"%%") {
                scenario.extend_from_slice(&rest)?;
            }
            Ok(Part::End)
        }
        Taken::LongLine | Taken::LongEnd => Ok(Part::Long),
    }
}

/// Takes the next line of a source into a scenario.
pub fn take_part<S: Source>(
    alloc: Global,
    reader: &mut LineReader,
    source: &mut S,
    scenario: &mut Vec<u8>,
) -> Result<Part, Refusal>
    ensures part { IfOk result
        (IsPartTaken reader.old reader.new scenario.old.items scenario.new.items (S.left source.old) (S.left source.new)) }
    ensures ahead { length reader.new ≤ most_ahead }
    ensures refused { IfErr result
        (λ r. ((r ≡ refusals.ReadFault) × Rose (S.faults source.old) (S.faults source.new)) ⊎ (r ≡ refusals.NoMemory)) }
    ensures later { S.faults source.old ≤ S.faults source.new }
    ensures quiet { OnOk result (S.faults source.new ≡ S.faults source.old) }
{
    match reader.take_line(alloc, source, MOST_INPUT) {
        Ok(taken) => Ok(add(scenario, taken)?),
        Err(error) => Err(take_refusal(error)),
    }
}
