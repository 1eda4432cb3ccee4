// What comes next of a dialogue.
ghost use Rattle.std.specs.Prelude.{◌≡◌, ◌≤◌, ◌⊎◌, ◌++◌, ℕ, List, length, None, IfOk, IfErr, OnOk};
ghost use Rattle.std.specs.Io.KnownBytes.{Consumes};
ghost use Rattle.process_flow.specs.Causes.{Rose};
ghost use Rattle.trace_verify.specs.Lines.{cut};
ghost use Rattle.line_reader.specs.Taking.{IsReadAsNeeded, most_ahead};
ghost use Rattle.serve_run.specs.Dialogue.{IsNext};

use crate::faults::Fault;
use line_reader::{LineReader, TakeError, Taken};
use process_flow::Source;
use process_text::is_word;
use std::alloc::Global;

/// The greatest size of a line, in bytes.
const MOST_LINE: u32 = 65536;

/// What comes next.
#[derive(Drop)]
pub enum Next {
    Line(Vec<u8>),
    /// A line that is too long.
    LongLine,
    /// `stop`, or the end of the input.
    Stop,
}

/// Takes the next line.
pub fn next_line<S: Source>(
    alloc: Global,
    reader: &mut LineReader,
    source: &mut S,
) -> Result<Next, Fault>
    ensures next { IfOk result (IsNext reader.old reader.new (S.left source.old) (S.left source.new)) }
    ensures fault { IfErr result
        (λ f. ((f ≡ Fault.ReadFault) × Rose (S.faults source.old) (S.faults source.new)) ⊎ (f ≡ Fault.NoMemory)) }
    ensures later { S.faults source.old ≤ S.faults source.new }
    ensures quiet { OnOk result (S.faults source.new ≡ S.faults source.old) }
    // The source was called only where no line stood ready.
    ensures gave { IfErr result (λ f. (given : List ℕ) × Consumes (S.left source.old) (S.left source.new) given
        × (f ≡ Fault.ReadFault → cut 10 (reader.old ++ given) ≡ None) × IsReadAsNeeded reader.old given) }
    ensures ahead { length reader.new ≤ most_ahead }
{
    match reader.take_line(alloc, source, MOST_LINE) {
        Ok(Taken::Line(line)) => {
            if is_word(&line, b"stop") {
                Ok(Next::Stop)
            } else {
                Ok(Next::Line(line))
            }
        }
        Ok(Taken::LongLine) => Ok(Next::LongLine),
        Ok(Taken::End(_) | Taken::LongEnd) => Ok(Next::Stop),
        Err(TakeError::ReadFault) => Err(Fault::ReadFault),
        Err(TakeError::NoMemory) => Err(Fault::NoMemory),
    }
}
