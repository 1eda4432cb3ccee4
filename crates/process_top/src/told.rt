// Telling what there is to say.
ghost use Rattle.std.specs.Prelude.{◌≡◌, ◌≤◌, ◌⊎◌};
ghost use Rattle.command_refusals.specs.declared.refusal.Refusal.TheVariants.{NoMemory};
ghost use Rattle.serve_run.specs.Serve.{OnEnding};
ghost use Rattle.process_top.specs.Said.{IsResultTold};
ghost use Rattle.process_top.specs.Told.{output, IsLineTold, IsRefusalTold};

use command_input::{Said, refusal_line, tell};
use command_refusals::{Refusal, Status};
use process_flow::Sink;
use serve_run::Ending;
use std::alloc::Global;

// Writes the line of a refusal, or that there is no memory for it.
fn tell_line<K: Sink>(alloc: Global, sink: &mut K, refusal: &Refusal) -> Status
    ensures told { IsLineTold refusal.now (output K.Sink sink.old) (output K.Sink sink.new) result
        ⊎ IsLineTold NoMemory (output K.Sink sink.old) (output K.Sink sink.new) result }
    ensures later { K.faults sink.old ≤ K.faults sink.new }
{
    match refusal_line(alloc, refusal) {
        Ok(line) => tell(sink, line.as_bytes(), refusal.status()),
        Err(_) => tell(sink, b"no memory\n", Status::NoMemory),
    }
}

// Writes the line of a refusal and answers its status; or says that there is no memory for a line that needs it.
fn tell_refusal<K: Sink>(alloc: Global, sink: &mut K, refusal: &Refusal) -> Status
    ensures told { IsRefusalTold refusal.now (output K.Sink sink.old) (output K.Sink sink.new) result }
    ensures later { K.faults sink.old ≤ K.faults sink.new }
{
    match refusal.fixed_line() {
        Some(line) => tell(sink, line, refusal.status()),
        None => tell_line(alloc, sink, refusal),
    }
}

// Tells what a command has to say, or why it did not do what it is for.
fn tell_result<K: Sink>(alloc: Global, sink: &mut K, found: &Result<Said, Refusal>) -> Status
    ensures told { IsResultTold found.now (output K.Sink sink.old) (output K.Sink sink.new) result }
    ensures later { K.faults sink.old ≤ K.faults sink.new }
{
    match found {
        Ok(said) => tell(sink, &said.text, said.status),
        Err(refusal) => tell_refusal(alloc, sink, refusal),
    }
}

/// Tells what is still to be told. The status with which the call ends.
pub fn tell_ending<K: Sink>(alloc: Global, sink: &mut K, ending: &Ending) -> Status
    ensures told { OnEnding (λ at. (result ≡ at) × (output K.Sink sink.new ≡ output K.Sink sink.old))
        (λ found. IsResultTold found (output K.Sink sink.old) (output K.Sink sink.new) result) ending.now }
    ensures later { K.faults sink.old ≤ K.faults sink.new }
{
    match ending {
        Ending::Told(status) => *status,
        Ending::Due(found) => tell_result(alloc, sink, found),
    }
}
