// What a command writes.
ghost use Rattle.std.specs.Prelude.{◌≡◌, ◌≤◌, string_bytes, IfOk};
ghost use Rattle.command_input.specs.Outputs.{output, refusal_line, IsTold};

use command_refusals::{Refusal, Status};
use process_flow::{Sink, write_all};
use std::alloc::{AllocError, Global};

/// Writes the text and answers the status, or that of a write fault.
pub fn tell<K: Sink>(sink: &mut K, text: &[u8], status: Status) -> Status
    ensures told { IsTold status text.now (output K.Sink sink.old) (output K.Sink sink.new) result }
    ensures later { K.faults sink.old ≤ K.faults sink.new }
{
    match write_all(sink, text) {
        Ok(()) => status,
        Err(_) => Status::WriteFault,
    }
}

/// The line of a refusal.
pub fn refusal_line(alloc: Global, refusal: &Refusal) -> Result<String, AllocError>
    ensures { IfOk result (λ line. string_bytes line ≡ refusal_line refusal.now) }
{
    format!(in alloc; "{refusal}\n")
}
