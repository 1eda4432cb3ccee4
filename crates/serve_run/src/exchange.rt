// One line of a driver and its answer.
ghost use Rattle.std.specs.Prelude.{◌≡◌, ◌≤◌, ◌⊎◌, ℕ, List, [], length, IfNone, IfSome, IfOk};
ghost use Rattle.std.specs.Io.KnownBytes.{Appends};
ghost use Rattle.process_flow.specs.Causes.{Rose};
ghost use Rattle.process_tree.specs.Order.{Each};
ghost use Rattle.process_text.specs.Canonical.{line_of};
ghost use Rattle.history_files.specs.Standing.{EachFits};
ghost use Rattle.engine_steps.specs.Beginning.{IsPlanFor};
ghost use Rattle.engine_calls.specs.Runs.{GoesOn, IsReady};
ghost use Rattle.session_play.specs.AtHand.{hand_of, AreAtHand};
ghost use Rattle.command_refusals.specs.declared.status.Status.TheVariants.{NoMemory, WriteFault};
ghost use Rattle.command_input.specs.Outputs.{output, IsTold};
ghost use Rattle.driver_requests.specs.Answers.{bad_line_words};
ghost use Rattle.driver_answers.specs.Serving.{state_of, IsLineAnswered};
ghost use Rattle.serve_run.specs.Dialogue.{fault_line, most_line, next_number, state_at, Exchange, IsBetween, IsCutAmid};
ghost use Rattle.serve_run.specs.Dialogue.{IsExchange, IsOver};

use crate::faults::{Fault, fault_of, tell_fault};
use crate::taking::{Next, next_line};
use command_refusals::Status;
use driver_answers::{AtHand, answer_line};
use driver_requests::put_bad_line;
use line_reader::LineReader;
use process_disk::Rack;
use process_engine::Engine;
use process_flow::{Sink, Source, write_all};
use process_tree::Plan;
use resource_box::Resource;
use std::alloc::{AllocError, Global};

/// Gives a text. The status, if it was not taken whole.
pub fn give<K: Sink>(sink: &mut K, text: &[u8]) -> Option<Status>
    ensures whole { IfNone result
        (Appends (K.taken sink.old) (K.taken sink.new) text.now × (K.faults sink.new ≡ K.faults sink.old)) }
    ensures part { IfSome result
        (λ s. (s ≡ WriteFault) × IsTold WriteFault text.now (output K.Sink sink.old) (output K.Sink sink.new) s
        × Rose (K.faults sink.old) (K.faults sink.new)) }
{
    match write_all(sink, text) {
        Ok(()) => None,
        Err(_) => Some(Status::WriteFault),
    }
}

// `bad line N`
fn bad_line(alloc: Global, number: u64) -> Result<Vec<u8>, AllocError>
    ensures { IfOk result (λ text. text.items ≡ line_of (bad_line_words number)) }
{
    let mut text = Vec::new(alloc);
    put_bad_line(alloc, number, &mut text)?;
    Ok(text)
}

// Gives the answer to a line that is too long.
fn refuse<K: Sink>(alloc: Global, sink: &mut K, number: u64) -> Option<Status>
    ensures whole { IfNone result
        (Appends (K.taken sink.old) (K.taken sink.new) (line_of (bad_line_words number))
        × (K.faults sink.new ≡ K.faults sink.old)) }
    ensures part { IfSome result
        (λ s. ((s ≡ WriteFault) × IsTold WriteFault (line_of (bad_line_words number)) (output K.Sink sink.old)
        (output K.Sink sink.new) s
        × Rose (K.faults sink.old) (K.faults sink.new))
        ⊎ IsTold NoMemory (fault_line Fault.NoMemory) (output K.Sink sink.old) (output K.Sink sink.new) s) }
{
    match bad_line(alloc, number) {
        Ok(text) => give(sink, &text),
        Err(_) => Some(tell_fault(sink, Fault::NoMemory)),
    }
}

// Answers a line, and gives its answer.
fn respond<K: Sink, R: Rack + Drop, B: Resource>(
    alloc: Global,
    engine: &mut Engine<R, B>,
    plans: &[Plan],
    hand: &mut AtHand,
    sink: &mut K,
    line: &[u8],
    number: u64,
) -> Option<Status>
    requires ready { IsReady B.Resource engine.old }
    requires plans { Each (IsPlanFor engine.old.catalog) plans.now }
    requires at_hand { AreAtHand engine.old hand.old }
    requires line { length line.now ≤ most_line }
    ensures on { IfNone result
        ((text : List ℕ) × IsLineAnswered engine.old.catalog plans.now
        (state_of engine.old.core hand.old) number line.now
        (state_of engine.new.core hand.new) text × Appends (K.taken sink.old) (K.taken sink.new) text
        × (K.faults sink.new ≡ K.faults sink.old)) }
    ensures over { IfSome result
        (IsCutAmid K.Sink R.Rack plans.now
        (state_of engine.old.core hand.old) number line.now sink.old sink.new engine.old engine.new) }
    ensures goes { IfNone result (GoesOn R.Rack [] engine.old engine.new) }
    ensures at_hand { IfNone result (AreAtHand engine.new hand.new) }
    ensures ready { IfNone result (IsReady B.Resource engine.new) }
    ensures between { IfNone result (IsBetween R.Rack engine.new) }
    ensures fits { EachFits B.Resource engine.new.files.stores }
{
    match answer_line(alloc, engine, plans, hand, line, number) {
        Ok(text) => {
            engine.invariant_holds();
            give(sink, &text)
        }
        Err(cut) => Some(tell_fault(sink, fault_of(cut))),
    }
}

/// Takes the next line and gives its answer. The status, if the dialogue ends.
pub fn exchange<S: Source, K: Sink, R: Rack + Drop, B: Resource>(
    alloc: Global,
    engine: &mut Engine<R, B>,
    plans: &[Plan],
    hand: &mut AtHand,
    reader: &mut LineReader,
    source: &mut S,
    sink: &mut K,
    number: u64,
) -> Option<Status>
    requires ready { IsReady B.Resource engine.old }
    requires plans { Each (IsPlanFor engine.old.catalog) plans.now }
    requires at_hand { AreAtHand engine.old hand.old }
    // The line was taken, it was answered, what it led to is kept, and its answer was given.
    ensures on { IfNone result
        ((x : Exchange) × IsExchange S.Source K.Sink R.Rack plans.now x
        (state_at source.old reader.old sink.old engine.old (hand_of hand.old) number)
        (state_at source.new reader.new sink.new engine.new (hand_of hand.new) (next_number number))) }
    ensures over { IfSome result
        (IsOver S.Source K.Sink R.Rack plans.now (state_at source.old reader.old sink.old engine.old (hand_of hand.old) number)
        (state_at source.new reader.new sink.new engine.new (hand_of hand.new) number)) }
    ensures at_hand { IfNone result (AreAtHand engine.new hand.new) }
    ensures ready { IfNone result (IsReady B.Resource engine.new) }
    ensures fits { EachFits B.Resource engine.new.files.stores }
{
    engine.invariant_holds();
    match next_line(alloc, reader, source) {
        Ok(Next::Line(line)) => respond(alloc, engine, plans, hand, sink, &line, number),
        Ok(Next::LongLine) => refuse(alloc, sink, number),
        Ok(Next::Stop) => Some(Status::Done),
        Err(fault) => Some(tell_fault(sink, fault)),
    }
}
