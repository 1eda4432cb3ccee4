// The line `flush`.
ghost use Rattle.std.specs.Prelude.{◌≡◌, ◌≢◌, ◌++◌, [], List, Err, IfOk, IfErr, OnOk};
ghost use Rattle.process_text.specs.Canonical.{line_of};
ghost use Rattle.process_report.specs.Lines.{text_of};
ghost use Rattle.machine_model.specs.Replies.{Handed};
ghost use Rattle.history_files.specs.Standing.{EachFits};
ghost use Rattle.engine_calls.specs.Runs.{GoesOnAlone, IsClosedByFault, IsReady};
ghost use Rattle.process_engine.specs.Ends.{ended_as};
ghost use Rattle.process_engine.specs.Queues.{AreQueued};
ghost use Rattle.session_text.specs.Answers.{ending_words, flush_lines};
ghost use Rattle.session_play.specs.Answering.{IsAnswered, IsCut};
ghost use Rattle.session_play.specs.Pieces.{session_of};
ghost use Rattle.session_play.specs.Playing.{play_flush};
ghost use Rattle.session_play.specs.declared.cut.Cut.TheVariants.{DiskFault};

use crate::Cut;
use engine_calls::flush;
use process_disk::Rack;
use process_engine::{Engine, Flush, Group, GroupEnd, Queued};
use resource_box::Resource;
use session_text::{put_nothing_queued, put_number};
use std::alloc::{AllocError, Global};

// Writes what became of a piece of a group, whose number is its first part.
fn put_ending(alloc: Global, end: (u32, GroupEnd), out: &mut Vec<u8>) -> Result<(), AllocError>
    ensures { OnOk result (out.new.items ≡ out.old.items ++ line_of (ending_words (ended_as end).ending)) }
{
    match end.1 {
        GroupEnd::Effected(place) => put_number(alloc, b"effected", place, out),
        GroupEnd::Dropped(event) => put_number(alloc, b"dropped", event, out),
    }
}

// Writes what became of each piece of a group.
fn put_group(alloc: Global, group: &Group, out: &mut Vec<u8>) -> Result<(), AllocError>
    ensures { OnOk result (out.new.items ≡ out.old.items ++ text_of (flush_lines group.now)) }
{
    if group.len() == 0 {
        return put_nothing_queued(out);
    }
    let mut n = 0;
    while n < group.len() {
        put_ending(alloc, group.at(n), out)?;
        n += 1;
    }
    Ok(())
}

/// Answers `flush`.
pub fn play_flush<R: Rack + Drop, B: Resource>(
    alloc: Global,
    engine: &mut Engine<R, B>,
    queued: &mut Queued,
) -> Result<Vec<u8>, Cut>
    requires ready { IsReady B.Resource engine.old }
    requires queued { AreQueued engine.old queued.old }
    ensures answered { IfOk result
        (λ text. (pieces : List Handed) → IsAnswered (play_flush
        (session_of engine.old.core pieces queued.old)) engine.new.core pieces queued.new text.items) }
    ensures cut { IfErr result
        (λ cut. (pieces : List Handed) → IsCut cut (play_flush
        (session_of engine.old.core pieces queued.old)) engine.old.core engine.new.core) }
    ensures queued { OnOk result (queued.new ≡ []) }
    ensures fault { IfErr result (λ cut. cut ≡ DiskFault → IsClosedByFault R.Rack engine.old engine.new) }
    ensures goes { GoesOnAlone R.Rack engine.old engine.new }
    ensures fits { EachFits B.Resource engine.new.files.stores }
    ensures ready { result ≢ Err DiskFault → IsReady B.Resource engine.new }
{
    match flush(engine, queued) {
        Flush::Flushed(group) => {
            let mut text = Vec::new(alloc);
            put_group(alloc, &group, &mut text)?;
            Ok(text)
        }
        Flush::DiskFault => Err(Cut::DiskFault),
        Flush::Closed(_) => unreachable!(),
    }
}
