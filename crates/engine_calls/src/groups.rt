// Pieces are queued at a settled engine, and take effect together.
ghost use Rattle.std.specs.Prelude.{◌≡◌, ◌≢◌};
ghost use Rattle.process_flow.specs.Causes.{Rose};
ghost use Rattle.machine_model.specs.declared.kept.Work.TheVariants.{End};
ghost use Rattle.process_core.specs.Cores.{IsHandedBy};
ghost use Rattle.history_files.specs.Standing.{EachFits};
ghost use Rattle.engine_steps.specs.declared.engines.Phase.TheVariants as phase;
ghost use Rattle.process_engine.specs.Flushing.{Flushes};
ghost use Rattle.process_engine.specs.Queueing.{Queues};
ghost use Rattle.process_engine.specs.Queues.{AreQueued};
ghost use Rattle.engine_calls.specs.Runs.{GoesOnAlone, IsReady};

use process_core::Piece;
use process_disk::Rack;
use process_engine::{Answer, Engine, Flush, Queue, Queued};
use resource_box::Resource;

/// Queues a piece that this engine handed out, by what came of its work, to take effect with the next flush; an end is answered
/// that it is done. It makes no call of the rack.
pub fn queue<R: Rack + Drop, B: Resource>(
    engine: &mut Engine<R, B>,
    queued: &mut Queued,
    piece: Piece,
    answer: Answer,
) -> Queue
    requires ready { IsReady B.Resource engine.old }
    requires handed { IsHandedBy engine.old.core piece.piece }
    requires end { piece.piece.work ≡ End → answer ≡ Answer.Done }
    requires queued { AreQueued engine.old queued.old }
    ensures queues { Queues engine.old engine.new queued.old queued.new piece answer result }
    ensures queued { AreQueued engine.new queued.new }
    ensures goes { GoesOnAlone R.Rack engine.old engine.new }
    ensures ready { IsReady B.Resource engine.new }
{
    engine.invariant_holds();
    process_engine::queue(engine, queued, piece, answer)
}

/// The queued pieces that run take effect together, in the order in which they were queued. After a fault of the rack the engine is
/// closed.
pub fn flush<R: Rack + Drop, B: Resource>(engine: &mut Engine<R, B>, queued: &mut Queued) -> Flush
    requires ready { IsReady B.Resource engine.old }
    requires queued { AreQueued engine.old queued.old }
    ensures flushes { Flushes R.disk engine.old engine.new queued.old queued.new result }
    ensures fault { result ≡ Flush.DiskFault → Rose (R.faults engine.old.files.rack) (R.faults engine.new.files.rack) }
    ensures goes { GoesOnAlone R.Rack engine.old engine.new }
    ensures ready { result ≢ Flush.DiskFault → IsReady B.Resource engine.new }
    ensures queued { result ≢ Flush.DiskFault → AreQueued engine.new queued.new }
    ensures fits { EachFits B.Resource engine.new.files.stores }
{
    engine.invariant_holds();
    let result = process_engine::flush(engine, queued);
    engine.invariant_holds();
    result
}
