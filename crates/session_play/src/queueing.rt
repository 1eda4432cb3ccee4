// The lines `queue N done` and `queue N refused`.
ghost use Rattle.std.specs.Prelude.{◌≡◌, IfOk, IfErr, OnOk};
ghost use Rattle.std.specs.Option.{option_to_list};
ghost use Rattle.machine_model.specs.declared.kept.Work.TheVariants.{End};
ghost use Rattle.process_core.specs.Cores.{IsHandedBy};
ghost use Rattle.engine_calls.specs.Runs.{GoesOnAlone, IsReady};
ghost use Rattle.process_engine.specs.Queues.{AreQueued};
ghost use Rattle.session_play.specs.Answering.{queue_alone, IsAnswered, IsCut};
ghost use Rattle.session_play.specs.Pieces.{session_of, AreHandedBy};
ghost use Rattle.session_play.specs.Playing.{play_queue};
ghost use Rattle.session_play.specs.declared.cut.Cut.TheVariants.{NoMemory};

use crate::Cut;
use crate::finishing::{answer_of, is_refused_end, no_piece, no_refusal};
use crate::pieces::{full_of, keep_full, place_of};
use crate::printing::put_queue;
use engine_calls::queue;
use process_core::Piece;
use process_disk::Rack;
use process_engine::{Answer, Engine, Queued};
use process_tree::Outcome;
use resource_box::Resource;
use std::alloc::Global;

// A piece is queued at the engine; one for which the group is full comes back.
fn queue_piece<R: Rack + Drop, B: Resource>(
    alloc: Global,
    engine: &mut Engine<R, B>,
    queued: &mut Queued,
    piece: Piece,
    answer: Answer,
) -> Result<(Vec<u8>, Option<Piece>), Cut>
    requires ready { IsReady B.Resource engine.old }
    requires handed { IsHandedBy engine.old.core piece.piece }
    requires end { piece.piece.work ≡ End → answer ≡ Answer.Done }
    requires queued { AreQueued engine.old queued.old }
    ensures answered { IfOk result
        (λ r. IsAnswered (queue_alone engine.old.catalog engine.old.core queued.old piece.piece answer) engine.new.core
        (option_to_list r.1) queued.new r.0.items) }
    ensures handed { IfOk result (λ r. AreHandedBy engine.new.core (option_to_list r.1)) }
    ensures cut { IfErr result
        (λ cut. (cut ≡ NoMemory) × IsCut cut (queue_alone engine.old.catalog engine.old.core queued.old piece.piece answer)
        engine.old.core engine.new.core) }
    ensures queued { AreQueued engine.new queued.new }
    ensures goes { GoesOnAlone R.Rack engine.old engine.new }
    ensures ready { IsReady B.Resource engine.new }
{
    let place = (piece.number(), piece.process(), piece.step());
    let found = queue(engine, queued, piece, answer);
    let mut text = Vec::new(alloc);
    put_queue(alloc, engine.history(), place, &found, &mut text)?;
    Ok((text, full_of(found)))
}

/// Answers `queue N done` or `queue N refused`.
pub fn play_queue<R: Rack + Drop, B: Resource>(
    alloc: Global,
    engine: &mut Engine<R, B>,
    pieces: &mut Vec<Piece>,
    queued: &mut Queued,
    n: u32,
    outcome: Outcome,
) -> Result<Vec<u8>, Cut>
    requires ready { IsReady B.Resource engine.old }
    requires handed { AreHandedBy engine.old.core pieces.old.items }
    requires queued { AreQueued engine.old queued.old }
    ensures answered { IfOk result
        (λ text. IsAnswered (play_queue engine.old.catalog
        (session_of engine.old.core pieces.old.items queued.old) n outcome)
        engine.new.core pieces.new.items queued.new text.items) }
    ensures handed { OnOk result (AreHandedBy engine.new.core pieces.new.items) }
    ensures cut { IfErr result
        (λ cut. (cut ≡ NoMemory) × IsCut cut (play_queue engine.old.catalog
        (session_of engine.old.core pieces.old.items queued.old) n outcome) engine.old.core engine.new.core) }
    ensures queued { AreQueued engine.new queued.new }
    ensures goes { GoesOnAlone R.Rack engine.old engine.new }
    ensures ready { IsReady B.Resource engine.new }
{
    engine.invariant_holds();
    let Some(place) = place_of(pieces, n) else {
        return Ok(no_piece(alloc, n)?);
    };
    if is_refused_end(&pieces[place], outcome) {
        return Ok(no_refusal(alloc, n)?);
    }
    let piece = pieces.remove(place);
    let (text, full) = queue_piece(alloc, engine, queued, piece, answer_of(outcome))?;
    keep_full(pieces, full)?;
    Ok(text)
}
