// The lines `admit I`, `next` and `abort I`.
ghost use Rattle.std.specs.Prelude.{◌≡◌, List, IfOk, IfErr, OnOk};
ghost use Rattle.machine_model.specs.Replies.{Handed};
ghost use Rattle.process_engine.specs.Queues.{KeepsQueued};
ghost use Rattle.engine_calls.specs.Runs.{GoesOnAlone, IsReady};
ghost use Rattle.session_play.specs.Answering.{IsAnswered, IsCut};
ghost use Rattle.session_play.specs.Pieces.{session_of, AreHandedBy};
ghost use Rattle.session_play.specs.Playing.{play_abort, play_admit, play_next};
ghost use Rattle.session_play.specs.declared.cut.Cut.TheVariants.{NoMemory};

use crate::Cut;
use crate::beginnings::just_began;
use crate::pieces::{keep_admitted, keep_chosen};
use crate::printing::{put_admit, put_next, put_victims};
use engine_calls::{abort, admit, next};
use process_core::Piece;
use process_disk::Rack;
use process_engine::Engine;
use resource_box::Resource;
use session_text::put_aborted;
use std::alloc::Global;

/// Answers `admit I`.
pub fn play_admit<R: Rack + Drop, B: Resource>(
    alloc: Global,
    engine: &mut Engine<R, B>,
    pieces: &mut Vec<Piece>,
    i: u32,
) -> Result<Vec<u8>, Cut>
    requires ready { IsReady B.Resource engine.old }
    requires handed { AreHandedBy engine.old.core pieces.old.items }
    ensures answered { IfOk result
        (λ text. (queued : List Handed) → IsAnswered (play_admit
        (session_of engine.old.core pieces.old.items queued) i) engine.new.core pieces.new.items queued text.items) }
    ensures handed { OnOk result (AreHandedBy engine.new.core pieces.new.items) }
    ensures cut { IfErr result
        (λ cut. (cut ≡ NoMemory) × ((queued : List Handed) → IsCut cut
        (play_admit (session_of engine.old.core pieces.old.items queued) i) engine.old.core engine.new.core)) }
    ensures queued { OnOk result (KeepsQueued engine.old engine.new) }
    ensures goes { GoesOnAlone R.Rack engine.old engine.new }
    ensures ready { IsReady B.Resource engine.new }
{
    let reply = admit(engine, i);
    engine.invariant_holds();
    let mut text = Vec::new(alloc);
    put_admit(alloc, engine.history(), i, &reply, &mut text)?;
    keep_admitted(pieces, reply)?;
    Ok(text)
}

/// Answers `next`.
pub fn play_next<R: Rack + Drop, B: Resource>(
    alloc: Global,
    engine: &mut Engine<R, B>,
    pieces: &mut Vec<Piece>,
) -> Result<Vec<u8>, Cut>
    requires ready { IsReady B.Resource engine.old }
    requires handed { AreHandedBy engine.old.core pieces.old.items }
    ensures answered { IfOk result
        (λ text. (queued : List Handed) → IsAnswered (play_next
        (session_of engine.old.core pieces.old.items queued)) engine.new.core pieces.new.items queued text.items) }
    ensures handed { OnOk result (AreHandedBy engine.new.core pieces.new.items) }
    ensures cut { IfErr result
        (λ cut. (cut ≡ NoMemory) × ((queued : List Handed) → IsCut cut
        (play_next (session_of engine.old.core pieces.old.items queued)) engine.old.core engine.new.core)) }
    ensures queued { OnOk result (KeepsQueued engine.old engine.new) }
    ensures goes { GoesOnAlone R.Rack engine.old engine.new }
    ensures ready { IsReady B.Resource engine.new }
{
    let before = engine.kept().len();
    let reply = next(engine);
    engine.invariant_holds();
    let mut text = Vec::new(alloc);
    let (_, kept) = engine.kept().split_at(before);
    put_victims(alloc, kept, &mut text)?;
    put_next(alloc, engine.history(), &reply, &mut text)?;
    keep_chosen(pieces, reply)?;
    Ok(text)
}

/// Answers `abort I`.
pub fn play_abort<R: Rack + Drop, B: Resource>(
    alloc: Global,
    engine: &mut Engine<R, B>,
    pieces: &Vec<Piece>,
    i: u32,
) -> Result<Vec<u8>, Cut>
    requires ready { IsReady B.Resource engine.old }
    requires handed { AreHandedBy engine.old.core pieces.now.items }
    ensures answered { IfOk result
        (λ text. (queued : List Handed) → IsAnswered (play_abort
        (session_of engine.old.core pieces.now.items queued) i) engine.new.core pieces.now.items queued text.items) }
    ensures handed { OnOk result (AreHandedBy engine.new.core pieces.now.items) }
    ensures cut { IfErr result
        (λ cut. (cut ≡ NoMemory) × ((queued : List Handed) → IsCut cut
        (play_abort (session_of engine.old.core pieces.now.items queued) i) engine.old.core engine.new.core)) }
    ensures queued { OnOk result (KeepsQueued engine.old engine.new) }
    ensures goes { GoesOnAlone R.Rack engine.old engine.new }
    ensures ready { IsReady B.Resource engine.new }
{
    let reply = abort(engine, i);
    let began = just_began(alloc, engine)?;
    let mut text = Vec::new(alloc);
    put_aborted(alloc, i, &began, reply, &mut text)?;
    Ok(text)
}
