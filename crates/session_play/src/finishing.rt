// The lines `finish N done` and `finish N refused`.
ghost use Rattle.std.specs.Prelude.{◌≡◌, ◌≢◌, true, false, Err, IfOk, IfErr, OnOk};
ghost use Rattle.process_text.specs.Canonical.{line_of};
ghost use Rattle.machine_model.specs.declared.kept.Work.TheVariants.{End};
ghost use Rattle.machine_model.specs.Progress.{same_work};
ghost use Rattle.process_core.specs.Cores.{IsHandedBy};
ghost use Rattle.history_files.specs.Standing.{EachFits};
ghost use Rattle.engine_calls.specs.Runs.{GoesOnAlone, IsClosedByFault, IsReady};
ghost use Rattle.process_engine.specs.Queues.{AreQueued};
ghost use Rattle.session_text.specs.Answers.{group_open_words, no_piece_words, no_refusal_words};
ghost use Rattle.session_play.specs.Answering.{finish_alone, IsAnswered, IsCut};
ghost use Rattle.session_play.specs.Pieces.{session_of, AreHandedBy};
ghost use Rattle.session_play.specs.Playing.{answer_of, is_refused_end, play_finish};
ghost use Rattle.session_play.specs.declared.cut.Cut.TheVariants.{DiskFault};

use crate::Cut;
use crate::pieces::place_of;
use crate::printing::put_finish;
use engine_calls::finish;
use process_core::{Piece, Work};
use process_disk::Rack;
use process_engine::{Answer, Engine, Queued};
use process_tree::Outcome;
use resource_box::Resource;
use session_text::{put_group_open, put_no_piece, put_no_refusal};
use std::alloc::{AllocError, Global};

/// What a line says of the work of a piece.
pub fn answer_of(outcome: Outcome) -> Answer
    ensures { result ≡ answer_of outcome }
{
    match outcome {
        Outcome::Done => Answer::Done,
        Outcome::Refused => Answer::Refused,
    }
}

fn is_end(work: Work) -> bool
    ensures { result ≡ same_work work End }
{
    match work {
        Work::End => true,
        Work::Forward | Work::Undo => false,
    }
}

// A piece is finished by the engine.
fn finish_piece<R: Rack + Drop, B: Resource>(
    alloc: Global,
    engine: &mut Engine<R, B>,
    piece: Piece,
    answer: Answer,
) -> Result<Vec<u8>, Cut>
    requires ready { IsReady B.Resource engine.old }
    requires handed { IsHandedBy engine.old.core piece.piece }
    requires end { piece.piece.work ≡ End → answer ≡ Answer.Done }
    ensures core { OnOk result (engine.new.core ≡ (finish_alone engine.old.catalog engine.old.core piece.piece answer).state.core) }
    ensures text { IfOk result (λ text. text.items ≡ (finish_alone engine.old.catalog engine.old.core piece.piece answer).printed) }
    ensures cut { IfErr result
        (λ cut. IsCut cut (finish_alone engine.old.catalog engine.old.core piece.piece answer) engine.old.core engine.new.core) }
    ensures fault { IfErr result (λ cut. cut ≡ DiskFault → IsClosedByFault R.Rack engine.old engine.new) }
    ensures goes { GoesOnAlone R.Rack engine.old engine.new }
    ensures fits { EachFits B.Resource engine.new.files.stores }
    ensures ready { result ≢ Err DiskFault → IsReady B.Resource engine.new }
{
    let place = (piece.number(), piece.process(), piece.step());
    let found = finish(engine, piece, answer);
    let mut text = Vec::new(alloc);
    put_finish(alloc, engine.history(), place, found, &mut text)?;
    Ok(text)
}

/// The line of a piece that isn't unfinished.
pub fn no_piece(alloc: Global, n: u32) -> Result<Vec<u8>, AllocError>
    ensures { IfOk result (λ text. text.items ≡ line_of (no_piece_words n)) }
{
    let mut text = Vec::new(alloc);
    put_no_piece(alloc, n, &mut text)?;
    Ok(text)
}

/// The line of an end that is not refused.
pub fn no_refusal(alloc: Global, n: u32) -> Result<Vec<u8>, AllocError>
    ensures { IfOk result (λ text. text.items ≡ line_of (no_refusal_words n)) }
{
    let mut text = Vec::new(alloc);
    put_no_refusal(alloc, n, &mut text)?;
    Ok(text)
}

// The line of a group that is open.
fn group_open(alloc: Global) -> Result<Vec<u8>, AllocError>
    ensures { IfOk result (λ text. text.items ≡ line_of group_open_words) }
{
    let mut text = Vec::new(alloc);
    put_group_open(&mut text)?;
    Ok(text)
}

/// Whether it is an end, and told to be refused.
pub fn is_refused_end(piece: &Piece, outcome: Outcome) -> bool
    ensures { result ≡ is_refused_end piece.now.piece outcome }
{
    match outcome {
        Outcome::Done => false,
        Outcome::Refused => is_end(piece.work()),
    }
}

/// Answers `finish N done` or `finish N refused`, beside these queued pieces.
pub fn play_finish<R: Rack + Drop, B: Resource>(
    alloc: Global,
    engine: &mut Engine<R, B>,
    pieces: &mut Vec<Piece>,
    queued: &Queued,
    n: u32,
    outcome: Outcome,
) -> Result<Vec<u8>, Cut>
    requires ready { IsReady B.Resource engine.old }
    requires handed { AreHandedBy engine.old.core pieces.old.items }
    ensures answered { IfOk result
        (λ text. IsAnswered (play_finish engine.old.catalog
        (session_of engine.old.core pieces.old.items queued.now) n outcome)
        engine.new.core pieces.new.items queued.now text.items) }
    ensures handed { OnOk result (AreHandedBy engine.new.core pieces.new.items) }
    ensures cut { IfErr result
        (λ cut. IsCut cut (play_finish engine.old.catalog
        (session_of engine.old.core pieces.old.items queued.now) n outcome) engine.old.core engine.new.core) }
    ensures queued { AreQueued engine.old queued.now → AreQueued engine.new queued.now }
    ensures fault { IfErr result (λ cut. cut ≡ DiskFault → IsClosedByFault R.Rack engine.old engine.new) }
    ensures goes { GoesOnAlone R.Rack engine.old engine.new }
    ensures fits { EachFits B.Resource engine.new.files.stores }
    ensures ready { result ≢ Err DiskFault → IsReady B.Resource engine.new }
{
    engine.invariant_holds();
    let Some(place) = place_of(pieces, n) else {
        return Ok(no_piece(alloc, n)?);
    };
    if queued.count() > 0 {
        return Ok(group_open(alloc)?);
    }
    if is_refused_end(&pieces[place], outcome) {
        return Ok(no_refusal(alloc, n)?);
    }
    let piece = pieces.remove(place);
    finish_piece(alloc, engine, piece, answer_of(outcome))
}
