// The lines of what an engine answers.
ghost use Rattle.std.specs.Prelude.{◌≡◌, ◌≢◌, ◌++◌, ◌⊎◌, ℕ, map, codes, IfErr, OnOk};
ghost use Rattle.std.specs.List.{filter_map};
ghost use Rattle.std.specs.Option.{option_to_list};
ghost use Rattle.process_text.specs.Canonical.{line_of};
ghost use Rattle.machine_model.specs.Moment.{Piece as Piece'};
ghost use Rattle.machine_model.specs.Groups.{Queue as QueueReply};
ghost use Rattle.machine_model.specs.Replies.{Finish as FinishReply, Handed};
ghost use Rattle.process_core.specs.Handing.{admit_reply_of};
ghost use Rattle.process_core.specs.Rotation.{next_reply_of};
ghost use Rattle.process_engine.specs.Finishing.{RepliesAs};
ghost use Rattle.process_engine.specs.Queueing.{RepliesAs as IsReplyTo};
ghost use Rattle.process_report.specs.Lines.{text_of};
ghost use Rattle.session_text.specs.Answers.{admit_words, finish_words, next_words, numbered, piece_words, queue_words};
ghost use Rattle.session_play.specs.Playing.{victim_of};
ghost use Rattle.session_play.specs.declared.cut.Cut.TheVariants.{DiskFault, NoMemory};

use crate::Cut;
use process_core::{Admit, Kept, Next, Piece, Refusal};
use process_engine::{Finish, Queue};
use schedule_model::History;
use session_text::{
    put_all_ended, put_block, put_exhausted, put_no_piece, put_number, put_piece, put_refusal,
    put_waiting,
};
use std::alloc::{AllocError, Global};

// Writes a piece that is handed out.
fn put_handed(
    alloc: Global,
    h: &History,
    piece: &Piece,
    out: &mut Vec<u8>,
) -> Result<(), AllocError>
    ensures { OnOk result (out.new.items ≡ out.old.items ++ line_of (piece_words h.now.plans piece.now.piece)) }
{
    put_piece(
        alloc,
        h,
        piece.number(),
        piece.process(),
        piece.step(),
        piece.work(),
        out,
    )
}

/// Writes the answer to a request for a piece of process i.
pub fn put_admit(
    alloc: Global,
    h: &History,
    i: u32,
    reply: &Admit,
    out: &mut Vec<u8>,
) -> Result<(), AllocError>
    ensures { OnOk result (out.new.items ≡ out.old.items ++ line_of (admit_words h.now.plans i (admit_reply_of reply.now))) }
{
    match reply {
        Admit::Piece(piece) => put_handed(alloc, h, piece, out),
        Admit::Blocked(block) => put_block(alloc, h, b"blocked", i, block, out),
        Admit::Running => put_number(alloc, b"running", i, out),
        Admit::Unknown => put_number(alloc, b"unknown", i, out),
        Admit::Ended => put_number(alloc, b"ended", i, out),
        Admit::Exhausted(step) => put_exhausted(alloc, h, i, *step, out),
    }
}

/// Writes the answer to a request for any piece, behind its victims.
pub fn put_next(
    alloc: Global,
    h: &History,
    reply: &Next,
    out: &mut Vec<u8>,
) -> Result<(), AllocError>
    ensures { OnOk result (out.new.items ≡ out.old.items ++ line_of (next_words h.now.plans (next_reply_of reply.now))) }
{
    match reply {
        Next::Piece(piece) => put_handed(alloc, h, piece, out),
        Next::Wait(Some(waiting)) => {
            put_block(alloc, h, b"wait", waiting.process, &waiting.block, out)
        }
        Next::Wait(None) => put_waiting(out),
        Next::AllEnded => put_all_ended(out),
        Next::Stuck(i) => put_number(alloc, b"stuck", *i, out),
    }
}

// Writes a kept event, if it is a victim.
fn put_victim(alloc: Global, kept: &Kept, out: &mut Vec<u8>) -> Result<(), AllocError>
    ensures { OnOk result
        (out.new.items ≡ out.old.items ++ text_of (map (numbered (codes "victim")) (option_to_list (victim_of kept.now)))) }
{
    match kept {
        Kept::Victim(i) => put_number(alloc, b"victim", *i, out),
        _ => Ok(()),
    }
}

/// Writes the victims among kept events.
pub fn put_victims(alloc: Global, kept: &[Kept], out: &mut Vec<u8>) -> Result<(), AllocError>
    ensures { OnOk result
        (out.new.items ≡ out.old.items ++ text_of (map (numbered (codes "victim")) (filter_map victim_of kept.now))) }
{
    let mut rest = kept;
    while let [event, after @ ..] = rest {
        put_victim(alloc, event, out)?;
        rest = after;
    }
    Ok(())
}

/// Writes what became of a piece that was finished: of this number, and of that step of its process.
pub fn put_finish(
    alloc: Global,
    h: &History,
    piece: (u32, u32, u16),
    found: Finish,
    out: &mut Vec<u8>,
) -> Result<(), Cut>
    requires open { (n : ℕ) → found ≢ Finish.Closed n }
    ensures told { (p : Piece') (reply : FinishReply) → p.number ≡ piece.0 → p.process ≡ piece.1 → p.step ≡ piece.2
        → RepliesAs found reply
        → OnOk result (out.new.items ≡ out.old.items ++ line_of (finish_words h.now.plans p reply)) }
    ensures cut { IfErr result
        (λ cut. ((cut ≡ NoMemory) × (found ≢ Finish.DiskFault)) ⊎ ((cut ≡ DiskFault) × (found ≡ Finish.DiskFault))) }
    ensures found { OnOk result ((found ≢ Finish.DiskFault) × ((p : Handed) → found ≢ Finish.NoMemory p)) }
{
    let (number, process, step) = piece;
    match found {
        Finish::Effected(place) => put_number(alloc, b"effected", place, out)?,
        Finish::Retry(count) => put_refusal(alloc, h, process, step, Refusal::Retry(count), out)?,
        Finish::Failed => put_refusal(alloc, h, process, step, Refusal::Alternative, out)?,
        Finish::Exhausted => put_refusal(alloc, h, process, step, Refusal::Exhausted, out)?,
        Finish::Over => put_no_piece(alloc, number, out)?,
        Finish::Dropped(event) => put_number(alloc, b"dropped", event, out)?,
        Finish::DiskFault => return Err(Cut::DiskFault),
        Finish::NoMemory(_) => return Err(Cut::NoMemory),
        Finish::Closed(_) => unreachable!(),
    }
    Ok(())
}

/// Writes what came of the queueing of a piece: of this number, and of that step of its process.
pub fn put_queue(
    alloc: Global,
    h: &History,
    piece: (u32, u32, u16),
    found: &Queue,
    out: &mut Vec<u8>,
) -> Result<(), Cut>
    requires open { (n : ℕ) → found.now ≢ Queue.Closed n }
    ensures told { (p : Piece') (reply : QueueReply) → p.number ≡ piece.0 → p.process ≡ piece.1 → p.step ≡ piece.2
        → IsReplyTo found.now reply
        → OnOk result (out.new.items ≡ out.old.items ++ line_of (queue_words h.now.plans p reply)) }
    ensures cut { IfErr result (λ cut. cut ≡ NoMemory) }
    ensures found { OnOk result ((p : Handed) → found.now ≢ Queue.NoMemory p) }
{
    let (number, process, step) = piece;
    match found {
        Queue::Queued => put_number(alloc, b"queued", number, out)?,
        Queue::Full(_) => put_number(alloc, b"full", number, out)?,
        Queue::Retry(count) => put_refusal(alloc, h, process, step, Refusal::Retry(*count), out)?,
        Queue::Failed => put_refusal(alloc, h, process, step, Refusal::Alternative, out)?,
        Queue::Exhausted => put_refusal(alloc, h, process, step, Refusal::Exhausted, out)?,
        Queue::Over => put_no_piece(alloc, number, out)?,
        Queue::Dropped(event) => put_number(alloc, b"dropped", *event, out)?,
        Queue::NoMemory(_) => return Err(Cut::NoMemory),
        Queue::Closed(_) => unreachable!(),
    }
    Ok(())
}
