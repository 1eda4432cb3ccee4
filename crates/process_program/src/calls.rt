// A call of the program.
ghost use Rattle.std.specs.Prelude.{◌≡◌, ◌≤◌, [], map, not, replicate, string_bytes, true, vec_capacity, IfErr, IfOk, OnOk, Some};
ghost use Rattle.std.specs.Process.{exit_status};
ghost use Rattle.history_files.specs.Boxes.{AreBoxes};
ghost use Rattle.process_flow.specs.Causes.{Rose};
ghost use Rattle.file_rack.specs.NewRack.{IsNew};
ghost use Rattle.program_words.specs.Commands.{asked};
ghost use Rattle.call_words.specs.Borrowed.{parts_of};
ghost use Rattle.process_program.specs.Bars.{IsBarred};
ghost use Rattle.process_program.specs.Ends.{AnswersSo, EndsSo, IsLookedAt, IsProbed};
ghost use Rattle.process_top.specs.Commands.{needs};
ghost use Rattle.process_program.specs.Own.{boxes_of, empty_boxes};

use crate::barred::tell_barred;
use crate::own::{OwnBox, new_boxes, new_gates};
use call_words::CallParts;
use command_refusals::Status;
use diagnostics::tell_beside;
use file_rack::{Access, Barred, FileRack, Folder};
use kept_source::{KeptSource, MOST_KEPT, Opening, room};
use process_disk::Rack;
use process_flow::{Sink, Source};
use process_top::{Finished, only_reads, top};
use program_words::Command;
use resource_box::Resource;
use std::alloc::{AllocError, Global};
use std::marker::Brand;
use std::process::ExitCode;
use std::sync::Wait;
use std::thread::Threads;
use worker_gate::PlainGate;

/// What a call of the program ends with, and the source and the rack that it leaves.
pub struct Ended<S, D: Folder + Drop> {
    pub code: ExitCode,
    pub source: S,
    pub rack: FileRack<D>,
}

// What a call brings along: room for what it keeps of its input, its boxes and its gates.
#[derive(Drop)]
struct Ready {
    room: Vec<u8>,
    resources: Vec<OwnBox>,
    gates: Vec<PlainGate>,
}

// What a call brings along, if there is memory for it.
fn made_ready(alloc: Global) -> Result<Ready, AllocError>
    ensures empty_room { IfOk result (λ r. r.room.items ≡ []) }
    ensures enough { IfOk result (λ r. MOST_KEPT ≤ vec_capacity r.room) }
    ensures kinds { IfOk result (λ r. AreBoxes ⟦<OwnBox as Resource>⟧.sort r.resources.items) }
    ensures empty { IfOk result
        (λ r. boxes_of ⟦<OwnBox as Resource>⟧.sort ⟦<OwnBox as Resource>⟧.meaning r.resources.items ≡ empty_boxes) }
    ensures gates { IfOk result (λ r. r.gates.items ≡ replicate 16 (record { calls = 0; refusals = 0 })) }
{
    let room = room(alloc)?;
    let resources = new_boxes(alloc)?;
    let gates = new_gates(alloc)?;
    Ok(Ready {
        room,
        resources,
        gates,
    })
}

// Answers with what was made ready, and says what there is to say beside the answer.
fn answered<
    O: Opening,
    H: Threads + Wait + Sync,
    S: Source + Drop,
    K: Sink,
    E: Sink,
    D: Folder + Drop + Send,
>(
    rt: &H,
    alloc: Global,
    words: &[String],
    ready: Ready,
    source: S,
    sink: &mut K,
    errors: &mut E,
    folder: D,
) -> Ended<S, D>
    requires new { D.access folder ≡ Access.Unentered }
    requires opening { S.left source ≡ O.left }
    requires empty_room { ready.room.items ≡ [] }
    requires enough { MOST_KEPT ≤ vec_capacity ready.room }
    requires kinds { AreBoxes ⟦<OwnBox as Resource>⟧.sort ready.resources.items }
    requires empty { boxes_of ⟦<OwnBox as Resource>⟧.sort ⟦<OwnBox as Resource>⟧.meaning ready.resources.items ≡ empty_boxes }
    requires gates { ready.gates.items ≡ replicate 16 (record { calls = 0; refusals = 0 }) }
    ensures answers { AnswersSo S.Source K.Sink E.Sink ⟦<FileRack<D> as Rack>⟧
        (record { folder = λ r. r.folder; writes = λ r. r.writes; is_new = λ r. IsNew r.unsynced r.broken r.faults })
        (map string_bytes words.now) source sink.old errors.old folder result.source sink.new errors.new result.rack
        (exit_status result.code) }
{
    let Ready {
        room,
        resources,
        gates,
    } = ready;
    let mut source: KeptSource<S, O> = KeptSource::new(room, source);
    // A rack that only reads takes no lock, and works on files that may only be read.
    let rack = FileRack::over(folder, !only_reads(words));
    let finished = top(rt, alloc, words, &mut source, sink, rack, resources, gates);
    let Finished {
        status,
        refused,
        rack,
        resources,
        gates,
    } = finished;
    drop(resources);
    drop(gates);
    let (source, input) = source.into_parts();
    tell_beside(alloc, errors, words, status, refused, input);
    Ended {
        code: ExitCode::from(status),
        source,
        rack,
    }
}

// Whether a command calls the rack.
fn uses_files(command: Option<Command>) -> bool
    ensures { result ≡ (needs command).files }
{
    match command {
        None
        | Some(Command::Check)
        | Some(Command::Expand)
        | Some(Command::Verify)
        | Some(
            Command::Gen {
                number: _,
                count: _,
            },
        )
        | Some(Command::Help { about: _ })
        | Some(Command::Version) => false,
        Some(Command::Audit { history }) => history,
        _ => true,
    }
}

// Finds out whether the folder can be used by the command, if it uses it.
fn probed<D: Folder>(parts: &CallParts<'_>, folder: &mut D) -> Result<(), Barred>
    requires new { D.access folder.old ≡ Access.Unentered }
    ensures probed { OnOk result (IsProbed D.Folder (needs parts.now.command).files folder.old folder.new) }
    ensures used { IfErr result (λ b. (needs parts.now.command).files ≡ true) }
    ensures cause { IfErr result (λ b. (D.bar folder.new ≡ Some b) × Rose (D.faults folder.old) (D.faults folder.new)) }
    ensures looked { IsLookedAt D.Folder folder.old folder.new }
{
    if uses_files(parts.command) {
        folder.probe(!only_reads(parts.words))
    } else {
        Ok(())
    }
}

// Says why the call can't begin.
fn ended_barred<S: Source + Drop, K: Sink, E: Sink, D: Folder + Drop>(
    alloc: Global,
    parts: &CallParts<'_>,
    bar: Barred,
    source: S,
    sink: &mut K,
    errors: &mut E,
    folder: D,
) -> Ended<S, D>
    requires new { D.access folder ≡ Access.Unentered }
    ensures told { IsBarred K.Sink E.Sink (parts_of parts.now) bar sink.old errors.old sink.new errors.new (exit_status result.code) }
    ensures source { result.source ≡ source }
    ensures folder { result.rack.folder ≡ folder }
{
    let code = tell_barred(alloc, parts, bar, sink, errors);
    Ended {
        code: ExitCode::from(code),
        source,
        rack: FileRack::over(folder, false),
    }
}

/// Answers the words of a command over a source, a sink and the files of a folder, by the code that is the status; or says why the
/// folder can't be used. What people want to know beside that goes to the second sink.
pub fn program<
    H: Threads + Wait + Sync,
    S: Source + Drop,
    K: Sink,
    E: Sink,
    D: Folder + Drop + Send,
>(
    rt: &H,
    alloc: Global,
    parts: &CallParts<'_>,
    source: S,
    sink: &mut K,
    errors: &mut E,
    folder: D,
) -> Ended<S, D>
    requires new { D.access folder ≡ Access.Unentered }
    requires command { parts.now.command ≡ asked (map string_bytes parts.now.words.now) }
    // On these words, from this source, these sinks and this folder to those, the call ends with this number.
    ensures ends { EndsSo S.Source K.Sink E.Sink ⟦<FileRack<D> as Rack>⟧ D.Folder
        (record { folder = λ r. r.folder; writes = λ r. r.writes; is_new = λ r. IsNew r.unsynced r.broken r.faults })
        (parts_of parts.now) source sink.old errors.old folder result.source sink.new errors.new result.rack
        (exit_status result.code) }
{
    let Ok(ready) = made_ready(alloc) else {
        return Ended {
            code: ExitCode::from(Status::NoMemory.number()),
            source,
            rack: FileRack::over(folder, false),
        };
    };
    let mut folder = folder;
    match probed(parts, &mut folder) {
        Ok(()) => answered::<Brand, H, S, K, E, D>(
            rt,
            alloc,
            parts.words,
            ready,
            source,
            sink,
            errors,
            folder,
        ),
        Err(bar) => ended_barred(alloc, parts, bar, source, sink, errors, folder),
    }
}
