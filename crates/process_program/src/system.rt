// A call of the program over the system's streams and files.
ghost use Rattle.std.specs.Prelude.{◌≡◌, map, string_bytes, IfErr, IfOk, None, OnOk, Some};
ghost use Rattle.std.specs.Option.{option_map};
ghost use Rattle.std.specs.Process.{exit_status};
ghost use Rattle.process_flow.specs.Causes.{Rose};
ghost use Rattle.program_words.specs.Commands.{asked};
ghost use Rattle.call_words.specs.Borrowed.{parts_of};
ghost use Rattle.call_words.specs.Parts.{parted};
ghost use Rattle.file_rack.specs.NewRack.{IsNew};
ghost use Rattle.process_program.specs.Inputs.{IsInputOf};
ghost use Rattle.process_program.specs.SystemEnds.{SystemEndsSo};
ghost use Rattle.process_program.specs.Words.{words_behind};

use crate::barred::tell_barred;
use crate::calls::{Ended, program};
use crate::input::CallInput;
use crate::words::words;
use call_words::{CallParts, call_parts};
use command_refusals::Status;
use file_rack::{Access, Barred, FileRack, Folder, SystemFolder};
use process_disk::Rack;
use process_flow::{Sink, Source, StdSink, StdSource};
use std::alloc::{AllocError, Global};
use std::env::Args;
use std::fs::File;
use std::io;
use std::io::{Read, Write};
use std::process::ExitCode;
use std::rt::{Env, Files};
use std::sync::Wait;
use std::thread::Threads;

// The input that the words name.
fn input_of<F: Files<File = File> + Drop, R: Read + Drop>(
    folder: &mut SystemFolder<F>,
    file: Option<&str>,
    input: R,
) -> Result<CallInput<R>, Barred>
    ensures input { IfOk result (λ source. IsInputOf (option_map (λ f. f.now) file.entry) input source) }
    ensures cause { IfErr result (λ b. (folder.new.bar ≡ Some b) × Rose folder.old.faults folder.new.faults) }
    ensures place { folder.new.place ≡ folder.old.place }
    ensures access { folder.new.access ≡ folder.old.access }
{
    match file {
        Some(name) => match folder.input(name) {
            Ok(file) => Ok(CallInput::Named(StdSource::new(file))),
            Err(bar) => Err(bar),
        },
        None => Ok(CallInput::Standard(StdSource::new(input))),
    }
}

// Goes to the folder that the words name.
fn go_to<F: Files<File = File> + Env + Drop>(
    folder: &mut SystemFolder<F>,
    place: Option<String>,
) -> Result<(), Barred>
    requires new { folder.old.place ≡ None }
    ensures place { OnOk result (folder.new.place ≡ place) }
    ensures cause { IfErr result (λ b. (folder.new.bar ≡ Some b) × Rose folder.old.faults folder.new.faults) }
    ensures access { folder.new.access ≡ folder.old.access }
{
    match place {
        Some(place) => folder.go_to(place),
        None => Ok(()),
    }
}

// The name of a folder, as it is kept.
fn place_of(alloc: Global, name: Option<&str>) -> Result<Option<String>, AllocError>
    ensures { IfOk result (λ place. option_map string_bytes place ≡ option_map (λ f. f.now) name.entry) }
{
    match name {
        Some(name) => {
            let place = String::from_str(alloc, name)?;
            Ok(Some(place))
        }
        None => Ok(None),
    }
}

// Finds the input first, which is named where the call is made, and goes to the folder then.
fn entered<F: Files<File = File> + Env + Drop, R: Read + Drop>(
    folder: &mut SystemFolder<F>,
    file: Option<&str>,
    place: Option<String>,
    input: R,
) -> Result<CallInput<R>, Barred>
    requires new { (folder.old.place ≡ None) × (folder.old.faults ≡ 0) }
    ensures input { IfOk result (λ source. IsInputOf (option_map (λ f. f.now) file.entry) input source) }
    ensures place { OnOk result (folder.new.place ≡ place) }
    ensures cause { IfErr result (λ b. (folder.new.bar ≡ Some b) × Rose 0 folder.new.faults) }
    ensures access { folder.new.access ≡ folder.old.access }
{
    let source = input_of(folder, file, input)?;
    go_to(folder, place)?;
    Ok(source)
}

// Answers words that are parted.
fn called<
    H: Threads + Wait + Sync,
    F: Files<File = File> + Env + Drop + Send,
    R: Read + Drop,
    K: Sink,
    E: Sink,
>(
    rt: &H,
    alloc: Global,
    parts: &CallParts<'_>,
    input: R,
    sink: &mut K,
    errors: &mut E,
    folder: SystemFolder<F>,
) -> ExitCode
where
    F::Dir: Send,
    requires new { (folder.access ≡ Access.Unentered) × (folder.place ≡ None) × (folder.faults ≡ 0) }
    requires command { parts.now.command ≡ asked (map string_bytes parts.now.words.now) }
    ensures ends { SystemEndsSo ⟦<CallInput<R> as Source>⟧ K.Sink E.Sink ⟦<FileRack<SystemFolder<F>> as Rack>⟧
        ⟦<SystemFolder<F> as Folder>⟧
        (record { folder = λ r. r.folder; writes = λ r. r.writes; is_new = λ r. IsNew r.unsynced r.broken r.faults })
        (λ f. option_map string_bytes f.place) (parts_of parts.now) input sink.old errors.old sink.new errors.new
        (exit_status result) }
{
    let Ok(place) = place_of(alloc, parts.folder) else {
        return ExitCode::from(Status::NoMemory.number());
    };
    let mut folder = folder;
    match entered(&mut folder, parts.file, place, input) {
        Ok(source) => {
            let Ended { code, source, rack } = program(
                rt, alloc, parts, source, sink, errors, folder,
            );
            drop(source);
            drop(rack);
            code
        }
        Err(bar) => ExitCode::from(tell_barred(alloc, parts, bar, sink, errors)),
    }
}

// Answers the words behind the program's name.
fn called_by<
    H: Threads + Wait + Sync,
    F: Files<File = File> + Env + Drop + Send,
    R: Read + Drop,
    K: Sink,
    E: Sink,
>(
    rt: &H,
    alloc: Global,
    words: &[String],
    input: R,
    sink: &mut K,
    errors: &mut E,
    folder: SystemFolder<F>,
) -> ExitCode
where
    F::Dir: Send,
    requires new { (folder.access ≡ Access.Unentered) × (folder.place ≡ None) × (folder.faults ≡ 0) }
    ensures ends { SystemEndsSo ⟦<CallInput<R> as Source>⟧ K.Sink E.Sink ⟦<FileRack<SystemFolder<F>> as Rack>⟧
        ⟦<SystemFolder<F> as Folder>⟧
        (record { folder = λ r. r.folder; writes = λ r. r.writes; is_new = λ r. IsNew r.unsynced r.broken r.faults })
        (λ f. option_map string_bytes f.place) (parted (map string_bytes words.now)) input sink.old errors.old sink.new errors.new
        (exit_status result) }
{
    match call_parts(alloc, words) {
        Ok(parts) => called(rt, alloc, &parts, input, sink, errors, folder),
        Err(_) => ExitCode::from(Status::NoMemory.number()),
    }
}

/// Answers the words behind the first over what the system gives: its words, files and streams, which are given up at the end. In
/// front of a command `-C` may name the folder, and behind it a word the file that is read in place of the input.
pub fn program_of_system<
    H: Threads + Wait + Sync,
    F: Files<File = File> + Env + Drop + Send,
    R: Read + Drop,
    W: Write + Drop,
    E: Write + Drop,
>(
    rt: &H,
    alloc: Global,
    args: io::Result<Args>,
    files: F,
    input: R,
    output: W,
    errors: E,
) -> ExitCode
where
    F::Dir: Send,
    ensures ends { (sink : _) × (aside : _)
        × SystemEndsSo ⟦<CallInput<R> as Source>⟧ ⟦<StdSink<W> as Sink>⟧ ⟦<StdSink<E> as Sink>⟧
        ⟦<FileRack<SystemFolder<F>> as Rack>⟧ ⟦<SystemFolder<F> as Folder>⟧
        (record { folder = λ r. r.folder; writes = λ r. r.writes; is_new = λ r. IsNew r.unsynced r.broken r.faults })
        (λ f. option_map string_bytes f.place) (parted (words_behind args)) input (record { inner = output; faults = 0 })
        (record { inner = errors; faults = 0 }) sink aside (exit_status result) }
{
    let mut sink = StdSink::new(output);
    let mut errors = StdSink::new(errors);
    // It keeps closed streams closed, so it comes before anything is opened.
    let folder = SystemFolder::new(files);
    match words(alloc, args) {
        Ok(words) => called_by(rt, alloc, &words, input, &mut sink, &mut errors, folder),
        Err(_) => ExitCode::from(Status::NoMemory.number()),
    }
}
