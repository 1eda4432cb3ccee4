// What is said where a call can't begin.
ghost use Rattle.std.specs.Prelude.{◌≡◌, string_bytes, IfOk};
ghost use Rattle.call_words.specs.Borrowed.{parts_of};
ghost use Rattle.process_program.specs.Bars.{bar_hint, bar_line, bar_number, name_of, IsBarred};

use call_words::CallParts;
use command_input::tell;
use command_refusals::Status;
use file_rack::{Barred, Subject};
use process_flow::Sink;
use std::alloc::{AllocError, Global};

pub(crate) const IN_USE: &str =
    "hint: another program works in this folder; wait until it has ended\n";

pub(crate) const NO_PERMISSION: &str =
    "hint: look at the permissions of this, and of the folders that it is in\n";

pub(crate) const NOT_A_FILE: &str =
    "hint: a file is wanted here, and not a folder, a pipe or a device\n";

pub(crate) const NOT_FOUND: &str =
    "hint: there is no such file or folder; a FILE is looked for where tps is called, and not in the FOLDER of -C\n";

pub(crate) const FAULT: &str = "hint: a call of the system failed on this\n";

// What is named.
fn name_of(alloc: Global, parts: &CallParts<'_>, subject: Subject) -> Result<String, AllocError>
    ensures { IfOk result (λ name. string_bytes name ≡ name_of (parts_of parts.now) subject) }
{
    match subject {
        Subject::File(file) => format!(in alloc; "tps.{file}"),
        Subject::Folder => String::from_str(alloc, parts.folder.unwrap_or(".")),
        Subject::Input => String::from_str(alloc, parts.file.unwrap_or("-")),
    }
}

// The line of it.
fn line_of(alloc: Global, parts: &CallParts<'_>, bar: Barred) -> Result<String, AllocError>
    ensures { IfOk result (λ line. string_bytes line ≡ bar_line (parts_of parts.now) bar) }
{
    match bar {
        Barred::InUse => String::from_str(alloc, "folder in use\n"),
        Barred::NoPermission(subject) => {
            let name = name_of(alloc, parts, subject)?;
            format!(in alloc; "no permission {name}\n")
        }
        Barred::NotAFile(subject) => {
            let name = name_of(alloc, parts, subject)?;
            format!(in alloc; "not a file {name}\n")
        }
        Barred::NotFound(subject) => {
            let name = name_of(alloc, parts, subject)?;
            format!(in alloc; "not found {name}\n")
        }
        Barred::Fault(Subject::Input) => String::from_str(alloc, "read fault\n"),
        Barred::Fault(_) => String::from_str(alloc, "disk fault\n"),
    }
}

// What people are told beside the line.
fn hint_of(bar: Barred) -> &'static str
    ensures { result.now ≡ bar_hint bar }
{
    match bar {
        Barred::InUse => IN_USE,
        Barred::NoPermission(_) => NO_PERMISSION,
        Barred::NotAFile(_) => NOT_A_FILE,
        Barred::NotFound(_) => NOT_FOUND,
        Barred::Fault(_) => FAULT,
    }
}

// The number with which the program ends.
fn number_of(bar: Barred) -> u8
    ensures { result ≡ bar_number bar }
{
    match bar {
        Barred::InUse => 14,
        Barred::NoPermission(_) => 15,
        Barred::NotAFile(_) => 16,
        Barred::NotFound(_) => 17,
        Barred::Fault(Subject::Input) => Status::ReadFault.number(),
        Barred::Fault(_) => Status::DiskFault.number(),
    }
}

/// Tells why a call can't begin, and beside it what to do. The number is that with which the program ends. Where memory is wanting
/// for the line, nothing is told.
pub(crate) fn tell_barred<K: Sink, E: Sink>(
    alloc: Global,
    parts: &CallParts<'_>,
    bar: Barred,
    sink: &mut K,
    errors: &mut E,
) -> u8
    ensures { IsBarred K.Sink E.Sink (parts_of parts.now) bar sink.old errors.old sink.new errors.new result }
{
    let Ok(line) = line_of(alloc, parts, bar) else {
        return Status::NoMemory.number();
    };
    let ended = tell(sink, line.as_bytes(), Status::Done);
    let _at = tell(errors, hint_of(bar).as_bytes(), Status::Done);
    match ended {
        Status::Done => number_of(bar),
        other => other.number(),
    }
}
