// Refusals: why a command did not do what it is for.
ghost use Rattle.std.specs.Prelude.{◌≡◌, ◌++◌, Some, true, codes, IfSome, IfNone};
ghost use Rattle.command_refusals.specs.Refusals.{error_status, report_status, refusal_status, refusal_text, needs_memory};
ghost use Rattle.command_refusals.specs.declared.refusal.Refusal.TheVariants.{NoMemory};

use crate::{FileFault, Quantity, ReportFault, ScenarioFault, Status};
use process_text::TextError;
use process_tree::Name;
use std::alloc::{AllocError, AllocFailed};
use std::error::Error;
use std::fmt;

/// Why a command did not do what it is for: `docs/COMMANDS.md`, 'Statuses'. It reads as the line that is printed, without its line
/// feed.
#[derive(Drop)]
pub enum Refusal {
    BadWords,
    /// What is wrong first with a text of processes.
    Text(TextError),
    Scenario(ScenarioFault),
    /// The first byte, counted from 0, at which the catalog of a scenario differs from that of the files.
    CatalogDiffers(u32),
    /// These two operations of the catalog conflict in value, and no conflict names them: their order can matter to the books. The
    /// second may be the first.
    Commuting(Name, Name),
    /// The first line of the input that is no line of a session, counted from 1.
    BadLine(u32),
    /// There are so many of these, which is more than may be.
    Limit(Quantity, u32),
    /// The least active process of the files.
    Unfinished(u32),
    File(FileFault),
    /// The first place, counted from 1, at which the book of this subsystem is not what the history says.
    BookDiffers(u8, u32),
    Report(ReportFault),
    ReadFault,
    DiskFault,
    /// This process is stuck, since this step, or its undo, was refused as often as it may be tried.
    Exhausted(u32, Name),
    NoMemory,
}

// The status of what is wrong with a text.
fn error_status(error: &TextError) -> Status
    ensures { result ≡ error_status error.now }
{
    match error {
        TextError::Limit(_, _) => Status::Limit,
        TextError::NoMemory => Status::NoMemory,
        TextError::BadText(_, _, _) | TextError::SameName(_, _) => Status::BadInput,
    }
}

// The status of a report that is not accepted.
fn report_status(fault: ReportFault) -> Status
    ensures { result ≡ report_status fault }
{
    match fault {
        ReportFault::BadText(_) => Status::BadInput,
        ReportFault::StepRefused(_) | ReportFault::NotSerial(_) | ReportFault::SerialDiffers(_) =>
            Status::NotReduced,
    }
}

impl Refusal {
    /// The status to which it leads.
    pub fn status(&self) -> Status
        ensures { result ≡ refusal_status self.now }
    {
        match self {
            Refusal::BadWords => Status::BadWords,
            Refusal::Scenario(_)
            | Refusal::CatalogDiffers(_)
            | Refusal::Commuting(_, _)
            | Refusal::BadLine(_) => Status::BadInput,
            Refusal::Text(error) => error_status(error),
            Refusal::Limit(_, _) => Status::Limit,
            Refusal::Unfinished(_) => Status::Unfinished,
            Refusal::File(_) => Status::BadFile,
            Refusal::BookDiffers(_, _) => Status::BookDiffers,
            Refusal::Report(fault) => report_status(*fault),
            Refusal::ReadFault => Status::ReadFault,
            Refusal::DiskFault => Status::DiskFault,
            Refusal::Exhausted(_, _) => Status::Exhausted,
            Refusal::NoMemory => Status::NoMemory,
        }
    }

    /// The line with its line feed, where it is always the same: to tell it takes no memory.
    pub fn fixed_line(&self) -> Option<&'static [u8]>
        ensures line { IfSome result (λ line. line.now ≡ refusal_text self.now ++ codes "\n") }
        ensures other { IfNone result (needs_memory self.now ≡ true) }
    {
        match self {
            Refusal::BadWords => Some(b"bad words\n"),
            Refusal::Scenario(ScenarioFault::BadToml) => Some(b"bad toml\n"),
            Refusal::ReadFault => Some(b"read fault\n"),
            Refusal::DiskFault => Some(b"disk fault\n"),
            Refusal::NoMemory => Some(b"no memory\n"),
            _ => None,
        }
    }
}

impl fmt::Display for Refusal {
    ghost output = { λ r. Some (refusal_text r) };

    fn fmt<W: fmt::Write>(&self, f: &mut fmt::Formatter<W>) -> fmt::Result {
        match self {
            Refusal::BadWords => f.write_str("bad words"),
            Refusal::Text(error) => write!(f, "{error}"),
            Refusal::Scenario(fault) => write!(f, "{fault}"),
            Refusal::CatalogDiffers(n) => write!(f, "catalog differs at byte {n}"),
            Refusal::Commuting(first, second) => write!(f, "commuting {first} {second}"),
            Refusal::BadLine(n) => write!(f, "bad line {n}"),
            Refusal::Limit(quantity, n) => write!(f, "limit {quantity} {n}"),
            Refusal::Unfinished(i) => write!(f, "unfinished {i}"),
            Refusal::File(fault) => write!(f, "{fault}"),
            Refusal::BookDiffers(q, n) => write!(f, "book differs subsystem {q} at {n}"),
            Refusal::Report(fault) => write!(f, "{fault}"),
            Refusal::ReadFault => f.write_str("read fault"),
            Refusal::DiskFault => f.write_str("disk fault"),
            Refusal::Exhausted(i, step) => write!(f, "exhausted {i} {step}"),
            Refusal::NoMemory => f.write_str("no memory"),
        }
    }
}

impl fmt::Debug for Refusal {
    ghost debug_output = { λ r. Some (refusal_text r) };

    fn fmt<W: fmt::Write>(&self, f: &mut fmt::Formatter<W>) -> fmt::Result {
        fmt::Display::fmt(self, f)
    }
}

impl Error for Refusal {}

impl From<AllocError> for Refusal {
    ghost from_gives = { λ _ r. r ≡ NoMemory };

    fn from(_: AllocError) -> Self {
        Refusal::NoMemory
    }
}

impl<T: Drop> From<AllocFailed<T>> for Refusal {
    ghost from_gives = { λ _ r. r ≡ NoMemory };

    fn from(_: AllocFailed<T>) -> Self {
        Refusal::NoMemory
    }
}
