// How a command ended.
ghost use Rattle.std.specs.Prelude.{◌≡◌};
ghost use Rattle.command_refusals.specs.Statuses.{number_of};

/// How a command ended: `docs/COMMANDS.md`, 'Statuses'.
#[derive(Clone, Copy, Debug, PartialEq, Eq)]
pub enum Status {
    Done,
    BadWords,
    /// A text, a scenario or a line of the input is not of its form, or is of another catalog than the files.
    BadInput,
    IllFormed,
    Limit,
    Unfinished,
    BadFile,
    BookDiffers,
    ReadFault,
    WriteFault,
    DiskFault,
    Exhausted,
    /// A report is not accepted.
    NotReduced,
    NoMemory,
}

impl Status {
    /// The number with which the program ends.
    pub fn number(self) -> u8
        ensures { result ≡ number_of self }
    {
        match self {
            Status::Done => 0,
            Status::BadWords => 1,
            Status::BadInput => 2,
            Status::IllFormed => 3,
            Status::Limit => 4,
            Status::Unfinished => 5,
            Status::BadFile => 6,
            Status::BookDiffers => 7,
            Status::ReadFault => 8,
            Status::WriteFault => 9,
            Status::DiskFault => 10,
            Status::Exhausted => 11,
            Status::NotReduced => 12,
            Status::NoMemory => 13,
        }
    }
}
