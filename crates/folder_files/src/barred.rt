// Why a call can't begin, as the system tells it.
ghost use Rattle.std.specs.Prelude.{◌≡◌, ◌⊎◌, ◌↔◌};
ghost use Rattle.std_io.specs.IoError.{error_kind};

use std::io;
use std::io::ErrorKind;

/// What a call uses under a name.
#[derive(Clone, Copy, Debug, PartialEq, Eq)]
pub enum Subject {
    /// One of the nine files, by its number.
    File(u8),
    Folder,
    /// A file in place of standard input.
    Input,
}

/// Why a call can't begin.
#[derive(Clone, Copy, Debug, PartialEq, Eq)]
pub enum Barred {
    /// Another program has taken the folder.
    InUse,
    NoPermission(Subject),
    /// It is there, and is not a file.
    NotAFile(Subject),
    NotFound(Subject),
    /// The system failed otherwise.
    Fault(Subject),
}

/// Why something can't be opened, by the system's answer.
pub(crate) fn bar_of(subject: Subject, error: &io::Error) -> Barred
    ensures permission { (result ≡ Barred.NoPermission subject) ↔ (error_kind error.now ≡ ErrorKind.PermissionDenied) }
    ensures found { (result ≡ Barred.NotFound subject)
        ↔ ((error_kind error.now ≡ ErrorKind.NotFound) ⊎ (error_kind error.now ≡ ErrorKind.NotADirectory)) }
    ensures others { (result ≡ Barred.NoPermission subject) ⊎ (result ≡ Barred.NotFound subject) ⊎ (result ≡ Barred.Fault subject) }
{
    match error.kind() {
        ErrorKind::PermissionDenied => Barred::NoPermission(subject),
        ErrorKind::NotFound | ErrorKind::NotADirectory => Barred::NotFound(subject),
        _ => Barred::Fault(subject),
    }
}
