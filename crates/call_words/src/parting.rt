// The parts of the words of a call.
ghost use Rattle.std.specs.Prelude.{◌≡◌, None, map, string_bytes, IfOk};
ghost use Rattle.std.specs.Option.{option_map};
ghost use Rattle.program_words.specs.Commands.{asked};
ghost use Rattle.call_words.specs.Parts.{folder_in, behind_folder, is_option, takes_file, parted, parted_by};
ghost use Rattle.call_words.specs.Borrowed.{parts_of, IsWhole};

use program_words::{Command, WordsError, read_words};
use std::alloc::{AllocError, Global};

/// The parts of the words of a call.
#[derive(Clone, Copy)]
pub struct CallParts<'a> {
    /// The folder to work in, where one is named.
    pub folder: Option<&'a str>,
    /// The file to read in place of standard input, where one is named.
    pub file: Option<&'a str>,
    /// The words of the command.
    pub words: &'a [String],
    /// What they ask for, or none.
    pub command: Option<Command>,
}

// The folder that stands in front, and the words behind it.
fn folder_of<'a>(words: &'a [String]) -> (Option<&'a str>, &'a [String])
    ensures folder { option_map (λ f. f.now) result.0 ≡ folder_in (map string_bytes words.now) }
    ensures words { map string_bytes result.1.now ≡ behind_folder (map string_bytes words.now) }
{
    match words {
        [option, folder, rest @ ..] if option.as_str() == "-C" => (Some(folder.as_str()), rest),
        _ => (None, words),
    }
}

// The command that words ask for, or none.
fn asked_of(alloc: Global, words: &[String]) -> Result<Option<Command>, AllocError>
    ensures { IfOk result (λ command. command ≡ asked (map string_bytes words.now)) }
{
    match read_words(alloc, words) {
        Ok(command) => Ok(Some(command)),
        Err(WordsError::BadWords) => Ok(None),
        Err(WordsError::NoMemory) => Err(AllocError),
    }
}

// Whether a command reads standard input.
fn takes_file(command: Option<Command>) -> bool
    ensures { result ≡ takes_file command }
{
    match command {
        Some(Command::Check)
        | Some(Command::Expand)
        | Some(
            Command::Init {
                values: _,
                strict: _,
            },
        )
        | Some(Command::Run { workers: _ })
        | Some(Command::Session)
        | Some(Command::Serve)
        | Some(Command::Verify)
        | Some(Command::Audit { history: _ }) => true,
        _ => false,
    }
}

// Whether a word begins as options do.
fn is_option(word: &str) -> bool
    ensures { result ≡ is_option word.now }
{
    match word.as_bytes() {
        [first, ..] => *first == b'-',
        _ => false,
    }
}

// The parts of words that are no command, or one with a file behind it.
fn with_file<'a>(
    alloc: Global,
    folder: Option<&'a str>,
    words: &'a [String],
) -> Result<CallParts<'a>, AllocError>
    requires { asked (map string_bytes words.now) ≡ None }
    ensures parts { IfOk result
        (λ p. parts_of p ≡ parted_by (option_map (λ f. f.now) folder.entry) (map string_bytes words.now)) }
    ensures command { IfOk result (λ p. p.command ≡ asked (map string_bytes p.words.now)) }
{
    let none = CallParts {
        folder,
        file: None,
        words,
        command: None,
    };
    let Some((last, front)) = words.split_last() else {
        return Ok(none);
    };
    match asked_of(alloc, front) {
        Ok(command) if takes_file(command) && !is_option(last.as_str()) => Ok(CallParts {
            folder,
            file: Some(last.as_str()),
            words: front,
            command,
        }),
        Ok(_) => Ok(none),
        Err(error) => Err(error),
    }
}

/// Parts the words behind the program's name. It fails where memory is wanting.
pub fn call_parts<'a>(alloc: Global, words: &'a [String]) -> Result<CallParts<'a>, AllocError>
    ensures parts { IfOk result (λ p. parts_of p ≡ parted (map string_bytes words.now)) }
    ensures command { IfOk result (λ p. p.command ≡ asked (map string_bytes p.words.now)) }
    // Words that are a command by themselves stay as they are.
    ensures whole { IfOk result (λ p. IsWhole (map string_bytes words.now) (parts_of p)) }
{
    let (folder, rest) = folder_of(words);
    match asked_of(alloc, rest) {
        Ok(Some(command)) => Ok(CallParts {
            folder,
            file: None,
            words: rest,
            command: Some(command),
        }),
        Ok(None) => with_file(alloc, folder, rest),
        Err(error) => Err(error),
    }
}
