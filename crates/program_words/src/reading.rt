//! A list of words as a command.
ghost use Rattle.std.specs.Prelude.{◌≡◌, ◌⊎◌, Ok, Err, IfOk, map, string_bytes};
ghost use Rattle.program_words.specs.Asked.{Answers};
ghost use Rattle.program_words.specs.Commands.{asked, asked_after};
ghost use Rattle.program_words.specs.Forms.{IsCommandForm, IsInRange};

use crate::arguments::read_no_argument;
use crate::flags::{read_flag, read_two_flags};
use crate::help::{read_help, read_option};
use crate::names::{CommandName, name_of};
use crate::numbers::read_number_and_count;
use crate::refusals::WordsError;
use crate::workers::read_workers;
use std::alloc::Global;

/// What the program is asked to do.
#[derive(Clone, Copy, Debug, PartialEq, Eq, Drop)]
pub enum Command {
    Check,
    Expand,
    /// With `values`, only under a catalog whose conflicts name each two operations of which the order can matter to the books. With
    /// `strict`, only of a scenario in which there is nothing to warn of.
    Init { values: bool, strict: bool },
    Run { workers: u32 },
    Session,
    Serve,
    Restart,
    Show,
    Replay,
    Verify,
    /// Of the log behind a scenario, or with `history` of the files.
    Audit { history: bool },
    Gen { number: u64, count: u32 },
    Bulk { number: u64, count: u32 },
    /// Of a command, or of all.
    Help { about: Option<CommandName> },
    Version,
}

/// Reads the words after the program's name.
pub fn read_words(alloc: Global, words: &[String]) -> Result<Command, WordsError>
    // Ok has the command that the words ask for. The words are bad exactly where they ask for none.
    ensures asked { Answers (asked (map string_bytes words.now)) result }
    // A command as it is written is taken, unless memory is wanting.
    ensures complete { (command : Command) → IsCommandForm command (map string_bytes words.now)
        → (result ≡ Ok command) ⊎ (result ≡ Err WordsError.NoMemory) }
    ensures range { IfOk result IsInRange }
{
    let [first, rest @ ..] = words else {
        return Err(WordsError::BadWords);
    };
    match name_of(first.as_str()) {
        Some(name) => read_after(alloc, name, rest),
        None => read_option(first.as_str(), rest),
    }
}

// Reads the words after the name of a command.
fn read_after(alloc: Global, name: CommandName, rest: &[String]) -> Result<Command, WordsError>
    ensures asked { Answers (asked_after name (map string_bytes rest.now)) result }
    ensures range { IfOk result IsInRange }
{
    match name {
        CommandName::Check => {
            read_no_argument(alloc, "check", rest)?;
            Ok(Command::Check)
        }
        CommandName::Expand => {
            read_no_argument(alloc, "expand", rest)?;
            Ok(Command::Expand)
        }
        CommandName::Init => {
            let (values, strict) = read_two_flags(alloc, "init", "values", "strict", rest)?;
            Ok(Command::Init { values, strict })
        }
        CommandName::Run => {
            let workers = read_workers(alloc, "run", rest)?;
            Ok(Command::Run { workers })
        }
        CommandName::Session => {
            read_no_argument(alloc, "session", rest)?;
            Ok(Command::Session)
        }
        CommandName::Serve => {
            read_no_argument(alloc, "serve", rest)?;
            Ok(Command::Serve)
        }
        CommandName::Restart => {
            read_no_argument(alloc, "restart", rest)?;
            Ok(Command::Restart)
        }
        CommandName::Show => {
            read_no_argument(alloc, "show", rest)?;
            Ok(Command::Show)
        }
        CommandName::Replay => {
            read_no_argument(alloc, "replay", rest)?;
            Ok(Command::Replay)
        }
        CommandName::Verify => {
            read_no_argument(alloc, "verify", rest)?;
            Ok(Command::Verify)
        }
        CommandName::Audit => {
            let history = read_flag(alloc, "audit", "history", rest)?;
            Ok(Command::Audit { history })
        }
        CommandName::Gen => {
            let (number, count) = read_number_and_count(alloc, "gen", rest)?;
            Ok(Command::Gen { number, count })
        }
        CommandName::Bulk => {
            let (number, count) = read_number_and_count(alloc, "bulk", rest)?;
            Ok(Command::Bulk { number, count })
        }
        CommandName::Help => read_help(rest),
        CommandName::Version => {
            read_no_argument(alloc, "version", rest)?;
            Ok(Command::Version)
        }
    }
}
