//! The words that ask for help.
ghost use Rattle.std.specs.Prelude.{map, string_bytes};
ghost use Rattle.program_words.specs.Asked.{Answers};
ghost use Rattle.program_words.specs.Commands.{help_asked, option_asked};

use crate::names::name_of;
use crate::reading::Command;
use crate::refusals::WordsError;

/// Reads the words after `help`: none, or the name of a command.
pub(crate) fn read_help(rest: &[String]) -> Result<Command, WordsError>
    ensures { Answers (help_asked (map string_bytes rest.now)) result }
{
    let [word, more @ ..] = rest else {
        return Ok(Command::Help { about: None });
    };
    match name_of(word.as_str()) {
        Some(about) if more.is_empty() => Ok(Command::Help { about: Some(about) }),
        _ => Err(WordsError::BadWords),
    }
}

/// Reads a first word that names no command: `--help`, `-h` and `--version` ask for something where no word stands behind them.
pub(crate) fn read_option(word: &str, rest: &[String]) -> Result<Command, WordsError>
    ensures { Answers (option_asked word.now (map string_bytes rest.now)) result }
{
    if !rest.is_empty() {
        return Err(WordsError::BadWords);
    }
    match word {
        "--help" | "-h" => Ok(Command::Help { about: None }),
        "--version" => Ok(Command::Version),
        _ => Err(WordsError::BadWords),
    }
}
