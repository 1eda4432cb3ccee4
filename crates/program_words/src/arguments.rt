//! Commands without arguments.
ghost use Rattle.std.specs.Prelude.{◌≡◌, ◌⊎◌, [], ◌∷◌, IfOk, codes, map, string_bytes};
ghost use Rattle.program_words.specs.Apps.{plain_app};
ghost use Rattle.program_words.specs.Asked.{Answers, nothing_asked};

use crate::refusals::{WordsError, cause_of};
use clap::Command;
use std::alloc::Global;

/// Reads the words after the name of a command that takes no argument.
pub(crate) fn read_no_argument(alloc: Global, name: &str, rest: &[String]) -> Result<(), WordsError>
    ensures asked { Answers (nothing_asked (plain_app name.now) (map string_bytes rest.now)) result }
    // Such a command takes no word, or `--` alone.
    ensures alone { IfOk result (λ _. (map string_bytes rest.now ≡ [])
        ⊎ (map string_bytes rest.now ≡ codes "--" ∷ [])) }
{
    let command = Command::new(alloc, name)
        .no_binary_name(true)
        .disable_help_flag(true)
        .disable_version_flag(true);
    match command.try_get_matches_from(rest) {
        Ok(_) => Ok(()),
        Err(error) => Err(cause_of(&error)),
    }
}
