//! The option `--workers`.
ghost use Rattle.std.specs.Prelude.{◌≡◌, ◌⊎◌, ◌≤◌, ℕ, Ok, Err, IfOk, map, string_bytes};
ghost use Rattle.program_words.specs.Asked.{Answers, workers_asked};
ghost use Rattle.program_words.specs.Forms.{IsWorkersForm};

use crate::refusals::{WordsError, cause_of};
use clap::{Arg, ArgAction, Command, value_parser};
use std::alloc::Global;

/// Reads the words after the name of a command that takes the option `--workers`, one whole number from 1 to 16, and 1 where it
/// isn't given.
pub fn read_workers(alloc: Global, name: &str, rest: &[String]) -> Result<u32, WordsError>
    // Ok has the number that `clap` finds. The words are bad exactly where `clap` finds a fault in them.
    ensures asked { Answers (workers_asked name.now (map string_bytes rest.now)) result }
    // A number in range, written without a leading zero, is taken, and no word is 1, unless memory is wanting.
    ensures complete { (workers : ℕ) → IsWorkersForm workers (map string_bytes rest.now)
        → (result ≡ Ok workers) ⊎ (result ≡ Err WordsError.NoMemory) }
    ensures range { IfOk result (λ workers. (1 ≤ workers) × (workers ≤ 16)) }
{
    let workers = Arg::new(alloc, "workers")
        .long("workers")
        .action(ArgAction::Set)
        .value_parser(value_parser!(u32).range(1..=16))
        .default_value("1");
    let Ok(command) = Command::new(alloc, name)
        .no_binary_name(true)
        .disable_help_flag(true)
        .disable_version_flag(true)
        .arg(workers)
    else {
        return Err(WordsError::NoMemory);
    };
    match command.try_get_matches_from(rest) {
        Ok(matches) => matches
            .get_one::<u32>("workers")
            .ok_or(WordsError::BadWords),
        Err(error) => Err(cause_of(&error)),
    }
}
