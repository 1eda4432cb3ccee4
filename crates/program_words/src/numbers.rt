//! The arguments NUMBER and COUNT.
ghost use Rattle.std.specs.Prelude.{◌≡◌, ◌⊎◌, ◌≤◌, ℕ, Ok, Err, IfOk, map, string_bytes};
ghost use Rattle.program_words.specs.Asked.{Answers, numbers_asked};
ghost use Rattle.program_words.specs.Forms.{IsNumbersForm};

use crate::refusals::{WordsError, cause_of};
use clap::{Arg, ArgAction, Command, value_parser};
use std::alloc::Global;

/// Reads the words after the name of a command that takes NUMBER, a whole number of 64 bits, and COUNT, one from 1 to 256.
pub fn read_number_and_count(
    alloc: Global,
    name: &str,
    rest: &[String],
) -> Result<(u64, u32), WordsError>
    // Ok has the numbers that `clap` finds. The words are bad exactly where `clap` finds a fault in them.
    ensures asked { Answers (numbers_asked name.now (map string_bytes rest.now)) result }
    // Two numbers in range, written without a leading zero, are taken, unless memory is wanting.
    ensures complete { (number count : ℕ) → IsNumbersForm number count (map string_bytes rest.now)
        → (result ≡ Ok (number, count)) ⊎ (result ≡ Err WordsError.NoMemory) }
    ensures range { IfOk result (λ found. (1 ≤ found.1) × (found.1 ≤ 256)) }
{
    let number = Arg::new(alloc, "number")
        .required(true)
        .action(ArgAction::Set)
        .value_parser(value_parser!(u64));
    let count = Arg::new(alloc, "count")
        .required(true)
        .action(ArgAction::Set)
        .value_parser(value_parser!(u32).range(1..=256));
    let Ok(with_number) = Command::new(alloc, name)
        .no_binary_name(true)
        .disable_help_flag(true)
        .disable_version_flag(true)
        .arg(number)
    else {
        return Err(WordsError::NoMemory);
    };
    let Ok(command) = with_number.arg(count) else {
        return Err(WordsError::NoMemory);
    };
    match command.try_get_matches_from(rest) {
        Ok(matches) => matches
            .get_one::<u64>("number")
            .zip(matches.get_one::<u32>("count"))
            .ok_or(WordsError::BadWords),
        Err(error) => Err(cause_of(&error)),
    }
}
