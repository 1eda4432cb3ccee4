//! Options without a value.
ghost use Rattle.std.specs.Prelude.{◌≡◌, ℕ, List, map, option_map, string_bytes};
ghost use Rattle.std.specs.Borrow.{Bor};
ghost use Rattle.program_words.specs.Asked.{is_true, Answers, flag_asked, flags_asked};

use crate::refusals::{WordsError, cause_of};
use clap::{Arg, ArgAction, Command};
use std::alloc::Global;

// Whether the text of an option is that of one which is given.
fn is_true(text: Option<&str>) -> bool
    ensures { result ≡ is_true (option_map (λ (s : Bor (List ℕ)). s.now) text.entry) }
{
    match text {
        Some(word) => word == "true",
        None => false,
    }
}

/// Reads the words after the name of a command that takes one option without a value, and nothing else: whether it is given.
pub(crate) fn read_flag(
    alloc: Global,
    name: &str,
    option: &str,
    rest: &[String],
) -> Result<bool, WordsError>
    // Ok tells whether `clap` finds the option. The words are bad exactly where `clap` finds a fault in them.
    ensures { Answers (flag_asked name.now option.now (map string_bytes rest.now)) result }
{
    let flag = Arg::new(alloc, option)
        .long(option)
        .action(ArgAction::SetTrue);
    let Ok(command) = Command::new(alloc, name)
        .no_binary_name(true)
        .disable_help_flag(true)
        .disable_version_flag(true)
        .arg(flag)
    else {
        return Err(WordsError::NoMemory);
    };
    match command.try_get_matches_from(rest) {
        Ok(matches) => Ok(is_true(matches.get_str(option))),
        Err(error) => Err(cause_of(&error)),
    }
}

/// The same of a command that takes two such options: whether each of them is given.
pub(crate) fn read_two_flags(
    alloc: Global,
    name: &str,
    first: &str,
    second: &str,
    rest: &[String],
) -> Result<(bool, bool), WordsError>
    // Ok tells which options `clap` finds. The words are bad exactly where `clap` finds a fault in them.
    ensures { Answers (flags_asked name.now first.now second.now (map string_bytes rest.now)) result }
{
    let flag = Arg::new(alloc, first)
        .long(first)
        .action(ArgAction::SetTrue);
    let other = Arg::new(alloc, second)
        .long(second)
        .action(ArgAction::SetTrue);
    let Ok(with_flag) = Command::new(alloc, name)
        .no_binary_name(true)
        .disable_help_flag(true)
        .disable_version_flag(true)
        .arg(flag)
    else {
        return Err(WordsError::NoMemory);
    };
    let Ok(command) = with_flag.arg(other) else {
        return Err(WordsError::NoMemory);
    };
    match command.try_get_matches_from(rest) {
        Ok(matches) => {
            let given = is_true(matches.get_str(first));
            let also = is_true(matches.get_str(second));
            Ok((given, also))
        }
        Err(error) => Err(cause_of(&error)),
    }
}
