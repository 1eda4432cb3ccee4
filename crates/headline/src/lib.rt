//! The headline: what a stop within `run`, `session`, `serve` or `restart` leaves is restored by `restart`.
//!
//! `specs/Headline` quotes the sentence and says what each part of it is: what a stopped call leaves behind, on what premises a
//! restart follows it, and what the restart makes of that. `stops_are_restored` proves it of any calls that were answered as
//! `process_top` says, over any sources, sinks, racks, boxes and gates. `specs/Chains` says it of any number of calls in one folder,
//! one after another, and `nothing_is_lost` proves that. `specs/Answered` says of the answers of a dialogue what a driver may rely on, and
//! `answers_are_kept` proves it. `specs/Printed` says the same of what `run` and `session` print at their end, and `printed_is_kept`
//! proves it. Nothing here runs.
#![tactic(auto)]

ghost use Rattle.headline.specs.Answered.{AnswersAreKept};
ghost use Rattle.headline.specs.Chains.{ChainsLoseNothing};
ghost use Rattle.headline.specs.Headline.{Headline, StopsAreRestored};
ghost use Rattle.headline.specs.Printed.{PrintedIsKept};

use history_opening::sound_files_are_opened;
use process_disk::Rack;
use process_engine::Gate;
use process_flow::{Sink, Source};
use process_top::printed_lists_keep_values;
use resource_box::Resource;
use subsystem_store::books_are_read_back;

/// Whatever a call of `run`, `session`, `serve` or `restart` did and wherever it is stopped, `restart` reads a beginning of its
/// history with all that was acknowledged, completes it and prints it. Where it ends, and the rack failed no call, the next call
/// finds the files of its history.
pub fn stops_are_restored<S: Source, K: Sink, R: Rack + Drop, B: Resource, G: Gate>()
    ensures stops { StopsAreRestored S.Source K.Sink R.Rack B.Resource G.Gate }
    ensures headline { Headline S.Source K.Sink R.Rack B.Resource G.Gate }
{
    sound_files_are_opened();
    books_are_read_back();
    printed_lists_keep_values();
}

/// However many such calls follow one another in one folder, ended or stopped: each reads a history that begins with all that was
/// acknowledged before it, and goes on from there.
pub fn nothing_is_lost<S: Source, K: Sink, R: Rack + Drop, B: Resource, G: Gate>()
    ensures { ChainsLoseNothing S.Source K.Sink R.Rack B.Resource G.Gate }
{
    sound_files_are_opened();
    books_are_read_back();
    printed_lists_keep_values();
}

/// Whatever `serve` answered is there for the next call: what is read of files that a stop left, no sooner than an answer was whole,
/// begins with all that the machine had come to by then.
pub fn answers_are_kept<S: Source, K: Sink, R: Rack + Drop, B: Resource, G: Gate>()
    ensures { AnswersAreKept S.Source K.Sink R.Rack B.Resource G.Gate }
{}

/// Whatever `run` and `session` printed at their end is there for the next call: the files that it finds read as those of the history
/// that was told.
pub fn printed_is_kept<S: Source, K: Sink, R: Rack + Drop, B: Resource, G: Gate>()
    ensures { PrintedIsKept S.Source K.Sink R.Rack B.Resource G.Gate }
{}
