// Commands that print a text which their words alone decide: `gen`, `help` and `version`.
ghost use Rattle.std.specs.Prelude.{◌≤◌};
ghost use Rattle.process_top.specs.Gen.{IsGenDue};
ghost use Rattle.process_top.specs.Help.{IsHelpDue, IsVersionDue};
ghost use Rattle.process_top.specs.Said.{Says};

use command_help::{help_text, version_text};
use command_input::Said;
use command_refusals::{Refusal, Status};
use program_words::CommandName;
use scenario_gen::generate;
use std::alloc::Global;

/// The scenario of two numbers.
pub fn scenario(alloc: Global, number: u64, count: u32) -> Result<Said, Refusal>
    requires { (1 ≤ count) × (count ≤ 256) }
    ensures { Says (IsGenDue number count) result }
{
    let text = generate(alloc, number, count)?;
    Ok(Said {
        text,
        status: Status::Done,
    })
}

/// The page of help on a command, or on all.
pub fn help(alloc: Global, about: Option<CommandName>) -> Result<Said, Refusal>
    ensures { Says (IsHelpDue about) result }
{
    let text = help_text(alloc, about)?;
    Ok(Said {
        text,
        status: Status::Done,
    })
}

/// The name and the version of the program.
pub fn version(alloc: Global) -> Result<Said, Refusal>
    ensures { Says IsVersionDue result }
{
    let text = version_text(alloc)?;
    Ok(Said {
        text,
        status: Status::Done,
    })
}
