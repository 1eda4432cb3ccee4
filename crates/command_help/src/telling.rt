// Which page is asked for.
ghost use Rattle.std.specs.Prelude.{◌≡◌, IfOk};
ghost use Rattle.command_help.specs.Pages.{page_of, version_line};

use crate::pages;
use program_words::CommandName;
use std::alloc::{AllocError, Global};

// The page on a command, or on all.
fn page_of(about: Option<CommandName>) -> &'static str
    ensures { result.now ≡ page_of about }
{
    match about {
        None => pages::COMMANDS,
        Some(CommandName::Check) => pages::CHECK,
        Some(CommandName::Expand) => pages::EXPAND,
        Some(CommandName::Init) => pages::INIT,
        Some(CommandName::Run) => pages::RUN,
        Some(CommandName::Session) => pages::SESSION,
        Some(CommandName::Serve) => pages::SERVE,
        Some(CommandName::Restart) => pages::RESTART,
        Some(CommandName::Show) => pages::SHOW,
        Some(CommandName::Replay) => pages::REPLAY,
        Some(CommandName::Verify) => pages::VERIFY,
        Some(CommandName::Audit) => pages::AUDIT,
        Some(CommandName::Gen) => pages::GEN,
        Some(CommandName::Bulk) => pages::BULK,
        Some(CommandName::Help) => pages::HELP,
        Some(CommandName::Version) => pages::VERSION,
    }
}

// The bytes of a text.
fn bytes_of(alloc: Global, text: &str) -> Result<Vec<u8>, AllocError>
    ensures { IfOk result (λ bytes. bytes.items ≡ text.now) }
{
    let mut bytes = Vec::new(alloc);
    bytes.extend_from_slice(text.as_bytes())?;
    Ok(bytes)
}

/// The page on a command, or on all.
pub fn help_text(alloc: Global, about: Option<CommandName>) -> Result<Vec<u8>, AllocError>
    ensures { IfOk result (λ text. text.items ≡ page_of about) }
{
    bytes_of(alloc, page_of(about))
}

/// The name and the version of the program.
pub fn version_text(alloc: Global) -> Result<Vec<u8>, AllocError>
    ensures { IfOk result (λ text. text.items ≡ version_line) }
{
    bytes_of(alloc, "tps 1.0.0\n")
}
