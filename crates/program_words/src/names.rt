//! The names of the commands.
ghost use Rattle.std.specs.Prelude.{◌≡◌};
ghost use Rattle.program_words.specs.Names.{named};

/// The name of a command.
#[derive(Clone, Copy, Debug, PartialEq, Eq, Drop)]
pub enum CommandName {
    Check,
    Expand,
    Init,
    Run,
    Session,
    Serve,
    Restart,
    Show,
    Replay,
    Verify,
    Audit,
    Gen,
    Bulk,
    Help,
    Version,
}

/// The command that the word names, if it names one.
pub(crate) fn name_of(word: &str) -> Option<CommandName>
    ensures { result ≡ named word.now }
{
    match word {
        "check" => Some(CommandName::Check),
        "expand" => Some(CommandName::Expand),
        "init" => Some(CommandName::Init),
        "run" => Some(CommandName::Run),
        "session" => Some(CommandName::Session),
        "serve" => Some(CommandName::Serve),
        "restart" => Some(CommandName::Restart),
        "show" => Some(CommandName::Show),
        "replay" => Some(CommandName::Replay),
        "verify" => Some(CommandName::Verify),
        "audit" => Some(CommandName::Audit),
        "gen" => Some(CommandName::Gen),
        "bulk" => Some(CommandName::Bulk),
        "help" => Some(CommandName::Help),
        "version" => Some(CommandName::Version),
        _ => None,
    }
}
