// What a scenario wants of a key, and what a text of processes wants behind a step.
ghost use Rattle.std.specs.Prelude.{◌≡◌};
ghost use Rattle.refusal_hints.specs.Remedies.{key_remedy, next_remedy};

use crate::remedies;

/// About a key of a scenario.
pub(crate) fn key_remedy(key: &str) -> &'static str
    ensures { result.now ≡ key_remedy key.now }
{
    match key {
        "version" => remedies::VERSION,
        "conflicts" => remedies::CONFLICTS,
        "processes" => remedies::TEXT,
        "op" => remedies::OP,
        "name" => remedies::OP_NAME,
        "subsystem" => remedies::SUBSYSTEM,
        "verb" => remedies::VERB,
        _ => remedies::NO_KEY,
    }
}

/// About a word that stands behind a step, where another was expected.
pub(crate) fn word_remedy(word: &str) -> &'static str
    ensures { result.now ≡ next_remedy word.now }
{
    match word {
        "tries" => remedies::TRIES,
        "undo" => remedies::UNDO,
        "undorefuse" => remedies::UNDO,
        "refuse" => remedies::REFUSE,
        "process" => remedies::UNENDED,
        "end" => remedies::UNDONE,
        "or" => remedies::UNCHOSEN,
        "done" => remedies::UNCHOSEN,
        _ => remedies::NEXT,
    }
}
