// Numbers of options.
ghost use Rattle.std.specs.Prelude.{◌≡◌, true, IfSome, is_some, decimal};
ghost use Rattle.text_words.specs.Marks.{takes, is_setting_number};

use crate::{Setting, number};
use process_tree::{MOST_REFUSALS, MOST_TRIES};

// Whether an option takes this number.
fn takes(setting: Setting, number: u8) -> bool
    ensures { result ≡ takes setting number }
{
    match setting {
        Setting::Tries | Setting::Undo => 1 <= number && number <= MOST_TRIES,
        Setting::Refuse | Setting::UndoRefuse => number <= MOST_REFUSALS,
    }
}

/// The number of an option that a word writes, if the option takes it.
pub fn setting_number(setting: Setting, word: &[u8]) -> Option<u8>
    ensures value { IfSome result (λ n. (word.now ≡ decimal n) × (takes setting n ≡ true)) }
    ensures test { is_some result ≡ is_setting_number setting word.now }
{
    let n = match number(word, 99) {
        Some(n) => n as u8,
        None => return None,
    };
    if !takes(setting, n) {
        return None;
    }
    Some(n)
}
