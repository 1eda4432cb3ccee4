// Numbers in words.
ghost use Rattle.std.specs.Prelude.{◌≡◌, ◌≢◌, ◌≤◌, ◌∷◌, true, false, not, ◌&&◌, nat_eq, ◌⊎◌, IfSome, IfNone, is_some, IsTrue, ℕ};
ghost use Rattle.std.specs.Prelude.{slice_index, length, decimal};
ghost use Rattle.std.specs.Fmt.{signed_decimal};
ghost use Rattle.std.specs.Str.Parse.{digits_value};
ghost use Rattle.process_tree.specs.Making.{is_amount};
ghost use Rattle.text_words.specs.Numbers.{is_number, is_key, is_amount_word};

use std::str;

const MOST_KEY: u64 = 4294967295;

const MOST_AMOUNT: u64 = 1000000000;

// Whether the word begins with a plus, or with a zero before more.
fn is_padded(word: &[u8]) -> bool
    ensures plus { result ≡ false → slice_index word.now 0 ≢ 43 }
    ensures zero { result ≡ false → slice_index word.now 0 ≡ 48 → length word.now ≡ 1 }
    ensures padded { IsTrue result → (slice_index word.now 0 ≡ 43) ⊎ ((slice_index word.now 0 ≡ 48) × (length word.now ≢ 1)) }
{
    match word {
        [b'+', ..] => true,
        [b'0', ..] => word.len() != 1,
        _ => false,
    }
}

// The number that a word writes, without a sign or a leading zero, if it is at most `most`.
fn parsed(word: &[u8], most: u64) -> Option<u64>
    ensures some { IfSome result (λ n. (word.now ≡ decimal n) × (n ≤ most)) }
    ensures none { IfNone result ((n : ℕ) → n ≤ most → word.now ≢ decimal n) }
{
    if is_padded(word) {
        return None;
    }
    let text = match str::from_utf8(word) {
        Ok(text) => text,
        Err(_) => return None,
    };
    let n = match text.parse::<u64>() {
        Ok(n) => n,
        Err(_) => return None,
    };
    if n > most {
        return None;
    }
    Some(n)
}

/// The number that a word writes, without a sign or a leading zero, if it is at most `most`.
pub fn number(word: &[u8], most: u64) -> Option<u64>
    ensures value { IfSome result (λ n. (word.now ≡ decimal n) × (n ≤ most)) }
    ensures test { is_some result ≡ is_number most word.now }
{
    parsed(word, most)
}

/// The key that a word writes.
pub fn key(word: &[u8]) -> Option<u32>
    ensures value { IfSome result (λ n. word.now ≡ decimal n) }
    ensures test { is_some result ≡ is_key word.now }
{
    match number(word, MOST_KEY) {
        Some(n) => Some(n as u32),
        None => None,
    }
}

/// The amount that a word writes. A minus stands before a number above 0 alone.
pub fn amount(word: &[u8]) -> Option<i64>
    ensures value { IfSome result (λ z. (word.now ≡ signed_decimal z) × (is_amount z ≡ true)) }
    ensures test { is_some result ≡ is_amount_word word.now }
{
    match word {
        [] => None,
        [b'-', digits @ ..] => negative(digits),
        _ => positive(word),
    }
}

// The amount that is written without a minus.
fn positive(word: &[u8]) -> Option<i64>
    ensures value { IfSome result (λ z. (word.now ≡ signed_decimal z) × (is_amount z ≡ true)) }
    ensures test { is_some result ≡ is_number MOST_AMOUNT word.now }
{
    match number(word, MOST_AMOUNT) {
        Some(n) => Some(n as i64),
        None => None,
    }
}

// The amount whose digits stand behind a minus.
fn negative(digits: &[u8]) -> Option<i64>
    ensures value { IfSome result (λ z. (45 ∷ digits.now ≡ signed_decimal z) × (is_amount z ≡ true)) }
    ensures test { is_some result ≡ (is_number MOST_AMOUNT digits.now && not (nat_eq (digits_value 10 digits.now) 0)) }
{
    match number(digits, MOST_AMOUNT) {
        Some(0) => None,
        Some(n) => Some(-(n as i64)),
        None => None,
    }
}
