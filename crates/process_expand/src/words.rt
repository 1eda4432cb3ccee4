// The words of a text, by number.
ghost use Rattle.std.specs.Prelude.{◌≡◌, map, IfOk};
ghost use Rattle.text_words.specs.Words.{words_of};

use std::alloc::{AllocError, Global};
use text_words::Words;

/// The words of a text.
pub fn words<'a>(alloc: Global, bytes: &'a [u8]) -> Result<Vec<&'a [u8]>, AllocError>
    ensures { IfOk result (λ words. map (λ w. w.now) words.items ≡ words_of bytes.now) }
{
    let mut rest = Words::new(bytes);
    let mut words = Vec::new(alloc);
    while let Some(word) = rest.next_word() {
        words.push(word)?;
    }
    Ok(words)
}
