// The words of a call.
ghost use Rattle.std.specs.Prelude.{◌≡◌, drop, map, string_bytes, IfOk};
ghost use Rattle.std.specs.Vec.Iter.{into_iter_items};
ghost use Rattle.process_program.specs.Words.{words_behind};

use std::alloc::{AllocError, Global};
use std::env::Args;
use std::io;

// The words behind the first.
fn rest(alloc: Global, args: Args) -> Result<Vec<String>, AllocError>
    ensures { IfOk result (λ words. words.items ≡ drop 1 (into_iter_items args)) }
{
    let mut args = args;
    let _name = args.next();
    let mut words = Vec::new(alloc);
    while let Some(word) = args.next() {
        words.push(word)?;
    }
    Ok(words)
}

/// The words of a call; none where the system's words are no text.
pub(crate) fn words(alloc: Global, args: io::Result<Args>) -> Result<Vec<String>, AllocError>
    ensures { IfOk result (λ words. map string_bytes words.items ≡ words_behind args) }
{
    match args {
        Ok(args) => rest(alloc, args),
        Err(_) => Ok(Vec::new(alloc)),
    }
}
