// Reading a text.
ghost use Rattle.std.specs.Prelude.{◌≡◌, ◌⊎◌, List, Some, None, IfOk, IfErr, OnOk};
ghost use Rattle.process_tree.specs.declared.tree.Named.{Named};
ghost use Rattle.process_text.specs.Again.{IsAgain};
ghost use Rattle.text_words.specs.Words.{words_of};
ghost use Rattle.process_text.specs.Grammar.{IsReading, text_pieces, pieces_of_process};
ghost use Rattle.process_text.specs.Places.{text_error};

use crate::places::error_at;
use crate::processes::read_processes;
use crate::{TextError, print};
use process_tree::{Name, Named, Tree};
use std::alloc::Global;
use text_words::Words;

/// Reads a process text.
pub fn read(alloc: Global, bytes: &[u8]) -> Result<Vec<Named>, TextError>
    // At `Ok` the words are those of these processes, within the limits.
    ensures reading { IfOk result (λ found. IsReading (words_of bytes.now) found.items) }
    // Then the text has no fault: one without a fault is read, but for want of memory.
    ensures no_fault { OnOk result (text_error bytes.now ≡ None) }
    // An error is the first fault, with its place.
    ensures fault { IfErr result (λ e. (e ≡ TextError.NoMemory) ⊎ (text_error bytes.now ≡ Some e)) }
    // Then the words are of no processes within the limits.
    ensures no_reading { IfErr result (λ e. (e ≡ TextError.NoMemory)
        ⊎ ((ps : List Named) → ¬ IsReading (words_of bytes.now) ps)) }
{
    read_text(alloc, bytes)
}

// The same without what follows of it.
fn read_text(alloc: Global, bytes: &[u8]) -> Result<Vec<Named>, TextError>
    ensures reading { IfOk result (λ found. IsReading (words_of bytes.now) found.items) }
    ensures fault { IfErr result (λ e. (e ≡ TextError.NoMemory) ⊎ (text_error bytes.now ≡ Some e)) }
{
    let mut words = Words::new(bytes);
    match read_processes(alloc, &mut words) {
        Ok(found) => Ok(found),
        Err(fault) => Err(error_at(bytes, words.count(), fault)),
    }
}

/// Reads the canonical text of a process again.
pub fn read_again(alloc: Global, name: &Name, tree: &Tree) -> Result<Vec<Named>, TextError>
    // What is read is one process of that name and with a tree that equals that one, wherever both lie in memory.
    ensures again { IfOk result (λ found. IsAgain name.now tree.now found.items) }
    // It has the same pieces.
    ensures same { IfOk result (λ found. text_pieces found.items ≡ pieces_of_process name.now tree.now) }
    ensures memory { IfErr result (λ e. e ≡ TextError.NoMemory) }
{
    match print(alloc, name, tree) {
        Ok(text) => read(alloc, &text),
        Err(_) => Err(TextError::NoMemory),
    }
}
