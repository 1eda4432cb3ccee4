// Names that a text gives.
ghost use Rattle.std.specs.Prelude.{◌≡◌, ◌∷◌, ◌++◌, [], ◌⊎◌, ℕ, List, true, false, IfOk, IfErr};
ghost use Rattle.std.specs.List.{list_any};
ghost use Rattle.process_tree.specs.Name.{is_name};
ghost use Rattle.process_tree.specs.Making.{same_text};
ghost use Rattle.process_text.specs.FirstFault.{Turn, told, told_after, told_from};
ghost use Rattle.process_text.specs.Leading.{told_of_new};

use crate::Fault;
use process_tree::{Name, NameError, is_name};
use std::alloc::Global;
use text_words::{Expected, Names, Words};

/// The name that a word is.
pub fn name_of(alloc: Global, word: &[u8]) -> Result<Name, Fault>
    requires { is_name word.now ≡ true }
    ensures name { IfOk result (λ name. name ≡ word.now) }
    ensures memory { IfErr result (λ e. e ≡ Fault.NoMemory) }
{
    match Name::new(alloc, word) {
        Ok(name) => Ok(name),
        Err(NameError::NoMemory) => Err(Fault::NoMemory),
        Err(NameError::BadName) => unreachable!(),
    }
}

/// The fault that a name is taken.
pub fn same_name(alloc: Global, word: &[u8]) -> Fault
    requires { is_name word.now ≡ true }
    ensures { (result ≡ Fault.NoMemory) ⊎ (result ≡ Fault.SameName word.now) }
{
    match name_of(alloc, word) {
        Ok(name) => Fault::SameName(name),
        Err(fault) => fault,
    }
}

/// A name that isn't taken, and is taken from then on.
pub fn read_new_name<'a>(
    alloc: Global,
    words: &mut Words<'a>,
    names: &mut Names<'a>,
) -> Result<Name, Fault>
    ensures word { IfOk result (λ name. words.old ≡ name ∷ words.new) }
    ensures name { IfOk result (λ name. is_name name ≡ true) }
    ensures new { IfOk result (λ name. list_any (same_text name) names.old ≡ false) }
    ensures taken { IfOk result (λ name. names.new ≡ names.old ++ name ∷ []) }
    ensures leads { IfOk result (λ name. (turn : List ℕ → Turn)
        → told_of_new names.old turn words.old ≡ told_after (turn name) words.new (λ c q. told_from c q words.new)) }
    ensures err { IfErr result (λ e. (e ≡ Fault.NoMemory)
        ⊎ ((turn : List ℕ → Turn) → told_of_new names.old turn words.old ≡ told e words.new)) }
{
    let Some(word) = words.next_word() else {
        return Err(Fault::Missing(Expected::Name));
    };
    if !is_name(word) {
        return Err(Fault::Misfit(Expected::Name));
    }
    if names.has(word) {
        return Err(same_name(alloc, word));
    }
    names.add(word)?;
    name_of(alloc, word)
}
