// Processes of a text.
ghost use Rattle.std.specs.Prelude.{◌≡◌, ◌∷◌, ◌++◌, [], ◌⊎◌, ◌<◌, ◌+◌, ℕ, List, false, None, Some, IfOk};
ghost use Rattle.std.specs.Prelude.{IfErr, OnOk, length, codes};
ghost use Rattle.std.specs.List.{list_any};
ghost use Rattle.process_tree.specs.Making.{same_text, tree_fault};
ghost use Rattle.process_tree.specs.declared.tree.Named.{Named};
ghost use Rattle.process_text.specs.Grammar.{Writes, block_pieces, process_pieces, IsReading};
ghost use Rattle.process_text.specs.FirstFault.{told, told_from, at_process_name, between_processes, in_block, first_fault};
ghost use Rattle.process_text.specs.Leading.{with_names};

use crate::{Fault, What, read_block, read_new_name};
use process_tree::{Block, MOST_NESTING, Named, Tree, TreeError};
use std::alloc::Global;
use text_words::{At, Expected, Names, Words, is_word};

const MOST_PROCESSES: usize = 256;

// The root block of a process, up to `end`.
fn read_root<'a>(alloc: Global, words: &mut Words<'a>) -> Result<Block, Fault>
    ensures written { IfOk result (λ root. Writes (block_pieces root) words.old (codes "end" ∷ words.new)) }
    ensures good { IfOk result (λ root. tree_fault root ≡ None) }
    ensures leads { OnOk result ((earlier : List (List ℕ))
        → told_from (with_names [] earlier []) (in_block At.Begin) words.old
        ≡ told_from (with_names [] earlier []) between_processes words.new) }
    ensures err { IfErr result (λ e. (e ≡ Fault.NoMemory)
        ⊎ ((earlier : List (List ℕ)) → told_from (with_names [] earlier []) (in_block At.Begin) words.old ≡ told e words.new)) }
{
    let mut names = Names::new(alloc);
    let (root, _) = read_block(alloc, words, &mut names, MOST_NESTING, 0)?;
    Ok(root)
}

// The tree of a block that is within the limits: memory alone can be wanting.
fn tree_of(alloc: Global, root: Block) -> Result<Tree, Fault>
    requires { tree_fault root ≡ None }
    ensures tree { IfOk result (λ tree. tree ≡ root) }
    ensures memory { IfErr result (λ e. e ≡ Fault.NoMemory) }
{
    match Tree::build(alloc, root) {
        Ok(tree) => Ok(tree),
        Err(TreeError::NoMemory) => Err(Fault::NoMemory),
        Err(_) => unreachable!(),
    }
}

// A process behind the word `process`, whose name is taken from then on.
fn read_process<'a>(
    alloc: Global,
    words: &mut Words<'a>,
    names: &mut Names<'a>,
) -> Result<Named, Fault>
    ensures written { IfOk result (λ p. Writes (process_pieces p) (codes "process" ∷ words.old) words.new) }
    ensures good { IfOk result (λ p. tree_fault p.tree ≡ None) }
    ensures new { IfOk result (λ p. list_any (same_text p.name) names.old ≡ false) }
    ensures taken { IfOk result (λ p. names.new ≡ names.old ++ p.name ∷ []) }
    ensures leads { OnOk result (told_from (with_names [] names.old []) at_process_name words.old
        ≡ told_from (with_names [] names.new []) between_processes words.new) }
    ensures err { IfErr result (λ e. (e ≡ Fault.NoMemory)
        ⊎ (told_from (with_names [] names.old []) at_process_name words.old ≡ told e words.new)) }
{
    let name = read_new_name(alloc, words, names)?;
    let root = read_root(alloc, words)?;
    let tree = tree_of(alloc, root)?;
    Ok(Named { name, tree })
}

// Adds the process behind the word `process`, of which there are at most 256.
fn add_process<'a>(
    alloc: Global,
    words: &mut Words<'a>,
    names: &mut Names<'a>,
    found: &mut Vec<Named>,
) -> Result<(), Fault>
    ensures room { OnOk result (length names.old < 256) }
    ensures added { OnOk result ((p : Named) × (found.new.items ≡ found.old.items ++ p ∷ [])
        × (names.new ≡ names.old ++ p.name ∷ [])
        × (list_any (same_text p.name) names.old ≡ false)
        × (tree_fault p.tree ≡ None)
        × Writes (process_pieces p) (codes "process" ∷ words.old) words.new) }
    ensures leads { OnOk result (told_from (with_names [] names.old []) between_processes (codes "process" ∷ words.old)
        ≡ told_from (with_names [] names.new []) between_processes words.new) }
    ensures err { IfErr result (λ e. (e ≡ Fault.NoMemory)
        ⊎ (told_from (with_names [] names.old []) between_processes (codes "process" ∷ words.old) ≡ told e words.new)) }
{
    if names.count() >= MOST_PROCESSES {
        return Err(Fault::Limit(What::Processes));
    }
    let process = read_process(alloc, words, names)?;
    found.push(process)?;
    Ok(())
}

/// The processes of these words.
pub fn read_processes(alloc: Global, words: &mut Words<'_>) -> Result<Vec<Named>, Fault>
    ensures reading { IfOk result (λ found. IsReading words.old found.items) }
    ensures fault { IfErr result (λ e. (e ≡ Fault.NoMemory) ⊎ (first_fault words.old ≡ told e words.new)) }
{
    let mut names = Names::new(alloc);
    let mut found = Vec::new(alloc);
    while let Some(word) = words.next_word() {
        if !is_word(word, b"process") {
            return Err(Fault::Misfit(Expected::Process));
        }
        add_process(alloc, words, &mut names, &mut found)?;
    }
    Ok(found)
}
