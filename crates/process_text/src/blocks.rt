// Blocks of a text.
ghost use Rattle.std.specs.Prelude.{◌≡◌, ◌∷◌, ◌⊎◌, ◌≤◌, ◌<◌, ◌+◌, ℕ, List, true, Some, IfOk, IfErr, OnOk, map};
ghost use Rattle.std.specs.Prelude.{length};
ghost use Rattle.process_tree.specs.declared.step.Step.{Step};
ghost use Rattle.text_words.specs.Marks.{mark_word, closes, ends_steps, meaning};
ghost use Rattle.process_text.specs.Grammar.{Writes, step_pieces, block_pieces, alternatives};
ghost use Rattle.process_text.specs.FirstFault.{Before, told, told_from, told_behind, begun_in, in_block};
ghost use Rattle.process_text.specs.Leading.{with_names, MayOpen, LeadsTo, Fails};
ghost use Rattle.process_text.specs.Limits.{StepsFit, BlockFits, AlternativesFit};
ghost use Rattle.process_tree.specs.Blocks.{outline};

use crate::{Fault, What, add_step};
use process_tree::{Block, LEAST_ALTERNATIVES, MOST_ALTERNATIVES, Step, Steps, Tail};
use std::alloc::Global;
use text_words::{At, Expected, Mark, Names, Next, Words, closing, expected_at, meaning};

// The steps of a block, and the word behind them.
fn read_steps<'a>(
    alloc: Global,
    words: &mut Words<'a>,
    names: &mut Names<'a>,
    begun: usize,
) -> Result<(Vec<Step>, Mark), Fault>
    ensures written { IfOk result (λ r. Writes (step_pieces r.0.items) words.old (mark_word r.1 ∷ words.new)) }
    ensures ends { IfOk result (λ r. ends_steps begun r.1 ≡ true) }
    ensures fits { IfOk result (λ r. StepsFit names.old r.0.items names.new) }
    ensures some { IfOk result (λ r. (r.1 ≡ Mark.Choose) ⊎ (0 < length r.0.items)) }
    ensures leads { IfOk result (λ r. (left : ℕ) → LeadsTo left begun names.old words.old names.new r.1 words.new) }
    ensures err { IfErr result (λ e. (e ≡ Fault.NoMemory) ⊎ ((left : ℕ) → Fails left begun names.old words.old e words.new)) }
{
    let mut steps = Vec::new(alloc);
    let mut at = At::Begin;
    while let Some(word) = words.next_word() {
        match meaning(at, begun, word) {
            Next::Step(kind) => add_step(alloc, kind, words, names, &mut steps)?,
            Next::Mark(mark) => return Ok((steps, mark)),
            Next::Misfit(expected) => return Err(Fault::Misfit(expected)),
        }
        at = At::BehindStep;
    }
    Err(Fault::Missing(expected_at(at)))
}

// The word that closes a block behind its choice.
fn read_close(words: &mut Words<'_>, begun: usize) -> Result<Mark, Fault>
    ensures word { IfOk result (λ m. words.old ≡ mark_word m ∷ words.new) }
    ensures closes { IfOk result (λ m. closes begun m ≡ true) }
    ensures leads { IfOk result (λ m. (b : Before) → begun_in b.choices ≡ begun
        → told_from b (in_block At.BehindChoice) words.old ≡ told_behind b (Next.Mark m) words.new) }
    ensures err { IfErr result (λ e. (b : Before) → begun_in b.choices ≡ begun
        → told_from b (in_block At.BehindChoice) words.old ≡ told e words.new) }
{
    match words.next_word() {
        Some(word) => match closing(begun, word) {
            Some(mark) => Ok(mark),
            None => Err(Fault::Misfit(Expected::Close)),
        },
        None => Err(Fault::Missing(Expected::Close)),
    }
}

/// A block, and the word that closes it. Choices may be open to `left` levels more, and `begun` alternatives are begun in the
/// choice around it.
#[cycle(blocks)]
pub fn read_block<'a>(
    alloc: Global,
    words: &mut Words<'a>,
    names: &mut Names<'a>,
    left: usize,
    begun: usize,
) -> Result<(Block, Mark), Fault>
    ensures written { IfOk result (λ r. Writes (block_pieces r.0) words.old (mark_word r.1 ∷ words.new)) }
    ensures closes { IfOk result (λ r. closes begun r.1 ≡ true) }
    ensures fits { IfOk result (λ r. BlockFits left names.old (outline r.0) names.new) }
    ensures leads { IfOk result (λ r. LeadsTo left begun names.old words.old names.new r.1 words.new) }
    ensures err { IfErr result (λ e. (e ≡ Fault.NoMemory) ⊎ Fails left begun names.old words.old e words.new) }
{
    let (steps, mark) = read_steps(alloc, words, names, begun)?;
    let steps = Steps::new(steps);
    if mark != Mark::Choose {
        return Ok((
            Block {
                steps,
                tail: Tail::End,
            },
            mark,
        ));
    }
    let blocks = read_choice(alloc, words, names, left)?;
    let mark = read_close(words, begun)?;
    Ok((
        Block {
            steps,
            tail: Tail::Choice(blocks),
        },
        mark,
    ))
}

// The alternatives of a choice behind its `choose`.
#[cycle(blocks)]
fn read_choice<'a>(
    alloc: Global,
    words: &mut Words<'a>,
    names: &mut Names<'a>,
    left: usize,
) -> Result<Vec<Block>, Fault>
    ensures written { IfOk result (λ blocks. Writes (alternatives (map block_pieces blocks.items)) words.old words.new) }
    ensures fits { IfOk result (λ blocks. AlternativesFit left names.old (map outline blocks.items) names.new) }
    ensures number { IfOk result (λ blocks. (2 ≤ length blocks.items) × (length blocks.items ≤ 8)) }
    ensures leads { OnOk result ((earlier : List (List ℕ)) (choices : List ℕ) → MayOpen left choices
        → told_behind (with_names names.old earlier choices) (Next.Mark Mark.Choose) words.old
        ≡ told_from (with_names names.new earlier choices) (in_block At.BehindChoice) words.new) }
    ensures err { IfErr result (λ e. (e ≡ Fault.NoMemory)
        ⊎ ((earlier : List (List ℕ)) (choices : List ℕ) → MayOpen left choices
        → told_behind (with_names names.old earlier choices) (Next.Mark Mark.Choose) words.old ≡ told e words.new)) }
{
    if left == 0 {
        return Err(Fault::Limit(What::Nesting));
    }
    let mut blocks = Vec::new(alloc);
    while blocks.len() < MOST_ALTERNATIVES {
        let (block, mark) = read_block(alloc, words, names, left - 1, blocks.len() + 1)?;
        blocks.push(block)?;
        if mark == Mark::Done {
            if blocks.len() < LEAST_ALTERNATIVES {
                return Err(Fault::Misfit(Expected::Or));
            }
            return Ok(blocks);
        }
    }
    Err(Fault::Limit(What::Alternatives))
}
