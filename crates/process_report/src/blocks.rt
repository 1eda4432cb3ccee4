// The text of a block.
ghost use Rattle.std.specs.Prelude.{◌≡◌, IfOk};
ghost use Rattle.process_report.specs.Lines.{place_word};
ghost use Rattle.process_report.specs.Blocks.{rule_word, block_text};

use crate::lines::put_words;
use crate::names::step_name;
use machine_model::{Blocked, Rule};
use process_tree::Plan;
use schedule_model::History;
use std::alloc::{AllocError, Global};

/// Writes `I.STEP`.
pub fn place_word(alloc: Global, plans: &[Plan], i: u32, step: u16) -> Result<Vec<u8>, AllocError>
    ensures { IfOk result (λ word. word.items ≡ place_word plans.now i step) }
{
    let number = format!(in alloc; "{i}.")?;
    let mut word = number.as_bytes().to_vec(alloc)?;
    word.extend_from_slice(step_name(plans, i, step))?;
    Ok(word)
}

fn rule_word(rule: Rule) -> &'static [u8]
    ensures { result.now ≡ rule_word rule }
{
    match rule {
        Rule::A0 => b"A0",
        Rule::A1 => b"A1",
        Rule::A2 => b"A2",
        Rule::A3 => b"A3",
        Rule::A4 => b"A4",
        Rule::A5 => b"A5",
    }
}

/// What a piece of process i waits on: `docs/FORMATS.md`, 'Report'. A process or a step that there isn't has the empty name.
pub fn blocked_text(alloc: Global, h: &History, i: u32, b: &Blocked) -> Result<Vec<u8>, AllocError>
    ensures { IfOk result (λ text. text.items ≡ block_text h.now.plans i b.now) }
{
    let plans = h.plans.as_slice();
    let other = place_word(alloc, plans, b.on, b.other)?;
    let own = place_word(alloc, plans, i, b.own)?;
    let mut text = Vec::new(alloc);
    put_words(
        &mut text,
        &[b"on", &other, b"by", &own, b"rule", rule_word(b.rule)],
    )?;
    Ok(text)
}
