// Printing a process.
ghost use Rattle.std.specs.Prelude.{◌≡◌, ◌∷◌, ◌++◌, [], IfOk, OnOk, decimal, None, ◌<◌, vec_len};
ghost use Rattle.process_tree.specs.declared.step.Step.{Step};
ghost use Rattle.process_tree.specs.Making.{tree_fault};
ghost use Rattle.text_words.specs.Marks.{kind_word, mark_word, settings};
ghost use Rattle.text_words.specs.Words.{words_of};
ghost use Rattle.process_text.specs.Grammar.{step_pieces, block_pieces, pieces_of_process, process_of, IsReading};
ghost use Rattle.process_text.specs.Canonical.{setting_words, settings_words, call_words, step_words, canonical_words, spaced};
ghost use Rattle.process_text.specs.Canonical.{divider, canonical_text};
ghost use Rattle.process_text.specs.Grammar.{HasNames, AreNamed};

use process_tree::{Block, Name, Step, StepKind, Tail, Tree};
use std::alloc::{AllocError, Global};
use text_words::{Mark, Setting};

// Writes a space and a word.
fn print_word(word: &[u8], out: &mut Vec<u8>) -> Result<(), AllocError>
    ensures { OnOk result (out.new.items ≡ out.old.items ++ 32 ∷ word.now) }
{
    out.push(b' ')?;
    out.extend_from_slice(word)
}

// Writes a word that opens, divides or closes a block.
fn print_mark(mark: Mark, out: &mut Vec<u8>) -> Result<(), AllocError>
    ensures { OnOk result (out.new.items ≡ out.old.items ++ 32 ∷ mark_word mark) }
{
    match mark {
        Mark::Choose => print_word(b"choose", out),
        Mark::Or => print_word(b"or", out),
        Mark::Done => print_word(b"done", out),
        Mark::End => print_word(b"end", out),
    }
}

// Writes the kind of a step.
fn print_kind(kind: StepKind, out: &mut Vec<u8>) -> Result<(), AllocError>
    ensures { OnOk result (out.new.items ≡ out.old.items ++ 32 ∷ kind_word kind) }
{
    match kind {
        StepKind::C => print_word(b"c", out),
        StepKind::P => print_word(b"p", out),
        StepKind::R => print_word(b"r", out),
        StepKind::Cr => print_word(b"cr", out),
    }
}

// Writes a space and a number.
fn print_number(alloc: Global, number: u8, out: &mut Vec<u8>) -> Result<(), AllocError>
    ensures { OnOk result (out.new.items ≡ out.old.items ++ 32 ∷ decimal number) }
{
    let text = format!(in alloc; " {number}")?;
    out.extend_from_slice(text.as_bytes())
}

// Writes what a step calls.
fn print_call(alloc: Global, step: &Step, out: &mut Vec<u8>) -> Result<(), AllocError>
    ensures words { OnOk result (out.new.items ≡ out.old.items ++ spaced (call_words step.now)) }
    ensures named { OnOk result (HasNames step.now) }
{
    print_kind(step.kind, out)?;
    print_word(step.name.bytes(), out)?;
    print_word(step.op.bytes(), out)?;
    let key = step.key;
    let amount = step.amount;
    let numbers = format!(in alloc; " {key} {amount}")?;
    out.extend_from_slice(numbers.as_bytes())
}

// Writes an option, unless it has its default.
fn print_setting(
    alloc: Global,
    setting: Setting,
    number: u8,
    out: &mut Vec<u8>,
) -> Result<(), AllocError>
    ensures { OnOk result (out.new.items ≡ out.old.items ++ spaced (setting_words setting number)) }
{
    if number == setting.default_number() {
        return Ok(());
    }
    print_word(setting.word(), out)?;
    print_number(alloc, number, out)?;
    Ok(())
}

// Writes the options of a step that can be undone, but for its tries.
fn print_undo_settings(alloc: Global, step: &Step, out: &mut Vec<u8>) -> Result<(), AllocError>
    ensures { OnOk result
        (out.new.items ≡ out.old.items ++ spaced
        (settings_words (Setting.Undo ∷ Setting.Refuse ∷ Setting.UndoRefuse ∷ []) step.now)) }
{
    print_setting(alloc, Setting::Undo, step.undo_tries, out)?;
    print_setting(alloc, Setting::Refuse, step.refuse, out)?;
    print_setting(alloc, Setting::UndoRefuse, step.undo_refuse, out)
}

// Writes the options of a step.
fn print_settings(alloc: Global, step: &Step, out: &mut Vec<u8>) -> Result<(), AllocError>
    ensures { OnOk result (out.new.items ≡ out.old.items ++ spaced (settings_words (settings step.now.kind) step.now)) }
{
    match step.kind {
        StepKind::C => print_undo_settings(alloc, step, out),
        StepKind::P => print_setting(alloc, Setting::Refuse, step.refuse, out),
        StepKind::R => {
            print_setting(alloc, Setting::Tries, step.tries, out)?;
            print_setting(alloc, Setting::Refuse, step.refuse, out)
        }
        StepKind::Cr => {
            print_setting(alloc, Setting::Tries, step.tries, out)?;
            print_undo_settings(alloc, step, out)
        }
    }
}

// Writes a step.
fn print_step(alloc: Global, step: &Step, out: &mut Vec<u8>) -> Result<(), AllocError>
    ensures named { OnOk result (HasNames step.now) }
    ensures words { OnOk result (out.new.items ≡ out.old.items ++ spaced (step_words step.now)) }
{
    print_call(alloc, step, out)?;
    print_settings(alloc, step, out)?;
    Ok(())
}

// Writes steps.
fn print_steps(alloc: Global, steps: &[Step], out: &mut Vec<u8>) -> Result<(), AllocError>
    ensures named { OnOk result (AreNamed (step_pieces steps.now)) }
    ensures words { OnOk result (out.new.items ≡ out.old.items ++ spaced (canonical_words (step_pieces steps.now))) }
{
    for step in steps {
        print_step(alloc, step, out)?;
    }
    Ok(())
}

// Writes `or`, unless this alternative is the first.
fn divide(first: bool, out: &mut Vec<u8>) -> Result<(), AllocError>
    ensures { OnOk result (out.new.items ≡ out.old.items ++ spaced (canonical_words (divider first))) }
{
    if first {
        return Ok(());
    }
    print_mark(Mark::Or, out)
}

// Writes a block.
fn print_block(alloc: Global, block: &Block, out: &mut Vec<u8>) -> Result<(), AllocError>
    ensures named { OnOk result (AreNamed (block_pieces block.now)) }
    ensures words { OnOk result (out.new.items ≡ out.old.items ++ spaced (canonical_words (block_pieces block.now))) }
{
    print_steps(alloc, block.steps.as_slice(), out)?;
    match &block.tail {
        Tail::End => Ok(()),
        Tail::Choice(blocks) => {
            print_mark(Mark::Choose, out)?;
            let mut first = true;
            for inner in blocks {
                divide(first, out)?;
                print_block(alloc, inner, out)?;
                first = false;
            }
            print_mark(Mark::Done, out)?;
            Ok(())
        }
    }
}

/// The canonical text of a process.
pub fn print(alloc: Global, name: &Name, tree: &Tree) -> Result<Vec<u8>, AllocError>
    ensures canonical { IfOk result (λ text. text.items ≡ canonical_text name.now tree.now) }
    // Its words are those of the process.
    ensures reading { IfOk result (λ text. IsReading (words_of text.items) (process_of name.now tree.now ∷ [])) }
    ensures short { IfOk result (λ text. vec_len text < 40000) }
{
    let text = print_text(alloc, name, tree)?;
    Ok(text)
}

// The same with what is seen of the names.
fn print_text(alloc: Global, name: &Name, tree: &Tree) -> Result<Vec<u8>, AllocError>
    ensures canonical { IfOk result (λ text. text.items ≡ canonical_text name.now tree.now) }
    ensures named { OnOk result (AreNamed (pieces_of_process name.now tree.now)) }
    ensures good { OnOk result (tree_fault tree.now ≡ None) }
{
    let mut out = Vec::new(alloc);
    out.extend_from_slice(b"process")?;
    print_word(name.bytes(), &mut out)?;
    print_block(alloc, tree.root(), &mut out)?;
    out.extend_from_slice(b" end\n")?;
    Ok(out)
}
