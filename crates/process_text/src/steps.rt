// Steps of a text.
ghost use Rattle.std.specs.Prelude.{◌≡◌, ◌∷◌, ◌++◌, [], ◌⊎◌, ◌<◌, ℕ, length, List, true, false, Some, IfOk, IfErr, OnOk};
ghost use Rattle.std.specs.Prelude.{decimal};
ghost use Rattle.std.specs.Fmt.{signed_decimal};
ghost use Rattle.std.specs.List.{list_any};
ghost use Rattle.process_tree.specs.Name.{is_name};
ghost use Rattle.process_tree.specs.Making.{same_text, is_amount};
ghost use Rattle.process_tree.specs.declared.step.Step.{Step};
ghost use Rattle.process_tree.specs.declared.step.StepKind.{StepKind};
ghost use Rattle.text_words.specs.declared.marks.Setting.{Setting};
ghost use Rattle.text_words.specs.Marks.{kind_word, settings, takes};
ghost use Rattle.process_text.specs.Grammar.{IsSetting, IsWithSettings, IsStep};
ghost use Rattle.process_text.specs.FirstFault.{Before, told, told_from, told_behind, at_step_name, at_operation, at_key};
ghost use Rattle.process_text.specs.FirstFault.{at_amount, at_settings, at_number, in_block};
ghost use Rattle.process_text.specs.Leading.{with_names};

use crate::{Fault, What, name_of, read_new_name};
use process_tree::{DEFAULT_TRIES, MOST_STEPS, Name, Step, StepKind, is_name};
use std::alloc::Global;
use text_words::{At, Expected, Names, Next, Setting, Words, amount, key, setting_number};

// An operation.
fn read_operation(alloc: Global, words: &mut Words<'_>) -> Result<Name, Fault>
    ensures word { IfOk result (λ name. words.old ≡ name ∷ words.new) }
    ensures name { IfOk result (λ name. is_name name ≡ true) }
    ensures leads { OnOk result ((b : Before) (k : StepKind)
        → told_from b (at_operation k) words.old ≡ told_from b (at_key k) words.new) }
    ensures err { IfErr result (λ e. (e ≡ Fault.NoMemory)
        ⊎ ((b : Before) (k : StepKind) → told_from b (at_operation k) words.old ≡ told e words.new)) }
{
    match words.next_word() {
        Some(word) if is_name(word) => name_of(alloc, word),
        Some(_) => Err(Fault::Misfit(Expected::Operation)),
        None => Err(Fault::Missing(Expected::Operation)),
    }
}

// A key.
fn read_key(words: &mut Words<'_>) -> Result<u32, Fault>
    ensures word { IfOk result (λ key. words.old ≡ decimal key ∷ words.new) }
    ensures leads { OnOk result ((b : Before) (k : StepKind)
        → told_from b (at_key k) words.old ≡ told_from b (at_amount k) words.new) }
    ensures err { IfErr result (λ e. (b : Before) (k : StepKind) → told_from b (at_key k) words.old ≡ told e words.new) }
{
    match words.next_word() {
        Some(word) => match key(word) {
            Some(key) => Ok(key),
            None => Err(Fault::Misfit(Expected::Key)),
        },
        None => Err(Fault::Missing(Expected::Key)),
    }
}

// An amount.
fn read_amount(words: &mut Words<'_>) -> Result<i64, Fault>
    ensures word { IfOk result (λ amount. words.old ≡ signed_decimal amount ∷ words.new) }
    ensures within { IfOk result (λ amount. is_amount amount ≡ true) }
    ensures leads { OnOk result ((b : Before) (k : StepKind)
        → told_from b (at_amount k) words.old ≡ told_from b (at_settings (settings k)) words.new) }
    ensures err { IfErr result (λ e. (b : Before) (k : StepKind) → told_from b (at_amount k) words.old ≡ told e words.new) }
{
    match words.next_word() {
        Some(word) => match amount(word) {
            Some(amount) => Ok(amount),
            None => Err(Fault::Misfit(Expected::Amount)),
        },
        None => Err(Fault::Missing(Expected::Amount)),
    }
}

// The number behind the word of an option.
fn read_number(setting: Setting, words: &mut Words<'_>) -> Result<u8, Fault>
    ensures word { IfOk result (λ n. words.old ≡ decimal n ∷ words.new) }
    ensures takes { IfOk result (λ n. takes setting n ≡ true) }
    ensures leads { OnOk result ((b : Before) (xs : List Setting)
        → told_from b (at_number setting xs) words.old ≡ told_from b (at_settings xs) words.new) }
    ensures err { IfErr result (λ e. (b : Before) (xs : List Setting)
        → told_from b (at_number setting xs) words.old ≡ told e words.new) }
{
    match words.next_word() {
        Some(word) => match setting_number(setting, word) {
            Some(number) => Ok(number),
            None => Err(Fault::Misfit(Expected::Number)),
        },
        None => Err(Fault::Missing(Expected::Number)),
    }
}

// An option, or its default where it is left out.
fn read_setting(setting: Setting, words: &mut Words<'_>) -> Result<u8, Fault>
    ensures setting { IfOk result (λ n. IsSetting setting n words.old words.new) }
    ensures takes { IfOk result (λ n. takes setting n ≡ true) }
    ensures leads { OnOk result ((b : Before) (xs : List Setting)
        → told_from b (at_settings (setting ∷ xs)) words.old ≡ told_from b (at_settings xs) words.new) }
    ensures err { IfErr result (λ e. (b : Before) (xs : List Setting)
        → told_from b (at_settings (setting ∷ xs)) words.old ≡ told e words.new) }
{
    if !words.begins_with(setting.word()) {
        return Ok(setting.default_number());
    }
    let _ = words.next_word();
    read_number(setting, words)
}

// The numbers of the options of a step that can be undone, but for its tries.
#[derive(Drop)]
struct UndoSettings {
    undo_tries: u8,
    refuse: u8,
    undo_refuse: u8,
}

// The options of a step that can be undone, but for its tries.
fn read_undo_settings(words: &mut Words<'_>) -> Result<UndoSettings, Fault>
    ensures settings { IfOk result
        (λ r. (behind_undo behind_refuse : List (List ℕ)) × IsSetting Setting.Undo r.undo_tries words.old behind_undo
        × IsSetting Setting.Refuse r.refuse behind_undo behind_refuse
        × IsSetting Setting.UndoRefuse r.undo_refuse behind_refuse words.new) }
    ensures takes { IfOk result (λ r. (takes Setting.Undo r.undo_tries ≡ true)
        × (takes Setting.Refuse r.refuse ≡ true) × (takes Setting.UndoRefuse r.undo_refuse ≡ true)) }
    ensures leads { OnOk result
        ((b : Before) → told_from b (at_settings (Setting.Undo ∷ Setting.Refuse ∷ Setting.UndoRefuse ∷ [])) words.old
        ≡ told_from b (at_settings []) words.new) }
    ensures err { IfErr result
        (λ e. (b : Before) → told_from b (at_settings (Setting.Undo ∷ Setting.Refuse ∷ Setting.UndoRefuse ∷ [])) words.old
        ≡ told e words.new) }
{
    Ok(UndoSettings {
        undo_tries: read_setting(Setting::Undo, words)?,
        refuse: read_setting(Setting::Refuse, words)?,
        undo_refuse: read_setting(Setting::UndoRefuse, words)?,
    })
}

// A step with the options that its kind has, and the defaults of the others.
fn with_settings(step: Step, words: &mut Words<'_>) -> Result<Step, Fault>
    ensures step { IfOk result (λ s. IsWithSettings step s words.old words.new) }
    ensures leads { OnOk result
        ((b : Before) → told_from b (at_settings (settings step.kind)) words.old ≡ told_from b (at_settings []) words.new) }
    ensures err { IfErr result (λ e. (b : Before) → told_from b (at_settings (settings step.kind)) words.old ≡ told e words.new) }
{
    let default = Step {
        tries: DEFAULT_TRIES,
        undo_tries: DEFAULT_TRIES,
        refuse: 0,
        undo_refuse: 0,
        ..step
    };
    match default.kind {
        StepKind::C => {
            let undo = read_undo_settings(words)?;
            Ok(Step {
                undo_tries: undo.undo_tries,
                refuse: undo.refuse,
                undo_refuse: undo.undo_refuse,
                ..default
            })
        }
        StepKind::P => Ok(Step {
            refuse: read_setting(Setting::Refuse, words)?,
            ..default
        }),
        StepKind::R => Ok(Step {
            tries: read_setting(Setting::Tries, words)?,
            refuse: read_setting(Setting::Refuse, words)?,
            ..default
        }),
        StepKind::Cr => {
            let tries = read_setting(Setting::Tries, words)?;
            let undo = read_undo_settings(words)?;
            Ok(Step {
                tries,
                undo_tries: undo.undo_tries,
                refuse: undo.refuse,
                undo_refuse: undo.undo_refuse,
                ..default
            })
        }
    }
}

// What is called on a step: its operation, its key and its amount.
#[derive(Drop)]
struct Call {
    op: Name,
    key: u32,
    amount: i64,
}

// The operation, the key and the amount of a step.
fn read_call(alloc: Global, words: &mut Words<'_>) -> Result<Call, Fault>
    ensures words { IfOk result (λ r. words.old ≡ r.op ∷ decimal r.key ∷ signed_decimal r.amount ∷ words.new) }
    ensures name { IfOk result (λ r. is_name r.op ≡ true) }
    ensures within { IfOk result (λ r. is_amount r.amount ≡ true) }
    ensures leads { OnOk result ((b : Before) (k : StepKind)
        → told_from b (at_operation k) words.old ≡ told_from b (at_settings (settings k)) words.new) }
    ensures err { IfErr result (λ e. (e ≡ Fault.NoMemory)
        ⊎ ((b : Before) (k : StepKind) → told_from b (at_operation k) words.old ≡ told e words.new)) }
{
    let op = read_operation(alloc, words)?;
    let key = read_key(words)?;
    let amount = read_amount(words)?;
    Ok(Call { op, key, amount })
}

// A step behind the word of its kind.
fn read_step<'a>(
    alloc: Global,
    kind: StepKind,
    words: &mut Words<'a>,
    names: &mut Names<'a>,
) -> Result<Step, Fault>
    ensures step { IfOk result (λ s. IsStep s (kind_word kind ∷ words.old) words.new) }
    ensures new { IfOk result (λ s. list_any (same_text s.name) names.old ≡ false) }
    ensures taken { IfOk result (λ s. names.new ≡ names.old ++ s.name ∷ []) }
    ensures leads { OnOk result ((earlier : List (List ℕ)) (choices : List ℕ)
        → told_from (with_names names.old earlier choices) (at_step_name kind) words.old
        ≡ told_from (with_names names.new earlier choices) (at_settings []) words.new) }
    ensures err { IfErr result (λ e. (e ≡ Fault.NoMemory)
        ⊎ ((earlier : List (List ℕ)) (choices : List ℕ)
        → told_from (with_names names.old earlier choices) (at_step_name kind) words.old ≡ told e words.new)) }
{
    let name = read_new_name(alloc, words, names)?;
    let call = read_call(alloc, words)?;
    let step = Step {
        kind,
        name,
        op: call.op,
        key: call.key,
        amount: call.amount,
        tries: DEFAULT_TRIES,
        undo_tries: DEFAULT_TRIES,
        refuse: 0,
        undo_refuse: 0,
    };
    with_settings(step, words)
}

/// Adds the step behind the word of its kind, of which there are at most 256.
pub fn add_step<'a>(
    alloc: Global,
    kind: StepKind,
    words: &mut Words<'a>,
    names: &mut Names<'a>,
    steps: &mut Vec<Step>,
) -> Result<(), Fault>
    ensures room { OnOk result (length names.old < 256) }
    ensures added { OnOk result ((s : Step) × (steps.new.items ≡ steps.old.items ++ s ∷ [])
        × (names.new ≡ names.old ++ s.name ∷ [])
        × (list_any (same_text s.name) names.old ≡ false)
        × IsStep s (kind_word kind ∷ words.old) words.new) }
    ensures leads { OnOk result ((earlier : List (List ℕ)) (choices : List ℕ)
        → told_behind (with_names names.old earlier choices) (Next.Step kind) words.old
        ≡ told_from (with_names names.new earlier choices) (in_block At.BehindStep) words.new) }
    ensures err { IfErr result (λ e. (e ≡ Fault.NoMemory)
        ⊎ ((earlier : List (List ℕ)) (choices : List ℕ)
        → told_behind (with_names names.old earlier choices) (Next.Step kind) words.old ≡ told e words.new)) }
{
    if names.count() >= MOST_STEPS {
        return Err(Fault::Limit(What::Steps));
    }
    let step = read_step(alloc, kind, words, names)?;
    steps.push(step)?;
    Ok(())
}
