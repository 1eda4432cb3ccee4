// Lines by their forms.
ghost use Rattle.std.specs.Prelude.{◌≡◌, Some};
ghost use Rattle.std.specs.Option.{option_map};
ghost use Rattle.trace_verify.specs.Forms.{form_of_title, is_number, number_of, pair_of, mode_of_word, pair_from, pair_line};
ghost use Rattle.trace_verify.specs.Forms.{named_act, placed_act, act_from, act_of, is_start, without_act, event_of, event_line};
ghost use Rattle.trace_verify.specs.Forms.{is_path, is_end, is_named_end, is_end_line, is_longer_cause, is_cause, is_cause_line};
ghost use Rattle.trace_verify.specs.Forms.{move_of, cancel_of, step_line, serial_line};

use crate::cutting::{are_names, cut};
use crate::form::Form;
use crate::report::{NamedAct, Pair};
use process_text::{is_word, number};
use process_tree::{Mode, is_name};
use schedule_model::TraceStep;

const MOST: u64 = 4294967295;

/// The number that a word writes, if it is at most 4,294,967,295.
pub fn number_of(word: &[u8]) -> Option<u32>
    ensures { result ≡ number_of word.now }
{
    match number(word, MOST) {
        Some(n) => Some(n as u32),
        None => None,
    }
}

// Whether a word writes a number.
fn is_number(word: &[u8]) -> bool
    ensures { result ≡ is_number word.now }
{
    number(word, MOST).is_some()
}

/// The form that a first title says.
pub fn form_of_title(line: &[u8]) -> Option<Form>
    ensures { result ≡ form_of_title line.now }
{
    if is_word(line, b"conflicts") {
        Some(Form::Plain)
    } else if is_word(line, b"conflicts 2") {
        Some(Form::Keyed)
    } else {
        None
    }
}

// The mode that a word says.
fn mode_of_word(word: &[u8]) -> Option<Mode>
    ensures { result ≡ mode_of_word word.now }
{
    if is_word(word, b"always") {
        Some(Mode::Always)
    } else if is_word(word, b"key") {
        Some(Mode::Key)
    } else {
        None
    }
}

// Two operations with a mode, if they are names.
fn pair_of<'a>(first: &'a [u8], second: &'a [u8], mode: Mode) -> Option<Pair<'a>>
    ensures { result ≡ pair_of first.now second.now mode }
{
    if is_name(first) && is_name(second) {
        Some(Pair {
            first,
            second,
            mode,
        })
    } else {
        None
    }
}

// A, and `B MODE`.
fn keyed_pair<'a>(first: &'a [u8], rest: &'a [u8]) -> Option<Pair<'a>>
    ensures { result ≡ pair_from Form.Keyed first.now rest.now }
{
    match cut(rest, b' ') {
        Some((second, word)) => match mode_of_word(word) {
            Some(mode) => pair_of(first, second, mode),
            None => None,
        },
        None => None,
    }
}

/// `A B`, or `A B MODE`
pub fn pair_line(form: Form, line: &[u8]) -> Option<Pair<'_>>
    ensures { result ≡ pair_line form line.now }
{
    match cut(line, b' ') {
        Some((first, rest)) => match form {
            Form::Plain => pair_of(first, rest, Mode::Always),
            Form::Keyed => keyed_pair(first, rest),
        },
        None => None,
    }
}

// The act of a step, both being named.
fn named_act<'a>(
    i: &[u8],
    step: &'a [u8],
    op: &'a [u8],
    key: u32,
    undo: bool,
) -> Option<NamedAct<'a>>
    ensures { result ≡ named_act undo op.now key i.now step.now }
{
    if !is_name(step) || !is_name(op) {
        return None;
    }
    match number_of(i) {
        Some(process) => Some(NamedAct {
            process,
            step,
            op,
            key,
            undo,
        }),
        None => None,
    }
}

// `I.STEP`, with an operation and a key.
fn placed_act<'a>(place: &'a [u8], op: &'a [u8], key: u32, undo: bool) -> Option<NamedAct<'a>>
    ensures { result ≡ placed_act undo place.now op.now key }
{
    match cut(place, b'.') {
        Some((i, step)) => named_act(i, step, op, key, undo),
        None => None,
    }
}

// `I.STEP`, and `OP KEY`.
fn keyed_act<'a>(place: &'a [u8], rest: &'a [u8], undo: bool) -> Option<NamedAct<'a>>
    ensures { result ≡ act_from Form.Keyed undo place.now rest.now }
{
    match cut(rest, b' ') {
        Some((op, word)) => match number_of(word) {
            Some(key) => placed_act(place, op, key, undo),
            None => None,
        },
        None => None,
    }
}

// `I.STEP OP`, or `I.STEP OP KEY`
fn act_of(form: Form, text: &[u8], undo: bool) -> Option<NamedAct<'_>>
    ensures { result ≡ act_of form undo text.now }
{
    match cut(text, b' ') {
        Some((place, rest)) => match form {
            Form::Plain => placed_act(place, rest, 0, undo),
            Form::Keyed => keyed_act(place, rest, undo),
        },
        None => None,
    }
}

// `I NAME`
fn is_start(text: &[u8]) -> bool
    ensures { result ≡ is_start text.now }
{
    match cut(text, b' ') {
        Some((i, name)) => is_number(i) && is_name(name),
        None => false,
    }
}

// A line that has no act, if it has its form.
fn without_act<'a>(good: bool) -> Option<Option<NamedAct<'a>>>
    ensures { result ≡ without_act good }
{
    if good { Some(None) } else { None }
}

// A line that has an act, if it has its form.
fn with_act(form: Form, text: &[u8], undo: bool) -> Option<Option<NamedAct<'_>>>
    ensures { result ≡ option_map Some (act_of form undo text.now) }
{
    match act_of(form, text, undo) {
        Some(act) => Some(Some(act)),
        None => None,
    }
}

// What an event's word and the rest of its line say.
fn event_of<'a>(form: Form, word: &[u8], rest: &'a [u8]) -> Option<Option<NamedAct<'a>>>
    ensures { result ≡ event_of form word.now rest.now }
{
    if is_word(word, b"do") {
        with_act(form, rest, false)
    } else if is_word(word, b"undo") {
        with_act(form, rest, true)
    } else if is_word(word, b"start") {
        without_act(is_start(rest))
    } else if is_word(word, b"end") {
        without_act(is_number(rest))
    } else {
        None
    }
}

/// An event: the act that it has, if it has one.
pub fn event_line(form: Form, line: &[u8]) -> Option<Option<NamedAct<'_>>>
    ensures { result ≡ event_line form line.now }
{
    match cut(line, b' ') {
        Some((word, rest)) => event_of(form, word, rest),
        None => None,
    }
}

// `path S1 S2 ..`
fn is_path(text: &[u8]) -> bool
    ensures { result ≡ is_path text.now }
{
    match cut(text, b' ') {
        Some((word, steps)) => is_word(word, b"path") && are_names(steps),
        None => false,
    }
}

// What became of a process.
fn is_end(text: &[u8]) -> bool
    ensures { result ≡ is_end text.now }
{
    is_word(text, b"nothing") || is_word(text, b"active") || is_path(text)
}

// `NAME END`
fn is_named_end(text: &[u8]) -> bool
    ensures { result ≡ is_named_end text.now }
{
    match cut(text, b' ') {
        Some((name, end)) => is_name(name) && is_end(end),
        None => false,
    }
}

/// `I NAME END`
pub fn is_end_line(line: &[u8]) -> bool
    ensures { result ≡ is_end_line line.now }
{
    match cut(line, b' ') {
        Some((i, rest)) => is_number(i) && is_named_end(rest),
        None => false,
    }
}

// `refused STEP` or `cascade K`
fn is_longer_cause(text: &[u8]) -> bool
    ensures { result ≡ is_longer_cause text.now }
{
    match cut(text, b' ') {
        Some((word, rest)) => {
            (is_word(word, b"refused") && is_name(rest))
                || (is_word(word, b"cascade") && is_number(rest))
        }
        None => false,
    }
}

// Why a process began to complete.
fn is_cause(text: &[u8]) -> bool
    ensures { result ≡ is_cause text.now }
{
    is_word(text, b"abort")
        || is_word(text, b"victim")
        || is_word(text, b"restart")
        || is_longer_cause(text)
}

/// `I CAUSE`
pub fn is_cause_line(line: &[u8]) -> bool
    ensures { result ≡ is_cause_line line.now }
{
    match cut(line, b' ') {
        Some((i, cause)) => is_number(i) && is_cause(cause),
        None => false,
    }
}

// `FROM TO`
fn move_of(text: &[u8]) -> Option<TraceStep>
    ensures { result ≡ move_of text.now }
{
    match cut(text, b' ') {
        Some((from, to)) => match (number_of(from), number_of(to)) {
            (Some(from), Some(to)) => Some(TraceStep::Move(from, to)),
            _ => None,
        },
        None => None,
    }
}

// `AT`
fn cancel_of(text: &[u8]) -> Option<TraceStep>
    ensures { result ≡ cancel_of text.now }
{
    match number_of(text) {
        Some(at) => Some(TraceStep::Cancel(at)),
        None => None,
    }
}

/// `move FROM TO` or `cancel AT`
pub fn step_line(line: &[u8]) -> Option<TraceStep>
    ensures { result ≡ step_line line.now }
{
    match cut(line, b' ') {
        Some((word, rest)) => {
            if is_word(word, b"move") {
                move_of(rest)
            } else if is_word(word, b"cancel") {
                cancel_of(rest)
            } else {
                None
            }
        }
        None => None,
    }
}

/// `do` and an act
pub fn serial_line(form: Form, line: &[u8]) -> Option<NamedAct<'_>>
    ensures { result ≡ serial_line form line.now }
{
    match cut(line, b' ') {
        Some((word, rest)) => {
            if is_word(word, b"do") {
                act_of(form, rest, false)
            } else {
                None
            }
        }
        None => None,
    }
}
