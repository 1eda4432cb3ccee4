// The lines of what a driver reads.
ghost use Rattle.std.specs.Prelude.{◌≡◌, ◌++◌, ◌∷◌, [], decimal, OnOk};
ghost use Rattle.process_text.specs.Canonical.{line_of};
ghost use Rattle.driver_requests.specs.Answers.{bad_line_words, completing_words, happening_words, no_step_words, ready_words};

use crate::Happening;
use process_report::{place_word, process_name, put_line};
use process_tree::Plan;
use std::alloc::{AllocError, Global};

/// Writes `ready N`.
pub fn put_ready(alloc: Global, n: usize, out: &mut Vec<u8>) -> Result<(), AllocError>
    ensures { OnOk result (out.new.items ≡ out.old.items ++ line_of (ready_words n)) }
{
    let number = format!(in alloc; "{n}")?;
    put_line(out, &[b"ready", number.as_bytes()])
}

/// Writes `completing I NAME`.
pub fn put_completing(
    alloc: Global,
    plans: &[Plan],
    i: u32,
    out: &mut Vec<u8>,
) -> Result<(), AllocError>
    ensures { OnOk result (out.new.items ≡ out.old.items ++ line_of (completing_words plans.now i)) }
{
    let number = format!(in alloc; "{i}")?;
    put_line(
        out,
        &[b"completing", number.as_bytes(), process_name(plans, i)],
    )
}

/// Writes `bad line N`.
pub fn put_bad_line(alloc: Global, n: u64, out: &mut Vec<u8>) -> Result<(), AllocError>
    ensures { OnOk result (out.new.items ≡ out.old.items ++ line_of (bad_line_words n)) }
{
    let number = format!(in alloc; "{n}")?;
    put_line(out, &[b"bad", b"line", number.as_bytes()])
}

/// Writes `no step NAME`.
pub fn put_no_step(name: &[u8], out: &mut Vec<u8>) -> Result<(), AllocError>
    ensures { OnOk result (out.new.items ≡ out.old.items ++ line_of (no_step_words name.now)) }
{
    put_line(out, &[b"no", b"step", name])
}

/// Writes `done I.STEP E`, `undone I.STEP E` or `not done I.STEP`.
pub fn put_happening(
    alloc: Global,
    plans: &[Plan],
    i: u32,
    step: u16,
    what: Happening,
    out: &mut Vec<u8>,
) -> Result<(), AllocError>
    ensures { OnOk result (out.new.items ≡ out.old.items ++ line_of (happening_words plans.now i step what)) }
{
    let place = place_word(alloc, plans, i, step)?;
    match what {
        Happening::Done(event) => put_placed(alloc, b"done", &place, event, out),
        Happening::Undone(event) => put_placed(alloc, b"undone", &place, event, out),
        Happening::NotDone => put_line(out, &[b"not", b"done", &place]),
    }
}

// Writes a word, a place and a number.
fn put_placed(
    alloc: Global,
    word: &[u8],
    place: &[u8],
    event: u32,
    out: &mut Vec<u8>,
) -> Result<(), AllocError>
    ensures { OnOk result (out.new.items ≡ out.old.items ++ line_of (word.now ∷ place.now ∷ decimal event ∷ [])) }
{
    let number = format!(in alloc; "{event}")?;
    put_line(out, &[word, place, number.as_bytes()])
}
