// The hint beside a refusal.
ghost use Rattle.std.specs.Prelude.{◌≡◌, ◌++◌, IfOk, OnOk, codes};
ghost use Rattle.refusal_hints.specs.Hints.{IsHint, beginning, front_of, back_of, hint_text, number_text};
ghost use Rattle.refusal_hints.specs.Pointing.{nowhere};
ghost use Rattle.refusal_hints.specs.Remedies.{remedy, scenario_remedy};

use crate::about::{About, Point, add_back, add_front, add_number, error_remedy};
use crate::documents::InputForm;
use crate::keys::key_remedy;
use crate::pointing::point;
use crate::remedies;
use command_refusals::{Refusal, ScenarioFault};
use std::alloc::{AllocError, Global};
use text_words::Position;

// What to do about a scenario.
fn scenario_remedy(alloc: Global, fault: &ScenarioFault) -> Result<&'static str, AllocError>
    ensures { IfOk result (λ text. text.now ≡ scenario_remedy fault.now) }
{
    match fault {
        ScenarioFault::BadToml => Ok(remedies::BAD_TOML),
        ScenarioFault::BadKey(key) => {
            let key = format!(in alloc; "{key}")?;
            Ok(key_remedy(key.as_str()))
        }
        ScenarioFault::UnknownOperation(_) => Ok(remedies::UNKNOWN_OPERATION),
        ScenarioFault::SameOperation(_) => Ok(remedies::SAME_OPERATION),
    }
}

// What to do about a refusal, by what stands at its place.
fn remedy(alloc: Global, about: &About, refusal: &Refusal) -> Result<&'static str, AllocError>
    ensures { IfOk result (λ text. text.now ≡ remedy about.now refusal.now) }
{
    match refusal {
        Refusal::BadWords => Ok(remedies::WORDS),
        Refusal::Text(error) => error_remedy(alloc, about, error),
        Refusal::Scenario(fault) => scenario_remedy(alloc, fault),
        Refusal::CatalogDiffers(_) => Ok(remedies::CATALOG),
        Refusal::Commuting(_, _) => Ok(remedies::COMMUTING),
        Refusal::BadLine(_) => Ok(remedies::LINE),
        Refusal::Limit(quantity, _) => Ok(remedies::limit_remedy(*quantity)),
        Refusal::Unfinished(_) => Ok(remedies::UNFINISHED),
        Refusal::File(fault) => Ok(remedies::file_remedy(*fault)),
        Refusal::BookDiffers(_, _) => Ok(remedies::BOOK),
        Refusal::Report(fault) => Ok(remedies::report_remedy(*fault)),
        Refusal::ReadFault => Ok(remedies::READ_FAULT),
        Refusal::DiskFault => Ok(remedies::DISK_FAULT),
        Refusal::Exhausted(_, _) => Ok(remedies::EXHAUSTED),
        Refusal::NoMemory => Ok(remedies::MEMORY),
    }
}

// The beginning of a hint.
fn beginning(alloc: Global, at: Option<Position>) -> Result<Vec<u8>, AllocError>
    ensures { IfOk result (λ text. text.items ≡ beginning at) }
{
    let mut out = Vec::new(alloc);
    match at {
        None => out.extend_from_slice(b"hint: ")?,
        Some(Position { line, column }) => {
            add_number(alloc, "hint: line ", line, &mut out)?;
            add_number(alloc, " column ", column, &mut out)?;
            out.extend_from_slice(b" of the input: ")?;
        }
    }
    Ok(out)
}

// Adds what stands at the place, what to do, and what may be meant.
fn add_rest(
    alloc: Global,
    about: &About,
    refusal: &Refusal,
    out: &mut Vec<u8>,
) -> Result<(), AllocError>
    ensures { OnOk result
        (out.new.items ≡ out.old.items ++ front_of about.now ++ remedy about.now refusal.now ++ back_of about.now) }
{
    let text = remedy(alloc, about, refusal)?;
    add_front(alloc, about, out)?;
    out.extend_from_slice(text.as_bytes())?;
    add_back(alloc, about, out)
}

// The hint of a refusal that points at this.
fn hint_of(alloc: Global, point: Point, refusal: &Refusal) -> Result<Vec<u8>, AllocError>
    ensures { IfOk result (λ line. line.items ≡ hint_text point refusal.now) }
{
    let Point { at, about } = point;
    let mut out = beginning(alloc, at)?;
    add_rest(alloc, &about, refusal, &mut out)?;
    out.extend_from_slice(b"\n")?;
    Ok(out)
}

/// The line that stands on standard error beside a refusal of this input.
pub fn hint(
    alloc: Global,
    form: InputForm,
    input: &[u8],
    refusal: &Refusal,
) -> Result<Vec<u8>, AllocError>
    // It points at what is refused, and the rest is what to do about it.
    ensures { IfOk result (λ line. IsHint form input.now refusal.now line.items) }
{
    let point = point(alloc, form, input, refusal)?;
    hint_of(alloc, point, refusal)
}

/// The same where the input isn't known: it names no place.
pub fn placeless_hint(alloc: Global, refusal: &Refusal) -> Result<Vec<u8>, AllocError>
    ensures { IfOk result (λ line. line.items ≡ hint_text nowhere refusal.now) }
{
    let point = Point {
        at: None,
        about: About::Nothing,
    };
    hint_of(alloc, point, refusal)
}
