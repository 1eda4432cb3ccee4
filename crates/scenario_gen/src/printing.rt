// The text of a generated scenario.
ghost use Rattle.std.specs.Prelude.{◌≡◌, ◌++◌, ◌≤◌, OnOk, IfOk};
ghost use Rattle.scenario_gen.specs.Generated.{first_steps_text, first_way_text, generated, last_way_text, operation_of};
ghost use Rattle.scenario_gen.specs.Generated.{process_text, processes_text, refusable_text, step_text, tail_text};

use crate::generator::{Draws, Generator};
use std::alloc::{AllocError, Global};

const HEAD: &[u8] = b"version = 1\n\
conflicts = [[\"add\", \"take\"], [\"take\", \"take\"], [\"note\", \"note\"], [\"book\", \"book\"]]\n\
processes = \"\"\"\n";

const TAIL: &[u8] = b"\"\"\"\n\
\n[[op]]\nname = \"add\"\nsubsystem = 0\nverb = \"add\"\n\
\n[[op]]\nname = \"take\"\nsubsystem = 0\nverb = \"take\"\n\
\n[[op]]\nname = \"pay\"\nsubsystem = 1\nverb = \"add\"\n\
\n[[op]]\nname = \"ship\"\nsubsystem = 2\nverb = \"add\"\n\
\n[[op]]\nname = \"note\"\nsubsystem = 4\nverb = \"put\"\n\
\n[[op]]\nname = \"book\"\nsubsystem = 6\nverb = \"hold\"\n\
\n[[op]]\nname = \"load\"\nsubsystem = 2\nverb = \"add\"\n\
\n[[op]]\nname = \"haul\"\nsubsystem = 2\nverb = \"add\"\n\
\n[[op]]\nname = \"mail\"\nsubsystem = 3\nverb = \"add\"\n";

// The draws at which the fourth step is refused once, and the third.
const FOURTH_REFUSED: u32 = 0;

const THIRD_REFUSED: u32 = 1;

// The operation of a first step.
fn operation_of(drawn: u32) -> &'static str
    ensures { result.now ≡ operation_of drawn }
{
    match drawn {
        0 => "add",
        1 => "note",
        _ => "load",
    }
}

// Writes a step.
fn put_step(
    alloc: Global,
    step: &str,
    operation: &str,
    draws: Draws,
    out: &mut Vec<u8>,
) -> Result<(), AllocError>
    ensures { OnOk result (out.new.items ≡ out.old.items ++ step_text step.now operation.now draws) }
{
    let key = draws.key;
    let amount = draws.amount;
    let text = format!(in alloc; " {step} {operation} {key} {amount}")?;
    out.extend_from_slice(text.as_bytes())
}

// Writes a step that may be refused once.
fn put_refusable(
    alloc: Global,
    step: &str,
    operation: &str,
    once: bool,
    draws: Draws,
    out: &mut Vec<u8>,
) -> Result<(), AllocError>
    ensures { OnOk result (out.new.items ≡ out.old.items ++ refusable_text step.now operation.now once draws) }
{
    put_step(alloc, step, operation, draws, out)?;
    if once {
        out.extend_from_slice(b" refuse 1")?;
    }
    Ok(())
}

// Writes the beginning of a process, with the steps in front of its choice.
#[tactic(auto, unfolding(crate::specs::Generated::first_steps_text))]
fn put_first_steps(alloc: Global, k: u32, draws: Draws, out: &mut Vec<u8>) -> Result<(), AllocError>
    ensures { OnOk result (out.new.items ≡ out.old.items ++ first_steps_text k draws) }
{
    let name = format!(in alloc; "process g{k}")?;
    out.extend_from_slice(name.as_bytes())?;
    put_step(alloc, "c s1", operation_of(draws.operation), draws, out)?;
    put_step(alloc, "p s2", "pay", draws, out)
}

// Writes the first alternative of the choice.
#[tactic(auto, unfolding(crate::specs::Generated::first_way_text))]
fn put_first_way(alloc: Global, draws: Draws, out: &mut Vec<u8>) -> Result<(), AllocError>
    ensures { OnOk result (out.new.items ≡ out.old.items ++ first_way_text draws) }
{
    let third = draws.refusal == THIRD_REFUSED;
    let fourth = draws.refusal == FOURTH_REFUSED;
    out.extend_from_slice(b" choose")?;
    put_refusable(alloc, "c s3", "load", third, draws, out)?;
    put_refusable(alloc, "p s4", "haul", fourth, draws, out)?;
    put_step(alloc, "r s5", "note", draws, out)
}

// Writes the last alternative, and the end of the process.
#[tactic(auto, unfolding(crate::specs::Generated::last_way_text))]
fn put_last_way(alloc: Global, draws: Draws, out: &mut Vec<u8>) -> Result<(), AllocError>
    ensures { OnOk result (out.new.items ≡ out.old.items ++ last_way_text draws) }
{
    out.extend_from_slice(b" or")?;
    put_step(alloc, "r s6", "mail", draws, out)?;
    out.extend_from_slice(b" done end\n")
}

// Writes process k.
#[tactic(auto, unfolding(crate::specs::Generated::process_text))]
fn put_process(alloc: Global, k: u32, draws: Draws, out: &mut Vec<u8>) -> Result<(), AllocError>
    ensures { OnOk result (out.new.items ≡ out.old.items ++ process_text k draws) }
{
    put_first_steps(alloc, k, draws, out)?;
    put_first_way(alloc, draws, out)?;
    put_last_way(alloc, draws, out)
}

// Writes the processes.
fn put_processes(
    alloc: Global,
    number: u64,
    count: u32,
    out: &mut Vec<u8>,
) -> Result<(), AllocError>
    requires { count ≤ 256 }
    ensures { OnOk result (out.new.items ≡ out.old.items ++ processes_text number count) }
{
    let mut generator = Generator::new(number);
    let mut printed = 0;
    while printed < count {
        put_process(alloc, printed + 1, generator.draws(), out)?;
        printed += 1;
    }
    Ok(())
}

// Writes what stands behind the processes.
fn put_tail(out: &mut Vec<u8>) -> Result<(), AllocError>
    ensures { OnOk result (out.new.items ≡ out.old.items ++ tail_text) }
{
    out.extend_from_slice(TAIL)
}

/// The scenario of these two numbers.
pub fn generate(alloc: Global, number: u64, count: u32) -> Result<Vec<u8>, AllocError>
    requires { (1 ≤ count) × (count ≤ 256) }
    ensures { IfOk result (λ text. text.items ≡ generated number count) }
{
    let mut text = Vec::new(alloc);
    text.extend_from_slice(HEAD)?;
    put_processes(alloc, number, count, &mut text)?;
    put_tail(&mut text)?;
    Ok(text)
}
