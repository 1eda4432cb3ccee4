// Texts read as logs.
ghost use Rattle.std.specs.Prelude.{◌≡◌, ◌⊎◌, ◌≤◌, ◌<◌, ◌+◌, ◌^◌, ℕ, List, Ok, Err, length, IfOk, IfErr};
ghost use Rattle.process_tree.specs.Order.{Each};
ghost use Rattle.process_tree.specs.declared.plan.Plan.{Plan};
ghost use Rattle.trace_verify.specs.Lines.{parts};
ghost use Rattle.session_text.specs.Sessions.{scenario_of};
ghost use Rattle.session_text.specs.declared.line.LinesError.TheVariants.{BadLine, NoMemory};
ghost use Rattle.audit_text.specs.Copies.{IsGoodFor, IsSound};
ghost use Rattle.audit_text.specs.Logs.{log_from, log_of, nothing};

use crate::Log;
use process_text::is_word;
use process_tree::Plan;
use session_text::{Divided, LinesError};
use std::alloc::Global;
use trace_verify::cut;

/// Divides a text at its first line that is `%%`. Without one it is a scenario without a log.
pub fn divide(text: &[u8]) -> Divided<'_>
    ensures scenario { result.scenario.now ≡ scenario_of text.now }
    ensures lines { (plans : List Plan) → log_from plans nothing result.first (parts 10 result.lines.now) ≡ log_of plans text.now }
    ensures within { result.first + length result.lines.now ≤ length text.now + 2 }
{
    let mut rest = text;
    let mut first = 1;
    while let Some((line, behind)) = cut(rest, b'\n') {
        first += 1;
        if is_word(line, b"%%") {
            let scenario = &text[..text.len() - rest.len()];
            return Divided {
                scenario,
                lines: behind,
                first,
            };
        }
        rest = behind;
    }
    let scenario = if is_word(rest, b"%%") {
        &text[..text.len() - rest.len()]
    } else {
        text
    };
    Divided {
        scenario,
        lines: b"",
        first,
    }
}

// A bad line.
fn bad_line(n: usize) -> LinesError
    ensures { (result ≡ NoMemory) ⊎ (result ≡ BadLine n) }
{
    match u32::try_from(n) {
        Ok(n) => LinesError::BadLine(n),
        Err(_) => LinesError::NoMemory,
    }
}

/// What these lines tell, of which the first has this number; or the first of them that is bad. A number beyond 32 bits is told as
/// want of memory.
pub fn read_log<'a>(
    alloc: Global,
    plans: &'a [Plan],
    text: &[u8],
    first: usize,
) -> Result<Log<'a>, LinesError>
    requires { first + length text.now < 2 ^ 64 }
    ensures log { IfOk result (λ log. log_from plans.now nothing first (parts 10 text.now) ≡ Ok log) }
    ensures sound { IfOk result (λ log. (operations : ℕ) → Each (IsGoodFor operations) plans.now → IsSound operations log) }
    ensures bad { IfErr result
        (λ e. (e ≡ NoMemory) ⊎ ((n : ℕ) × (e ≡ BadLine n) × (log_from plans.now nothing first (parts 10 text.now) ≡ Err n))) }
{
    let mut log = Log::new(alloc);
    let mut rest = text;
    let mut number = first;
    while let Some((line, behind)) = cut(rest, b'\n') {
        if !log.take_line(plans, line)? {
            return Err(bad_line(number));
        }
        rest = behind;
        number += 1;
    }
    if !log.take_line(plans, rest)? {
        return Err(bad_line(number));
    }
    Ok(log)
}
