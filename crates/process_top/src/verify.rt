// The command `verify`.
ghost use Rattle.std.specs.Prelude.{◌≡◌, ◌⊎◌, IfErr, OnOk};
ghost use Rattle.trace_verify.specs.declared.verdict.Verified.TheVariants as verdicts;
ghost use Rattle.command_refusals.specs.declared.faults.ReportFault.{ReportFault};
ghost use Rattle.command_refusals.specs.declared.refusal.Refusal.TheVariants.{Report, NoMemory};
ghost use Rattle.command_input.specs.Inputs.{input};
ghost use Rattle.process_top.specs.Said.{Says};
ghost use Rattle.process_top.specs.Verify.{verdict_of, IsVerifyDue};

use command_input::{Said, text_of};
use command_refusals::{Refusal, ReportFault, Status};
use process_flow::Source;
use std::alloc::Global;
use trace_verify::Verified;

// Nothing, where a report is accepted.
fn fault_of(verified: Verified) -> Result<(), Refusal>
    ensures accepted { OnOk result (verified ≡ verdicts.Accepted) }
    ensures fault { IfErr result
        (λ r. (r ≡ NoMemory) ⊎ ((fault : ReportFault) × (r ≡ Report fault) × (verified ≡ verdict_of fault))) }
{
    match verified {
        Verified::Accepted => Ok(()),
        Verified::BadText(n) => Err(Refusal::Report(ReportFault::BadText(n))),
        Verified::StepRefused(k) => Err(Refusal::Report(ReportFault::StepRefused(k))),
        Verified::NotSerial(n) => Err(Refusal::Report(ReportFault::NotSerial(n))),
        Verified::SerialDiffers(n) => Err(Refusal::Report(ReportFault::SerialDiffers(n))),
        Verified::NoMemory => Err(Refusal::NoMemory),
    }
}

/// Verifies the report that is the source's text.
pub fn verify<S: Source>(alloc: Global, source: &mut S) -> Result<Said, Refusal>
    ensures { Says (IsVerifyDue (input S.Source source.old) (input S.Source source.new)) result }
{
    let text = text_of(alloc, source)?;
    fault_of(trace_verify::verify(alloc, &text))?;
    Ok(Said {
        text: b"accepted\n".to_vec(alloc)?,
        status: Status::Done,
    })
}
