// What a driver reads first: who begins to complete.
ghost use Rattle.std.specs.Prelude.{◌≡◌, ◌++◌, IfOk, OnOk};
ghost use Rattle.driver_requests.specs.Readiness.{completing_text, ready_text};
ghost use Rattle.schedule_model.specs.Histories.{active};

use crate::answers::{put_completing, put_ready};
use schedule_model::{Event, History};
use schedule_rules::active;
use std::alloc::{AllocError, Global};

// The active processes, in the order of their starts.
fn active_processes(alloc: Global, h: &History) -> Result<Vec<u32>, AllocError>
    ensures { IfOk result (λ processes. processes.items ≡ active h.now.events) }
{
    let mut processes = Vec::new(alloc);
    let mut rest = h.events.as_slice();
    while let [event, after @ ..] = rest {
        if let Event::Start(i) = event
            && active(h, *i)
        {
            processes.push(*i)?;
        }
        rest = after;
    }
    Ok(processes)
}

// Writes a line for each of these processes.
fn put_all_completing(
    alloc: Global,
    h: &History,
    processes: &[u32],
    out: &mut Vec<u8>,
) -> Result<(), AllocError>
    ensures { OnOk result (out.new.items ≡ out.old.items ++ completing_text h.now.plans processes.now) }
{
    let mut rest = processes;
    while let [process, after @ ..] = rest {
        put_completing(alloc, h.plans.as_slice(), *process, out)?;
        rest = after;
    }
    Ok(())
}

/// `ready N`, and a line for each of the N processes that are active.
pub fn ready_text(alloc: Global, h: &History) -> Result<Vec<u8>, AllocError>
    ensures { IfOk result (λ text. text.items ≡ ready_text h.now) }
{
    let processes = active_processes(alloc, h)?;
    let mut text = Vec::new(alloc);
    put_ready(alloc, processes.len(), &mut text)?;
    put_all_completing(alloc, h, &processes, &mut text)?;
    Ok(text)
}
