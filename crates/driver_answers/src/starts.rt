// What became of the processes of a name.
ghost use Rattle.std.specs.Prelude.{◌≡◌, ◌++◌, IfOk, OnOk};
ghost use Rattle.schedule_model.specs.Histories.{net};
ghost use Rattle.driver_requests.specs.Answers.{numbered_lines};
ghost use Rattle.driver_answers.specs.Starts.{line_if_named, started};

use driver_requests::framed;
use process_report::{process_name, put_end};
use process_text::is_word;
use process_tree::{Entry, Name};
use schedule_model::History;
use schedule_rules::net;
use std::alloc::{AllocError, Global};

// Writes what became of a process, if it has this name. Those entries are the net of the history.
fn put_if_named(
    alloc: Global,
    h: &History,
    standing: &[Entry],
    name: &[u8],
    i: u32,
    out: &mut Vec<u8>,
) -> Result<(), AllocError>
    requires { standing.now ≡ net h.now.events }
    ensures { OnOk result (out.new.items ≡ out.old.items ++ line_if_named h.now name.now i) }
{
    if is_word(process_name(h.plans.as_slice(), i), name) {
        return put_end(alloc, h, standing, i, out);
    }
    Ok(())
}

// Writes what became of the processes of this name. More than 32 bits can number are told as want of memory.
fn put_started(alloc: Global, h: &History, name: &[u8], out: &mut Vec<u8>) -> Result<(), AllocError>
    ensures { OnOk result (out.new.items ≡ out.old.items ++ started h.now name.now) }
{
    let Ok(count) = u32::try_from(h.plans.as_slice().len()) else {
        return Err(AllocError);
    };
    let standing = net(alloc, h)?;
    let mut i = 0;
    while i < count {
        i += 1;
        put_if_named(alloc, h, &standing, name, i, out)?;
    }
    Ok(())
}

/// What a driver reads for `started NAME`.
pub fn started_text(alloc: Global, h: &History, name: &Name) -> Result<Vec<u8>, AllocError>
    ensures { IfOk result (λ text. text.items ≡ numbered_lines (started h.now name.now)) }
{
    let mut text = Vec::new(alloc);
    put_started(alloc, h, name.bytes(), &mut text)?;
    framed(alloc, true, text)
}
