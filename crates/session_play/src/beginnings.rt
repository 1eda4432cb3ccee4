// Who began to complete.
ghost use Rattle.std.specs.Prelude.{◌≡◌, IfOk};
ghost use Rattle.session_play.specs.Playing.{is_at, just_began};

use process_core::Began;
use process_disk::Rack;
use process_engine::Engine;
use resource_box::Resource;
use std::alloc::{AllocError, Global};

// Whether it began at this kept event.
fn is_at(event: usize, began: Option<Began>) -> bool
    ensures { result ≡ is_at event began }
{
    match began {
        Some(began) => began.event as usize == event,
        None => false,
    }
}

/// The processes that began to complete at the last kept event, ascending. Processes of which 32 bits don't hold the number are
/// told as want of memory.
pub fn just_began<R: Rack + Drop, B: Resource>(
    alloc: Global,
    engine: &Engine<R, B>,
) -> Result<Vec<u32>, AllocError>
    ensures { IfOk result (λ began. began.items ≡ just_began engine.now.core) }
{
    let event = engine.kept().len();
    let mut rest = engine.history().plans.as_slice();
    let Ok(_) = u32::try_from(rest.len()) else {
        return Err(AllocError);
    };
    let mut processes = Vec::new(alloc);
    let mut i = 0;
    while let [_, after @ ..] = rest {
        i += 1;
        if is_at(event, engine.began(i)) {
            processes.push(i)?;
        }
        rest = after;
    }
    Ok(processes)
}
