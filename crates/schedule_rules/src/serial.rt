// Where a list isn't serial.
ghost use Rattle.std.specs.Prelude.{◌≡◌, ◌<◌, length, reverse, nat_eq};
ghost use Rattle.std.specs.List.{list_any};
ghost use Rattle.schedule_model.specs.Reduction.{not_serial, is_out_of_place};

use process_tree::Entry;

/// The first place, counted from 1, that holds an undo or takes up again a process that another's entry interrupted.
pub fn not_serial(list: &[Entry]) -> Option<u32>
    requires { length list.now < 4294967296 }
    ensures { result ≡ not_serial list.now }
{
    for (place, entry) in list.iter().enumerate() {
        if is_out_of_place(&list[..place], entry) {
            return Some(place as u32 + 1);
        }
    }
    None
}

fn has_process(entries: &[Entry], process: u32) -> bool
    ensures { result ≡ list_any (λ e. nat_eq e.process process) entries.now }
{
    entries.iter().any(|entry| entry.process == process)
}

/// Whether an entry is an undo or of a process that was left, these entries standing before it.
fn is_out_of_place(before: &[Entry], entry: &Entry) -> bool
    ensures { result ≡ is_out_of_place (reverse before.now) entry.now }
{
    if entry.undo {
        return true;
    }
    match before {
        [] => false,
        [earlier @ .., last] => {
            last.process != entry.process && has_process(earlier, entry.process)
        }
    }
}
