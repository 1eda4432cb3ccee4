// Who goes back where nothing can go on.
ghost use Rattle.std.specs.Prelude.{◌≡◌, if◌then◌else◌};
ghost use Rattle.process_tree.specs.Shape.{greater};
ghost use Rattle.admission.specs.Admission.{victim};

/// The greater of a number and of another, if there is one.
fn greater(n: u32, other: Option<u32>) -> Option<u32>
    ensures { result ≡ greater n other }
{
    match other {
        Some(m) if n <= m => other,
        _ => Some(n),
    }
}

/// The greater of a process, if it may go back, and of another.
fn greater_if(process: u32, may_go_back: bool, other: Option<u32>) -> Option<u32>
    ensures { result ≡ (if may_go_back then greater process other else other) }
{
    if may_go_back {
        greater(process, other)
    } else {
        other
    }
}

/// The victim among blocked processes, each with whether it has not begun to complete: the greatest that has not. `process_core`
/// doesn't call it.
pub fn victim(blocked: &[(u32, bool)]) -> Option<u32>
    ensures { result ≡ victim blocked.now }
{
    let mut rest = blocked;
    let mut found = None;
    'blocked: while let Some(((process, may_go_back), front)) = rest.split_last() {
        found = greater_if(*process, *may_go_back, found);
        rest = front;
    }
    found
}
