// Who is in a set, and who of them was looked at.
ghost use Rattle.std.specs.Prelude.{◌≡◌, ◌<◌, ℕ, true, false, length, nat_eq, IfSome};
ghost use Rattle.cascade.specs.Sets.{IsMarked, done, marked};

/// A process is out, waits to be looked at, or was looked at.
#[derive(Clone, Copy, PartialEq, Eq)]
pub enum Mark {
    Out,
    Waiting,
    Done,
}

/// Whether a process is in.
pub fn is_in(marks: &[Mark], process: u32) -> bool
    ensures { result ≡ marked marks.now process }
{
    match marks.get(process as usize) {
        Some(mark) => *mark != Mark::Out,
        None => false,
    }
}

/// A process that is out waits to be looked at.
pub fn bring_in(marks: &mut [Mark], process: u32)
    requires { process < length marks.old }
    ensures { IsMarked (nat_eq process) marks.old marks.new }
{
    let at = process as usize;
    if marks[at] == Mark::Out {
        marks[at] = Mark::Waiting;
    }
}

/// The first process that waits to be looked at.
pub fn next_waiting(marks: &[Mark]) -> Option<usize>
    ensures some { IfSome result (λ k. (k < length marks.now) × (marked marks.now k ≡ true) × (done marks.now k ≡ false)) }
    ensures none { result ≡ None → (k : ℕ) → marked marks.now k ≡ true → done marks.now k ≡ true }
{
    marks.iter().position(|mark| *mark == Mark::Waiting)
}
