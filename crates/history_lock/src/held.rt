// What a desk holds.
ghost use Rattle.std.specs.Prelude.{List, []};

/// A state that stands for an opening state and the list of entries since. With no entry each state stands for itself.
pub trait Held {
    type Entry: Drop;

    ghost stands_for: { Self → List Self.Entry → Self → Type 0 };

    ghost opens: { (x : Self) → stands_for x [] x };
}
