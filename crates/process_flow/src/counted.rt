// Streams whose failed calls are counted.
ghost use Rattle.std.specs.Prelude.{◌≡◌};

/// A stream with the number of its failed calls, or the last number of a counter.
#[derive(Drop)]
pub struct Counted<T: Drop> {
    pub inner: T,
    pub faults: u64,
}

impl<T: Drop> Counted<T> {
    pub fn new(inner: T) -> Self
        ensures { result ≡ record { inner = inner; faults = 0 } }
    {
        Counted { inner, faults: 0 }
    }
}
