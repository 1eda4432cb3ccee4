// Faults of calls.
ghost use Rattle.std.specs.Prelude.{IsTrue, Contains, ◌↔◌, Some, codes};

use std::error::Error;
use std::fmt;

/// A call of a source, a sink or a rack that failed.
#[derive(Clone, Copy, Debug, PartialEq, Eq)]
pub struct Failed;

impl fmt::Display for Failed {
    ghost output = { λ _. Some (codes "the call failed") };

    fn fmt<W: fmt::Write>(&self, f: &mut fmt::Formatter<W>) -> fmt::Result {
        f.write_str("the call failed")
    }
}

impl Error for Failed {}

/// Whether a call's number, counted from 0, is among those that are to fail.
pub fn is_listed(fails: &[u32], call: u64) -> bool
    ensures { IsTrue result ↔ Contains fails.now call }
{
    fails.iter().any(|fail| u64::from(*fail) == call)
}
