// Sinks of bytes: the trait, one in memory, one over a writer, and writing all.
ghost use Rattle.std.specs.Prelude.{◌≡◌, ◌<◌, ◌≤◌, ◌+◌, ◌-◌, ◌^◌, ◌⊎◌, List, ℕ, length, take, min, IfOk, IfErr, OnOk, IsErr};
ghost use Rattle.std.specs.Prelude.{Contains};
ghost use Rattle.std.specs.declared.option.Option.{Option};
ghost use Rattle.std.specs.Io.KnownBytes.{WriteAppends, Appends};
ghost use Rattle.process_flow.specs.Causes.{Rose, HasCause, CountsFaults, CountsOne};

use crate::{Counted, Failed, is_listed};
use std::alloc::Global;
use std::error::Error;
use std::fmt;
use std::io::Write;
use std::marker::Model;

/// Where bytes go.
pub trait Sink {
    /// The bytes that were taken, where they are told.
    ghost taken: { Self → Option (List ℕ) };

    /// How many calls have failed, or the last number of a counter.
    ghost faults: { Self → ℕ };

    /// Takes bytes from the front and says how many, at least one.
    fn give(&mut self, bytes: &[u8]) -> Result<usize, Failed>
        requires { 0 < length bytes.now }
        ensures some { IfOk result (λ n. 0 < n) }
        ensures bound { IfOk result (λ n. n ≤ length bytes.now) }
        ensures bytes { WriteAppends (taken self.old) (taken self.new) result bytes.now }
        ensures faults { CountsFaults (faults self.old) (faults self.new) result };
}

/// A sink in memory, of which the listed calls fail, numbered from 0.
#[derive(Drop)]
pub struct MemorySink {
    bytes: Vec<u8>,
    fails: Vec<u32>,
    calls: u64,
    faults: u64,
    starved: u64,
}

impl Model for MemorySink {
    ghost use Rattle.process_flow.specs.Memory.{MemoryOutput};

    ghost Value = { MemoryOutput };

    ghost view = { λ s. record {
      taken = s.bytes.items;
      fails = s.fails.items;
      calls = s.calls;
      faults = s.faults;
      starved = s.starved;
    } };
}

impl MemorySink {
    ghost use Rattle.std.specs.Prelude.{◌≡◌, []};

    pub fn new(alloc: Global, fails: Vec<u32>) -> Self
        ensures { result ≡ record { taken = []; fails = fails.items; calls = 0; faults = 0; starved = 0 } }
    {
        MemorySink {
            bytes: Vec::new(alloc),
            fails,
            calls: 0,
            faults: 0,
            starved: 0,
        }
    }

    /// The bytes that were taken.
    pub fn bytes(&self) -> &[u8]
        ensures { result.now ≡ self.now.taken }
    {
        &self.bytes
    }

    /// How many calls wanted memory that was not there.
    pub fn starved(&self) -> u64
        ensures { result ≡ self.now.starved }
    {
        self.starved
    }
}

impl Sink for MemorySink {
    ghost use Rattle.std.specs.Prelude.{Some};

    ghost taken = { λ s. Some s.taken };

    ghost faults = { λ s. s.faults };

    fn give(&mut self, bytes: &[u8]) -> Result<usize, Failed>
        requires { 0 < length bytes.now }
        ensures some { IfOk result (λ n. 0 < n) }
        ensures bound { IfOk result (λ n. n ≤ length bytes.now) }
        ensures bytes { WriteAppends (Some self.old.taken) (Some self.new.taken) result bytes.now }
        ensures faults { CountsOne self.old.faults self.new.faults result }
        ensures listed { Contains self.old.fails self.old.calls → IsErr result }
        ensures failed { IsErr result → Contains self.old.fails self.old.calls ⊎ Rose self.old.starved self.new.starved }
        ensures starved { OnOk result (self.new.starved ≡ self.old.starved) }
        ensures never_falls { self.old.starved ≤ self.new.starved }
        ensures whole { IfOk result (λ n. n ≡ length bytes.now) }
        ensures list { self.new.fails ≡ self.old.fails }
        ensures counted { self.new.calls ≡ min (self.old.calls + 1) (2 ^ 64 - 1) }
    {
        let call = self.calls;
        self.calls = call.saturating_add(1);
        if is_listed(&self.fails, call) {
            self.faults = self.faults.saturating_add(1);
            return Err(Failed);
        }
        match self.bytes.extend_from_slice(bytes) {
            Ok(()) => Ok(bytes.len()),
            Err(_) => {
                self.starved = self.starved.saturating_add(1);
                self.faults = self.faults.saturating_add(1);
                Err(Failed)
            }
        }
    }
}

/// A sink over a writer. Of contents it tells what the writer tells, which is nothing where that is a stream of the
/// system.
pub type StdSink<T> = Counted<T>;

impl<T: Write + Drop> Sink for Counted<T> {
    ghost taken = { λ s. T.contents s.inner };

    ghost faults = { λ s. s.faults };

    fn give(&mut self, bytes: &[u8]) -> Result<usize, Failed>
        requires { 0 < length bytes.now }
        ensures some { IfOk result (λ n. 0 < n) }
        ensures bound { IfOk result (λ n. n ≤ length bytes.now) }
        ensures bytes { WriteAppends (T.contents self.old.inner) (T.contents self.new.inner) result bytes.now }
        ensures faults { CountsOne self.old.faults self.new.faults result }
    {
        match self.inner.write(bytes) {
            Ok(count) if count > 0 => Ok(count),
            _ => {
                self.faults = self.faults.saturating_add(1);
                Err(Failed)
            }
        }
    }
}

/// Not all bytes went out, but exactly the first `sent` did.
#[derive(Clone, Copy, Debug, PartialEq, Eq)]
pub struct WriteFault {
    pub sent: usize,
}

impl fmt::Display for WriteFault {
    ghost use Rattle.std.specs.Prelude.{Some, ◌++◌, codes, decimal};

    ghost output = { λ e. Some (codes "the sink failed after " ++ decimal e.sent ++ codes " bytes") };

    fn fmt<W: fmt::Write>(&self, f: &mut fmt::Formatter<W>) -> fmt::Result {
        let sent = self.sent;
        write!(f, "the sink failed after {sent} bytes")
    }
}

impl Error for WriteFault {}

/// Writes all bytes in order.
pub fn write_all<K: Sink>(sink: &mut K, bytes: &[u8]) -> Result<(), WriteFault>
    ensures all { OnOk result (Appends (K.taken sink.old) (K.taken sink.new) bytes.now) }
    ensures sent { IfErr result (λ e. Appends (K.taken sink.old) (K.taken sink.new) (take e.sent bytes.now)) }
    ensures within { IfErr result (λ e. e.sent < length bytes.now) }
    ensures cause { HasCause (K.faults sink.old) (K.faults sink.new) result }
    // No failed call is passed over.
    ensures quiet { OnOk result (K.faults sink.new ≡ K.faults sink.old) }
{
    let mut sent = 0;
    while sent < bytes.len() {
        match sink.give(&bytes[sent..]) {
            Ok(count) => sent += count,
            Err(Failed) => return Err(WriteFault { sent }),
        }
    }
    Ok(())
}
