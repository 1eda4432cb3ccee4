// Sources of bytes: the trait, one in memory, one over a reader, and reading to the end.
ghost use Rattle.std.specs.Prelude.{◌≡◌, ◌<◌, ◌≤◌, ◌+◌, ◌-◌, ◌^◌, ◌↔◌, List, ℕ, length, Some, IfOk, OnOk, IfSome, IsErrOf};
ghost use Rattle.std.specs.Prelude.{IsErr, Contains, min, take};
ghost use Rattle.std.specs.declared.option.Option.{Option};
ghost use Rattle.std.specs.Io.{ReadsAtMost};
ghost use Rattle.std.specs.Io.KnownBytes.{ReadConsumes, Consumes, IsAtEnd};
ghost use Rattle.process_flow.specs.Causes.{Rose, CountsFaults, CountsOne};
ghost use Rattle.process_flow.specs.Reading.{AnswersFor, text_of};
ghost use Rattle.process_flow.specs.declared.source.ReadError.TheVariants.{NoMemory};

use crate::{Counted, Failed, is_listed};
use std::alloc::{AllocError, Global};
use std::error::Error;
use std::fmt;
use std::io::Read;
use std::marker::Model;

/// Where bytes come from.
pub trait Source {
    /// The bytes that are left, where they are told.
    ghost left: { Self → Option (List ℕ) };

    /// How many calls have failed, or the last number of a counter.
    ghost faults: { Self → ℕ };

    /// Takes bytes into the buffer's front and says how many; 0 is the end of input.
    fn take(&mut self, buf: &mut [u8]) -> Result<usize, Failed>
        requires { 0 < length buf.old }
        ensures bound { ReadsAtMost result buf.new }
        ensures bytes { ReadConsumes (left self.old) (left self.new) result buf.new }
        ensures faults { CountsFaults (faults self.old) (faults self.new) result };
}

/// A source over bytes in memory, of which the listed calls fail, numbered from 0.
#[derive(Drop)]
pub struct MemorySource {
    bytes: Vec<u8>,
    at: usize,
    fails: Vec<u32>,
    calls: u64,
    faults: u64,
}

impl Model for MemorySource {
    ghost use Rattle.std.specs.Prelude.{◌≤◌, length, drop};
    ghost use Rattle.process_flow.specs.Memory.{MemoryInput};

    ghost Value = { MemoryInput };

    ghost view = { λ s. record { left = drop s.at s.bytes.items; fails = s.fails.items; calls = s.calls; faults = s.faults } };

    ghost invariant = { λ s. s.at ≤ length s.bytes.items };
}

impl MemorySource {
    ghost use Rattle.std.specs.Prelude.{◌≡◌};

    pub fn new(bytes: Vec<u8>, fails: Vec<u32>) -> Self
        ensures { result ≡ record { left = bytes.items; fails = fails.items; calls = 0; faults = 0 } }
    {
        MemorySource {
            bytes,
            at: 0,
            fails,
            calls: 0,
            faults: 0,
        }
    }
}

impl Source for MemorySource {
    ghost use Rattle.std.specs.Prelude.{Some};

    ghost left = { λ s. Some s.left };

    ghost faults = { λ s. s.faults };

    fn take(&mut self, buf: &mut [u8]) -> Result<usize, Failed>
        requires { 0 < length buf.old }
        ensures bound { ReadsAtMost result buf.new }
        ensures bytes { ReadConsumes (Some self.old.left) (Some self.new.left) result buf.new }
        ensures faults { CountsOne self.old.faults self.new.faults result }
        ensures fails_where_listed { IsErr result ↔ Contains self.old.fails self.old.calls }
        ensures most { IfOk result (λ n. n ≡ min (length self.old.left) (length buf.old)) }
        ensures list { self.new.fails ≡ self.old.fails }
        ensures counted { self.new.calls ≡ min (self.old.calls + 1) (2 ^ 64 - 1) }
    {
        let call = self.calls;
        self.calls = call.saturating_add(1);
        if is_listed(&self.fails, call) {
            self.faults = self.faults.saturating_add(1);
            return Err(Failed);
        }
        let count = copy_front(&self.bytes[self.at..], buf);
        self.at += count;
        Ok(count)
    }
}

// Copies as many bytes as there are and fit, and says how many.
fn copy_front(from: &[u8], to: &mut [u8]) -> usize
    ensures count { result ≡ min (length from.now) (length to.old) }
    ensures copied { take result to.new ≡ take result from.now }
{
    let count = from.len().min(to.len());
    to[..count].copy_from_slice(&from[..count]);
    count
}

/// A source over a reader. Of contents it tells what the reader tells, which is nothing where that is a stream of the
/// system.
pub type StdSource<T> = Counted<T>;

impl<T: Read + Drop> Source for Counted<T> {
    ghost left = { λ s. T.remaining s.inner };

    ghost faults = { λ s. s.faults };

    fn take(&mut self, buf: &mut [u8]) -> Result<usize, Failed>
        requires { 0 < length buf.old }
        ensures bound { ReadsAtMost result buf.new }
        ensures bytes { ReadConsumes (T.remaining self.old.inner) (T.remaining self.new.inner) result buf.new }
        ensures faults { CountsOne self.old.faults self.new.faults result }
    {
        match self.inner.read(buf) {
            Ok(count) => Ok(count),
            Err(_) => {
                self.faults = self.faults.saturating_add(1);
                Err(Failed)
            }
        }
    }
}

/// Why not all bytes were read.
#[derive(Clone, Copy, Debug, PartialEq, Eq)]
pub enum ReadError {
    /// A call of the source failed.
    ReadFault,
    /// The source gave more bytes than the limit.
    TooLong,
    NoMemory,
}

impl fmt::Display for ReadError {
    ghost output = { λ e. Some (text_of e) };

    fn fmt<W: fmt::Write>(&self, f: &mut fmt::Formatter<W>) -> fmt::Result {
        f.write_str(match self {
            ReadError::ReadFault => "the source failed",
            ReadError::TooLong => "the input is too long",
            ReadError::NoMemory => "out of memory",
        })
    }
}

impl Error for ReadError {}

impl From<AllocError> for ReadError {
    ghost from_gives = { λ _ e. e ≡ NoMemory };

    fn from(_: AllocError) -> Self {
        ReadError::NoMemory
    }
}

/// Reads all bytes to the end, at most `limit` of them. After an `Err` the bytes that the source gave are gone from it.
pub fn read_all<S: Source>(alloc: Global, source: &mut S, limit: u32) -> Result<Vec<u8>, ReadError>
    ensures all { IfOk result (λ bytes. IfSome (S.left source.old) (λ text. bytes.items ≡ text)) }
    ensures end { OnOk result (IsAtEnd (S.left source.new)) }
    ensures gave { (given : List ℕ) × Consumes (S.left source.old) (S.left source.new) given
        × AnswersFor limit given result }
    ensures read_fault { IsErrOf result ReadError.ReadFault → Rose (S.faults source.old) (S.faults source.new) }
    ensures faults { S.faults source.old ≤ S.faults source.new }
    // No failed call is passed over.
    ensures quiet { OnOk result (S.faults source.new ≡ S.faults source.old) }
{
    let mut bytes = Vec::new(alloc);
    let mut chunk = [0; 1024];
    while bytes.len() <= limit as usize {
        let count = match source.take(&mut chunk) {
            Ok(count) => count,
            Err(Failed) => return Err(ReadError::ReadFault),
        };
        if count == 0 {
            return Ok(bytes);
        }
        bytes.extend_from_slice(&chunk[..count])?;
    }
    Err(ReadError::TooLong)
}
