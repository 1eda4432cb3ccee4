// The bodies that are staged, as the bytes that are written of them.
ghost use Rattle.std.specs.Prelude.{◌≡◌, ◌<◌, ◌≤◌, ◌+◌, ◌^◌, ◌++◌, ◌∷◌, [], length, take, drop, IfOk};
ghost use Rattle.gate_log.specs.LogFile.{framed, records_size};
ghost use Rattle.gate_log.specs.Staging.{plain_records};

use std::alloc::{AllocError, Global};
use std::marker::Model;

/// Bodies in their records, whole one after the other, with a closed gate behind the last.
#[derive(Drop)]
pub struct Staged {
    bytes: Vec<u8>,
    // how many bytes the records take
    size: usize,
    count: u32,
}

// the longest record, or as many bytes of shorter ones, and a closed gate
const SIZE: usize = 1 + 2 + 65_535 + 1;

impl Model for Staged {
    ghost use Rattle.std.specs.Prelude.{◌≡◌, ◌≤◌, ◌+◌, List, ℕ, length, take};
    ghost use Rattle.gate_log.specs.Staging.{plain_records, staged_in};

    ghost Value = { List (List ℕ) };

    ghost view = { λ s. staged_in (take (s.size + 1) s.bytes.items) };

    ghost invariant = { λ s. (length s.bytes.items ≡ 65539) × (s.size ≤ 65538)
        × (take (s.size + 1) s.bytes.items ≡ plain_records (staged_in (take (s.size + 1) s.bytes.items)))
        × (s.count ≡ length (staged_in (take (s.size + 1) s.bytes.items))) };
}

// Puts an open gate, a body behind its length, and a closed gate at the front, and says how many bytes they are.
fn frame(buffer: &mut [u8], body: &[u8]) -> usize
    requires body { length body.now < 2 ^ 16 }
    requires room { length body.now + 4 ≤ length buffer.old }
    ensures size { result ≡ length body.now + 4 }
    ensures same { length buffer.new ≡ length buffer.old }
    ensures bytes { take result buffer.new ≡ 1 ∷ framed body.now ++ 0 ∷ [] }
{
    let size = body.len();
    let (head, rest) = buffer.split_at_mut(3);
    head[0] = 1;
    head[1] = (size % 256) as u8;
    head[2] = (size / 256) as u8;
    rest[..size].copy_from_slice(body);
    rest[size] = 0;
    size + 4
}

// Puts an open gate, a body behind its length, and a closed gate at a place.
fn frame_at(buffer: &mut [u8], at: usize, body: &[u8])
    requires body { length body.now < 2 ^ 16 }
    requires room { at + (length body.now + 4) ≤ length buffer.old }
    ensures same { length buffer.new ≡ length buffer.old }
    ensures bytes { take (at + (length body.now + 4)) buffer.new ≡ take at buffer.old ++ (1 ∷ framed body.now ++ 0 ∷ []) }
{
    let (_, rest) = buffer.split_at_mut(at);
    frame(rest, body);
}

impl Staged {
    pub fn new(alloc: Global) -> Result<Self, AllocError>
        ensures { IfOk result (λ staged. staged ≡ []) }
    {
        let mut bytes = Vec::new(alloc);
        bytes.resize(SIZE, 0)?;
        Ok(Staged {
            bytes,
            size: 0,
            count: 0,
        })
    }

    /// Adds a body behind the others.
    pub fn add(&mut self, body: &[u8])
        requires room { records_size self.old + (3 + length body.now) ≤ 65538 }
        ensures { self.new ≡ self.old ++ body.now ∷ [] }
    {
        frame_at(&mut self.bytes, self.size, body);
        self.size += 3 + body.len();
        self.count += 1;
    }

    /// Lets all bodies go.
    pub fn clear(&mut self)
        ensures { self.new ≡ [] }
    {
        self.bytes[0] = 0;
        self.size = 0;
        self.count = 0;
    }

    /// How many bytes the records take.
    pub fn size(&self) -> usize
        ensures size { result ≡ records_size self.now }
        ensures bound { result ≤ 65538 }
    {
        self.size
    }

    /// How many bodies there are.
    pub fn count(&self) -> u32
        ensures { result ≡ length self.now }
    {
        self.count
    }

    /// All bytes behind the first gate.
    pub fn behind_gate(&self) -> &[u8]
        ensures { result.now ≡ drop 1 (plain_records self.now) }
    {
        let (records, _) = self.bytes.split_at(self.size + 1);
        &records[1..]
    }
}
