// The source.
ghost use Rattle.std.specs.Prelude.{◌≡◌, ◌<◌, ◌≤◌, ◌++◌, [], ℕ, List, Option, None, true, length, IfOk, Vec, vec_capacity};
ghost use Rattle.std.specs.Option.{option_map};
ghost use Rattle.std.specs.Io.{ReadsAtMost};
ghost use Rattle.std.specs.Io.KnownBytes.{ReadConsumes};
ghost use Rattle.process_flow.specs.Causes.{CountsFaults};
ghost use Rattle.kept_source.specs.declared.kept.TheConstants.{MOST_KEPT};
ghost use Rattle.kept_source.specs.Keeping.{IsHandedOn, IsKept, IsKeptBehind, IsKeptOf, fits, handed_on_is_a_fact, room_is_a_fact};

use process_flow::{Failed, Source};
use std::alloc::{AllocError, Global};
use std::marker::{Brand, PhantomData};

/// How many bytes are kept at most.
pub const MOST_KEPT: usize = 1048576;

/// What a source had left when the first byte was still to be handed on.
pub trait Opening {
    ghost left: { Option (List ℕ) };
}

impl Opening for Brand {
    ghost left = { None };
}

/// Room for the bytes that are kept.
pub fn room(alloc: Global) -> Result<Vec<u8>, AllocError>
    ensures empty { IfOk result (λ room. room.items ≡ []) }
    ensures enough { IfOk result (λ room. MOST_KEPT ≤ vec_capacity room) }
{
    Vec::with_capacity(alloc, MOST_KEPT)
}

/// A source, and the bytes that it has handed on so far; from the first on that didn't fit, none is kept any more.
#[derive(Drop)]
pub struct KeptSource<S: Source + Drop, O: Opening> {
    pub inner: S,
    pub kept: Vec<u8>,
    /// Whether all bytes that were handed on are kept.
    pub is_whole: bool,
    marker: PhantomData<O>,
    ghost handed_on: { IsHandedOn O.left (S.left inner) kept.items is_whole } by { handed_on_is_a_fact _ _ _ _ },
    ghost room: { MOST_KEPT ≤ vec_capacity kept } by { room_is_a_fact _ _ },
}

impl<S: Source + Drop, O: Opening> KeptSource<S, O> {
    /// This source, of which nothing is kept yet.
    pub fn new(room: Vec<u8>, inner: S) -> Self
        requires left { S.left inner ≡ O.left }
        requires empty { room.items ≡ [] }
        requires enough { MOST_KEPT ≤ vec_capacity room }
        ensures inner { result.inner ≡ inner }
        ensures kept { result.kept ≡ room }
        ensures whole { result.is_whole ≡ true }
    {
        KeptSource {
            inner,
            kept: room,
            is_whole: true,
            marker: PhantomData,
        }
    }

    /// The source, and all that it has handed on, if that fits.
    pub fn into_parts(self) -> (S, Option<Vec<u8>>)
        ensures inner { result.0 ≡ self.inner }
        ensures kept { IsKeptOf O.left (S.left self.inner) (option_map (λ kept. kept.items) result.1) }
    {
        let KeptSource {
            inner,
            kept,
            is_whole,
            ..
        } = self;
        (inner, if is_whole { Some(kept) } else { None })
    }
}

// Keeps these bytes, if all before them are kept, and these fit. Whether all are kept then.
fn keep(kept: &mut Vec<u8>, is_whole: bool, bytes: &[u8]) -> bool
    requires { MOST_KEPT ≤ vec_capacity kept.old }
    ensures kept { IsKeptBehind (fits is_whole (length kept.old.items) (length bytes.now)) kept.old.items bytes.now result kept.new.items }
    ensures room { MOST_KEPT ≤ vec_capacity kept.new }
{
    let fits = kept.len().saturating_add(bytes.len()) <= MOST_KEPT;
    is_whole && fits && kept.extend_from_slice(bytes).is_ok()
}

impl<S: Source + Drop, O: Opening> Source for KeptSource<S, O> {
    ghost left = { λ k. S.left k.inner };

    ghost faults = { λ k. S.faults k.inner };

    fn take(&mut self, buf: &mut [u8]) -> Result<usize, Failed>
        requires { 0 < length buf.old }
        ensures bound { ReadsAtMost result buf.new }
        ensures bytes { ReadConsumes (S.left self.old.inner) (S.left self.new.inner) result buf.new }
        ensures faults { CountsFaults (S.faults self.old.inner) (S.faults self.new.inner) result }
        ensures kept { IsKept self.old.is_whole self.old.kept.items self.new.is_whole self.new.kept.items result buf.new }
    {
        let count = self.inner.take(buf)?;
        self.is_whole = keep(&mut self.kept, self.is_whole, &buf[..count]);
        Ok(count)
    }
}
