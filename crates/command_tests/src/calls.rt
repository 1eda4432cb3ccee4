//! Calls of the program over objects in memory.
ghost use Rattle.std.specs.Prelude.{◌≡◌, length};

use process_disk::MemoryRack;
use process_engine::Gate;
use process_flow::{MemorySink, MemorySource};
use process_program::{new_boxes, new_gates};
use process_top::{Finished, top};
use std::alloc::{AllocError, Global};
use std::sync::Wait;
use std::thread::Threads;

/// Words, each of them owned.
pub fn words_of(alloc: Global, words: &[&str]) -> Result<Vec<String>, AllocError> {
    let mut list = Vec::new(alloc);
    for word in words {
        list.push(String::from_str(alloc, word)?)?;
    }
    Ok(list)
}

// The status of `top` over a source, a sink, a rack and gates, and the rack after it.
fn answered<H: Threads + Wait + Sync, G: Gate + Drop + Send>(
    rt: &H,
    alloc: Global,
    words: &[String],
    source: &mut MemorySource,
    sink: &mut MemorySink,
    rack: MemoryRack,
    gates: Vec<G>,
) -> Result<(u8, MemoryRack), AllocError>
    requires { length gates.items ≡ 16 }
{
    let resources = new_boxes(alloc)?;
    let finished = top(rt, alloc, words, source, sink, rack, resources, gates);
    let Finished {
        status,
        refused: _,
        rack,
        resources,
        gates,
    } = finished;
    drop(resources);
    drop(gates);
    Ok((status, rack))
}

/// Words and an input.
#[derive(Clone, Copy, Drop)]
pub struct Call<'a> {
    pub words: &'a [&'a str],
    pub text: &'a [u8],
    /// Which reads of the input fail, and which writes of the output.
    pub reads: &'a [u32],
    pub writes: &'a [u32],
}

/// A call in which all reads and writes succeed.
pub fn plain_call<'a>(words: &'a [&'a str], text: &'a [u8]) -> Call<'a> {
    Call {
        words,
        text,
        reads: &[],
        writes: &[],
    }
}

/// What is answered.
#[derive(Drop)]
pub struct Told {
    pub status: u8,
    pub sink: MemorySink,
    pub rack: MemoryRack,
}

/// What `top` answers to a call over this rack, with these gates.
pub fn answer_with<H: Threads + Wait + Sync, G: Gate + Drop + Send>(
    rt: &H,
    alloc: Global,
    call: Call<'_>,
    rack: MemoryRack,
    gates: Vec<G>,
) -> Result<Told, AllocError>
    requires { length gates.items ≡ 16 }
{
    let words = words_of(alloc, call.words)?;
    let mut source = MemorySource::new(call.text.to_vec(alloc)?, call.reads.to_vec(alloc)?);
    let mut sink = MemorySink::new(alloc, call.writes.to_vec(alloc)?);
    let (status, rack) = answered(rt, alloc, &words, &mut source, &mut sink, rack, gates)?;
    Ok(Told { status, sink, rack })
}

/// What `top` answers to a call over this rack, with the program's own gates.
pub fn answer_to<H: Threads + Wait + Sync>(
    rt: &H,
    alloc: Global,
    call: Call<'_>,
    rack: MemoryRack,
) -> Result<Told, AllocError> {
    answer_with(rt, alloc, call, rack, new_gates(alloc)?)
}

/// A rack of nine empty files, of which these calls fail.
pub fn empty(alloc: Global, fails: &[u32]) -> Result<MemoryRack, AllocError> {
    MemoryRack::new(alloc, fails.to_vec(alloc)?)
}
