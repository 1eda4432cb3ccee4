// Calls of the program over objects in memory.
ghost use Rattle.std.specs.Prelude.{◌≡◌, ◌∷◌, ◌++◌, [], IfOk, codes, length, map, string_bytes};
ghost use Rattle.headline_tests.specs.Example.{IsAnswered, run_words};

use process_disk::{MemoryRack, Rack};
use process_engine::Gate;
use process_flow::{MemorySink, MemorySource, Sink, Source};
use process_program::{OwnBox, new_boxes};
use process_top::{Finished, top};
use resource_box::Resource;
use std::alloc::{AllocError, Global};
use std::sync::Wait;
use std::thread::Threads;
use worker_gate::ScriptGate;

/// What is answered.
#[derive(Drop)]
pub struct Told {
    pub status: u8,
    pub sink: MemorySink,
    pub rack: MemoryRack,
}

// Sixteen gates that refuse nothing.
fn willing_gates(alloc: Global) -> Result<Vec<ScriptGate>, AllocError>
    ensures { IfOk result (λ gates. length gates.items ≡ 16) }
{
    let mut gates = Vec::new(alloc);
    for _ in 0..16_usize {
        gates.push(ScriptGate::new(Vec::new(alloc)))?;
    }
    Ok(gates)
}

fn one_word(alloc: Global, word: &str) -> Result<Vec<String>, AllocError>
    ensures { IfOk result (λ words. map string_bytes words.items ≡ word.now ∷ []) }
{
    let mut words = Vec::new(alloc);
    words.push(String::from_str(alloc, word)?)?;
    Ok(words)
}

// These words, and one more.
fn and_word(alloc: Global, words: Vec<String>, word: &str) -> Result<Vec<String>, AllocError>
    ensures { IfOk result (λ all. map string_bytes all.items ≡ map string_bytes words.items ++ word.now ∷ []) }
{
    let mut words = words;
    words.push(String::from_str(alloc, word)?)?;
    Ok(words)
}

// What is answered on these words.
fn answered_on<H: Threads + Wait + Sync>(
    rt: &H,
    alloc: Global,
    words: Vec<String>,
    text: &[u8],
    rack: MemoryRack,
) -> Result<Told, AllocError>
    ensures { IfOk result (λ t. IsAnswered ⟦<MemorySource as Source>⟧ ⟦<MemorySink as Sink>⟧ ⟦<MemoryRack as Rack>⟧
        ⟦<OwnBox as Resource>⟧ ⟦<ScriptGate as Gate>⟧ (map string_bytes words.items) rack t.status t.sink t.rack) }
{
    let resources = new_boxes(alloc)?;
    let gates = willing_gates(alloc)?;
    let mut source = MemorySource::new(text.to_vec(alloc)?, Vec::new(alloc));
    let mut sink = MemorySink::new(alloc, Vec::new(alloc));
    let finished = top(
        rt,
        alloc,
        &words,
        &mut source,
        &mut sink,
        rack,
        resources,
        gates,
    );
    let Finished {
        status,
        refused,
        rack,
        resources,
        gates,
    } = finished;
    drop(refused);
    drop(resources);
    drop(gates);
    Ok(Told { status, sink, rack })
}

/// What is answered on one word and an input over a rack, with new boxes, and gates that refuse nothing.
pub fn answered<H: Threads + Wait + Sync>(
    rt: &H,
    alloc: Global,
    word: &str,
    text: &[u8],
    rack: MemoryRack,
) -> Result<Told, AllocError>
    ensures { IfOk result (λ t. IsAnswered ⟦<MemorySource as Source>⟧ ⟦<MemorySink as Sink>⟧ ⟦<MemoryRack as Rack>⟧
        ⟦<OwnBox as Resource>⟧ ⟦<ScriptGate as Gate>⟧ (word.now ∷ []) rack t.status t.sink t.rack) }
{
    let words = one_word(alloc, word)?;
    answered_on(rt, alloc, words, text, rack)
}

/// What a run by three workers answers, as above.
pub fn run_by_three<H: Threads + Wait + Sync>(
    rt: &H,
    alloc: Global,
    text: &[u8],
    rack: MemoryRack,
) -> Result<Told, AllocError>
    ensures { IfOk result (λ t. IsAnswered ⟦<MemorySource as Source>⟧ ⟦<MemorySink as Sink>⟧ ⟦<MemoryRack as Rack>⟧
        ⟦<OwnBox as Resource>⟧ ⟦<ScriptGate as Gate>⟧ run_words rack t.status t.sink t.rack) }
{
    let run = one_word(alloc, "run")?;
    let option = and_word(alloc, run, "--workers")?;
    let words = and_word(alloc, option, "3")?;
    answered_on(rt, alloc, words, text, rack)
}
