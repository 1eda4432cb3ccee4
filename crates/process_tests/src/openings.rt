// Nine files that are opened, by a table: what is in doubt in them, and what is at fault.
ghost use Rattle.std.specs.Prelude.{IfOk};
ghost use Rattle.history_files.specs.Boxes.{AreBoxes};

use crate::cases::{CASES, Case, Contents, EMPTY, FileParts, Opens, fault_of};
use crate::expected::must;
use process_disk::{MemoryRack, Rack};
use process_engine::{Engine, OpenError, Parts};
use process_program::new_boxes;
use resource_box::Resource;
use std::alloc::Global;
use std::process::Abort;
use std::test::Fail;
use subsystem_store::Effect;

// The parts of a file, where it is among these.
fn parts_among(files: Contents, file: u8) -> Option<FileParts> {
    for (other, parts) in files {
        if *other == file {
            return Some(*parts);
        }
    }
    None
}

fn joined(rt: &impl Abort, alloc: Global, parts: &[&[u8]]) -> Vec<u8> {
    let mut bytes = Vec::new(alloc);
    for part in parts {
        must(rt, bytes.extend_from_slice(part));
    }
    bytes
}

// The bytes of a file of the case.
fn bytes_before(rt: &impl Abort, alloc: Global, case: &Case, file: u8) -> Vec<u8> {
    match (parts_among(case.files, file), EMPTY.get(usize::from(file))) {
        (Some(parts), _) => joined(rt, alloc, parts),
        (None, Some(parts)) => joined(rt, alloc, parts),
        (None, None) => Vec::new(alloc),
    }
}

fn bytes_after(rt: &impl Abort, alloc: Global, case: &Case, file: u8) -> Vec<u8> {
    match parts_among(case.after, file) {
        Some(parts) => joined(rt, alloc, parts),
        None => bytes_before(rt, alloc, case, file),
    }
}

fn rack_of(rt: &impl Abort, alloc: Global, case: &Case) -> MemoryRack {
    let mut rack = must(rt, MemoryRack::new(alloc, Vec::new(alloc)));
    for file in 0..9 {
        must(
            rt,
            rack.write_at(file, 0, &bytes_before(rt, alloc, case, file)),
        );
    }
    rack
}

// The bytes of a file, which are fewer than 200.
fn bytes_in(rt: &impl Abort, alloc: Global, rack: &mut MemoryRack, file: u8) -> Vec<u8> {
    if file >= 9 {
        return Vec::new(alloc);
    }
    let mut bytes = must(rt, vec![in alloc; 0; 200]);
    let count = must(rt, rack.read(file, 0, &mut bytes));
    bytes.truncate(count);
    bytes
}

fn expect_files<H: Abort>(rt: &H, alloc: Global, case: &Case, rack: MemoryRack) {
    let mut rack = rack;
    for file in 0..9 {
        let found = bytes_in(rt, alloc, &mut rack, file);
        let wanted = bytes_after(rt, alloc, case, file);
        assert!(rt; found == wanted, "{}: file {file}", case.name);
    }
}

// The history and the books that were opened.
fn expect_found<H: Abort, R: Rack + Drop, B: Resource>(rt: &H, case: &Case, engine: &Engine<R, B>) {
    let Opens::Found(events, first, third) = case.opens else {
        panic!(rt; "{}: opened", case.name);
    };
    assert_eq!(rt;
        engine.history().events.as_slice().len(),
        events,
        "{}",
        case.name
    );
    for q in 0..8 {
        let wanted: &[Effect] = match q {
            0 => first,
            2 => third,
            _ => &[],
        };
        assert_eq!(rt; engine.book(q), wanted, "{}: subsystem {q}", case.name);
    }
}

fn expect_fault<H: Abort>(rt: &H, case: &Case, why: OpenError) {
    assert_eq!(rt; Some(why), fault_of(case.opens), "{}", case.name);
}

// The files of the case are opened or refused as it says; the parts then.
fn expect_opening<H: Abort, B: Resource>(
    rt: &H,
    alloc: Global,
    case: &Case,
    resources: Vec<B>,
) -> Result<Parts<MemoryRack, B>, Fail>
    requires { AreBoxes B.sort resources.items }
    ensures { IfOk result (λ parts. AreBoxes B.sort parts.resources.items) }
{
    let rack = rack_of(rt, alloc, case);
    match Engine::open(alloc, Parts { rack, resources }) {
        Ok(engine) => {
            expect_found(rt, case, &engine);
            Ok(engine.into_parts())
        }
        Err(refused) => {
            expect_fault(rt, case, refused.why);
            Ok(refused.parts)
        }
    }
}

// Nine files are opened or refused, and are as they should be then.
fn expect_openings<H: Abort, B: Resource>(
    rt: &H,
    alloc: Global,
    resources: Vec<B>,
) -> Result<(), Fail>
    requires { AreBoxes B.sort resources.items }
{
    let mut resources = resources;
    for case in &CASES {
        let parts = expect_opening(rt, alloc, case, resources)?;
        resources = parts.resources;
        expect_files(rt, alloc, case, parts.rack);
    }
    Ok(())
}

#[test]
fn nine_files_are_opened_or_refused(rt: HostRuntime) -> Result<(), Fail> {
    let alloc = rt.alloc();
    expect_openings(&rt, alloc, new_boxes(alloc)?)
}
