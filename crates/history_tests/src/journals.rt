// What no clause of `process_journal` says: each damage and each cut of a file, the bytes of a whole journal, and that each call
// which wants memory succeeds where there is enough.
ghost use Rattle.std.specs.Prelude.{◌≡◌, ◌<◌};

use crate::damages::{CUTS, DAMAGES};
use commute_table::read_catalog;
use process_disk::{MemoryRack, Rack};
use process_flow::Failed;
use process_journal::{Body, Journal, JournalError, Record};
use process_tree::Entry;
use schedule_model::Event;
use std::alloc::Global;
use std::process::Abort;

// File 0 after the run of one process of one step.
const FILE: [u8; 76] = *b"tpsl\x02\x00\x00\x00\
\x01\x0b\x00\x00\x01\x01\x00\x03add\x00\x00\x00\
\x01\x1f\x00\x01\x01\x00\x00\x00process a c x add 1 5 end\n\
\x01\x08\x00\x02\x01\x00\x00\x00\x00\x00\x00\
\x01\x05\x00\x03\x01\x00\x00\x00\x00";

/// What was to be had: memory is never wanting here, and no call fails.
pub fn must<T: Drop, E: Drop>(rt: &impl Abort, found: Result<T, E>) -> T {
    match found {
        Ok(value) => value,
        Err(_) => panic!(rt; "no memory, or a failed call"),
    }
}

// How many events the history of file 0 has, or why there is none.
fn events(rt: &impl Abort, alloc: Global, bytes: &[u8]) -> Result<usize, JournalError> {
    let mut rack = must(rt, MemoryRack::new(alloc, Vec::new(alloc)));
    must(rt, rack.write_at(0, 0, bytes));
    match Journal::open(alloc, &mut rack) {
        Ok((_, _, history)) => Ok(history.events.as_slice().len()),
        Err(error) => Err(error),
    }
}

// That file, of which no proof knows the bytes.
fn whole_file(rt: &impl Abort, alloc: Global) -> Vec<u8> {
    must(rt, FILE.to_vec(alloc))
}

// What is answered with this byte at a place.
fn expect_damage<H: Abort>(
    rt: &H,
    alloc: Global,
    place: usize,
    byte: u8,
    want: Result<usize, JournalError>,
) {
    let mut file = whole_file(rt, alloc);
    assert!(rt; place < file.len());
    if byte != file[place] {
        file[place] = byte;
        assert_eq!(rt; events(rt, alloc, &file), want, "{byte} at {place}");
    }
}

#[test]
fn each_damage_has_its_answer(rt: HostRuntime) {
    let alloc = rt.alloc();
    assert_eq!(rt; events(&rt, alloc, &FILE), Ok(3));
    let mut covered = 0;
    for (from, to, first, middle, last, want) in DAMAGES {
        assert!(rt; from <= covered);
        covered = to;
        for place in from..to {
            for byte in [first, middle, last] {
                expect_damage(&rt, alloc, place, byte, want);
            }
        }
    }
    assert_eq!(rt; covered, FILE.len());
}

#[test]
fn a_journal_of_a_catalog_of_version_2_is_opened(rt: HostRuntime) {
    let alloc = rt.alloc();
    let mut file = whole_file(&rt, alloc);
    assert!(rt; file.len() == FILE.len());
    file[12] = 2;
    file[21] = 2;
    assert_eq!(rt; events(&rt, alloc, &file), Ok(3));
}

#[test]
fn each_cut_has_its_answer(rt: HostRuntime) {
    let alloc = rt.alloc();
    for (from, to, want) in CUTS {
        for size in from..to {
            assert!(rt; size <= FILE.len());
            assert_eq!(rt; events(&rt, alloc, &FILE[..size]), want, "cut after {size}");
        }
    }
}

// A rack in memory of which nothing is told, so that no call asks what its files hold. Its count of faults stands at the last
// value.
#[derive(Drop)]
struct Untold {
    rack: MemoryRack,
}

impl Rack for Untold {
    ghost use Rattle.std.specs.Prelude.{false, []};
    ghost use Rattle.std.proofs.Common.{rules};

    ghost disk = { λ r. record { tells = false; files = []; may_leave = λ c. ⊥; moment = 0; left_since = λ t c. ⊥ } };

    ghost faults = { λ r. 18446744073709551615 };

    ghost honest = { λ r told. Prim.search rules };

    fn len(&mut self, file: u8) -> Result<u64, Failed> {
        self.rack.len(file)
    }

    fn read(&mut self, file: u8, at: u64, buf: &mut [u8]) -> Result<usize, Failed> {
        self.rack.read(file, at, buf)
    }

    fn write_at(&mut self, file: u8, at: u64, bytes: &[u8]) -> Result<(), Failed> {
        if at > self.rack.len(file)? {
            return Err(Failed);
        }
        self.rack.write_at(file, at, bytes)
    }

    fn sync(&mut self) -> Result<(), Failed> {
        self.rack.sync()
    }
}

const STEP: Entry = Entry {
    process: 1,
    step: 0,
    op: 0,
    key: 1,
    undo: false,
};

// The journal of no record yet.
fn new_journal<H: Abort>(rt: &H, alloc: Global, rack: &mut Untold) -> Journal
    ensures { result.count ≡ 1 }
{
    let Ok(catalog) = read_catalog(alloc, &FILE[12..22]) else {
        panic!(rt; "no catalog");
    };
    let Ok(journal) = Journal::create(alloc, rack, &catalog) else {
        panic!(rt; "no journal");
    };
    journal
}

// Appends the records of that run.
fn append_run<H: Abort>(rt: &H, alloc: Global, rack: &mut Untold, journal: &mut Journal)
    requires { journal.old.count < 100 }
{
    let Ok(bytes) = FILE[30..56].to_vec(alloc) else {
        panic!(rt; "no memory");
    };
    let text = Body::new(bytes);
    let Ok(()) = journal.append(rack, &Record::Start(1, text)) else {
        panic!(rt; "no start");
    };
    let Ok(()) = journal.append(rack, &Record::Act(STEP)) else {
        panic!(rt; "no step");
    };
    let Ok(()) = journal.append(rack, &Record::End(1)) else {
        panic!(rt; "no end");
    };
}

// The bytes of file 0, which are fewer than 100.
fn bytes_in(rt: &impl Abort, alloc: Global, rack: &mut Untold) -> Vec<u8> {
    let mut bytes = must(rt, vec![in alloc; 0; 100]);
    let count = must(rt, rack.read(0, 0, &mut bytes));
    bytes.truncate(count);
    bytes
}

// File 0 is the journal of that run.
fn expect_run<H: Abort>(rt: &H, alloc: Global, rack: &mut Untold) {
    let Ok((journal, catalog, history)) = Journal::open(alloc, rack) else {
        panic!(rt; "not opened");
    };
    assert_eq!(rt; journal.count(), 4);
    assert_eq!(rt; catalog.ops.as_slice().len(), 1);
    assert_eq!(rt; history.plans.as_slice().len(), 1);
    let events = [Event::Start(1), Event::Act(STEP), Event::End(1)];
    assert_eq!(rt; history.events.as_slice(), events.as_slice());
}

#[test]
fn the_records_of_a_run_are_written_and_read(rt: HostRuntime) {
    let alloc = rt.alloc();
    let mut rack = Untold {
        rack: must(&rt, MemoryRack::new(alloc, Vec::new(alloc))),
    };
    let mut journal = new_journal(&rt, alloc, &mut rack);
    assert_eq!(rt; rack.len(0), Ok(23));
    append_run(&rt, alloc, &mut rack, &mut journal);
    assert_eq!(rt; rack.len(0), Ok(76));
    assert!(rt; bytes_in(&rt, alloc, &mut rack) == whole_file(&rt, alloc));
    expect_run(&rt, alloc, &mut rack)
}
