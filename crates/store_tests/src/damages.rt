// The file of one committed effect, whole and damaged at each place, and commits of several.
use crate::files::{counters, must, rack_of, two_prepared_file, whole_file};
use process_disk::MemoryRack;
use std::alloc::Global;
use std::process::Abort;
use subsystem_store::{Store, StoreError};

#[test]
fn a_file_of_one_committed_effect_is_opened(rt: HostRuntime) {
    let alloc = rt.alloc();
    let mut rack = rack_of(&rt, alloc, whole_file());
    let Ok(store) = Store::open(alloc, &mut rack, 1, counters(&rt, alloc)) else {
        panic!(rt; "no store");
    };
    assert_eq!(rt; store.book().len(), 1);
    assert!(rt; store.in_doubt().is_empty());
    assert_eq!(rt; store.look(1), 5);
}

// How many effects the store of file 1 has, or why it is none.
fn count(rt: &impl Abort, alloc: Global, rack: &mut MemoryRack) -> Result<usize, StoreError> {
    match Store::open(alloc, rack, 1, counters(rt, alloc)) {
        Ok(store) => Ok(store.book().len()),
        Err(refused) => Err(refused.why),
    }
}

// Places of the file, from one on and below another, a byte that damages each, and how many effects are committed in it then
// or why it is no store.
const DAMAGES: [(usize, usize, u8, Result<usize, StoreError>); 25] = [
    (0, 8, 0x77, Err(StoreError::BadHeader)),
    (8, 9, 0x00, Ok(0)),
    (8, 9, 0x77, Ok(1)),
    (9, 10, 0x18, Err(StoreError::BadRecord(1))),
    (9, 10, 0x1a, Err(StoreError::BadRecord(2))),
    (10, 11, 0x77, Err(StoreError::BadRecord(1))),
    (11, 12, 0x11, Err(StoreError::BadRecord(1))),
    (12, 16, 0x77, Err(StoreError::BadBook(2))),
    (16, 22, 0x77, Ok(1)),
    (22, 23, 0x01, Err(StoreError::BadBook(1))),
    (22, 23, 0x02, Err(StoreError::BadRecord(1))),
    (23, 24, 0x05, Ok(1)),
    (23, 24, 0x06, Err(StoreError::BadRecord(1))),
    (24, 31, 0x77, Ok(1)),
    (31, 32, 0x3b, Ok(1)),
    (31, 32, 0x3c, Err(StoreError::BadRecord(1))),
    (32, 36, 0x77, Err(StoreError::BadRecord(1))),
    (36, 37, 0x00, Ok(0)),
    (36, 37, 0x77, Ok(1)),
    (37, 38, 0x04, Err(StoreError::BadRecord(2))),
    (37, 38, 0x06, Err(StoreError::BadRecord(3))),
    (38, 39, 0x77, Err(StoreError::BadRecord(2))),
    (39, 40, 0x10, Err(StoreError::BadRecord(2))),
    (40, 44, 0x77, Err(StoreError::BadBook(2))),
    (44, 45, 0x77, Err(StoreError::BadRecord(3))),
];

// What is answered with this byte at a place.
fn expect_damage<H: Abort>(
    rt: &H,
    alloc: Global,
    place: usize,
    byte: u8,
    want: Result<usize, StoreError>,
) {
    let mut file = must(rt, whole_file().to_vec(alloc));
    assert!(rt; place < file.len());
    assert_ne!(rt; file[place], byte);
    file[place] = byte;
    let mut rack = rack_of(rt, alloc, &file);
    assert_eq!(rt; count(rt, alloc, &mut rack), want, "damaged at {place}");
}

#[test]
fn a_damage_at_each_place_has_its_answer(rt: HostRuntime) {
    let alloc = rt.alloc();
    let mut covered = 0;
    for (from, to, byte, want) in &DAMAGES {
        assert!(rt; *from <= covered);
        covered = *to;
        for place in *from..*to {
            expect_damage(&rt, alloc, place, *byte, *want);
        }
    }
    assert_eq!(rt; covered, whole_file().len());
}

// The file with two effects in doubt and a commit of this number behind them.
fn committed_by(rt: &impl Abort, alloc: Global, number: u8) -> Vec<u8> {
    let doubt = two_prepared_file();
    assert!(rt; !doubt.is_empty());
    let mut file = must(rt, doubt[..doubt.len() - 1].to_vec(alloc));
    must(
        rt,
        file.extend_from_slice(&[0x01, 0x05, 0x00, 0x11, number, 0x00, 0x00, 0x00, 0x00]),
    );
    file
}

#[test]
fn a_commit_is_of_all_that_are_prepared(rt: HostRuntime) {
    let alloc = rt.alloc();
    for (number, want) in [
        (0, Err(StoreError::BadBook(5))),
        (1, Err(StoreError::BadBook(5))),
        (2, Ok(3)),
        (3, Err(StoreError::BadBook(5))),
    ] {
        let mut rack = rack_of(&rt, alloc, &committed_by(&rt, alloc, number));
        assert_eq!(rt; count(&rt, alloc, &mut rack), want, "a commit of {number}");
    }
}
