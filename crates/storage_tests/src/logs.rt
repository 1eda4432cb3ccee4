// What no clause of `gate_log` says: the bytes of a file written by hand, files that are cut or damaged, and stops within an append
// or a retract.
use gate_log::{Body, DiskFault, Log, LogError};
use process_disk::{MemoryRack, Rack};
use std::alloc::Global;
use std::process::Abort;
use std::test::Fail;

// File 3: a header of version 1, three records behind open gates, and a closed gate.
const FILE: [u8; 23] = [
    0x74, 0x70, 0x73, 0x6c, 0x01, 0x03, 0x00, 0x00, // header
    0x01, 0x02, 0x00, b'h', b'i', // record 1
    0xff, 0x00, 0x00, // record 2, without a byte
    0x01, 0x03, 0x00, b'a', b'b', b'c', // record 3
    0x00, // closed gate
];

// A rack whose file 3 has these bytes.
fn rack_of(rt: &impl Abort, alloc: Global, bytes: &[u8]) -> MemoryRack {
    let Ok(mut rack) = MemoryRack::new(alloc, Vec::new(alloc)) else {
        panic!(rt; "no memory");
    };
    assert_eq!(rt; rack.write_at(3, 0, bytes), Ok(()));
    rack
}

// How many bodies the log of file 3 has, or why it is none.
fn count(alloc: Global, rack: &mut MemoryRack) -> Result<u32, LogError> {
    let (log, bodies) = Log::open(alloc, rack, 3)?;
    Ok(log.count())
}

const BODIES: [&[u8]; 3] = [b"hi", b"", b"abc"];

// A fourth body is appended to the log of the file written by hand.
fn append_to(rt: &impl Abort, alloc: Global, rack: &mut MemoryRack) {
    let Ok((mut log, bodies)) = Log::open(alloc, rack, 3) else {
        panic!(rt; "no log");
    };
    assert_eq!(rt; bodies.len(), BODIES.len());
    for (body, want) in bodies.iter().zip(&BODIES) {
        assert_eq!(rt; body.bytes(), *want);
    }
    assert_eq!(rt; log.append(rack, b"yes"), Ok(()));
    assert_eq!(rt; log.count(), 4);
}

#[test]
fn a_file_written_by_hand_is_opened_and_appended_to(rt: HostRuntime) -> Result<(), Fail> {
    let alloc = rt.alloc();
    let mut file = FILE.to_vec(alloc)?;
    file.extend_from_slice(b"free")?;
    let mut rack = rack_of(&rt, alloc, &file);
    append_to(&rt, alloc, &mut rack);
    let mut buf = [0; 40];
    assert_eq!(rt; rack.read(3, 0, &mut buf), Ok(29));
    assert_eq!(rt; &buf[..22], &FILE[..22]);
    assert_eq!(rt; &buf[22..29], b"\x01\x03\x00yes\x00".as_slice());
    Ok(())
}

// The file cut after so many bytes, from one number on and below another.
const CUTS: [(usize, usize, Result<u32, LogError>); 6] = [
    (0, 8, Err(LogError::BadHeader)),
    (8, 13, Err(LogError::BadRecord(1))),
    (13, 16, Err(LogError::BadRecord(2))),
    (16, 22, Err(LogError::BadRecord(3))),
    (22, 23, Err(LogError::BadRecord(4))),
    (23, 24, Ok(3)),
];

// The file with another byte at a place.
const DAMAGES: [(usize, u8, Result<u32, LogError>); 15] = [
    (0, 0x75, Err(LogError::BadHeader)),
    (4, 0x00, Err(LogError::BadHeader)),
    (4, 0x02, Ok(3)),
    (4, 0x03, Err(LogError::BadHeader)),
    (5, 0x04, Err(LogError::BadHeader)),
    (6, 0x01, Err(LogError::BadHeader)),
    (7, 0x01, Err(LogError::BadHeader)),
    (8, 0x00, Ok(0)),
    (8, 0x02, Ok(3)),
    (9, 0xff, Err(LogError::BadRecord(1))),
    (10, 0x01, Err(LogError::BadRecord(1))),
    (13, 0x00, Ok(1)),
    (17, 0x02, Err(LogError::BadRecord(4))),
    (17, 0x04, Err(LogError::BadRecord(4))),
    (22, 0x01, Err(LogError::BadRecord(4))),
];

// A file of these bytes is a log of so many bodies, or none.
fn expect_count(
    rt: &impl Abort,
    alloc: Global,
    bytes: &[u8],
    want: Result<u32, LogError>,
    place: usize,
) {
    let mut rack = rack_of(rt, alloc, bytes);
    assert_eq!(rt; count(alloc, &mut rack), want, "cut or damaged at {place}");
}

// The file with another byte at a place.
fn damaged(rt: &impl Abort, alloc: Global, place: usize, byte: u8) -> Vec<u8> {
    let Ok(mut file) = FILE.to_vec(alloc) else {
        panic!(rt; "no memory");
    };
    assert!(rt; place < file.len());
    file[place] = byte;
    file
}

#[test]
fn a_cut_or_damaged_file_is_refused_at_its_first_fault(rt: HostRuntime) {
    let alloc = rt.alloc();
    for (from, to, want) in &CUTS {
        for len in *from..*to {
            assert!(rt; len <= FILE.len());
            expect_count(&rt, alloc, &FILE[..len], *want, len);
        }
    }
    for (at, byte, want) in &DAMAGES {
        let file = damaged(&rt, alloc, *at, *byte);
        expect_count(&rt, alloc, &file, *want, *at);
    }
}

#[test]
fn a_log_has_at_most_65536_records(rt: HostRuntime) -> Result<(), Fail> {
    let alloc = rt.alloc();
    for (records, want) in [
        (65_536, Ok(65_536)),
        (65_537, Err(LogError::BadRecord(65_537))),
    ] {
        let mut file = FILE[..8].to_vec(alloc)?;
        for _ in 0..records {
            file.extend_from_slice(b"\x01\x00\x00")?;
        }
        file.push(0)?;
        expect_count(&rt, alloc, &file, want, records);
    }
    Ok(())
}

// A stop within a call, and how many bodies it leaves: `create` makes calls 0 and 1, the appends 2 to 5 and 6 to 9.
const STOPS: [(u32, u32, u8, u32); 16] = [
    (2, 0, 0xff, 0),
    (2, 3, 0x01, 0),
    (3, 9, 0xff, 0),
    (4, 0, 0x00, 0),
    (4, 0, 0x01, 1),
    (4, 1, 0x00, 1),
    (5, 0, 0x00, 0),
    (5, 1, 0x00, 1),
    (6, 0, 0xff, 1),
    (6, 4, 0x01, 1),
    (7, 9, 0xff, 1),
    (8, 0, 0x00, 1),
    (8, 0, 0xff, 2),
    (8, 1, 0x00, 2),
    (9, 0, 0x00, 1),
    (9, 1, 0x00, 2),
];

// A stop within the two calls of a `retract`, calls 10 and 11, and how many bodies it leaves.
const RETRACTS: [(u32, u32, u8, u32); 5] = [
    (10, 0, 0x00, 1),
    (10, 0, 0x07, 2),
    (10, 1, 0x07, 1),
    (11, 0, 0xff, 2),
    (11, 1, 0xff, 1),
];

// A rack whose file 3 is the log of two bodies, or of the first after the second is taken back.
fn two_bodies(rt: &impl Abort, alloc: Global, retract: bool) -> Result<MemoryRack, Fail> {
    let mut rack = MemoryRack::new(alloc, Vec::new(alloc))?;
    let mut log = Log::create(alloc, &mut rack, 3)?;
    log.append(&mut rack, b"one")?;
    log.append(&mut rack, b"three")?;
    if retract {
        log.retract(&mut rack, 1, 8)?;
        assert_eq!(rt; log.count(), 1);
    }
    Ok(rack)
}

// Stops a rack so, and counts the bodies that are left.
fn stop(rt: &impl Abort, alloc: Global, rack: &MemoryRack, stops: &[(u32, u32, u8, u32)]) {
    for (call, keep, fill, want) in stops {
        assert!(rt; u64::from(*call) < rack.calls());
        let Ok(mut left) = rack.stopped(alloc, *call, *keep, *fill) else {
            panic!(rt; "no memory");
        };
        assert_eq!(rt; count(alloc, &mut left), Ok(*want), "call {call}");
    }
}

#[test]
fn a_stop_within_a_call_leaves_the_list_before_or_after_it(rt: HostRuntime) -> Result<(), Fail> {
    let alloc = rt.alloc();
    let rack = two_bodies(&rt, alloc, false)?;
    assert_eq!(rt; rack.calls(), 10);
    stop(&rt, alloc, &rack, &STOPS);
    let rack = two_bodies(&rt, alloc, true)?;
    assert_eq!(rt; rack.calls(), 12);
    stop(&rt, alloc, &rack, &RETRACTS);
    Ok(())
}

// A stop within the four calls that append three staged bodies, calls 2 to 5, and how many bodies it leaves.
const STAGED: [(u32, u32, u8, u32); 14] = [
    (2, 0, 0x00, 0),
    (2, 0, 0xff, 0),
    (2, 5, 0x01, 0),
    (2, 18, 0x01, 0),
    (3, 0, 0x01, 0),
    (3, 9, 0xff, 0),
    (3, 18, 0x01, 0),
    (4, 0, 0x00, 0),
    (4, 0, 0x01, 3),
    (4, 1, 0x00, 3),
    (5, 0, 0x00, 0),
    (5, 0, 0xff, 3),
    (5, 1, 0x00, 3),
    (5, 1, 0xff, 3),
];

#[test]
fn a_stop_leaves_all_staged_bodies_or_none(rt: HostRuntime) -> Result<(), Fail> {
    let alloc = rt.alloc();
    let mut rack = MemoryRack::new(alloc, Vec::new(alloc))?;
    let mut log = Log::create(alloc, &mut rack, 3)?;
    log.stage(b"hi");
    log.stage(b"");
    log.stage(b"abc");
    log.append_staged(&mut rack)?;
    assert_eq!(rt; rack.calls(), 6);
    assert_eq!(rt; log.count(), 3);
    stop(&rt, alloc, &rack, &STAGED);
    let mut buf = [0; 40];
    assert_eq!(rt; rack.read(3, 0, &mut buf), Ok(23));
    assert_eq!(rt; &buf[..8], b"tpsl\x02\x03\x00\x00".as_slice());
    assert_eq!(rt; &buf[8..13], &FILE[8..13]);
    assert_eq!(rt; &buf[13..16], b"\x01\x00\x00".as_slice());
    assert_eq!(rt; &buf[16..23], &FILE[16..]);
    Ok(())
}

// A stop within the two calls of a `retract` of two bodies that were staged together, calls 10 and 11, and how many bodies it leaves.
const RETRACTS_OF_TWO: [(u32, u32, u8, u32); 6] = [
    (10, 0, 0x00, 1),
    (10, 0, 0x07, 3),
    (10, 1, 0x07, 1),
    (11, 0, 0xff, 3),
    (11, 0, 0x00, 1),
    (11, 1, 0xff, 1),
];

#[test]
fn a_stop_within_a_retract_leaves_both_staged_bodies_or_none(rt: HostRuntime) -> Result<(), Fail> {
    let alloc = rt.alloc();
    let mut rack = MemoryRack::new(alloc, Vec::new(alloc))?;
    let mut log = Log::create(alloc, &mut rack, 3)?;
    log.append(&mut rack, b"one")?;
    log.stage(b"two");
    log.stage(b"three");
    log.append_staged(&mut rack)?;
    assert_eq!(rt; log.count(), 3);
    log.retract(&mut rack, 2, 14)?;
    assert_eq!(rt; log.count(), 1);
    assert_eq!(rt; rack.calls(), 12);
    stop(&rt, alloc, &rack, &RETRACTS_OF_TWO);
    Ok(())
}

#[test]
fn a_body_is_appended_in_the_place_of_one_taken_back(rt: HostRuntime) -> Result<(), Fail> {
    let alloc = rt.alloc();
    let mut rack = two_bodies(&rt, alloc, true)?;
    let (mut again, one) = Log::open(alloc, &mut rack, 3)?;
    assert_eq!(rt; again.count(), 1);
    again.append(&mut rack, b"other")?;
    let (last, bodies) = Log::open(alloc, &mut rack, 3)?;
    assert_eq!(rt; bodies.len(), 2);
    assert_eq!(rt; bodies[1].bytes(), b"other".as_slice());
    assert_eq!(rt; last.count(), 2);
    Ok(())
}

#[test]
fn a_fault_of_the_rack_is_told(rt: HostRuntime) -> Result<(), Fail> {
    let alloc = rt.alloc();
    let mut rack = MemoryRack::new(alloc, vec![in alloc; 1, 5]?)?;
    assert_eq!(rt;
        Log::create(alloc, &mut rack, 3).err(),
        Some(LogError::DiskFault)
    );
    let mut log = Log::create(alloc, &mut rack, 4)?;
    let body = Body::new(b"one".to_vec(alloc)?);
    assert_eq!(rt; log.append(&mut rack, body.bytes()), Err(DiskFault));
    let (again, bodies) = Log::open(alloc, &mut rack, 4)?;
    assert_eq!(rt; again.count(), 0);
    Ok(())
}
