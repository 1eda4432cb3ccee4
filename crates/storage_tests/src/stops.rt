// What no clause of `process_disk` says: stops of a rack in memory, against tables made by hand.
use process_disk::{MemoryRack, Rack};
use std::alloc::Global;
use std::process::Abort;

#[derive(Drop)]
enum Call {
    // these bytes at the front of a file
    Write(u8, &'static [u8]),
    // these bytes at a place of a file, behind a call for its length, which is no less; whether it is written
    WriteAt(u8, u64, &'static [u8], bool),
    // whether it is finished
    Sync(bool),
    // the length of file 0
    Len(u64),
    // file 0 from a place on: how many bytes, and the buffer then
    Read(u64, usize, [u8; 8]),
}

// Twelve calls, of which a write (7) and a sync (9) fail.
const CALLS: [Call; 10] = [
    Call::Write(0, b"abc"),
    Call::Write(1, b"xy"),
    Call::Sync(true),
    Call::WriteAt(0, 2, b"CDE", true),
    Call::Len(5),
    Call::WriteAt(1, 1, b"Z", false),
    Call::Read(1, 4, *b"bCDE\0\0\0\0"),
    Call::Sync(false),
    Call::Write(8, b"w"),
    Call::Sync(true),
];

// Writes no further than from the end of what is there.
fn write(rt: &impl Abort, rack: &mut MemoryRack, file: u8, at: u64, bytes: &[u8], done: bool) {
    assert!(rt; file < 9);
    let Ok(len) = rack.len(file) else {
        panic!(rt; "no length of file {file}");
    };
    assert!(rt; at <= len);
    assert_eq!(rt; rack.write_at(file, at, bytes).is_ok(), done);
}

fn make(rt: &impl Abort, rack: &mut MemoryRack, call: &Call) {
    match call {
        Call::Write(file, bytes) => {
            assert!(rt; *file < 9);
            assert_eq!(rt; rack.write_at(*file, 0, bytes), Ok(()));
        }
        Call::WriteAt(file, at, bytes, done) => write(rt, rack, *file, *at, bytes, *done),
        Call::Sync(done) => assert_eq!(rt; rack.sync().is_ok(), *done),
        Call::Len(len) => assert_eq!(rt; rack.len(0), Ok(*len)),
        Call::Read(at, count, bytes) => {
            let mut buf = [0; 8];
            assert_eq!(rt; rack.read(0, *at, &mut buf), Ok(*count));
            assert_eq!(rt; buf, *bytes);
        }
    }
}

fn run(rt: &impl Abort, alloc: Global) -> MemoryRack {
    let Ok(fails) = vec![in alloc; 7, 9] else {
        panic!(rt; "no memory");
    };
    let Ok(mut rack) = MemoryRack::new(alloc, fails) else {
        panic!(rt; "no memory");
    };
    for call in &CALLS {
        make(rt, &mut rack, call);
    }
    assert_eq!(rt; rack.calls(), 12);
    rack
}

struct Stop {
    call: u32,
    keep: u32,
    fill: u8,
    // files 0, 1 and 8
    left: [&'static [u8]; 3],
}

const STOPS: [Stop; 39] = [
    Stop {
        call: 0,
        keep: 0,
        fill: 0x00,
        left: [b"\0\0\0", b"", b""],
    },
    Stop {
        call: 0,
        keep: 1,
        fill: 0x07,
        left: [b"a\x07\x07", b"", b""],
    },
    Stop {
        call: 0,
        keep: 4,
        fill: 0xff,
        left: [b"abc", b"", b""],
    },
    Stop {
        call: 1,
        keep: 0,
        fill: 0x00,
        left: [b"\0\0\0", b"\0\0", b""],
    },
    Stop {
        call: 1,
        keep: 1,
        fill: 0x07,
        left: [b"a\x07\x07", b"\x07\x07", b""],
    },
    Stop {
        call: 1,
        keep: 4,
        fill: 0xff,
        left: [b"abc", b"x\xff", b""],
    },
    Stop {
        call: 2,
        keep: 0,
        fill: 0x00,
        left: [b"\0\0\0", b"\0\0", b""],
    },
    Stop {
        call: 2,
        keep: 1,
        fill: 0x07,
        left: [b"a\x07\x07", b"\x07\x07", b""],
    },
    Stop {
        call: 2,
        keep: 4,
        fill: 0xff,
        left: [b"abc", b"x\xff", b""],
    },
    Stop {
        call: 3,
        keep: 0,
        fill: 0x00,
        left: [b"abc", b"xy", b""],
    },
    Stop {
        call: 3,
        keep: 1,
        fill: 0x07,
        left: [b"abc", b"xy", b""],
    },
    Stop {
        call: 3,
        keep: 4,
        fill: 0xff,
        left: [b"abc", b"xy", b""],
    },
    Stop {
        call: 4,
        keep: 0,
        fill: 0x00,
        left: [b"ab\0\0\0", b"xy", b""],
    },
    Stop {
        call: 4,
        keep: 1,
        fill: 0x07,
        left: [b"abC\x07\x07", b"xy", b""],
    },
    Stop {
        call: 4,
        keep: 4,
        fill: 0xff,
        left: [b"abCDE", b"xy", b""],
    },
    Stop {
        call: 5,
        keep: 0,
        fill: 0x00,
        left: [b"ab\0\0\0", b"xy", b""],
    },
    Stop {
        call: 5,
        keep: 1,
        fill: 0x07,
        left: [b"abC\x07\x07", b"xy", b""],
    },
    Stop {
        call: 5,
        keep: 4,
        fill: 0xff,
        left: [b"abCDE", b"xy", b""],
    },
    Stop {
        call: 6,
        keep: 0,
        fill: 0x00,
        left: [b"ab\0\0\0", b"xy", b""],
    },
    Stop {
        call: 6,
        keep: 1,
        fill: 0x07,
        left: [b"abC\x07\x07", b"xy", b""],
    },
    Stop {
        call: 6,
        keep: 4,
        fill: 0xff,
        left: [b"abCDE", b"xy", b""],
    },
    Stop {
        call: 7,
        keep: 0,
        fill: 0x00,
        left: [b"ab\0\0\0", b"x\0", b""],
    },
    Stop {
        call: 7,
        keep: 1,
        fill: 0x07,
        left: [b"abC\x07\x07", b"x\x07", b""],
    },
    Stop {
        call: 7,
        keep: 4,
        fill: 0xff,
        left: [b"abCDE", b"xZ", b""],
    },
    Stop {
        call: 8,
        keep: 0,
        fill: 0x00,
        left: [b"ab\0\0\0", b"x\0", b""],
    },
    Stop {
        call: 8,
        keep: 1,
        fill: 0x07,
        left: [b"abC\x07\x07", b"x\x07", b""],
    },
    Stop {
        call: 8,
        keep: 4,
        fill: 0xff,
        left: [b"abCDE", b"xZ", b""],
    },
    Stop {
        call: 9,
        keep: 0,
        fill: 0x00,
        left: [b"ab\0\0\0", b"x\0", b""],
    },
    Stop {
        call: 9,
        keep: 1,
        fill: 0x07,
        left: [b"abC\x07\x07", b"x\x07", b""],
    },
    Stop {
        call: 9,
        keep: 4,
        fill: 0xff,
        left: [b"abCDE", b"xZ", b""],
    },
    Stop {
        call: 10,
        keep: 0,
        fill: 0x00,
        left: [b"ab\0\0\0", b"x\0", b"\0"],
    },
    Stop {
        call: 10,
        keep: 1,
        fill: 0x07,
        left: [b"abC\x07\x07", b"x\x07", b"\x07"],
    },
    Stop {
        call: 10,
        keep: 4,
        fill: 0xff,
        left: [b"abCDE", b"xZ", b"\xff"],
    },
    Stop {
        call: 11,
        keep: 0,
        fill: 0x00,
        left: [b"ab\0\0\0", b"x\0", b"\0"],
    },
    Stop {
        call: 11,
        keep: 1,
        fill: 0x07,
        left: [b"abC\x07\x07", b"x\x07", b"\x07"],
    },
    Stop {
        call: 11,
        keep: 4,
        fill: 0xff,
        left: [b"abCDE", b"xZ", b"\xff"],
    },
    Stop {
        call: 4,
        keep: 2,
        fill: 0xff,
        left: [b"abCD\xff", b"xy", b""],
    },
    Stop {
        call: 7,
        keep: 3,
        fill: 0x07,
        left: [b"abCDE", b"x\x07", b""],
    },
    Stop {
        call: 11,
        keep: 5,
        fill: 0x00,
        left: [b"abCDE", b"xZ", b"w"],
    },
];

// What is wanted of a file after a stop.
fn wanted(stop: &Stop, file: u8) -> &'static [u8] {
    match file {
        0 => stop.left[0],
        1 => stop.left[1],
        8 => stop.left[2],
        _ => b"",
    }
}

// A file has these bytes, fewer than 8.
fn expect_file(rt: &impl Abort, rack: &mut MemoryRack, file: u8, want: &[u8], stop: &Stop) {
    let Stop { call, keep, .. } = stop;
    assert!(rt; file < 9);
    let mut buf = [0; 8];
    let count = rack.read(file, 0, &mut buf);
    assert_eq!(rt;
        count,
        Ok(want.len()),
        "file {file}, call {call}, keep {keep}"
    );
    let (found, _) = buf.split_at(want.len().min(8));
    assert_eq!(rt; found, want, "file {file}, call {call}, keep {keep}");
}

// The files are those of the row.
fn expect_files(rt: &impl Abort, rack: &mut MemoryRack, stop: &Stop) {
    for file in 0..9_u8 {
        expect_file(rt, rack, file, wanted(stop, file), stop);
    }
}

// A stop leaves what the row says.
fn expect_stop(rt: &impl Abort, alloc: Global, rack: &MemoryRack, stop: &Stop) {
    assert!(rt; u64::from(stop.call) < rack.calls());
    let Ok(mut left) = rack.stopped(alloc, stop.call, stop.keep, stop.fill) else {
        panic!(rt; "no memory");
    };
    assert_eq!(rt; left.calls(), 0);
    assert_eq!(rt; left.starved(), 0);
    expect_files(rt, &mut left, stop);
}

#[test]
fn a_stop_leaves_what_the_table_says(rt: HostRuntime) {
    let alloc = rt.alloc();
    let rack = run(&rt, alloc);
    for stop in &STOPS {
        expect_stop(&rt, alloc, &rack, stop);
    }
}
