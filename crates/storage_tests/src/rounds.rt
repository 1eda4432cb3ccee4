// What a rack asks of its folder: each call once, and none again after a failure.
use crate::calls::{Call, Row, look};
use file_rack::{FileRack, MemoryFolder};
use process_disk::{MemoryRack, Rack};
use process_flow::Failed;
use std::alloc::Global;
use std::process::Abort;
use std::test::Fail;

struct Round {
    name: &'static str,
    // how many bytes go in a transfer, and which calls of the rack below fail
    most: &'static [u8],
    fails: &'static [u32],
    // each call, and how many calls the rack below has had by then, where that is the same for each transfer's size
    calls: &'static [(Call<'static>, Option<u64>)],
    // the syncs that were finished then
    syncs: [u64; 10],
}

const ROUNDS: [Round; 3] = [
    Round {
        name: "the first sync is of all nine files",
        most: &[1, 2, 5, 200],
        fails: &[],
        calls: &[(Call::Sync(Ok(())), None)],
        syncs: [1; 10],
    },
    Round {
        name: "the next is of what was written",
        most: &[1, 2, 5, 200],
        fails: &[],
        calls: &[
            (Call::Sync(Ok(())), None),
            (Call::Write(6, 0, b"abcdef", Ok(())), None),
            (Call::Read(&[6], 2, Ok(4), b"cdef\0\0\0\0"), None),
            (Call::Sync(Ok(())), None),
            (Call::Sync(Ok(())), None),
            (Call::Faults(0), None),
        ],
        syncs: [1, 1, 1, 1, 1, 1, 2, 1, 1, 2],
    },
    Round {
        name: "a failed call is not made again",
        most: &[1],
        fails: &[1, 5],
        calls: &[
            (Call::Write(0, 0, b"abc", Err(Failed)), Some(2)),
            (Call::Write(0, 0, b"abc", Ok(())), Some(5)),
            (Call::Sync(Err(Failed)), Some(6)),
            (Call::Sync(Err(Failed)), Some(6)),
            (Call::Write(0, 0, b"abc", Err(Failed)), Some(6)),
            (Call::Len(&[0], Ok(3)), Some(7)),
            (Call::Faults(4), Some(7)),
        ],
        syncs: [0, 0, 0, 0, 0, 0, 0, 0, 0, 1],
    },
];

fn make(rt: &impl Abort, rack: &mut FileRack<MemoryFolder>, call: Call<'_>, row: Row<'_>) {
    match call {
        Call::Write(file, at, bytes, answer) => {
            let number = row.row;
            assert!(rt; file < 9 && at == 0);
            assert_eq!(rt; rack.write_at(file, 0, bytes), answer, "row {number}");
        }
        other => look(rt, rack, other, row),
    }
}

fn play(rt: &impl Abort, alloc: Global, round: &Round, most: u8) -> Result<(), Fail> {
    let below = MemoryRack::new(alloc, round.fails.to_vec(alloc)?)?;
    let mut rack = FileRack::over(MemoryFolder::new(below, most), true);
    for (row, (call, count)) in round.calls.iter().enumerate() {
        make(
            rt,
            &mut rack,
            *call,
            Row {
                table: round.name,
                row,
            },
        );
        if let Some(count) = count {
            assert_eq!(rt; rack.folder.rack.calls(), *count, "row {row}");
        }
    }
    assert_eq!(rt; rack.folder.syncs, round.syncs);
    Ok(())
}

#[test]
fn each_call_of_a_folder_is_made_once(rt: HostRuntime) -> Result<(), Fail> {
    for round in &ROUNDS {
        for most in round.most {
            play(&rt, rt.alloc(), round, *most)?;
        }
    }
    Ok(())
}
