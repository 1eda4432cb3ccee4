// Racks over real files, in a folder of its own for each story.
use crate::calls::{Call, Row, look};
use file_rack::{FileRack, SystemFolder};
use process_disk::Rack;
use process_flow::Failed;
use std::fs::File;
use std::os::unix::fs::symlink;
use std::process::Abort;
use std::rt::{Env, Files};
use std::test::Fail;
use std::{env, fs, io};

#[derive(Clone, Copy, Drop)]
enum Act {
    /// A rack is made: one that may write, or one that only reads.
    Open(bool),
    Close,
    Call(Call<'static>),
    /// Whether each of these files is there.
    Exist(&'static [u8], bool),
    /// A folder of this name is made, a link from the second name to the first, a file taken away.
    Folder(&'static str),
    Link(&'static str, &'static str),
    Remove(&'static str),
}

struct Story {
    name: &'static str,
    // what is done, with the number of the rack that does it
    acts: &'static [(usize, Act)],
}

const NAMES: [&str; 9] = [
    "tps.0", "tps.1", "tps.2", "tps.3", "tps.4", "tps.5", "tps.6", "tps.7", "tps.8",
];

const ALL: &[u8] = &[0, 1, 2, 3, 4, 5, 6, 7, 8];

const STORIES: [Story; 6] = [
    Story {
        name: "real files hold what was written for the next rack too",
        acts: &[
            (0, Act::Open(true)),
            (0, Act::Call(Call::Len(&[8], Ok(0)))),
            (0, Act::Call(Call::Write(8, 0, b"gate", Ok(())))),
            (0, Act::Call(Call::Write(8, 2, b"cdef", Ok(())))),
            (0, Act::Call(Call::Sync(Ok(())))),
            (0, Act::Call(Call::Len(&[8], Ok(6)))),
            (0, Act::Call(Call::Read(&[8], 1, Ok(5), b"acdef\0\0\0"))),
            (
                0,
                Act::Call(Call::Read(&[0], 0, Ok(0), b"\0\0\0\0\0\0\0\0")),
            ),
            (0, Act::Call(Call::Write(0, 0, b"0.", Ok(())))),
            (0, Act::Call(Call::Write(1, 0, b"1.", Ok(())))),
            (0, Act::Call(Call::Write(2, 0, b"2.", Ok(())))),
            (0, Act::Call(Call::Write(3, 0, b"3.", Ok(())))),
            (0, Act::Call(Call::Write(4, 0, b"4.", Ok(())))),
            (0, Act::Call(Call::Write(5, 0, b"5.", Ok(())))),
            (0, Act::Call(Call::Write(6, 0, b"6.", Ok(())))),
            (0, Act::Call(Call::Write(7, 0, b"7.", Ok(())))),
            (0, Act::Call(Call::Write(8, 0, b"8.", Ok(())))),
            (0, Act::Call(Call::Sync(Ok(())))),
            (0, Act::Call(Call::Faults(0))),
            (1, Act::Open(false)),
            (1, Act::Call(Call::Read(&[0], 0, Ok(2), b"0."))),
            (1, Act::Call(Call::Read(&[1], 0, Ok(2), b"1."))),
            (1, Act::Call(Call::Read(&[2], 0, Ok(2), b"2."))),
            (1, Act::Call(Call::Read(&[3], 0, Ok(2), b"3."))),
            (1, Act::Call(Call::Read(&[4], 0, Ok(2), b"4."))),
            (1, Act::Call(Call::Read(&[5], 0, Ok(2), b"5."))),
            (1, Act::Call(Call::Read(&[6], 0, Ok(2), b"6."))),
            (1, Act::Call(Call::Read(&[7], 0, Ok(2), b"7."))),
            (1, Act::Call(Call::Read(&[8], 0, Ok(2), b"8."))),
            (1, Act::Call(Call::Len(&[0, 1, 2, 3, 4, 5, 6, 7], Ok(2)))),
            (1, Act::Call(Call::Len(&[8], Ok(6)))),
        ],
    },
    Story {
        name: "a look makes no file",
        acts: &[
            (0, Act::Open(true)),
            (1, Act::Open(false)),
            (0, Act::Call(Call::Len(ALL, Ok(0)))),
            (0, Act::Call(Call::Read(ALL, 0, Ok(0), b"\0\0\0\0"))),
            (1, Act::Call(Call::Len(ALL, Ok(0)))),
            (0, Act::Call(Call::Sync(Ok(())))),
            (1, Act::Call(Call::Sync(Ok(())))),
            (1, Act::Call(Call::Write(0, 0, b"x", Err(Failed)))),
            (0, Act::Exist(ALL, false)),
            (0, Act::Call(Call::Write(0, 0, b"x", Ok(())))),
            (0, Act::Exist(&[0], true)),
            (0, Act::Exist(&[1], false)),
            (1, Act::Call(Call::Read(&[0], 0, Ok(1), b"x\0\0\0"))),
        ],
    },
    Story {
        name: "a folder has one writer",
        acts: &[
            (0, Act::Open(true)),
            (0, Act::Call(Call::Write(0, 0, b"one", Ok(())))),
            (1, Act::Open(true)),
            (1, Act::Call(Call::Len(&[0], Err(Failed)))),
            (1, Act::Call(Call::Read(&[0], 0, Err(Failed), b"\0\0\0\0"))),
            (1, Act::Call(Call::Write(0, 0, b"two", Err(Failed)))),
            (1, Act::Call(Call::Write(5, 0, b"two", Err(Failed)))),
            (1, Act::Call(Call::Sync(Err(Failed)))),
            (1, Act::Exist(&[5], false)),
            (2, Act::Open(false)),
            (2, Act::Call(Call::Read(&[0], 0, Ok(3), b"one\0"))),
            // The lock is given up with the first rack.
            (0, Act::Close),
            (0, Act::Open(true)),
            (0, Act::Call(Call::Len(&[0], Ok(3)))),
            (0, Act::Call(Call::Write(0, 0, b"two", Ok(())))),
        ],
    },
    Story {
        name: "a file made by another since the look is not written over",
        acts: &[
            (0, Act::Open(true)),
            (0, Act::Call(Call::Len(&[0], Ok(0)))),
            (1, Act::Open(true)),
            (1, Act::Call(Call::Len(&[0], Ok(0)))),
            (1, Act::Call(Call::Write(0, 0, b"one", Ok(())))),
            (1, Act::Close),
            (0, Act::Call(Call::Write(0, 0, b"two", Err(Failed)))),
            (0, Act::Call(Call::Read(&[0], 0, Ok(3), b"one\0"))),
        ],
    },
    Story {
        name: "a failed call of the system is told",
        acts: &[
            (0, Act::Folder("folder")),
            (0, Act::Link("tps.4", "tps.4")),
            (0, Act::Link("folder", "tps.5")),
            (0, Act::Link("/dev/full", "tps.7")),
            (0, Act::Open(true)),
            (0, Act::Call(Call::Len(&[4], Err(Failed)))),
            (0, Act::Call(Call::Read(&[5], 0, Err(Failed), b"\0\0\0\0"))),
            (0, Act::Call(Call::Write(5, 0, b"x", Err(Failed)))),
            (0, Act::Call(Call::Write(7, 0, b"x", Err(Failed)))),
            (0, Act::Call(Call::Faults(4))),
        ],
    },
    Story {
        name: "after a failed sync a rack is broken",
        acts: &[
            (0, Act::Open(true)),
            (0, Act::Call(Call::Write(0, 0, b"one", Ok(())))),
            (0, Act::Call(Call::Sync(Ok(())))),
            (0, Act::Close),
            // The last file can't be synced.
            (0, Act::Link("/dev/full", "tps.8")),
            (0, Act::Open(true)),
            (0, Act::Call(Call::Sync(Err(Failed)))),
            (0, Act::Remove("tps.8")),
            (0, Act::Call(Call::Sync(Err(Failed)))),
            (0, Act::Call(Call::Write(0, 0, b"two", Err(Failed)))),
            (0, Act::Call(Call::Read(&[0], 0, Ok(3), b"one\0"))),
            (0, Act::Close),
            (0, Act::Open(true)),
            (0, Act::Call(Call::Sync(Ok(())))),
        ],
    },
];

type Racks<'a, R> = [Option<FileRack<SystemFolder<&'a R>>>; 3];

// Makes a call with a rack.
fn make<'a, R: Files<File = File> + Abort>(
    rt: &'a R,
    rack: &mut FileRack<SystemFolder<&'a R>>,
    call: Call<'_>,
    row: Row<'_>,
) {
    let Row { table, row: number } = row;
    match call {
        Call::Write(file, at, bytes, answer) => {
            assert!(rt; file < 9);
            assert_eq!(rt;
                rack.write_at(file, at, bytes),
                answer,
                "{table}, row {number}"
            );
        }
        other => look(rt, rack, other, row),
    }
}

fn exist<R: Files<File = File> + Alloc + Abort>(
    rt: &R,
    files: &[u8],
    wanted: bool,
    row: Row<'_>,
) -> io::Result<()> {
    let Row { table, row: number } = row;
    for file in files {
        assert!(rt; *file < 9);
        let there = fs::exists(rt, NAMES[usize::from(*file)])?;
        assert_eq!(rt; there, wanted, "{table}, row {number}, file {file}");
    }
    Ok(())
}

// Does an act with the rack of a number.
fn perform<'a, R: Files<File = File> + Alloc + Abort>(
    rt: &'a R,
    rack: &mut Option<FileRack<SystemFolder<&'a R>>>,
    act: Act,
    row: Row<'_>,
) -> io::Result<()> {
    match act {
        Act::Open(true) => *rack = Some(FileRack::new(rt)),
        Act::Open(false) => *rack = Some(FileRack::reading(rt)),
        Act::Close => *rack = None,
        Act::Call(call) => match rack {
            Some(rack) => make(rt, rack, call, row),
            None => assert!(rt; false, "no such rack"),
        },
        Act::Exist(files, wanted) => return exist(rt, files, wanted, row),
        Act::Folder(name) => return fs::create_dir(rt, name),
        Act::Link(to, name) => return symlink(rt, to, name),
        Act::Remove(name) => return fs::remove_file(rt, name),
    }
    Ok(())
}

// Does what a story tells.
fn play<R: Files<File = File> + Alloc + Abort>(rt: &R, story: &Story) -> io::Result<()> {
    let table = story.name;
    let mut racks: Racks<'_, R> = [None, None, None];
    for (row, (number, act)) in story.acts.iter().enumerate() {
        match racks.get_mut(*number) {
            Some(rack) => perform(rt, rack, *act, Row { table, row })?,
            None => assert!(rt; false, "no such rack"),
        }
    }
    Ok(())
}

// Plays a story in an empty folder, which is taken away again.
fn play_alone<R: Files<File = File> + Env + Alloc + Abort>(
    rt: &R,
    story: &Story,
) -> io::Result<()> {
    let _absent = fs::remove_dir_all(rt, story.name);
    fs::create_dir(rt, story.name)?;
    env::set_current_dir(rt, story.name)?;
    play(rt, story)?;
    env::set_current_dir(rt, "..")?;
    fs::remove_dir_all(rt, story.name)
}

#[test]
fn racks_over_real_files_do_as_told(rt: HostRuntime) -> Result<(), Fail> {
    for story in &STORIES {
        play_alone(&rt, story)?;
    }
    Ok(())
}
