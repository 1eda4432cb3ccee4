// Calls of a rack with the answers that are wanted, as rows of a table.
use file_rack::{FileRack, Folder};
use process_disk::Rack;
use process_flow::Failed;
use std::process::Abort;

/// A row of a table.
#[derive(Clone, Copy, Drop)]
pub struct Row<'a> {
    pub table: &'a str,
    pub row: usize,
}

#[derive(Clone, Copy, Drop)]
pub enum Call<'a> {
    /// The length of each of these files.
    Len(&'a [u8], Result<u64, Failed>),
    /// Each of these files from a place on: how many bytes, and the buffer then, which had zeros before.
    Read(&'a [u8], u64, Result<usize, Failed>, &'a [u8]),
    /// These bytes into a file at a place.
    Write(u8, u64, &'a [u8], Result<(), Failed>),
    Sync(Result<(), Failed>),
    /// How many faults there are by now.
    Faults(u64),
}

/// Makes a call, but for a write. Its place in the table is told where it answers otherwise.
pub fn look<D: Folder + Drop>(
    rt: &impl Abort,
    rack: &mut FileRack<D>,
    call: Call<'_>,
    row: Row<'_>,
) {
    let Row { table, row: number } = row;
    match call {
        Call::Len(files, answer) => measure(rt, rack, files, answer, row),
        Call::Read(files, at, answer, buffer) => read(rt, rack, files, at, answer, buffer, row),
        Call::Write(..) => assert!(rt; false, "a write is no look"),
        Call::Sync(answer) => assert_eq!(rt; rack.sync(), answer, "{table}, row {number}"),
        Call::Faults(count) => assert_eq!(rt; rack.faults, count, "{table}, row {number}"),
    }
}

fn measure<D: Folder + Drop>(
    rt: &impl Abort,
    rack: &mut FileRack<D>,
    files: &[u8],
    answer: Result<u64, Failed>,
    row: Row<'_>,
) {
    let Row { table, row: number } = row;
    for file in files {
        assert!(rt; *file < 9);
        assert_eq!(rt;
            rack.len(*file),
            answer,
            "{table}, row {number}, file {file}"
        );
    }
}

fn read<D: Folder + Drop>(
    rt: &impl Abort,
    rack: &mut FileRack<D>,
    files: &[u8],
    at: u64,
    answer: Result<usize, Failed>,
    buffer: &[u8],
    row: Row<'_>,
) {
    let Row { table, row: number } = row;
    for file in files {
        assert!(rt; *file < 9);
        let mut found = [0; 8];
        let (part, _) = found.split_at_mut(buffer.len().min(8));
        assert_eq!(rt;
            rack.read(*file, at, part),
            answer,
            "{table}, row {number}, file {file}"
        );
        if answer.is_ok() {
            assert_eq!(rt; &*part, buffer, "{table}, row {number}, file {file}");
        }
    }
}
