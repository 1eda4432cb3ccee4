// The program over real files, and over a folder in memory.
ghost use Rattle.std.specs.Prelude.{◌≡◌};

use crate::calls::words_of;
use crate::expected::must;
use crate::show::{SHOWN, TEXT, TWO_STEPS_KEPT};
use call_words::call_parts;
use file_rack::{Access, FileRack, Folder, MemoryFolder, SystemFolder};
use gate_log::Log;
use process_disk::{MemoryRack, Rack};
use process_flow::{MemorySink, MemorySource};
use process_program::{Ended, program};
use std::alloc::Global;
use std::fmt::Write;
use std::process::{Abort, ExitCode};
use std::rt::{Env, Files};
use std::sync::Wait;
use std::thread::Threads;
use std::{env, fs, io};

// An empty folder of its own for a test.
fn fresh_folder<R: Files + Env + Alloc>(rt: &R, name: &str) -> io::Result<()> {
    let _absent = fs::remove_dir_all(rt, name);
    fs::create_dir(rt, name)?;
    env::set_current_dir(rt, name)
}

// Takes it away again.
fn leave<R: Files + Env + Alloc>(rt: &R, name: &str) -> io::Result<()> {
    env::set_current_dir(rt, "..")?;
    fs::remove_dir_all(rt, name)
}

// A word and an input for the program, its exit code and its output.
#[derive(Clone, Copy, Drop)]
struct Call<'a> {
    word: &'a str,
    text: &'a [u8],
    code: u8,
    output: &'a [u8],
}

// The code is this.
fn expect_code(rt: &impl Abort, alloc: Global, found: ExitCode, code: u8) {
    let mut shown = String::new(alloc);
    must(rt, write!(shown, "{found:?}"));
    let mut wanted = String::new(alloc);
    must(rt, write!(wanted, "ExitCode(unix_exit_status({code}))"));
    assert_eq!(rt; shown.as_str(), wanted.as_str());
}

// The program answers so over a folder. The answer is the rack that it leaves.
fn expect_on<H: Abort + Threads + Wait + Sync, D: Folder + Drop + Send>(
    rt: &H,
    alloc: Global,
    call: Call<'_>,
    folder: D,
) -> FileRack<D>
    requires { D.access folder ≡ Access.Unentered }
{
    let words = must(rt, words_of(alloc, &[call.word]));
    let Ok(parts) = call_parts(alloc, &words) else {
        panic!(rt; "no memory");
    };
    let source = MemorySource::new(must(rt, call.text.to_vec(alloc)), Vec::new(alloc));
    let mut sink = MemorySink::new(alloc, Vec::new(alloc));
    // Nothing of what is said beside the answer goes out, and the answer is the same.
    let mut errors = MemorySink::new(alloc, must(rt, vec![in alloc; 0]));
    let Ended { code, source, rack } = program(
        rt,
        alloc,
        &parts,
        source,
        &mut sink,
        &mut errors,
        folder,
    );
    drop(source);
    expect_code(rt, alloc, code, call.code);
    assert_eq!(rt; sink.bytes(), call.output);
    assert_eq!(rt; errors.bytes(), b"".as_slice());
    rack
}

const RUN: Call<'static> = Call {
    word: "run",
    text: TEXT,
    code: 0,
    output: SHOWN,
};

const SHOW: Call<'static> = Call {
    word: "show",
    text: b"",
    code: 0,
    output: SHOWN,
};

// The files of that scenario are made.
const MAKE_TEXT: Call<'static> = Call {
    word: "init",
    text: TEXT,
    code: 0,
    output: b"created\n",
};

// Calls while another program has the folder, which has made its log.
const BESIDE: [Call<'static>; 2] = [
    Call {
        word: "run",
        text: TEXT,
        code: 14,
        output: b"folder in use\n",
    },
    Call {
        word: "show",
        text: b"",
        code: 6,
        output: b"bad record file 0 at 1\n",
    },
];

// A file 0 that is the log of something else.
const RUN_ON_ANOTHER_LOG: Call<'static> = Call {
    word: "run",
    text: TEXT,
    code: 6,
    output: b"bad record file 0 at 1\n",
};

#[test]
fn a_second_program_on_the_folder_changes_nothing(rt: HostRuntime) {
    let alloc = rt.alloc();
    must(&rt, fresh_folder(&rt, "second"));
    let mut first = FileRack::new(&rt);
    let Ok(mut log) = Log::create(alloc, &mut first, 0) else {
        panic!(&rt; "no log");
    };
    let before = must(&rt, fs::read(&rt, "tps.0"));
    for call in &BESIDE {
        drop(expect_on(&rt, alloc, *call, SystemFolder::new(&rt)));
    }
    let after = must(&rt, fs::read(&rt, "tps.0"));
    assert_eq!(rt; after.as_slice(), before.as_slice());
    must(&rt, log.append(&mut first, b"first"));
    drop(first);
    let folder = SystemFolder::new(&rt);
    drop(expect_on(&rt, alloc, RUN_ON_ANOTHER_LOG, folder));
    must(&rt, leave(&rt, "second"));
}

// A run in which so many bytes go in a transfer at most writes the same journal.
fn expect_journal<H: Abort + Threads + Wait + Sync>(rt: &H, alloc: Global, most: u8) {
    let rack = must(rt, MemoryRack::new(alloc, Vec::new(alloc)));
    let made = expect_on(rt, alloc, MAKE_TEXT, MemoryFolder::new(rack, most));
    let mut rack = expect_on(rt, alloc, RUN, MemoryFolder::new(made.folder.rack, most));
    let mut bytes = [0; 100];
    assert_eq!(rt; rack.read(0, 0, &mut bytes), Ok(99));
    assert_eq!(rt; &bytes[..99], TWO_STEPS_KEPT);
    let shown = expect_on(rt, alloc, SHOW, MemoryFolder::new(rack.folder.rack, most));
    drop(shown);
}

#[test]
fn short_transfers_write_the_same_journal(rt: HostRuntime) {
    for most in [1, 4, 255] {
        expect_journal(&rt, rt.alloc(), most);
    }
}

// A run on a disk that fails.
const FAILED: Call<'static> = Call {
    word: "run",
    text: TEXT,
    code: 10,
    output: b"disk fault\n",
};

// The rack after a run, of which these calls fail.
fn run_over<H: Abort + Threads + Wait + Sync>(
    rt: &H,
    alloc: Global,
    fails: &[u32],
    run: Call<'_>,
) -> FileRack<MemoryFolder> {
    let rack = must(rt, MemoryRack::new(alloc, must(rt, fails.to_vec(alloc))));
    let made = expect_on(rt, alloc, MAKE_TEXT, MemoryFolder::new(rack, 255));
    expect_on(rt, alloc, run, MemoryFolder::new(made.folder.rack, 255))
}

#[test]
fn a_failed_sync_ends_a_run(rt: HostRuntime) {
    let alloc = rt.alloc();
    let whole = run_over(&rt, alloc, &[], RUN);
    // The last call syncs the record of the end.
    let calls = whole.folder.rack.calls();
    let last = must(&rt, u32::try_from(calls)).wrapping_sub(1);
    let rack = run_over(&rt, alloc, &[last], FAILED);
    assert!(rt; rack.broken);
    assert_eq!(rt; rack.folder.rack.calls(), calls);
}
