// The words of a call.
use program_words::{
    Command, CommandName, WordsError, read_number_and_count, read_words, read_workers,
};
use std::alloc::Global;
use std::process::Abort;

/// What was to be had: memory is never wanting here.
pub fn must<T: Drop, E: Drop>(rt: &impl Abort, found: Result<T, E>) -> T {
    match found {
        Ok(value) => value,
        Err(_) => panic!(rt; "no memory, or refused"),
    }
}

// The words of a line, with one space between two; an empty line has none.
fn words_of(rt: &impl Abort, alloc: Global, line: &str) -> Vec<String> {
    let mut words = Vec::new(alloc);
    for word in line.split(' ') {
        if !word.is_empty() {
            must(rt, words.push(must(rt, String::from_str(alloc, word))));
        }
    }
    words
}

// Lines, and what is asked for.
const COMMANDS: [(&str, Result<Command, WordsError>); 76] = [
    ("check", Ok(Command::Check)),
    ("expand", Ok(Command::Expand)),
    ("expand --", Ok(Command::Expand)),
    ("expand --strict", Err(WordsError::BadWords)),
    ("check --strict", Err(WordsError::BadWords)),
    (
        "init",
        Ok(Command::Init {
            values: false,
            strict: false,
        }),
    ),
    (
        "init --values",
        Ok(Command::Init {
            values: true,
            strict: false,
        }),
    ),
    (
        "init --values --",
        Ok(Command::Init {
            values: true,
            strict: false,
        }),
    ),
    (
        "init --strict",
        Ok(Command::Init {
            values: false,
            strict: true,
        }),
    ),
    (
        "init --strict --values",
        Ok(Command::Init {
            values: true,
            strict: true,
        }),
    ),
    ("init --strict --strict", Err(WordsError::BadWords)),
    (
        "init --",
        Ok(Command::Init {
            values: false,
            strict: false,
        }),
    ),
    ("init values", Err(WordsError::BadWords)),
    ("init --values --values", Err(WordsError::BadWords)),
    ("init --values=true", Err(WordsError::BadWords)),
    ("init --history", Err(WordsError::BadWords)),
    ("run", Ok(Command::Run { workers: 1 })),
    ("session", Ok(Command::Session)),
    ("serve", Ok(Command::Serve)),
    ("show", Ok(Command::Show)),
    ("replay", Ok(Command::Replay)),
    ("replay 1", Err(WordsError::BadWords)),
    ("verify", Ok(Command::Verify)),
    ("audit", Ok(Command::Audit { history: false })),
    ("audit --history", Ok(Command::Audit { history: true })),
    ("audit -- --history", Err(WordsError::BadWords)),
    ("audit --", Ok(Command::Audit { history: false })),
    ("audit history", Err(WordsError::BadWords)),
    ("audit --values", Err(WordsError::BadWords)),
    ("audit --hist", Err(WordsError::BadWords)),
    ("check --", Ok(Command::Check)),
    ("", Err(WordsError::BadWords)),
    ("Check", Err(WordsError::BadWords)),
    ("check check", Err(WordsError::BadWords)),
    ("check --help", Err(WordsError::BadWords)),
    ("check -h", Err(WordsError::BadWords)),
    ("show --version", Err(WordsError::BadWords)),
    ("show -V", Err(WordsError::BadWords)),
    ("init init", Err(WordsError::BadWords)),
    ("session 4", Err(WordsError::BadWords)),
    ("serve 4", Err(WordsError::BadWords)),
    ("run 4", Err(WordsError::BadWords)),
    ("run --workers 4", Ok(Command::Run { workers: 4 })),
    ("run -- 4", Err(WordsError::BadWords)),
    (
        "gen 1 1",
        Ok(Command::Gen {
            number: 1,
            count: 1,
        }),
    ),
    (
        "gen 0 256",
        Ok(Command::Gen {
            number: 0,
            count: 256,
        }),
    ),
    (
        "gen -- 7 08",
        Ok(Command::Gen {
            number: 7,
            count: 8,
        }),
    ),
    ("gen", Err(WordsError::BadWords)),
    ("gen 1", Err(WordsError::BadWords)),
    ("gen 0 0", Err(WordsError::BadWords)),
    ("gen 1 257", Err(WordsError::BadWords)),
    ("gen 1 1 1", Err(WordsError::BadWords)),
    (
        "bulk 1 1",
        Ok(Command::Bulk {
            number: 1,
            count: 1,
        }),
    ),
    (
        "bulk 0 256",
        Ok(Command::Bulk {
            number: 0,
            count: 256,
        }),
    ),
    ("bulk", Err(WordsError::BadWords)),
    ("bulk 1 257", Err(WordsError::BadWords)),
    ("help", Ok(Command::Help { about: None })),
    (
        "help run",
        Ok(Command::Help {
            about: Some(CommandName::Run),
        }),
    ),
    (
        "help audit",
        Ok(Command::Help {
            about: Some(CommandName::Audit),
        }),
    ),
    (
        "help replay",
        Ok(Command::Help {
            about: Some(CommandName::Replay),
        }),
    ),
    (
        "help version",
        Ok(Command::Help {
            about: Some(CommandName::Version),
        }),
    ),
    ("--help", Ok(Command::Help { about: None })),
    ("-h", Ok(Command::Help { about: None })),
    ("version", Ok(Command::Version)),
    ("--version", Ok(Command::Version)),
    ("help all", Err(WordsError::BadWords)),
    ("help audit --history", Err(WordsError::BadWords)),
    ("help --help", Err(WordsError::BadWords)),
    ("help run show", Err(WordsError::BadWords)),
    ("--help run", Err(WordsError::BadWords)),
    ("-h --", Err(WordsError::BadWords)),
    ("version 1", Err(WordsError::BadWords)),
    ("--version --", Err(WordsError::BadWords)),
    ("-V", Err(WordsError::BadWords)),
    ("-- help", Err(WordsError::BadWords)),
    ("-- check", Err(WordsError::BadWords)),
];

#[test]
fn words_are_read_as_commands(rt: HostRuntime) {
    let alloc = rt.alloc();
    for (line, expected) in &COMMANDS {
        let words = words_of(&rt, alloc, line);
        assert_eq!(rt; read_words(alloc, &words), *expected);
    }
}

// Words behind `run`, and the number of workers.
const WORKERS: [(&str, Result<u32, WordsError>); 16] = [
    ("", Ok(1)),
    ("--workers 1", Ok(1)),
    ("--workers 16", Ok(16)),
    ("--workers=4", Ok(4)),
    ("--workers 04", Ok(4)),
    ("--workers +4", Ok(4)),
    ("--", Ok(1)),
    ("4", Err(WordsError::BadWords)),
    ("--workers", Err(WordsError::BadWords)),
    ("--workers 0", Err(WordsError::BadWords)),
    ("--workers 17", Err(WordsError::BadWords)),
    ("--workers -1", Err(WordsError::BadWords)),
    ("--workers four", Err(WordsError::BadWords)),
    ("--workers 4 --workers 4", Err(WordsError::BadWords)),
    ("--worker 4", Err(WordsError::BadWords)),
    ("--help", Err(WordsError::BadWords)),
];

#[test]
fn workers_are_read(rt: HostRuntime) {
    let alloc = rt.alloc();
    for (line, expected) in &WORKERS {
        let words = words_of(&rt, alloc, line);
        assert_eq!(rt; read_workers(alloc, "run", &words), *expected);
    }
}

// Words behind `gen`, and the two numbers.
const NUMBERS: [(&str, Result<(u64, u32), WordsError>); 12] = [
    ("0 1", Ok((0, 1))),
    ("18446744073709551615 256", Ok((18446744073709551615, 256))),
    ("+7 -- 08", Ok((7, 8))),
    ("", Err(WordsError::BadWords)),
    ("1", Err(WordsError::BadWords)),
    ("1 0", Err(WordsError::BadWords)),
    ("1 257", Err(WordsError::BadWords)),
    ("-1 1", Err(WordsError::BadWords)),
    ("1 -1", Err(WordsError::BadWords)),
    ("18446744073709551616 1", Err(WordsError::BadWords)),
    ("1 2 3", Err(WordsError::BadWords)),
    ("--help", Err(WordsError::BadWords)),
];

#[test]
fn a_number_and_a_count_are_read(rt: HostRuntime) {
    let alloc = rt.alloc();
    for (line, expected) in &NUMBERS {
        let words = words_of(&rt, alloc, line);
        assert_eq!(rt; read_number_and_count(alloc, "gen", &words), *expected);
    }
}
