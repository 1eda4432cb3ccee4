// The lines of starts, and of requests to complete.
ghost use Rattle.std.specs.Prelude.{◌≡◌, ◌++◌, ◌∷◌, map, codes, decimal, OnOk};
ghost use Rattle.process_text.specs.Canonical.{line_of, spaced};
ghost use Rattle.session_text.specs.Answers.{numbered, started_words, no_process_words, not_started_words, abort_words};

use crate::answers::put_number;
use machine_model::{Aborted, StartWhy};
use process_report::put_line;
use std::alloc::{AllocError, Global};

/// Writes `started I NAME`.
pub fn put_started(alloc: Global, i: u32, name: &[u8], out: &mut Vec<u8>) -> Result<(), AllocError>
    ensures { OnOk result (out.new.items ≡ out.old.items ++ line_of (started_words i name.now)) }
{
    let number = format!(in alloc; "{i}")?;
    put_line(out, &[b"started", number.as_bytes(), name])
}

/// Writes `no process NAME`.
pub fn put_no_process(name: &[u8], out: &mut Vec<u8>) -> Result<(), AllocError>
    ensures { OnOk result (out.new.items ≡ out.old.items ++ line_of (no_process_words name.now)) }
{
    put_line(out, &[b"no", b"process", name])
}

/// Writes two words and a number.
pub fn put_counted(
    alloc: Global,
    first: &[u8],
    second: &[u8],
    n: u32,
    out: &mut Vec<u8>,
) -> Result<(), AllocError>
    ensures { OnOk result (out.new.items ≡ out.old.items ++ line_of (first.now ∷ numbered second.now n)) }
{
    let number = format!(in alloc; "{n}")?;
    put_line(out, &[first, second, number.as_bytes()])
}

/// Writes `too many N`, `no room N` or `no memory`.
pub fn put_not_started(alloc: Global, why: StartWhy, out: &mut Vec<u8>) -> Result<(), AllocError>
    ensures { OnOk result (out.new.items ≡ out.old.items ++ line_of (not_started_words why)) }
{
    match why {
        StartWhy::TooMany(n) => put_counted(alloc, b"too", b"many", n, out),
        StartWhy::NoRoom(n) => put_counted(alloc, b"no", b"room", n, out),
        StartWhy::NoMemory => put_line(out, &[b"no", b"memory"]),
    }
}

// Writes a number with a space before it.
fn put_next(alloc: Global, n: u32, out: &mut Vec<u8>) -> Result<(), AllocError>
    ensures { OnOk result (out.new.items ≡ out.old.items ++ 32 ∷ decimal n) }
{
    let word = format!(in alloc; " {n}")?;
    out.extend_from_slice(word.as_bytes())?;
    Ok(())
}

// Writes numbers with a space before each.
fn put_numbers(alloc: Global, numbers: &[u32], out: &mut Vec<u8>) -> Result<(), AllocError>
    ensures { OnOk result (out.new.items ≡ out.old.items ++ spaced (map decimal numbers.now)) }
{
    let mut rest = numbers;
    while let [number, after @ ..] = rest {
        put_next(alloc, *number, out)?;
        rest = after;
    }
    Ok(())
}

// Writes `aborting` and the numbers of processes.
fn put_aborting(alloc: Global, began: &[u32], out: &mut Vec<u8>) -> Result<(), AllocError>
    ensures { OnOk result (out.new.items ≡ out.old.items ++ line_of (codes "aborting" ∷ map decimal began.now)) }
{
    out.extend_from_slice(b"aborting")?;
    put_numbers(alloc, began, out)?;
    out.push(b'\n')?;
    Ok(())
}

/// Writes what comes of a request that process i completes, where these processes began to.
pub fn put_aborted(
    alloc: Global,
    i: u32,
    began: &[u32],
    reply: Aborted,
    out: &mut Vec<u8>,
) -> Result<(), AllocError>
    ensures { OnOk result (out.new.items ≡ out.old.items ++ line_of (abort_words i began.now reply)) }
{
    match reply {
        Aborted::Ok => put_aborting(alloc, began, out),
        Aborted::Unknown => put_number(alloc, b"unknown", i, out),
        Aborted::Ended => put_number(alloc, b"ended", i, out),
        Aborted::Exhausted => put_number(alloc, b"exhausted", i, out),
        Aborted::Already => put_number(alloc, b"already", i, out),
    }
}
