// The bytes of a log's file.
ghost use Rattle.std.specs.Prelude.{◌≡◌, ◌≢◌, ◌<◌, ◌≤◌, ◌+◌, ◌*◌, ◌^◌, ◌++◌, ◌∷◌, [], length, None, Some, Ok, Err, IfOk};
ghost use Rattle.std.specs.Prelude.{IfErr, IfSome, MatchOption, All, nat_eq};
ghost use Rattle.std.specs.List.{starts_with};
ghost use Rattle.gate_log.specs.LogFile.{header, after_header, first_record, is_closed, bodies_in, most_records, records_size};
ghost use Rattle.gate_log.specs.declared.errors.LogError.TheVariants.{NoMemory};

use crate::{Body, LogError};
use std::alloc::Global;

/// The most records of a log.
pub const MOST_RECORDS: usize = 65_536;

/// The version of the files that are made. Those of version 1, which had one effect in doubt at most, are read as well.
const VERSION: u8 = 2;

/// A header, and a closed gate.
pub fn first_bytes(file: u8) -> [u8; 9]
    ensures { result ≡ header 2 file ++ 0 ∷ [] }
{
    [0x74, 0x70, 0x73, 0x6c, VERSION, file, 0, 0, 0]
}

fn begins_with(bytes: &[u8], version: u8, file: u8) -> bool
    ensures { result ≡ starts_with nat_eq bytes.now (header version file) }
{
    bytes.starts_with(&[0x74, 0x70, 0x73, 0x6c, version, file, 0, 0])
}

/// What follows the header of a file.
pub fn after_header(bytes: &[u8], file: u8) -> Option<&[u8]>
    ensures { MatchOption result (after_header file bytes.now ≡ None) (λ rest. after_header file bytes.now ≡ Some rest.now) }
{
    if begins_with(bytes, VERSION, file) || begins_with(bytes, 1, file) {
        Some(&bytes[8..])
    } else {
        None
    }
}

/// The body of a whole record behind an open gate, and what follows it.
fn first_record(bytes: &[u8]) -> Option<(&[u8], &[u8])>
    ensures first { MatchOption result (first_record bytes.now ≡ None)
        (λ first. first_record bytes.now ≡ Some (first.0.now, first.1.now)) }
    ensures short { IfSome result (λ first. length first.0.now < 2 ^ 16) }
    ensures size { IfSome result (λ first. 3 + length first.0.now + length first.1.now ≡ length bytes.now) }
{
    match bytes {
        [gate, low, high, rest @ ..] if *gate != 0 => {
            let size = usize::from(*low) + 256 * usize::from(*high);
            if size <= rest.len() {
                Some(rest.split_at(size))
            } else {
                None
            }
        }
        _ => None,
    }
}

fn is_closed(bytes: &[u8]) -> bool
    ensures { result ≡ is_closed bytes.now }
{
    match bytes {
        [gate, ..] => *gate == 0,
        [] => false,
    }
}

/// Bodies, and how many bytes their records take.
#[derive(Drop)]
pub struct Bodies {
    pub bodies: Vec<Body>,
    pub size: usize,
}

/// The bodies of the records up to the closed gate.
pub fn bodies_in(alloc: Global, bytes: &[u8]) -> Result<Bodies, LogError>
    ensures ok { IfOk result (λ read. bodies_in most_records 1 bytes.now ≡ Ok read.bodies.items) }
    ensures size { IfOk result (λ read. read.size ≡ records_size read.bodies.items) }
    ensures count { IfOk result (λ read. length read.bodies.items ≤ 65536) }
    ensures bound { IfOk result (λ read. read.size ≤ 65538 * length read.bodies.items) }
    ensures short { IfOk result (λ read. All (λ body. length body < 2 ^ 16) read.bodies.items) }
    ensures no_fault { IfErr result (λ e. e ≢ LogError.DiskFault) }
    ensures bad { IfErr result (λ e. e ≢ NoMemory → bodies_in most_records 1 bytes.now ≡ Err e) }
{
    let mut bodies = Vec::new(alloc);
    let mut rest = bytes;
    'records: while bodies.len() < MOST_RECORDS {
        let Some((body, after)) = first_record(rest) else {
            break 'records;
        };
        bodies.push(Body::new(body.to_vec(alloc)?))?;
        rest = after;
    }
    if is_closed(rest) {
        let size = bytes.len() - rest.len();
        Ok(Bodies { bodies, size })
    } else {
        Err(LogError::BadRecord(bodies.len() as u32 + 1))
    }
}
