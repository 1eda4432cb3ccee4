// The bytes of records.
ghost use Rattle.std.specs.Prelude.{◌≡◌, ◌≤◌, ◌<◌, take, length, Some, None, IfOk, IfSome, if◌then◌else◌};
ghost use Rattle.journal_records.specs.Bytes.{setup_bytes, start_bytes, act_bytes, end_bytes, bytes_of, act_by, record_of};

use crate::{Body, Record};
use process_tree::Entry;
use std::alloc::{AllocError, Global};

/// The most bytes of a record.
pub const MOST_BYTES: usize = 65_535;

fn flag(set: bool) -> u8
    ensures { result ≡ (if set then 1 else 0) }
{
    if set { 1 } else { 0 }
}

// The body of a step or its undo.
fn act_bytes(entry: &Entry) -> [u8; 8]
    ensures { result ≡ act_bytes entry.now }
{
    let [p0, p1, p2, p3] = entry.process.to_le_bytes();
    let [s0, s1] = entry.step.to_le_bytes();
    [2, p0, p1, p2, p3, s0, s1, flag(entry.undo)]
}

// The body of an end.
fn end_bytes(process: u32) -> [u8; 5]
    ensures { result ≡ end_bytes process }
{
    let [p0, p1, p2, p3] = process.to_le_bytes();
    [3, p0, p1, p2, p3]
}

// Puts bytes at the front.
fn put(buffer: &mut [u8], bytes: &[u8]) -> usize
    requires room { length bytes.now ≤ length buffer.old }
    ensures size { result ≡ length bytes.now }
    ensures bytes { take result buffer.new ≡ bytes.now }
    ensures same { length buffer.new ≡ length buffer.old }
{
    let size = bytes.len();
    buffer[..size].copy_from_slice(bytes);
    size
}

// Puts a start at the front.
fn put_start(buffer: &mut [u8], process: u32, text: &[u8]) -> usize
    requires text { length text.now ≤ 65530 }
    requires room { length buffer.old ≡ 65535 }
    ensures size { result ≡ length (start_bytes process text.now) }
    ensures bytes { take result buffer.new ≡ start_bytes process text.now }
    ensures same { length buffer.new ≡ length buffer.old }
{
    let size = text.len();
    let [p0, p1, p2, p3] = process.to_le_bytes();
    let (head, rest) = buffer.split_at_mut(5);
    head.copy_from_slice(&[1, p0, p1, p2, p3]);
    rest[..size].copy_from_slice(text);
    size + 5
}

// Puts a catalog at the front.
fn put_setup(buffer: &mut [u8], catalog: &[u8]) -> usize
    requires catalog { length catalog.now ≤ 65534 }
    requires room { length buffer.old ≡ 65535 }
    ensures size { result ≡ length (setup_bytes catalog.now) }
    ensures bytes { take result buffer.new ≡ setup_bytes catalog.now }
    ensures same { length buffer.new ≡ length buffer.old }
{
    let size = catalog.len();
    let (head, rest) = buffer.split_at_mut(1);
    head[0] = 0;
    rest[..size].copy_from_slice(catalog);
    size + 1
}

/// Puts the bytes of a record at the front of a buffer of `MOST_BYTES`, and says how many they are.
pub fn write(entry: &Record, buffer: &mut [u8]) -> usize
    requires short { length (bytes_of entry.now) ≤ 65535 }
    requires room { length buffer.old ≡ 65535 }
    ensures size { result ≡ length (bytes_of entry.now) }
    ensures bytes { take result buffer.new ≡ bytes_of entry.now }
    ensures same { length buffer.new ≡ length buffer.old }
{
    match entry {
        Record::Setup(catalog) => put_setup(buffer, catalog.bytes()),
        Record::Start(process, text) => put_start(buffer, *process, text.bytes()),
        Record::Act(act) => put(buffer, &act_bytes(act)),
        Record::End(process) => put(buffer, &end_bytes(*process)),
    }
}

// The entry of a step or its undo.
fn entry_by(process: u32, step: u16, last: u8) -> Option<Record>
    ensures { result ≡ act_by process step last }
{
    let undo = match last {
        0 => false,
        1 => true,
        _ => return None,
    };
    Some(Record::Act(Entry {
        process,
        step,
        op: 0,
        key: 0,
        undo,
    }))
}

/// The record that bytes are, if they are one. The operation and the key of a step are 0: its bytes don't tell them.
pub fn read(alloc: Global, body: &[u8]) -> Result<Option<Record>, AllocError>
    ensures found { IfOk result (λ found. found ≡ record_of body.now) }
    // Its bytes are these.
    ensures bytes { IfOk result (λ found. IfSome found (λ r. bytes_of r ≡ body.now)) }
{
    match body {
        [0, catalog @ ..] => Ok(Some(Record::Setup(Body::new(catalog.to_vec(alloc)?)))),
        [1, p0, p1, p2, p3, text @ ..] => {
            let process = u32::from_le_bytes([*p0, *p1, *p2, *p3]);
            Ok(Some(Record::Start(process, Body::new(text.to_vec(alloc)?))))
        }
        [2, p0, p1, p2, p3, s0, s1, last] => {
            let process = u32::from_le_bytes([*p0, *p1, *p2, *p3]);
            Ok(entry_by(process, u16::from_le_bytes([*s0, *s1]), *last))
        }
        [3, p0, p1, p2, p3] => Ok(Some(Record::End(u32::from_le_bytes([*p0, *p1, *p2, *p3])))),
        _ => Ok(None),
    }
}
