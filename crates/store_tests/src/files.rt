// The file of one committed effect, and boxes for its store.
use process_disk::{MemoryRack, Rack};
use resource_box::{Counters, Resource};
use std::alloc::Global;
use std::process::Abort;

// File 1 after one committed effect: its header, the record of the effect, that of its commit, and a closed gate. The record has
// the number, the process, the step, the direction, the verb, the key and the amount.
const FILE: &[u8] = b"tpsl\x02\x01\x00\x00\
\x01\x19\x00\x10\x00\x00\x00\x00\x01\x00\x00\x00\x00\x00\x00\x00\x01\x00\x00\x00\x05\x00\x00\x00\x00\x00\x00\x00\
\x01\x05\x00\x11\x00\x00\x00\x00\
\x00";

// Such a file of version 1 with a second effect prepared: it takes 5 at key 1.
const PREPARED: &[u8] = b"tpsl\x01\x01\x00\x00\
\x01\x19\x00\x10\x00\x00\x00\x00\x01\x00\x00\x00\x00\x00\x00\x00\x01\x00\x00\x00\x05\x00\x00\x00\x00\x00\x00\x00\
\x01\x05\x00\x11\x00\x00\x00\x00\
\x01\x19\x00\x10\x01\x00\x00\x00\x01\x00\x00\x00\x01\x00\x00\x01\x01\x00\x00\x00\x05\x00\x00\x00\x00\x00\x00\x00\
\x00";

// Such a file with three effects, all committed but for the last two, which were prepared together: they take 5 at key 1, and 1 there.
const TWO_PREPARED: &[u8] = b"tpsl\x02\x01\x00\x00\
\x01\x19\x00\x10\x00\x00\x00\x00\x01\x00\x00\x00\x00\x00\x00\x00\x01\x00\x00\x00\x05\x00\x00\x00\x00\x00\x00\x00\
\x01\x05\x00\x11\x00\x00\x00\x00\
\x01\x19\x00\x10\x01\x00\x00\x00\x01\x00\x00\x00\x01\x00\x00\x01\x01\x00\x00\x00\x05\x00\x00\x00\x00\x00\x00\x00\
\x01\x19\x00\x10\x02\x00\x00\x00\x02\x00\x00\x00\x00\x00\x00\x01\x01\x00\x00\x00\x01\x00\x00\x00\x00\x00\x00\x00\
\x00";

/// The file with two more effects in doubt, of which no proof knows the bytes.
pub fn two_prepared_file() -> &'static [u8] {
    TWO_PREPARED
}

/// The file with the second effect, of which no proof knows the bytes.
pub fn prepared_file() -> &'static [u8] {
    PREPARED
}

/// That file, of which no proof knows the bytes.
pub fn whole_file() -> &'static [u8] {
    FILE
}

/// What was to be had: memory is never wanting here, and no call fails.
pub fn must<T: Drop, E: Drop>(rt: &impl Abort, found: Result<T, E>) -> T {
    match found {
        Ok(value) => value,
        Err(_) => panic!(rt; "no memory, or a failed call"),
    }
}

/// A rack whose file 1 has these bytes.
pub fn rack_of(rt: &impl Abort, alloc: Global, bytes: &[u8]) -> MemoryRack {
    let mut rack = must(rt, MemoryRack::new(alloc, Vec::new(alloc)));
    must(rt, rack.write_at(1, 0, bytes));
    rack
}

/// Counters without a value.
pub fn counters(rt: &impl Abort, alloc: Global) -> Box<dyn Resource + Send> {
    must(rt, Box::new(alloc, Counters::new(alloc))) as Box<dyn Resource + Send>
}

/// Whether file 1 of a rack has these bytes and no others.
pub fn is_file(rt: &impl Abort, alloc: Global, rack: &mut MemoryRack, bytes: &[u8]) -> bool {
    let mut found = must(rt, vec![in alloc; 0; 45]);
    let count = must(rt, rack.read(1, 0, &mut found));
    let len = must(rt, rack.len(1));
    count == 45 && len == 45 && found.as_slice() == bytes
}
