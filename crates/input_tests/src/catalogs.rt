// What no clause of `commute_table` says: catalogs as they are written, and processes bound to them.
ghost use Rattle.commute_table.specs.Operations.{IsCatalog};

use crate::words::must;
use commute_table::{
    BindError, Catalog, CatalogError, bind, catalog_bytes, read_catalog, read_scenario,
};
use process_text::read;
use process_tree::{Name, Named, Operations, Plan};
use std::alloc::Global;
use std::process::Abort;

// A document of nine operations.
const NINE: &[u8] = br#"version = 1
conflicts = [["add", "take"], ["take", "take"], ["note", "note"], ["book", "book"]]
processes = """
process a c x add 1 5 end
"""

[[op]]
name = "add"
subsystem = 0
verb = "add"

[[op]]
name = "take"
subsystem = 0
verb = "take"

[[op]]
name = "pay"
subsystem = 1
verb = "add"

[[op]]
name = "ship"
subsystem = 2
verb = "add"

[[op]]
name = "note"
subsystem = 4
verb = "put"

[[op]]
name = "book"
subsystem = 6
verb = "hold"

[[op]]
name = "load"
subsystem = 2
verb = "add"

[[op]]
name = "haul"
subsystem = 2
verb = "add"

[[op]]
name = "mail"
subsystem = 3
verb = "add"
"#;

// The bytes of its catalog.
const NINE_BYTES: [u8; 109] = [
    // version, and nine operations
    1, 9, 0, 3, b'a', b'd', b'd', 0, 0, // add
    4, b't', b'a', b'k', b'e', 0, 1, // take
    3, b'p', b'a', b'y', 1, 0, // pay
    4, b's', b'h', b'i', b'p', 2, 0, // ship
    4, b'n', b'o', b't', b'e', 4, 3, // note
    4, b'b', b'o', b'o', b'k', 6, 4, // book
    4, b'l', b'o', b'a', b'd', 2, 0, // load
    4, b'h', b'a', b'u', b'l', 2, 0, // haul
    4, b'm', b'a', b'i', b'l', 3, 0, // mail
    // the pairs of each operation with itself and the later ones
    0, 1, 0, 0, 0, 0, 0, 0, 0, 1, 0, 0, 0, 0, 0, 0, 0, 0, 0, 0, 0, 0, 0, 0, 0, 0, 0, 0, 0, 0, 1, 0,
    0, 0, 0, 1, 0, 0, 0, 0, 0, 0, 0, 0, 0,
];

// A document of one operation.
const ONE: &[u8] = b"version = 1\n[[op]]\nname = \"add\"\nsubsystem = 0\nverb = \"add\"\n";

// The bytes of its catalog.
const ONE_BYTES: [u8; 10] = [1, 1, 0, 3, b'a', b'd', b'd', 0, 0, 0];

// A document with a conflict by key, which is said twice.
const BY_KEY: &[u8] = br#"version = 2
conflicts = [["add", "take", "key"], ["take", "add", "key"], ["take", "take", "always"]]
[[op]]
name = "add"
subsystem = 0
verb = "add"
[[op]]
name = "take"
subsystem = 0
verb = "take"
"#;

// The bytes of its catalog.
const BY_KEY_BYTES: [u8; 19] = [
    2, 2, 0, 3, b'a', b'd', b'd', 0, 0, // add
    4, b't', b'a', b'k', b'e', 0, 1, // take
    0, 2, 1,
];

// The bytes of a document's catalog.
fn written(rt: &impl Abort, alloc: Global, document: &[u8]) -> Vec<u8> {
    let Ok(scenario) = read_scenario(alloc, document) else {
        panic!(rt; "no scenario");
    };
    must(rt, catalog_bytes(alloc, &scenario.catalog))
}

// The text of processes of a document.
fn processes_of(rt: &impl Abort, alloc: Global, document: &[u8]) -> Vec<u8> {
    let scenario = must(rt, read_scenario(alloc, document));
    scenario.processes.into_items()
}

// A catalog's bytes, read and written again with a copy of its conflicts.
fn rewritten(rt: &impl Abort, alloc: Global, bytes: &[u8]) -> Vec<u8> {
    let Ok(catalog) = read_catalog(alloc, bytes) else {
        panic!(rt; "no catalog");
    };
    let Ok(conflicts) = catalog.conflicts.copy(alloc) else {
        panic!(rt; "no memory");
    };
    let copy = Catalog {
        version: catalog.version,
        conflicts,
        ops: catalog.ops,
    };
    must(rt, catalog_bytes(alloc, &copy))
}

// Whether two operations of a catalog conflict, the first on key 7 and the second on this one.
fn conflict(rt: &impl Abort, alloc: Global, bytes: &[u8], a: u16, b: u16, key: u32) -> bool {
    let Ok(catalog) = read_catalog(alloc, bytes) else {
        panic!(rt; "no catalog");
    };
    is_conflict(&catalog, a, b, key)
}

fn is_conflict(c: &Catalog, a: u16, b: u16, key: u32) -> bool
    requires { IsCatalog c.now }
{
    let count = c.ops.as_slice().len();
    usize::from(a) < count && usize::from(b) < count && c.conflicts.holds(a, 7, b, key)
}

// Documents, the bytes of their catalogs, and their texts of processes.
const WRITTEN: [(&[u8], &[u8], &[u8]); 3] = [
    (ONE, &ONE_BYTES, b""),
    (NINE, &NINE_BYTES, b"process a c x add 1 5 end\n"),
    (BY_KEY, &BY_KEY_BYTES, b""),
];

#[test]
fn a_catalog_is_written_read_and_written_again(rt: HostRuntime) {
    let alloc = rt.alloc();
    for (document, bytes, text) in &WRITTEN {
        assert_eq!(rt; written(&rt, alloc, document).as_slice(), *bytes);
        assert_eq!(rt; rewritten(&rt, alloc, bytes).as_slice(), *bytes);
        assert_eq!(rt; processes_of(&rt, alloc, document).as_slice(), *text);
    }
}

#[test]
fn a_conflict_holds_both_ways(rt: HostRuntime) {
    let alloc = rt.alloc();
    for (a, b, want) in [(0, 1, true), (1, 0, true), (5, 5, true), (0, 0, false)] {
        assert_eq!(rt;
            conflict(&rt, alloc, &NINE_BYTES, a, b, 8),
            want,
            "{a} and {b}"
        );
    }
    for (a, b) in [(0, 1), (1, 0)] {
        assert!(rt; conflict(&rt, alloc, &BY_KEY_BYTES, a, b, 7), "{a} and {b}");
        assert!(rt;
            !conflict(&rt, alloc, &BY_KEY_BYTES, a, b, 8),
            "{a} and {b}"
        );
    }
    assert!(rt; conflict(&rt, alloc, &BY_KEY_BYTES, 1, 1, 8));
    assert!(rt; !conflict(&rt, alloc, &BY_KEY_BYTES, 0, 0, 7));
}

// The bytes of one operation with another byte at this place.
fn with_byte(rt: &impl Abort, alloc: Global, at: usize, byte: u8) -> Vec<u8> {
    let mut bytes = Vec::new(alloc);
    for (place, old) in ONE_BYTES.iter().enumerate() {
        must(rt, bytes.push(if place == at { byte } else { *old }));
    }
    bytes
}

// The place at which bytes are refused.
fn place_of(alloc: Global, bytes: &[u8]) -> Option<usize> {
    match read_catalog(alloc, bytes) {
        Ok(_) => None,
        Err(CatalogError::BadCatalog(place)) => Some(place as usize),
        Err(CatalogError::NoMemory) => None,
    }
}

// Names of one letter, as operations that look at subsystem 0, behind a number of 27 operations,
// and then a name that one of them has.
fn letters(rt: &impl Abort, alloc: Global) -> Vec<u8> {
    let mut bytes = must(rt, vec![in alloc; 1, 27, 0]);
    for letter in b'a'..=b'z' {
        must(rt, bytes.extend_from_slice(&[1, letter, 0, 2]));
    }
    must(rt, bytes.extend_from_slice(&[1, b'a']));
    bytes
}

// Another byte at a place of the bytes of one operation.
const DAMAGES: [(usize, u8); 9] = [
    (0, 0),
    (0, 3),
    (2, 1),
    (3, 0),
    (3, 33),
    (4, b'1'),
    (7, 8),
    (8, 3),
    (9, 2),
];

#[test]
fn bytes_are_refused_at_the_first_that_no_catalog_has(rt: HostRuntime) {
    let alloc = rt.alloc();
    for (at, byte) in &DAMAGES {
        let bytes = with_byte(&rt, alloc, *at, *byte);
        assert_eq!(rt; place_of(alloc, &bytes), Some(*at));
    }
    for count in 0..10 {
        assert_eq!(rt; place_of(alloc, &ONE_BYTES[..count]), Some(count));
    }
    assert_eq!(rt; place_of(alloc, &[1, 0, 0, 0]), Some(3));
    // A cell that is no mode of version 2.
    assert_eq!(rt; place_of(alloc, &[2, 1, 0, 1, b'a', 0, 0, 2]), None);
    assert_eq!(rt; place_of(alloc, &[2, 1, 0, 1, b'a', 0, 0, 3]), Some(7));
    // A name that can only be a repeated one is refused early.
    let bytes = letters(&rt, alloc);
    assert_eq!(rt; place_of(alloc, &bytes), Some(107));
    let names = [1, 2, 0, 1, b'a', 0, 2, 1, b'a'];
    assert_eq!(rt; place_of(alloc, &names), Some(8));
}

// The process of a text.
fn process(rt: &impl Abort, alloc: Global, text: &[u8]) -> Named {
    let mut processes = must(rt, read(alloc, text));
    let Some(last) = processes.pop() else {
        panic!(rt; "no process");
    };
    last
}

// The numbers of a process's operations, in a copy of its plan.
fn numbers_of(rt: &impl Abort, alloc: Global, named: Named) -> Operations {
    let Ok(scenario) = read_scenario(alloc, NINE) else {
        panic!(rt; "no scenario");
    };
    let Ok(plan) = bind(alloc, named, &scenario.catalog) else {
        panic!(rt; "not bound");
    };
    must(rt, plan.copy(alloc)).ops
}

// The unknown operation of a process, if it has one.
fn unknown_in(rt: &impl Abort, alloc: Global, named: Named) -> Option<Name> {
    let Ok(scenario) = read_scenario(alloc, NINE) else {
        panic!(rt; "no scenario");
    };
    unknown_of(bind(alloc, named, &scenario.catalog))
}

fn unknown_of(bound: Result<Plan, BindError>) -> Option<Name> {
    match bound {
        Ok(_) => None,
        Err(BindError::UnknownOp(name)) => Some(name),
        Err(BindError::NoMemory) => None,
    }
}

#[test]
fn a_process_is_bound_or_its_first_unknown_operation_is_told(rt: HostRuntime) {
    let alloc = rt.alloc();
    let mailed = process(&rt, alloc, b"process a c x mail 1 5 c y take 1 5 end");
    let numbers = numbers_of(&rt, alloc, mailed);
    assert_eq!(rt; numbers.as_slice(), [8, 1].as_slice());
    let flown = process(&rt, alloc, b"process a c x fly 1 5 c y run 1 5 end");
    let Some(name) = unknown_in(&rt, alloc, flown) else {
        panic!(&rt; "no unknown operation");
    };
    assert_eq!(rt; name.bytes(), b"fly".as_slice());
}
