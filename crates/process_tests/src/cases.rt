// A table of nine files, with what comes of their opening.
use process_engine::{BookFault, OpenError};
use resource_box::{Call, Verb};
use subsystem_store::Effect;

/// The parts of a file, one after another.
pub type FileParts = &'static [&'static [u8]];

/// Files with their parts.
pub type Contents = &'static [(u8, FileParts)];

/// What comes of an opening.
#[derive(Clone, Copy)]
pub enum Opens {
    /// How many events there are, and the books of subsystems 0 and 2.
    Found(usize, &'static [Effect], &'static [Effect]),
    /// The book of this subsystem differs at this place: what it has there, and what the acts have.
    Differs(u8, u32, Option<Effect>, Option<Effect>),
    Refused(OpenError),
}

pub struct Case {
    pub name: &'static str,
    /// Those of the files that are not empty.
    pub files: Contents,
    pub opens: Opens,
    /// Those that are others then.
    pub after: Contents,
}

/// Why the files are not opened, if they should not be.
pub fn fault_of(opens: Opens) -> Option<OpenError> {
    match opens {
        Opens::Found(..) => None,
        Opens::Differs(subsystem, at, book, acts) => Some(OpenError::BookDiffers(BookFault {
            subsystem,
            at,
            book,
            acts,
        })),
        Opens::Refused(why) => Some(why),
    }
}

// Parts of file 0: its header, the catalog of adding on subsystem 0 and shipping on subsystem 2, the start of a process of two
// steps, its steps, and its end.
const JOURNAL: &[u8] = b"tpsl\x01\x00\x00\x00";

const SETUP: &[u8] = b"\x01\x14\x00\x00\x01\x02\x00\x03add\x00\x00\x04ship\x02\x00\x00\x00\x00";

const START: &[u8] = b"\x01\x2c\x00\x01\x01\x00\x00\x00process a c x add 1 5 c y ship 1 1 end\n";

// The start of a process of two steps on subsystem 0.
const START_ADDS: &[u8] =
    b"\x01\x2b\x00\x01\x01\x00\x00\x00process a c x add 1 5 c y add 1 6 end\n";

const FIRST_DONE: &[u8] = b"\x01\x08\x00\x02\x01\x00\x00\x00\x00\x00\x00";

const SECOND_DONE: &[u8] = b"\x01\x08\x00\x02\x01\x00\x00\x00\x01\x00\x00";

const ENDED: &[u8] = b"\x01\x05\x00\x03\x01\x00\x00\x00";

const CLOSED: &[u8] = b"\x00";

// Parts of the store of subsystem 0.
const COUNTERS: &[u8] = b"tpsl\x01\x01\x00\x00";

const ADDING: &[u8] =
    b"\x01\x19\x00\x10\x00\x00\x00\x00\x01\x00\x00\x00\x00\x00\x00\x00\x01\x00\x00\x00\x05\x00\x00\x00\x00\x00\x00\x00";

const ADDING_TAKEN_BACK: &[u8] =
    b"\x00\x19\x00\x10\x00\x00\x00\x00\x01\x00\x00\x00\x00\x00\x00\x00\x01\x00\x00\x00\x05\x00\x00\x00\x00\x00\x00\x00";

// This amount is 6.
const ADDING_MORE: &[u8] =
    b"\x01\x19\x00\x10\x00\x00\x00\x00\x01\x00\x00\x00\x00\x00\x00\x00\x01\x00\x00\x00\x06\x00\x00\x00\x00\x00\x00\x00";

const ADDED: &[u8] = b"\x01\x05\x00\x11\x00\x00\x00\x00";

// The second step adds 6.
const ADDING_AGAIN: &[u8] =
    b"\x01\x19\x00\x10\x01\x00\x00\x00\x01\x00\x00\x00\x01\x00\x00\x00\x01\x00\x00\x00\x06\x00\x00\x00\x00\x00\x00\x00";

const ADDED_BOTH: &[u8] = b"\x01\x05\x00\x11\x01\x00\x00\x00";

// Parts of the store of subsystem 2.
const SHIPMENTS: &[u8] = b"tpsl\x01\x03\x00\x00";

const SHIPPING: &[u8] =
    b"\x01\x19\x00\x10\x01\x00\x00\x00\x01\x00\x00\x00\x01\x00\x00\x00\x01\x00\x00\x00\x01\x00\x00\x00\x00\x00\x00\x00";

const SHIPPING_TAKEN_BACK: &[u8] =
    b"\x00\x19\x00\x10\x01\x00\x00\x00\x01\x00\x00\x00\x01\x00\x00\x00\x01\x00\x00\x00\x01\x00\x00\x00\x00\x00\x00\x00";

const SHIPPED: &[u8] = b"\x01\x05\x00\x11\x01\x00\x00\x00";

// Files of a run of that process, in its order.
const STARTED: FileParts = &[JOURNAL, SETUP, START, CLOSED];

const HALF_DONE: FileParts = &[JOURNAL, SETUP, START, FIRST_DONE, CLOSED];

const DONE: FileParts = &[JOURNAL, SETUP, START, FIRST_DONE, SECOND_DONE, CLOSED];

const ENDED_RUN: FileParts = &[
    JOURNAL,
    SETUP,
    START,
    FIRST_DONE,
    SECOND_DONE,
    ENDED,
    CLOSED,
];

const ADD_IN_DOUBT: FileParts = &[COUNTERS, ADDING, CLOSED];

const ADD_COMMITTED: FileParts = &[COUNTERS, ADDING, ADDED, CLOSED];

const ADD_TAKEN_BACK: FileParts = &[COUNTERS, ADDING_TAKEN_BACK, CLOSED];

const BOTH_IN_DOUBT: FileParts = &[COUNTERS, ADDING, ADDING_AGAIN, CLOSED];

const MORE_COMMITTED: FileParts = &[COUNTERS, ADDING_MORE, ADDED, CLOSED];

const SHIP_IN_DOUBT: FileParts = &[SHIPMENTS, SHIPPING, CLOSED];

const SHIP_COMMITTED: FileParts = &[SHIPMENTS, SHIPPING, SHIPPED, CLOSED];

/// The nine files of the catalog and of no history.
pub const EMPTY: [FileParts; 9] = [
    &[JOURNAL, SETUP, CLOSED],
    &[COUNTERS, CLOSED],
    &[b"tpsl\x01\x02\x00\x00", CLOSED],
    &[SHIPMENTS, CLOSED],
    &[b"tpsl\x01\x04\x00\x00", CLOSED],
    &[b"tpsl\x01\x05\x00\x00", CLOSED],
    &[b"tpsl\x01\x06\x00\x00", CLOSED],
    &[b"tpsl\x01\x07\x00\x00", CLOSED],
    &[b"tpsl\x01\x08\x00\x00", CLOSED],
];

const ADD: Effect = Effect {
    number: 0,
    process: 1,
    step: 0,
    undo: false,
    call: Call {
        verb: Verb::Add,
        key: 1,
        amount: 5,
    },
};

const ADD_MORE: Effect = Effect {
    number: 0,
    process: 1,
    step: 0,
    undo: false,
    call: Call {
        verb: Verb::Add,
        key: 1,
        amount: 6,
    },
};

const ADD_AGAIN: Effect = Effect {
    number: 1,
    process: 1,
    step: 1,
    undo: false,
    call: Call {
        verb: Verb::Add,
        key: 1,
        amount: 6,
    },
};

const SHIP: Effect = Effect {
    number: 1,
    process: 1,
    step: 1,
    undo: false,
    call: Call {
        verb: Verb::Add,
        key: 1,
        amount: 1,
    },
};

pub const CASES: [Case; 20] = [
    Case {
        name: "nothing has happened",
        files: &[],
        opens: Opens::Found(0, &[], &[]),
        after: &[],
    },
    Case {
        name: "nothing is in doubt",
        files: &[(0, ENDED_RUN), (1, ADD_COMMITTED), (3, SHIP_COMMITTED)],
        opens: Opens::Found(4, &[ADD], &[SHIP]),
        after: &[],
    },
    Case {
        name: "what is in doubt and stands in the journal is committed",
        files: &[(0, HALF_DONE), (1, ADD_IN_DOUBT)],
        opens: Opens::Found(2, &[ADD], &[]),
        after: &[(1, ADD_COMMITTED)],
    },
    Case {
        name: "what the journal lacks is taken back",
        files: &[(0, STARTED), (1, ADD_IN_DOUBT)],
        opens: Opens::Found(1, &[], &[]),
        after: &[(1, ADD_TAKEN_BACK)],
    },
    Case {
        name: "one of each",
        files: &[(0, HALF_DONE), (1, ADD_IN_DOUBT), (3, SHIP_IN_DOUBT)],
        opens: Opens::Found(2, &[ADD], &[]),
        after: &[
            (1, ADD_COMMITTED),
            (3, &[SHIPMENTS, SHIPPING_TAKEN_BACK, CLOSED]),
        ],
    },
    Case {
        name: "both stand in the journal",
        files: &[(0, DONE), (1, ADD_IN_DOUBT), (3, SHIP_IN_DOUBT)],
        opens: Opens::Found(3, &[ADD], &[SHIP]),
        after: &[(1, ADD_COMMITTED), (3, SHIP_COMMITTED)],
    },
    Case {
        name: "all that is in doubt in one store stands in the journal",
        files: &[
            (
                0,
                &[JOURNAL, SETUP, START_ADDS, FIRST_DONE, SECOND_DONE, CLOSED],
            ),
            (1, BOTH_IN_DOUBT),
        ],
        opens: Opens::Found(3, &[ADD, ADD_AGAIN], &[]),
        after: &[(1, &[COUNTERS, ADDING, ADDING_AGAIN, ADDED_BOTH, CLOSED])],
    },
    Case {
        name: "all that is in doubt in one store is taken back by one gate",
        files: &[
            (0, &[JOURNAL, SETUP, START_ADDS, CLOSED]),
            (1, BOTH_IN_DOUBT),
        ],
        opens: Opens::Found(1, &[], &[]),
        after: &[(1, &[COUNTERS, ADDING_TAKEN_BACK, ADDING_AGAIN, CLOSED])],
    },
    Case {
        name: "of two that are in doubt in one store the journal has the first alone",
        files: &[
            (0, &[JOURNAL, SETUP, START_ADDS, FIRST_DONE, CLOSED]),
            (1, BOTH_IN_DOUBT),
        ],
        opens: Opens::Differs(0, 1, None, Some(ADD)),
        after: &[],
    },
    Case {
        name: "a commit of the first of two that are in doubt",
        files: &[
            (
                0,
                &[JOURNAL, SETUP, START_ADDS, FIRST_DONE, SECOND_DONE, CLOSED],
            ),
            (1, &[COUNTERS, ADDING, ADDING_AGAIN, ADDED, CLOSED]),
        ],
        opens: Opens::Refused(OpenError::BadBook(1, 3)),
        after: &[],
    },
    Case {
        name: "other amounts are in doubt than the journal has, and the book lacks its effect",
        files: &[(0, HALF_DONE), (1, &[COUNTERS, ADDING_MORE, CLOSED])],
        opens: Opens::Differs(0, 1, None, Some(ADD)),
        after: &[],
    },
    Case {
        name: "another amount is committed",
        files: &[(0, HALF_DONE), (1, MORE_COMMITTED)],
        opens: Opens::Differs(0, 1, Some(ADD_MORE), Some(ADD)),
        after: &[],
    },
    Case {
        name: "what the journal lacks is committed",
        files: &[(0, STARTED), (1, ADD_COMMITTED)],
        opens: Opens::Differs(0, 1, Some(ADD), None),
        after: &[],
    },
    Case {
        name: "nothing is settled where a later book differs",
        files: &[(0, HALF_DONE), (1, ADD_IN_DOUBT), (3, SHIP_COMMITTED)],
        opens: Opens::Differs(2, 1, Some(SHIP), None),
        after: &[],
    },
    Case {
        name: "of two books that differ the first is told",
        files: &[(0, DONE), (1, MORE_COMMITTED)],
        opens: Opens::Differs(0, 1, Some(ADD_MORE), Some(ADD)),
        after: &[],
    },
    Case {
        name: "the last file is read before books are compared",
        files: &[(0, STARTED), (1, ADD_COMMITTED), (8, &[b"tpsl"])],
        opens: Opens::Refused(OpenError::BadHeader(8)),
        after: &[],
    },
    Case {
        name: "of two files at fault the first is told, whatever their faults are",
        files: &[
            (0, STARTED),
            (1, &[COUNTERS, ADDED, CLOSED]),
            (3, &[SHIPMENTS, b"\x01\x02\x00hi", CLOSED]),
            (5, &[b"tpsl"]),
        ],
        opens: Opens::Refused(OpenError::BadBook(1, 1)),
        after: &[],
    },
    Case {
        name: "a store with a record of no form",
        files: &[
            (3, &[SHIPMENTS, b"\x01\x02\x00hi", CLOSED]),
            (5, &[b"tpsl"]),
        ],
        opens: Opens::Refused(OpenError::BadRecord(3, 1)),
        after: &[],
    },
    Case {
        name: "the journal is read first",
        files: &[
            (0, &[JOURNAL, SETUP, START, SECOND_DONE, CLOSED]),
            (1, &[b"tpsl"]),
        ],
        opens: Opens::Refused(OpenError::BadHistory(3)),
        after: &[],
    },
    Case {
        name: "and its framing before its records",
        files: &[
            (0, &[JOURNAL, SETUP, START, SECOND_DONE, b"\x01\xff"]),
            (1, &[b"tpsl"]),
        ],
        opens: Opens::Refused(OpenError::BadRecord(0, 4)),
        after: &[],
    },
];
