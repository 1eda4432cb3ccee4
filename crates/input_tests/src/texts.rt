// What no clause of `process_text` says: that calls succeed, and what is printed.
use crate::words::must;
use process_text::{print, read, read_again};
use std::str;

// Texts of one process, and what is printed of it.
const PRINTED: [(&str, &str); 5] = [
    ("process a c x add 1 5 end", "process a c x add 1 5 end\n"),
    (
        "process\ta\r\nc x add 1 -5\n undo 3 refuse 0 undorefuse 7\n p y add 4294967295 0 refuse 1 \
        choose r z add 1 1 tries 64 or c w add 1 1 undo 1 choose p u add 1 1 refuse 0 \
        or r v add 1 1 tries 3 refuse 2 done done end",
        "process a c x add 1 -5 undorefuse 7 p y add 4294967295 0 refuse 1 \
        choose r z add 1 1 tries 64 or c w add 1 1 undo 1 choose p u add 1 1 or r v add 1 1 refuse 2 done done end\n",
    ),
    (
        "process a cr x ship 1 1 tries 2 undo 3 end",
        "process a cr x ship 1 1 tries 2 end\n",
    ),
    (
        "process a cr x ship 1 1 tries 3 undo 3 refuse 0 undorefuse 0 end",
        "process a cr x ship 1 1 end\n",
    ),
    (
        "process cr cr cr cr 1 1 tries 64 cr undo undo 1 1 undo 1 refuse 99 \
        cr tries tries 1 1 undorefuse 4 cr x add 1 -1 tries 1 undo 64 refuse 1 undorefuse 99 end",
        "process cr cr cr cr 1 1 tries 64 cr undo undo 1 1 undo 1 refuse 99 \
        cr tries tries 1 1 undorefuse 4 cr x add 1 -1 tries 1 undo 64 refuse 1 undorefuse 99 end\n",
    ),
];

#[test]
fn a_canonical_text_is_one_line_without_defaults(rt: HostRuntime) {
    let alloc = rt.alloc();
    for (text, want) in &PRINTED {
        let Ok(found) = read(alloc, text.as_bytes()) else {
            assert_eq!(rt; *text, "read");
            return;
        };
        for process in &found {
            let printed = must(&rt, print(alloc, &process.name, &process.tree));
            assert_eq!(rt; str::from_utf8(&printed).unwrap_or(""), *want);
            let again = read_again(alloc, &process.name, &process.tree);
            assert!(rt; again.is_ok());
        }
    }
}
