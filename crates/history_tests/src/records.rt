// What no clause of `journal_records` says: that the calls which want memory succeed where there is enough.
use crate::journals::must;
use journal_records::{Body, MOST_BYTES, Record, read, write};
use process_tree::Entry;
use std::alloc::Global;
use std::process::Abort;

#[test]
fn each_record_is_read_from_its_bytes(rt: HostRuntime) {
    let alloc = rt.alloc();
    let mut buffer = Vec::new(alloc);
    let Ok(()) = buffer.resize(MOST_BYTES, 0) else {
        panic!(rt; "no memory");
    };
    let Ok(bytes) = b"text".to_vec(alloc) else {
        panic!(rt; "no memory");
    };
    let text = Body::new(bytes);
    let size = write(&Record::Start(258, text), &mut buffer);
    assert_eq!(rt; &buffer[..size], b"\x01\x02\x01\x00\x00text".as_slice());
    let Some(Record::Start(process, text)) = must(&rt, read(alloc, &buffer[..size])) else {
        panic!(rt; "no start");
    };
    assert_eq!(rt; process, 258);
    assert_eq!(rt; text.bytes(), b"text".as_slice());
}
