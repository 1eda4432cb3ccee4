// What no clause says: what the adapters pass on of their streams, and which calls fail.
ghost use Rattle.std.specs.Prelude.{◌≡◌, IfOk};

use super::*;
use std::io;
use std::io::{Read, Write};
use std::test::Fail;

#[test]
fn std_objects_pass_on_the_bytes_of_their_streams(rt: HostRuntime) -> Result<(), Fail> {
    let alloc = rt.alloc();
    let text = vec![in alloc; b'x'; 1500]?;
    let mut source = StdSource::new(text.as_slice());
    let read = read_all(alloc, &mut source, 1500)?;
    let mut sink = StdSink::new(Vec::new(alloc));
    write_all(&mut sink, &read)?;
    assert_eq!(rt; sink.inner.as_slice(), text.as_slice());
    assert_eq!(rt; sink.faults, 0);
    Ok(())
}

#[test]
fn listed_calls_fail_and_are_counted(rt: HostRuntime) -> Result<(), Fail> {
    let alloc = rt.alloc();
    let text = vec![in alloc; b'x'; 1500]?;
    let mut source = MemorySource::new(text.clone()?, vec![in alloc; 1, 3]?);
    assert_eq!(rt;
        read_all(alloc, &mut source, 9000).err(),
        Some(ReadError::ReadFault)
    );
    assert_eq!(rt;
        read_all(alloc, &mut source, 9000).err(),
        Some(ReadError::ReadFault)
    );
    let mut sink = MemorySink::new(alloc, vec![in alloc; 0]?);
    assert_eq!(rt; write_all(&mut sink, &text), Err(WriteFault { sent: 0 }));
    assert_eq!(rt; write_all(&mut sink, &text), Ok(()));
    assert_eq!(rt; sink.bytes().len(), 1500);
    assert_eq!(rt; sink.starved(), 0);
    Ok(())
}

// A stream whose first call fails, and which says how often it was called.
#[derive(Drop)]
struct Faulty {
    calls: u8,
}

impl Faulty {
    fn call(&mut self) -> io::Result<usize>
        ensures { IfOk result (λ n. n ≡ 0) }
    {
        self.calls = self.calls.saturating_add(1);
        if self.calls == 1 {
            Err(io::Error::from(io::ErrorKind::Other))
        } else {
            Ok(0)
        }
    }
}

impl Read for Faulty {
    fn read(&mut self, buf: &mut [u8]) -> io::Result<usize> {
        self.call()
    }
}

impl Write for Faulty {
    fn write(&mut self, buf: &[u8]) -> io::Result<usize> {
        self.call()
    }

    fn flush(&mut self) -> io::Result<()> {
        Ok(())
    }
}

#[test]
fn a_failed_call_of_a_stream_is_told_and_not_made_again(rt: HostRuntime) -> Result<(), Fail> {
    let alloc = rt.alloc();
    let mut source = StdSource::new(Faulty { calls: 0 });
    assert_eq!(rt;
        read_all(alloc, &mut source, 9).err(),
        Some(ReadError::ReadFault)
    );
    assert_eq!(rt; source.inner.calls, 1);
    assert_eq!(rt; source.faults, 1);
    let mut sink = StdSink::new(Faulty { calls: 0 });
    assert_eq!(rt; write_all(&mut sink, b"x"), Err(WriteFault { sent: 0 }));
    assert_eq!(rt; sink.inner.calls, 1);
    assert_eq!(rt; sink.faults, 1);
    // A stream that takes nothing has failed too.
    assert_eq!(rt; write_all(&mut sink, b"x"), Err(WriteFault { sent: 0 }));
    assert_eq!(rt; sink.faults, 2);
    Ok(())
}
