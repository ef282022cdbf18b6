//! Sinks of the host over writers that hold bytes back until they are flushed.

use outside::{HostSink, Sink, write_pieces, write_whole};
use std::alloc::Global;
use std::io;
use std::io::{ErrorKind, Write};
use std::test::Fail;

// A writer that takes at most `most` bytes in a call and holds them back until it is flushed. Its flush fails
// after `flushes` others.
#[derive(Drop)]
struct Buffered {
    waiting: Vec<u8>,
    flushed: Vec<u8>,
    most: usize,
    flushes: u8,
}

impl Write for Buffered {
    fn write(&mut self, buf: &[u8]) -> io::Result<usize> {
        let count = buf.len().min(self.most);
        self.waiting.extend_from_slice(&buf[..count])?;
        Ok(count)
    }

    fn flush(&mut self) -> io::Result<()> {
        if self.flushes == 0 {
            return Err(io::Error::from(ErrorKind::BrokenPipe));
        }
        self.flushes -= 1;
        self.flushed.extend_from_slice(&self.waiting)?;
        self.waiting.clear();
        Ok(())
    }
}

// A writer that holds nothing, takes at most `most` bytes in a call, and is flushed `flushes` times.
fn writer_with(alloc: Global, most: usize, flushes: u8) -> Buffered {
    Buffered {
        waiting: Vec::new(alloc),
        flushed: Vec::new(alloc),
        most,
        flushes,
    }
}

#[test]
fn host_sinks_hold_nothing_back(rt: HostRuntime) -> Result<(), Fail> {
    let mut writer = writer_with(rt.alloc(), 4, 9);
    let mut sink = HostSink::new(&mut writer);
    assert_eq!(rt; sink.write(b"abcdef").ok(), Some(4));
    assert!(rt; write_whole(&mut sink, b"efgh1").is_ok());
    assert!(rt; write_pieces(&mut sink, &[b"", b"23"]).is_ok());
    assert!(rt; writer.flushed.as_slice() == b"abcdefgh123".as_slice());
    assert!(rt; writer.waiting.is_empty());
    Ok(())
}

#[test]
fn a_flush_that_fails_fails_the_write(rt: HostRuntime) -> Result<(), Fail> {
    let mut writer = writer_with(rt.alloc(), 4, 1);
    let mut sink = HostSink::new(&mut writer);
    assert!(rt; write_whole(&mut sink, b"abcdef").is_err());
    assert!(rt; writer.flushed.as_slice() == b"abcd".as_slice());
    assert!(rt; writer.waiting.as_slice() == b"ef".as_slice());
    Ok(())
}
