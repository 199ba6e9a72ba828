ghost use Rattle.std.specs.Prelude.{◌≡◌, OnErr};

use outside::{Failed, Sink, Source, StdSink, StdSource, read_byte, write_all};
use std::io;
use std::io::{Cursor, ErrorKind, Read, Write};

// A reader whose stream is gone.
#[derive(Clone, Copy)]
struct Gone;

impl Read for Gone {
    fn read(&mut self, _buf: &mut [u8]) -> io::Result<usize> {
        Err(io::Error::from(ErrorKind::BrokenPipe))
    }
}

#[test]
fn sources_over_readers(rt: HostRuntime) {
    let mut source = StdSource::new(b"abc".as_slice());
    let mut buf = [0u8; 2];
    assert!(rt; source.read(&mut buf) == Ok(2));
    assert!(rt; buf == *b"ab");
    assert!(rt; read_byte(&mut source) == Ok(Some(b'c')));
    assert!(rt; source.read(&mut buf) == Ok(0));
    assert!(rt; StdSource::new(Gone).read(&mut buf) == Err(Failed));
}

#[test]
fn sinks_over_writers(rt: HostRuntime) {
    let mut bytes = Vec::new(rt.alloc());
    let mut sink = StdSink::new(&mut bytes);
    assert!(rt; sink.write(b"") == Ok(0));
    assert!(rt; sink.write(b"ab") == Ok(2));
    assert!(rt; write_all(&mut sink, b"cd") == Ok(()));
    assert!(rt; bytes.as_slice() == b"abcd".as_slice());
}

#[test]
fn a_writer_that_takes_no_byte_has_failed(rt: HostRuntime) {
    let mut sink = StdSink::new(Cursor::new([0u8; 2]));
    assert!(rt; sink.write(b"abc") == Ok(2));
    assert!(rt; sink.write(b"c") == Err(Failed));
    assert!(rt; sink.write(b"") == Ok(0));
}

// A reader whose first reads fail, and which counts its reads.
#[derive(Drop)]
struct FailsFirst<'a> {
    kind: ErrorKind,
    failing: u64,
    reads: u64,
    rest: &'a [u8],
}

impl<'a> Read for FailsFirst<'a> {
    fn read(&mut self, buf: &mut [u8]) -> io::Result<usize> {
        self.reads = self.reads.saturating_add(1);
        if self.reads <= self.failing {
            return Err(io::Error::from(self.kind));
        }
        self.rest.read(buf)
    }
}

// The first read of a source that has met no failure. One that fails is counted once.
fn first_read<R: Read>(source: &mut StdSource<R>, buf: &mut [u8]) -> Result<usize, Failed>
    requires { source.old.faults ≡ 0 }
    ensures { OnErr result (source.new.faults ≡ 1) }
{
    source.read(buf)
}

#[test]
fn a_failed_read_is_told_at_once(rt: HostRuntime) {
    let mut reader = FailsFirst {
        kind: ErrorKind::BrokenPipe,
        failing: 1,
        reads: 0,
        rest: b"ab",
    };
    let mut buf = [0u8; 4];
    let mut source = StdSource::new(&mut reader);
    assert!(rt; first_read(&mut source, &mut buf) == Err(Failed));
    assert!(rt; source.read(&mut buf) == Ok(2));
    assert!(rt; buf == *b"ab\0\0");
    // Two reads were asked for, so the one that failed wasn't asked for again.
    assert!(rt; reader.reads == 2);
}

#[test]
fn an_interrupted_read_is_tried_again(rt: HostRuntime) {
    let mut reader = FailsFirst {
        kind: ErrorKind::Interrupted,
        failing: 2,
        reads: 0,
        rest: b"ab",
    };
    let mut buf = [0u8; 4];
    let mut source = StdSource::new(&mut reader);
    assert!(rt; first_read(&mut source, &mut buf) == Ok(2));
    assert!(rt; buf == *b"ab\0\0");
    assert!(rt; reader.reads == 3);
}

// A writer whose first writes a signal interrupts, and which counts its writes.
#[derive(Drop)]
struct InterruptedFirst<'a> {
    interrupted: u64,
    writes: u64,
    rest: &'a mut [u8],
}

impl<'a> Write for InterruptedFirst<'a> {
    fn write(&mut self, piece: &[u8]) -> io::Result<usize> {
        self.writes = self.writes.saturating_add(1);
        if self.writes <= self.interrupted {
            return Err(io::Error::from(ErrorKind::Interrupted));
        }
        self.rest.write(piece)
    }

    fn flush(&mut self) -> io::Result<()> {
        self.rest.flush()
    }
}

#[test]
fn an_interrupted_write_is_tried_again(rt: HostRuntime) {
    let mut bytes = [0u8; 4];
    let mut writer = InterruptedFirst {
        interrupted: 2,
        writes: 0,
        rest: &mut bytes,
    };
    let mut sink = StdSink::new(&mut writer);
    assert!(rt; sink.write(b"ab") == Ok(2));
    assert!(rt; writer.writes == 3);
    assert!(rt; bytes == *b"ab\0\0");
}
