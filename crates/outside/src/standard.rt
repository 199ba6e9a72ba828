ghost use Rattle.std.specs.Prelude.{◌≡◌, ◌≢◌, [], length, None, IfErr, OnErr};
ghost use Rattle.std.specs.Io.{ReadsAtMost, WritesAtMost};
ghost use Rattle.std.specs.Io.KnownBytes.{ReadConsumes, WriteAppends};
ghost use Rattle.std.specs.IoError.{error_kind};
ghost use Rattle.outside.specs.Bytes.{Gives, Takes};
ghost use Rattle.outside.specs.Counts.{next, HasCause};

use crate::traits::{Failed, Sink, Source};
use std::io;
use std::io::{ErrorKind, Read, Write};
use std::marker::Model;

// How often a read or a write that signals interrupt is tried: as often as std's own loops try.
const TRIES: u64 = u64::MAX;

// One read, tried again where a signal interrupts it.
fn read_past_signals<R: Read>(reader: &mut R, buf: &mut [u8]) -> io::Result<usize>
    ensures bound { ReadsAtMost result buf.new }
    ensures stream { ReadConsumes (R.remaining reader.old) (R.remaining reader.new)
        result buf.new }
    ensures retried { IfErr result (λ e. error_kind e ≢ ErrorKind.Interrupted) }
{
    'tries: for _ in 0..TRIES {
        match reader.read(buf) {
            Err(e) if e.kind() == ErrorKind::Interrupted => {}
            result => return result,
        }
    }
    Err(io::Error::from(ErrorKind::TimedOut))
}

// One write, tried again where a signal interrupts it.
fn write_past_signals<W: Write>(writer: &mut W, piece: &[u8]) -> io::Result<usize>
    ensures bound { WritesAtMost result piece.now }
    ensures stream { WriteAppends (W.contents writer.old) (W.contents writer.new)
        result piece.now }
    ensures retried { IfErr result (λ e. error_kind e ≢ ErrorKind.Interrupted) }
{
    'tries: for _ in 0..TRIES {
        match writer.write(piece) {
            Err(e) if e.kind() == ErrorKind::Interrupted => {}
            result => return result,
        }
    }
    Err(io::Error::from(ErrorKind::TimedOut))
}

/// A source over a reader, as standard input. It tells nothing of its bytes as a source; what it
/// hands over is what the reader gave, where the reader tells that. A read that a signal interrupts
/// is tried again, as std's own loops do, and is no failure.
#[derive(Drop)]
pub struct StdSource<R> {
    inner: R,
    calls: u64,
    faults: u64,
}

impl<R> Model for StdSource<R> {
    ghost use Rattle.outside.specs.States.{StreamState};

    ghost Value = { StreamState R };

    ghost view = { λ s. record { inner = s.inner; calls = s.calls; faults = s.faults } };
}

impl<R> StdSource<R> {
    /// A source over this reader.
    pub fn new(inner: R) -> StdSource<R>
        ensures inner { result.inner ≡ inner }
        ensures calls { result.calls ≡ 0 }
        ensures faults { result.faults ≡ 0 }
    {
        StdSource {
            inner,
            calls: 0,
            faults: 0,
        }
    }
}

impl<R: Read> Source for StdSource<R> {
    ghost left = { λ _. None };

    ghost faults = { λ s. s.faults };

    ghost calls = { λ s. s.calls };

    fn read(&mut self, buf: &mut [u8]) -> Result<usize, Failed>
        ensures bytes { Gives None None result buf.new }
        ensures cause { HasCause self.old.faults self.new.faults result }
        ensures counted { self.new.calls ≡ next self.old.calls }

        // It hands over what the reader gave, where the reader tells it, and counts each failure
        // once.
        ensures stream { ReadConsumes (R.remaining self.old.inner) (R.remaining self.new.inner)
            result buf.new }
        ensures fault { OnErr result (self.new.faults ≡ next self.old.faults) }
    {
        self.calls = self.calls.saturating_add(1);
        match read_past_signals(&mut self.inner, buf) {
            Ok(count) => Ok(count),
            Err(_) => {
                self.faults = self.faults.saturating_add(1);
                Err(Failed)
            }
        }
    }
}

/// A sink over a writer, as standard output. It tells nothing of its bytes as a sink; what it takes
/// went to the writer, where the writer tells that. A write that a signal interrupts is tried again,
/// as std's own loops do, and is no failure.
#[derive(Drop)]
pub struct StdSink<W> {
    inner: W,
    faults: u64,
}

impl<W> Model for StdSink<W> {
    ghost use Rattle.outside.specs.States.{OutletState};

    ghost Value = { OutletState W };

    ghost view = { λ s. record { inner = s.inner; faults = s.faults } };
}

impl<W> StdSink<W> {
    /// A sink over this writer.
    pub fn new(inner: W) -> StdSink<W>
        ensures inner { result.inner ≡ inner }
        ensures faults { result.faults ≡ 0 }
    {
        StdSink { inner, faults: 0 }
    }
}

impl<W: Write> Sink for StdSink<W> {
    ghost taken = { λ _. None };

    ghost faults = { λ s. s.faults };

    /// An empty piece isn't handed to the writer. A writer that takes none of a piece has failed.
    fn write(&mut self, piece: &[u8]) -> Result<usize, Failed>
        ensures bytes { Takes None None result piece.now }
        ensures cause { HasCause self.old.faults self.new.faults result }
        ensures empty { piece.now ≡ [] → result ≡ Ok 0 }

        // What it takes went to the writer, where the writer tells it. It counts each failure once.
        ensures stream { WriteAppends (W.contents self.old.inner) (W.contents self.new.inner)
            result piece.now }
        ensures fault { OnErr result (self.new.faults ≡ next self.old.faults) }
    {
        if piece.is_empty() {
            return Ok(0);
        }
        match write_past_signals(&mut self.inner, piece) {
            Ok(count) if count > 0 => Ok(count),
            _ => {
                self.faults = self.faults.saturating_add(1);
                Err(Failed)
            }
        }
    }
}
