ghost use Rattle.std.specs.Prelude.{◌≡◌, ◌↔◌, ◌⊎◌, ◌-◌, ◌<◌, ◌≤◌, [], length, min, replicate, Some, IfOk, IsOk, IsErr, OnErr, Contains};
ghost use Rattle.outside.specs.Bytes.{Gives, Takes};
ghost use Rattle.outside.specs.Counts.{next, HasCause};

use crate::traits::{Failed, Sink, Source};
use no_memory::NoMemory;
use std::alloc::Global;
use std::marker::Model;

/// A source over bytes in memory, which hands over at most a chunk a call and fails at the calls
/// of a plan. It tells its bytes.
#[derive(Drop)]
pub struct MemorySource {
    bytes: Vec<u8>,
    at: usize,
    chunk: usize,
    fail: Vec<u64>,
    calls: u64,
    faults: u64,
}

impl Model for MemorySource {
    ghost use Rattle.std.specs.Prelude.{◌<◌, ◌≤◌, length, drop};
    ghost use Rattle.outside.specs.States.{SourceState};

    ghost Value = { SourceState };

    ghost view = { λ s. record {
      rest = drop s.at s.bytes.items;
      chunk = s.chunk;
      fail = s.fail.items;
      calls = s.calls;
      faults = s.faults;
    } };

    ghost invariant = { λ s. (s.at ≤ length s.bytes.items) × (0 < s.chunk) };
}

impl MemorySource {
    /// A source of these bytes, at most `chunk` of them a call, which fails at each call whose
    /// number, from 1, is in `fail`.
    pub fn new(bytes: Vec<u8>, chunk: usize, fail: Vec<u64>) -> MemorySource
        requires { 0 < chunk }
        ensures { result ≡ record {
          rest = bytes.items;
          chunk = chunk;
          fail = fail.items;
          calls = 0;
          faults = 0;
        } }
    {
        MemorySource {
            bytes,
            at: 0,
            chunk,
            fail,
            calls: 0,
            faults: 0,
        }
    }
}

impl Source for MemorySource {
    ghost left = { λ s. Some s.rest };

    ghost faults = { λ s. s.faults };

    ghost calls = { λ s. s.calls };

    fn read(&mut self, buf: &mut [u8]) -> Result<usize, Failed>
        ensures bytes { Gives (Some self.old.rest) (Some self.new.rest) result buf.new }
        ensures cause { HasCause self.old.faults self.new.faults result }
        ensures counted { self.new.calls ≡ next self.old.calls }

        // It fails at the calls of the plan and at no other, and hands over all that it may.
        ensures plan { IsErr result ↔ Contains self.old.fail (next self.old.calls) }
        ensures chunk { IfOk result (λ n.
            n ≡ min (min (length self.old.rest) self.old.chunk) (length buf.old)) }
        ensures fault { OnErr result (self.new.faults ≡ next self.old.faults) }
        ensures untouched { OnErr result (buf.new ≡ buf.old) }
        ensures kept { (self.new.fail ≡ self.old.fail) × (self.new.chunk ≡ self.old.chunk) }
    {
        self.calls = self.calls.saturating_add(1);
        if self.fail.contains(&self.calls) {
            self.faults = self.faults.saturating_add(1);
            return Err(Failed);
        }
        let rest = &self.bytes[self.at..];
        let count = rest.len().min(self.chunk).min(buf.len());
        buf[..count].copy_from_slice(&rest[..count]);
        self.at += count;
        Ok(count)
    }
}

/// A source of one byte, again and again, which never fails. It tells its bytes.
#[derive(Clone, Copy)]
pub struct RepeatSource {
    byte: u8,
    n: u64,
    calls: u64,
}

impl Model for RepeatSource {
    ghost use Rattle.outside.specs.States.{RepeatState};

    ghost Value = { RepeatState };

    ghost view = { λ s. record { byte = s.byte; n = s.n; calls = s.calls } };

    ghost inverse = { λ s. record { byte = s.byte; n = s.n; calls = s.calls } };
}

impl RepeatSource {
    /// A source of this byte, `n` times.
    pub fn new(byte: u8, n: u64) -> RepeatSource
        ensures { result ≡ record { byte = byte; n = n; calls = 0 } }
    {
        RepeatSource { byte, n, calls: 0 }
    }
}

impl Source for RepeatSource {
    ghost left = { λ s. Some (replicate s.n s.byte) };

    ghost faults = { λ _. 0 };

    ghost calls = { λ s. s.calls };

    /// It takes time by the length of the buffer.
    fn read(&mut self, buf: &mut [u8]) -> Result<usize, Failed>
        ensures bytes { Gives (Some (replicate self.old.n self.old.byte))
            (Some (replicate self.new.n self.new.byte)) result buf.new }
        ensures cause { HasCause 0 0 result }
        ensures counted { self.new.calls ≡ next self.old.calls }

        // It never fails, and fills as much of the buffer as it can.
        ensures never { IsOk result }
        ensures fill { IfOk result (λ n. n ≡ min self.old.n (length buf.old)) }
        ensures kept { self.new.byte ≡ self.old.byte }
    {
        self.calls = self.calls.saturating_add(1);
        let count = self.n.min(buf.len() as u64);
        buf[..count as usize].fill(self.byte);
        self.n -= count;
        Ok(count as usize)
    }
}

/// A sink into memory with room made beforehand, which takes at most a chunk a call and fails at
/// the calls of a plan. It tells its bytes.
#[derive(Drop)]
pub struct MemorySink {
    bytes: Vec<u8>,
    room: usize,
    chunk: usize,
    fail: Vec<u64>,
    calls: u64,
    faults: u64,
}

impl Model for MemorySink {
    ghost use Rattle.std.specs.Prelude.{◌<◌, ◌≤◌, length, vec_capacity};
    ghost use Rattle.outside.specs.States.{SinkState};

    ghost Value = { SinkState };

    ghost view = { λ s. record {
      taken = s.bytes.items;
      room = s.room;
      chunk = s.chunk;
      fail = s.fail.items;
      calls = s.calls;
      faults = s.faults;
    } };

    ghost invariant = { λ s.
        (length s.bytes.items ≤ s.room) × (s.room ≤ vec_capacity s.bytes) × (0 < s.chunk) };
}

impl MemorySink {
    /// A sink with room for `room` bytes, of which a call takes at most `chunk`, and which fails
    /// at each call whose number, from 1, is in `fail`.
    pub fn new(
        alloc: Global,
        room: usize,
        chunk: usize,
        fail: Vec<u64>,
    ) -> Result<MemorySink, NoMemory>
        requires { 0 < chunk }
        ensures ok { IfOk result (λ s. s ≡ record {
          taken = [];
          room = room;
          chunk = chunk;
          fail = fail.items;
          calls = 0;
          faults = 0;
        }) }
        ensures no_room_needed { room ≡ 0 → IsOk result }
    {
        Ok(MemorySink {
            bytes: Vec::with_capacity(alloc, room)?,
            room,
            chunk,
            fail,
            calls: 0,
            faults: 0,
        })
    }

    /// The bytes taken so far.
    pub fn taken(&self) -> &[u8]
        ensures { result.now ≡ self.now.taken }
    {
        &self.bytes
    }
}

impl Sink for MemorySink {
    ghost taken = { λ s. Some s.taken };

    ghost faults = { λ s. s.faults };

    /// It takes no memory.
    fn write(&mut self, piece: &[u8]) -> Result<usize, Failed>
        ensures bytes { Takes (Some self.old.taken) (Some self.new.taken) result piece.now }
        ensures cause { HasCause self.old.faults self.new.faults result }
        ensures counted { self.new.calls ≡ next self.old.calls }

        // It fails at the calls of the plan, and for want of room, and nowhere else.
        ensures plan { IsErr result ↔ (Contains self.old.fail (next self.old.calls)
            ⊎ ((0 < length piece.now) × (self.old.room ≤ length self.old.taken))) }
        ensures chunk { IfOk result (λ n. n ≡ min (min (length piece.now) self.old.chunk)
            (self.old.room - length self.old.taken)) }
        ensures within { length self.new.taken ≤ self.old.room }
        ensures fault { OnErr result (self.new.faults ≡ next self.old.faults) }
        ensures kept { (self.new.fail ≡ self.old.fail) × (self.new.chunk ≡ self.old.chunk)
            × (self.new.room ≡ self.old.room) }
    {
        self.calls = self.calls.saturating_add(1);
        let free = self.room - self.bytes.len();
        if self.fail.contains(&self.calls) || (free == 0 && !piece.is_empty()) {
            self.faults = self.faults.saturating_add(1);
            return Err(Failed);
        }
        let count = piece.len().min(self.chunk).min(free);
        self.bytes.extend_from_slice(&piece[..count]).unwrap();
        Ok(count)
    }
}
