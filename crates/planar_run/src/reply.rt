ghost use Rattle.std.specs.Prelude.{◌≡◌, ◌+◌, ◌++◌, ◌≤◌, [], length, IfOk, OnOk};

use itoa::{Buffer, Integer};
use no_memory::NoMemory;
use std::alloc::Global;
use std::marker::Model;

/// The room that is made for a reply before the first line is looked at, in bytes. Every fixed reply fits in it.
pub const REPLY_ROOM: usize = 500;

/// The reply that is being made, in room that is kept from line to line.
#[derive(Drop)]
pub struct Reply {
    bytes: Vec<u8>,
}

impl Model for Reply {
    ghost use Rattle.std.specs.Prelude.{ℕ, ◌≤◌, List, vec_capacity};
    ghost use Rattle.planar_run.specs.declared.reply.TheConstants.{REPLY_ROOM};

    ghost Value = { List ℕ };

    ghost view = { λ r. r.bytes.items };

    ghost invariant = { λ r. REPLY_ROOM ≤ vec_capacity r.bytes };
}

impl Reply {
    /// An empty reply.
    pub fn new(alloc: Global) -> Result<Reply, NoMemory>
        ensures { IfOk result (λ r. r ≡ []) }
    {
        Ok(Reply {
            bytes: Vec::with_capacity(alloc, REPLY_ROOM)?,
        })
    }

    /// The bytes so far.
    pub fn as_slice(&self) -> &[u8]
        ensures { result.now ≡ self.now }
    {
        &self.bytes
    }

    /// Empties the reply.
    pub fn clear(&mut self)
        ensures { self.new ≡ [] }
    {
        self.bytes.clear();
    }

    /// Puts a fixed text in place of all that was there. It takes no memory.
    pub fn set(&mut self, text: &str)
        requires { length text.now ≤ REPLY_ROOM }
        ensures { self.new ≡ text.now }
    {
        self.bytes.clear();
        self.add_text(text);
    }

    /// Puts bytes in place of all that was there. It takes no memory: their own is taken over where it is room enough for
    /// every fixed reply; otherwise they are few, and are copied.
    pub fn set_bytes(&mut self, bytes: Vec<u8>)
        ensures { self.new ≡ bytes.items }
    {
        if REPLY_ROOM <= bytes.capacity() {
            self.bytes = bytes;
            return;
        }
        self.bytes.clear();
        self.bytes.extend_from_slice(&bytes).unwrap();
    }

    /// Appends a text, within the room that was made at the start. It takes no memory.
    pub fn add_text(&mut self, text: &str)
        requires { length self.old + length text.now ≤ REPLY_ROOM }
        ensures { self.new ≡ self.old ++ text.now }
    {
        self.bytes.extend_from_slice(text.as_bytes()).unwrap();
    }

    /// Appends a number in decimal, within that room. It takes no memory.
    pub fn add_number<I: Integer>(&mut self, number: I)
        requires { length self.old + I.MAX_STR_LEN ≤ REPLY_ROOM }
        ensures put { self.new ≡ self.old ++ I.text number }
        ensures short { length self.new ≤ length self.old + I.MAX_STR_LEN }
    {
        let mut digits = Buffer::new();
        self.add_text(digits.format(number));
    }

    /// Appends bytes.
    pub fn put_bytes(&mut self, bytes: &[u8]) -> Result<(), NoMemory>
        ensures { OnOk result (self.new ≡ self.old ++ bytes.now) }
    {
        self.bytes.extend_from_slice(bytes)?;
        Ok(())
    }

    /// Appends a text.
    pub fn put_text(&mut self, text: &str) -> Result<(), NoMemory>
        ensures { OnOk result (self.new ≡ self.old ++ text.now) }
    {
        self.put_bytes(text.as_bytes())
    }

    /// Appends a number in decimal.
    pub fn put_number<I: Integer>(&mut self, number: I) -> Result<(), NoMemory>
        ensures { OnOk result (self.new ≡ self.old ++ I.text number) }
    {
        let mut digits = Buffer::new();
        self.put_text(digits.format(number))
    }
}
