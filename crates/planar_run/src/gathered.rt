ghost use Rattle.std.specs.Prelude.{◌≡◌, ◌++◌, [], true, false, OnOk, OnErr};
ghost use Rattle.outside.specs.Bytes.{Gains, GainsPrefix};
ghost use Rattle.outside.specs.Counts.{HasCause};
ghost use Rattle.planar_run.specs.Gathered.{Passes};

use arrayvec::ArrayVec;
use outside::{Failed, Sink, write_all};
use std::marker::Model;

// How many bytes of replies are gathered.
const ROOM: usize = 4096;

/// Replies in their order, which a sink is to take. Many are handed over by one write.
#[derive(Drop)]
pub struct Gathered {
    bytes: ArrayVec<u8, ROOM>,
}

impl Model for Gathered {
    ghost use Rattle.std.specs.Prelude.{ℕ, List};

    ghost Value = { List ℕ };

    ghost view = { λ g. g.bytes.items };
}

impl Gathered {
    /// None yet.
    pub fn new() -> Gathered
        ensures { result ≡ [] }
    {
        Gathered {
            bytes: ArrayVec::new(),
        }
    }

    // Adds a reply, and tells whether there was room for it.
    fn keep(&mut self, reply: &[u8]) -> bool
        ensures kept { result ≡ true → self.new ≡ self.old ++ reply.now }
        ensures full { result ≡ false → self.new ≡ self.old }
    {
        match self.bytes.try_extend_from_slice(reply) {
            Ok(()) => true,
            Err(_) => false,
        }
    }

    /// Hands over all of them.
    pub fn flush<K: Sink>(&mut self, sink: &mut K) -> Result<(), Failed>
        ensures ok { OnOk result (Gains (K.taken sink.old) (K.taken sink.new) self.old) }
        ensures emptied { OnOk result (self.new ≡ []) }
        ensures err { OnErr result (GainsPrefix (K.taken sink.old) (K.taken sink.new) self.old) }
        ensures cause { HasCause (K.faults sink.old) (K.faults sink.new) result }
    {
        write_all(sink, self.bytes.as_slice())?;
        self.bytes.clear();
        Ok(())
    }

    /// One more reply. Where there is no room for it, those before it are handed over first; where it is longer than the room, it is too.
    pub fn put<K: Sink>(&mut self, reply: &[u8], sink: &mut K) -> Result<(), Failed>
        ensures ok { OnOk result (Passes (K.taken sink.old) (K.taken sink.new) self.old self.new reply.now) }
        ensures err { OnErr result (GainsPrefix (K.taken sink.old) (K.taken sink.new) (self.old ++ reply.now)) }
        ensures cause { HasCause (K.faults sink.old) (K.faults sink.new) result }
    {
        if self.keep(reply) {
            return Ok(());
        }
        self.flush(sink)?;
        if self.keep(reply) {
            return Ok(());
        }
        write_all(sink, reply)
    }
}
