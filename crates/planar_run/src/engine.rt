ghost use Rattle.std.specs.Prelude.{◌≡◌, ◌≢◌, [], true, false, IfOk, OnOk, OnErr};
ghost use Rattle.outside.specs.Counts.{HasCause};
ghost use Rattle.planar_run.specs.World.{first_world};
ghost use Rattle.planar_run.specs.Rows.{waiting_rows, world_row, IsKeptWorld};
ghost use Rattle.planar_run.specs.Gathered.{with_gathered, Grows};
ghost use Rattle.planar_run.specs.Engine.{Takes, TakesPart, Feeds, FeedsPart};
ghost use Rattle.planar_run.specs.Answer.{Replies};
ghost use Rattle.planar_run.specs.Clauses.{Causes, Finishes};
ghost use Rattle.planar_run.specs.Made.{no_memory_reply, AnswersMade, AnswersMadePart, IsLastReply};

use crate::answer::answer;
use crate::gathered::Gathered;
use crate::line::Line;
use crate::reply::Reply;
use crate::status::Status;
use crate::world::World;
use arr_notes::Observer;
use no_memory::NoMemory;
use outside::{Failed, Sink, write_all};
use script_maker::{LINE_ROOM, Maker};
use slab_laws::Strategy;
use std::alloc::Global;

/// The world, what has come of the line that was begun, and the room of its reply.
#[derive(Drop)]
pub struct Engine {
    world: World,
    line: Line,
    reply: Reply,
}

impl Engine {
    /// Before the first byte. This is the memory that every run needs.
    pub fn new(
        alloc: Global,
        strategy: Strategy,
        observers: Vec<Box<dyn Observer>>,
    ) -> Result<Engine, NoMemory>
        ensures first { IfOk result (λ e. world_row Observer-dyn e.world ≡ first_world strategy (waiting_rows Observer-dyn observers.items)) }
        ensures begun { IfOk result (λ e. e.line ≡ []) }
        ensures kept { IfOk result (λ e. IsKeptWorld Observer-dyn e.world) }
    {
        // The world is made last: where it is let go, it is proved anew that all of it may go.
        let line = Line::new(alloc)?;
        let reply = Reply::new(alloc)?;
        Ok(Engine {
            world: World::new(alloc, strategy, observers)?,
            line,
            reply,
        })
    }

    // Answers the line that was begun, and begins the next.
    fn end_line(&mut self)
        requires kept { IsKeptWorld Observer-dyn self.old.world }
        ensures replied { Replies (world_row Observer-dyn self.old.world) self.old.line self.new.reply (world_row Observer-dyn self.new.world) }
        ensures cleared { self.new.line ≡ [] }
        ensures kept { IsKeptWorld Observer-dyn self.new.world }
    {
        answer(&mut self.world, self.line.as_slice(), &mut self.reply);
        self.line.clear();
    }

    // Answers a line that is there whole, and tells whether it found memory.
    fn answer_whole(&mut self, line: &[u8]) -> bool
        requires kept { IsKeptWorld Observer-dyn self.old.world }
        ensures replied { Replies (world_row Observer-dyn self.old.world) line.now self.new.reply (world_row Observer-dyn self.new.world) }
        ensures found { result ≡ true → self.new.reply ≢ no_memory_reply }
        ensures none { result ≡ false → self.new.reply ≡ no_memory_reply }
        ensures kept { IsKeptWorld Observer-dyn self.new.world }
    {
        answer(&mut self.world, line, &mut self.reply);
        self.reply.as_slice() != b"no memory\n".as_slice()
    }

    // Answers the lines of a made script to the last one, or to the first that finds no memory, and keeps the reply to it.
    fn answer_made(&mut self, maker: &mut Maker)
        requires kept { IsKeptWorld Observer-dyn self.old.world }
        ensures last { IsLastReply (world_row Observer-dyn self.old.world) maker.old self.new.reply }
        ensures kept { IsKeptWorld Observer-dyn self.new.world }
    {
        let mut buffer = [0u8; LINE_ROOM];
        self.reply.clear();
        'lines: loop {
            match maker.next_line(&mut buffer) {
                None => return,
                Some(length) => {
                    let (line, _) = buffer.split_at(length);
                    if !self.answer_whole(line) {
                        return;
                    }
                }
            }
        }
    }

    /// Answers the lines of a made script, and writes the reply to the last one alone, or to the first that finds no memory.
    pub fn write_made<K: Sink>(&mut self, maker: &mut Maker, sink: &mut K) -> Result<(), Failed>
        requires kept { IsKeptWorld Observer-dyn self.old.world }
        ensures written { OnOk result (AnswersMade (K.taken sink.old) (K.taken sink.new) (world_row Observer-dyn self.old.world) maker.old) }
        ensures broken { OnErr result (AnswersMadePart (K.taken sink.old) (K.taken sink.new) (world_row Observer-dyn self.old.world) maker.old) }
        ensures cause { HasCause (K.faults sink.old) (K.faults sink.new) result }
    {
        self.answer_made(maker);
        write_all(sink, self.reply.as_slice())
    }

    // One more byte of the script. A reply is gathered behind those before it.
    fn take<K: Sink>(
        &mut self,
        byte: u8,
        replies: &mut Gathered,
        sink: &mut K,
    ) -> Result<(), Failed>
        requires kept { IsKeptWorld Observer-dyn self.old.world }
        ensures taken { OnOk result (Takes byte (with_gathered (K.taken sink.old) replies.old) (with_gathered (K.taken sink.new) replies.new) (world_row Observer-dyn self.old.world) self.old.line (world_row Observer-dyn self.new.world) self.new.line) }
        ensures grows { OnOk result (Grows (K.taken sink.old) (K.taken sink.new)) }
        ensures broken { OnErr result (TakesPart byte (K.taken sink.old) (K.taken sink.new) replies.old (world_row Observer-dyn self.old.world) self.old.line) }
        ensures cause { HasCause (K.faults sink.old) (K.faults sink.new) result }
        ensures kept { IsKeptWorld Observer-dyn self.new.world }
    {
        if byte == b'\n' {
            self.end_line();
            return replies.put(self.reply.as_slice(), sink);
        }
        self.line.push(byte);
        Ok(())
    }

    /// More bytes of the script. Each line is answered when its end comes; the replies are gathered, and handed over before it returns.
    pub fn feed<K: Sink>(&mut self, bytes: &[u8], sink: &mut K) -> Result<(), Failed>
        requires kept { IsKeptWorld Observer-dyn self.old.world }
        ensures fed { OnOk result (Feeds bytes.now (K.taken sink.old) (K.taken sink.new) (world_row Observer-dyn self.old.world) self.old.line (world_row Observer-dyn self.new.world) self.new.line) }
        ensures broken { OnErr result (FeedsPart bytes.now (K.taken sink.old) (K.taken sink.new) (world_row Observer-dyn self.old.world) self.old.line) }
        ensures cause { HasCause (K.faults sink.old) (K.faults sink.new) result }
        ensures kept { IsKeptWorld Observer-dyn self.new.world }
    {
        let mut replies = Gathered::new();
        for byte in bytes {
            self.take(*byte, &mut replies, sink)?;
        }
        replies.flush(sink)
    }

    /// The end of the script.
    pub fn finish<K: Sink>(&mut self, sink: &mut K) -> Status
        requires kept { IsKeptWorld Observer-dyn self.old.world }
        ensures finishes { Finishes result (K.taken sink.old) (K.taken sink.new) (world_row Observer-dyn self.old.world) self.old.line }
        ensures causes { Causes result 0 0 (K.faults sink.old) (K.faults sink.new) }
        ensures kept { IsKeptWorld Observer-dyn self.new.world }
    {
        if self.line.is_empty() {
            return Status::Done;
        }
        self.end_line();
        match write_all(sink, self.reply.as_slice()) {
            Ok(()) => Status::Done,
            Err(_) => Status::WriteFault,
        }
    }
}
