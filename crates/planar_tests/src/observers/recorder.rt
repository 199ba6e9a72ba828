ghost use Rattle.std.specs.Prelude.{◌≡◌, ◌↔◌, IsTrue};
ghost use Rattle.arr_notes.specs.Notes.{is_one, one_less};

use arr_notes::{Answer, Note, Observer};
use no_memory::NoMemory;
use std::alloc::Global;

/// An observer that writes down what it is told, a byte a note: `s` for a snapshot, `b` before a change, `a` after it. It tells no view, and
/// its report is what it wrote.
#[derive(Drop)]
pub struct Recorder {
    alloc: Global,
    told: Vec<u8>,
    left: Option<u64>,
    room: u32,
}

impl Recorder {
    /// One that leaves after so many notes, if a number is given, and finds no memory after `room` of them, snapshots included.
    pub fn new(alloc: Global, left: Option<u64>, room: u32) -> Recorder {
        Recorder {
            alloc,
            told: Vec::new(alloc),
            left,
            room,
        }
    }

    // Writes a byte, where there is room.
    fn write(&mut self, byte: u8) -> bool
        ensures { self.new.left ≡ self.old.left }
    {
        if self.room == 0 {
            return false;
        }
        self.room -= 1;
        match self.told.push(byte) {
            Ok(()) => true,
            Err(_) => false,
        }
    }

    // A note that is counted.
    fn count(&mut self, byte: u8) -> Answer
        ensures leaves { (result ≡ Answer.Leave) ↔ IsTrue (is_one self.old.left) }
        ensures counts { result ≡ Answer.Stay → self.new.left ≡ one_less self.old.left }
    {
        if self.left == Some(1) {
            return Answer::Leave;
        }
        if !self.write(byte) {
            return Answer::NoMemory;
        }
        self.left = match self.left {
            None => None,
            Some(k) => Some(k.saturating_sub(1)),
        };
        Answer::Stay
    }
}

impl Observer for Recorder {
    ghost use Rattle.std.specs.Prelude.{None, false};

    ghost tells = { λ _. false };

    ghost held = { λ _. None };

    ghost left = { λ r. r.left };

    ghost heard = { λ _. None };

    fn heed(&mut self, note: &Note) -> Answer {
        match note {
            Note::Before(_) => self.count(b'b'),
            Note::After(_) => self.count(b'a'),
            Note::Snapshot(_) => {
                if self.write(b's') {
                    Answer::Stay
                } else {
                    Answer::NoMemory
                }
            }
        }
    }

    fn report(&self) -> Result<Vec<u8>, NoMemory> {
        let mut bytes = Vec::new(self.alloc);
        bytes.extend_from_slice(&self.told)?;
        Ok(bytes)
    }
}
