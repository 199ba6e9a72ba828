ghost use Rattle.std.specs.Prelude.{◌≡◌, IfOk};

use arr_notes::{Answer, Note, Observer};
use no_memory::NoMemory;
use std::alloc::Global;

/// An observer that keeps the notes that it is told, whole, and tells them. It tells no view, and stays.
#[derive(Drop)]
pub struct Listener {
    alloc: Global,
    told: Vec<Note>,
}

impl Listener {
    /// One that was told nothing.
    pub fn new(alloc: Global) -> Listener {
        Listener {
            alloc,
            told: Vec::new(alloc),
        }
    }
}

// The same note.
fn copy_of(alloc: Global, note: &Note) -> Result<Note, NoMemory>
    ensures { IfOk result (λ n. n ≡ note.now) }
{
    match note {
        Note::Before(intent) => Ok(Note::Before(*intent)),
        Note::After(change) => Ok(Note::After(change.copy(alloc)?)),
        Note::Snapshot(view) => Ok(Note::Snapshot(view.copy(alloc)?)),
    }
}

// A byte for the note.
fn byte_of(note: &Note) -> u8 {
    match note {
        Note::Before(_) => b'b',
        Note::After(_) => b'a',
        Note::Snapshot(_) => b's',
    }
}

impl Observer for Listener {
    ghost use Rattle.std.specs.Prelude.{None, Some, false};

    ghost tells = { λ _. false };

    ghost held = { λ _. None };

    ghost left = { λ _. None };

    ghost heard = { λ l. Some l.told.items };

    fn heed(&mut self, note: &Note) -> Answer {
        match copy_of(self.alloc, note) {
            Ok(copy) => match self.told.push(copy) {
                Ok(()) => Answer::Stay,
                Err(_) => Answer::NoMemory,
            },
            Err(NoMemory) => Answer::NoMemory,
        }
    }

    fn report(&self) -> Result<Vec<u8>, NoMemory> {
        let mut bytes = Vec::new(self.alloc);
        for note in &self.told {
            bytes.push(byte_of(note))?;
        }
        Ok(bytes)
    }
}
