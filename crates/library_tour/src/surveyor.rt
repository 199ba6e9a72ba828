use crate::parcels::Parcels;
use arrangement::{Answer, NoMemory, Note, Observer};
use std::alloc::Global;
use std::cell::RefCell;
use std::rc::Rc;

/// An observer that keeps the land of parcels in step with a map. Its owner, who holds the same `Parcels`, reads them between two edits.
#[derive(Drop)]
pub struct Surveyor {
    alloc: Global,
    parcels: Rc<RefCell<Parcels>>,
}

impl Surveyor {
    /// One that keeps these.
    pub fn new(alloc: Global, parcels: Rc<RefCell<Parcels>>) -> Surveyor {
        Surveyor { alloc, parcels }
    }
}

impl Observer for Surveyor {
    ghost use Rattle.std.specs.Prelude.{None, false};

    // It tells contracts nothing of itself.
    ghost tells = { λ _. false };

    ghost held = { λ _. None };

    ghost left = { λ _. None };

    ghost heard = { λ _. None };

    // Where its owner still reads, or where there is no memory, it can't follow the note, and so it goes.
    fn heed(&mut self, note: &Note) -> Answer {
        let Ok(mut parcels) = self.parcels.try_borrow_mut() else {
            return Answer::NoMemory;
        };
        match parcels.heed(note) {
            Ok(()) => Answer::Stay,
            Err(NoMemory) => Answer::NoMemory,
        }
    }

    fn report(&self) -> Result<Vec<u8>, NoMemory> {
        Ok(Vec::new(self.alloc))
    }
}
