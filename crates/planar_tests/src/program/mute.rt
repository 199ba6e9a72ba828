use arr_notes::{Answer, Note, Observer};
use no_memory::NoMemory;

/// An observer that hears everything and finds no memory for its report.
#[derive(Drop)]
pub struct Mute;

impl Observer for Mute {
    ghost use Rattle.std.specs.Prelude.{None, false};

    ghost tells = { λ _. false };

    ghost held = { λ _. None };

    ghost left = { λ _. None };

    ghost heard = { λ _. None };

    fn heed(&mut self, note: &Note) -> Answer {
        match note {
            Note::Before(_) | Note::After(_) | Note::Snapshot(_) => Answer::Stay,
        }
    }

    fn report(&self) -> Result<Vec<u8>, NoMemory> {
        Err(NoMemory)
    }
}
