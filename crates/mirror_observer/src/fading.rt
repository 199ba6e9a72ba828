ghost use Rattle.std.specs.Prelude.{◌≡◌, ◌≢◌, ◌↔◌, IsTrue, IfOk, Some, None, false, []};
ghost use Rattle.arr_notes.specs.Notes.{is_last, is_one, left_after, one_less};

use arr_notes::{Answer, Note, Observer};
use no_memory::NoMemory;
use std::alloc::Global;
use std::marker::Model;

/// An observer that finds no memory at one note, to see what becomes of those that are lost. It keeps nothing of what it is told, and tells
/// no view and no count.
///
/// Contracts see it as a number: how many notes it hears, snapshots aside, until it finds no memory at the last of them; 0 where none is to
/// come.
#[derive(Drop)]
pub struct Fading {
    alloc: Global,
    rest: u64,
}

impl Model for Fading {
    ghost use Rattle.std.specs.Prelude.{ℕ};

    ghost Value = { ℕ };

    ghost view = { λ f. f.rest };
}

impl Fading {
    /// One that finds no memory at its `k`-th note that isn't a snapshot, and only there; at 0 it never does.
    pub fn new(alloc: Global, k: u64) -> Fading
        ensures fades { result ≡ k }
        ensures tells { ⟦<Fading as Observer>⟧.tells result ≡ false }
        ensures held { ⟦<Fading as Observer>⟧.held result ≡ None }
        ensures left { ⟦<Fading as Observer>⟧.left result ≡ None }
        ensures heard { ⟦<Fading as Observer>⟧.heard result ≡ None }
    {
        Fading { alloc, rest: k }
    }
}

// Counts a note down, and finds no memory at the last one.
fn fade(rest: &mut u64) -> Answer
    ensures fades { result ≡ Answer.NoMemory ↔ IsTrue (is_one (Some rest.old)) }
    ensures stays { result ≢ Answer.Leave }
    ensures counts { Some rest.new ≡ one_less (Some rest.old) }
{
    let n = *rest;
    *rest = n.saturating_sub(1);
    if n == 1 {
        Answer::NoMemory
    } else {
        Answer::Stay
    }
}

impl Observer for Fading {
    ghost tells = { λ f. false };

    ghost held = { λ f. None };

    ghost left = { λ f. None };

    ghost heard = { λ f. None };

    fn heed(&mut self, note: &Note) -> Answer
        ensures fades { result ≡ Answer.NoMemory ↔ IsTrue (is_last (Some self.old) note.now) }
        ensures fewer { Some self.new ≡ left_after (Some self.old) note.now }
        ensures stays { result ≢ Answer.Leave }
    {
        match note {
            Note::Before(_) | Note::After(_) => fade(&mut self.rest),
            Note::Snapshot(_) => Answer::Stay,
        }
    }

    fn report(&self) -> Result<Vec<u8>, NoMemory>
        ensures { IfOk result (λ b. b.items ≡ []) }
    {
        Ok(Vec::new(self.alloc))
    }
}
