ghost use Rattle.std.specs.Prelude.{◌≡◌, ◌≢◌, ◌<◌, ◌↔◌, IfOk, IfSome, IsTrue, true, None};
ghost use Rattle.arr_notes.specs.Notes.{FitsHeld, FitsNote, changed_held, held_after, is_last, is_one, left_after, one_less};
ghost use Rattle.arr_notes.specs.declared.note.Note.TheVariants.{Before, Snapshot};
ghost use Rattle.mirror_observer.specs.Standing.{IsStanding, held_in};

use crate::seen::text_of;
use crate::tables::Tables;
use arr_notes::{Answer, Change, Note, Observer};
use no_memory::NoMemory;
use std::alloc::Global;
use std::marker::Model;

/// An observer that holds a view in ordered maps, and knows nothing but the notes that it was told.
#[derive(Drop)]
pub struct Mirror {
    alloc: Global,
    tables: Option<Tables>,
    left: Option<u64>,
}

impl Model for Mirror {
    ghost use Rattle.mirror_observer.specs.MirrorState.{MirrorState};
    ghost use Rattle.mirror_observer.specs.Standing.{IsStanding, held_in};

    ghost Value = { MirrorState };

    ghost view = { λ m. record { seen = held_in m.tables; count = m.left } };

    ghost invariant = { λ m. IsStanding m.tables };
}

impl Mirror {
    /// A mirror that holds no view yet; it leaves after `left` notes, or stays.
    ///
    /// # Errors
    ///
    /// There was no memory for it.
    pub fn new(alloc: Global, left: Option<u64>) -> Result<Mirror, NoMemory>
        requires { IfSome left (λ n. 0 < n) }
        ensures tells { IfOk result (λ m. ⟦<Mirror as Observer>⟧.tells m ≡ true) }
        ensures held { IfOk result (λ m. ⟦<Mirror as Observer>⟧.held m ≡ None) }
        ensures left { IfOk result (λ m. ⟦<Mirror as Observer>⟧.left m ≡ left) }
        ensures heard { IfOk result (λ m. ⟦<Mirror as Observer>⟧.heard m ≡ None) }
    {
        Ok(Mirror {
            alloc,
            tables: None,
            left,
        })
    }
}

// Counts a note down.
fn count(left: &mut Option<u64>) -> Answer
    ensures leaves { result ≡ Answer.Leave ↔ IsTrue (is_one left.old) }
    ensures stays { result ≡ Answer.NoMemory → ⊥ }
    ensures counts { left.new ≡ one_less left.old }
{
    match *left {
        None => Answer::Stay,
        Some(n) => {
            *left = Some(n.saturating_sub(1));
            if n == 1 { Answer::Leave } else { Answer::Stay }
        }
    }
}

// What is held after a change.
fn changed(alloc: Global, held: Option<Tables>, change: &Change) -> Result<Option<Tables>, NoMemory>
    requires standing { IsStanding held }
    requires fits { FitsHeld (held_in held) change.now }
    ensures held { IfOk result (λ t. held_in t ≡ changed_held (held_in held) change.now) }
    ensures standing { IfOk result IsStanding }
{
    match held {
        Some(mut tables) => {
            tables.change(alloc, change)?;
            Ok(Some(tables))
        }
        None => Ok(None),
    }
}

impl Observer for Mirror {
    ghost tells = { λ m. true };

    ghost held = { λ m. m.seen };

    ghost left = { λ m. m.count };

    ghost heard = { λ m. None };

    // A change to come is only counted. A snapshot for which there is no memory leaves what was held, and after a change for which
    // there is none no view is held.
    fn heed(&mut self, note: &Note) -> Answer
        requires { FitsNote self.old.seen note.now }
        ensures leaves { result ≡ Answer.Leave ↔ IsTrue (is_last self.old.count note.now) }
        ensures counts { result ≡ Answer.Stay → self.new.count ≡ left_after self.old.count note.now }
        ensures uncounted { (w : _) → note.now ≡ Snapshot w → self.new.count ≡ self.old.count }
        ensures follows { result ≡ Answer.Stay → self.new.seen ≡ held_after self.old.seen note.now }
        ensures before { (i : _) → note.now ≡ Before i → result ≢ Answer.NoMemory }
        ensures kept { (w : _) → note.now ≡ Snapshot w → result ≡ Answer.NoMemory → self.new.seen ≡ self.old.seen }
    {
        match note {
            Note::Before(_) => count(&mut self.left),
            Note::After(change) => match count(&mut self.left) {
                Answer::Stay => {
                    let held = self.tables.take();
                    match changed(self.alloc, held, change) {
                        Ok(tables) => {
                            self.tables = tables;
                            Answer::Stay
                        }
                        Err(NoMemory) => Answer::NoMemory,
                    }
                }
                answer => answer,
            },
            Note::Snapshot(view) => match Tables::of(self.alloc, view) {
                Ok(tables) => {
                    self.tables = Some(tables);
                    Answer::Stay
                }
                Err(NoMemory) => Answer::NoMemory,
            },
        }
    }

    fn report(&self) -> Result<Vec<u8>, NoMemory> {
        match &self.tables {
            Some(tables) => text_of(self.alloc, tables),
            None => Ok(Vec::new(self.alloc)),
        }
    }
}
