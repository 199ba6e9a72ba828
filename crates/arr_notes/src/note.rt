use crate::change::Change;
use crate::intent::Intent;
use crate::view::View;

/// What an observer is told (CGAL manual, `Arr_observer`; a snapshot: this project).
#[derive(Drop)]
pub enum Note {
    /// The change is about to be made.
    Before(Intent),
    /// The change was made.
    After(Change),
    /// The records as they stand, handed to an observer that joins.
    Snapshot(View),
}

/// What an observer answers to a note.
#[derive(Clone, Copy, PartialEq, Eq)]
pub enum Answer {
    /// It stays.
    Stay,
    /// It leaves: the note was the last that it counted.
    Leave,
    /// It found no memory for the note, and can't go on.
    NoMemory,
}
