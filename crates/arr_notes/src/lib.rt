//! What is told of the changes of an arrangement: what is about to change, by points, and what has changed, by names; and what
//! each change makes of a view.
//!
//! Views are tables by name (`specs/NamedRows.antt`); the changes of one vertex or pair of darts stand in
//! `specs/ViewChanges.antt`, those that are told in `specs/Step.antt`.
#![tactic(auto)]

ghost use Rattle.arr_notes.specs.ViewLaws.{ReadViewsAreSound};

mod change;
mod drawing;
mod faces;
mod intent;
mod note;
mod observer;
mod view;
mod walks;

pub use change::Change;
pub use faces::{Linked, Unlinked};
pub use intent::Intent;
pub use note::{Answer, Note};
pub use observer::Observer;
pub use view::{CycleRow, DartRow, EdgeRow, VertexRow, View};
pub use walks::{cycle_names, dart_names, face_names, vertex_names};

/// Sound records with the curves of their edges are a sound view. This is a law: the body, being empty, computes nothing.
pub fn read_views_are_sound()
    ensures { ReadViewsAreSound }
{}
