//! One more edge between two vertices of the records, in its place round both of them.
//!
//! Memory was reserved before, so that a link can't fail; the order of darts round a vertex is told by the dart that comes
//! before the new one.
//!
//! `link_with_faces` answers the names of what came, and what became of cycles and faces; `link_in_face`, `link_at_one` and
//! `link_at_two` tell it by a change.
//!
//! `rotation_order` finds places by directions; the proofs say that a place by directions is one by that order.
#![tactic(auto)]

mod faces;
mod links;
mod splitting;
mod told;

pub use faces::{FacedLink, link_with_faces};
pub use links::LinkNames;
pub use told::{link_at_one, link_at_two, link_in_face};
