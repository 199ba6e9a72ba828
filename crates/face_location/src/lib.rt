//! The face in which a point lies, by its name in the records, from one look at all edges: for the one that has the point inside,
//! or else for the highest one below it (Fogel, Halperin and Wein: vertical ray shooting).
//!
//! The point looks along the vertical line through it, leant by less than any number, so that vertical edges and vertices
//! below the point are no special case.
#![tactic(auto)]

mod below;
mod face;
mod passing;

pub use below::{EdgeFound, edge_at_or_below};
pub use face::{face_at, face_over};
