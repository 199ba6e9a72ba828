//! An observer that keeps a view by the notes that it was told, in ordered maps by name, and reports the text of that view.
//!
//! The maps are vertices, darts and the curves along edges by name, read from a view, and each note's change is made to them. A
//! dart's entry names, beside the dart that follows, the one before it, so that no change looks at more entries than it names: a
//! note costs a logarithm of what is kept for each name that the note writes, and where a cycle comes or goes beside another one,
//! for each dart of that cycle. The report reads cycles and faces as the notes told them.
#![tactic(auto)]

mod changes;
mod curves;
mod darts;
mod face_links;
mod face_steps;
mod faces;
mod fading;
mod fill;
mod fill_faces;
mod links;
mod mirror;
mod moves;
mod orbits;
mod outs;
mod reading;
mod seen;
mod tables;

pub use fading::Fading;
pub use mirror::Mirror;
