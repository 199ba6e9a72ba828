//! The edges of a layer with the ranks of the faces above them, read off its records, as an overlay takes them.
//!
//! One look at each dart, and the rank of each face: the one that it was given, where the records keep it, or else its place among the
//! outer cycles, which are sorted once. So no sweep looks for the faces that the layer has already (Fogel, Halperin and Wein: an overlay
//! takes the faces of both maps from their records).
#![tactic(auto)]

mod edges;
mod keys;
mod ranks;

pub use edges::own_edges;
