//! A plane sweep over the edges of a plane graph.
//!
//! Edges of a plane graph meet at their ends alone, so nothing is looked for that isn't known: the events are the vertices, which
//! are given in their order, and no two edges are tested for a meeting (Fogel, Halperin and Wein: the sweep over the curves of an
//! arrangement that stands already, as for vertical decomposition and batched point location). The front keeps the edges that it
//! meets, from bottom to top. It is the same at each point up to the next vertex, so any point there is told by one search what is
//! directly below it, directly above it, or through it.
#![tactic(auto)]

mod edges;
mod exchange;
mod front;

pub use edges::SweptEdge;
pub use front::{Around, Found, Front};
