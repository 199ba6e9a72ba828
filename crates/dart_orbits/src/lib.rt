//! The darts of a plane graph in lists, round its vertices and along its boundary cycles, in n log n steps.
//!
//! A dart (halfedge) is an edge in one of its two directions. Vertices, edges and darts go by their places in ascending
//! lists, a cycle by its least dart. All darts are sorted once, by their sources and round each source clockwise (CGAL
//! manual, circulator around a vertex); the dart that follows one is then its neighbour in that list. Each boundary cycle
//! is walked once, from its least dart.
#![tactic(auto)]

mod cycles;
mod leads;
mod nexts;
mod orbits;
mod rows;
mod tables;
mod twins;
mod ways;

pub use cycles::{cycles_at, least_darts_among};
pub use nexts::first_around;
pub use orbits::{Orbits, orbits_of};
pub use rows::darts_of;
pub use twins::twins_of;
