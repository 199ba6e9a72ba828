//! The slab engine: the subdivision of the plane by a present, or by the graph of records that are read by name, computed
//! from scratch, and where a point lies in it.
//!
//! Of two layers it computes their overlay: the subdivision by both, and what this tells of each.
//!
//! It is slow and plain: every part of the answer is computed by the definition. Slabs, cells and faces are those of the
//! slab model; what is answered is proved to be the model's subdivision and the model's location, and its lists, read by name,
//! to be a sound view of it (crate `subdivision_rows`). It is the yardstick of every faster engine.
//!
//! The walls are gone through in the order of their points. The places of the edges in the slab at hand stand in a table; from
//! slab to slab each place changes by the few edges that begin or end in between, so no two edges that go on are compared
//! again. The least member of each class that links make is found by repeated passes over the links. Other cells are found by
//! counting the edges below them, and the kind of a cycle by the parity of its darts above a cell; slabs are not sorted.
#![tactic(auto)]

mod build;
mod cell_labels;
mod cells;
mod counts;
mod faces;
mod labels;
mod layer_cells;
mod layer_table;
mod leads;
mod left_cells;
mod links;
mod locate;
mod names;
mod nexts;
mod numbers;
mod orbits;
mod outer;
mod overlay;
mod places;
mod plain;
mod ranks;
mod reaches;
mod records;
mod regions;
mod turns;
mod walls;

pub use build::subdivide;
pub use counts::{Counts, count};
pub use locate::hold;
pub use names::subdivide_of;
pub use overlay::subdivide_both;
pub use plain::Plain;
