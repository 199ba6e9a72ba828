//! Vertices, darts, edges, cycles and faces of what is read by name, in the order in which a text writes them.
//!
//! Vertices go by their points, darts by source, then by target, edges by their lower and upper ends. Names needn't be in
//! these orders, so the names are collected and sorted by the points that they stand for. A cycle goes by the first of its
//! darts in a given order, a face by its rank: the unbounded face has rank 0, the others follow in the order of their outer
//! cycles.
#![tactic(auto)]

mod bodies;
mod cycles;
mod darts;
mod edges;
mod ranks;
mod tables;
mod vertices;

pub use bodies::Bodies;
pub use cycles::{CycleKey, cycles_of};
pub use darts::{DartKey, darts_in_order, is_forward};
pub use edges::edges_in_order;
pub use ranks::{Ranks, ranks_of};
pub use tables::{read_at, write_at};
pub use vertices::{VertexKey, points_of, vertices_in_order};
