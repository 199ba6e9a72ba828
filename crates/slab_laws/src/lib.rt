//! The slab model of planar subdivisions: what vertices, edges, cells, faces, cycles, locations, overlays and texts are.
//!
//! The definitions stand in `specs/`. They know no linked records: slabs are the strips between walls, the vertical lines
//! through vertices; a cell is told by its slab and by how many of the slab's edges lie below it; a face is a class of
//! cells that meet across walls. Here are the types that contracts and crates share, and the traits of what
//! is read by name, with what records mean and when they are sound.
#![tactic(auto)]

mod cell;
mod classes;
mod curved;
mod darts;
mod face_lists;
mod faced;
mod layered;
mod moved;
mod names;
mod present;
mod rows;
mod sequence;
mod slab_cell;
mod triangle;

pub use cell::Cell;
pub use classes::{Label, Link};
pub use curved::Curved;
pub use darts::Darts;
pub use face_lists::FaceLists;
pub use faced::Faced;
pub use layered::Layered;
pub use moved::Moved;
pub use names::{CurveId, CycleId, CycleKind, DartId, FaceId, Strategy, VertexId};
pub use present::{Piece, Present};
pub use rows::{CycleRow, ListedDart};
pub use sequence::Sequence;
pub use slab_cell::SlabCell;
pub use triangle::Triangle;
