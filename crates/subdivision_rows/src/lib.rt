//! The rows of a subdivision of the plane: its vertices, edges, darts, cycles and faces in ascending lists, to be read by name.
//!
//! Anything's name is its place in its list, a face's is its rank. However the lists were made, they are those of the graph's
//! subdivision as the slab model has it; read by name they are a sound view of it (`specs/Listed.antt`). With what each of two
//! layers adds, the curves along each edge and the rank of the layer's face that holds each face, they are an overlay.
#![tactic(auto)]

mod both;
mod both_records;
mod layer_table;
mod lists;
mod records;
mod rows;

pub use both::Both;
pub use layer_table::{LayerTable, arrange_curves};
pub use lists::RowLists;
pub use rows::Rows;
