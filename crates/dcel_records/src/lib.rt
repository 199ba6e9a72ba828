//! The records of a doubly-connected edge list: vertices and darts (halfedges) by name, with the writers of edges.
//!
//! Twins stay twins at every call, each vertex knows one of the darts out of it, and the cycle of each dart has a record, with a box
//! that the dart is in.
//! The crates above keep the order of darts round vertices, the cycles and the faces.
#![tactic(auto)]

mod areas;
mod bare;
mod counts;
mod cycles;
mod face_laws;
mod facing;
mod keys;
mod links;
mod listing;
mod pairs;
mod ranks;
mod reading;
mod records;
mod rows;
mod spot;
mod table;
mod vertex_map;
mod vertices;

pub use counts::RecordCounts;
pub use ranks::RankKey;
pub use records::{Records, Room};
pub use spot::{Met, Spot};
