//! Insertion of a segment, or of a path, into an arrangement that is kept in records with the history of its curves, all or nothing.
//!
//! The zone is a plan; memory is taken by the plan and for it, and only then is anything changed. First the meeting points become
//! vertices, then each open part between them becomes an edge, or gets one more curve. Observers are told each of these steps
//! before and after it.
#![tactic(auto)]

mod edges;
mod insertion;
mod parts;
mod paths;
mod vertices;

pub use insertion::{InsertError, insert};
pub use paths::insert_path;
