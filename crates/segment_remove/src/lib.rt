//! Removal from an arrangement that is kept in records with the history of its curves: an edge goes from all its curves, or a
//! curve goes from all its edges (CGAL manual, arrangements with history).
//!
//! Each step is told to observers. What goes with a curve takes no memory of its own. Each vertex that is redundant afterwards
//! goes too.
#![tactic(auto)]

mod cuts;
mod drops;
mod ends;
mod release;
mod room;

pub use cuts::{CutError, remove_edge};
pub use drops::{DropError, remove_curve};
