//! Pins of an arrangement that is kept in records with the history of its curves: a pinned point stays a vertex until it is
//! unpinned (this project).
//!
//! An edge is split at a pin, and two edges become one without it (CGAL manual, `split_edge` and `merge_edge`); and all of an
//! arrangement goes. Each step of an accepted edit is told to observers, before it and after it; of a refused one nothing is
//! (CGAL manual, `Arr_observer`).
#![tactic(auto)]

mod clear_all;
mod merge;
mod pins;
mod split;

pub use clear_all::clear;
pub use merge::{MergeError, merge_edge};
pub use pins::{NotPinned, PinError, pin, unpin};
pub use split::{SplitError, split_edge};
