//! Boundary cycles by walking along them: the least dart of a cycle, its kind, and whether it has an odd number of
//! darts above a cell, which tells inside from outside.
//!
//! A walk goes once along the cycle and takes no memory. Of the records only the graph is read (`next`, twins, points
//! and lines), so a cycle may be asked while those of cycles and faces are being written. Who asks one cycle for many
//! cells keeps its extent, and then most of them cost two comparisons and no walk.
#![tactic(auto)]

mod asked;
mod ends;
mod extents;
mod least;
mod lengths;
mod parities;

pub use extents::{Extent, extent_of, is_clear_of};
pub use least::least_dart;
pub use lengths::is_no_longer;
pub use parities::{is_odd_beside, is_odd_beside_within, kind, parity, parity_within};
