//! The faces of a subdivision in lists, such as an overlay: the one that a point lies in, a dart on each of its boundaries, and its isolated
//! vertices (CGAL manual, `outer_ccb`, `inner_ccbs`, `isolated_vertices`).
//!
//! The lists keep none of these by face, so each call looks once at all darts, or at all vertices.
#![tactic(auto)]

mod boundaries;
mod isolated;
mod location;

pub use boundaries::{boundaries_of, darts_on_boundaries, is_kind};
pub use isolated::isolated_in;
pub use location::{face_at, locate};
