//! Point location by a walk up to the point, from face to face (CGAL manual, `Arr_walk_along_line_point_location`).
//!
//! The walk starts in the unbounded face, since this is the one whose name is known, and looks at all darts on its boundary, the
//! outside of each component of the arrangement, as CGAL's walk looks at all holes of the unbounded face first. Isolated vertices it
//! doesn't look at: whether one is at the point, the records tell by its hash. Each look is counted, and no boundary is looked at
//! twice. A walk that comes from elsewhere, as from a landmark, goes on up from an edge by `climb`, and looks
//! at darts as this one does.
#![tactic(auto)]

mod found;
mod highest;
mod passage;
mod round;
mod walk;

pub use found::{EdgeBelow, Found, found_at_dart, is_told_at_twin};
pub use highest::Highest;
pub use passage::{Passage, passage_of};
pub use walk::{climb, climb_free, face_over, locate};
