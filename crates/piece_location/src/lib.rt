//! Where a point lies, by the index over the pieces of a layer: the vertex at the point, else the edge of the highest piece at or below it, or the face
//! over this edge.
//!
//! The point looks down along the vertical through it, leant by less than any number (`edge_predicates`). Pieces cross where edges don't: so which of two
//! pieces is the higher is told by the heights of their lines at the point's abscissa, and where these are the same by the slopes. The highest piece has
//! an edge below the point, and this is the highest edge: these are laws, in `proofs/Located.antt`. Compared with a walk from face to face
//! (`locate_walk`), no boundary of a face is looked at (de Berg and others: windowing; CGAL manual, vertical ray shooting).
#![tactic(auto)]

mod heights;
mod highest;
mod lies;
mod spots;

pub use spots::locate;
