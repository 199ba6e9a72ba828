//! Predicates of points and edges as the slab model has them, on exact points and spans, and the edges below a point: which of two
//! edges is above the other, and the face over the highest edge below a point.
//!
//! An edge is a span: the part of a line between two points. `specs/` of the model say what each predicate means, by the
//! determinants of the edge's ends; here they are computed from the edge's line, whose numbers are small.
//!
//! A point looks along the vertical line through it, leant by less than any number: an edge is met where the point is between
//! its ends in point order, so that vertical edges and ends on the vertical are no special case (Fogel, Halperin and Wein:
//! vertical ray shooting). `is_above` tells of two edges that are met which is the higher, by one side test. That an edge goes
//! the same way at another as its points do, that the levels of the edges below a point go by it, and that the face of a point
//! is that over the highest edge below it, are laws: their contracts state them, and their bodies, being empty, compute nothing.
#![tactic(auto)]

ghost use Rattle.edge_predicates.specs.Above.{EdgesKeepSides};
ghost use Rattle.edge_predicates.specs.FaceLaws.{FaceIsOverHighest};
ghost use Rattle.edge_predicates.specs.Levels.{LevelsTellHighest};

mod above;
mod cells;
mod edges;
mod order;
mod points;

pub use above::is_above;
pub use cells::{cell_after, cell_before, slab_after, slab_before};
pub use edges::{
    covers, has_inside, is_over, is_slanted, is_under, passes, reaches_left, reaches_right,
};
pub use order::is_below;
pub use points::{is_left_of, is_lower_than, is_on_wall, is_same, precedes};

/// An edge goes the same way at another as each of its points does.
pub fn edges_keep_sides()
    ensures { EdgesKeepSides }
{}

/// Of the edges that a point sees, the highest is the one whose level no other passes.
pub fn levels_tell_highest()
    ensures { LevelsTellHighest }
{}

/// The face of a point on no vertex and no edge is that over the highest edge below it.
pub fn face_is_over_highest()
    ensures { FaceIsOverHighest }
{}
