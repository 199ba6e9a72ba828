//! The exact plane: points, segments, paths, lines, spans and directions, with predicates that are exact in 128 bits.
//!
//! A point has homogeneous coordinates; a segment has whole ends, and its crossings with others are points; a path is a
//! polyline of up to eight segments. The predicates are those of an exact geometry kernel (Fogel, Halperin and Wein): on which side of a line a point is, which
//! of two lines is higher at an abscissa or steeper, what two segments have in common, which of two directions is met
//! first.
#![tactic(auto)]

mod bounds;
mod boxes;
mod direction;
mod line;
mod meets;
mod path;
mod place;
mod point;
mod segment;
mod sides;
mod slopes;
mod spans;
mod text;
mod whole_parts;

pub use bounds::{MAX_COORDINATE, MAX_SIDES, WEIGHT_LIMIT};
pub use direction::{Direction, next_order, turn_order};
pub use line::{Line, line_of};
pub use meets::{Meet, meeting, span_meeting};
pub use path::{Path, PathError};
pub use point::{Point, PointError};
pub use segment::{Segment, SegmentError};
pub use sides::{Sign, above_at, orientation, side};
pub use slopes::slope_order;
pub use spans::Span;
pub use whole_parts::{BoundingBox, WholeParts};
