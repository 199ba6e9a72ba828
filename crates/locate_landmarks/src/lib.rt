//! Point location from landmarks, which lie in a grid over the plane (CGAL manual, `Arr_landmarks_point_location`).
//!
//! The cells of 49 landmarks are found once, by the walk along a vertical. A query goes from the landmark nearest to it along the
//! horizontal to its own abscissa, and then along the vertical, from face to face over their boundaries. Along the horizontal it looks
//! at each boundary for the last crossing alone, of which no point is made, and ends by a count; along the vertical for what has the
//! point, for the lowest edge above it, and for the highest edge below it; it is there where the face lies over that edge. So its answer
//! never rests on the way that it took.
//!
//! The horizontal is raised by less than any number, and the vertical is leant, so that edges along them, and vertices on them, are no
//! special case.
#![tactic(auto)]

mod above;
mod course;
mod crossing;
mod descent;
mod faces;
mod grid;
mod horizontal;
mod landmarks;
mod round;
mod survey;
mod walk;

pub use grid::landmark_of;
pub use landmarks::Landmarks;
