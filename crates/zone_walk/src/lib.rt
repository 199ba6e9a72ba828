//! The zone of a segment: what an insertion meets of a graph, as a plan that changes nothing (Fogel, Halperin and Wein, the
//! zone of a curve).
//!
//! The walk goes from each meeting point to the next. The darts round a vertex, or the edge that has the point inside, tell
//! whether the part between lies along an edge or in which face; in a face that it hasn't visited it looks once at the
//! boundary, which has all meeting points that the segment reaches through the face. Looks are counted.
//!
//! A part of the segment between two meeting points lies in a face that is told by what is at either end: at a vertex by the
//! place of the direction round it, inside an edge by the side on which the part leaves it. That the face told is the part's, and
//! that what a part ends at is on this face's boundary, are laws: their contracts state them, and their bodies, being empty,
//! compute nothing.
#![tactic(auto)]

ghost use Rattle.zone_walk.specs.PartLaws.{FacesAreTold, PartsHaveAFace, PartsHaveOneFace, PartsNameOneFace, FirstReachedIsOnBoundary};

mod edge_points;
mod found;
mod plan;
mod records_sight;
mod search;
mod sight;
mod source;
mod walk;

pub use plan::{Meeting, ZonePlan};
pub use sight::{Seen, Sight};
pub use source::{MeetingSource, NoSource};
pub use walk::{zone, zone_by};

/// What is told towards a point is told towards every point before it, and the face told is there.
pub fn faces_are_told()
    ensures { FacesAreTold }
{}

/// A part that meets nothing lies in a face.
pub fn parts_have_a_face()
    ensures { PartsHaveAFace }
{}

/// A part that meets nothing lies in the face that is told at an end of it.
pub fn parts_have_one_face()
    ensures { PartsHaveOneFace }
{}

/// Both ends of a part that meets nothing name one face.
pub fn parts_name_one_face()
    ensures { PartsNameOneFace }
{}

/// What a part that meets nothing ends at is on the boundary of the face in which it lies.
pub fn first_reached_is_on_boundary()
    ensures { FirstReachedIsOnBoundary }
{}
