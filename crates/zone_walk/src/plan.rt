use dcel_records::{Room, Spot};
use exact_plane::Point;
use slab_laws::{DartId, Sequence};

/// A point where a segment meets a graph, and where it lies there.
#[derive(Clone, Copy)]
pub struct Meeting {
    pub point: Point,
    pub spot: Spot,
}

/// The plan of an insertion.
#[derive(Drop)]
pub struct ZonePlan {
    /// The vertices on the segment once it is inserted, ascending, each with its spot before that.
    pub vertices: Sequence<Meeting>,
    /// The spots of the open parts between neighbours: the edge that they go along, or the face.
    pub between: Sequence<Spot>,
    /// The edges that the segment overlaps, each by its dart from the lower to the upper end, in order.
    pub overlapped: Sequence<DartId>,
    /// Room in which all steps of the insertion fit.
    pub room: Room,
}
