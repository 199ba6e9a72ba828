use exact_plane::Point;
use slab_laws::Sequence;

/// What a sweep comes to at one point: an end of a piece, a pin, or a common point of two pieces of different lines, with the
/// pieces that it is on. These are told by their places in the list that the sweep was given, and each list ascends.
#[derive(Drop)]
pub struct Event {
    /// The point.
    pub point: Point,
    /// The pieces that end there.
    pub ends: Sequence<usize>,
    /// The pieces that start there.
    pub starts: Sequence<usize>,
    /// The pieces that have it strictly between their ends.
    pub passes: Sequence<usize>,
}
