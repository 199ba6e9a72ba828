use crate::names::CurveId;
use crate::sequence::Sequence;
use exact_plane::{Point, Segment};

/// A part of a segment, from one of its points to a later one; the segment is a side, 1 to 8, of a numbered curve.
#[derive(Clone, Copy)]
pub struct Piece {
    pub curve: CurveId,
    pub side: u32,
    pub segment: Segment,
    pub from: Point,
    pub to: Point,
}

/// What a layer has at a moment: pieces, and the pinned points, ascending.
#[derive(Drop)]
pub struct Present {
    pub pieces: Sequence<Piece>,
    pub pins: Sequence<Point>,
}
