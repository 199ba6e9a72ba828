ghost use Rattle.slab_laws.specs.Pieces.{piece_of};
ghost use Rattle.piece_location.specs.Lies.{IsLie};

use edge_predicates::precedes;
use exact_plane::{Point, Sign, orientation};
use slab_laws::Piece;

/// How a piece lies to a point.
#[derive(Clone, Copy)]
pub(crate) enum Lie {
    /// The point is between its ends and over it: it sees it below.
    Below,
    /// The point is between its ends and on it.
    Through,
    /// Neither.
    Apart,
}

/// How a piece lies to a point. Its ends are compared first; no line is reckoned.
pub(crate) fn lie_of(piece: &Piece, point: &Point) -> Lie
    ensures { IsLie point.now (piece_of piece.now) result }
{
    if !precedes(&piece.from, point) || !precedes(point, &piece.to) {
        return Lie::Apart;
    }
    match orientation(&piece.segment, point) {
        Sign::Minus => Lie::Apart,
        Sign::Zero => Lie::Through,
        Sign::Plus => Lie::Below,
    }
}
