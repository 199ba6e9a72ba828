ghost use Rattle.std.specs.Prelude.{◌≡◌, ◌<◌, length};
ghost use Rattle.std.specs.Ordering.{is_lt};
ghost use Rattle.plane_graphs.specs.Ascending.{IsAscending, Member};
ghost use Rattle.sweep_graphs.specs.Edges.{ends_of, ends_cmp, stretch_cmp};
ghost use Rattle.overlay_sweep.specs.PiecesAlong.{IsPieceAlong, IsAlongSome};

use crate::curves::{count_along, is_along};
use sweep_graphs::{EdgeEnds, Stretch};

fn comes_before(stretch: &Stretch, edge: &EdgeEnds) -> bool
    ensures { result ≡ is_lt (ends_cmp (ends_of stretch.now) edge.now) }
{
    let ends = EdgeEnds {
        low: stretch.low,
        high: stretch.high,
    };
    ends < *edge
}

/// A piece that runs along an edge, the first of those, by one search: its line is that of the edge. The stretches are in their order,
/// as `stretches_by_edges` answers them, and one of them runs along the edge.
pub fn piece_along(stretches: &[Stretch], edge: &EdgeEnds) -> usize
    requires ascend { IsAscending stretch_cmp stretches.now }
    requires along { IsAlongSome stretches.now edge.now }
    ensures { IsPieceAlong stretches.now edge.now result }
{
    let first = stretches.partition_point(|stretch| comes_before(stretch, edge));
    stretches[first].piece
}

// The same, where the first of these stretches should be at the place.
pub(crate) fn piece_from(stretches: &[Stretch], place: usize, edge: &EdgeEnds) -> usize
    requires ascend { IsAscending stretch_cmp stretches.now }
    requires along { IsAlongSome stretches.now edge.now }
    ensures { IsPieceAlong stretches.now edge.now result }
{
    match stretches.get(place) {
        Some(stretch) if is_along(stretch, edge) => stretch.piece,
        _ => piece_along(stretches, edge),
    }
}

// Where the stretches along the next edge should begin. What a wrong place costs is time alone.
pub(crate) fn place_after(stretches: &[Stretch], place: usize, edge: &EdgeEnds) -> usize {
    let (_, rest) = stretches.split_at(place.min(stretches.len()));
    place.saturating_add(count_along(rest, edge))
}
