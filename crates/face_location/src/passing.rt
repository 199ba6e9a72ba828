ghost use Rattle.std.specs.Prelude.{◌≡◌, ◌&&◌};
ghost use Rattle.exact_plane.specs.Sign.{sign_of};
ghost use Rattle.slab_laws.specs.Skeleton.{precedes as comes_before, side as side_number};
ghost use Rattle.slab_laws.specs.Sound.{IsGraphSound, edge_in};
ghost use Rattle.slab_laws.specs.View.{HasDart};
ghost use Rattle.face_location.specs.Passing.{IsPassing, IsSpanningDart};

use edge_predicates::precedes;
use exact_plane::{Point, Sign, side};
use slab_laws::{DartId, Darts};
use sound_views::span_of;

/// How an edge lies to a point; it is told by its dart from the lower to the upper end.
#[derive(Clone, Copy)]
pub enum Passing {
    /// The point sees it below.
    Below(DartId),
    /// It has the point inside.
    Through(DartId),
    /// Neither.
    Apart,
}

// Whether a point comes after one and before another.
fn is_between(low: &Point, point: &Point, high: &Point) -> bool
    ensures { result ≡ (comes_before low.now point.now && comes_before point.now high.now) }
{
    precedes(low, point) && precedes(point, high)
}

// The dart along the same edge from its lower to its upper end, where the point is between these. Two comparisons rule out an
// edge with both ends on one side of the point, as nearly all edges have.
fn spanning_dart<R: Darts>(records: &R, dart: DartId, point: &Point) -> Option<DartId>
    requires sound { IsGraphSound (R.graph records.now) }
    requires dart { HasDart (R.graph records.now) dart }
    ensures { IsSpanningDart (R.graph records.now) dart point.now result }
{
    let twin = records.twin(dart);
    let source = records.point(records.source(dart));
    let target = records.point(records.source(twin));
    point.laws();
    if precedes(&source, point) {
        if precedes(point, &target) {
            return Some(dart);
        }
        return None;
    }
    if is_between(&target, point, &source) {
        return Some(twin);
    }
    None
}

// The side of a dart's edge on which a point is, gone from its lower to its upper end.
fn side_of_edge<R: Darts>(records: &R, dart: DartId, point: &Point) -> Sign
    requires sound { IsGraphSound (R.graph records.now) }
    requires dart { HasDart (R.graph records.now) dart }
    ensures { result ≡ sign_of (side_number (edge_in (R.graph records.now) dart) point.now) }
{
    let span = span_of(records, dart);
    span.laws();
    side(&span.line(), point)
}

/// How the edge of a dart lies to a point. Its ends are compared first, which rules out nearly all edges; the side of the line is
/// told for the others.
pub fn passing_of<R: Darts>(records: &R, dart: DartId, point: &Point) -> Passing
    requires sound { IsGraphSound (R.graph records.now) }
    requires dart { HasDart (R.graph records.now) dart }
    ensures { IsPassing (R.graph records.now) point.now dart result }
{
    let Some(forward) = spanning_dart(records, dart, point) else {
        return Passing::Apart;
    };
    match side_of_edge(records, forward, point) {
        Sign::Minus => Passing::Apart,
        Sign::Zero => Passing::Through(forward),
        Sign::Plus => Passing::Below(forward),
    }
}
