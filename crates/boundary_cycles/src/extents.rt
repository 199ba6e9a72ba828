ghost use Rattle.std.specs.Prelude.{◌≡◌, ◌||◌, cond};
ghost use Rattle.slab_laws.specs.Skeleton.{left_of, HasWeight};
ghost use Rattle.slab_laws.specs.Sound.{IsGraphSound};
ghost use Rattle.slab_laws.specs.View.{HasDart};
ghost use Rattle.boundary_cycles.specs.Extents.{Covers, HasWeights, IsExtent};

use edge_predicates::is_left_of;
use exact_plane::Point;
use slab_laws::{DartId, Darts};

/// The abscissas between which a cycle lies: a point with the least of its vertices' abscissas, and one with the
/// greatest (this project).
#[derive(Clone, Copy)]
pub struct Extent {
    pub left: Point,
    pub right: Point,
}

// The extent of one point.
fn extent_at(point: Point) -> Extent
    ensures wide { HasWeights result }
    ensures covers { Covers result point }
{
    point.laws();
    Extent {
        left: point,
        right: point,
    }
}

// The first point where it is on the left of the second, else the second.
fn left_one(point: Point, other: Point) -> Point
    ensures { result ≡ cond (left_of point other) point other }
{
    if is_left_of(&point, &other) {
        point
    } else {
        other
    }
}

// The first point where it is on the right of the second, else the second.
fn right_one(point: Point, other: Point) -> Point
    ensures { result ≡ cond (left_of other point) point other }
{
    if is_left_of(&other, &point) {
        point
    } else {
        other
    }
}

// The extent with one more point.
fn widened(extent: Extent, point: Point) -> Extent
    requires { HasWeights extent }
    ensures wide { HasWeights result }
    ensures covers { Covers result point }
    ensures keeps { (q : _) → HasWeight q → Covers extent q → Covers result q }
{
    point.laws();
    Extent {
        left: left_one(point, extent.left),
        right: right_one(point, extent.right),
    }
}

/// The abscissas between which the cycle of a dart lies, for a caller who will ask it for many cells (CGAL manual,
/// bounding box, of which this is the breadth).
///
/// It goes along the cycle once, and takes no memory.
pub fn extent_of<R: Darts>(records: &R, d: DartId) -> Extent
    requires sound { IsGraphSound (R.graph records.now) }
    requires dart { HasDart (R.graph records.now) d }
    ensures { IsExtent (R.graph records.now) d result }
{
    let mut extent = extent_at(records.point(records.source(d)));
    let mut dart = d;
    'cycle: loop {
        extent = widened(extent, records.point(records.source(dart)));
        dart = records.next(dart);
        if dart == d {
            return extent;
        }
    }
}

/// Whether the vertical through a point is on the left of the whole cycle, or on its right: two comparisons (this
/// project). No dart of the cycle is above a cell beside such a vertical.
pub fn is_clear_of(extent: &Extent, point: &Point) -> bool
    ensures { result ≡ (left_of point.now extent.now.left || left_of extent.now.right point.now) }
{
    is_left_of(point, &extent.left) || is_left_of(&extent.right, point)
}
