ghost use Rattle.std.specs.Prelude.{◌≡◌, ◌&&◌};
ghost use Rattle.std.specs.List.{list_any};
ghost use Rattle.slab_laws.specs.Skeleton.{lower_than, on_wall};
ghost use Rattle.slab_laws.specs.Faces.{is_lowest};
ghost use Rattle.plain_slabs.specs.Walls.{is_covered, is_open_corner};

use edge_predicates::{covers, is_lower_than, is_on_wall};
use exact_plane::{Point, Span};

// Whether one of the points is below the point, on its wall.
fn has_lower(points: &[Point], point: &Point) -> bool
    ensures { result ≡ list_any (λ u. on_wall u point.now && lower_than u point.now) points.now }
{
    points
        .iter()
        .any(|u| is_on_wall(u, point) && is_lower_than(u, point))
}

// Whether the point stands for its wall: none of the points on the wall is lower.
pub(crate) fn begins_wall(points: &[Point], point: &Point) -> bool
    ensures { result ≡ is_lowest points.now point.now }
{
    !has_lower(points, point)
}

// Whether a vertical edge goes up from the point, or through it.
fn is_covered(edges: &[Span], point: &Point) -> bool
    ensures { result ≡ is_covered edges.now point.now }
{
    edges.iter().any(|e| covers(e, point))
}

// Whether the point is on the wall, and the cells on both sides meet just above it.
pub(crate) fn is_open_corner(edges: &[Span], point: &Point, wall: &Point) -> bool
    ensures { result ≡ is_open_corner edges.now point.now wall.now }
{
    is_on_wall(point, wall) && !is_covered(edges, point)
}
