ghost use Rattle.std.specs.Prelude.{◌≡◌, not, ◌&&◌};
ghost use Rattle.std.specs.List.{count_by};
ghost use Rattle.slab_laws.specs.SpansDrawn.{edge_of, drawn};
ghost use Rattle.slab_laws.specs.Skeleton.{left_of, over};
ghost use Rattle.slab_laws.specs.Slabs.{reaches_left as is_reached_left, reaches_right as is_reached_right, left_cell, right_cell};

use crate::edges::{is_over, reaches_left, reaches_right};
use crate::points::is_left_of;
use exact_plane::{Point, Span};
use slab_laws::SlabCell;

// Whether the edge reaches the point's wall from the left, at the point or below it.
fn is_below_left(edge: &Span, point: &Point) -> bool
    ensures { result ≡ (is_reached_left (edge_of edge.now) point.now && not (over (edge_of edge.now) point.now)) }
{
    reaches_left(edge, point) && !is_over(edge, point)
}

// Whether the edge reaches the point's wall from the right, at the point or below it.
fn is_below_right(edge: &Span, point: &Point) -> bool
    ensures { result ≡ (is_reached_right (edge_of edge.now) point.now && not (over (edge_of edge.now) point.now)) }
{
    reaches_right(edge, point) && !is_over(edge, point)
}

/// The number of the slab on the left of the point's wall, or round the point: how many vertices lie to its left.
pub fn slab_before(points: &[Point], at: &Point) -> usize
    ensures { result ≡ count_by (λ v. left_of v at.now) points.now }
{
    points.iter().filter(|v| is_left_of(v, at)).count()
}

/// The number of the slab on the right of the point's wall.
pub fn slab_after(points: &[Point], at: &Point) -> usize
    ensures { result ≡ count_by (λ v. not (left_of at.now v)) points.now }
{
    points.iter().filter(|v| !is_left_of(at, v)).count()
}

fn place_before(edges: &[Span], at: &Point) -> usize
    ensures { result ≡ count_by (λ s. is_reached_left (edge_of s) at.now && not (over (edge_of s) at.now)) edges.now }
{
    edges.iter().filter(|e| is_below_left(e, at)).count()
}

fn place_after(edges: &[Span], at: &Point) -> usize
    ensures { result ≡ count_by (λ s. is_reached_right (edge_of s) at.now && not (over (edge_of s) at.now)) edges.now }
{
    edges.iter().filter(|e| is_below_right(e, at)).count()
}

/// The cell on the left of the point's wall, or round the point.
pub fn cell_before(points: &[Point], edges: &[Span], at: &Point) -> SlabCell
    ensures { result ≡ left_cell (drawn points.now edges.now) at.now }
{
    SlabCell {
        slab: slab_before(points, at),
        place: place_before(edges, at),
    }
}

/// The cell on the right of the point's wall, or round the point.
pub fn cell_after(points: &[Point], edges: &[Span], at: &Point) -> SlabCell
    ensures { result ≡ right_cell (drawn points.now edges.now) at.now }
{
    SlabCell {
        slab: slab_after(points, at),
        place: place_after(edges, at),
    }
}
