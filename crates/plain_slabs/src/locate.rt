ghost use Rattle.std.specs.Prelude.{◌≡◌, find};
ghost use Rattle.subdivision_rows.specs.Listed.{subdivision_in};
ghost use Rattle.slab_laws.specs.SpansDrawn.{edge_of};
ghost use Rattle.slab_laws.specs.Skeleton.{same_point, inside};
ghost use Rattle.slab_laws.specs.Subdivision.{holds};

use crate::plain::Plain;
use crate::ranks::rank_of;
use edge_predicates::{cell_before, has_inside, is_same};
use exact_plane::{Point, Span};
use slab_laws::Cell;

// The vertex at a point.
fn vertex_at(points: &[Point], point: &Point) -> Option<Point>
    ensures { result ≡ find (same_point point.now) points.now }
{
    points.iter().copied().find(|v| is_same(point, v))
}

// The edge that has a point inside.
fn edge_at(edges: &[Span], point: &Point) -> Option<Span>
    ensures { result ≡ find (λ s. inside (edge_of s) point.now) edges.now }
{
    edges.iter().copied().find(|e| has_inside(e, point))
}

/// Where a point lies: the vertex equal to it, else the edge that it is inside of, else the face of its cell, by its rank
/// (CGAL manual, point location).
///
/// It looks at all vertices and edges, and takes no memory.
pub fn hold(plain: &Plain, point: &Point) -> Cell
    ensures { result ≡ holds (subdivision_in plain.now) point.now }
{
    let lists = plain.rows.lists();
    if let Some(vertex) = vertex_at(&lists.points, point) {
        return Cell::Vertex(vertex);
    }
    if let Some(edge) = edge_at(&lists.edges, point) {
        return Cell::Edge(edge.lower(), edge.upper());
    }
    let cell = cell_before(&lists.points, &lists.edges, point);
    Cell::Face(rank_of(&plain.faces, plain.labels.least_of(cell)))
}
