ghost use Rattle.std.specs.Prelude.{◌≡◌, map, IfOk};
ghost use Rattle.std.specs.List.{list_any};
ghost use Rattle.plane_graphs.specs.Fit.{IsFit};
ghost use Rattle.plane_graphs.specs.Graph.{graph, edges as edges_in};
ghost use Rattle.plane_graphs.specs.Plane.{IsPlane};
ghost use Rattle.slab_laws.specs.SpansDrawn.{edge_of};
ghost use Rattle.slab_laws.specs.Pieces.{present_of};
ghost use Rattle.slab_laws.specs.Skeleton.{same_point};
ghost use Rattle.subdivision_rows.specs.Listed.{subdivision_by, subdivision_in, view_of, faces_of, AreLinesOf};
ghost use Rattle.slab_laws.specs.FacesSound.{IsSound};
ghost use Rattle.subdivision_rows.specs.GraphInMemory.{graph_in, drawing_in};

use crate::orbits::orbits_of;
use crate::plain::Plain;
use crate::regions::regions_of;
use edge_predicates::is_same;
use exact_plane::{Point, Span};
use no_memory::NoMemory;
use present_graphs::{Mark, edges_of, marks_of, vertices_of};
use slab_laws::Present;
use std::alloc::{AllocError, Global};
use subdivision_rows::{RowLists, Rows};

fn is_among(pins: &[Point], point: &Point) -> bool
    ensures { result ≡ list_any (same_point point.now) pins.now }
{
    pins.iter().any(|pin| is_same(point, pin))
}

// Of each point whether it is pinned.
fn pinned_among(alloc: Global, points: &[Point], pins: &[Point]) -> Result<Vec<bool>, AllocError>
    ensures { IfOk result (λ v. v.items ≡ map (λ p. list_any (same_point p) pins.now) points.now) }
{
    points
        .iter()
        .map(|point| is_among(pins, point))
        .collect(alloc)
}

fn copy_points(alloc: Global, points: &[Point]) -> Result<Vec<Point>, AllocError>
    ensures { IfOk result (λ v. v.items ≡ points.now) }
{
    points.iter().copied().collect(alloc)
}

// The subdivision by a graph.
pub(crate) fn plain_of(
    alloc: Global,
    points: Vec<Point>,
    marks: Vec<Mark>,
    pins: Vec<Point>,
    edges: Vec<Span>,
) -> Result<Plain, NoMemory>
    requires plane { IsPlane (graph_in points.items marks.items pins.items) }
    requires lines { AreLinesOf (drawing_in points.items marks.items pins.items edges.items) }
    requires edges { map edge_of edges.items ≡ edges_in (graph_in points.items marks.items pins.items) }
    ensures { IfOk result (λ s. s ≡ drawing_in points.items marks.items pins.items edges.items) }
{
    let pinned = pinned_among(alloc, &points, &pins)?;
    let orbits = orbits_of(alloc, &points, &edges)?;
    let regions = regions_of(alloc, &points, &edges, &orbits)?;
    let faces = regions.faces.len();
    let rows = Rows::of(RowLists {
        points,
        pins,
        pinned,
        marks,
        edges,
        darts: orbits.darts,
        twins: orbits.twins,
        nexts: orbits.nexts,
        in_cycles: orbits.in_cycles,
        kinds: regions.kinds,
        cycle_ranks: regions.cycle_ranks,
        bare_ranks: regions.bare_ranks,
        faces,
    });
    Ok(Plain {
        rows,
        labels: regions.labels,
        faces: regions.faces,
    })
}

/// The subdivision of the plane by a present: by its vertices, its edges with their curves and lines, its pins, and the
/// cycles and faces that they make.
///
/// It computes everything afresh, by the definitions of the slab model.
///
/// # Errors
///
/// There was no memory for the subdivision or for a table on the way.
pub fn subdivide(alloc: Global, present: &Present) -> Result<Plain, NoMemory>
    requires { IsFit (present_of present.now) }
    ensures graph { IfOk result (λ s. s.graph ≡ graph (present_of present.now)) }
    ensures subdivision { IfOk result (λ s. subdivision_in s ≡ subdivision_by (graph (present_of present.now))) }
    ensures lines { IfOk result AreLinesOf }
    ensures stands { IfOk result (λ s. IsSound (view_of s) (faces_of s)) }
{
    let points = vertices_of(alloc, present)?;
    let marks = marks_of(alloc, present, &points)?;
    let edges = edges_of(alloc, present, &marks)?;
    let pins = copy_points(alloc, present.pins.as_slice())?;
    let plain = plain_of(alloc, points, marks, pins, edges)?;
    Ok(plain)
}
