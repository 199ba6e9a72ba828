ghost use Rattle.std.specs.Prelude.{◌≡◌, ◌<◌, length, map, IfOk};
ghost use Rattle.std.specs.List.{list_any};
ghost use Rattle.exact_plane.specs.PointOrder.{point_cmp};
ghost use Rattle.plane_graphs.specs.Ascending.{IsAscending};
ghost use Rattle.plane_graphs.specs.Fit.{IsFit};
ghost use Rattle.plane_graphs.specs.Graph.{graph as graph_by};
ghost use Rattle.present_graphs.specs.Marks.{mark_of};
ghost use Rattle.present_graphs.specs.Spans.{AreSpans};
ghost use Rattle.slab_laws.specs.Pieces.{present_of};
ghost use Rattle.slab_laws.specs.Skeleton.{same_point};
ghost use Rattle.face_roots.specs.CycleRanks.{is_outer_root, faces_before};
ghost use Rattle.sweep_graphs.specs.Edges.{curve_at, mark_along};
ghost use Rattle.overlay_sweep.specs.GraphRows.{kind_of_root, IsWithin, AreWithin, AreNumberedByPlace, AreMore};
ghost use Rattle.overlay_sweep.specs.LayerGraphs.{IsLayerGraph};

use crate::bare::bare_ranks;
use crate::graphs::LayerGraph;
use exact_plane::{Point, Span};
use face_roots::Root;
use no_memory::NoMemory;
use present_graphs::Mark;
use slab_laws::{CurveId, CycleKind, Present};
use std::alloc::Global;
use subdivision_rows::{RowLists, Rows};
use sweep_graphs::Stretch;

// What the rows of a subdivision have besides the tables of a graph.
#[derive(Drop)]
struct More {
    marks: Vec<Mark>,
    pinned: Vec<bool>,
    kinds: Vec<CycleKind>,
    bare_ranks: Vec<usize>,
    faces: usize,
}

// What is true of all spans, of each of these.
pub(crate) fn laws_of_spans(spans: &[Span])
    ensures { AreSpans spans.now }
{
    for span in spans {
        span.laws();
    }
}

fn curve_of(present: &Present, piece: usize) -> CurveId
    requires { piece < length (present_of present.now).pieces }
    ensures { result.0 ≡ curve_at (present_of present.now) piece }
{
    present.pieces.as_slice()[piece].curve
}

// The edge of a stretch with the curve of its piece.
fn mark_of_stretch(present: &Present, points: &[Point], stretch: &Stretch) -> Mark
    requires { IsWithin (present_of present.now) points.now stretch.now }
    ensures { mark_of result ≡ mark_along (present_of present.now) points.now stretch.now }
{
    Mark {
        low: points[stretch.low],
        high: points[stretch.high],
        curve: curve_of(present, stretch.piece),
    }
}

fn marks_of_stretches(
    alloc: Global,
    present: &Present,
    points: &[Point],
    stretches: &[Stretch],
) -> Result<Vec<Mark>, NoMemory>
    requires { AreWithin (present_of present.now) points.now stretches.now }
    ensures { IfOk result (λ v. map mark_of v.items ≡ map (mark_along (present_of present.now) points.now) stretches.now) }
{
    let mut marks = Vec::with_capacity(alloc, stretches.len())?;
    for stretch in stretches {
        marks.push(mark_of_stretch(present, points, stretch))?;
    }
    Ok(marks)
}

// Whether a point is among points in their order, by one search.
fn is_among(points: &[Point], point: &Point) -> bool
    requires { IsAscending point_cmp points.now }
    ensures { result ≡ list_any (same_point point.now) points.now }
{
    points.binary_search(point).is_ok()
}

// Of each point whether it is among the pins.
fn pinned_among(alloc: Global, points: &[Point], pins: &[Point]) -> Result<Vec<bool>, NoMemory>
    requires { IsAscending point_cmp pins.now }
    ensures { IfOk result (λ v. v.items ≡ map (λ p. list_any (same_point p) pins.now) points.now) }
{
    let mut pinned = Vec::with_capacity(alloc, points.len())?;
    for point in points {
        pinned.push(is_among(pins, point))?;
    }
    Ok(pinned)
}

fn is_outer(root: &Root) -> bool
    ensures { result ≡ is_outer_root root.now }
{
    matches!(root, Root::Outer)
}

fn kinds_of(alloc: Global, roots: &[Root]) -> Result<Vec<CycleKind>, NoMemory>
    ensures { IfOk result (λ v. v.items ≡ map kind_of_root roots.now) }
{
    let mut kinds = Vec::with_capacity(alloc, roots.len())?;
    for root in roots {
        kinds.push(CycleKind::by(is_outer(root)))?;
    }
    Ok(kinds)
}

// How many faces there are: the unbounded one, and one for each outer cycle.
fn count_faces(roots: &[Root]) -> usize
    ensures { result ≡ faces_before roots.now (length roots.now) }
{
    let mut count = 1;
    for root in roots {
        if is_outer(root) {
            count += 1;
        }
    }
    count
}

fn more_of(alloc: Global, present: &Present, graph: &LayerGraph) -> Result<More, NoMemory>
    requires fit { IsFit (present_of present.now) }
    requires graph { IsLayerGraph (present_of present.now) graph.now }
    requires curves { AreNumberedByPlace (present_of present.now) }
    ensures { IfOk result (AreMore (present_of present.now)) }
{
    let points = graph.trace.points.as_slice();
    let marks = marks_of_stretches(alloc, present, points, &graph.stretches)?;
    let pinned = pinned_among(alloc, points, present.pins.as_slice())?;
    let kinds = kinds_of(alloc, &graph.roots)?;
    let ranks = bare_ranks(
        alloc,
        points,
        &graph.spans,
        &graph.orbits,
        &graph.below,
        &graph.ranks,
    )?;
    Ok(More {
        marks,
        pinned,
        kinds,
        bare_ranks: ranks,
        faces: count_faces(&graph.roots),
    })
}

// The rows of all lists together; nothing is copied.
fn rows_with(present: Present, graph: LayerGraph, more: More) -> Rows
    requires fit { IsFit (present_of present) }
    requires graph { IsLayerGraph (present_of present) graph }
    requires more { AreMore (present_of present) more }
    ensures { result.graph ≡ graph_by (present_of present) }
{
    laws_of_spans(&graph.spans);
    let trace = graph.trace;
    let orbits = graph.orbits;
    Rows::of(RowLists {
        points: trace.points.into_vec(),
        pins: present.pins.into_vec(),
        pinned: more.pinned,
        marks: more.marks,
        edges: graph.spans,
        darts: orbits.darts,
        twins: orbits.twins,
        nexts: orbits.nexts,
        in_cycles: orbits.in_cycles,
        kinds: more.kinds,
        cycle_ranks: graph.ranks,
        bare_ranks: more.bare_ranks,
        faces: more.faces,
    })
}

/// The rows of the subdivision by a present (CGAL manual, `Arrangement_2`), from its graph by a sweep. Each piece is of a curve of its
/// own, whose number is the place of the piece. Two searches for each vertex, and one more for each without darts.
///
/// # Errors
///
/// There was no memory.
pub(crate) fn rows_of(alloc: Global, present: Present, graph: LayerGraph) -> Result<Rows, NoMemory>
    requires fit { IsFit (present_of present) }
    requires graph { IsLayerGraph (present_of present) graph }
    requires curves { AreNumberedByPlace (present_of present) }
    ensures graph { IfOk result (λ r. r.graph ≡ graph_by (present_of present)) }
{
    let more = more_of(alloc, &present, &graph)?;
    Ok(rows_with(present, graph, more))
}
