ghost use Rattle.std.specs.Prelude.{◌≡◌, ◌<◌, length, map, IfOk};
ghost use Rattle.exact_plane.specs.Point.{Point, IsPoint};
ghost use Rattle.plane_graphs.specs.Ascending.{IsAscending, Member};
ghost use Rattle.plane_graphs.specs.Fit.{IsFit};
ghost use Rattle.present_graphs.specs.Spans.{span_of_piece, AreSpans};
ghost use Rattle.slab_laws.specs.Pieces.{present_of};
ghost use Rattle.slab_laws.specs.SpansDrawn.{edge_of};
ghost use Rattle.sweep_events.specs.Places.{piece_at};
ghost use Rattle.sweep_graphs.specs.Edges.{stretch_cmp, edge_between};
ghost use Rattle.sweep_graphs.specs.TraceLaws.{IsTraceOf};
ghost use Rattle.sweep_graphs.specs.Traces.{point_at, IsTrace};
ghost use Rattle.overlay_sweep.specs.EdgeRows.{ends_rows};
ghost use Rattle.overlay_sweep.specs.EdgeSpans.{AreOnLines, AreAlongSome};
ghost use Rattle.overlay_sweep.specs.LayerGraphs.{IsLayerGraph};
ghost use Rattle.overlay_sweep.specs.PiecesAlong.{IsAlongSome};

use crate::pieces::{piece_from, place_after};
use crate::roots::{cycle_ranks, roots_of};
use dart_orbits::{Orbits, orbits_of};
use exact_plane::{Line, Point, Span};
use face_roots::Root;
use no_memory::NoMemory;
use present_graphs::spans_of;
use slab_laws::{ListedDart, Present};
use std::alloc::Global;
use sweep_graphs::{
    EdgeEnds, Stretch, Trace, edges_along, edges_below, stretches_by_edges, trace_of,
};

/// The plane graph of a present by one sweep, with its cycles and the ranks of their faces, all by places.
#[derive(Drop)]
pub struct LayerGraph {
    /// What the sweep left: vertices, stretches, and what is directly below each vertex.
    pub trace: Trace,
    /// The stretches in the order of their edges, those along one edge by their pieces.
    pub stretches: Vec<Stretch>,
    /// The edges that they run along, in their order, each once.
    pub edges: Vec<EdgeEnds>,
    /// The same edges with their points and lines.
    pub spans: Vec<Span>,
    /// Of each vertex the edge directly below it.
    pub below: Vec<Option<EdgeEnds>>,
    /// The darts and their cycles.
    pub orbits: Orbits,
    /// Of each cycle what tells its face.
    pub roots: Vec<Root>,
    /// Of each cycle the rank of its face.
    pub ranks: Vec<usize>,
}

// What is true of all points, of each of these.
fn laws_of_each(points: &[Point])
    ensures { (r : Point) → Member r points.now → IsPoint r }
{
    for point in points {
        point.laws();
    }
}

// What a sweep leaves of a present, by the spans of its pieces.
fn trace_of_present(alloc: Global, present: &Present, pieces: &[Span]) -> Result<Trace, NoMemory>
    requires fit { IsFit (present_of present.now) }
    requires pieces { pieces.now ≡ map span_of_piece (present_of present.now).pieces }
    requires spans { AreSpans pieces.now }
    ensures trace { IfOk result (IsTrace (map span_of_piece (present_of present.now).pieces) (present_of present.now).pins) }
    ensures graph { IfOk result (IsTraceOf (present_of present.now)) }
{
    let pins = present.pins.as_slice();
    laws_of_each(pins);
    let trace = trace_of(alloc, pieces, pins)?;
    Ok(trace)
}

fn vertex_at(points: &[Point], vertex: usize) -> Point
    requires { vertex < length points.now }
    ensures { result ≡ point_at points.now vertex }
{
    points[vertex]
}

// The line of the piece at a place.
fn line_at(pieces: &[Span], piece: usize) -> Line
    requires { piece < length pieces.now }
    ensures { result ≡ (piece_at pieces.now piece).line }
{
    pieces[piece].line()
}

// An edge as a part of the line of a piece that runs along it, whose stretch should be at the place.
fn span_along(
    pieces: &[Span],
    points: &[Point],
    stretches: &[Stretch],
    place: usize,
    edge: &EdgeEnds,
) -> Span
    requires ascend { IsAscending stretch_cmp stretches.now }
    requires lines { AreOnLines pieces.now points.now stretches.now }
    requires along { IsAlongSome stretches.now edge.now }
    ensures { edge_of result ≡ edge_between points.now edge.now }
{
    let line = line_at(pieces, piece_from(stretches, place, edge));
    let low = vertex_at(points, edge.low);
    let high = vertex_at(points, edge.high);
    Span::between(low, high, line)
}

// Edges with their points and lines. It goes through the edges and their stretches in step.
fn spans_along(
    alloc: Global,
    pieces: &[Span],
    points: &[Point],
    stretches: &[Stretch],
    edges: &[EdgeEnds],
) -> Result<Vec<Span>, NoMemory>
    requires ascend { IsAscending stretch_cmp stretches.now }
    requires lines { AreOnLines pieces.now points.now stretches.now }
    requires along { AreAlongSome stretches.now edges.now }
    ensures { IfOk result (λ v. map edge_of v.items ≡ map (edge_between points.now) edges.now) }
{
    let mut spans = Vec::with_capacity(alloc, edges.len())?;
    let mut place = 0;
    for edge in edges {
        spans.push(span_along(pieces, points, stretches, place, edge))?;
        place = place_after(stretches, place, edge);
    }
    Ok(spans)
}

// The rows of the darts that go forward along edges, in the order of these.
fn rows_along(alloc: Global, edges: &[EdgeEnds]) -> Result<Vec<ListedDart>, NoMemory>
    ensures { IfOk result (λ v. v.items ≡ ends_rows 0 edges.now) }
{
    let mut rows = Vec::with_capacity(alloc, edges.len())?;
    for (edge, ends) in edges.iter().enumerate() {
        rows.push(ListedDart {
            source: ends.low,
            target: ends.high,
            edge,
            forward: true,
        })?;
    }
    Ok(rows)
}

/// The plane graph of a fit present, by one sweep over the spans of its pieces (CGAL manual, `Arrangement_2`; Fogel, Halperin and Wein:
/// a sweep that builds an arrangement), with the cycles of its darts and the ranks of their faces. It takes n log n steps for n events
/// and stretches, besides those of the sweep's own lists.
///
/// # Errors
///
/// There was no memory.
pub fn graph_of(alloc: Global, present: &Present) -> Result<LayerGraph, NoMemory>
    requires { IsFit (present_of present.now) }
    ensures { IfOk result (IsLayerGraph (present_of present.now)) }
{
    let pieces = spans_of(alloc, present.pieces.as_slice())?;
    let trace = trace_of_present(alloc, present, &pieces)?;
    let points = trace.points.as_slice();
    let stretches = stretches_by_edges(alloc, trace.stretches.as_slice())?;
    // Their order is that of the edges, which the sort finds in one pass.
    let edges = edges_along(alloc, &stretches)?;
    let spans = spans_along(alloc, &pieces, points, &stretches, &edges)?;
    // They are the largest list, and room for those to come.
    drop(pieces);
    let below = edges_below(alloc, &trace)?;
    let ahead = rows_along(alloc, &edges)?;
    let orbits = orbits_of(alloc, points, &spans, &ahead)?;
    let roots = roots_of(alloc, points, &spans, &orbits, &below)?;
    let ranks = cycle_ranks(alloc, points, &spans, &roots)?;
    Ok(LayerGraph {
        trace,
        stretches,
        edges,
        spans,
        below,
        orbits,
        roots,
        ranks,
    })
}
