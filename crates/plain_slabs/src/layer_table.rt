ghost use Rattle.std.specs.Prelude.{◌≡◌, map, filter, IfOk};
ghost use Rattle.std.specs.List.{count_by, list_any};
ghost use Rattle.set_laws.specs.PolygonSets.{pieces_along};
ghost use Rattle.slab_laws.specs.Pieces.{piece_of, present_of};
ghost use Rattle.slab_laws.specs.SpansDrawn.{edge_of};
ghost use Rattle.present_graphs.specs.Spans.{span_of_piece, lies_on};
ghost use Rattle.slab_laws.specs.Overlay.{runs_along, curves_along};
ghost use Rattle.subdivision_rows.specs.LayerTables.{numbers_in};
ghost use Rattle.plain_slabs.specs.LayerEdges.{numbers_along};

use exact_plane::{Point, Span, line_of};
use no_memory::NoMemory;
use slab_laws::{CurveId, Piece, Present};
use std::alloc::Global;
use subdivision_rows::arrange_curves;

// Whether a point lies on a piece.
fn holds(piece: &Piece, point: &Point) -> bool
    ensures { result ≡ lies_on (span_of_piece (piece_of piece.now)) point.now }
{
    // Most points are told by their order, which is cheaper than a line.
    piece.from <= *point && *point <= piece.to && line_of(&piece.segment).holds(point)
}

// Whether a piece holds both ends of an edge.
fn runs_along(edge: &Span, piece: &Piece) -> bool
    ensures { result ≡ runs_along (edge_of edge.now) (piece_of piece.now) }
{
    holds(piece, &edge.lower()) && holds(piece, &edge.upper())
}

// Whether one of the pieces runs along an edge.
pub(crate) fn have_along(pieces: &[Piece], edge: &Span) -> bool
    ensures { result ≡ list_any (λ k. runs_along (edge_of edge.now) (piece_of k)) pieces.now }
{
    pieces.iter().any(|piece| runs_along(edge, piece))
}

// The curves of the pieces that run along an edge, in the order of the pieces.
fn curves_among(alloc: Global, pieces: &[Piece], edge: &Span) -> Result<Vec<CurveId>, NoMemory>
    ensures { IfOk result (λ v. v.items
        ≡ map (λ k. k.curve) (filter (λ k. runs_along (edge_of edge.now) (piece_of k)) pieces.now)) }
{
    // A loop, since the proof of two adaptors with a closure each takes twice as long.
    let mut curves = Vec::new(alloc);
    for piece in pieces {
        if runs_along(edge, piece) {
            curves.push(piece.curve)?;
        }
    }
    Ok(curves)
}

// The curves along an edge, ascending.
fn curves_along(alloc: Global, pieces: &[Piece], edge: &Span) -> Result<Vec<CurveId>, NoMemory>
    ensures { IfOk result (λ v. map (λ c. c.0) v.items ≡ numbers_along pieces.now (edge_of edge.now)) }
{
    let mut curves = curves_among(alloc, pieces, edge)?;
    arrange_curves(&mut curves);
    Ok(curves)
}

// The curves along each of the edges.
pub(crate) fn curves_of_edges(
    alloc: Global,
    layer: &Present,
    edges: &[Span],
) -> Result<Vec<Vec<CurveId>>, NoMemory>
    ensures { IfOk result (λ v. numbers_in v.items
        ≡ map (curves_along (present_of layer.now)) (map edge_of edges.now)) }
{
    let mut rows = Vec::new(alloc);
    for edge in edges {
        rows.push(curves_along(alloc, layer.pieces.as_slice(), edge)?)?;
    }
    Ok(rows)
}

// How many of the pieces run along an edge.
fn count_along(pieces: &[Piece], edge: &Span) -> usize
    ensures { result ≡ count_by (λ k. runs_along (edge_of edge.now) (piece_of k)) pieces.now }
{
    pieces
        .iter()
        .filter(|piece| runs_along(edge, piece))
        .count()
}

// How many pieces of the layer hold each of the edges.
pub(crate) fn pieces_of_edges(
    alloc: Global,
    layer: &Present,
    edges: &[Span],
) -> Result<Vec<usize>, NoMemory>
    ensures { IfOk result (λ v. v.items ≡ map (pieces_along (present_of layer.now)) (map edge_of edges.now)) }
{
    let mut counts = Vec::new(alloc);
    for edge in edges {
        counts.push(count_along(layer.pieces.as_slice(), edge))?;
    }
    Ok(counts)
}
