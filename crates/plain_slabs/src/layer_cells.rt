ghost use Rattle.std.specs.Prelude.{◌≡◌, map, filter, true, IfOk};
ghost use Rattle.std.specs.List.{count_by};
ghost use lib.Dec.{leb};
ghost use Rattle.plane_graphs.specs.Fit.{IsFit};
ghost use Rattle.slab_laws.specs.Pieces.{present_of};
ghost use Rattle.slab_laws.specs.Skeleton.{left_of};
ghost use Rattle.slab_laws.specs.SpansDrawn.{edge_of};
ghost use Rattle.plain_slabs.specs.LayerEdges.{slab_beside, layer_edge, is_across, AreSlanted, AreSlantedAcross, count_below, count_layer, cell_among};

use crate::layer_table::have_along;
use edge_predicates::{is_below, slab_after};
use exact_plane::{Point, Span};
use slab_laws::{Present, SlabCell};
use std::alloc::{AllocError, Global};

/// An edge with the slabs that it spans, and whether it is of a layer.
#[derive(Clone, Copy)]
pub(crate) struct LayerEdge {
    pub(crate) edge: Span,
    /// The number of the first slab that it spans.
    pub(crate) first: usize,
    /// The number of the first slab after it: the slab on the right of its upper end.
    pub(crate) end: usize,
    /// Whether a curve of the layer runs along it.
    pub(crate) is_of_layer: bool,
}

impl LayerEdge {
    // Whether the edge goes from wall to wall of the slab.
    fn spans(&self, slab: usize) -> bool
        ensures { result ≡ is_across slab self.now }
    {
        self.first <= slab && slab < self.end
    }
}

fn layer_edge(layer: &Present, points: &[Point], edge: &Span) -> LayerEdge
    ensures { result ≡ layer_edge (present_of layer.now) points.now edge.now }
{
    LayerEdge {
        edge: *edge,
        first: slab_after(points, &edge.lower()),
        end: slab_after(points, &edge.upper()),
        is_of_layer: have_along(layer.pieces.as_slice(), edge),
    }
}

// Each edge with its slabs, and whether a curve of the layer runs along it.
pub(crate) fn layer_edges(
    alloc: Global,
    layer: &Present,
    points: &[Point],
    edges: &[Span],
) -> Result<Vec<LayerEdge>, AllocError>
    ensures { IfOk result (λ v. v.items ≡ map (layer_edge (present_of layer.now) points.now) edges.now) }
{
    edges
        .iter()
        .map(|edge| layer_edge(layer, points, edge))
        .collect(alloc)
}

// The numbers of the slabs beside the layer's vertices.
pub(crate) fn slabs_beside(
    alloc: Global,
    points: &[Point],
    vertices: &[Point],
) -> Result<Vec<usize>, AllocError>
    ensures { IfOk result (λ v. v.items ≡ map (slab_beside points.now) vertices.now) }
{
    vertices
        .iter()
        .map(|vertex| slab_after(points, vertex))
        .collect(alloc)
}

// The edges that span the slab.
fn list_across(
    alloc: Global,
    edges: &[LayerEdge],
    slab: usize,
) -> Result<Vec<LayerEdge>, AllocError>
    ensures { IfOk result (λ v. v.items ≡ filter (is_across slab) edges.now) }
{
    edges
        .iter()
        .copied()
        .filter(|edge| edge.spans(slab))
        .collect(alloc)
}

// How many of the edges are below the edge.
fn count_lower(edges: &[LayerEdge], edge: &Span) -> usize
    requires own { left_of edge.now.lower edge.now.upper ≡ true }
    requires others { AreSlanted edges.now }
    ensures { result ≡ count_below edges.now (edge_of edge.now) }
{
    edges
        .iter()
        .filter(|other| is_below(&other.edge, edge))
        .count()
}

// Of the edges of a slab, how many of so many lowest ones are of the layer.
fn count_layer(edges: &[LayerEdge], place: usize) -> usize
    requires { AreSlanted edges.now }
    ensures { result ≡ count_layer edges.now place }
{
    edges
        .iter()
        .filter(|edge| edge.is_of_layer && count_lower(edges, &edge.edge) < place)
        .count()
}

// How many of the numbers are no greater than the slab's.
fn count_upto(numbers: &[usize], slab: usize) -> usize
    ensures { result ≡ count_by (λ n. leb n slab) numbers.now }
{
    numbers.iter().filter(|number| **number <= slab).count()
}

// The layer's cell that holds a cell.
pub(crate) fn cell_among(
    alloc: Global,
    edges: &[LayerEdge],
    slabs: &[usize],
    cell: SlabCell,
) -> Result<SlabCell, AllocError>
    requires { AreSlantedAcross edges.now }
    ensures { IfOk result (λ c. c ≡ cell_among edges.now slabs.now cell) }
{
    let here = list_across(alloc, edges, cell.slab)?;
    Ok(SlabCell {
        slab: count_upto(slabs, cell.slab),
        place: count_layer(&here, cell.place),
    })
}
