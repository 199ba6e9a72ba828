ghost use Rattle.std.specs.Prelude.{◌≡◌, map, IfOk};
ghost use Rattle.plane_graphs.specs.Fit.{IsFit};
ghost use Rattle.slab_laws.specs.Pieces.{piece_of, present_of};
ghost use Rattle.slab_laws.specs.Sound.{IsGraphSound};
ghost use Rattle.told_steps.specs.RecordLayers.{layer_of};
ghost use Rattle.record_orders.specs.Keys.{vertex_keys};
ghost use Rattle.subdivision_rows.specs.ByName.{points_at, pinned_among};
ghost use Rattle.overlay_sweep.specs.OwnEdges.{AreOwnEdges};

use crate::layer_records::LayerRecords;
use curve_history::History;
use dcel_records::Records;
use exact_plane::Point;
use no_memory::NoMemory;
use overlay_sweep::OwnEdge;
use own_edges::own_edges;
use record_orders::{VertexKey, vertices_in_order};
use slab_laws::{Darts, Piece, Present, Sequence};
use std::alloc::Global;

// The pieces of a history, in their order.
fn pieces_of(alloc: Global, history: &History) -> Result<Sequence<Piece>, NoMemory>
    ensures { IfOk result (λ s. map piece_of s ≡ history.now.pieces) }
{
    let mut pieces = Sequence::new(alloc);
    for piece in history.pieces_in_order() {
        pieces.push(*piece)?;
    }
    Ok(pieces)
}

// The points of the pinned vertices, in their order.
fn pins_of(
    alloc: Global,
    records: &Records,
    vertices: &[VertexKey],
) -> Result<Sequence<Point>, NoMemory>
    requires sound { IsGraphSound records.now.graph }
    requires vertices { vertices.now ≡ vertex_keys records.now.graph }
    ensures { IfOk result (λ s. s ≡ points_at (pinned_among records.now.graph vertices.now)) }
{
    let mut pins = Sequence::new(alloc);
    for vertex in vertices {
        if records.pinned(vertex.name) {
            pins.push(vertex.point)?;
        }
    }
    Ok(pins)
}

// The points of the pinned vertices, in their order; where none is pinned no order is made.
fn pins_in_order(alloc: Global, records: &Records) -> Result<Sequence<Point>, NoMemory>
    requires { IsGraphSound records.now.graph }
    ensures { let v = records.now.graph in IfOk result (λ s. s ≡ points_at (pinned_among v (vertex_keys v))) }
{
    if records.pins() == 0 {
        return Ok(Sequence::new(alloc));
    }
    let vertices = vertices_in_order(alloc, records)?;
    pins_of(alloc, records, &vertices)
}

/// What a layer has at this moment: the pieces of its history, and its pinned points, ascending.
///
/// # Errors
///
/// There was no memory for the lists.
pub(crate) fn present_of(alloc: Global, layer: &LayerRecords) -> Result<Present, NoMemory>
    ensures present { IfOk result (λ p. present_of p ≡ (layer_of layer.now.graph layer.now.past).present) }
    ensures fit { IfOk result (λ p. IsFit (present_of p)) }
{
    let pieces = pieces_of(alloc, &layer.history)?;
    let pins = pins_in_order(alloc, &layer.records)?;
    Ok(Present { pieces, pins })
}

/// The edges of a layer, each with the rank of the face above it: the rank that it was given, where one was asked for twice since the last
/// edit, and else its place among the outer cycles, which are sorted.
///
/// # Errors
///
/// There was no memory for the list or for a table on the way.
pub(crate) fn edges_of(alloc: Global, layer: &LayerRecords) -> Result<Vec<OwnEdge>, NoMemory>
    ensures { IfOk result (λ v. AreOwnEdges (layer_of layer.now.graph layer.now.past).present v.items) }
{
    own_edges(alloc, &layer.records, layer.findings.ranking)
}
