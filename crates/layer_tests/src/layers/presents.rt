ghost use Rattle.std.specs.Prelude.{◌≡◌, map, IfOk};
ghost use Rattle.plane_graphs.specs.Fit.{IsFit};
ghost use Rattle.slab_laws.specs.Pieces.{piece_of, present_of};
ghost use Rattle.slab_laws.specs.Sound.{IsGraphSound};
ghost use Rattle.record_orders.specs.Keys.{vertex_keys};
ghost use Rattle.subdivision_rows.specs.ByName.{points_at, pinned_among};

use arrangement::{Arrangement, Darts, History, Point, Records};
use no_memory::NoMemory;
use record_orders::{VertexKey, vertices_in_order};
use slab_laws::{Piece, Present, Sequence};
use std::alloc::Global;

// The pieces of a history, in their order.
fn pieces_of(alloc: Global, history: &History) -> Result<Sequence<Piece>, NoMemory>
    ensures { IfOk result (λ s. map piece_of s ≡ history.now.pieces) }
{
    let mut pieces = Sequence::new(alloc);
    for piece in history.pieces_in_order() {
        pieces.push(*piece)?;
    }
    Ok(pieces)
}

// The points of the pinned vertices, in their order.
fn pins_of(
    alloc: Global,
    records: &Records,
    vertices: &[VertexKey],
) -> Result<Sequence<Point>, NoMemory>
    requires sound { IsGraphSound records.now.graph }
    requires vertices { vertices.now ≡ vertex_keys records.now.graph }
    ensures { IfOk result (λ s. s ≡ points_at (pinned_among records.now.graph vertices.now)) }
{
    let mut pins = Sequence::new(alloc);
    for vertex in vertices {
        if records.pinned(vertex.name) {
            pins.push(vertex.point)?;
        }
    }
    Ok(pins)
}

/// The pieces and the pinned points that a layer has.
///
/// # Errors
///
/// There was no memory for the lists.
pub fn present_of(alloc: Global, layer: &Arrangement) -> Result<Present, NoMemory>
    ensures { IfOk result (λ p. IsFit (present_of p)) }
{
    layer.laws();
    let pieces = pieces_of(alloc, layer.history())?;
    let vertices = vertices_in_order(alloc, layer.records())?;
    let pins = pins_of(alloc, layer.records(), &vertices)?;
    Ok(Present { pieces, pins })
}
