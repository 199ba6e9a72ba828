ghost use Rattle.std.specs.Prelude.{◌≡◌, map, IfOk};
ghost use Rattle.std.specs.List.Sorted.{IsSorted};
ghost use Rattle.plane_graphs.specs.Fit.{IsFit};
ghost use Rattle.plane_graphs.specs.Piece.{Present as Pieces};
ghost use Rattle.plane_graphs.specs.Plane.{IsPlane};
ghost use Rattle.set_laws.specs.PolygonSets.{pieces_along};
ghost use Rattle.slab_laws.specs.FacesSound.{IsSound};
ghost use Rattle.slab_laws.specs.Layers.{rows_of as layer_rows};
ghost use Rattle.slab_laws.specs.Overlay.{both, label, overlay, overlay_skeleton, plane_of};
ghost use Rattle.slab_laws.specs.Pieces.{present_of};
ghost use Rattle.slab_laws.specs.Subdivision.{subdivision};
ghost use Rattle.overlay_laws.specs.United.{united};
ghost use Rattle.overlay_sweep.specs.KnownLabels.{AreLabelled};
ghost use Rattle.overlay_sweep.specs.LayerGraphs.{IsLayerGraph, ArePiecesFrom};
ghost use Rattle.overlay_sweep.specs.OwnEdges.{begin_cmp, AreOwnEdges};
ghost use Rattle.subdivision_rows.specs.Listed.{subdivision_in, view_of, faces_of, AreLinesOf};

use crate::counted::{counted_by, graph_of_both};
use crate::curves::curves_of_edges;
use crate::faces::labels_of_faces;
use crate::graphs::LayerGraph;
use crate::known::known_labels;
use crate::layers::labels_above;
use crate::own::{OwnEdge, sort_edges};
use no_memory::NoMemory;
use slab_laws::Present;
use std::alloc::Global;
use subdivision_rows::{Both, LayerTable};

// Of each face of the whole the rank of the layer's face that holds it. The layer's pieces stand in the whole from `first` on.
fn labels_of_layer(
    alloc: Global,
    layer: &Present,
    own: &[OwnEdge],
    whole: &LayerGraph,
    first: usize,
) -> Result<Vec<usize>, NoMemory>
    requires fit { IsFit (present_of layer.now) }
    requires own { AreOwnEdges (present_of layer.now) own.now }
    requires sorted { IsSorted begin_cmp own.now }
    requires whole { (w : Pieces) × IsFit w × IsLayerGraph w whole.now × ArePiecesFrom first (present_of layer.now) w }
    ensures { (w : Pieces) → IsFit w → IsLayerGraph w whole.now → ArePiecesFrom first (present_of layer.now) w → AreLabelled (present_of layer.now) w
        → IfOk result (λ v. v.items ≡ map (label (present_of layer.now) (plane_of w)) (subdivision (plane_of w)).faces) }
{
    let known = known_labels(alloc, layer, own, whole, first)?;
    let points = whole.trace.points.as_slice();
    let above = labels_above(
        alloc,
        points,
        &whole.spans,
        &whole.orbits,
        &whole.below,
        &known,
    )?;
    let labels = labels_of_faces(
        alloc,
        points,
        &whole.spans,
        &whole.orbits,
        &whole.roots,
        &above,
    )?;
    Ok(labels)
}

// What the whole tells of a layer: the layer's curves along each edge, and the label of each face.
fn table_of(
    alloc: Global,
    layer: &Present,
    own: &[OwnEdge],
    whole: &LayerGraph,
    first: usize,
) -> Result<LayerTable, NoMemory>
    requires fit { IsFit (present_of layer.now) }
    requires own { AreOwnEdges (present_of layer.now) own.now }
    requires sorted { IsSorted begin_cmp own.now }
    requires whole { (w : Pieces) × IsFit w × IsLayerGraph w whole.now × ArePiecesFrom first (present_of layer.now) w }
    ensures { (w : Pieces) → IsFit w → IsLayerGraph w whole.now → ArePiecesFrom first (present_of layer.now) w → AreLabelled (present_of layer.now) w
        → IfOk result (λ t. t ≡ layer_rows (present_of layer.now) (subdivision (plane_of w))) }
{
    let labels = labels_of_layer(alloc, layer, own, whole, first)?;
    let curves = curves_of_edges(alloc, layer, whole, first)?;
    Ok(LayerTable::of(curves, labels))
}

// The same, with the layer's own edges brought into their order.
fn table_by_edges(
    alloc: Global,
    layer: &Present,
    edges: Vec<OwnEdge>,
    whole: &LayerGraph,
    first: usize,
) -> Result<LayerTable, NoMemory>
    requires fit { IsFit (present_of layer.now) }
    requires own { AreOwnEdges (present_of layer.now) edges.items }
    requires whole { (w : Pieces) × IsFit w × IsLayerGraph w whole.now × ArePiecesFrom first (present_of layer.now) w }
    ensures { (w : Pieces) → IsFit w → IsLayerGraph w whole.now → ArePiecesFrom first (present_of layer.now) w → AreLabelled (present_of layer.now) w
        → IfOk result (λ t. t ≡ layer_rows (present_of layer.now) (subdivision (plane_of w))) }
{
    let mut own = edges;
    sort_edges(&mut own);
    let table = table_of(alloc, layer, &own, whole, first);
    // By a call, which is proved once for the type; what a scope drops at its end is proved there anew.
    drop(own);
    table
}

// What the overlay tells of both layers.
fn tables_of(
    alloc: Global,
    red: &Present,
    blue: &Present,
    red_edges: Vec<OwnEdge>,
    blue_edges: Vec<OwnEdge>,
    whole: &LayerGraph,
) -> Result<(LayerTable, LayerTable), NoMemory>
    requires red { IsFit (present_of red.now) }
    requires blue { IsFit (present_of blue.now) }
    requires red_edges { AreOwnEdges (present_of red.now) red_edges.items }
    requires blue_edges { AreOwnEdges (present_of blue.now) blue_edges.items }
    requires whole { IsLayerGraph (united (present_of red.now) (present_of blue.now)) whole.now }
    ensures red { IfOk result (λ t. t.0 ≡ layer_rows (present_of red.now) (overlay (present_of red.now) (present_of blue.now))) }
    ensures blue { IfOk result (λ t. t.1 ≡ layer_rows (present_of blue.now) (overlay (present_of red.now) (present_of blue.now))) }
{
    let of_red = table_by_edges(alloc, red, red_edges, whole, 0)?;
    let of_blue = table_by_edges(alloc, blue, blue_edges, whole, red.pieces.as_slice().len())?;
    Ok((of_red, of_blue))
}

/// The overlay of two layers: the subdivision of the plane by the pieces and pins of both, of each of its edges the red and
/// the blue curves along it, and of each of its faces the red face and the blue face that hold it (CGAL manual, `overlay`).
///
/// The layers hand in their edges, in any order, with the ranks of their faces, so that there is one plane sweep, of both layers
/// together, and passes over what it leaves: n log n steps in all (Fogel, Halperin and Wein: an overlay by one sweep over the curves of
/// both).
///
/// # Errors
///
/// There was no memory for the overlay or for a table on the way; for more than 2^32 pieces there is none.
pub fn overlay(
    alloc: Global,
    red: &Present,
    blue: &Present,
    red_edges: Vec<OwnEdge>,
    blue_edges: Vec<OwnEdge>,
) -> Result<Both, NoMemory>
    requires red { IsFit (present_of red.now) }
    requires blue { IsFit (present_of blue.now) }
    requires red_edges { AreOwnEdges (present_of red.now) red_edges.items }
    requires blue_edges { AreOwnEdges (present_of blue.now) blue_edges.items }
    ensures subdivision { IfOk result (λ b.
        subdivision_in b.drawing ≡ overlay (present_of red.now) (present_of blue.now)) }
    ensures pins { IfOk result (λ b. b.drawing.graph.pins ≡ (both (present_of red.now) (present_of blue.now)).pins) }
    ensures red { IfOk result (λ b.
        b.red ≡ layer_rows (present_of red.now) (overlay (present_of red.now) (present_of blue.now))) }
    ensures blue { IfOk result (λ b.
        b.blue ≡ layer_rows (present_of blue.now) (overlay (present_of red.now) (present_of blue.now))) }
    ensures red_pieces { IfOk result (λ b.
        b.red_pieces ≡ map (pieces_along (present_of red.now)) (overlay_skeleton (present_of red.now) (present_of blue.now)).edges) }
    ensures blue_pieces { IfOk result (λ b.
        b.blue_pieces ≡ map (pieces_along (present_of blue.now)) (overlay_skeleton (present_of red.now) (present_of blue.now)).edges) }
    ensures plane { IfOk result (λ b. IsPlane b.drawing.graph) }
    ensures lines { IfOk result (λ b. AreLinesOf b.drawing) }
    ensures stands { IfOk result (λ b. IsSound (view_of b.drawing) (faces_of b.drawing)) }
{
    let (united, whole) = graph_of_both(alloc, red, blue)?;
    let (of_red, of_blue) = tables_of(alloc, red, blue, red_edges, blue_edges, &whole)?;
    let counted = counted_by(alloc, red, blue, united, whole)?;
    counted.rows.laws();
    Ok(Both::of(
        alloc,
        counted.rows,
        of_red,
        of_blue,
        counted.red,
        counted.blue,
    ))
}
