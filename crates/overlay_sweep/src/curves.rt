ghost use Rattle.std.specs.Prelude.{◌≡◌, map, IfOk};
ghost use Rattle.std.specs.List.{filter_map, prefix_len};
ghost use Rattle.plane_graphs.specs.Fit.{IsFit};
ghost use Rattle.slab_laws.specs.Pieces.{present_of};
ghost use Rattle.slab_laws.specs.Overlay.{curves_along, plane_of};
ghost use Rattle.overlay_sweep.specs.EdgeCurves.{is_along, own_curve, own_numbers};
ghost use Rattle.overlay_sweep.specs.LayerGraphs.{IsLayerGraph, ArePiecesFrom};
ghost use Rattle.subdivision_rows.specs.LayerTables.{numbers_in};

use crate::graphs::LayerGraph;
use no_memory::NoMemory;
use slab_laws::{CurveId, Piece, Present};
use std::alloc::{AllocError, Global};
use subdivision_rows::arrange_curves;
use sweep_graphs::{EdgeEnds, Stretch};

// Whether a stretch runs along an edge.
pub(crate) fn is_along(stretch: &Stretch, edge: &EdgeEnds) -> bool
    ensures { result ≡ is_along edge.now stretch.now }
{
    stretch.low == edge.low && stretch.high == edge.high
}

// How many of the stretches that stand first run along an edge.
pub(crate) fn count_along(stretches: &[Stretch], edge: &EdgeEnds) -> usize
    ensures { result ≡ prefix_len (is_along edge.now) stretches.now }
{
    stretches
        .iter()
        .take_while(|stretch| is_along(stretch, edge))
        .count()
}

// The curve of a stretch, if its piece is one of the layer's.
fn own_curve(pieces: &[Piece], first: usize, stretch: &Stretch) -> Option<CurveId>
    ensures { result ≡ own_curve pieces.now first stretch.now }
{
    let place = stretch.piece.checked_sub(first)?;
    let piece = pieces.get(place)?;
    Some(piece.curve)
}

// The layer's curves among those of stretches, in the order of these.
fn curves_among(
    alloc: Global,
    pieces: &[Piece],
    first: usize,
    stretches: &[Stretch],
) -> Result<Vec<CurveId>, AllocError>
    ensures { IfOk result (λ v. v.items ≡ filter_map (own_curve pieces.now first) stretches.now) }
{
    stretches
        .iter()
        .filter_map(|stretch| own_curve(pieces, first, stretch))
        .collect(alloc)
}

// The layer's curves among those of stretches, ascending.
fn arranged_curves(
    alloc: Global,
    pieces: &[Piece],
    first: usize,
    stretches: &[Stretch],
) -> Result<Vec<CurveId>, NoMemory>
    ensures { IfOk result (λ v. map (λ c. c.0) v.items ≡ own_numbers pieces.now first stretches.now) }
{
    let mut curves = curves_among(alloc, pieces, first, stretches)?;
    arrange_curves(&mut curves);
    Ok(curves)
}

/// Of each edge of the whole the curves of a layer along it, ascending, each once. The layer's pieces stand among those of the whole
/// from `first` on.
///
/// It goes through the edges and their stretches in step, since both are in one order.
///
/// # Errors
///
/// There was no memory for the curves.
pub fn curves_of_edges(
    alloc: Global,
    layer: &Present,
    whole: &LayerGraph,
    first: usize,
) -> Result<Vec<Vec<CurveId>>, NoMemory>
    ensures { (w : _) → IsFit w → IsLayerGraph w whole.now → ArePiecesFrom first (present_of layer.now) w
        → IfOk result (λ v. numbers_in v.items ≡ map (curves_along (present_of layer.now)) (plane_of w).edges) }
{
    let mut rows = Vec::with_capacity(alloc, whole.edges.len())?;
    let mut rest = whole.stretches.as_slice();
    for edge in &whole.edges {
        let (along, others) = rest.split_at(count_along(rest, edge));
        rows.push(arranged_curves(alloc, layer.pieces.as_slice(), first, along)?)?;
        rest = others;
    }
    Ok(rows)
}
