ghost use Rattle.std.specs.Prelude.{◌≡◌, map, IfOk};
ghost use Rattle.std.specs.List.{count_by};
ghost use Rattle.plane_graphs.specs.Fit.{IsFit};
ghost use Rattle.set_laws.specs.PolygonSets.{pieces_along};
ghost use Rattle.slab_laws.specs.Pieces.{present_of};
ghost use Rattle.slab_laws.specs.Overlay.{plane_of};
ghost use Rattle.overlay_sweep.specs.EdgePieces.{is_own};
ghost use Rattle.overlay_sweep.specs.LayerGraphs.{IsLayerGraph, ArePiecesFrom};

use crate::curves::count_along;
use crate::graphs::LayerGraph;
use no_memory::NoMemory;
use slab_laws::Present;
use std::alloc::Global;
use sweep_graphs::Stretch;

// Whether a stretch is of one of so many pieces from `first` on.
fn is_own(first: usize, count: usize, stretch: &Stretch) -> bool
    ensures { result ≡ is_own first count stretch.now }
{
    stretch.piece >= first && stretch.piece - first < count
}

// How many of the stretches are.
fn count_own(first: usize, count: usize, stretches: &[Stretch]) -> usize
    ensures { result ≡ count_by (is_own first count) stretches.now }
{
    stretches
        .iter()
        .filter(|stretch| is_own(first, count, stretch))
        .count()
}

/// Of each edge of the whole how many pieces of a layer hold it: a curve whose pieces hold an edge twice counts twice. The layer's
/// pieces stand among those of the whole from `first` on.
///
/// It goes through the edges and their stretches in step, since both are in one order.
///
/// # Errors
///
/// There was no memory.
pub fn pieces_of_edges(
    alloc: Global,
    layer: &Present,
    whole: &LayerGraph,
    first: usize,
) -> Result<Vec<usize>, NoMemory>
    ensures { (w : _) → IsFit w → IsLayerGraph w whole.now → ArePiecesFrom first (present_of layer.now) w
        → IfOk result (λ v. v.items ≡ map (pieces_along (present_of layer.now)) (plane_of w).edges) }
{
    let count = layer.pieces.as_slice().len();
    let mut counts = Vec::with_capacity(alloc, whole.edges.len())?;
    let mut rest = whole.stretches.as_slice();
    for edge in &whole.edges {
        let (along, others) = rest.split_at(count_along(rest, edge));
        counts.push(count_own(first, count, along))?;
        rest = others;
    }
    Ok(counts)
}
