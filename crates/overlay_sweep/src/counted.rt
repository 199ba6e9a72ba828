ghost use Rattle.std.specs.Prelude.{◌≡◌, map, IfOk};
ghost use Rattle.plane_graphs.specs.Fit.{IsFit};
ghost use Rattle.plane_graphs.specs.Graph.{graph as graph_by};
ghost use Rattle.plane_graphs.specs.Plane.{IsPlane};
ghost use Rattle.set_laws.specs.PolygonSets.{pieces_along};
ghost use Rattle.slab_laws.specs.FacesSound.{IsSound};
ghost use Rattle.slab_laws.specs.Overlay.{both, overlay, overlay_skeleton};
ghost use Rattle.slab_laws.specs.Pieces.{present_of};
ghost use Rattle.overlay_laws.specs.United.{united};
ghost use Rattle.overlay_sweep.specs.LayerGraphs.{IsLayerGraph};
ghost use Rattle.subdivision_rows.specs.Listed.{subdivision_in, view_of, faces_of, AreLinesOf};

use crate::counts::pieces_of_edges;
use crate::graphs::{LayerGraph, graph_of};
use crate::rows::rows_of;
use no_memory::NoMemory;
use present_graphs::unite;
use slab_laws::Present;
use std::alloc::Global;
use subdivision_rows::Rows;

/// The subdivision by both layers, and of each of its edges how many red and how many blue pieces hold it.
#[derive(Drop)]
pub struct CountedRows {
    /// The subdivision by both.
    pub rows: Rows,
    /// Of each edge, by its place, how many red pieces hold it.
    pub red: Vec<usize>,
    /// And how many blue ones.
    pub blue: Vec<usize>,
}

// The pieces and pins of both layers as one present, and its graph.
pub(crate) fn graph_of_both(
    alloc: Global,
    red: &Present,
    blue: &Present,
) -> Result<(Present, LayerGraph), NoMemory>
    requires red { IsFit (present_of red.now) }
    requires blue { IsFit (present_of blue.now) }
    ensures present { IfOk result (λ t. present_of t.0 ≡ united (present_of red.now) (present_of blue.now)) }
    ensures graph { IfOk result (λ t. IsLayerGraph (united (present_of red.now) (present_of blue.now)) t.1) }
{
    let united = unite(alloc, red, blue)?;
    let whole = graph_of(alloc, &united)?;
    Ok((united, whole))
}

// How many red pieces hold each edge, and how many blue ones.
fn pieces_of(
    alloc: Global,
    red: &Present,
    blue: &Present,
    whole: &LayerGraph,
) -> Result<(Vec<usize>, Vec<usize>), NoMemory>
    requires red { IsFit (present_of red.now) }
    requires blue { IsFit (present_of blue.now) }
    requires whole { IsLayerGraph (united (present_of red.now) (present_of blue.now)) whole.now }
    ensures red { IfOk result (λ t. t.0.items ≡ map (pieces_along (present_of red.now)) (overlay_skeleton (present_of red.now) (present_of blue.now)).edges) }
    ensures blue { IfOk result (λ t. t.1.items ≡ map (pieces_along (present_of blue.now)) (overlay_skeleton (present_of red.now) (present_of blue.now)).edges) }
{
    let of_red = pieces_of_edges(alloc, red, whole, 0)?;
    let of_blue = pieces_of_edges(alloc, blue, whole, red.pieces.as_slice().len())?;
    Ok((of_red, of_blue))
}

// The rows of the subdivision by both layers, from their graph, and how many pieces of each hold its edges.
pub(crate) fn counted_by(
    alloc: Global,
    red: &Present,
    blue: &Present,
    present: Present,
    whole: LayerGraph,
) -> Result<CountedRows, NoMemory>
    requires red { IsFit (present_of red.now) }
    requires blue { IsFit (present_of blue.now) }
    requires present { present_of present ≡ united (present_of red.now) (present_of blue.now) }
    requires whole { IsLayerGraph (united (present_of red.now) (present_of blue.now)) whole }
    ensures graph { IfOk result (λ c. c.rows.graph ≡ graph_by (united (present_of red.now) (present_of blue.now))) }
    ensures red { IfOk result (λ c. c.red.items ≡ map (pieces_along (present_of red.now)) (overlay_skeleton (present_of red.now) (present_of blue.now)).edges) }
    ensures blue { IfOk result (λ c. c.blue.items ≡ map (pieces_along (present_of blue.now)) (overlay_skeleton (present_of red.now) (present_of blue.now)).edges) }
{
    let (of_red, of_blue) = pieces_of(alloc, red, blue, &whole)?;
    let rows = rows_of(alloc, present, whole)?;
    Ok(CountedRows {
        rows,
        red: of_red,
        blue: of_blue,
    })
}

/// The subdivision of the plane by the pieces and pins of two layers, and of each of its edges how many pieces of each layer hold it:
/// what an overlay has but for its curves and the labels of its faces (CGAL manual, `overlay`), and all that the even-odd sets of both
/// layers need.
///
/// One plane sweep, of both layers together, and passes over what it leaves: n log n steps in all.
///
/// # Errors
///
/// There was no memory for the subdivision or for a table on the way; for more than 2^32 pieces there is none.
pub fn counted_rows(alloc: Global, red: &Present, blue: &Present) -> Result<CountedRows, NoMemory>
    requires red { IsFit (present_of red.now) }
    requires blue { IsFit (present_of blue.now) }
    ensures subdivision { IfOk result (λ c.
        subdivision_in c.rows ≡ overlay (present_of red.now) (present_of blue.now)) }
    ensures pins { IfOk result (λ c. c.rows.graph.pins ≡ (both (present_of red.now) (present_of blue.now)).pins) }
    ensures red { IfOk result (λ c.
        c.red.items ≡ map (pieces_along (present_of red.now)) (overlay_skeleton (present_of red.now) (present_of blue.now)).edges) }
    ensures blue { IfOk result (λ c.
        c.blue.items ≡ map (pieces_along (present_of blue.now)) (overlay_skeleton (present_of red.now) (present_of blue.now)).edges) }
    ensures plane { IfOk result (λ c. IsPlane c.rows.graph) }
    ensures lines { IfOk result (λ c. AreLinesOf c.rows) }
    ensures stands { IfOk result (λ c. IsSound (view_of c.rows) (faces_of c.rows)) }
{
    let (united, whole) = graph_of_both(alloc, red, blue)?;
    let counted = counted_by(alloc, red, blue, united, whole)?;
    counted.rows.laws();
    Ok(counted)
}
