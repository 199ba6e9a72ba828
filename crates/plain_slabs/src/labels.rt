ghost use Rattle.std.specs.Prelude.{◌≡◌, map, IfOk};
ghost use Rattle.plane_graphs.specs.Fit.{IsFit};
ghost use Rattle.slab_laws.specs.Pieces.{present_of};
ghost use Rattle.slab_laws.specs.Faces.{face_of};
ghost use Rattle.slab_laws.specs.Subdivision.{rank};
ghost use Rattle.slab_laws.specs.Overlay.{label};
ghost use Rattle.slab_laws.specs.Layers.{rows_of};
ghost use Rattle.subdivision_rows.specs.Listed.{skeleton_in, subdivision_in};
ghost use Rattle.plain_slabs.specs.LayerEdges.{AreSlantedAcross, slab_beside, cell_among, rank_in};

use crate::build::subdivide;
use crate::layer_cells::{LayerEdge, cell_among, layer_edges, slabs_beside};
use crate::layer_table::curves_of_edges;
use crate::plain::Plain;
use crate::ranks::rank_of;
use no_memory::NoMemory;
use slab_laws::{Present, SlabCell};
use std::alloc::Global;
use subdivision_rows::LayerTable;

// The rank of the face that holds a cell.
fn rank_at(plain: &Plain, cell: SlabCell) -> usize
    ensures { result ≡ rank_in (subdivision_in plain.now) cell }
{
    rank_of(&plain.faces, plain.labels.least_of(cell))
}

// Of each cell the rank of the layer's face that holds it.
fn ranks_at(
    alloc: Global,
    own: &Plain,
    edges: &[LayerEdge],
    slabs: &[usize],
    cells: &[SlabCell],
) -> Result<Vec<usize>, NoMemory>
    requires { AreSlantedAcross edges.now }
    ensures { IfOk result (λ v. v.items
        ≡ map (λ c. rank_in (subdivision_in own.now) (cell_among edges.now slabs.now c)) cells.now) }
{
    let mut ranks = Vec::new(alloc);
    for cell in cells {
        let within = cell_among(alloc, edges, slabs, *cell)?;
        ranks.push(rank_at(own, within))?;
    }
    Ok(ranks)
}

// Of each face the rank of the face of the layer's own subdivision that holds it.
fn labels_within(
    alloc: Global,
    plain: &Plain,
    own: &Plain,
    edges: &[LayerEdge],
) -> Result<Vec<usize>, NoMemory>
    requires { AreSlantedAcross edges.now }
    ensures { IfOk result (λ v. v.items
        ≡ map (λ c. rank_in (subdivision_in own.now) (cell_among edges.now
        (map (slab_beside plain.now.graph.points) own.now.graph.points) c)) (subdivision_in plain.now).faces) }
{
    let slabs = slabs_beside(alloc, &plain.rows.lists().points, &own.rows.lists().points)?;
    ranks_at(alloc, own, edges, &slabs, &plain.faces)
}

// Of each face the rank of the layer's face that holds it.
fn labels_of(alloc: Global, plain: &Plain, layer: &Present) -> Result<Vec<usize>, NoMemory>
    requires { IsFit (present_of layer.now) }
    ensures { IfOk result (λ v. v.items
        ≡ map (label (present_of layer.now) (skeleton_in plain.now)) (subdivision_in plain.now).faces) }
{
    let lists = plain.rows.lists();
    let edges = layer_edges(alloc, layer, &lists.points, &lists.edges)?;
    let own = subdivide(alloc, layer)?;
    let labels = labels_within(alloc, plain, &own, &edges);
    // By a call, which is proved once for the type; what a scope drops at its end is proved there anew.
    drop(own);
    labels
}

// What the subdivision by both layers tells of one of them.
pub(crate) fn table_of(
    alloc: Global,
    plain: &Plain,
    layer: &Present,
) -> Result<LayerTable, NoMemory>
    requires { IsFit (present_of layer.now) }
    ensures { IfOk result (λ t. t ≡ rows_of (present_of layer.now) (subdivision_in plain.now)) }
{
    let curves = curves_of_edges(alloc, layer, &plain.rows.lists().edges)?;
    let labels = labels_of(alloc, plain, layer)?;
    Ok(LayerTable::of(curves, labels))
}
