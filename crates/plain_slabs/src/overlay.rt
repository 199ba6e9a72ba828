ghost use Rattle.std.specs.Prelude.{◌≡◌, map, IfOk};
ghost use Rattle.plane_graphs.specs.Graph.{edges};
ghost use Rattle.set_laws.specs.PolygonSets.{pieces_along};
ghost use Rattle.plane_graphs.specs.Fit.{IsFit};
ghost use Rattle.plane_graphs.specs.Plane.{IsPlane};
ghost use Rattle.slab_laws.specs.FacesSound.{IsSound};
ghost use Rattle.slab_laws.specs.Pieces.{present_of};
ghost use Rattle.slab_laws.specs.Overlay.{both, overlay};
ghost use Rattle.slab_laws.specs.Layers.{rows_of};
ghost use Rattle.subdivision_rows.specs.Listed.{subdivision_in, view_of, faces_of, AreLinesOf};

use crate::build::subdivide;
use crate::labels::table_of;
use crate::layer_table::pieces_of_edges;
use crate::plain::Plain;
use no_memory::NoMemory;
use present_graphs::unite;
use slab_laws::Present;
use std::alloc::Global;
use subdivision_rows::{Both, LayerTable};

// The subdivision by both layers. Each piece stands for a curve in it.
fn subdivide_united(alloc: Global, red: &Present, blue: &Present) -> Result<Plain, NoMemory>
    requires red { IsFit (present_of red.now) }
    requires blue { IsFit (present_of blue.now) }
    ensures subdivision { IfOk result (λ s.
        subdivision_in s ≡ overlay (present_of red.now) (present_of blue.now)) }
    ensures pins { IfOk result (λ s. s.graph.pins ≡ (both (present_of red.now) (present_of blue.now)).pins) }
    ensures plane { IfOk result (λ s. IsPlane s.graph) }
    ensures lines { IfOk result AreLinesOf }
    ensures stands { IfOk result (λ s. IsSound (view_of s) (faces_of s)) }
{
    let present = unite(alloc, red, blue)?;
    let plain = subdivide(alloc, &present)?;
    Ok(plain)
}

// What the subdivision by both layers tells of each of them.
fn tables_of(
    alloc: Global,
    plain: &Plain,
    red: &Present,
    blue: &Present,
) -> Result<(LayerTable, LayerTable), NoMemory>
    requires red { IsFit (present_of red.now) }
    requires blue { IsFit (present_of blue.now) }
    ensures red { IfOk result (λ t. t.0 ≡ rows_of (present_of red.now) (subdivision_in plain.now)) }
    ensures blue { IfOk result (λ t. t.1 ≡ rows_of (present_of blue.now) (subdivision_in plain.now)) }
{
    let of_red = table_of(alloc, plain, red)?;
    let of_blue = table_of(alloc, plain, blue)?;
    Ok((of_red, of_blue))
}

// How many red pieces hold each edge of the subdivision, and how many blue ones.
fn pieces_of(
    alloc: Global,
    plain: &Plain,
    red: &Present,
    blue: &Present,
) -> Result<(Vec<usize>, Vec<usize>), NoMemory>
    ensures red { IfOk result (λ t. t.0.items ≡ map (pieces_along (present_of red.now)) (edges plain.now.graph)) }
    ensures blue { IfOk result (λ t. t.1.items ≡ map (pieces_along (present_of blue.now)) (edges plain.now.graph)) }
{
    let of_red = pieces_of_edges(alloc, red, &plain.rows.lists().edges)?;
    let of_blue = pieces_of_edges(alloc, blue, &plain.rows.lists().edges)?;
    Ok((of_red, of_blue))
}

// What the overlay tells of each layer: its table, and of each edge how many of its pieces hold it.
fn parts_of(
    alloc: Global,
    plain: &Plain,
    red: &Present,
    blue: &Present,
) -> Result<(LayerTable, LayerTable, Vec<usize>, Vec<usize>), NoMemory>
    requires red { IsFit (present_of red.now) }
    requires blue { IsFit (present_of blue.now) }
    ensures red { IfOk result (λ t. t.0 ≡ rows_of (present_of red.now) (subdivision_in plain.now)) }
    ensures blue { IfOk result (λ t. t.1 ≡ rows_of (present_of blue.now) (subdivision_in plain.now)) }
    ensures red_pieces { IfOk result (λ t. t.2.items ≡ map (pieces_along (present_of red.now)) (edges plain.now.graph)) }
    ensures blue_pieces { IfOk result (λ t. t.3.items ≡ map (pieces_along (present_of blue.now)) (edges plain.now.graph)) }
{
    let (of_red, of_blue) = tables_of(alloc, plain, red, blue)?;
    let (red_pieces, blue_pieces) = pieces_of(alloc, plain, red, blue)?;
    Ok((of_red, of_blue, red_pieces, blue_pieces))
}

/// The overlay of two layers: the subdivision of the plane by the pieces and pins of both, of each of its edges the red and
/// the blue curves along it, and of each of its faces the red face and the blue face that hold it (CGAL manual, `overlay`).
///
/// It computes everything afresh, by the definitions of the slab model: both layers together, and each alone.
///
/// # Errors
///
/// There was no memory for the overlay or for a table on the way; for more than 2^32 pieces there is none.
pub fn subdivide_both(alloc: Global, red: &Present, blue: &Present) -> Result<Both, NoMemory>
    requires red { IsFit (present_of red.now) }
    requires blue { IsFit (present_of blue.now) }
    ensures subdivision { IfOk result (λ b.
        subdivision_in b.drawing ≡ overlay (present_of red.now) (present_of blue.now)) }
    ensures pins { IfOk result (λ b. b.drawing.graph.pins ≡ (both (present_of red.now) (present_of blue.now)).pins) }
    ensures red { IfOk result (λ b.
        b.red ≡ rows_of (present_of red.now) (overlay (present_of red.now) (present_of blue.now))) }
    ensures blue { IfOk result (λ b.
        b.blue ≡ rows_of (present_of blue.now) (overlay (present_of red.now) (present_of blue.now))) }
    ensures plane { IfOk result (λ b. IsPlane b.drawing.graph) }
    ensures lines { IfOk result (λ b. AreLinesOf b.drawing) }
    ensures stands { IfOk result (λ b. IsSound (view_of b.drawing) (faces_of b.drawing)) }
{
    let plain = subdivide_united(alloc, red, blue)?;
    match parts_of(alloc, &plain, red, blue) {
        Ok((red, blue, red_pieces, blue_pieces)) => {
            Ok(Both::of(alloc, plain.rows, red, blue, red_pieces, blue_pieces))
        }
        Err(no_memory) => {
            // By a call, which is proved once for the type; what a scope drops at its end is proved there anew.
            drop(plain);
            Err(no_memory)
        }
    }
}
