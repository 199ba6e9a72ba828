ghost use Rattle.std.specs.Prelude.{◌≡◌, ◌++◌, IfOk};
ghost use Rattle.slab_laws.specs.SpansDrawn.{drawn};
ghost use Rattle.slab_laws.specs.Faces.{cells};
ghost use Rattle.plain_slabs.specs.PlaceTables.{cells_across};

use crate::reaches::{Reach, list_reaches, width_of};
use crate::walls::begins_wall;
use edge_predicates::slab_after;
use exact_plane::{Point, Span};
use no_memory::NoMemory;
use slab_laws::SlabCell;
use std::alloc::Global;

// Adds the cells of a slab, from bottom to top.
fn add_slab(list: &mut Vec<SlabCell>, reaches: &[Reach], slab: usize) -> Result<(), NoMemory>
    ensures { IfOk result (λ _. list.new.items ≡ list.old.items ++ cells_across reaches.now slab) }
{
    for place in 0..=width_of(reaches, slab) {
        list.push(SlabCell { slab, place })?;
    }
    Ok(())
}

/// The cells of all slabs from left to right, in each slab from bottom to top.
///
/// Slabs come in the order of their points. `NoMemory` where there is no memory for the cells.
pub(crate) fn list_cells(
    alloc: Global,
    points: &[Point],
    edges: &[Span],
) -> Result<Vec<SlabCell>, NoMemory>
    ensures { IfOk result (λ cs. cs.items ≡ cells (drawn points.now edges.now)) }
{
    let reaches = list_reaches(alloc, points, edges)?;
    let mut list = Vec::new(alloc);
    add_slab(&mut list, &reaches, 0)?;
    for wall in points {
        if begins_wall(points, wall) {
            add_slab(&mut list, &reaches, slab_after(points, wall))?;
        }
    }
    Ok(list)
}
